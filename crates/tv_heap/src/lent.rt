//! Decoding in place. Each call gives what stands at an address, whatever stands elsewhere; where nothing of the kind
//! stands there it gives some bytes or some number.

ghost use Rattle.std.specs.Prelude.{◌≡◌, ◌↔◌, [], ◌∷◌, ◌++◌, ◌<◌, ◌≤◌, ◌^◌, ℕ, ℤ, List, None, Some, length, option_map};
ghost use Rattle.tv_base.specs.Number.{vnum, sixteen_bytes, Fixed, Signed};
ghost use Rattle.tv_base.specs.Parts.{short_sized};
ghost use Rattle.tv_value.specs.LeafParts.{content_of};
ghost use Rattle.tv_format.specs.Leaves.{type_of, content, form};
ghost use Rattle.tv_value.specs.Lent.{leaf_of};
ghost use Rattle.tv_value.specs.PreTokenized.{tokenized_leaf};
ghost use Rattle.tv_format.specs.Short.{short_leaf, short_tokenized};
ghost use Rattle.tv_format.specs.Tree.{Token, Leaf, tokenized};
ghost use Rattle.tv_format.specs.Version.{Version};
ghost use Rattle.tv_format.specs.declared.leaf_type.Form.TheVariants as forms;
ghost use Rattle.tv_heap.specs.declared.value_type.ValueType.{ValueType};
ghost use Rattle.tv_heap.specs.Encoded.{encoded_bytes, last_byte_count, HoldsTokens, HasFewEntries, SaysTokenized};
ghost use Rattle.tv_heap.specs.Lent.{GivesChild, HasText};
ghost use Rattle.tv_heap.specs.Reads.{Stands, ShortSized, ShortText, ShortTokenized, LeafStands};
ghost use Rattle.tv_heap.specs.TypeCode.{type_code};

use crate::room::MAX_HEAP_LEN;
use crate::value::Encoded;
use crate::value_type::ValueType;
use tv_base::vint::VInt;
use tv_format::{Form, LeafType};
use tv_value::leaf::{LeafContent, ReferenceValueLeaf};
use tv_value::pre_tokenized::PreTokenizedStr;

// The number whose shortest encoding stands at the start, and what follows it. Most are lengths and addresses of one or two
// bytes.
#[inline]
fn short_at(bytes: &[u8]) -> (u64, &[u8])
    ensures behind { length result.1.now ≤ length bytes.now }
    ensures number { (n : ℕ) (rest : List ℕ) → n < 2 ^ 64 → bytes.now ≡ vnum n ++ rest
        → (result.0 ≡ n) × (result.1.now ≡ rest) }
{
    match bytes {
        [last, rest @ ..] if *last >= 128 => (u64::from(*last - 128), rest),
        [low, last, rest @ ..] if *last >= 128 => {
            (u64::from(*low) + 128 * u64::from(*last - 128), rest)
        }
        _ => long_at(bytes),
    }
}

// The same, of any length.
fn long_at(bytes: &[u8]) -> (u64, &[u8])
    ensures behind { length result.1.now ≤ length bytes.now }
    ensures number { (n : ℕ) (rest : List ℕ) → n < 2 ^ 64 → bytes.now ≡ vnum n ++ rest
        → (result.0 ≡ n) × (result.1.now ≡ rest) }
{
    match VInt::from_slice(bytes) {
        Some((number, len)) => (number, &bytes[len..]),
        None => (0, bytes),
    }
}

/// The bytes that stand at an address, after their length.
#[inline]
pub fn sized_at(heap: &[u8], address: u32) -> &[u8]
    ensures { (s : List ℕ) → Stands heap.now address (λ w. ShortSized s w) → result.now ≡ s }
{
    let at = address as usize;
    if at > heap.len() {
        return heap;
    }
    let (_, behind) = heap.split_at(at);
    let (len, rest) = short_at(behind);
    if len > rest.len() as u64 {
        return heap;
    }
    let (content, _) = rest.split_at(len as usize);
    content
}

/// The same with the length before them, as it is encoded there.
#[inline]
pub fn sized_encoding_at(heap: &[u8], address: u32) -> &[u8]
    ensures { (s : List ℕ) → Stands heap.now address (λ w. ShortSized s w)
        → result.now ≡ short_sized s }
{
    let at = address as usize;
    if at > heap.len() {
        return heap;
    }
    let (_, behind) = heap.split_at(at);
    let (len, rest) = short_at(behind);
    if len > rest.len() as u64 {
        return heap;
    }
    let head = behind.len() - rest.len();
    let (encoded, _) = behind.split_at(head + len as usize);
    encoded
}

/// The text that stands at an address, after its length. Its bytes were a text when they were written, so they aren't tested
/// again.
#[inline]
pub fn text_at(heap: &[u8], address: u32) -> &str
    requires { HasText heap.now address }
    ensures { (s : List ℕ) → Stands heap.now address (λ w. ShortText s w) → result.now ≡ s }
{
    unsafe { str::from_utf8_unchecked(sized_at(heap, address)) }
}

/// The number in the eight bytes that stand at an address.
#[inline]
pub fn eight_at(heap: &[u8], address: u32) -> u64
    ensures { (n : ℕ) → Stands heap.now address (λ w. Fixed 8 w n) → result ≡ n }
{
    let at = address as usize;
    if at > heap.len() {
        return 0;
    }
    let (_, behind) = heap.split_at(at);
    match behind.first_chunk::<8>() {
        Some(prefix) => u64::from_le_bytes(*prefix),
        None => 0,
    }
}

/// The signed number in the eight bytes that stand at an address.
pub fn signed_at(heap: &[u8], address: u32) -> i64
    ensures { (z : ℤ) → Stands heap.now address (λ w. Signed w z) → result ≡ z }
{
    eight_at(heap, address).cast_signed()
}

/// The number in the sixteen bytes that stand at an address.
pub fn wide_at(heap: &[u8], address: u32) -> u128
    ensures { (n : ℕ) → Stands heap.now address (λ w. Fixed 16 w n) → result ≡ n }
{
    let at = address as usize;
    if at > heap.len() {
        return 0;
    }
    let (_, behind) = heap.split_at(at);
    match behind.first_chunk::<16>() {
        Some(prefix) => u128::from_le_bytes(*prefix),
        None => 0,
    }
}

/// The sixteen bytes that stand at an address.
#[inline]
pub fn sixteen_at(heap: &[u8], address: u32) -> &[u8]
    ensures { (n : ℕ) → Stands heap.now address (λ w. Fixed 16 w n) → result.now ≡ sixteen_bytes n }
{
    let at = address as usize;
    if at > heap.len() {
        return heap;
    }
    let (_, behind) = heap.split_at(at);
    if behind.len() < 16 {
        return heap;
    }
    let (sixteen, _) = behind.split_at(16);
    sixteen
}

/// The text and the tokens that stand at an address.
pub fn tokenized_at(heap: &[u8], address: u32) -> Option<PreTokenizedStr<'_>>
    ensures { (s : List ℕ) (ts : List Token) → Stands heap.now address (λ w. ShortTokenized s ts w)
        → option_map tokenized_leaf result ≡ Some (tokenized s ts) }
{
    let at = address as usize;
    if at > heap.len() {
        return None;
    }
    let (_, behind) = heap.split_at(at);
    let (content, _) = PreTokenizedStr::from_payload(behind)?;
    Some(content)
}

/// The same, as they are encoded there.
pub fn encoded_tokens_at(heap: &[u8], address: u32) -> &[u8]
    ensures { (s : List ℕ) (ts : List Token) → Stands heap.now address (λ w. ShortTokenized s ts w)
        → result.now ≡ short_tokenized s ts }
{
    let at = address as usize;
    if at > heap.len() {
        return heap;
    }
    let (_, behind) = heap.split_at(at);
    let Some((_, len)) = PreTokenizedStr::from_payload(behind) else {
        return heap;
    };
    let (encoded, _) = behind.split_at(len);
    encoded
}

// The value of this type that holds this.
#[inline(always)]
fn made<'a>(leaf_type: LeafType, held: LeafContent<'a>) -> ReferenceValueLeaf<'a>
    ensures { (l : Leaf) → type_of l ≡ leaf_type → content_of held.entry ≡ content l
        → leaf_of result ≡ l }
{
    match ReferenceValueLeaf::with_content(leaf_type, held) {
        Some(value) => value,
        None => ReferenceValueLeaf::Null,
    }
}

/// The value without children of this type that stands at an address.
#[inline(always)]
pub fn leaf_at(heap: &[u8], leaf_type: LeafType, address: u32) -> ReferenceValueLeaf<'_>
    requires { form leaf_type ≡ forms.Text → HasText heap.now address }
    ensures { (l : Leaf) → type_of l ≡ leaf_type → LeafStands heap.now address l
        → leaf_of result ≡ l }
{
    match leaf_type.form() {
        Form::Nothing => made(leaf_type, LeafContent::Nothing),
        Form::Truth => made(leaf_type, LeafContent::Truth(address != 0)),
        Form::Unsigned => made(leaf_type, LeafContent::Unsigned(eight_at(heap, address))),
        Form::Signed => made(leaf_type, LeafContent::Signed(signed_at(heap, address))),
        Form::Wide => made(leaf_type, LeafContent::Wide(wide_at(heap, address))),
        Form::Text => made(leaf_type, LeafContent::Text(text_at(heap, address))),
        Form::Bytes => made(leaf_type, LeafContent::Bytes(sized_at(heap, address))),
        Form::Tokens => match tokenized_at(heap, address) {
            Some(text) => made(leaf_type, LeafContent::Tokens(text)),
            None => ReferenceValueLeaf::Null,
        },
    }
}

/// What each version of the store has for the value without children of this type that stands at an address.
#[inline(always)]
pub fn encoded_at(heap: &[u8], leaf_type: LeafType, address: u32) -> Encoded<'_>
    ensures bytes { (v : Version) (l : Leaf) → type_of l ≡ leaf_type
        → LeafStands heap.now address l → encoded_bytes v result ≡ short_leaf l }
    ensures tokens { (l : Leaf) → type_of l ≡ leaf_type
        → SaysTokenized result ↔ HoldsTokens (content l) }
    ensures entries { HasFewEntries result }
{
    let code = leaf_type.store_code();
    match leaf_type.form() {
        Form::Nothing => Encoded::Null,
        Form::Truth => Encoded::Bool(address != 0),
        Form::Unsigned => Encoded::Number(code, eight_at(heap, address)),
        Form::Signed => Encoded::Number(code, eight_at(heap, address)),
        Form::Wide => Encoded::Bytes(code, sixteen_at(heap, address)),
        Form::Text => Encoded::Bytes(code, sized_encoding_at(heap, address)),
        Form::Bytes => Encoded::Bytes(code, sized_encoding_at(heap, address)),
        Form::Tokens => Encoded::Tokenized(encoded_tokens_at(heap, address)),
    }
}

/// How many children a list has: each one's address ends with a byte of 128 or more, and no other byte is one.
#[inline]
pub fn children(list: &[u8]) -> u64
    ensures { result ≡ last_byte_count list.now }
{
    let mut count = 0;
    for byte in list {
        if *byte >= 128 {
            count += 1;
        }
    }
    count
}

/// The first child's type and address, and the list after it.
#[inline(always)]
pub fn child_at(list: &[u8]) -> Option<(ValueType, u32, &[u8])>
    ensures first { (t : ValueType) (at : ℕ) (rest : List ℕ) → at < 2 ^ 32
        → list.now ≡ type_code t ∷ (vnum at ++ rest) → GivesChild result (type_code t) at rest }
    ensures none { list.now ≡ [] → result ≡ None }
{
    let (code, behind) = list.split_first()?;
    let (address, rest) = short_at(behind);
    if address > MAX_HEAP_LEN {
        return None;
    }
    let value_type = ValueType::from_code(*code)?;
    Some((value_type, address as u32, rest))
}
