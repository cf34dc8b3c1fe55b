//! The texts of the values of terms.

ghost use Rattle.std.specs.Prelude.{◌≡◌, ◌++◌, drop, ℕ, IfOk, IfSome, IsSome, Some, OnOk, option_map, string_bytes};
ghost use Rattle.std.specs.Net.Addr.{ipv6_bits};
ghost use Rattle.std.specs.Net.Text.{ip_text};
ghost use Rattle.std.specs.Option.{option_and_then, option_copied};
ghost use Rattle.tv_indexing.specs.TermText.{coded_leaf, inner, leaf_text, text_of_value, truth_at, value_leaf};
ghost use Rattle.tv_value.specs.JsonOf.{address_text};
ghost use Rattle.tv_term.specs.Key.{Fits, IsTerm, TermValue, coded_value};
ghost use Rattle.tv_term.specs.Printed.{text_if_utf8};
ghost use Rattle.tv_term.specs.Reading.{number_of_eight, number_of_sixteen};
ghost use Rattle.tv_value.specs.Lent.{leaf_of};

use base64::engine::general_purpose::STANDARD;
use std::alloc::{AllocError, Global};
use std::net::{IpAddr, Ipv6Addr};
use tv_base::Facet;
use tv_options::Type;
use tv_term::ValueBytes;
use tv_value::ReferenceValueLeaf;
use tv_value::leaf::address_of;

// What follows the type's code.
fn payload(value: ValueBytes<'_>) -> &[u8]
    ensures { result.now ≡ drop 1 value.entry.serialized.now }
{
    match value.as_serialized().split_first() {
        Some((_, payload)) => payload,
        None => &[],
    }
}

// The truth value of a payload, if it is one.
fn truth_of(payload: &[u8]) -> Option<bool>
    ensures { result ≡ option_and_then truth_at (number_of_eight payload.now) }
{
    let number: &[u8; 8] = payload.as_array()?;
    match u64::from_be_bytes(*number) {
        0 => Some(false),
        1 => Some(true),
        _ => None,
    }
}

// The address of a payload, if it is one.
fn address_at(payload: &[u8]) -> Option<Ipv6Addr>
    ensures { option_map ipv6_bits result ≡ number_of_sixteen payload.now }
{
    let number: &[u8; 16] = payload.as_array()?;
    Some(address_of(u128::from_be_bytes(*number)))
}

// The text of a payload, if it is one.
fn text_of(payload: &[u8]) -> Option<&str>
    ensures { option_copied result ≡ text_if_utf8 payload.now }
{
    match str::from_utf8(payload) {
        Ok(text) => Some(text),
        Err(_) => None,
    }
}

// The value of its type that the bytes are, where it isn't in a JSON object.
fn typed_leaf(value: ValueBytes<'_>) -> Option<ReferenceValueLeaf<'_>>
    ensures { option_map leaf_of result ≡ coded_leaf value.entry.serialized.now }
{
    match value.typ()? {
        Type::Str => Some(ReferenceValueLeaf::Str(text_of(payload(value))?)),
        Type::U64 => Some(ReferenceValueLeaf::U64(value.as_u64()?)),
        Type::I64 => Some(ReferenceValueLeaf::I64(value.as_i64()?)),
        Type::Bool => Some(ReferenceValueLeaf::Bool(truth_of(payload(value))?)),
        Type::Date => Some(ReferenceValueLeaf::Date(value.as_date()?)),
        Type::Facet => Some(ReferenceValueLeaf::Facet(text_of(payload(value))?)),
        Type::Bytes => Some(ReferenceValueLeaf::Bytes(payload(value))),
        Type::IpAddr => Some(ReferenceValueLeaf::IpAddr(address_at(payload(value))?)),
        Type::Json => None,
    }
}

// The value that the bytes are, where it isn't in a JSON object.
fn leaf_of_value(coded: &[u8]) -> Option<ReferenceValueLeaf<'_>>
    ensures found { (value : TermValue) → Fits value → coded.now ≡ coded_value value
        → option_map leaf_of result ≡ value_leaf value }
    ensures is_value { IsSome result
        → (value : TermValue) × Fits value × (coded.now ≡ coded_value value) }
{
    match ValueBytes::wrap(coded) {
        Ok(value) => typed_leaf(value),
        Err(_) => None,
    }
}

// The bytes of a term's value; of one in a JSON object those of the value there.
fn inner_value(term: &[u8]) -> Option<&[u8]>
    ensures found { (field : ℕ) (value : TermValue) → IsTerm term.now field value
        → option_copied result ≡ Some (coded_value (inner value)) }
    ensures is_term { IfSome result (λ coded. (value : TermValue) → Fits value
        → coded.now ≡ coded_value value
        → (field : ℕ) × (whole : TermValue) × IsTerm term.now field whole) }
{
    let (_, coded) = term.split_at_checked(4)?;
    let Ok(value) = ValueBytes::wrap(coded) else {
        return None;
    };
    match value.as_json() {
        Some((_, inner)) => Some(inner),
        None => Some(coded),
    }
}

// The value that a term's is; of one in a JSON object the value there.
fn leaf_of_term(term: &[u8]) -> Option<ReferenceValueLeaf<'_>>
    ensures found { (field : ℕ) (value : TermValue) → IsTerm term.now field value
        → option_map leaf_of result ≡ value_leaf (inner value) }
    ensures is_term { IsSome result
        → (field : ℕ) × (value : TermValue) × IsTerm term.now field value }
{
    let coded = inner_value(term)?;
    leaf_of_value(coded)
}

// The address of a number as it is printed: one of version 4 as that.
fn canonical(number: u128) -> IpAddr
    ensures { ip_text result ≡ address_text number }
{
    Ipv6Addr::from_bits(number).to_canonical()
}

// Appends the text of a value.
fn push_text(text: &mut String, leaf: ReferenceValueLeaf<'_>) -> Result<(), AllocError>
    ensures { OnOk result
        (string_bytes text.new ≡ string_bytes text.old ++ leaf_text (leaf_of leaf.entry)) }
{
    match leaf {
        ReferenceValueLeaf::Null => Ok(()),
        ReferenceValueLeaf::Str(content) => text.push_str(content),
        ReferenceValueLeaf::U64(number) => write!(text, "{number}"),
        ReferenceValueLeaf::I64(number) => write!(text, "{number}"),
        ReferenceValueLeaf::Date(date) => date.push_rfc3339(text),
        ReferenceValueLeaf::Facet(encoded) => Facet::print_encoded(encoded, text),
        ReferenceValueLeaf::Bytes(bytes) => STANDARD.encode_string(bytes, text),
        ReferenceValueLeaf::IpAddr(address) => write!(text, "{}", canonical(address.to_bits())),
        ReferenceValueLeaf::Bool(truth) => write!(text, "{truth}"),
        ReferenceValueLeaf::PreTokStr(content) => text.push_str(content.text()),
    }
}

/// The text of a term's value, of the bytes of a serialized term: a text as it is, a number in decimal, `true` or `false`, a date by RFC 3339, a facet
/// as its path, bytes by the standard alphabet of base64, an address of version 4 by that and another by version 6; of a term of a value in a JSON object
/// the text of that value. (Not in tantivy.)
///
/// `None` where the bytes are no term, or are one of a text or a facet that isn't UTF-8. Errors: memory was refused.
///
/// ```
/// pub fn texts_of_terms(alloc: Global, terms: &TermList) -> Result<Vec<String>> {
///     let mut texts = Vec::new(alloc);
///     for term in terms.iter() {
///         if let Some(text) = text_of_term(alloc, term)? {
///             texts.push(text)?;
///         }
///     }
///     Ok(texts)
/// }
/// ```
pub fn text_of_term(alloc: Global, term: &[u8]) -> Result<Option<String>, AllocError>
    ensures text { IfOk result (λ text. (field : ℕ) (value : TermValue)
        → IsTerm term.now field value → option_map string_bytes text ≡ text_of_value value) }
    ensures is_term { IfOk result (λ text. IsSome text
        → (field : ℕ) × (value : TermValue) × IsTerm term.now field value) }
{
    let Some(leaf) = leaf_of_term(term) else {
        return Ok(None);
    };
    let mut text = String::new(alloc);
    push_text(&mut text, leaf)?;
    Ok(Some(text))
}
