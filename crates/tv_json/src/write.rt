//! The tokens of values, written one after the other.

ghost use Rattle.std.specs.Prelude.{◌≡◌, ◌++◌, ◌∷◌, [], OnOk, IsTrue, string_bytes, decimal, length, IsUtf8};
ghost use Rattle.json.specs.Print.{print};
ghost use Rattle.json.specs.Token as Token;
ghost use Rattle.serde_json.specs.Data.{no_members};
ghost use Rattle.tv_value.specs.JsonOf.{json_of, content_json, leaf_json, token_json, tokens_json, tokenized_json, elements_json, entries_json};
ghost use Rattle.tv_json.specs.Rising.{KeysRise, counts_tokens, data_tokens, rest_of_array, rest_of_object, listed_json};
ghost use Rattle.tv_value.specs.LeafParts.{content_of};
ghost use Rattle.tv_value.specs.Lent.{leaf_of};
ghost use Rattle.tv_value.specs.PreTokenized.{text_of, tokens_of, tokens_left};
ghost use Rattle.tv_value.specs.TokenRef.{ref_of};
ghost use Rattle.tv_format.specs.Tree.{elements, entries};

use json::Writer;
use std::alloc::{AllocError, Global};
use tv_value::json_value::{push_address, push_base64, push_date, push_facet};
use tv_value::leaf::{LeafContent, address_of};
use tv_value::nested::{Nested, NestedValue};
use tv_value::pre_tokenized::TokenIter;
use tv_value::{PreTokenizedStr, ReferenceValueLeaf, TokenRef};

// Where JSON is written, and room for the text of a leaf, which is used for each anew.
#[derive(Drop)]
pub(crate) struct JsonWriter {
    pub(crate) out: Writer,
    scratch: String,
    pub(crate) alloc: Global,
}

impl JsonWriter {
    // Writes after these bytes.
    pub(crate) fn new(alloc: Global, bytes: Vec<u8>) -> JsonWriter
        ensures before { result.out.before ≡ bytes.items }
        ensures tokens { result.out.tokens ≡ [] }
    {
        JsonWriter {
            out: Writer::new(bytes),
            scratch: String::new(alloc),
            alloc,
        }
    }

    // What was there, and the text of what was written.
    pub(crate) fn into_text(self) -> String
        requires { IsUtf8 self.out.before }
        ensures { string_bytes result ≡ self.out.before ++ print self.out.tokens }
    {
        let JsonWriter { out, .. } = self;
        unsafe { String::from_utf8_unchecked(out.into_inner()) }
    }

    // What was there, of this length.
    pub(crate) fn into_start(self, len: usize) -> String
        requires text { IsUtf8 self.out.before }
        requires len { len ≡ length self.out.before }
        ensures { string_bytes result ≡ self.out.before }
    {
        let JsonWriter { out, .. } = self;
        let mut bytes = out.into_inner();
        bytes.truncate(len);
        unsafe { String::from_utf8_unchecked(bytes) }
    }
}

// A key and a number from 0 on.
fn write_count(out: &mut Writer, key: &str, count: usize) -> Result<(), AllocError>
    ensures ok { OnOk result
        (out.new.tokens ≡ out.old.tokens ++ Token.key key.now ∷ Token.number (decimal count) ∷ []) }
    ensures before { out.new.before ≡ out.old.before }
{
    out.key(key)?;
    out.u64(count as u64)
}

// A key and a text.
fn write_text(out: &mut Writer, key: &str, text: &str) -> Result<(), AllocError>
    ensures ok { OnOk result
        (out.new.tokens ≡ out.old.tokens ++ Token.key key.now ∷ Token.string text.now ∷ []) }
    ensures before { out.new.before ≡ out.old.before }
{
    out.key(key)?;
    out.string(text)
}

// A key and the begin of an array.
pub(crate) fn begin_list(out: &mut Writer, key: &str) -> Result<(), AllocError>
    ensures ok { OnOk result
        (out.new.tokens ≡ out.old.tokens ++ Token.key key.now ∷ Token.begin_array ∷ []) }
    ensures before { out.new.before ≡ out.old.before }
{
    out.key(key)?;
    out.begin_array()
}

// The members of a token that are numbers.
fn write_counts(out: &mut Writer, token: TokenRef<'_>) -> Result<(), AllocError>
    ensures ok { OnOk result
        (out.new.tokens ≡ out.old.tokens ++ counts_tokens (ref_of token.entry)) }
    ensures before { out.new.before ≡ out.old.before }
{
    write_count(out, "offset_from", token.offset_from)?;
    write_count(out, "offset_to", token.offset_to)?;
    write_count(out, "position", token.position)?;
    write_count(out, "position_length", token.position_length)
}

fn write_token(out: &mut Writer, token: TokenRef<'_>) -> Result<(), AllocError>
    ensures ok { OnOk result
        (out.new.tokens ≡ out.old.tokens ++ data_tokens (token_json (ref_of token.entry))) }
    ensures before { out.new.before ≡ out.old.before }
{
    out.begin_object()?;
    write_counts(out, token)?;
    write_text(out, "text", token.text)?;
    out.end_object()
}

// The tokens, and the end of the array in which they stand.
fn write_tokens(out: &mut Writer, tokens: TokenIter<'_>) -> Result<(), AllocError>
    ensures ok { OnOk result
        (out.new.tokens
        ≡ out.old.tokens ++ rest_of_array (tokens_json (tokens_left tokens.entry))) }
    ensures before { out.new.before ≡ out.old.before }
{
    for token in tokens {
        write_token(out, token)?;
    }
    out.end_array()
}

fn write_tokenized(out: &mut Writer, content: PreTokenizedStr<'_>) -> Result<(), AllocError>
    ensures ok { OnOk result
        (out.new.tokens
        ≡ out.old.tokens
        ++ data_tokens (tokenized_json (text_of content.entry) (tokens_of content.entry))) }
    ensures before { out.new.before ≡ out.old.before }
{
    out.begin_object()?;
    write_text(out, "text", content.text())?;
    begin_list(out, "tokens")?;
    write_tokens(out, content.tokens())?;
    out.end_object()
}

// Writes what a value without children holds.
#[inline(always)]
fn write_content(json: &mut JsonWriter, content: LeafContent<'_>) -> Result<(), AllocError>
    ensures ok { OnOk result
        (json.new.out.tokens
        ≡ json.old.out.tokens ++ data_tokens (content_json (content_of content.entry))) }
    ensures before { json.new.out.before ≡ json.old.out.before }
{
    json.scratch.clear();
    match content {
        LeafContent::Nothing => return json.out.null(),
        LeafContent::Truth(truth) => return json.out.boolean(truth),
        LeafContent::Unsigned(number) => return json.out.u64(number),
        LeafContent::Signed(number) => return json.out.i64(number),
        LeafContent::Text(text) => return json.out.string(text),
        LeafContent::Tokens(text) => return write_tokenized(&mut json.out, text),
        LeafContent::Wide(number) => push_address(&mut json.scratch, address_of(number))?,
        LeafContent::Bytes(bytes) => push_base64(&mut json.scratch, bytes)?,
    }
    json.out.string(json.scratch.as_str())
}

// Writes a value without children.
pub(crate) fn write_leaf(
    json: &mut JsonWriter,
    leaf: &ReferenceValueLeaf<'_>,
) -> Result<(), AllocError>
    ensures ok { OnOk result
        (json.new.out.tokens ≡ json.old.out.tokens ++ data_tokens (leaf_json (leaf_of leaf.now))) }
    ensures before { json.new.out.before ≡ json.old.out.before }
{
    json.scratch.clear();
    match *leaf {
        ReferenceValueLeaf::Date(date) => push_date(&mut json.scratch, date)?,
        ReferenceValueLeaf::Facet(path) => push_facet(&mut json.scratch, path)?,
        _ => return write_content(json, leaf.content()),
    }
    json.out.string(json.scratch.as_str())
}
