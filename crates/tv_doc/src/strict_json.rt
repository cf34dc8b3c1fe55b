//! Documents from JSON objects, each of whose keys names a field, and none of which stands twice.

ghost use Rattle.std.specs.Prelude.{◌≡◌, ◌≢◌, ℕ, List, [], length, Option, Some, IfSome, IfNone, OnOk};
ghost use Rattle.json.specs.Json.{Members, members, read_key, value};
ghost use Rattle.json.specs.Token.{Token};
ghost use Rattle.tv_doc.specs.NotedFields.{AreNoted, ChecksKeys, NotesKey, ParsesStrictlyAfter, is_of_value};
ghost use Rattle.tv_doc.specs.StrictJson.{IsObject, OfItsKeys, ParsesStrictDocument, ParsesStrictInto, keys_of};

use crate::document::CompactDoc;
use crate::errors::{DocParsingError, StrictParsingError};
use crate::parse_buffers::ParseBuffers;
use json::Reader;
use std::alloc::{AllocError, Global};
use tv_base::cause::text_start;
use tv_schema::Schema;

// How deep arrays and objects nest at most in a member of an object, as in the JSON library's values.
const MEMBER_DEPTH: usize = 126;

// How many characters of a key its error keeps.
const KEY_START: u8 = 40;

// Makes room to note each field of the schema, with none noted.
fn note_none(noted: &mut Vec<bool>, schema: &Schema) -> Result<(), AllocError>
    ensures { OnOk result (AreNoted schema.now [] noted.new.items) }
{
    noted.clear();
    noted.resize(schema.num_fields(), false)
}

// Notes the field that a key names. An error where it names none, and where its field is noted already.
fn note_key(
    alloc: Global,
    schema: &Schema,
    noted: &mut [bool],
    key: &str,
) -> Result<(), StrictParsingError>
    requires { length noted.old ≡ length schema.now }
    ensures { NotesKey schema.now key.now noted.old noted.new result }
{
    let Ok(field) = schema.get_field(key) else {
        let start = text_start(alloc, key, KEY_START)?;
        return Err(StrictParsingError::UnknownKey(start));
    };
    let place = field.field_id() as usize;
    if noted[place] {
        let start = text_start(alloc, key, KEY_START)?;
        return Err(StrictParsingError::RepeatedKey(start));
    }
    noted[place] = true;
    Ok(())
}

// The next key of an object; `None` at its end, and where what is read is no JSON.
#[inline(always)]
fn next_key<'a>(reader: &mut Reader<'a>) -> Option<&'a str>
    ensures next { IfSome result (λ key. read_key reader.old ≡ Some (Some key.now, reader.new)) }
    ensures ended { IfNone result
        ((key : List ℕ) (rest : List Token) → read_key reader.old ≢ Some (Some key, rest)) }
{
    match reader.next_key() {
        Ok(key) => key,
        Err(_) => None,
    }
}

// Whether the keys up to the end of an object name fields, each once. What is read is the rest of an object, so no value is refused as it is passed.
fn check_members(
    alloc: Global,
    schema: &Schema,
    reader: &mut Reader<'_>,
    noted: &mut [bool],
) -> Result<(), StrictParsingError>
    requires { AreNoted schema.now [] noted.old }
    ensures { (found : Members) (rest : List Token) →
        members (value MEMBER_DEPTH) (length reader.old) reader.old ≡ Some (found, rest) →
        ChecksKeys schema.now result (keys_of found) }
{
    'keys: while let Some(key) = next_key(reader) {
        note_key(alloc, schema, noted, key)?;
        drop(reader.skip_value(MEMBER_DEPTH));
    }
    Ok(())
}

// Whether the keys of the object that a text encodes name fields, each once.
fn check_keys(
    alloc: Global,
    schema: &Schema,
    text: &str,
    buffers: &mut ParseBuffers,
) -> Result<(), StrictParsingError>
    ensures { IsObject text.now → OfItsKeys text.now (ChecksKeys schema.now result) }
{
    note_none(&mut buffers.noted, schema)?;
    let mut reader = Reader::new(text, &mut buffers.texts)?;
    drop(reader.next());
    check_members(alloc, schema, &mut reader, buffers.noted.as_mut_slice())
}

// Whether the error is that of a value, so that the text is an object.
fn comes_of_value(error: &DocParsingError) -> bool
    ensures { result ≡ is_of_value error.now }
{
    match error {
        DocParsingError::ValueError(_, _) | DocParsingError::Add(_) => true,
        DocParsingError::InvalidJson(_) | DocParsingError::Memory => false,
    }
}

// What reading a text strictly returns, where reading it returned this: a key that is refused comes before a value.
fn check_parsed(
    alloc: Global,
    schema: &Schema,
    text: &str,
    buffers: &mut ParseBuffers,
    parsed: Result<(), DocParsingError>,
) -> Result<(), StrictParsingError>
    ensures { ParsesStrictlyAfter schema.now text.now parsed result }
{
    match parsed {
        Ok(()) => check_keys(alloc, schema, text, buffers),
        Err(error) => {
            let is_object = comes_of_value(&error);
            let refused = Err(StrictParsingError::Parsing(error));
            if is_object {
                check_keys(alloc, schema, text, buffers).and(refused)
            } else {
                refused
            }
        }
    }
}

impl CompactDoc {
    /// The document of the JSON object that the text encodes, as `parse_json` makes it, where each of the object's own keys names a field, and none
    /// stands twice. So no value is left out without a word. The keys of objects within it are free, and of one that stands twice there the last
    /// value stays. (Not in tantivy.)
    ///
    /// Errors, where of the keys the first from the left that is refused decides, and a key's error comes before a value's:
    /// - `UnknownKey` with the key's first 40 characters: it names no field,
    /// - `RepeatedKey` with the key's first 40 characters: it names a field, and stood before,
    /// - `Parsing` with the error of `parse_json`: the text is no JSON object, a value is refused and no key is, or memory is refused.
    ///
    /// ```
    /// pub fn parsed_strictly(alloc: Global, schema: &Schema, json: &str) -> Result<TantivyDocument> {
    ///     Ok(TantivyDocument::parse_json_strict(alloc, schema, json)?)
    /// }
    /// ```
    pub fn parse_json_strict(
        alloc: Global,
        schema: &Schema,
        text: &str,
    ) -> Result<CompactDoc, StrictParsingError>
        ensures { ParsesStrictDocument schema.now text.now result }
    {
        let mut document = CompactDoc::new(alloc);
        let mut buffers = ParseBuffers::for_one(alloc);
        match document.parse_json_strict_into(schema, text, &mut buffers) {
            Ok(()) => Ok(document),
            Err(error) => Err(error),
        }
    }

    /// Puts the document of the JSON object that the text encodes in place of this one and in its memory, where each key names a field, and none
    /// stands twice, see `parse_json_strict`. So a loop over many texts takes memory once. (Not in tantivy.)
    ///
    /// Errors: those of `parse_json_strict`. The document then has no pairs.
    pub fn parse_json_strict_into(
        &mut self,
        schema: &Schema,
        text: &str,
        buffers: &mut ParseBuffers,
    ) -> Result<(), StrictParsingError>
        ensures { ParsesStrictInto schema.now text.now self.new result }
    {
        let alloc = self.allocator();
        let parsed = self.parse_json_into(schema, text, buffers);
        match check_parsed(alloc, schema, text, buffers, parsed) {
            Ok(()) => Ok(()),
            Err(error) => {
                self.clear();
                Err(error)
            }
        }
    }
}
