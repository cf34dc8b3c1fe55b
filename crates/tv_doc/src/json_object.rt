//! Documents from JSON objects.

ghost use Rattle.std.specs.Prelude.{◌≡◌, ◌∷◌, [], None, IfOk, string_bytes};
ghost use Rattle.serde_json.specs.View.{view as data_of, items_view, members_view};
ghost use Rattle.serde_json.specs.Read.{read};
ghost use Rattle.tv_schema.specs.Schema.{field_named};
ghost use Rattle.tv_field.specs.JsonAnswer.{lent_tree};
ghost use Rattle.tv_doc.specs.JsonObject.{object_values, values_at, AddsValues, IsInvalidJson, IsValueError, items_for, value_for, MakesFromObject, Parses};
ghost use Rattle.tv_doc.specs.JsonObject.{ParsesDocument, ParsesInto, ParsesOrTells};
ghost use Rattle.tv_doc.specs.Document.{Adds};
ghost use Rattle.tv_doc.specs.InPlace.{in_place};
ghost use Rattle.tv_doc.specs.TextFault.{IsFault, TellsFault};

use crate::document::CompactDoc;
use crate::errors::DocParsingError;
use crate::parse_buffers::{Adding, ParseBuffers};
use serde_json::{Map, Value};
use std::alloc::{AllocError, Global};
use tv_base::cause::text_start;
use tv_builder::errors::AddError;
use tv_field::FieldType;
use tv_field::json_value::{JsonRefusal, JsonScratch, LentFieldValue};
use tv_json::json_fault::{JsonFault, JsonFaultKind};
use tv_json::json_scan::syntax_fault;
use tv_json::large_number::large_number;
use tv_json::laws::texts_with_the_syntax_are_read;
use tv_schema::Schema;
use tv_value::field::Field;

// A field of the schema, by its number, its name and its type.
#[derive(Clone, Copy)]
pub(crate) struct NamedField<'a> {
    pub(crate) field: Field,
    pub(crate) name: &'a str,
    pub(crate) field_type: &'a FieldType,
}

// Adds what is lent.
fn add_lent(
    document: &mut CompactDoc,
    field: Field,
    lent: LentFieldValue<'_>,
) -> Result<(), AddError>
    ensures { Adds document.old document.new field.id (lent_tree lent.entry) result }
{
    match lent {
        LentFieldValue::Leaf(leaf) => document.add_leaf_field_value(field, leaf),
        LentFieldValue::Object(object) => document.add_field_value(field, &object),
    }
}

// The error for a value that the type of the field with this name refuses.
fn value_error(alloc: Global, name: &str, refusal: JsonRefusal, json: Value) -> DocParsingError
    ensures { IsValueError name.now (data_of json) refusal result }
{
    if refusal == JsonRefusal::Memory {
        return DocParsingError::Memory;
    }
    match String::from_str(alloc, name) {
        Ok(copy) => DocParsingError::ValueError(copy, refusal.with_json(alloc, json)),
        Err(_) => DocParsingError::Memory,
    }
}

// Adds one value of the field.
pub(crate) fn add_value(
    document: &mut CompactDoc,
    scratch: &mut JsonScratch,
    to: &NamedField<'_>,
    json: Value,
) -> Result<(), DocParsingError>
    ensures { AddsValues (value_for to.now (data_of json) ∷ []) document.old document.new result }
{
    match to.field_type.lend_json(&json, scratch) {
        Ok(lent) => match add_lent(document, to.field, lent) {
            Ok(()) => Ok(()),
            Err(refused) => Err(DocParsingError::from(refused)),
        },
        Err(refusal) => Err(value_error(document.allocator(), to.name, refusal, json)),
    }
}

// Adds each item.
fn add_items(
    document: &mut CompactDoc,
    scratch: &mut JsonScratch,
    to: &NamedField<'_>,
    items: Vec<Value>,
) -> Result<(), DocParsingError>
    ensures { AddsValues (items_for to.now (items_view items.items)) document.old document.new
        result }
{
    for item in items {
        add_value(document, scratch, to, item)?;
    }
    Ok(())
}

// Adds the values of a member, if its key names a field.
fn add_member(
    document: &mut CompactDoc,
    scratch: &mut JsonScratch,
    schema: &Schema,
    name: &str,
    json: Value,
) -> Result<(), DocParsingError>
    ensures { AddsValues
        (values_at schema.now name.now (field_named schema.now name.now) (data_of json))
        document.old document.new result }
{
    let Ok(field) = schema.get_field(name) else {
        return Ok(());
    };
    let field_type = schema.get_field_entry(field).field_type();
    let to = NamedField {
        field,
        name,
        field_type,
    };
    match json {
        Value::Array(items) => add_items(document, scratch, &to, items),
        single => add_value(document, scratch, &to, single),
    }
}

// The error for a text that is no JSON object.
pub(crate) fn invalid_json(alloc: Global, text: &str) -> DocParsingError
    ensures { IsInvalidJson text.now result }
{
    match text_start(alloc, text, 20) {
        Ok(start) => DocParsingError::InvalidJson(start),
        Err(_) => DocParsingError::Memory,
    }
}

// Adds the values of an object's members, by byte order of their keys.
fn add_object(
    document: &mut CompactDoc,
    scratch: &mut JsonScratch,
    schema: &Schema,
    object: Map<String, Value>,
) -> Result<(), DocParsingError>
    ensures { AddsValues (object_values schema.now (members_view object.entries)) document.old
        document.new result }
{
    for (key, json) in object {
        add_member(document, scratch, schema, key.as_str(), json)?;
    }
    Ok(())
}

// Puts the document of the JSON object that the text encodes in place of one, and reads the text as the JSON library's value, unless it is refused
// already.
fn parse_value(
    document: &mut CompactDoc,
    adding: &mut Adding,
    schema: &Schema,
    text: &str,
) -> Result<(), DocParsingError>
    requires { ParsesOrTells schema.now text.now document.now None adding.now.refused }
    ensures { Parses schema.now text.now (in_place result document.new) }
{
    if let Some(error) = adding.refused.take() {
        return Err(error);
    }
    document.clear();
    let alloc = document.allocator();
    match Value::from_str(alloc, text) {
        Ok(json) => match json {
            Value::Object(object) => add_object(document, &mut adding.scratch, schema, object),
            _ => Err(invalid_json(alloc, text)),
        },
        Err(error) => {
            if error.is_memory() {
                return Err(DocParsingError::Memory);
            }
            Err(invalid_json(alloc, text))
        }
    }
}

impl CompactDoc {
    /// The document of the JSON object that the text encodes, see `from_json_object`. Errors: `InvalidJson` with the text's first 20
    /// characters, where it isn't JSON or no object, or lists in it nest deeper than 127, see `text_fault` for where and why; else those of
    /// `from_json_object`.
    ///
    /// ```
    /// pub fn parsed(alloc: Global, schema: &Schema, json: &str) -> Result<TantivyDocument> {
    ///     Ok(TantivyDocument::parse_json(alloc, schema, json)?)
    /// }
    /// ```
    pub fn parse_json(
        alloc: Global,
        schema: &Schema,
        text: &str,
    ) -> Result<CompactDoc, DocParsingError>
        ensures { ParsesDocument schema.now text.now result }
    {
        let mut document = CompactDoc::new(alloc);
        let mut buffers = ParseBuffers::for_one(alloc);
        match document.parse_json_into(schema, text, &mut buffers) {
            Ok(()) => Ok(document),
            Err(error) => Err(error),
        }
    }

    /// Puts the document of the JSON object that the text encodes in place of this one and in its memory, see `parse_json`. So a loop over many
    /// texts takes memory once. (Not in tantivy.)
    ///
    /// Errors: those of `parse_json`. The document then has no pairs.
    ///
    /// ```
    /// pub fn values_parsed(alloc: Global, schema: &Schema, lines: &[&str]) -> Result<usize> {
    ///     let mut document = TantivyDocument::new(alloc);
    ///     let mut buffers = ParseBuffers::new(alloc);
    ///     let mut values: usize = 0;
    ///     for line in lines {
    ///         document.parse_json_into(schema, line, &mut buffers)?;
    ///         values = values.saturating_add(document.len());
    ///     }
    ///     Ok(values)
    /// }
    /// ```
    pub fn parse_json_into(
        &mut self,
        schema: &Schema,
        text: &str,
        buffers: &mut ParseBuffers,
    ) -> Result<(), DocParsingError>
        ensures { ParsesInto schema.now text.now self.new result }
    {
        if let Some(()) = self.parse_borrowed(schema, text, buffers) {
            return Ok(());
        }
        match parse_value(self, &mut buffers.adding, schema, text) {
            Ok(()) => Ok(()),
            Err(error) => {
                self.clear();
                Err(error)
            }
        }
    }

    /// The document of a JSON object: for each key that is a field's name, in byte order of the keys, the value that its JSON value
    /// is to the field's type, or the values of its items where it is an array. Other keys are skipped. The values are added one after the
    /// other. Errors, for the first value that is refused:
    /// - `ValueError` with the field's name: the field's type refuses it, see `FieldType::value_from_json`,
    /// - `Add(AddError::HeapFull)`: the length of the heap so far and the value's room are together above 4294967295, see `add_text`,
    /// - `Memory`: memory was refused, for the pair, for what the type makes of the value before, or for the field's name in `ValueError`.
    pub fn from_json_object(
        alloc: Global,
        schema: &Schema,
        object: Map<String, Value>,
    ) -> Result<CompactDoc, DocParsingError>
        ensures { MakesFromObject schema.now (members_view object.entries) result }
    {
        let mut document = CompactDoc::new(alloc);
        let mut scratch = JsonScratch::new(alloc);
        match add_object(&mut document, &mut scratch, schema, object) {
            Ok(()) => Ok(document),
            Err(error) => Err(error),
        }
    }
}

// What is said of a text that is JSON, and no object.
const IS_NO_OBJECT: JsonFault = JsonFault {
    offset: 0,
    kind: JsonFaultKind::NoObject,
};

// Where and why a text that the JSON library doesn't read is no JSON.
fn fault_of(text: &str) -> JsonFault
    requires { read text.now ≡ None }
    ensures { IsFault text.now result }
{
    if let Some(fault) = syntax_fault(text) {
        return fault;
    }
    texts_with_the_syntax_are_read();
    JsonFault {
        offset: large_number(text).unwrap_or(text.len()),
        kind: JsonFaultKind::NumberTooLarge,
    }
}

/// Where and why a text is no JSON object: what `CompactDoc::parse_json` refuses with `InvalidJson`. `None` where the text is a JSON object. (Not in
/// tantivy.) The only error is that memory was refused.
///
/// ```
/// pub fn fault_in_words(alloc: Global, json: &str) -> Result<Option<String>> {
///     match text_fault(alloc, json)? {
///         Some(fault) => Ok(Some(format!(in alloc; "{fault}")?)),
///         None => Ok(None),
///     }
/// }
/// ```
pub fn text_fault(alloc: Global, text: &str) -> Result<Option<JsonFault>, AllocError>
    ensures { IfOk result (TellsFault text.now) }
{
    match Value::from_str(alloc, text) {
        Ok(json) => match json {
            Value::Object(_) => Ok(None),
            _ => Ok(Some(IS_NO_OBJECT)),
        },
        Err(error) => {
            if error.is_memory() {
                return Err(AllocError);
            }
            Ok(Some(fault_of(text)))
        }
    }
}
