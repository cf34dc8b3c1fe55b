//! Documents from JSON objects whose values are added straight from the text that encodes them.

ghost use Rattle.std.specs.Prelude.{◌≡◌, ◌↔◌, ◌<◌, ◌^◌, ◌∷◌, [], false, IfNone, OnSome, IsOkAnd, IsTrue};
ghost use Rattle.serde_json.specs.Written.{has_float, members_have_float};
ghost use Rattle.tv_json.specs.BorrowedData.{data_of, members_data};
ghost use Rattle.tv_doc.specs.AddsRow.{AddsRow};
ghost use Rattle.tv_doc.specs.Additions.{Accepts};
ghost use Rattle.tv_doc.specs.Document.{IsUnchanged};
ghost use Rattle.tv_doc.specs.JsonObject.{AddsOrTells, ParsesOrTells, object_values, values_at, value_for};
ghost use Rattle.tv_schema.specs.Schema.{field_named};
ghost use Rattle.tv_value.specs.Lent.{leaf_of};
ghost use Rattle.tv_format.specs.Tree.{leaf};

use crate::document::CompactDoc;
use crate::errors::DocParsingError;
use crate::json_object::{NamedField, add_value, invalid_json};
use crate::lent_borrowed::LentBorrowed;
use crate::parse_buffers::{Adding, ParseBuffers};
use tv_field::FieldType;
use tv_field::json_value::{
    JsonRefusal, JsonScratch, lend_bytes_text, lend_date_text, lend_facet_text, lend_ip_addr_text,
};
use tv_json::read::read_noting_floats;
use tv_json::value::BorrowedJson;
use tv_schema::Schema;
use tv_value::field::Field;
use tv_value::leaf::ReferenceValueLeaf;

// What is the same for each member of an object: the schema, and whether a float was met as the text was read.
#[derive(Clone, Copy)]
struct Reading<'a> {
    schema: &'a Schema,
    met_float: bool,
}

// Adds the value that is found, if one is.
#[inline(always)]
fn add_found(
    document: &mut CompactDoc,
    field: Field,
    found: Result<ReferenceValueLeaf<'_>, JsonRefusal>,
) -> Option<()>
    ensures added { OnSome result
        (IsOkAnd found.entry
        (λ single. Accepts document.old document.new field.id (leaf (leaf_of single)))) }
    ensures none { IfNone result (IsUnchanged document.old document.new) }
{
    match found {
        Ok(single) => document.add_leaf(field, &single).ok(),
        Err(_) => None,
    }
}

// Whether the value has no float. None is looked for where none was met as the text was read.
#[inline(always)]
fn is_whole(json: &BorrowedJson<'_>, met_float: bool) -> bool
    requires { met_float ≡ false → has_float (data_of json.now) ≡ false }
    ensures { IsTrue result ↔ (has_float (data_of json.now) ≡ false) }
{
    !met_float || !json.has_float()
}

// Adds a value that is one of its field's type as it stands: a text to a field of texts, a number to a field of such numbers, an object to
// a field of JSON objects where no float is in it, and the text of a date, a facet, bytes or an address. After `None` the document is unchanged.
#[inline(always)]
fn add_plain(
    document: &mut CompactDoc,
    scratch: &mut JsonScratch,
    to: &NamedField<'_>,
    json: &BorrowedJson<'_>,
    met_float: bool,
) -> Option<()>
    requires { met_float ≡ false → has_float (data_of json.now) ≡ false }
    ensures added { OnSome result
        (AddsRow document.old document.new to.now.field.id to.now.field_type.now (data_of json.now)) }
    ensures none { IfNone result (IsUnchanged document.old document.new) }
{
    let field = to.field;
    match (to.field_type, json) {
        (FieldType::Str(_), BorrowedJson::String(text)) => document.add_text(field, text).ok(),
        (FieldType::U64(_), BorrowedJson::Unsigned(number)) => {
            document.add_u64(field, *number).ok()
        }
        (FieldType::I64(_), BorrowedJson::Unsigned(number)) => {
            document.add_i64(field, i64::try_from(*number).ok()?).ok()
        }
        (FieldType::I64(_), BorrowedJson::Negative(number)) => {
            document.add_i64(field, *number).ok()
        }
        (FieldType::Bool(_), BorrowedJson::Bool(truth)) => document.add_bool(field, *truth).ok(),
        (FieldType::JsonObject(_), BorrowedJson::Object(_)) if is_whole(json, met_float) => {
            document
                .add_field_value(field, &LentBorrowed::new(json))
                .ok()
        }
        (FieldType::Date(_), BorrowedJson::String(text)) => {
            add_found(document, field, lend_date_text(text))
        }
        (FieldType::Facet(_), BorrowedJson::String(path)) => {
            add_found(document, field, lend_facet_text(path, scratch))
        }
        (FieldType::Bytes(_), BorrowedJson::String(text)) => {
            add_found(document, field, lend_bytes_text(text, scratch))
        }
        (FieldType::IpAddr(_), BorrowedJson::String(text)) => {
            add_found(document, field, lend_ip_addr_text(text))
        }
        _ => None,
    }
}

// Adds a copy of a value to the field, as any value of the JSON library's.
#[inline(never)]
fn add_copy(
    document: &mut CompactDoc,
    adding: &mut Adding,
    to: &NamedField<'_>,
    json: &BorrowedJson<'_>,
) -> Option<()>
    ensures { AddsOrTells (value_for to.now (data_of json.now) ∷ []) document.old document.new
        result adding.new.refused }
{
    let Some(copy) = json.to_value(document.allocator()) else {
        return adding.refuse(DocParsingError::Memory);
    };
    match add_value(document, &mut adding.scratch, to, copy) {
        Ok(()) => Some(()),
        Err(error) => adding.refuse(error),
    }
}

// Adds one value of the field.
#[inline(always)]
fn add_one(
    document: &mut CompactDoc,
    adding: &mut Adding,
    to: &NamedField<'_>,
    json: &BorrowedJson<'_>,
    met_float: bool,
) -> Option<()>
    requires { met_float ≡ false → has_float (data_of json.now) ≡ false }
    ensures { AddsOrTells (value_for to.now (data_of json.now) ∷ []) document.old document.new
        result adding.new.refused }
{
    match add_plain(document, &mut adding.scratch, to, json, met_float) {
        Some(()) => Some(()),
        None => add_copy(document, adding, to, json),
    }
}

// Adds the values of the member at a place, if its key names a field.
fn add_borrowed(
    document: &mut CompactDoc,
    adding: &mut Adding,
    reading: &Reading<'_>,
    place: usize,
    name: &str,
    json: &BorrowedJson<'_>,
) -> Option<()>
    requires place { place < 2 ^ 63 }
    requires floats { reading.now.met_float ≡ false → has_float (data_of json.now) ≡ false }
    ensures { AddsOrTells
        (values_at reading.now.schema.now name.now (field_named reading.now.schema.now name.now)
        (data_of json.now))
        document.old document.new result adding.new.refused }
{
    let schema = reading.schema;
    let Some(field) = adding.recent.field_named(schema, place, name) else {
        return Some(());
    };
    let field_type = schema.get_field_entry(field).field_type();
    let to = NamedField {
        field,
        name,
        field_type,
    };
    let BorrowedJson::Array(items) = json else {
        return add_one(document, adding, &to, json, reading.met_float);
    };
    for item in items {
        add_one(document, adding, &to, item, reading.met_float)?;
    }
    Some(())
}

// Adds the values of an object's members.
fn add_members(
    document: &mut CompactDoc,
    adding: &mut Adding,
    reading: &Reading<'_>,
    members: &[(&str, BorrowedJson<'_>)],
) -> Option<()>
    requires { reading.now.met_float ≡ false → members_have_float (members_data members.now) ≡ false }
    ensures { AddsOrTells (object_values reading.now.schema.now (members_data members.now))
        document.old document.new result adding.new.refused }
{
    for (place, (key, json)) in members.iter().enumerate() {
        add_borrowed(document, adding, reading, place, key, json)?;
    }
    Some(())
}

impl CompactDoc {
    // Puts the document of the JSON object that the text encodes, whose texts aren't copied on the way to the heap, in place of this one. After `None`
    // some pairs may be left, and the buffers have why the text is refused, or no reason where it isn't read so, see `read_borrowed`.
    pub(crate) fn parse_borrowed(
        &mut self,
        schema: &Schema,
        text: &str,
        buffers: &mut ParseBuffers,
    ) -> Option<()>
        ensures { ParsesOrTells schema.now text.now self.new result buffers.new.adding.refused }
    {
        self.clear();
        let alloc = self.allocator();
        let adding = &mut buffers.adding;
        adding.refused = None;
        let mut met_float = false;
        match read_noting_floats(alloc, text, &mut buffers.texts, &mut met_float)? {
            BorrowedJson::Object(members) => {
                let reading = Reading { schema, met_float };
                add_members(self, adding, &reading, members.as_slice())
            }
            _ => adding.refuse(invalid_json(alloc, text)),
        }
    }
}
