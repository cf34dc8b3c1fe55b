//! The value of a line that its field's type refuses.

ghost use Rattle.std.specs.Prelude.{◌≡◌, ℕ, List, Some, IfOk};
ghost use Rattle.serde_json.specs.Data.{Members, item, no_items, object as object_of};
ghost use Rattle.serde_json.specs.Read.{read};
ghost use Rattle.serde_json.specs.View.{view as data_of, items_view, members_view};
ghost use Rattle.tv_lines.specs.RefusedValues.{FindsRefused};
ghost use Rattle.tv_doc.specs.JsonObject.{item_values, object_values, values_at};
ghost use Rattle.tv_schema.specs.Schema.{field_named};

use serde_json::{Map, Value};
use std::alloc::{AllocError, Global};
use tv_field::FieldType;
use tv_field::json_value::{JsonRefusal, JsonScratch, LentFieldValue};
use tv_schema::Schema;

// The value, if a field's type refuses it.
fn refused_one(
    field_type: &FieldType,
    json: Value,
    scratch: &mut JsonScratch,
) -> Result<Option<Value>, AllocError>
    ensures { (name : List ℕ) (field : ℕ) → IfOk result
        (FindsRefused
        (item_values name field field_type.now (item (data_of json) no_items))) }
{
    match field_type.lend_json(&json, scratch) {
        Ok(LentFieldValue::Leaf(_)) => Ok(None),
        Ok(LentFieldValue::Object(_)) => Ok(None),
        Err(refusal) => match refusal {
            JsonRefusal::Memory => Err(AllocError),
            _ => Ok(Some(json)),
        },
    }
}

// The first of these items that a field's type refuses.
fn refused_item(
    field_type: &FieldType,
    items: Vec<Value>,
    scratch: &mut JsonScratch,
) -> Result<Option<Value>, AllocError>
    ensures { (name : List ℕ) (field : ℕ) → IfOk result
        (FindsRefused (item_values name field field_type.now (items_view items.items))) }
{
    for item in items {
        if let Some(json) = refused_one(field_type, item, scratch)? {
            return Ok(Some(json));
        }
    }
    Ok(None)
}

// The first value of a member that its field's type refuses, if its key names a field.
fn refused_at(
    schema: &Schema,
    name: &str,
    json: Value,
    scratch: &mut JsonScratch,
) -> Result<Option<Value>, AllocError>
    ensures { IfOk result
        (FindsRefused (values_at schema.now name.now (field_named schema.now name.now) (data_of json))) }
{
    let Ok(field) = schema.get_field(name) else {
        return Ok(None);
    };
    let field_type = schema.get_field_entry(field).field_type();
    match json {
        Value::Array(items) => refused_item(field_type, items, scratch),
        single => refused_one(field_type, single, scratch),
    }
}

// The first value of an object's members, by byte order of their keys, that its field's type refuses.
fn refused_member(
    schema: &Schema,
    object: Map<String, Value>,
    scratch: &mut JsonScratch,
) -> Result<Option<Value>, AllocError>
    ensures { IfOk result
        (FindsRefused (object_values schema.now (members_view object.entries))) }
{
    for (key, json) in object {
        if let Some(refused) = refused_at(schema, key.as_str(), json, scratch)? {
            return Ok(Some(refused));
        }
    }
    Ok(None)
}

// The first value of a text's object that its field's type refuses. The only error is that memory was refused.
pub(crate) fn refused_value(
    alloc: Global,
    schema: &Schema,
    text: &str,
) -> Result<Option<Value>, AllocError>
    ensures { (members : Members) → read text.now ≡ Some (object_of members) → IfOk result
        (FindsRefused (object_values schema.now members)) }
{
    let mut scratch = JsonScratch::new(alloc);
    match Value::from_str(alloc, text) {
        Ok(json) => match json {
            Value::Object(object) => refused_member(schema, object, &mut scratch),
            _ => Ok(None),
        },
        Err(error) => {
            if error.is_memory() {
                return Err(AllocError);
            }
            Ok(None)
        }
    }
}
