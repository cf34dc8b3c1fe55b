//! Schemas as JSON.

ghost use Rattle.std.specs.Prelude.{◌≡◌, ◌≢◌, Ok, Err, IfOk, IfErr, IfSome, ◌+◌, [], length, OnOk, string_bytes};
ghost use Rattle.serde_json.specs.View.{view, items_view};
ghost use Rattle.tv_schema.specs.SchemaJson.{schema_json};
ghost use Rattle.tv_schema.specs.SchemaJsonEarly.{early_by_key, early_error, fault_in, first_error, head_error, opened};
ghost use Rattle.tv_schema.specs.SchemaJsonReading.{schema_by_key, schema_of, Describes, GivesSchema, accepted_entry, entry_of, with_entry, with_entries};
ghost use Rattle.tv_schema.specs.SchemaJsonReading.{type_named};
ghost use Rattle.tv_field.specs.declared.field_entry.SchemaError.TheVariants.{Memory};
ghost use Rattle.tv_field.specs.Entry.{Entry};
ghost use Rattle.tv_schema.specs.Schema.{refusal};

pub mod error;
pub mod key;
mod members;
mod options;
mod words;
mod write;

use crate::json::error::{EntryFault, SchemaJsonError, refused_at};
use crate::json::key::SchemaKey;
use crate::json::members::{required_object, required_text};
use crate::json::options::options_of;
use crate::json::words::type_of_word;
use crate::schema::{Schema, SchemaBuilder};
use serde_json::Value;
use std::alloc::{AllocError, Global};
use tv_field::{FieldEntry, FieldType, SchemaError};
use tv_options::Type;

impl Schema {
    /// The schema as JSON: an array of the entries in the order of their numbers, each an object of `name`, `options`
    /// and `type`. The only error is that memory is refused.
    pub fn to_json_value(&self) -> Result<Value, AllocError>
        ensures { IfOk result (λ value. view value ≡ schema_json self.now) }
    {
        write::schema_json(self.table.allocator(), self.table.entries())
    }

    /// The schema that the JSON value describes, in the form in which `to_json_value` prints one. Keys that aren't named
    /// there are passed over.
    ///
    /// Errors: `BadJson { entry: None }` where the value is no array. Else the first malformed entry's, from the place 0:
    /// `BadJson` where it is no object, or its `name` or `type` is no text, or the type's word is unknown; `FloatField`
    /// for the type `f64`; `BadJson` where its `options` are no object, or not those of the type; `InvalidName`,
    /// `DuplicateName` or `TooManyFields` as `SchemaBuilder::add_field` has them. `Memory` where memory was refused: no
    /// memory is taken before the value is an array and its first entry, if there is one, has a name, a type and options,
    /// so what is refused till then is refused for that alone. `from_json_value_by_key` names the key too.
    pub fn from_json_value(alloc: Global, value: &Value) -> Result<Schema, SchemaError>
        ensures ok { IfOk result (λ schema. schema_of (view value.now) ≡ Ok schema) }
        ensures err { IfErr result
            (λ error. error ≢ Memory → schema_of (view value.now) ≡ Err error) }
        ensures early { IfSome (early_error (view value.now)) (λ error. result ≡ Err error) }
    {
        Ok(Self::from_json_value_by_key(alloc, value)?)
    }

    /// The same schema, where the error also names the key that is at fault. (Not in tantivy.)
    ///
    /// Errors: `BadKey` with the entry's place and the key where `from_json_value` returns `BadJson` with this place for one of
    /// the entry's keys, the first in the order in which they are read: `name`, `type`, `options`, and then those of the type.
    /// `Refused` with the entry's place where that returns `InvalidName`, `DuplicateName` or `TooManyFields`.
    /// Else `Other` with the error of `from_json_value`: its `BadJson` is then a value that is no array, or an entry that is no
    /// object. Memory is taken and refused as there.
    pub fn from_json_value_by_key(alloc: Global, value: &Value) -> Result<Schema, SchemaJsonError>
        ensures ok { IfOk result (λ schema. schema_by_key (view value.now) ≡ Ok schema) }
        ensures err { IfErr result
            (λ error. error ≢ SchemaJsonError.Other Memory
            → schema_by_key (view value.now) ≡ Err error) }
        ensures early { IfSome (early_by_key (view value.now)) (λ error. result ≡ Err error) }
    {
        let whole = SchemaJsonError::Other(SchemaError::BadJson { entry: None });
        let items = value.as_array().ok_or(whole)?;
        Ok(builder_of(alloc, items)?.build()?)
    }
}

// A builder with the entries that the JSON values describe.
fn builder_of(alloc: Global, items: &[Value]) -> Result<SchemaBuilder, SchemaJsonError>
    ensures built { GivesSchema (λ builder. builder) (with_entries [] (items_view items.now)) result }
    ensures early { IfSome (first_error (items_view items.now)) (λ error. result ≡ Err error) }
{
    let mut builder = SchemaBuilder::new(alloc);
    for (place, description) in items.iter().enumerate() {
        add_entry(alloc, &mut builder, place, description)?;
    }
    Ok(builder)
}

// Adds an entry. Its place is the number of the entries before it.
fn take_entry(
    builder: &mut SchemaBuilder,
    place: usize,
    entry: FieldEntry,
) -> Result<(), SchemaJsonError>
    requires { place ≡ length builder.old }
    ensures added { GivesSchema (λ _. builder.new)
        (accepted_entry builder.old entry (refusal builder.old entry.name)) result }
    ensures one_more { OnOk result (length builder.new ≡ place + 1) }
{
    match builder.add_field(entry) {
        Ok(_) => Ok(()),
        Err(error) => Err(refused_at(place, error)),
    }
}

// Adds the entry that the JSON value describes. Its place is the number of the entries before it.
#[tactic(auto, unfolding(crate::specs::SchemaJsonReading::with_entry))]
fn add_entry(
    alloc: Global,
    builder: &mut SchemaBuilder,
    place: usize,
    description: &Value,
) -> Result<(), SchemaJsonError>
    requires { place ≡ length builder.old }
    ensures added { GivesSchema (λ _. builder.new) (with_entry builder.old (view description.now))
        result }
    ensures early { IfSome (head_error place (view description.now)) (λ error. result ≡ Err error) }
    ensures one_more { OnOk result (length builder.new ≡ place + 1) }
{
    match entry_of(alloc, description) {
        Ok((name, field_type)) => match FieldEntry::new(name, field_type) {
            Ok(entry) => take_entry(builder, place, entry),
            Err(error) => Err(refused_at(place, error)),
        },
        Err(fault) => Err(fault.at_entry(place)),
    }
}

// The name and the type of the entry that the JSON value describes.
#[tactic(auto, unfolding(crate::specs::SchemaJsonReading::entry_of, crate::specs::SchemaJsonEarly::opened))]
fn entry_of(alloc: Global, description: &Value) -> Result<(String, FieldType), EntryFault>
    ensures found { Describes
        (λ found. record { name = string_bytes found.0; field_type = found.1 })
        (entry_of (view description.now)) result }
    ensures early { IfSome (fault_in (opened (view description.now))) (λ fault. result ≡ Err fault) }
{
    let members = description.as_object().ok_or(EntryFault::NoObject)?;
    let name = required_text(members, SchemaKey::Name)?;
    let word = required_text(members, SchemaKey::Type)?;
    let value_type = type_named(word)?;
    let options = required_object(members, SchemaKey::Options)?;
    let field_type = options_of(alloc, value_type, options)?;
    Ok((String::from_str(alloc, name)?, field_type))
}

// The type of the word; `f64` is a type that this library doesn't have.
#[tactic(auto, unfolding(crate::specs::SchemaJsonReading::type_named))]
fn type_named(word: &str) -> Result<Type, EntryFault>
    ensures { result ≡ type_named word.now }
{
    if word == "f64" {
        Err(EntryFault::FloatField)
    } else {
        type_of_word(word).ok_or(EntryFault::Key(SchemaKey::Type))
    }
}
