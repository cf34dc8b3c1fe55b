//! Schemas: their JSON, their fields, and the fields that paths name.

use crate::shared;
use anyhow::{Result, anyhow, ensure};
use case_words as words;
use case_words::parts::{Part, push_parts};
use case_words::schemas::{built, description_of, schema};
use serde_json::Value;
use std::alloc::Global;
use std::fmt::Write;
use tv_field::{FieldEntry, FieldType, SchemaError, is_valid_field_name};
use tv_options::TEXT;
use tv_schema::laws::{printed_schema_is_read_back, record_options_agree};
use tv_schema::{Schema, SchemaBuilder};
use tv_value::field::Field;

/// What a call about schemas returns.
pub fn answer(alloc: Global, call: &[&str]) -> Result<String> {
    let (name, call) = words::first(call)?;
    match name {
        "json" => described(alloc, call),
        "fields" => fields(alloc, call),
        "field" => field(alloc, call),
        "find" => find(alloc, call),
        "add" => add(alloc, call),
        "name" => name_answer(alloc, call),
        "equal" => equal(alloc, call),
        _ => Err(anyhow!("an unknown call about schemas")),
    }
}

// The JSON of the schema that a description describes, or the refusal.
fn described(alloc: Global, call: &[&str]) -> Result<String> {
    let description = Value::from_str(alloc, description_of(words::one(call)?))?;
    let made = Schema::from_json_value(alloc, &description);
    drop(description);
    match made {
        Ok(schema) => described_again(alloc, &schema),
        Err(error) => words::error(alloc, error),
    }
}

// The JSON of a schema. The schema that is read from this JSON has to be the same, and so has the one whose fields are added by the
// calls of their types.
fn described_again(alloc: Global, schema: &Schema) -> Result<String> {
    let is_read_back = words::is_equal(schema, printed_schema_is_read_back(alloc, schema)?);
    ensure!(is_read_back, "another schema is read back");
    let is_added = words::is_equal(schema, added_again(alloc, schema)?);
    ensure!(is_added, "another schema is added field by field");
    printed(alloc, schema)
}

/// The JSON of a schema.
pub fn printed(alloc: Global, schema: &Schema) -> Result<String> {
    words::json_text(alloc, schema.to_json_value()?)
}

// The schema whose fields are added by the calls of their types.
fn added_again(alloc: Global, schema: &Schema) -> Result<Schema> {
    let mut builder = Schema::builder(alloc);
    let outcome = add_fields(alloc, &mut builder, schema);
    built(builder, outcome)
}

// Adds the fields of a schema by the calls of their types.
fn add_fields(alloc: Global, builder: &mut SchemaBuilder, schema: &Schema) -> Result<()> {
    for (_, entry) in schema.fields() {
        check_entry(alloc, entry)?;
        let field_type = entry.field_type().try_clone(alloc)?;
        add_field(builder, entry.name(), field_type)?;
    }
    Ok(())
}

// Checks that a copy of an entry is the same, and that the call of its type makes the same.
fn check_entry(alloc: Global, entry: &FieldEntry) -> Result<()> {
    let is_copied = words::is_equal(entry, entry.try_clone()?);
    let name = String::from_str(alloc, entry.name())?;
    let made = new_entry(name, entry.field_type().try_clone(alloc)?)?;
    let is_made = words::is_equal(entry, made);
    ensure!(is_copied && is_made, "another entry is made");
    Ok(())
}

// Adds a field by the call of its type.
fn add_field(
    builder: &mut SchemaBuilder,
    name: &str,
    field_type: FieldType,
) -> Result<Field, SchemaError> {
    match field_type {
        FieldType::Str(options) => builder.add_text_field(name, options),
        FieldType::U64(options) => builder.add_u64_field(name, options),
        FieldType::I64(options) => builder.add_i64_field(name, options),
        FieldType::Bool(options) => builder.add_bool_field(name, options),
        FieldType::Date(options) => builder.add_date_field(name, options),
        FieldType::Facet(options) => builder.add_facet_field(name, options),
        FieldType::Bytes(options) => builder.add_bytes_field(name, options),
        FieldType::JsonObject(options) => builder.add_json_field(name, options),
        FieldType::IpAddr(options) => builder.add_ip_addr_field(name, options),
    }
}

// An entry, made by the call of its type.
fn new_entry(name: String, field_type: FieldType) -> Result<FieldEntry, SchemaError> {
    match field_type {
        FieldType::Str(options) => FieldEntry::new_text(name, options),
        FieldType::U64(options) => FieldEntry::new_u64(name, options),
        FieldType::I64(options) => FieldEntry::new_i64(name, options),
        FieldType::Bool(options) => FieldEntry::new_bool(name, options),
        FieldType::Date(options) => FieldEntry::new_date(name, options),
        FieldType::Facet(options) => FieldEntry::new_facet(name, options),
        FieldType::Bytes(options) => FieldEntry::new_bytes(name, options),
        FieldType::JsonObject(options) => FieldEntry::new_json(name, options),
        FieldType::IpAddr(options) => FieldEntry::new_ip_addr(name, options),
    }
}

// How many fields there are, and the number, the name, the type and the queries of each.
fn fields(alloc: Global, call: &[&str]) -> Result<String> {
    let schema = schema(alloc, words::one(call)?)?;
    fields_of(alloc, &schema)
}

// The same of a schema's fields.
fn fields_of(alloc: Global, schema: &Schema) -> Result<String> {
    let mut answer = words::plain(alloc, &schema.num_fields())?;
    for (field, entry) in schema.fields() {
        push_entry(alloc, &mut answer, field, entry)?;
    }
    Ok(answer)
}

// Appends the number, the name, the type and the queries of a field.
fn push_entry(alloc: Global, answer: &mut String, field: Field, entry: &FieldEntry) -> Result<()> {
    let number = field.field_id();
    let value_type = entry.field_type().value_type();
    let name = words::quoted(alloc, entry.name())?;
    write!(answer, "\t{number} {name} {value_type:?}")?;
    push_parts(alloc, answer, &queries(entry))?;
    push_record(answer, entry.field_type())
}

// The queries about a type and about an entry.
fn queries(entry: &FieldEntry) -> [(&'static str, Part<'static>); 10] {
    let field_type = entry.field_type();
    [
        ("is_str", Part::from(field_type.is_str())),
        ("is_json", Part::from(field_type.is_json())),
        ("is_date", Part::from(field_type.is_date())),
        ("is_bytes", Part::from(field_type.is_bytes())),
        ("is_ip_addr", Part::from(field_type.is_ip_addr())),
        ("stored", Part::from(entry.is_stored())),
        ("indexed", Part::from(entry.is_indexed())),
        ("fieldnorms", Part::from(entry.has_fieldnorms())),
        ("fast", Part::from(entry.is_fast())),
        ("expand_dots", Part::from(entry.is_expand_dots_enabled())),
    ]
}

// Appends what an index keeps of each term.
fn push_record(answer: &mut String, field_type: &FieldType) -> Result<()> {
    let (record, same_record) = record_options_agree(field_type);
    ensure!(
        record == same_record,
        "calls about a record option disagree"
    );
    if let Some(kept) = record {
        write!(answer, " record {kept:?}")?;
    }
    Ok(())
}

// The number of the field with a name, or the name of the field with a number.
fn field(alloc: Global, call: &[&str]) -> Result<String> {
    let (description, word) = words::two(call)?;
    let schema = schema(alloc, description)?;
    if word.starts_with('"') {
        return field_named(alloc, &schema, words::text(alloc, word)?.as_str());
    }
    let field = words::field(word)?;
    if !schema.has_field(field) {
        return words::none(alloc);
    }
    words::quoted(alloc, schema.get_field_name(field))
}

// The number of the field with a name, or the refusal.
fn field_named(alloc: Global, schema: &Schema, name: &str) -> Result<String> {
    match schema.get_field(name) {
        Ok(field) => words::plain(alloc, &field.field_id()),
        Err(error) => words::error(alloc, error),
    }
}

// The field that a path names, and the rest of the path. There may be a default field.
fn find(alloc: Global, call: &[&str]) -> Result<String> {
    let [description, path, default @ ..] = call else {
        return Err(anyhow!("a schema and a path"));
    };
    let schema = schema(alloc, description)?;
    let answer = find_in(alloc, &schema, path, default);
    drop(schema);
    answer
}

// The same in this schema. The number of the default field is the only word, if there is one.
fn find_in(alloc: Global, schema: &Schema, path: &str, default: &[&str]) -> Result<String> {
    let path = words::text(alloc, path)?;
    if default.is_empty() {
        return found(alloc, schema.find_field(path.as_str()));
    }
    let default = words::field(words::one(default)?)?;
    ensure!(schema.has_field(default), "an unknown default field");
    found(
        alloc,
        schema.find_field_with_default(path.as_str(), Some(default)),
    )
}

// The number of a field and the rest of a path, or `none`.
fn found(alloc: Global, field_and_rest: Option<(Field, &str)>) -> Result<String> {
    match field_and_rest {
        Some((field, rest)) => {
            let rest = words::quoted(alloc, rest)?;
            shared::answered(format!(in alloc; "{} {rest}", field.field_id()))
        }
        None => words::none(alloc),
    }
}

// The numbers or the refusals of fields of texts that are added, and the JSON of the schema that they make.
fn add(alloc: Global, names: &[&str]) -> Result<String> {
    let mut text = String::new(alloc);
    let mut builder = Schema::builder(alloc);
    let outcome = push_added(alloc, &mut builder, names, &mut text);
    let schema = built(builder, outcome)?;
    text.push_str(printed(alloc, &schema)?.as_str())?;
    Ok(text)
}

// Adds fields of texts, and puts their numbers or refusals after a text. A builder has to be printed as something.
fn push_added(
    alloc: Global,
    builder: &mut SchemaBuilder,
    names: &[&str],
    text: &mut String,
) -> Result<()> {
    for name in names {
        let added = added(alloc, builder, name)?;
        write!(text, "{added}\t")?;
    }
    let debug = format!(in alloc; "{builder:?}")?;
    ensure!(!debug.is_empty(), "nothing is printed of a builder");
    Ok(())
}

/// Adds a field of texts, and returns what that call answers.
pub fn add_text(
    alloc: Global,
    builder: &mut SchemaBuilder,
    word: &str,
) -> Result<Result<Field, SchemaError>> {
    let name = words::text(alloc, word)?;
    Ok(builder.add_text_field(name.as_str(), TEXT))
}

// The number or the refusal of a field of texts that is added.
fn added(alloc: Global, builder: &mut SchemaBuilder, word: &str) -> Result<String> {
    match add_text(alloc, builder, word)? {
        Ok(field) => words::plain(alloc, &field.field_id()),
        Err(error) => words::error(alloc, error),
    }
}

// Whether a name is valid, and the refusal of an entry of this name.
fn name_answer(alloc: Global, call: &[&str]) -> Result<String> {
    let name = shared::text(alloc, call)?;
    let is_valid = is_valid_field_name(name.as_str());
    let answer = match FieldEntry::new_text(name, TEXT) {
        Ok(entry) => {
            drop(entry);
            format!(in alloc; "{is_valid}")
        }
        Err(error) => format!(in alloc; "{is_valid}\terror {error:?}"),
    };
    Ok(answer?)
}

// Whether two schemas are equal. A copy has to be equal.
fn equal(alloc: Global, call: &[&str]) -> Result<String> {
    let (one, other) = words::two(call)?;
    let (one, other) = (schema(alloc, one)?, schema(alloc, other)?);
    ensure!(words::is_equal(&one, one.clone()?), "a copy is not equal");
    words::plain(alloc, &(one == other))
}
