//! Entries and their options as JSON.

ghost use Rattle.std.specs.Prelude.{◌≡◌, IfOk, OnOk, codes, option_map};
ghost use Rattle.std.specs.Option.{option_copied};
ghost use Rattle.serde_json.specs.View.{view, members_view};
ghost use Rattle.tv_schema.specs.SchemaJson.{schema_json, entry_json, options_json, text_json, numeric_json, date_json, facet_json, bytes_json};
ghost use Rattle.tv_schema.specs.SchemaJson.{json_object_json, ip_addr_json, indexing_json, fast_json, put_some, put_true};

use crate::json::words::{precision_word, record_word, type_word};
use serde_json::{Map, Value, json, put};
use std::alloc::{AllocError, Global};
use tv_field::{FieldEntry, FieldType};
use tv_options::{
    BytesOptions, DateOptions, FacetOptions, IpAddrOptions, JsonObjectOptions, NumericOptions,
    TextFieldIndexing, TextOptions,
};

// The entries of a schema, in order.
pub(super) fn schema_json(alloc: Global, entries: &[FieldEntry]) -> Result<Value, AllocError>
    ensures { IfOk result (λ value. view value ≡ schema_json entries.now) }
{
    let mut items = Vec::new(alloc);
    for entry in entries {
        items.push(entry_json(alloc, entry)?)?;
    }
    Ok(Value::Array(items))
}

// An entry: its name, its options and the word of its type.
fn entry_json(alloc: Global, entry: &FieldEntry) -> Result<Value, AllocError>
    ensures { IfOk result (λ value. view value ≡ entry_json entry.now) }
{
    let field_type = entry.field_type();
    json!(in alloc; {
        "name": entry.name(),
        "options": options_json(alloc, field_type)?,
        "type": type_word(field_type.value_type()),
    })
}

fn options_json(alloc: Global, field_type: &FieldType) -> Result<Value, AllocError>
    ensures { IfOk result (λ value. view value ≡ options_json field_type.now) }
{
    match field_type {
        FieldType::Str(options) => text_json(alloc, options),
        FieldType::U64(options) | FieldType::I64(options) | FieldType::Bool(options) => {
            numeric_json(alloc, options)
        }
        FieldType::Date(options) => date_json(alloc, options),
        FieldType::Facet(options) => facet_json(alloc, options),
        FieldType::Bytes(options) => bytes_json(alloc, options),
        FieldType::JsonObject(options) => json_object_json(alloc, options),
        FieldType::IpAddr(options) => ip_addr_json(alloc, options),
    }
}

fn text_json(alloc: Global, texts: &TextOptions) -> Result<Value, AllocError>
    ensures { IfOk result (λ value. view value ≡ text_json texts.now) }
{
    let mut members = Map::new(alloc);
    put(
        &mut members,
        alloc,
        "fast",
        fast_json(
            alloc,
            texts.is_fast(),
            texts.get_fast_field_tokenizer_name(),
        )?,
    )?;
    put(
        &mut members,
        alloc,
        "stored",
        Value::Bool(texts.is_stored()),
    )?;
    put_indexing(&mut members, alloc, texts.get_indexing_options())?;
    put_true(&mut members, alloc, "coerce", texts.should_coerce())?;
    Ok(Value::Object(members))
}

// Puts the indexing at its key, where there is one.
fn put_indexing(
    members: &mut Map<String, Value>,
    alloc: Global,
    indexing: Option<&TextFieldIndexing>,
) -> Result<(), AllocError>
    ensures { OnOk result
        (members_view members.new.entries
        ≡ put_some (codes "indexing") (option_map indexing_json (option_copied indexing.entry))
        (members_view members.old.entries)) }
{
    match indexing {
        Some(indexing) => put(members, alloc, "indexing", indexing_json(alloc, indexing)?),
        None => Ok(()),
    }
}

// Puts `true` at the key, where it is so.
fn put_true(
    members: &mut Map<String, Value>,
    alloc: Global,
    key: &str,
    is_so: bool,
) -> Result<(), AllocError>
    ensures { OnOk result
        (members_view members.new.entries
        ≡ put_true key.now is_so (members_view members.old.entries)) }
{
    if is_so {
        put(members, alloc, key, Value::Bool(true))
    } else {
        Ok(())
    }
}

fn numeric_json(alloc: Global, numbers: &NumericOptions) -> Result<Value, AllocError>
    ensures { IfOk result (λ value. view value ≡ numeric_json numbers.now) }
{
    let mut members = Map::new(alloc);
    put(&mut members, alloc, "fast", Value::Bool(numbers.is_fast()))?;
    put(
        &mut members,
        alloc,
        "fieldnorms",
        Value::Bool(numbers.asks_for_fieldnorms()),
    )?;
    put(
        &mut members,
        alloc,
        "indexed",
        Value::Bool(numbers.is_indexed()),
    )?;
    put(
        &mut members,
        alloc,
        "stored",
        Value::Bool(numbers.is_stored()),
    )?;
    put_true(&mut members, alloc, "coerce", numbers.should_coerce())?;
    Ok(Value::Object(members))
}

fn date_json(alloc: Global, dates: &DateOptions) -> Result<Value, AllocError>
    ensures { IfOk result (λ value. view value ≡ date_json dates.now) }
{
    json!(in alloc; {
        "fast": dates.is_fast(),
        "fieldnorms": dates.asks_for_fieldnorms(),
        "indexed": dates.is_indexed(),
        "precision": precision_word(dates.get_precision()),
        "stored": dates.is_stored(),
    })
}

fn facet_json(alloc: Global, facets: &FacetOptions) -> Result<Value, AllocError>
    ensures { IfOk result (λ value. view value ≡ facet_json facets.now) }
{
    json!(in alloc; {"stored": facets.is_stored()})
}

fn bytes_json(alloc: Global, bytes: &BytesOptions) -> Result<Value, AllocError>
    ensures { IfOk result (λ value. view value ≡ bytes_json bytes.now) }
{
    json!(in alloc; {
        "fast": bytes.is_fast(),
        "fieldnorms": bytes.fieldnorms(),
        "indexed": bytes.is_indexed(),
        "stored": bytes.is_stored(),
    })
}

fn json_object_json(alloc: Global, objects: &JsonObjectOptions) -> Result<Value, AllocError>
    ensures { IfOk result (λ value. view value ≡ json_object_json objects.now) }
{
    let indexing = match objects.get_text_indexing_options() {
        Some(indexing) => indexing_json(alloc, indexing)?,
        None => Value::Null,
    };
    json!(in alloc; {
        "expand_dots_enabled": objects.is_expand_dots_enabled(),
        "fast": fast_json(alloc, objects.is_fast(), objects.get_fast_field_tokenizer_name())?,
        "indexing": indexing,
        "stored": objects.is_stored(),
    })
}

fn ip_addr_json(alloc: Global, addresses: &IpAddrOptions) -> Result<Value, AllocError>
    ensures { IfOk result (λ value. view value ≡ ip_addr_json addresses.now) }
{
    json!(in alloc; {
        "fast": addresses.is_fast(),
        "fieldnorms": addresses.fieldnorms(),
        "indexed": addresses.is_indexed(),
        "stored": addresses.is_stored(),
    })
}

fn indexing_json(alloc: Global, indexing: &TextFieldIndexing) -> Result<Value, AllocError>
    ensures { IfOk result (λ value. view value ≡ indexing_json indexing.now) }
{
    json!(in alloc; {
        "fieldnorms": indexing.fieldnorms(),
        "record": record_word(indexing.index_option()),
        "tokenizer": indexing.tokenizer(),
    })
}

// A fast field's tokenizer, or else whether there is a fast field.
fn fast_json(
    alloc: Global,
    is_fast: bool,
    tokenizer_name: Option<&str>,
) -> Result<Value, AllocError>
    ensures { IfOk result
        (λ value. view value ≡ fast_json is_fast (option_copied tokenizer_name.entry)) }
{
    match tokenizer_name {
        Some(name) => json!(in alloc; {"with_tokenizer": name}),
        None => Ok(Value::Bool(is_fast)),
    }
}
