//! Options of fields, made of flags and by setters, and the types of values.

use crate::shared;
use anyhow::{Context, Result, anyhow, ensure};
use case_words as words;
use case_words::parts::{Part, push_parts};
use case_words::schemas::built;
use serde_json::Value;
use std::alloc::{AllocError, Global};
use tv_date::DateTimePrecision;
use tv_field::{FieldEntry, FieldType};
use tv_options::{
    BytesOptions, COERCE, DateOptions, FAST, FacetOptions, INDEXED, IndexRecordOption,
    IpAddrOptions, JsonObjectOptions, NumericOptions, STORED, STRING, TEXT, TextFieldIndexing,
    TextOptions, TokenizerName, Type,
};
use tv_schema::{Schema, SchemaBuilder};

/// What a call about options returns.
pub fn answer(alloc: Global, call: &[&str]) -> Result<String> {
    let (name, call) = words::first(call)?;
    match name {
        "of" => of_steps(alloc, call),
        "record" => records(alloc, call),
        "tokenizer" => tokenizer(alloc, call),
        _ => Err(anyhow!("an unknown call about options")),
    }
}

// The options of a type of fields after these steps.
fn of_steps(alloc: Global, call: &[&str]) -> Result<String> {
    let (kind, steps) = words::two(call)?;
    let mut field_type = unset(kind)?;
    for step in steps.split(' ') {
        field_type = changed(alloc, field_type, step)?;
    }
    let answer = shown(alloc, &field_type);
    drop(field_type);
    answer
}

// The record option by default, or how two of them compare.
fn records(alloc: Global, call: &[&str]) -> Result<String> {
    if call.is_empty() {
        return words::debug(alloc, IndexRecordOption::default());
    }
    compared_records(alloc, call)
}

// How two record options compare, and the lesser of both.
fn compared_records(alloc: Global, call: &[&str]) -> Result<String> {
    let (one, other) = words::two(call)?;
    let one = record_named(one)?;
    let other = record_named(other)?;
    let order = words::compared(alloc, &one, &other)?;
    let least = one.downgrade(other);
    shared::answered(format!(in alloc; "{order} {least:?}"))
}

// The name of a tokenizer, and whether it is the default.
fn tokenizer(alloc: Global, call: &[&str]) -> Result<String> {
    let name = shared::text(alloc, call)?;
    let name = TokenizerName::from_name(alloc, name.as_str())?;
    let answer = tokenizer_shown(alloc, &name);
    drop(name);
    answer
}

// The name in quotes, and whether it is the default. A copy has to be equal.
fn tokenizer_shown(alloc: Global, name: &TokenizerName) -> Result<String> {
    let is_copied = words::is_equal(name, name.try_clone(alloc)?);
    ensure!(is_copied, "a copy is not equal");
    let is_default = words::is_equal(name, TokenizerName::default());
    let name = words::quoted(alloc, name.name())?;
    Ok(format!(in alloc; "{name} {is_default}")?)
}

/// What a call about types returns.
pub fn answer_types(alloc: Global, call: &[&str]) -> Result<String> {
    let (name, call) = words::first(call)?;
    match name {
        "all" => codes(alloc),
        "of" => type_name(alloc, call),
        "compare" => compared_types(alloc, call),
        _ => Err(anyhow!("an unknown call about types")),
    }
}

// How two types compare.
fn compared_types(alloc: Global, call: &[&str]) -> Result<String> {
    let (one, other) = words::two(call)?;
    let one = words::type_of(one)?;
    words::compared(alloc, &one, &words::type_of(other)?)
}

// The codes of all types.
fn codes(alloc: Global) -> Result<String> {
    let mut codes = String::new(alloc);
    for value_type in Type::iter_values() {
        ensure!(value_type as u8 == value_type.to_code(), "two codes");
        codes.push(char::from(value_type.to_code()))?;
    }
    Ok(codes)
}

// The name of the type of a code.
fn type_name(alloc: Global, call: &[&str]) -> Result<String> {
    let code = words::one(call)?.bytes().next().context("a code")?;
    match Type::from_code(code) {
        Some(value_type) => words::plain(alloc, &value_type.name()),
        None => words::none(alloc),
    }
}

// The record option of a name.
fn record_named(name: &str) -> Result<IndexRecordOption> {
    match name {
        "Basic" => Ok(IndexRecordOption::Basic),
        "WithFreqs" => Ok(IndexRecordOption::WithFreqs),
        "WithFreqsAndPositions" => Ok(IndexRecordOption::WithFreqsAndPositions),
        _ => Err(anyhow!("an unknown record option")),
    }
}

// A type of fields with its default options.
fn unset(kind: &str) -> Result<FieldType> {
    match kind {
        "text" => Ok(FieldType::Str(TextOptions::default())),
        "u64" => Ok(FieldType::U64(NumericOptions::default())),
        "date" => Ok(FieldType::Date(DateOptions::default())),
        "facet" => Ok(FieldType::Facet(FacetOptions::default())),
        "bytes" => Ok(FieldType::Bytes(BytesOptions::default())),
        "json_object" => Ok(FieldType::JsonObject(JsonObjectOptions::default())),
        "ip_addr" => Ok(FieldType::IpAddr(IpAddrOptions::default())),
        _ => Err(anyhow!("an unknown type of fields")),
    }
}

// The type of fields with its options changed by one step: by a setter, or by `|` with what stands after it or before it.
// The name of a tokenizer stands after `=`.
fn changed(alloc: Global, field_type: FieldType, step: &str) -> Result<FieldType> {
    let (step, name) = match step.split_once('=') {
        Some((step, name)) => (step, Some(name)),
        None => (step, None),
    };
    match field_type {
        FieldType::Str(options) => changed_text(alloc, options, step, name),
        FieldType::U64(options) => changed_number(options, step),
        FieldType::Date(options) => changed_date(options, step),
        FieldType::Facet(options) => Ok(changed_facet(options, step)),
        FieldType::Bytes(options) => changed_bytes(options, step),
        FieldType::IpAddr(options) => changed_address(options, step),
        FieldType::JsonObject(options) => changed_json(alloc, options, step, name),
        _ => Err(anyhow!("a type whose options are those of u64")),
    }
}

// Dates, with their options changed by one step.
fn changed_date(options: DateOptions, step: &str) -> Result<FieldType> {
    Ok(FieldType::Date(match step {
        "fieldnorm" => options.set_fieldnorm(),
        "milliseconds" => options.set_precision(DateTimePrecision::Milliseconds),
        "|stored" => options | STORED,
        "stored|" => STORED | options,
        _ => return Err(anyhow!("an unknown step")),
    }))
}

// Facets, with their options changed by one step.
fn changed_facet(options: FacetOptions, step: &str) -> FieldType {
    FieldType::Facet(match step {
        "|indexed" => options | INDEXED,
        "|indexed+stored" => options | (INDEXED | STORED),
        _ => options,
    })
}

// Addresses, with their options changed by one step.
fn changed_address(options: IpAddrOptions, step: &str) -> Result<FieldType> {
    Ok(FieldType::IpAddr(match step {
        "fieldnorms" => options.set_fieldnorms(),
        "|stored+indexed+fast" => options | (STORED | INDEXED | FAST),
        _ => return Err(anyhow!("an unknown step")),
    }))
}

// Numbers, with their options changed by one step.
fn changed_number(options: NumericOptions, step: &str) -> Result<FieldType> {
    Ok(FieldType::U64(match step {
        "fieldnorm" => options.set_fieldnorm(),
        "coerce" => options.set_coerce(),
        "indexed" => options.set_indexed(),
        "|coerce" => options | COERCE,
        "|stored" => options | STORED,
        "indexed|" => INDEXED | options,
        "|fast" => options | FAST,
        "|itself" => options | options,
        _ => return Err(anyhow!("an unknown step")),
    }))
}

// Byte strings, with their options changed by one step.
fn changed_bytes(options: BytesOptions, step: &str) -> Result<FieldType> {
    Ok(FieldType::Bytes(match step {
        "default" => options,
        "fieldnorms" => options.set_fieldnorms(),
        "stored" => options.set_stored(),
        "indexed" => options.set_indexed(),
        "fast" => options.set_fast(),
        "stored|" => STORED | options,
        "|stored" => options | STORED,
        "|indexed" => options | INDEXED,
        "|fast" => options | FAST,
        "|fast+stored" => options | (FAST | STORED),
        "|indexed+fast" => options | (INDEXED | FAST),
        "|stored+indexed" => options | (STORED | INDEXED),
        _ => return Err(anyhow!("an unknown step")),
    }))
}

// Texts, with their options changed by one step, which may name a tokenizer.
fn changed_text(
    alloc: Global,
    options: TextOptions,
    step: &str,
    tokenizer_name: Option<&str>,
) -> Result<FieldType> {
    match step {
        "fast" => texts(options.set_fast(alloc, tokenizer_name)),
        "frequencies" => text_with(options, frequencies(alloc, tokenizer_name)),
        "|fast" => text_and_fast(alloc, options, tokenizer_name),
        _ => changed_plain_text(options, step),
    }
}

// Texts with these options, if there was memory for them.
fn texts(options: Result<TextOptions, AllocError>) -> Result<FieldType> {
    Ok(FieldType::Str(options?))
}

// Texts, with their options changed by one step that names no tokenizer.
fn changed_plain_text(options: TextOptions, step: &str) -> Result<FieldType> {
    Ok(FieldType::Str(match step {
        "default" => options,
        "stored" => options.set_stored(),
        "coerce" => options.set_coerce(),
        "|text" => options | TEXT,
        "|string" => options | STRING,
        "stored|" => STORED | options,
        "|stored+coerce" => options | (STORED | COERCE),
        "|stored+coerce+fast" => options | (STORED | COERCE | FAST),
        _ => return unknown_step(options),
    }))
}

// The refusal of a step. The options are dropped.
fn unknown_step<T: Drop>(_options: T) -> Result<FieldType> {
    Err(anyhow!("an unknown step"))
}

// Texts that are indexed so.
fn text_with(options: TextOptions, indexing: Result<TextFieldIndexing>) -> Result<FieldType> {
    match indexing {
        Ok(indexing) => Ok(FieldType::Str(options.set_indexing_options(indexing))),
        Err(error) => {
            drop(options);
            Err(error)
        }
    }
}

// Texts with their options, and those of a fast field by a tokenizer.
fn text_and_fast(
    alloc: Global,
    options: TextOptions,
    tokenizer_name: Option<&str>,
) -> Result<FieldType> {
    match TextOptions::default().set_fast(alloc, tokenizer_name) {
        Ok(fast) => Ok(FieldType::Str(options | fast)),
        Err(error) => {
            drop(options);
            Err(error.into())
        }
    }
}

// JSON objects, with their options changed by one step, which may name a tokenizer.
fn changed_json(
    alloc: Global,
    options: JsonObjectOptions,
    step: &str,
    tokenizer_name: Option<&str>,
) -> Result<FieldType> {
    Ok(FieldType::JsonObject(match step {
        "dots" => options.set_expand_dots_enabled(),
        "fast" => options.set_fast(alloc, tokenizer_name)?,
        "frequencies" => return json_with(options, frequencies(alloc, tokenizer_name)),
        "|text" => options | TEXT,
        "|string" => options | STRING,
        "|stored|text" => options | (STORED | TEXT),
        "stored|" => STORED | options,
        "|stored" => options | STORED,
        "|fast" => options | FAST,
        "|fast+stored" => options | (FAST | STORED),
        _ => return unknown_step(options),
    }))
}

// JSON objects whose texts are indexed so.
fn json_with(options: JsonObjectOptions, indexing: Result<TextFieldIndexing>) -> Result<FieldType> {
    match indexing {
        Ok(indexing) => Ok(FieldType::JsonObject(options.set_indexing_options(indexing))),
        Err(error) => {
            drop(options);
            Err(error)
        }
    }
}

// Indexing by the tokenizer of this name, of documents and frequencies, without field norms.
fn frequencies(alloc: Global, tokenizer_name: Option<&str>) -> Result<TextFieldIndexing> {
    let name = tokenizer_name.context("the name of a tokenizer")?;
    let indexing = TextFieldIndexing::default().set_tokenizer(alloc, name)?;
    Ok(
        indexing
            .set_index_option(IndexRecordOption::WithFreqs)
            .set_fieldnorms(false),
    )
}

// The options as JSON, and which queries of the field's type hold.
fn shown(alloc: Global, field_type: &FieldType) -> Result<String> {
    let is_copied = words::is_equal(field_type, field_type.try_clone(alloc)?);
    ensure!(is_copied, "a copy is not equal");
    let mut answer = json(alloc, field_type)?;
    let queries = [
        ("stored", Part::from(field_type.is_stored())),
        ("indexed", Part::from(field_type.is_indexed())),
        ("fast", Part::from(field_type.is_fast())),
        ("fieldnorms", Part::from(field_type.has_fieldnorms())),
    ];
    push_parts(alloc, &mut answer, &queries)?;
    Ok(answer)
}

// The options of a field as they stand in the JSON of its schema.
fn json(alloc: Global, field_type: &FieldType) -> Result<String> {
    let schema = schema_of(alloc, field_type)?.to_json_value()?;
    let answer = options_of(alloc, &schema);
    drop(schema);
    answer
}

// The schema of one field of this type.
fn schema_of(alloc: Global, field_type: &FieldType) -> Result<Schema> {
    let mut builder = Schema::builder(alloc);
    let outcome = add_field(alloc, &mut builder, field_type);
    built(builder, outcome)
}

// Adds a field of this type.
fn add_field(alloc: Global, builder: &mut SchemaBuilder, field_type: &FieldType) -> Result<()> {
    let name = String::from_str(alloc, "f")?;
    let entry = FieldEntry::new(name, field_type.try_clone(alloc)?)?;
    builder.add_field(entry)?;
    Ok(())
}

// The options of the first field in the JSON of a schema.
fn options_of(alloc: Global, schema: &Value) -> Result<String> {
    let options = schema.pointer("/0/options").context("options")?;
    shared::answered(options.to_string(alloc))
}
