//! What a JSON value is to a field.

use anyhow::{Result, anyhow};
use case_words as words;
use case_words::schemas::schema;
use serde_json::Value as JsonValue;
use std::alloc::Global;
use tv_field::{FieldType, ValueParsingError};
use tv_schema::Schema;

/// What a JSON value is to the first field of a schema: the value with its type, or the refusal.
pub fn answer(alloc: Global, call: &[&str]) -> Result<String> {
    let [description, json] = call else {
        return Err(anyhow!("an unknown call about JSON values"));
    };
    let schema = schema(alloc, description)?;
    let answer = to_first_field(alloc, &schema, json);
    drop(schema);
    answer
}

// What a JSON value is to the first field of a schema.
fn to_first_field(alloc: Global, schema: &Schema, json: &str) -> Result<String> {
    match schema.fields().next() {
        Some((_, entry)) => told(alloc, entry.field_type(), JsonValue::from_str(alloc, json)?),
        None => Err(anyhow!("a schema without fields")),
    }
}

// What a JSON value is to a field of this type.
fn told(alloc: Global, field_type: &FieldType, json: JsonValue) -> Result<String> {
    match field_type.value_from_json(alloc, json) {
        Ok(value) => words::debug(alloc, value),
        Err(error) => refused(alloc, error),
    }
}

// The answer of a value that is refused.
fn refused(alloc: Global, error: ValueParsingError) -> Result<String> {
    let reason = refusal(alloc, &error);
    drop(error);
    Ok(format!(in alloc; "error {}", reason?.as_str())?)
}

/// The name of a refusal, and what it says.
pub fn refusal(alloc: Global, error: &ValueParsingError) -> Result<String> {
    let text = match error {
        ValueParsingError::OverflowError { expected, .. } => {
            format!(in alloc; "OverflowError {expected:?}")
        }
        ValueParsingError::TypeError { expected, .. } => {
            format!(in alloc; "TypeError {expected:?}")
        }
        ValueParsingError::ParseError { cause, .. } => format!(in alloc; "ParseError {cause:?}"),
        ValueParsingError::InvalidBase64 { base64 } => {
            format!(in alloc; "InvalidBase64 {base64:?}")
        }
        ValueParsingError::FloatNumber => String::from_str(alloc, "FloatNumber"),
        ValueParsingError::Memory => String::from_str(alloc, "Memory"),
    };
    Ok(text?)
}
