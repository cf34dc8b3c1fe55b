//! Schemas by their descriptions.

use anyhow::{Context, Result};
use serde_json::Value;
use std::alloc::Global;
use tv_options::TEXT;
use tv_schema::{Schema, SchemaBuilder};

// The schema that the word `types` stands for: a field of each type, and some that coerce.
const TYPES: &str = r#"[{"name":"s","type":"text","options":{"stored":true}},
    {"name":"sc","type":"text","options":{"stored":true,"coerce":true}},
    {"name":"u","type":"u64","options":{"indexed":false,"stored":true}},
    {"name":"uc","type":"u64","options":{"indexed":false,"stored":true,"coerce":true}},
    {"name":"i","type":"i64","options":{"indexed":false,"stored":true}},
    {"name":"ic","type":"i64","options":{"indexed":false,"stored":true,"coerce":true}},
    {"name":"b","type":"bool","options":{"indexed":false,"stored":true}},
    {"name":"bc","type":"bool","options":{"indexed":false,"stored":true,"coerce":true}},
    {"name":"d","type":"date","options":{"indexed":false,"fieldnorms":false,"stored":true}},
    {"name":"f","type":"facet","options":{"stored":true}},
    {"name":"y","type":"bytes","options":{"indexed":false,"fast":false,"stored":true}},
    {"name":"j","type":"json_object","options":{"stored":true,"fast":false}},
    {"name":"p","type":"ip_addr","options":{"indexed":false,"fieldnorms":false,"fast":false,"stored":true}},
    {"name":"n","type":"u64","options":{"indexed":true,"stored":false}}]"#;

// The schema that the word `indexed` stands for: an indexed field of each type, one of JSON objects whose dots are expanded, and one that
// isn't indexed.
const INDEXED: &str = r#"[{"name":"s","type":"text","options":{"indexing":{"record":"basic"}}},
    {"name":"u","type":"u64","options":{"indexed":true,"stored":false}},
    {"name":"i","type":"i64","options":{"indexed":true,"stored":false}},
    {"name":"b","type":"bool","options":{"indexed":true,"stored":false}},
    {"name":"d","type":"date","options":{"indexed":true,"fieldnorms":true,"stored":false}},
    {"name":"f","type":"facet","options":{"stored":false}},
    {"name":"y","type":"bytes","options":{"indexed":true,"fast":false,"stored":false}},
    {"name":"p","type":"ip_addr","options":{"indexed":true,"fieldnorms":true,"fast":false,"stored":false}},
    {"name":"j","type":"json_object","options":{"indexing":{"record":"basic"},"fast":false,"stored":false}},
    {"name":"e","type":"json_object","options":{"indexing":{"record":"basic"},"fast":false,"stored":false,"expand_dots_enabled":true}},
    {"name":"n","type":"u64","options":{"indexed":false,"stored":true}}]"#;

/// The schema of a JSON description. A list of names stands for fields of texts with these names, the word `types` for a field of each type,
/// and the word `indexed` for fields that are indexed.
pub fn schema(alloc: Global, word: &str) -> Result<Schema> {
    let description = description_of(word);
    let json = Value::from_str(alloc, description)?;
    let schema = if description.starts_with("[\"") {
        schema_of_texts(alloc, &json)
    } else {
        schema_of_json(alloc, &json)
    };
    drop(json);
    schema
}

// The schema of a description.
fn schema_of_json(alloc: Global, description: &Value) -> Result<Schema> {
    Ok(Schema::from_json_value(alloc, description)?)
}

// The schema of fields of texts with these names.
fn schema_of_texts(alloc: Global, names: &Value) -> Result<Schema> {
    let mut builder = Schema::builder(alloc);
    let outcome = add_texts(&mut builder, names);
    built(builder, outcome)
}

// Adds fields of texts with these names.
fn add_texts(builder: &mut SchemaBuilder, names: &Value) -> Result<()> {
    for name in names.as_array().context("a list of names")? {
        builder.add_text_field(name.as_str().context("a name")?, TEXT)?;
    }
    Ok(())
}

/// The schema of a builder, if all went well before.
pub fn built(builder: SchemaBuilder, outcome: Result<()>) -> Result<Schema> {
    match outcome {
        Ok(()) => Ok(builder.build()?),
        Err(error) => {
            drop(builder);
            Err(error)
        }
    }
}

/// The description that a word stands for: that of a field of each type for `types`, that of indexed fields for `indexed`, and else the word
/// itself.
pub fn description_of(word: &str) -> &str {
    match word {
        "types" => TYPES,
        "indexed" => INDEXED,
        _ => word,
    }
}
