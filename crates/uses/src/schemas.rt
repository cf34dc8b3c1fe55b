//! Schemas.

use anyhow::Result;
use std::alloc::Global;
use tantivy_schema::schema::{Field, INDEXED, STORED, Schema, TEXT};

/// A schema of people.
pub fn people(alloc: Global) -> Result<Schema> {
    let mut builder = Schema::builder(alloc);
    builder.add_text_field("name", TEXT | STORED)?;
    builder.add_u64_field("age", INDEXED | STORED)?;
    builder.add_facet_field("group", STORED)?;
    builder.add_json_field("more", STORED)?;
    Ok(builder.build()?)
}

/// The schema as JSON, in tantivy's form.
pub fn printed(alloc: Global, schema: &Schema) -> Result<String> {
    Ok(schema.to_json_value()?.to_string(alloc)?)
}

/// The schema of such JSON.
pub fn parsed(alloc: Global, text: &str) -> Result<Schema> {
    let json = serde_json::Value::from_str(alloc, text)?;
    Ok(Schema::from_json_value(alloc, &json)?)
}

/// The field that a path of a query names, and the path into its JSON objects.
pub fn found<'p>(schema: &Schema, path: &'p str) -> Option<(Field, &'p str)> {
    schema.find_field(path)
}
