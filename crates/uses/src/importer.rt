//! An importer of lines of JSON.

use crate::store::append;
use anyhow::Result;
use std::alloc::Global;
use std::fmt::Write;
use tantivy_schema::common::VecSink;
use tantivy_schema::schema::document::ParseBuffers;
use tantivy_schema::schema::{Schema, TantivyDocument};

/// Stores the documents of lines one after the other, and says of each other line why it is refused.
pub fn import(
    alloc: Global,
    schema: &Schema,
    lines: &[&str],
    stored: &mut VecSink,
) -> Result<String> {
    let mut document = TantivyDocument::new(alloc);
    let mut buffers = ParseBuffers::new(alloc);
    let mut refused = String::new(alloc);
    for (place, line) in lines.iter().enumerate() {
        if let Err(error) = document.parse_json_into(schema, line, &mut buffers) {
            writeln!(refused, "line {place}: {error}")?;
            continue;
        }
        append(stored, schema, &document)?;
    }
    Ok(refused)
}
