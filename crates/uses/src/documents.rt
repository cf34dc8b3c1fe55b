//! Documents.

use anyhow::Result;
use std::alloc::Global;
use tantivy_schema::schema::document::{Document, ParseBuffers, ReferenceValueLeaf, TreeBuilder};
use tantivy_schema::schema::{Facet, Field, Schema, TantivyDocument, Value, text_fault};

/// A document, value by value.
pub fn added(alloc: Global, schema: &Schema) -> Result<TantivyDocument> {
    let mut document = TantivyDocument::new(alloc);
    document.add_text(schema.get_field("name")?, "Ada")?;
    document.add_u64(schema.get_field("age")?, 36)?;
    let group = Facet::from_text(alloc, "/staff/research")?;
    document.add_facet(schema.get_field("group")?, &group)?;
    Ok(document)
}

/// The document of a JSON object. A key that names no field is left out.
pub fn parsed(alloc: Global, schema: &Schema, json: &str) -> Result<TantivyDocument> {
    Ok(TantivyDocument::parse_json(alloc, schema, json)?)
}

/// Where a text is no JSON object, and what was expected there, in words. None where it is one.
pub fn fault_in_words(alloc: Global, json: &str) -> Result<Option<String>> {
    match text_fault(alloc, json)? {
        Some(fault) => Ok(Some(format!(in alloc; "{fault}")?)),
        None => Ok(None),
    }
}

/// The document of a JSON object, where each key has to name a field, and none may stand twice.
pub fn parsed_strictly(alloc: Global, schema: &Schema, json: &str) -> Result<TantivyDocument> {
    Ok(TantivyDocument::parse_json_strict(alloc, schema, json)?)
}

/// How many values the documents of JSON objects have, each made in the memory of the one before.
pub fn values_parsed(alloc: Global, schema: &Schema, lines: &[&str]) -> Result<usize> {
    let mut document = TantivyDocument::new(alloc);
    let mut buffers = ParseBuffers::new(alloc);
    let mut values: usize = 0;
    for line in lines {
        document.parse_json_into(schema, line, &mut buffers)?;
        values = values.saturating_add(document.len());
    }
    Ok(values)
}

/// A document with a nested value, which is written part by part.
pub fn built(alloc: Global, field: Field) -> Result<TantivyDocument> {
    let mut builder = TreeBuilder::new(TantivyDocument::new(alloc));
    builder.open_object(2)?;
    builder.key("tags")?;
    builder.open_array(1)?;
    builder.leaf(ReferenceValueLeaf::Str("new"))?;
    builder.key("size")?;
    builder.leaf(ReferenceValueLeaf::U64(3))?;
    builder.finish(field)?;
    Ok(builder.into_doc())
}

/// The texts that a document has in a field.
pub fn texts(alloc: Global, document: &TantivyDocument, field: Field) -> Result<Vec<String>> {
    let mut texts = Vec::new(alloc);
    for value in document.get_all(field) {
        if let Some(text) = value.as_str() {
            texts.push(String::from_str(alloc, text)?)?;
        }
    }
    Ok(texts)
}

/// The document as JSON, by the names of its fields.
pub fn printed(alloc: Global, schema: &Schema, document: &TantivyDocument) -> Result<String> {
    Ok(document.to_json(alloc, schema)?)
}
