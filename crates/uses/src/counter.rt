//! A counter of documents by their facets.

use anyhow::Result;
use std::alloc::Global;
use std::fmt::Write;
use tantivy_schema::schema::document::{Document, ParseBuffers};
use tantivy_schema::schema::{
    DocumentFacet, Facet, Field, Schema, TantivyDocument, Value, count_child_documents,
};

// The facets of a field of the documents of lines, each with its document's number.
fn facets_of(
    alloc: Global,
    schema: &Schema,
    field: Field,
    lines: &[&str],
) -> Result<Vec<(Facet, u64)>> {
    let mut document = TantivyDocument::new(alloc);
    let mut buffers = ParseBuffers::new(alloc);
    let mut facets = Vec::new(alloc);
    for (number, line) in lines.iter().enumerate() {
        document.parse_json_into(schema, line, &mut buffers)?;
        for value in document.get_all(field) {
            if let Some(encoded) = value.as_facet() {
                let bytes = Vec::from_slice(alloc, encoded.as_bytes())?;
                facets.push((Facet::from_encoded(bytes)?, number as u64))?;
            }
        }
    }
    Ok(facets)
}

/// How many documents of lines have a facet at or below each child of a facet, a child a line: `/shop/shoes: 2`.
pub fn counted(
    alloc: Global,
    schema: &Schema,
    field: Field,
    lines: &[&str],
    ancestor: &str,
) -> Result<String> {
    let facets = facets_of(alloc, schema, field, lines)?;
    let mut pairs = Vec::new(alloc);
    for (facet, document) in &facets {
        let facet = facet.encoded_str().as_bytes();
        pairs.push(DocumentFacet {
            facet,
            document: *document,
        })?;
    }
    let ancestor = Facet::from_text(alloc, ancestor)?;
    let mut counts = String::new(alloc);
    for count in &count_child_documents(alloc, ancestor.encoded_str().as_bytes(), &pairs)? {
        writeln!(counts, "{count}")?;
    }
    Ok(counts)
}
