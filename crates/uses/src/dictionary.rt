//! A term dictionary of lines of JSON.

use anyhow::Result;
use std::alloc::Global;
use std::fmt::Write;
use tantivy_schema::schema::document::ParseBuffers;
use tantivy_schema::schema::{Schema, TantivyDocument, Term, TermList, range_of_text, term_values};

/// The terms of the documents of lines: in order, and each once.
pub fn dictionary(alloc: Global, schema: &Schema, lines: &[&str]) -> Result<Vec<Term>> {
    let mut document = TantivyDocument::new(alloc);
    let mut buffers = ParseBuffers::new(alloc);
    let mut terms = TermList::new(alloc);
    for line in lines {
        document.parse_json_into(schema, line, &mut buffers)?;
        term_values(alloc, schema, &document, &mut terms)?;
    }
    terms.sort_dedup();
    let mut dictionary = Vec::with_capacity(alloc, terms.len())?;
    for bytes in terms.iter() {
        dictionary.push(Term::wrap(alloc, bytes)?)?;
    }
    Ok(dictionary)
}

/// The terms of a dictionary that are in a range of a query, as `price:[10 TO 20]` writes it, one a line.
pub fn found(
    alloc: Global,
    schema: &Schema,
    dictionary: &[Term],
    path: &str,
    range: &str,
) -> Result<String> {
    let mut lines = String::new(alloc);
    for term in range_of_text(alloc, schema, path, range)?.within(dictionary) {
        writeln!(lines, "{term:?}")?;
    }
    Ok(lines)
}
