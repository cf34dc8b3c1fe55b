//! Terms of the values of documents, and of texts of queries.

use anyhow::{Result, anyhow};
use case_words as words;
use case_words::schemas::schema;
use std::alloc::Global;
use std::fmt::Write;
use tv_doc::document::CompactDoc;
use tv_indexing::{
    IndexedField, TermList, TextTermsError, range_of_text, ranges_of_text, term_values,
    terms_of_text, text_of_term,
};
use tv_schema::Schema;
use tv_term::TermRange;

/// What a call about terms returns.
pub fn answer(alloc: Global, call: &[&str]) -> Result<String> {
    let (name, call) = words::first(call)?;
    let (description, call) = words::first(call)?;
    let schema = schema(alloc, description)?;
    let answer = answer_with(alloc, &schema, name, call);
    drop(schema);
    answer
}

// What the call of this name returns with a schema.
fn answer_with(alloc: Global, schema: &Schema, name: &str, call: &[&str]) -> Result<String> {
    match name {
        "document" => of_document(alloc, schema, call),
        "sorted" => sorted(alloc, schema, call),
        "text" => of_texts(alloc, schema, call),
        "printed" => printed(alloc, schema, call),
        "bytes" => printed_bytes(alloc, call),
        "range" => of_range(alloc, schema, call),
        "ranges" => of_ranges(alloc, schema, call),
        "below" => of_below(alloc, schema, call),
        _ => Err(anyhow!("an unknown call about terms")),
    }
}

// A path and a text.
fn path_and_text(alloc: Global, call: &[&str]) -> Result<(String, String)> {
    let (path, text) = words::two(call)?;
    let path = words::text(alloc, path)?;
    Ok((path, words::text(alloc, text)?))
}

// The terms of the values of a JSON object's document, or why there are none.
fn of_document(alloc: Global, schema: &Schema, call: &[&str]) -> Result<String> {
    let document = CompactDoc::parse_json(alloc, schema, words::one(call)?)?;
    let mut terms = TermList::new(alloc);
    match term_values(alloc, schema, &document, &mut terms) {
        Ok(()) => shown(alloc, &terms),
        Err(error) => words::error(alloc, error),
    }
}

// The terms of the values of a JSON object's document in order, each once.
fn sorted(alloc: Global, schema: &Schema, call: &[&str]) -> Result<String> {
    let document = CompactDoc::parse_json(alloc, schema, words::one(call)?)?;
    let mut terms = TermList::new(alloc);
    term_values(alloc, schema, &document, &mut terms)?;
    terms.sort_dedup();
    let mut digits = Vec::new(alloc);
    for index in 0..terms.len() {
        if let Some(term) = terms.term(index)? {
            digits.push(hex::encode(alloc, term.serialized_term())?)?;
        }
    }
    words::joined(alloc, digits.as_slice())
}

// Where the range of a text begins and ends, or why there is none.
fn of_range(alloc: Global, schema: &Schema, call: &[&str]) -> Result<String> {
    let (path, text) = path_and_text(alloc, call)?;
    match range_of_text(alloc, schema, path.as_str(), text.as_str()) {
        Ok(range) => words::ends(alloc, range.start(), range.end()),
        Err(error) => words::error(alloc, error),
    }
}

// Where the ranges of a text begin and end, or why there are none.
fn of_ranges(alloc: Global, schema: &Schema, call: &[&str]) -> Result<String> {
    let (path, text) = path_and_text(alloc, call)?;
    let ranges = match ranges_of_text(alloc, schema, path.as_str(), text.as_str()) {
        Ok(ranges) => ranges,
        Err(error) => return words::error(alloc, error),
    };
    let mut ends = Vec::new(alloc);
    for range in &ranges {
        ends.push(words::ends(alloc, range.start(), range.end())?)?;
    }
    words::joined(alloc, ends.as_slice())
}

// Where the range of a text and of what is below it begins and ends, or why there is none.
fn of_below(alloc: Global, schema: &Schema, call: &[&str]) -> Result<String> {
    let (path, text) = path_and_text(alloc, call)?;
    match range_below(alloc, schema, path.as_str(), text.as_str()) {
        Ok(range) => words::ends(alloc, range.start(), range.end()),
        Err(error) => words::error(alloc, error),
    }
}

// The range of a text and of what is below it.
fn range_below(
    alloc: Global,
    schema: &Schema,
    path: &str,
    text: &str,
) -> Result<TermRange, TextTermsError> {
    let field = IndexedField::of(alloc, schema, path)?;
    field.below(alloc, text)
}

// Why texts are refused, and the terms of the other ones in one list.
fn of_texts(alloc: Global, schema: &Schema, texts: &[&str]) -> Result<String> {
    let mut terms = TermList::new(alloc);
    let mut answer = String::new(alloc);
    for pair in texts.chunks(2) {
        let (path, text) = path_and_text(alloc, pair)?;
        if let Err(error) = terms_of_text(alloc, schema, path.as_str(), text.as_str(), &mut terms) {
            write!(answer, "error {error:?}, ")?;
        }
    }
    answer.push_str(shown(alloc, &terms)?.as_str())?;
    Ok(answer)
}

// The text that bytes have as a term, or that they have none.
fn printed_bytes(alloc: Global, call: &[&str]) -> Result<String> {
    let bytes = words::bytes(alloc, words::one(call)?)?;
    match text_of_term(alloc, bytes.as_slice())? {
        Some(text) => words::quoted(alloc, text.as_str()),
        None => words::none(alloc),
    }
}

// The text of each term of a text.
fn printed(alloc: Global, schema: &Schema, call: &[&str]) -> Result<String> {
    let (path, text) = path_and_text(alloc, call)?;
    let mut terms = TermList::new(alloc);
    terms_of_text(alloc, schema, path.as_str(), text.as_str(), &mut terms)?;
    let mut texts = Vec::new(alloc);
    for term in terms.iter() {
        if let Some(printed) = text_of_term(alloc, term)? {
            texts.push(words::quoted(alloc, printed.as_str())?)?;
        }
    }
    words::joined(alloc, texts.as_slice())
}

// The bytes of each term of a list.
fn shown(alloc: Global, terms: &TermList) -> Result<String> {
    let mut digits = Vec::new(alloc);
    for term in terms.iter() {
        digits.push(hex::encode(alloc, term)?)?;
    }
    words::joined(alloc, digits.as_slice())
}
