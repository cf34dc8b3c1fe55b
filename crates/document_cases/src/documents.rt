//! Documents: from JSON, as JSON, by names, and compared.

use crate::{builder, json_values, parts, repeated};
use anyhow::{Context, Result, anyhow, ensure};
use case_words as words;
use case_words::schemas::schema;
use serde_json::Value as JsonValue;
use std::alloc::Global;
use std::fmt::{Display, Write};
use tv_doc::document::CompactDoc;
use tv_doc::document_trait::Document;
use tv_doc::errors::DocParsingError;
use tv_doc::json_object::text_fault;
use tv_doc::laws::named_documents_are_converted_back;
use tv_doc::named::NamedFieldDocument;
use tv_field::ValueParsingError;
use tv_heap::value::CompactDocValue;
use tv_json::compact::push_json;
use tv_schema::Schema;
use tv_value::copy::CopyError;
use tv_value::json_value::to_json_value;
use tv_value::owned_value::OwnedValue;

/// What a call about documents returns.
pub fn answer(alloc: Global, call: &[&str]) -> Result<String> {
    let (name, call) = words::first(call)?;
    match name {
        "parse" => parse(alloc, call),
        "why" => why(alloc, call),
        "strict" => strict(alloc, call),
        "print" => print(alloc, call),
        "named" => named(alloc, call),
        "same" => same(alloc, call),
        "copy" => copy(alloc, call),
        "get" => get(alloc, call),
        "sorted" => sorted(alloc, call),
        "values" => values(alloc, call),
        "repeated" => repeated::added(alloc, call),
        _ => Err(anyhow!("an unknown call about documents")),
    }
}

/// The heap of a document, and the field, the type's code and the address of each of its pairs.
pub fn shown(alloc: Global, document: &CompactDoc) -> Result<String> {
    if document.is_empty() {
        return Ok(String::from_str(alloc, "-")?);
    }
    let text = match document.node_data() {
        [] => String::from_str(alloc, "-")?,
        heap => hex::encode(alloc, heap)?,
    };
    with_pairs(text, document)
}

/// The field, the type's code and the address of each of the document's pairs, after a text.
pub fn with_pairs(mut text: String, document: &CompactDoc) -> Result<String> {
    let mut place = 0;
    for (field, _) in document.field_values() {
        let number = field.field_id();
        let Some((code, address)) = document.addr_of(place) else {
            return Err(anyhow!("a pair"));
        };
        write!(text, " {number}:{code}:{address}")?;
        place = usize::saturating_add(place, 1);
    }
    ensure!(document.addr_of(place).is_none(), "a pair behind the last");
    Ok(text)
}

// The document of a JSON object, or of calls.
fn document_of(alloc: Global, schema: &Schema, words: &[&str]) -> Result<CompactDoc> {
    match words {
        [json] if json.starts_with('{') => Ok(CompactDoc::parse_json(alloc, schema, json)?),
        calls => builder::document(alloc, calls),
    }
}

// The JSON of the document of a JSON object, or of calls.
fn print(alloc: Global, call: &[&str]) -> Result<String> {
    let (description, call) = words::first(call)?;
    let schema = schema(alloc, description)?;
    Ok(document_of(alloc, &schema, call)?.to_json(alloc, &schema)?)
}

// The document of a JSON object, or its refusal.
fn parse(alloc: Global, call: &[&str]) -> Result<String> {
    let (description, json) = words::two(call)?;
    let schema = schema(alloc, description)?;
    let outcome = CompactDoc::parse_json(alloc, &schema, json);
    drop(schema);
    match outcome {
        Ok(document) => parsed(alloc, document),
        Err(error) => refused(alloc, error),
    }
}

// The message about a text that is no JSON object, or about a value that is refused.
fn why(alloc: Global, call: &[&str]) -> Result<String> {
    let (description, json) = words::two(call)?;
    let schema = schema(alloc, description)?;
    let outcome = CompactDoc::parse_json(alloc, &schema, json);
    drop(schema);
    match outcome {
        Ok(document) => parsed(alloc, document),
        Err(error) => printed(alloc, json, error),
    }
}

// The document of a JSON object, each of whose keys is to name a field, or the message about its refusal.
fn strict(alloc: Global, call: &[&str]) -> Result<String> {
    let (description, json) = words::two(call)?;
    let schema = schema(alloc, description)?;
    let outcome = CompactDoc::parse_json_strict(alloc, &schema, json);
    drop(schema);
    match outcome {
        Ok(document) => parsed(alloc, document),
        Err(error) => printed(alloc, json, error),
    }
}

// The text of the error about a text of JSON, and where and why that is no object, if it is none. The error is dropped.
fn printed<E: Display + Drop>(alloc: Global, json: &str, error: E) -> Result<String> {
    let text = match text_fault(alloc, json) {
        Ok(Some(fault)) => format!(in alloc; "{error}: {fault}"),
        Ok(None) => format!(in alloc; "{error}"),
        Err(refused) => Err(refused),
    };
    drop(error);
    Ok(text?)
}

// A document. It is dropped.
fn parsed(alloc: Global, document: CompactDoc) -> Result<String> {
    let answer = shown_by_parts(alloc, &document);
    drop(document);
    answer
}

// The document, which has to be the same where its values come part by part.
fn shown_by_parts(alloc: Global, document: &CompactDoc) -> Result<String> {
    let text = shown(alloc, document)?;
    for cut in 0..parts::MOST_BYTES {
        let rebuilt = parts::rebuilt(alloc, document, cut)?;
        ensure!(
            shown(alloc, &rebuilt)? == text,
            "another document comes part by part"
        );
    }
    Ok(text)
}

// Why there is no document of a JSON object. The error is dropped.
fn refused(alloc: Global, error: DocParsingError) -> Result<String> {
    let answer = refusal(alloc, &error);
    drop(error);
    answer
}

// Why there is no document of a JSON object.
fn refusal(alloc: Global, error: &DocParsingError) -> Result<String> {
    match error {
        DocParsingError::InvalidJson(start) => invalid_json(alloc, start.as_str()),
        DocParsingError::ValueError(name, error) => refused_value(alloc, name.as_str(), error),
        other => words::error(alloc, other),
    }
}

// The beginning of a text that is no JSON object.
fn invalid_json(alloc: Global, start: &str) -> Result<String> {
    let start = words::quoted(alloc, start)?;
    Ok(format!(in alloc; "error InvalidJson {start}")?)
}

// The name of a field, and why its value is refused.
fn refused_value(alloc: Global, name: &str, error: &ValueParsingError) -> Result<String> {
    let name = words::quoted(alloc, name)?;
    let reason = json_values::refusal(alloc, error)?;
    Ok(format!(in alloc; "error ValueError {name} {reason}")?)
}

// The values of a document by the names of one schema, and the document that these names make with another.
fn named(alloc: Global, call: &[&str]) -> Result<String> {
    let (from, call) = words::first(call)?;
    let (to, calls) = words::first(call)?;
    let from = schema(alloc, from)?;
    let document = builder::document(alloc, calls)?;
    let names = document.to_named_doc(alloc, &from)?;
    named_shown(alloc, &from, to, &document, &names)
}

// The values by their names, and the document that these make.
fn named_shown(
    alloc: Global,
    from: &Schema,
    to: &str,
    document: &CompactDoc,
    names: &NamedFieldDocument,
) -> Result<String> {
    let made = converted(alloc, from, to, document, names)?;
    Ok(format!(in alloc; "{:?}\t{made}", names.0)?)
}

// The document that the names make with a schema. Where that is the document's own, the names are converted back.
fn converted(
    alloc: Global,
    from: &Schema,
    to: &str,
    document: &CompactDoc,
    names: &NamedFieldDocument,
) -> Result<String> {
    let to = schema(alloc, to)?;
    let made = if *from == to {
        named_documents_are_converted_back(alloc, from, document)?
    } else {
        CompactDoc::convert_named_doc(alloc, &to, names)?
    };
    shown(alloc, &made)
}

// Whether two documents are the same by the JSON of their values. The word `and` stands between their calls.
fn same(alloc: Global, calls: &[&str]) -> Result<String> {
    let place = calls.iter().position(|word| *word == "and");
    let (one, other) = calls.split_at(place.context("two documents")?);
    let one = builder::document(alloc, one)?;
    let other = builder::document(alloc, other.get(1..).context("a document")?)?;
    words::plain(alloc, &one.same_as(&other)?)
}

// A copy of a document. The document has to be the same when its memory is shrunk.
fn copy(alloc: Global, calls: &[&str]) -> Result<String> {
    let mut document = builder::document(alloc, calls)?;
    let copy = shown(alloc, &document.try_clone()?)?;
    document.shrink_to_fit();
    ensure!(shown(alloc, &document)? == copy, "the copy differs");
    Ok(copy)
}

// A value with its type.
fn typed(alloc: Global, value: CompactDocValue<'_>) -> Result<String> {
    words::debug(alloc, OwnedValue::from_value(alloc, &value)?)
}

// Appends a value with its type.
fn push_typed(alloc: Global, text: &mut String, value: CompactDocValue<'_>) -> Result<()> {
    let typed = typed(alloc, value)?;
    Ok(write!(text, "\t{typed}")?)
}

// The first value of a field, and all of its values.
fn get(alloc: Global, call: &[&str]) -> Result<String> {
    let (field, calls) = words::first(call)?;
    let field = words::field(field)?;
    let document = builder::document(alloc, calls)?;
    let mut text = match document.get_first(field) {
        Some(value) => typed(alloc, value)?,
        None => words::none(alloc)?,
    };
    for value in document.get_all(field) {
        push_typed(alloc, &mut text, value)?;
    }
    Ok(text)
}

// The values of a document by their fields, which rise.
fn sorted(alloc: Global, calls: &[&str]) -> Result<String> {
    let document = builder::document(alloc, calls)?;
    let groups = document.get_sorted_field_values(alloc)?;
    let mut text = words::plain(alloc, &groups.len())?;
    for (field, values) in groups {
        write!(text, "\tfield {}", field.field_id())?;
        for value in values {
            push_typed(alloc, &mut text, value)?;
        }
    }
    Ok(text)
}

// The field of each pair, and its value with its type and as JSON.
fn values(alloc: Global, calls: &[&str]) -> Result<String> {
    let document = builder::document(alloc, calls)?;
    let mut text = words::plain(alloc, &document.len())?;
    for (field, value) in document.field_values() {
        let number = field.field_id();
        let typed = typed(alloc, value)?;
        let json = tabbed_json(alloc, value)?;
        write!(text, "\t{number} {typed}{json}")?;
    }
    Ok(text)
}

// A tab and the JSON of a value, which is the same by each call.
fn tabbed_json(alloc: Global, value: CompactDocValue<'_>) -> Result<String> {
    let mut text = String::from_str(alloc, "\t")?;
    push_json(alloc, &mut text, value)?;
    let printed = words::json_text(alloc, to_json_value(alloc, value)?)?;
    let is_printed = text.as_str().strip_prefix('\t') == Some(printed.as_str());
    let is_same = words::are_equal(to_json_value(alloc, value), json_of_copy(alloc, value));
    ensure!(is_same && is_printed, "the JSON values of a value differ");
    Ok(text)
}

// The JSON value of a copy of a value.
fn json_of_copy(alloc: Global, value: CompactDocValue<'_>) -> Result<JsonValue, CopyError> {
    let copy = OwnedValue::from_value(alloc, &value)?;
    let json = copy.to_json_value(alloc);
    drop(copy);
    json
}
