//! Documents that are read, by one call and step by step.

use crate::over_each::{Ending, Reading, once, over_each, where_it_fails};
use crate::{calls, steps, stored};
use anyhow::{Result, anyhow};
use case_words as words;
use std::alloc::Global;
use std::io;
use tantivy_schema::common::ByteSource;
use tantivy_schema::schema::document::DeserializeError;
use tantivy_schema::schema::{OwnedValue, Schema, TantivyDocument};
use tantivy_schema::store::{DocStoreVersion, read_document};

/// What is said of a document.
#[derive(Clone, Copy)]
pub enum Form<'a> {
    /// Its pairs of a field and a value.
    Pairs,
    /// Its heap, and the field, the type and the address in it of each value.
    Heap,
    /// The number of its pairs, and the length of its heap.
    Size,
    /// Its JSON, and the bytes that are written of it, by this schema.
    Written(&'a Schema),
}

// Reads a document, by one call or step by step.
#[derive(Drop)]
struct DocumentReading<'a> {
    version: DocStoreVersion,
    by_steps: bool,
    form: Form<'a>,
}

impl Reading for DocumentReading<'_> {
    fn read<S: ByteSource + Drop>(&self, alloc: Global, source: S) -> Result<Ending<S>> {
        let mut source = source;
        let (document, counted) = if self.by_steps {
            steps::document(alloc, &mut source, self.version)
        } else {
            (read_document(alloc, &mut source, self.version), None)
        };
        let answer = shown(alloc, document, self.form)?;
        Ok(Ending {
            answer,
            counted,
            source,
        })
    }
}

/// A document as it is printed, or why there is none.
pub fn shown(
    alloc: Global,
    answer: Result<TantivyDocument, DeserializeError>,
    form: Form<'_>,
) -> Result<String> {
    match answer {
        Ok(document) => in_form(alloc, &document, form),
        Err(error) => words::error(alloc, error),
    }
}

// A document as it is printed.
fn in_form(alloc: Global, document: &TantivyDocument, form: Form<'_>) -> Result<String> {
    match form {
        Form::Pairs => pairs(alloc, document),
        Form::Heap => heap(alloc, document),
        Form::Size => size(alloc, document),
        Form::Written(schema) => stored::written_again(alloc, document, schema),
    }
}

// How many pairs a document has, and the length of its heap.
fn size(alloc: Global, document: &TantivyDocument) -> Result<String> {
    let (pairs, heap) = (document.len(), document.node_data().len());
    Ok(format!(in alloc; "pairs {pairs}, heap {heap}")?)
}

// The pairs of a document, with the types of their values.
fn pairs(alloc: Global, document: &TantivyDocument) -> Result<String> {
    let mut pairs = Vec::new(alloc);
    for (field, value) in document.field_values() {
        pairs.push((field.field_id(), OwnedValue::from_value(alloc, &value)?))?;
    }
    Ok(format!(in alloc; "{pairs:?}")?)
}

// The heap of a document, and the field, the type and the address of each of its values.
fn heap(alloc: Global, document: &TantivyDocument) -> Result<String> {
    let mut places = Vec::new(alloc);
    let mut place: usize = 0;
    for (field, _) in document.field_values() {
        if let Some((code, address)) = document.addr_of(place) {
            places.push((field.field_id(), code, address))?;
        }
        place = place.saturating_add(1);
    }
    let heap = hex::encode(alloc, document.node_data())?;
    Ok(format!(in alloc; "heap {heap}, values {places:?}")?)
}

/// What reading the bytes as a document gives, by one call and by steps.
pub fn document(
    alloc: Global,
    version: DocStoreVersion,
    form: Form<'_>,
    bytes: &[u8],
) -> Result<String> {
    let mut answers = Vec::new(alloc);
    for by_steps in [false, true] {
        let reading = DocumentReading {
            version,
            by_steps,
            form,
        };
        answers.push(over_each(alloc, bytes, &reading)?)?;
    }
    once(alloc, answers.as_slice())
}

// What reading each strict prefix of the bytes gives.
fn prefixes(alloc: Global, version: DocStoreVersion, bytes: &[u8]) -> Result<String> {
    let mut answers = Vec::new(alloc);
    for length in 0..bytes.len() {
        answers.push(document(alloc, version, Form::Pairs, &bytes[..length])?)?;
    }
    once(alloc, answers.as_slice())
}

// What reading a document gives where a read fails.
fn failing(alloc: Global, call: &[&str]) -> Result<String> {
    let (name, call) = words::first(call)?;
    let kind = kind(name)?;
    let (version, bytes) = version_and_bytes(alloc, call)?;
    let mut answers = Vec::new(alloc);
    for by_steps in [false, true] {
        let reading = DocumentReading {
            version,
            by_steps,
            form: Form::Pairs,
        };
        answers.push(where_it_fails(alloc, kind, &bytes, &reading)?)?;
    }
    once(alloc, answers.as_slice())
}

/// The version of the store with this number.
pub fn version(number: &str) -> Result<DocStoreVersion> {
    Ok(DocStoreVersion::from_u32(words::number(number)?)?)
}

/// The kind of error of a source, by its name.
pub fn kind(name: &str) -> Result<io::ErrorKind> {
    match name {
        "TimedOut" => Ok(io::ErrorKind::TimedOut),
        "ConnectionReset" => Ok(io::ErrorKind::ConnectionReset),
        "PermissionDenied" => Ok(io::ErrorKind::PermissionDenied),
        "Interrupted" => Ok(io::ErrorKind::Interrupted),
        "UnexpectedEof" => Ok(io::ErrorKind::UnexpectedEof),
        "OutOfMemory" => Ok(io::ErrorKind::OutOfMemory),
        "Other" => Ok(io::ErrorKind::Other),
        _ => Err(anyhow!("an unknown kind")),
    }
}

/// The bytes of a word: hexadecimal digits, where `unit*times` repeats its digits and `+` joins two parts.
pub fn bytes(alloc: Global, word: &str) -> Result<Vec<u8>> {
    let mut digits = String::new(alloc);
    for part in word.split('+') {
        match part.split_once('*') {
            Some((unit, times)) => {
                let repeated = unit.repeat(alloc, words::number(times)?)?;
                digits.push_str(repeated.as_str())?;
            }
            None => digits.push_str(part)?,
        }
    }
    Ok(hex::decode(alloc, digits.as_str())?)
}

/// The version and the bytes of two words.
pub fn version_and_bytes(alloc: Global, call: &[&str]) -> Result<(DocStoreVersion, Vec<u8>)> {
    let (number, word) = words::two(call)?;
    let version = version(number)?;
    Ok((version, bytes(alloc, word)?))
}

// The version with a number, or the refusal.
fn version_shown(alloc: Global, call: &[&str]) -> Result<String> {
    let number = words::number(words::one(call)?)?;
    words::shown(alloc, DocStoreVersion::from_u32(number))
}

// The number of a version.
fn version_number(alloc: Global, call: &[&str]) -> Result<String> {
    words::plain(alloc, &version(words::one(call)?)?.to_u32())
}

/// What a call that reads documents returns. But for a version and its number, the last word has the bytes.
pub fn answer(alloc: Global, call: &[&str]) -> Result<String> {
    let (name, call) = words::first(call)?;
    match name {
        "version" => version_shown(alloc, call),
        "number" => version_number(alloc, call),
        "failing" => failing(alloc, call),
        _ => read(alloc, name, call),
    }
}

// What reading the bytes as a document gives, by the call of this name.
fn read(alloc: Global, name: &str, call: &[&str]) -> Result<String> {
    let (version, bytes) = version_and_bytes(alloc, call)?;
    match name {
        "document" => document(alloc, version, Form::Pairs, &bytes),
        "heap" => document(alloc, version, Form::Heap, &bytes),
        "size" => document(alloc, version, Form::Size, &bytes),
        "prefixes" => prefixes(alloc, version, &bytes),
        _ => calls::answer(alloc, name, version, &bytes),
    }
}
