//! Calls on documents whose values may nest deep. `None` stands for a refusal of what nests in too many lists.

use crate::growth::sample::Sample;
use anyhow::{Context, Result, anyhow};
use std::alloc::{AllocError, Global};
use tantivy_schema::common::{SliceSource, VecSink};
use tantivy_schema::schema::document::{
    BinaryValueSerializer, CompactDoc, CompactDocValue, CopyError, DeserializeError, Document,
    SerializeError, StoreReader, TreeBuilder, is_same, push_json, to_json_value,
};
use tantivy_schema::schema::{Field, OwnedValue, TermList, TermVisitor, term_values, visit_terms};
use tantivy_schema::store::{
    BlockReader, DirectDecoder, DocStoreVersion, LimitedReadError, ReadLimit, ReadLimits, Step,
    read_document_into, read_document_within, read_fields, skip_document,
};

// The depth of a reading within limits.
const DEPTH: u32 = 128;

// The value of the document's first pair.
fn first_value(sample: &Sample) -> Result<CompactDocValue<'_>> {
    match sample.document.field_values().next() {
        Some((_, value)) => Ok(value),
        None => Err(anyhow!("a pair")),
    }
}

// The field of the document's first pair.
fn first_field(sample: &Sample) -> Result<Field> {
    match sample.document.field_values().next() {
        Some((field, _)) => Ok(field),
        None => Err(anyhow!("a pair")),
    }
}

// The document's values, added to another one.
fn added(alloc: Global, sample: &Sample) -> Result<CompactDoc> {
    let mut document = CompactDoc::new(alloc);
    for (field, value) in sample.document.field_values() {
        document.add_field_value(field, &value)?;
    }
    Ok(document)
}

/// Adds the document's values to another one. Gives the length of its heap.
pub fn add(alloc: Global, sample: &Sample) -> Result<usize> {
    Ok(added(alloc, sample)?.node_data().len())
}

/// The same by a builder.
pub fn build(alloc: Global, sample: &Sample) -> Result<usize> {
    let mut builder = TreeBuilder::new(CompactDoc::new(alloc));
    for (field, value) in sample.document.field_values() {
        builder.tree(&value)?;
        builder.finish(field)?;
    }
    Ok(builder.into_doc().node_data().len())
}

/// Compares the document's values with those of another one. Gives how many are equal.
pub fn equal(alloc: Global, sample: &Sample) -> Result<usize> {
    let other = added(alloc, sample)?;
    let mut others = other.field_values();
    let mut count: usize = 0;
    for (_, value) in sample.document.field_values() {
        if others.next().is_some_and(|(_, twin)| value == twin) {
            count = count.saturating_add(1);
        }
    }
    Ok(count)
}

/// Reads the document part by part. Gives the length of its heap.
pub fn step(alloc: Global, sample: &Sample) -> Result<usize> {
    let mut source = SliceSource::new(sample.stored.as_slice());
    let mut decoder = DirectDecoder::new(alloc, DocStoreVersion::V2);
    for _ in 0..u64::MAX {
        if decoder.step(&mut source)? == Step::Done {
            break;
        }
    }
    Ok(decoder.into_doc().node_data().len())
}

/// Reads the document into another one. Gives the length of its heap.
pub fn read_into(alloc: Global, sample: &Sample) -> Result<usize> {
    let mut source = SliceSource::new(sample.stored.as_slice());
    let mut document = CompactDoc::new(alloc);
    read_document_into(alloc, &mut document, &mut source, DocStoreVersion::V2)?;
    Ok(document.node_data().len())
}

/// Passes over the document. Gives how many bytes it has.
pub fn skip(alloc: Global, sample: &Sample) -> Result<usize> {
    let mut source = SliceSource::new(sample.stored.as_slice());
    skip_document(alloc, &mut source, DocStoreVersion::V2)?;
    let left = source.rest().len();
    sample
        .stored
        .len()
        .checked_sub(left)
        .context("the bytes that were taken")
}

/// Reads the values of the first field that has one. Gives the length of the heap.
pub fn read_chosen(alloc: Global, sample: &Sample) -> Result<usize> {
    let field = first_field(sample)?;
    let mut source = SliceSource::new(sample.stored.as_slice());
    let document = read_fields(alloc, &mut source, DocStoreVersion::V2, &[field])?;
    Ok(document.node_data().len())
}

/// Reads the document as one of a block, within limits that it doesn't pass. Gives the length of its heap.
pub fn block_within(alloc: Global, sample: &Sample) -> Result<usize> {
    let mut source = SliceSource::new(sample.stored.as_slice());
    let mut reader = BlockReader::new(alloc, DocStoreVersion::V2);
    let limits = ReadLimits {
        depth: Some(u32::MAX),
        ..ReadLimits::default()
    };
    match reader.advance_within(&mut source, limits) {
        Ok(_) => Ok(reader.document().node_data().len()),
        Err(error) => Err(anyhow!("{error}")),
    }
}

/// Lists the terms of the document's values. Gives how many there are.
pub fn list_terms(alloc: Global, sample: &Sample) -> Result<usize> {
    let mut terms = TermList::new(alloc);
    match term_values(alloc, &sample.schema, &sample.document, &mut terms) {
        Ok(()) => Ok(terms.len()),
        Err(error) => Err(anyhow!("{error}")),
    }
}

// How many terms were taken.
#[derive(Drop)]
struct TermCount {
    terms: usize,
}

impl TermVisitor for TermCount {
    // Nothing is said of the terms.
    ghost has_taken = { λ start now terms. Unit {0} };

    fn visit(&mut self, _term: &[u8]) -> Result<(), AllocError> {
        self.terms = self.terms.saturating_add(1);
        Ok(())
    }
}

/// Visits the terms of the document's values. Gives how many there are.
pub fn visit_each_term(alloc: Global, sample: &Sample) -> Result<usize> {
    let mut count = TermCount { terms: 0 };
    match visit_terms(alloc, &sample.schema, None, &sample.document, &mut count) {
        Ok(()) => Ok(count.terms),
        Err(error) => Err(anyhow!("{error}")),
    }
}

/// Reads the document within a limit of depth. Gives the length of its heap.
pub fn read_within(alloc: Global, sample: &Sample) -> Result<Option<usize>> {
    let mut source = SliceSource::new(sample.stored.as_slice());
    let limits = ReadLimits {
        depth: Some(DEPTH),
        ..ReadLimits::default()
    };
    match read_document_within(alloc, &mut source, DocStoreVersion::V2, limits) {
        Ok(document) => Ok(Some(document.node_data().len())),
        Err(LimitedReadError::Limit(ReadLimit::Depth)) => Ok(None),
        Err(error) => Err(anyhow!("{error}")),
    }
}

// What a copy gave.
fn unless_too_deep<T: Drop>(copied: Result<T, CopyError>) -> Result<Option<T>> {
    match copied {
        Ok(copy) => Ok(Some(copy)),
        Err(CopyError::TooDeep) => Ok(None),
        Err(CopyError::Memory) => Err(anyhow!("memory was refused")),
    }
}

/// Copies the document's values under the names of their fields. Gives how many fields have one.
pub fn name(alloc: Global, sample: &Sample) -> Result<Option<usize>> {
    let named = unless_too_deep(sample.document.to_named_doc(alloc, &sample.schema))?;
    Ok(named.map(|named| named.0.len()))
}

// The length of a value's JSON.
fn printed_len(alloc: Global, value: OwnedValue) -> Result<usize> {
    let mut text = String::new(alloc);
    let pushed = push_json(alloc, &mut text, &value);
    drop(value);
    pushed?;
    Ok(text.len())
}

/// Copies the first value. Gives the length of the copy's JSON.
pub fn copy(alloc: Global, sample: &Sample) -> Result<Option<usize>> {
    let value = first_value(sample)?;
    match unless_too_deep(OwnedValue::from_value(alloc, &value))? {
        Some(copy) => Ok(Some(printed_len(alloc, copy)?)),
        None => Ok(None),
    }
}

/// Makes a JSON value of the first value. Gives the length of its text.
pub fn json_value(alloc: Global, sample: &Sample) -> Result<Option<usize>> {
    let value = first_value(sample)?;
    match unless_too_deep(to_json_value(alloc, value))? {
        Some(json) => {
            let text = json.to_string(alloc);
            drop(json);
            Ok(Some(text?.len()))
        }
        None => Ok(None),
    }
}

/// Compares the first value with itself, as values of any kind are compared. Gives how many are the same.
pub fn same(sample: &Sample) -> Result<Option<usize>> {
    let value = first_value(sample)?;
    Ok(is_same(&value, &value).ok().map(|same| usize::from(same)))
}

/// Reads the first value into one that owns what it holds. Gives the length of its JSON.
pub fn read_owned(alloc: Global, sample: &Sample) -> Result<Option<usize>> {
    // after the number of the pairs and the field
    let bytes = sample.stored.as_slice().get(5..).context("a pair")?;
    let mut reader = StoreReader::new(SliceSource::new(bytes), DocStoreVersion::V2);
    match reader.read::<OwnedValue>(alloc) {
        Ok(value) => Ok(Some(printed_len(alloc, value)?)),
        Err(DeserializeError::TooDeep) => Ok(None),
        Err(error) => Err(anyhow!("{error}")),
    }
}

/// Writes the first value as one of any kind. Gives how many bytes it has.
pub fn write_value(alloc: Global, sample: &Sample) -> Result<Option<usize>> {
    let value = first_value(sample)?;
    let mut sink = VecSink::new(alloc);
    match BinaryValueSerializer::new(&mut sink).serialize_value(&value) {
        Ok(()) => Ok(Some(sink.as_slice().len())),
        Err(SerializeError::TooDeep) => Ok(None),
        Err(error) => Err(anyhow!("{error}")),
    }
}
