//! Arrays in each other, ten thousand of them: kept in a document, borrowed from it and written.

use std::alloc::{AllocError, Global};
use std::test::Fail;
use tv_base::{SliceSource, VecSink};
use tv_doc::document::CompactDoc;
use tv_field::SchemaError;
use tv_options::STORED;
use tv_schema::{Schema, SchemaBuilder};
use tv_store::{
    BinaryDocumentDeserializer, BinaryDocumentSerializer, DocStoreVersion, DocumentDeserialize,
    StoreReader,
};
use tv_value::field::Field;
use tv_value::owned_value::OwnedValue;
use tv_value::value::Value;

fn field(number: u32) -> Field {
    Field::from_field_id(number)
}

// The schema of one field, which is stored.
fn schema(alloc: Global) -> Result<Schema, SchemaError> {
    let mut builder = SchemaBuilder::new(alloc);
    let _field = builder.add_json_field("j", STORED)?;
    Ok(builder.build()?)
}

// What is written of a document with that schema.
fn written(alloc: Global, document: &CompactDoc) -> Result<Vec<u8>, Fail> {
    let schema = schema(alloc)?;
    let mut sink = VecSink::new(alloc);
    if document.fits(&schema) {
        BinaryDocumentSerializer::new(&mut sink, &schema).serialize_doc(document)?;
    }
    Ok(sink.into_vec())
}

// How many arrays stand in each other.
const DEPTH: u32 = 10000;

fn deep(alloc: Global) -> Result<OwnedValue, AllocError> {
    let mut value = OwnedValue::Null;
    for _ in 0..DEPTH {
        value = OwnedValue::Array(vec![in alloc; value]?);
    }
    Ok(value)
}

// The bytes of the stored document: one pair, of field 0, whose value is that many arrays of one and then null.
fn deep_bytes(alloc: Global) -> Result<Vec<u8>, AllocError> {
    let mut bytes = b"\x81\0\0\0\0".to_vec(alloc)?;
    for _ in 0..DEPTH {
        bytes.extend_from_slice(b"\x0c\x81")?;
    }
    bytes.push(0x0b)?;
    Ok(bytes)
}

// Whether that many arrays are lent, and then null.
fn is_deep(document: &CompactDoc) -> bool {
    let Some(mut value) = document.get_first(field(0)) else {
        return false;
    };
    for _ in 0..DEPTH {
        let Some(inner) = value.as_array().and_then(|mut items| items.next()) else {
            return false;
        };
        value = inner;
    }
    value.as_value().is_null()
}

// A document whose one value is those arrays.
fn deep_document(alloc: Global) -> Result<CompactDoc, Fail> {
    let mut document = CompactDoc::new(alloc);
    document.add_field_value(field(0), &&deep(alloc)?)?;
    Ok(document)
}

#[test]
fn deep_values_are_kept(rt: HostRuntime) -> Result<(), Fail> {
    let document = deep_document(rt.alloc())?;
    assert!(rt; is_deep(&document));
    let bytes = deep_bytes(rt.alloc())?;
    assert!(rt; written(rt.alloc(), &document)?.as_slice() == bytes.as_slice());
    Ok(())
}

#[test]
fn deep_values_are_read_pair_by_pair(rt: HostRuntime) -> Result<(), Fail> {
    let bytes = deep_bytes(rt.alloc())?;
    // a limit of the reader is one of owned values alone
    let version = DocStoreVersion::V2;
    let mut reader = StoreReader::with_depth(SliceSource::new(&bytes), version, 1);
    let mut pairs = BinaryDocumentDeserializer::from_reader(&mut reader)?;
    let document = CompactDoc::deserialize(rt.alloc(), &mut pairs)?;
    drop(pairs);
    assert!(rt; is_deep(&document) && document.len() == 1);
    assert!(rt; reader.bytes_read() == bytes.len() as u64);
    Ok(())
}
