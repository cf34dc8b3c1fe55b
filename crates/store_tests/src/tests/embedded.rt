//! A store of your own: that a document gets through, and what a full store returns.

use embedding::{BoundedSink, PacketSource, fetch_document, store_document};
use std::alloc::Global;
use std::io;
use std::test::Fail;
use tantivy_schema::schema::document::SerializeError;
use tantivy_schema::schema::{Field, STORED, Schema, SchemaError, TEXT, TantivyDocument, Value};

// The text `ChillFish8` in field 0.
const ONE_PAIR: &[u8] = b"\x81\x00\x00\x00\x00\x00\x8aChillFish8";

// The number of the field.
const NAME: u32 = 0;

// A schema of a stored name.
fn schema(alloc: Global) -> Result<Schema, SchemaError> {
    let mut builder = Schema::builder(alloc);
    builder.add_text_field("name", TEXT | STORED)?;
    Ok(builder.build()?)
}

// A document of a name.
fn document(alloc: Global) -> Result<TantivyDocument, Fail> {
    let mut document = TantivyDocument::new(alloc);
    document.add_text(Field::from_field_id(NAME), "ChillFish8")?;
    Ok(document)
}

// Whether a source has just the pair of that name.
fn is_fetched(alloc: Global, bytes: &[u8]) -> bool {
    let mut source = PacketSource::new(bytes, 3);
    let Ok(document) = fetch_document(alloc, &mut source) else {
        return false;
    };
    let mut pairs = document.field_values();
    let Some((field, name)) = pairs.next() else {
        return false;
    };
    source.rest().is_empty()
        && field.field_id() == NAME
        && name.as_str() == Some("ChillFish8")
        && pairs.next().is_none()
}

// Whether a document is stored once, and there is no room for it after that.
fn is_stored_once(sink: &mut BoundedSink, schema: &Schema, document: &TantivyDocument) -> bool {
    document.fits(schema)
        && store_document(sink, schema, document) == Ok(())
        && sink.as_slice() == ONE_PAIR
        && store_document(sink, schema, document)
            == Err(SerializeError::Io(io::ErrorKind::StorageFull))
        && sink.as_slice() == ONE_PAIR
}

#[test]
fn a_document_goes_through_the_store(rt: HostRuntime) -> Result<(), Fail> {
    let alloc = rt.alloc();
    let schema = schema(alloc)?;
    let document = document(alloc)?;
    let mut sink = BoundedSink::new(alloc, ONE_PAIR.len());
    assert!(rt; is_stored_once(&mut sink, &schema, &document));
    assert!(rt; is_fetched(alloc, sink.as_slice()));
    Ok(())
}
