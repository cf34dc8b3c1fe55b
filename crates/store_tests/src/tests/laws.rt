//! Laws of calls, in use.

use std::alloc::Global;
use std::io;
use std::io::Read;
use std::test::Fail;
use tantivy_schema::common::ReadSource;
use tantivy_schema::laws::{
    additions_are_stored_and_read_back, built_values_are_as_added, migrations_are_read_back,
    stored_pairs_are_read_back, written_documents_are_shortest,
};
use tantivy_schema::schema::{
    CompactDoc, Field, OwnedValue, STORED, Schema, SchemaError, TEXT, Value,
};
use tantivy_schema::store::{DocStoreVersion, WriteVersion};

// Gives one byte at a time.
#[derive(Drop)]
struct SingleBytes<'a> {
    rest: &'a [u8],
}

impl<'a> Read for SingleBytes<'a> {
    fn read(&mut self, buf: &mut [u8]) -> io::Result<usize> {
        let count = self.rest.len().min(buf.len()).min(1);
        buf[..count].copy_from_slice(&self.rest[..count]);
        self.rest = &self.rest[count..];
        Ok(count)
    }
}

// The numbers of the fields.
const NAME: u32 = 0;

const AGE: u32 = 1;

// A schema of a stored name and a stored age.
fn schema(alloc: Global) -> Result<Schema, SchemaError> {
    let mut builder = Schema::builder(alloc);
    builder.add_text_field("name", TEXT | STORED)?;
    builder.add_u64_field("age", STORED)?;
    Ok(builder.build()?)
}

// What is stored of a name and an age.
const PAIRS: &[u8] = b"\x82\0\0\0\0\0\x8aChillFish8\x01\0\0\0\x01\x14\0\0\0\0\0\0\0";

// Whether a document has that name and that age, and nothing else.
fn is_read_back(document: &CompactDoc) -> bool {
    let mut pairs = document.field_values();
    let Some((field, name)) = pairs.next() else {
        return false;
    };
    let Some((other, age)) = pairs.next() else {
        return false;
    };
    field.field_id() == NAME
        && name.as_str() == Some("ChillFish8")
        && other.field_id() == AGE
        && age.as_u64() == Some(20)
        && pairs.next().is_none()
}

// A document of both.
fn document(alloc: Global) -> Result<CompactDoc, Fail> {
    let mut document = CompactDoc::new(alloc);
    document.add_text(Field::from_field_id(NAME), "ChillFish8")?;
    document.add_u64(Field::from_field_id(AGE), 20)?;
    Ok(document)
}

// Whether a document that fits the schema is stored as these pairs, and read back.
fn is_stored(alloc: Global, schema: &Schema, document: &CompactDoc) -> Result<bool, Fail> {
    if !document.fits(schema) {
        return Ok(false);
    }
    let bytes = written_documents_are_shortest(alloc, schema, document)?;
    let rest = bytes.as_slice();
    let mut source = ReadSource::new(SingleBytes { rest });
    let read = stored_pairs_are_read_back(alloc, &mut source, schema, document)?;
    Ok(bytes.as_slice() == PAIRS && is_read_back(&read))
}

#[test]
fn laws_of_calls_in_memory(rt: HostRuntime) -> Result<(), Fail> {
    let schema = schema(rt.alloc())?;
    let document = document(rt.alloc())?;
    assert!(rt; is_stored(rt.alloc(), &schema, &document)?);
    Ok(())
}

#[test]
fn additions_in_memory(rt: HostRuntime) -> Result<(), Fail> {
    let alloc = rt.alloc();
    let mut builder = Schema::builder(alloc);
    let name = builder.add_text_field("name", TEXT | STORED)?;
    let age = builder.add_u64_field("age", STORED)?;
    let note = builder.add_text_field("note", TEXT)?;
    let schema = builder.build()?;
    let mut values = Vec::new(alloc);
    values.push((
        name,
        OwnedValue::Str(String::from_str(alloc, "ChillFish8")?),
    ))?;
    values.push((
        note,
        OwnedValue::Str(String::from_str(alloc, "not stored")?),
    ))?;
    values.push((age, OwnedValue::U64(20)))?;
    let trip = additions_are_stored_and_read_back(alloc, &schema, values.as_slice(), b"rest")?;
    assert!(rt; trip.added.len() == 3 && trip.written.as_slice() == PAIRS);
    assert!(rt; trip.left.as_slice() == b"rest".as_slice() && is_read_back(&trip.back));
    Ok(())
}

#[test]
fn built_values_in_memory(rt: HostRuntime) -> Result<(), Fail> {
    let alloc = rt.alloc();
    let mut named = CompactDoc::new(alloc);
    named.add_text(Field::from_field_id(NAME), "ChillFish8")?;
    let age = OwnedValue::U64(20);
    let made = built_values_are_as_added(&named, Field::from_field_id(AGE), &&age)?;
    assert!(rt; is_read_back(&made.0) && is_read_back(&made.1));
    assert!(rt; made.0.node_data() == made.1.node_data() && named.len() == 1);
    Ok(())
}

#[test]
fn migrations_in_memory(rt: HostRuntime) -> Result<(), Fail> {
    let alloc = rt.alloc();
    let (old, new) = (DocStoreVersion::V1, DocStoreVersion::V3);
    let trip = migrations_are_read_back(alloc, b"\x80", old, WriteVersion::V3, new)?;
    assert!(rt; trip.written.as_slice() == b"\x80".as_slice() && trip.left.is_empty());
    assert!(rt; trip.back.is_empty());
    Ok(())
}
