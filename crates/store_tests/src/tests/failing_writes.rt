//! Documents and values that are written where one write fails, at each write in turn.

use std::alloc::{AllocError, Global};
use std::io;
use std::test::Fail;
use tantivy_schema::common::{ByteSink, FaultSink, VecSink};
use tantivy_schema::schema::document::{
    BinaryArraySerializer, BinaryDocumentSerializer, BinaryObjectSerializer, BinaryValueSerializer,
    SerializeError,
};
use tantivy_schema::schema::{OwnedValue, STORED, Schema, TEXT, TantivyDocument};

// What is written, to any sink.
trait Writing {
    fn write<K: ByteSink>(&self, sink: &mut K) -> Result<(), SerializeError>;
}

// The number 20 in field 1, and the text `ChillFish8` in field 0.
const TWO_PAIRS: &[u8] = b"\x82\x01\0\0\0\x01\x14\0\0\0\0\0\0\0\0\0\0\0\0\x8aChillFish8";

#[derive(Drop)]
struct WrittenDocument {
    schema: Schema,
    document: TantivyDocument,
}

impl Writing for WrittenDocument {
    fn write<K: ByteSink>(&self, sink: &mut K) -> Result<(), SerializeError> {
        if !self.document.fits(&self.schema) {
            return Err(SerializeError::WrongCount);
        }
        BinaryDocumentSerializer::new(sink, &self.schema).serialize_doc(&self.document)
    }
}

fn two_pairs(alloc: Global) -> Result<WrittenDocument, Fail> {
    let mut builder = Schema::builder(alloc);
    let name = builder.add_text_field("name", TEXT | STORED)?;
    let age = builder.add_u64_field("age", STORED)?;
    let schema = builder.build()?;
    let mut document = TantivyDocument::new(alloc);
    document.add_u64(age, 20)?;
    document.add_text(name, "ChillFish8")?;
    Ok(WrittenDocument { schema, document })
}

// An array of null, a number and a text.
const ARRAY: &[u8] = b"\x0c\x83\x0b\x01\x14\0\0\0\0\0\0\0\0\x81a";

fn array(alloc: Global) -> Result<OwnedValue, AllocError> {
    let text = OwnedValue::Str(String::from_str(alloc, "a")?);
    Ok(OwnedValue::Array(vec![in alloc; OwnedValue::Null, OwnedValue::U64(20), text]?))
}

#[derive(Drop)]
struct WrittenValue(OwnedValue);

impl Writing for WrittenValue {
    fn write<K: ByteSink>(&self, sink: &mut K) -> Result<(), SerializeError> {
        BinaryValueSerializer::new(sink).serialize_value(&&self.0)
    }
}

// The array twice, without the code of the array round it.
const TWICE: &[u8] =
    b"\x82\x0c\x83\x0b\x01\x14\0\0\0\0\0\0\0\0\x81a\x0c\x83\x0b\x01\x14\0\0\0\0\0\0\0\0\x81a";

#[derive(Drop)]
struct WrittenTwice(OwnedValue);

impl Writing for WrittenTwice {
    fn write<K: ByteSink>(&self, sink: &mut K) -> Result<(), SerializeError> {
        let mut array = BinaryArraySerializer::begin(2, sink)?;
        array.serialize_value(&&self.0)?;
        array.serialize_value(&&self.0)?;
        array.end()
    }
}

// The array at the keys `k` and of no letter, without the code of the object round it.
const AT_KEYS: &[u8] =
    b"\x84\0\x81k\x0c\x83\x0b\x01\x14\0\0\0\0\0\0\0\0\x81a\0\x80\x0c\x83\x0b\x01\x14\0\0\0\0\0\0\0\0\x81a";

#[derive(Drop)]
struct WrittenAtKeys(OwnedValue);

impl Writing for WrittenAtKeys {
    fn write<K: ByteSink>(&self, sink: &mut K) -> Result<(), SerializeError> {
        let mut object = BinaryObjectSerializer::begin(2, sink)?;
        object.serialize_entry("k", &&self.0)?;
        object.serialize_entry("", &&self.0)?;
        object.end()
    }
}

// The kinds of the errors.
const KINDS: [io::ErrorKind; 3] = [
    io::ErrorKind::StorageFull,
    io::ErrorKind::Interrupted,
    io::ErrorKind::Other,
];

// A failure that isn't told as it is to be, by its kind and by how many writes come before it. There is to be none: each write of the
// bytes fails in turn, with its kind, just the bytes before it are written, and no call comes after it; where none fails, all are written.
fn wrong_failure<W: Writing>(
    alloc: Global,
    bytes: &[u8],
    writing: &W,
) -> Option<(io::ErrorKind, usize)> {
    for kind in KINDS {
        for place in 0..=bytes.len() {
            let mut sink = FaultSink::new(VecSink::new(alloc), place as u64, kind);
            let answer = writing.write(&mut sink);
            let (expected, calls) = if place == bytes.len() {
                (Ok(()), place)
            } else {
                (Err(SerializeError::Io(kind)), place + 1)
            };
            let is_right = answer == expected
                && sink.calls() == calls as u64
                && Some(sink.into_inner().as_slice()) == bytes.get(..place);
            if !is_right {
                return Some((kind, place));
            }
        }
    }
    None
}

#[test]
fn each_write_of_a_document_fails(rt: HostRuntime) -> Result<(), Fail> {
    let document = two_pairs(rt.alloc())?;
    assert!(rt; wrong_failure(rt.alloc(), TWO_PAIRS, &document) == None);
    Ok(())
}

#[test]
fn each_write_of_a_value_fails(rt: HostRuntime) -> Result<(), Fail> {
    let alloc = rt.alloc();
    assert!(rt; wrong_failure(alloc, ARRAY, &WrittenValue(array(alloc)?)) == None);
    assert!(rt; wrong_failure(alloc, TWICE, &WrittenTwice(array(alloc)?)) == None);
    assert!(rt; wrong_failure(alloc, AT_KEYS, &WrittenAtKeys(array(alloc)?)) == None);
    Ok(())
}
