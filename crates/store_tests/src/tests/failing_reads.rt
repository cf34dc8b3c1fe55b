//! Documents and values that are read where one read fails, at each read in turn.

use std::alloc::Global;
use std::collections::BTreeMap;
use std::io;
use tantivy_schema::common::{ByteSource, FaultSource, SliceSource};
use tantivy_schema::schema::document::{
    BinaryDocumentDeserializer, BinaryValueDeserializer, DeserializeError, DocumentDeserialize,
    StoreReader,
};
use tantivy_schema::schema::{Document, OwnedValue, TantivyDocument, Value};
use tantivy_schema::store::{DirectDecoder, DocStoreVersion, Step, read_document, skip_document};

// The number 20 in field 1, and the text `ChillFish8` in field 0.
const TWO_PAIRS: &[u8] = b"\x82\x01\0\0\0\x01\x14\0\0\0\0\0\0\0\0\0\0\0\0\x8aChillFish8";

// The object with the number 20 at `a` and the number 256 at `bc`.
const NUMBERS: &[u8] = b"\x0d\x84\0\x81a\x01\x14\0\0\0\0\0\0\0\0\x82bc\x01\0\x01\0\0\0\0\0\0";

// What is read of bytes, from any source.
trait Reading {
    // The answer, or whether it is what the bytes encode; and the source. After an error it is read once more.
    fn read<S: ByteSource + Drop>(
        &self,
        alloc: Global,
        source: S,
    ) -> (Result<bool, DeserializeError>, S);
}

// Whether the document has these two pairs.
fn is_two_pairs(document: &TantivyDocument) -> bool {
    let mut pairs = document.field_values();
    let number = pairs.next().is_some_and(|(field, value)| {
        field.field_id() == 1 && value.as_u64() == Some(20)
    });
    let text = pairs.next().is_some_and(|(field, value)| {
        field.field_id() == 0 && value.as_str() == Some("ChillFish8")
    });
    number && text && pairs.next().is_none()
}

#[derive(Drop)]
struct WholeDocument;

impl Reading for WholeDocument {
    fn read<S: ByteSource + Drop>(
        &self,
        alloc: Global,
        source: S,
    ) -> (Result<bool, DeserializeError>, S) {
        let mut source = source;
        let answer = match read_document(alloc, &mut source, DocStoreVersion::V2) {
            Ok(document) => Ok(is_two_pairs(&document)),
            Err(error) => Err(error),
        };
        (answer, source)
    }
}

#[derive(Drop)]
struct PassedDocument;

impl Reading for PassedDocument {
    fn read<S: ByteSource + Drop>(
        &self,
        alloc: Global,
        source: S,
    ) -> (Result<bool, DeserializeError>, S) {
        let mut source = source;
        let answer = match skip_document(alloc, &mut source, DocStoreVersion::V2) {
            Ok(()) => Ok(true),
            Err(error) => Err(error),
        };
        (answer, source)
    }
}

#[derive(Drop)]
struct DocumentBySteps;

// Makes steps up to the last.
fn steps<S: ByteSource>(
    decoder: &mut DirectDecoder,
    source: &mut S,
) -> Result<(), DeserializeError> {
    for _ in 0..u64::MAX {
        if decoder.step(source)? == Step::Done {
            break;
        }
    }
    Ok(())
}

impl Reading for DocumentBySteps {
    fn read<S: ByteSource + Drop>(
        &self,
        alloc: Global,
        source: S,
    ) -> (Result<bool, DeserializeError>, S) {
        let mut source = source;
        let mut decoder = DirectDecoder::new(alloc, DocStoreVersion::V2);
        let answer = match steps(&mut decoder, &mut source) {
            Ok(()) => Ok(decoder.step(&mut source) == Ok(Step::Done)),
            Err(error) => Err(error),
        };
        let rests = decoder.step(&mut source) == Err(DeserializeError::AlreadyFailed);
        let document = decoder.into_doc();
        match answer {
            Ok(is_done) => (Ok(is_done && is_two_pairs(&document)), source),
            Err(error) if rests => (Err(error), source),
            Err(_) => (Ok(false), source),
        }
    }
}

#[derive(Drop)]
struct DocumentByPairs;

impl Reading for DocumentByPairs {
    fn read<S: ByteSource + Drop>(
        &self,
        alloc: Global,
        source: S,
    ) -> (Result<bool, DeserializeError>, S) {
        let mut reader = StoreReader::new(source, DocStoreVersion::V2);
        let document = match BinaryDocumentDeserializer::from_reader(&mut reader) {
            Ok(mut pairs) => TantivyDocument::deserialize(alloc, &mut pairs),
            Err(error) => Err(error),
        };
        let answer = match document {
            Ok(document) => Ok(is_two_pairs(&document)),
            Err(error) => Err(error),
        };
        (told(alloc, answer, &mut reader), reader.into_source())
    }
}

// The answer. Where it is an error, a typed read of the same reader is refused and reads nothing.
fn told<S: ByteSource>(
    alloc: Global,
    answer: Result<bool, DeserializeError>,
    reader: &mut StoreReader<S>,
) -> Result<bool, DeserializeError> {
    if answer.is_ok() {
        return answer;
    }
    let before = reader.bytes_read();
    let again = reader.read::<u64>(alloc);
    if again == Err(DeserializeError::AlreadyFailed) && reader.bytes_read() == before {
        answer
    } else {
        Ok(false)
    }
}

#[derive(Drop)]
struct NumbersAsMap;

impl Reading for NumbersAsMap {
    fn read<S: ByteSource + Drop>(
        &self,
        alloc: Global,
        source: S,
    ) -> (Result<bool, DeserializeError>, S) {
        let mut reader = StoreReader::new(source, DocStoreVersion::V2);
        let answer = match reader.read::<BTreeMap<String, u64>>(alloc) {
            Ok(map) => Ok(
                map.len() == 2 && map.get("a") == Some(&20) && map.get("bc") == Some(&256),
            ),
            Err(error) => Err(error),
        };
        (told(alloc, answer, &mut reader), reader.into_source())
    }
}

#[derive(Drop)]
struct NumbersAsTree;

// Whether these are the object's members.
fn is_numbers(value: &OwnedValue) -> bool {
    let OwnedValue::Object(members) = value else {
        return false;
    };
    let mut numbers = members.iter().map(|(key, value)| (key.as_str(), value));
    numbers.next() == Some(("a", &OwnedValue::U64(20)))
        && numbers.next() == Some(("bc", &OwnedValue::U64(256)))
        && numbers.next().is_none()
}

impl Reading for NumbersAsTree {
    fn read<S: ByteSource + Drop>(
        &self,
        alloc: Global,
        source: S,
    ) -> (Result<bool, DeserializeError>, S) {
        let mut reader = StoreReader::new(source, DocStoreVersion::V2);
        let tree = match BinaryValueDeserializer::from_reader(&mut reader) {
            Ok(behind) => behind.deserialize_tree(alloc),
            Err(error) => Err(error),
        };
        let answer = match tree {
            Ok(value) => Ok(is_numbers(&value)),
            Err(error) => Err(error),
        };
        (told(alloc, answer, &mut reader), reader.into_source())
    }
}

// The kinds of the errors.
const KINDS: [io::ErrorKind; 3] = [
    io::ErrorKind::ConnectionReset,
    io::ErrorKind::Interrupted,
    io::ErrorKind::Other,
];

// A failure that isn't told as it is to be, by its kind and by how many reads come before it. There is to be none: each read of the
// bytes fails in turn, with its kind, just the bytes before it are read, and no call comes after it; where none fails, all are read.
fn wrong_failure<R: Reading>(
    alloc: Global,
    bytes: &[u8],
    reading: &R,
) -> Option<(io::ErrorKind, usize)> {
    for kind in KINDS {
        for place in 0..=bytes.len() {
            let source = FaultSource::new(SliceSource::new(bytes), place as u64, kind);
            let (answer, source) = reading.read(alloc, source);
            let (expected, calls) = if place == bytes.len() {
                (Ok(true), place)
            } else {
                (Err(DeserializeError::Io(kind)), place + 1)
            };
            let is_right = answer == expected
                && source.calls() == calls as u64
                && Some(source.into_inner().rest()) == bytes.get(place..);
            if !is_right {
                return Some((kind, place));
            }
        }
    }
    None
}

#[test]
fn each_read_of_a_document_fails(rt: HostRuntime) {
    let alloc = rt.alloc();
    assert!(rt; wrong_failure(alloc, TWO_PAIRS, &WholeDocument) == None);
    assert!(rt; wrong_failure(alloc, TWO_PAIRS, &PassedDocument) == None);
    assert!(rt; wrong_failure(alloc, TWO_PAIRS, &DocumentBySteps) == None);
    assert!(rt; wrong_failure(alloc, TWO_PAIRS, &DocumentByPairs) == None);
}

#[test]
fn each_read_of_a_value_fails(rt: HostRuntime) {
    let alloc = rt.alloc();
    assert!(rt; wrong_failure(alloc, NUMBERS, &NumbersAsTree) == None);
    assert!(rt; wrong_failure(alloc, NUMBERS, &NumbersAsMap) == None);
}
