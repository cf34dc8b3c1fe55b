//! Documents and values that are passed over: what is left then, and the errors.

use std::alloc::{AllocError, Global};
use std::test::Fail;
use tantivy_schema::common::{BufferedSource, ByteSource, Cause, SliceSource};
use tantivy_schema::store::{
    BlockReader, DocStoreVersion, read_document, skip_document, skip_value,
};
use tv_store::{DeserializeError, ValueType};

const VERSIONS: [DocStoreVersion; 3] = [
    DocStoreVersion::V1,
    DocStoreVersion::V2,
    DocStoreVersion::V3,
];

// A value of each type that all versions encode alike. The text with its tokens is "a b", with the token "a".
const VALUES: [&[u8]; 14] = [
    b"\x00\x83abc",
    b"\x00\x80",
    b"\x01\x14\0\0\0\0\0\0\0",
    b"\x02\xff\xff\xff\xff\xff\xff\xff\xff",
    b"\x03\x83a\0b",
    b"\x04\x82\xff\xfe",
    b"\x05\0\0\0\0\0\0\0\0",
    b"\x07\x00\x83a b\x81\x80\x81\x80\x81a\x81",
    b"\x08 {\"a\":{\"b\":[1,\"}\"]}}",
    b"\x09\x01",
    b"\x0a\x01\0\0\0\0\0\0\0\0\0\0\0\0\0\0\x02",
    b"\x0b",
    b"\x0c\x80",
    b"\x0c\x83\x0c\x81\x00\x81a\x0c\x80\x0b",
];

// The object with null at `a` and the empty object at `bc`: in versions 1 and 2, and in version 3.
const OLDER_OBJECT: &[u8] = b"\x0d\x84\0\x81a\x0b\0\x82bc\x0d\x80";

const NEWER_OBJECT: &[u8] = b"\x0d\x82\x81a\x0b\x82bc\x0d\x80";

// The bytes of a value, and others after it.
fn followed(alloc: Global, value: &[u8], others: &[u8]) -> Result<Vec<u8>, AllocError> {
    let mut bytes = value.to_vec(alloc)?;
    bytes.extend_from_slice(others)?;
    Ok(bytes)
}

// Whether the value is passed over, and two bytes after it are left.
fn passes(alloc: Global, value: &[u8], version: DocStoreVersion) -> bool {
    let Ok(bytes) = followed(alloc, value, b"\xff\xff") else {
        return false;
    };
    let mut source = SliceSource::new(bytes.as_slice());
    skip_value(alloc, &mut source, version).is_ok() && source.rest().len() == 2
}

// Whether the value is passed over also where the source has no more than this many bytes buffered, and the byte after it comes next.
fn passes_buffered(alloc: Global, value: &[u8], version: DocStoreVersion, capacity: usize) -> bool {
    let Ok(bytes) = followed(alloc, value, b"\x5a") else {
        return false;
    };
    match BufferedSource::with_capacity(alloc, capacity, bytes.as_slice()) {
        Ok(source) => ends_behind_value(alloc, source, version),
        Err(_) => false,
    }
}

// Whether the source's value is passed over, and one byte comes after it.
fn ends_behind_value(
    alloc: Global,
    mut source: BufferedSource<&[u8]>,
    version: DocStoreVersion,
) -> bool {
    skip_value(alloc, &mut source, version).is_ok()
        && source.next_byte() == Ok(Some(0x5a))
        && source.next_byte() == Ok(None)
}

#[test]
fn values_are_passed_over(rt: HostRuntime) -> Result<(), Fail> {
    let alloc = rt.alloc();
    for version in VERSIONS {
        for value in VALUES {
            assert!(rt; passes(alloc, value, version));
            for capacity in [0, 1, 3, 64] {
                assert!(rt; passes_buffered(alloc, value, version, capacity));
            }
        }
    }
    let (one, two, three) = (VERSIONS[0], VERSIONS[1], VERSIONS[2]);
    assert!(rt;
        passes(alloc, OLDER_OBJECT, one)
            && passes(alloc, OLDER_OBJECT, two)
            && passes_buffered(alloc, OLDER_OBJECT, two, 1)
            && passes(alloc, NEWER_OBJECT, three)
            && passes_buffered(alloc, NEWER_OBJECT, three, 1)
    );
    Ok(())
}

fn corrupt(cause: Cause) -> DeserializeError {
    DeserializeError::CorruptedValue(cause)
}

// Values that are malformed, the error, and how many bytes stand after it.
fn malformed() -> [(&'static [u8], DeserializeError, usize); 15] {
    [
        (b"", corrupt(Cause::UnexpectedEnd), 0),
        (b"\x06\x0b", corrupt(Cause::FloatCode), 1),
        (b"\x0e\x0b", corrupt(Cause::UnknownTypeCode(14)), 1),
        (b"\x07\x01\x0b", corrupt(Cause::UnknownExtCode(1)), 1),
        (b"\x00\x82\xff\xfe\x0b", corrupt(Cause::NotUtf8), 1),
        (b"\x03\x81\x80\x0b", corrupt(Cause::NotUtf8), 1),
        (b"\x09\x02\x0b", corrupt(Cause::BadBool), 1),
        (b"\x0d\x83\x0b", corrupt(Cause::OddObject), 1),
        (b"\x0d\x82\0\x81\x80\x0b", corrupt(Cause::NotUtf8), 1),
        (b"\x08[1]", corrupt(Cause::LegacyJson), 2),
        (b"\x08{\"a\":1.5}\x0b", corrupt(Cause::LegacyFloat), 1),
        (b"\x0c\x81\x08{a}\x0b", corrupt(Cause::LegacyJson), 1),
        (
            b"\x0c\0\0\0\0\0\0\0\0\0\x7f\x0b",
            corrupt(Cause::BadNumber),
            1,
        ),
        (b"\x0c\x82\x0b", corrupt(Cause::UnexpectedEnd), 0),
        (
            b"\x0d\x82\x01\x0b",
            DeserializeError::TypeMismatch {
                expected: ValueType::String,
                actual: ValueType::U64,
            },
            1,
        ),
    ]
}

// Whether a value is refused with this error, which is dropped, and this many bytes are left then.
fn is_refused(
    alloc: Global,
    version: DocStoreVersion,
    bytes: &[u8],
    error: DeserializeError,
    left: usize,
) -> bool {
    let mut source = SliceSource::new(bytes);
    skip_value(alloc, &mut source, version) == Err(error) && source.rest().len() == left
}

#[test]
fn malformed_values_are_refused_where_they_are_read(rt: HostRuntime) -> Result<(), Fail> {
    let alloc = rt.alloc();
    for (bytes, error, left) in malformed() {
        assert!(rt; is_refused(alloc, DocStoreVersion::V2, bytes, error, left));
    }
    // a date of version 1 whose nanoseconds don't fit 64 bits
    let date = b"\x05\xff\xff\xff\xff\xff\xff\xff\x7f\x0b";
    assert!(rt;
        is_refused(
            alloc,
            DocStoreVersion::V1,
            date,
            corrupt(Cause::DateRange),
            1
        )
    );
    Ok(())
}

// Whether bytes are passed over as they are read: with the same error, if any, and as many bytes left. Where a heap has no room for what they announce,
// they are passed over further.
fn passes_as_read(alloc: Global, bytes: &[u8], version: DocStoreVersion) -> bool {
    let mut reading = SliceSource::new(bytes);
    let mut passing = SliceSource::new(bytes);
    let read = read_document(alloc, &mut reading, version).map(|_| ());
    let passed = skip_document(alloc, &mut passing, version);
    if read == Err(DeserializeError::HeapFull) {
        return passed != read && passing.rest().len() <= reading.rest().len();
    }
    read == passed && reading.rest().len() == passing.rest().len()
}

// Three pairs: an object, a text with its tokens, and an array of a facet; and then a byte that belongs to no document.
const DOCUMENT: &[u8] =
    b"\x83\x01\0\0\0\x0d\x84\0\x81a\x0b\0\x82bc\x0d\x80\0\0\0\0\x07\x00\x83a b\x81\x80\x81\x80\x81a\x81\x02\0\0\0\x0c\x81\x03\x81f\xff";

#[test]
fn documents_are_passed_over_as_they_are_read(rt: HostRuntime) -> Result<(), Fail> {
    let alloc = rt.alloc();
    let mut source = SliceSource::new(DOCUMENT);
    assert!(rt; skip_document(alloc, &mut source, DocStoreVersion::V2) == Ok(()));
    assert!(rt; source.rest().len() == 1);
    for version in VERSIONS {
        for len in 0..=DOCUMENT.len() {
            assert!(rt; passes_as_read(alloc, &DOCUMENT[..len], version));
        }
        // each byte in turn is another one
        for place in 0..DOCUMENT.len() {
            for other in [0, 1, 6, 7, 12, 13, 128, 129, 255] {
                let mut bytes = DOCUMENT.to_vec(alloc)?;
                bytes[place] = other;
                assert!(rt; passes_as_read(alloc, bytes.as_slice(), version));
            }
        }
    }
    Ok(())
}

// This many lists in each other.
const DEPTH: u32 = 1_000_000;

// The bytes of a document of one pair: that many arrays of one element in each other, and then null.
fn deep_bytes(alloc: Global) -> Result<Vec<u8>, AllocError> {
    let mut bytes = b"\x81\0\0\0\0".to_vec(alloc)?;
    for _ in 0..DEPTH {
        bytes.extend_from_slice(b"\x0c\x81")?;
    }
    bytes.push(0x0b)?;
    Ok(bytes)
}

#[test]
fn deep_documents_are_passed_over(rt: HostRuntime) -> Result<(), Fail> {
    let alloc = rt.alloc();
    let bytes = deep_bytes(alloc)?;
    let mut source = SliceSource::new(bytes.as_slice());
    assert!(rt; skip_document(alloc, &mut source, DocStoreVersion::V2) == Ok(()));
    assert!(rt; source.rest().len() == 0);
    Ok(())
}

// A document with the number 20 in field 1, one without pairs, and one with null in field 0.
const BLOCK: &[u8] = b"\x81\x01\0\0\0\x01\x14\0\0\0\0\0\0\0\x80\x81\0\0\0\0\x0b";

// Whether a call of the reader answered so.
fn is_found(answer: Result<bool, DeserializeError>, expected: bool) -> bool {
    answer == Ok(expected)
}

// Whether a call of the reader was refused with this error, which is dropped.
fn has_failed(answer: Result<bool, DeserializeError>, error: DeserializeError) -> bool {
    answer == Err(error)
}

// Whether a document is read, and those after it are passed over up to the end.
fn skips_all(reader: &mut BlockReader, source: &mut SliceSource<'_>) -> bool {
    is_found(reader.advance(source), true)
        && is_found(reader.skip(source), true)
        && source.rest().len() == 6
        && reader.document().len() == 1
        && is_found(reader.skip(source), true)
        && is_found(reader.skip(source), false)
        && is_found(reader.skip(source), false)
        && reader.document().len() == 1
}

// Whether a document is refused, and nothing is read after that.
fn refuses_next(reader: &mut BlockReader, source: &mut SliceSource<'_>) -> bool {
    has_failed(reader.skip(source), corrupt(Cause::FloatCode))
        && has_failed(reader.skip(source), DeserializeError::AlreadyFailed)
        && has_failed(reader.advance(source), DeserializeError::AlreadyFailed)
        && source.rest().len() == 1
        && reader.document().len() == 1
}

#[test]
fn documents_of_a_block_are_passed_over(rt: HostRuntime) -> Result<(), Fail> {
    let mut source = SliceSource::new(BLOCK);
    let mut reader = BlockReader::new(rt.alloc(), DocStoreVersion::V2);
    assert!(rt; skips_all(&mut reader, &mut source));
    let mut source = SliceSource::new(b"\x81\0\0\0\0\x06\x80");
    assert!(rt; refuses_next(&mut reader, &mut source));
    Ok(())
}
