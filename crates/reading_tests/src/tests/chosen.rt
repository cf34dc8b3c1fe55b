//! Chosen fields of documents: what is kept, what is left then, and the errors.

use std::alloc::{AllocError, Global};
use std::test::Fail;
use tantivy_schema::common::{BufferedSource, ByteSource, Cause, SliceSource};
use tantivy_schema::schema::{Field, TantivyDocument};
use tantivy_schema::store::{DocStoreVersion, read_document, read_fields, read_fields_into};
use tv_store::DeserializeError;

const VERSIONS: [DocStoreVersion; 3] = [
    DocStoreVersion::V1,
    DocStoreVersion::V2,
    DocStoreVersion::V3,
];

// Pairs of four fields: a text; the object with null at `a` and the empty object at `bc`; an array of a text, an empty array and null; the text
// "a b" with the token "a"; a number; an object as older stores hold it; and a date.
const PAIRS: [&[u8]; 7] = [
    b"\x01\0\0\0\x00\x81x",
    b"\x02\0\0\0\x0d\x84\0\x81a\x0b\0\x82bc\x0d\x80",
    b"\x01\0\0\0\x0c\x83\x00\x83abc\x0c\x80\x0b",
    b"\x03\0\0\0\x07\x00\x83a b\x81\x80\x81\x80\x81a\x81",
    b"\x02\0\0\0\x01\x14\0\0\0\0\0\0\0",
    b"\x04\0\0\0\x08 {\"a\":{\"b\":[1,\"}\"]}}",
    b"\x01\0\0\0\x05\0\0\0\0\0\0\0\0",
];

// The second pair in version 3.
const NEWER_PAIR: &[u8] = b"\x02\0\0\0\x0d\x82\x81a\x0b\x82bc\x0d\x80";

// The places of all pairs.
const ALL: [usize; 7] = [0, 1, 2, 3, 4, 5, 6];

// Puts the bytes of a document of the pairs at these places after those that are there.
fn append_document(
    bytes: &mut Vec<u8>,
    version: DocStoreVersion,
    places: &[usize],
) -> Result<(), AllocError> {
    bytes.push(0x80 + (places.len() % 8) as u8)?;
    for place in places {
        if *place == 1 && version == DocStoreVersion::V3 {
            bytes.extend_from_slice(NEWER_PAIR)?;
        } else if let Some(pair) = PAIRS.get(*place) {
            bytes.extend_from_slice(pair)?;
        }
    }
    Ok(())
}

fn document(
    alloc: Global,
    version: DocStoreVersion,
    places: &[usize],
) -> Result<Vec<u8>, AllocError> {
    let mut bytes = Vec::new(alloc);
    append_document(&mut bytes, version, places)?;
    Ok(bytes)
}

fn fields(alloc: Global, numbers: &[u32]) -> Result<Vec<Field>, AllocError> {
    let mut fields = Vec::new(alloc);
    for number in numbers {
        fields.push(Field::from_field_id(*number))?;
    }
    Ok(fields)
}

// Whether both have the same fields, and the same values at the same places of the same heap.
fn same(one: &TantivyDocument, other: &TantivyDocument) -> bool {
    if one.len() != other.len() || one.node_data() != other.node_data() {
        return false;
    }
    let mut others = other.field_values();
    for (i, (field, _)) in one.field_values().enumerate() {
        let Some((other_field, _)) = others.next() else {
            return false;
        };
        if field != other_field || one.addr_of(i) != other.addr_of(i) {
            return false;
        }
    }
    true
}

// Whether the pairs at these places are kept of all pairs, whatever is buffered, and the byte after the document comes next.
fn keeps(
    alloc: Global,
    version: DocStoreVersion,
    numbers: &[u32],
    places: &[usize],
) -> Result<bool, Fail> {
    let kept = document(alloc, version, places)?;
    let expected = read_document(alloc, &mut SliceSource::new(kept.as_slice()), version)?;
    let mut bytes = document(alloc, version, ALL.as_slice())?;
    bytes.push(0x5a)?;
    let chosen = fields(alloc, numbers)?;
    let mut source = SliceSource::new(bytes.as_slice());
    let read = read_fields(alloc, &mut source, version, chosen.as_slice())?;
    if !same(&read, &expected) || source.rest() != b"\x5a".as_slice() {
        return Ok(false);
    }
    // nothing is buffered, or a byte, or some
    for capacity in [0, 1, 3, 17, 64] {
        let mut source = BufferedSource::with_capacity(alloc, capacity, bytes.as_slice())?;
        let read = read_fields(alloc, &mut source, version, chosen.as_slice())?;
        if !same(&read, &expected) || source.next_byte() != Ok(Some(0x5a)) {
            return Ok(false);
        }
    }
    Ok(true)
}

#[test]
fn chosen_fields_are_kept(rt: HostRuntime) -> Result<(), Fail> {
    let alloc = rt.alloc();
    for version in VERSIONS {
        assert!(rt; keeps(alloc, version, &[1], &[0, 2, 6])?);
        assert!(rt; keeps(alloc, version, &[2], &[1, 4])?);
        assert!(rt; keeps(alloc, version, &[3], &[3])?);
        assert!(rt; keeps(alloc, version, &[4, 3], &[3, 5])?);
        // a field that repeats, and one that no pair has
        assert!(rt; keeps(alloc, version, &[4, 9, 4, 2], &[1, 4, 5])?);
        assert!(rt; keeps(alloc, version, &[9], &[])?);
        // none, and all
        assert!(rt; keeps(alloc, version, &[], &[])?);
        assert!(rt; keeps(alloc, version, &[1, 2, 3, 4], ALL.as_slice())?);
    }
    Ok(())
}

#[test]
fn documents_stand_behind_each_other(rt: HostRuntime) -> Result<(), Fail> {
    let alloc = rt.alloc();
    let version = DocStoreVersion::V2;
    let mut bytes = document(alloc, version, ALL.as_slice())?;
    append_document(&mut bytes, version, &[4, 3, 0])?;
    bytes.push(0x5a)?;
    let chosen = fields(alloc, &[1, 3])?;
    let mut source = SliceSource::new(bytes.as_slice());
    let mut read = TantivyDocument::new(alloc);
    for places in [[0, 2, 3, 6].as_slice(), [3, 0].as_slice()] {
        let kept = document(alloc, version, places)?;
        let expected = read_document(alloc, &mut SliceSource::new(kept.as_slice()), version)?;
        read_fields_into(alloc, &mut read, &mut source, version, chosen.as_slice())?;
        assert!(rt; same(&read, &expected));
    }
    assert!(rt; source.rest() == b"\x5a".as_slice());
    // what follows is no document, and then there are no pairs
    let refused = read_fields_into(alloc, &mut read, &mut source, version, chosen.as_slice());
    assert!(rt; refused == Err(DeserializeError::CorruptedValue(Cause::UnexpectedEnd)));
    assert!(rt; read.is_empty());
    Ok(())
}

// A number in field 1, and in field 2 an array of two values, of which the second has no type; and then a null.
const MALFORMED: &[u8] =
    b"\x83\x01\0\0\0\x01\x14\0\0\0\0\0\0\0\x02\0\0\0\x0c\x82\x0b\x06\x01\0\0\0\x0b";

#[test]
fn values_that_are_not_kept_are_tested(rt: HostRuntime) -> Result<(), Fail> {
    let alloc = rt.alloc();
    let refused = DeserializeError::CorruptedValue(Cause::FloatCode);
    for numbers in [[1].as_slice(), [2].as_slice(), [].as_slice()] {
        let chosen = fields(alloc, numbers)?;
        for version in VERSIONS {
            let mut source = SliceSource::new(MALFORMED);
            let read = read_fields(alloc, &mut source, version, chosen.as_slice());
            assert!(rt; read.is_err_and(|error| error == refused));
            assert!(rt; source.rest() == b"\x01\0\0\0\x0b".as_slice());
        }
    }
    Ok(())
}

// Whether bytes are refused as they are where all is read: with the same error, if any, and as many bytes left. What a heap has no room for may be
// passed over further.
fn refused_as_read(
    alloc: Global,
    bytes: &[u8],
    version: DocStoreVersion,
    chosen: &[Field],
) -> bool {
    let mut reading = SliceSource::new(bytes);
    let mut choosing = SliceSource::new(bytes);
    let read = read_document(alloc, &mut reading, version).map(|_| ());
    let kept = read_fields(alloc, &mut choosing, version, chosen).map(|_| ());
    if read == Err(DeserializeError::HeapFull) {
        return choosing.rest().len() <= reading.rest().len();
    }
    read == kept && reading.rest().len() == choosing.rest().len()
}

#[test]
fn bytes_are_refused_as_they_are_read(rt: HostRuntime) -> Result<(), Fail> {
    let alloc = rt.alloc();
    for numbers in [[1].as_slice(), [2, 3].as_slice(), [].as_slice()] {
        let chosen = fields(alloc, numbers)?;
        for version in VERSIONS {
            let whole = document(alloc, version, ALL.as_slice())?;
            for len in 0..=whole.len() {
                assert!(rt; refused_as_read(alloc, &whole[..len], version, chosen.as_slice()));
            }
            // each byte in turn is another one
            for place in 0..whole.len() {
                for other in [0, 1, 6, 7, 12, 13, 128, 129, 255] {
                    let mut bytes = whole.as_slice().to_vec(alloc)?;
                    bytes[place] = other;
                    assert!(rt;
                        refused_as_read(alloc, bytes.as_slice(), version, chosen.as_slice())
                    );
                }
            }
        }
    }
    Ok(())
}
