//! How deep a value of any type may nest.

use std::alloc::{AllocError, Global};
use std::test::Fail;
use tv_base::SliceSource;
use tv_reader::{DeserializeError, DocStoreVersion};
use tv_typed::{BinaryDocumentDeserializer, DocumentDeserializer, StoreReader};
use tv_value::owned_value::OwnedValue;

// This many arrays of one element, each in the one before, and null in the last.
fn nested(alloc: Global, levels: usize) -> Result<Vec<u8>, AllocError> {
    let mut bytes = Vec::new(alloc);
    for _ in 0..levels {
        bytes.push(12)?;
        bytes.push(0x81)?;
    }
    bytes.push(11)?;
    Ok(bytes)
}

#[test]
fn arrays_nest_128_levels_deep(rt: HostRuntime) -> Result<(), Fail> {
    for (levels, is_read) in [(127, true), (128, true), (129, false), (1000, false)] {
        let bytes = nested(rt.alloc(), levels)?;
        let mut reader = StoreReader::new(SliceSource::new(&bytes), DocStoreVersion::V2);
        match reader.read::<OwnedValue>(rt.alloc()) {
            Ok(_) => {
                assert!(rt; is_read);
                assert!(rt; reader.bytes_read() == (bytes.len() as u64));
            }
            Err(error) => {
                assert!(rt; !is_read && error == DeserializeError::TooDeep);
                // right after the code of the 129th
                assert!(rt; reader.bytes_read() == 129 * 2 - 1);
                assert!(rt; reader.has_failed());
            }
        }
    }
    Ok(())
}

// How many bytes are read of a value of any type, and whether it is too deep.
fn read_to(alloc: Global, bytes: &[u8], levels: u32) -> (u64, bool) {
    let version = DocStoreVersion::V3;
    let mut reader = StoreReader::with_depth(SliceSource::new(bytes), version, levels);
    let answer = reader.read::<OwnedValue>(alloc);
    let is_deep = answer.is_err_and(|error| error == DeserializeError::TooDeep);
    (reader.bytes_read(), is_deep)
}

#[test]
fn a_limit_can_be_set(rt: HostRuntime) {
    // an array of an object with an array, and of null
    let bytes = b"\x0c\x82\x0d\x81\x81a\x0c\x80\x0b";
    assert!(rt; read_to(rt.alloc(), bytes, 3) == (9, false));
    assert!(rt; read_to(rt.alloc(), bytes, 2) == (7, true));
    assert!(rt; read_to(rt.alloc(), bytes, 1) == (3, true));
    assert!(rt; read_to(rt.alloc(), bytes, 0) == (1, true));
}

#[test]
fn a_legacy_object_is_not_counted(rt: HostRuntime) {
    let bytes = b"\x08{\"a\":[[1]]}";
    assert!(rt; read_to(rt.alloc(), bytes, 0) == (12, false));
}

#[test]
fn each_value_in_a_list_has_the_limit_for_itself(rt: HostRuntime) -> Result<(), Fail> {
    let bytes = nested(rt.alloc(), 3)?;
    let version = DocStoreVersion::V2;
    let mut reader = StoreReader::with_depth(SliceSource::new(&bytes), version, 2);
    let values = reader.read::<Vec<OwnedValue>>(rt.alloc())?;
    assert!(rt; values.len() == 1);
    Ok(())
}

#[test]
fn a_pair_that_is_too_deep_is_refused_behind_its_field(rt: HostRuntime) -> Result<(), Fail> {
    // one pair, of field 3
    let mut bytes = Vec::from_slice(rt.alloc(), b"\x81\x03\0\0\0")?;
    bytes.extend_from_slice(&nested(rt.alloc(), 129)?)?;
    let mut reader = StoreReader::new(SliceSource::new(&bytes), DocStoreVersion::V2);
    let mut pairs = BinaryDocumentDeserializer::from_reader(&mut reader)?;
    let answer = pairs.next_field::<OwnedValue>(rt.alloc());
    assert!(rt; answer.is_err_and(|error| error == DeserializeError::TooDeep));
    drop(pairs);
    assert!(rt; reader.has_failed());
    assert!(rt; reader.bytes_read() == 5 + 129 * 2 - 1);
    Ok(())
}
