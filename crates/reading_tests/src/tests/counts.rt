//! What is counted: the bytes that are read, and the pairs that are announced.

use std::test::Fail;
use tv_base::{Cause, SliceSource};
use tv_reader::{DeserializeError, DocStoreVersion};
use tv_reading::document::take_document;
use tv_typed::{BinaryDocumentDeserializer, DocumentDeserializer, StoreReader};

#[test]
fn no_more_is_counted_than_fits(rt: HostRuntime) {
    // a text and null, 14 bytes, and a byte after
    let bytes = b"\x82\0\0\0\0\0\x82ab\x01\0\0\0\x0b\xff";
    for (room, is_read) in [(13, false), (14, true), (15, true)] {
        let version = DocStoreVersion::V2;
        let mut count = u64::MAX - room;
        let document = take_document(
            rt.alloc(),
            &mut SliceSource::new(bytes),
            &mut count,
            version,
        );
        let too_long = DeserializeError::CorruptedValue(Cause::TooLong);
        match document {
            Ok(document) => assert!(rt;
                is_read && document.heap.as_slice() == b"\x82ab".as_slice()
            ),
            Err(error) => assert!(rt; !is_read && error == too_long),
        }
        assert!(rt; count == u64::MAX - room.saturating_sub(14));
    }
}

// One pair, of field 3 and a truth value.
const ONE_PAIR: &[u8] = b"\x81\x03\0\0\0\x09\x01";

#[test]
fn pairs_are_read_one_by_one(rt: HostRuntime) -> Result<(), Fail> {
    let mut reader = StoreReader::new(SliceSource::new(ONE_PAIR), DocStoreVersion::V2);
    let mut pairs = BinaryDocumentDeserializer::from_reader(&mut reader)?;
    assert!(rt; pairs.size_hint() == 1);
    let pair = pairs.next_field::<bool>(rt.alloc())?;
    assert!(rt; pair.is_some_and(|(field, value)| field.field_id() == 3 && value));
    assert!(rt; pairs.next_field::<bool>(rt.alloc())?.is_none());
    assert!(rt; pairs.size_hint() == 1);
    Ok(())
}
