//! Blocks that are checked: how many documents there are, or which one is refused, and where.

use std::test::Fail;
use tantivy_schema::common::{BufferedSource, Cause, SliceSource};
use tv_lines::check::check_block;
use tv_store::{
    DeserializeError, DocStoreVersion, LimitedReadError, ReadLimit, ReadLimits, RefusedDocument,
    Unwatched,
};

// The text `a` in field 0, and the object of `a` with `b` in field 4: 8 bytes, and 13.
const BLOCK: &[u8] = b"\x81\0\0\0\0\0\x81a\x81\x04\0\0\0\x0d\x82\0\x81a\0\x81b";

#[test]
fn blocks_are_checked(rt: HostRuntime) -> Result<(), Fail> {
    let alloc = rt.alloc();
    let version = DocStoreVersion::V2;
    let none = ReadLimits::default();
    let mut whole = SliceSource::new(BLOCK);
    assert!(rt; check_block(alloc, version, none, &mut whole, &mut Unwatched) == Ok(2));
    let mut buffered = BufferedSource::with_capacity(alloc, 4, BLOCK)?;
    assert!(rt; check_block(alloc, version, none, &mut buffered, &mut Unwatched) == Ok(2));
    let mut empty = SliceSource::new(b"");
    assert!(rt; check_block(alloc, version, none, &mut empty, &mut Unwatched) == Ok(0));

    let cut = RefusedDocument {
        document: 1,
        start: 8,
        place: 20,
        error: LimitedReadError::Read(DeserializeError::CorruptedValue(Cause::UnexpectedEnd)),
    };
    let mut early = SliceSource::new(&BLOCK[..20]);
    assert!(rt; check_block(alloc, version, none, &mut early, &mut Unwatched) == Err(cut));

    // the object is a list that is open once its head has come, after 7 bytes of its document
    let flat = ReadLimits {
        bytes: None,
        heap_bytes: None,
        depth: Some(0),
    };
    let deep = RefusedDocument {
        document: 1,
        start: 8,
        place: 15,
        error: LimitedReadError::Limit(ReadLimit::Depth),
    };
    let mut nested = SliceSource::new(BLOCK);
    assert!(rt; check_block(alloc, version, flat, &mut nested, &mut Unwatched) == Err(deep));
    Ok(())
}
