//! Documents of a block that are read one after the other within limits.

use std::alloc::Global;
use std::test::Fail;
use tantivy_schema::common::{BufferedSource, ByteSource, Cause, SliceSource};
use tantivy_schema::store::{
    BlockReader, DocStoreVersion, LimitedReadError, ReadLimit, ReadLimits,
};
use tv_store::DeserializeError;

// A document of 13 bytes with an array of the text "abc" and null in field 1, one without pairs, and one of 6 bytes with null in field 0.
const BLOCK: &[u8] = b"\x81\x01\0\0\0\x0c\x82\0\x83abc\x0b\x80\x81\0\0\0\0\x0b";

fn within(bytes: Option<u64>, heap_bytes: Option<u64>, depth: Option<u32>) -> ReadLimits {
    ReadLimits {
        bytes,
        heap_bytes,
        depth,
    }
}

// Whether a call within limits was refused for this reason.
fn is_refused(answer: Result<bool, LimitedReadError>, error: LimitedReadError) -> bool {
    answer == Err(error)
}

// Whether a call without limits answered so.
fn is_found(answer: Result<bool, DeserializeError>, expected: bool) -> bool {
    answer == Ok(expected)
}

// Whether a call without limits was refused because one before it had failed.
fn is_failed(answer: Result<bool, DeserializeError>) -> bool {
    answer == Err(DeserializeError::AlreadyFailed)
}

// Whether the reader answers so where it is to read a document within limits.
fn advances<S: ByteSource>(
    reader: &mut BlockReader,
    source: &mut S,
    limits: ReadLimits,
    expected: bool,
) -> bool {
    reader.advance_within(source, limits) == Ok(expected)
}

// Limits that all three documents are within.
const WIDE: [ReadLimits; 5] = [
    ReadLimits {
        bytes: None,
        heap_bytes: None,
        depth: None,
    },
    ReadLimits {
        bytes: Some(13),
        heap_bytes: None,
        depth: None,
    },
    ReadLimits {
        bytes: None,
        heap_bytes: Some(64),
        depth: None,
    },
    ReadLimits {
        bytes: None,
        heap_bytes: None,
        depth: Some(1),
    },
    ReadLimits {
        bytes: Some(u64::MAX),
        heap_bytes: Some(u64::MAX),
        depth: Some(u32::MAX),
    },
];

// Whether the reader gives the three documents within the limits, and then the end, twice.
fn reads_all(reader: &mut BlockReader, source: &mut SliceSource<'_>, limits: ReadLimits) -> bool {
    advances(reader, source, limits, true)
        && reader.document().len() == 1
        && source.rest().len() == 7
        && advances(reader, source, limits, true)
        && reader.document().len() == 0
        && advances(reader, source, limits, true)
        && reader.document().len() == 1
        && advances(reader, source, limits, false)
        && advances(reader, source, limits, false)
        && reader.document().len() == 0
}

#[test]
fn each_document_has_the_limits(rt: HostRuntime) -> Result<(), Fail> {
    for limits in WIDE {
        let mut source = SliceSource::new(BLOCK);
        let mut reader = BlockReader::new(rt.alloc(), DocStoreVersion::V2);
        assert!(rt; reads_all(&mut reader, &mut source, limits));
    }
    Ok(())
}

// Whether nothing is read after a refusal.
fn has_failed(reader: &mut BlockReader, source: &mut SliceSource<'_>) -> bool {
    let none = within(None, None, None);
    let failed = LimitedReadError::Read(DeserializeError::AlreadyFailed);
    is_refused(reader.advance_within(source, none), failed)
        && is_failed(reader.advance(source))
        && is_failed(reader.skip(source))
}

// Whether the first document is refused at this limit, and this many bytes are left then and after a second call.
fn refuses_first(alloc: Global, limits: ReadLimits, limit: ReadLimit, left: usize) -> bool {
    let mut source = SliceSource::new(BLOCK);
    let mut reader = BlockReader::new(alloc, DocStoreVersion::V2);
    let answer = reader.advance_within(&mut source, limits);
    is_refused(answer, LimitedReadError::Limit(limit))
        && source.rest().len() == left
        && reader.document().len() == 0
        && has_failed(&mut reader, &mut source)
        && source.rest().len() == left
}

#[test]
fn a_document_past_a_limit_is_refused(rt: HostRuntime) -> Result<(), Fail> {
    let narrow = [
        (within(Some(12), None, None), ReadLimit::Bytes, 8),
        (within(Some(0), None, None), ReadLimit::Bytes, 19),
        (within(None, Some(3), None), ReadLimit::HeapBytes, 8),
        (within(None, None, Some(0)), ReadLimit::Depth, 13),
    ];
    for (limits, limit, left) in narrow {
        assert!(rt; refuses_first(rt.alloc(), limits, limit, left));
    }
    Ok(())
}

#[test]
fn the_end_is_seen_where_no_byte_may_be_taken(rt: HostRuntime) -> Result<(), Fail> {
    let mut source = SliceSource::new(b"");
    let mut reader = BlockReader::new(rt.alloc(), DocStoreVersion::V2);
    let none = within(Some(0), Some(0), Some(0));
    assert!(rt; advances(&mut reader, &mut source, none, false));
    assert!(rt; advances(&mut reader, &mut source, none, false));
    assert!(rt; reader.bytes_read() == 0 && is_found(reader.advance(&mut source), false));
    Ok(())
}

#[test]
fn a_document_that_is_cut_off_is_corrupted(rt: HostRuntime) -> Result<(), Fail> {
    let mut source = SliceSource::new(b"\x80\x81\0\0");
    let mut reader = BlockReader::new(rt.alloc(), DocStoreVersion::V2);
    let limits = within(Some(100), Some(100), Some(100));
    assert!(rt; advances(&mut reader, &mut source, limits, true));
    let answer = reader.advance_within(&mut source, limits);
    let cut = DeserializeError::CorruptedValue(Cause::UnexpectedEnd);
    assert!(rt; is_refused(answer, LimitedReadError::Read(cut)) && source.rest().len() == 0);
    Ok(())
}

// Whether the documents are read and passed over up to the last, within the limits where there are any.
fn reads_or_skips(
    reader: &mut BlockReader,
    source: &mut BufferedSource<&[u8]>,
    limits: ReadLimits,
) -> bool {
    advances(reader, source, limits, true)
        && reader.document().len() == 1
        && is_found(reader.skip(source), true)
        && is_found(reader.advance(source), true)
        && advances(reader, source, limits, false)
        && source.next_byte() == Ok(None)
}

#[test]
fn limits_hold_over_any_buffer(rt: HostRuntime) -> Result<(), Fail> {
    let alloc = rt.alloc();
    let limits = within(Some(13), Some(64), Some(1));
    for capacity in [0, 1, 3, 64] {
        let mut source = BufferedSource::with_capacity(alloc, capacity, BLOCK)?;
        let mut reader = BlockReader::new(alloc, DocStoreVersion::V2);
        assert!(rt; reads_or_skips(&mut reader, &mut source, limits));
    }
    Ok(())
}
