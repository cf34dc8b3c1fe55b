//! Documents that are read within limits.

use std::alloc::{AllocError, Global};
use std::test::Fail;
use tantivy_schema::common::LimitedSource;
use tv_base::{ByteSource, Cause, SliceSource};
use tv_store::{
    DeserializeError, DirectDecoder, DocStoreVersion, LimitedReadError, ReadLimit, ReadLimits,
    Step, read_document_within,
};

// One pair: an array of an array of "abc" and null, and then two bytes that belong to no document.
const BYTES: &[u8] = b"\x81\0\0\0\0\x0c\x82\x0c\x81\0\x83abc\x0b\xff\xff";

// How many pairs are read of bytes within limits, or why none is, and how many bytes are left then.
fn read(
    alloc: Global,
    bytes: &[u8],
    limits: ReadLimits,
) -> (Result<usize, LimitedReadError>, usize) {
    let mut source = SliceSource::new(bytes);
    let answer = match read_document_within(alloc, &mut source, DocStoreVersion::V2, limits) {
        Ok(document) => Ok(document.len()),
        Err(error) => Err(error),
    };
    (answer, source.rest().len())
}

// Whether one pair is read of bytes within limits, and this many bytes are left then.
fn reads(alloc: Global, bytes: &[u8], limits: ReadLimits, left: usize) -> bool {
    read(alloc, bytes, limits) == (Ok(1), left)
}

// Whether bytes are refused at this limit, and this many of them are left then.
fn refuses(alloc: Global, bytes: &[u8], limits: ReadLimits, limit: ReadLimit, left: usize) -> bool {
    read(alloc, bytes, limits) == (Err(LimitedReadError::Limit(limit)), left)
}

// Limits under which any number of bytes may be taken.
fn within(heap_bytes: Option<u64>, depth: Option<u32>) -> ReadLimits {
    ReadLimits {
        bytes: None,
        heap_bytes,
        depth,
    }
}

#[test]
fn documents_are_read_within_limits(rt: HostRuntime) -> Result<(), Fail> {
    let limits = [
        (None, None),
        (Some(100), Some(2)),
        (Some(100), None),
        (None, Some(2)),
    ];
    for (heap_bytes, depth) in limits {
        assert!(rt; reads(rt.alloc(), BYTES, within(heap_bytes, depth), 2));
    }
    Ok(())
}

#[test]
fn lists_past_the_limit_are_refused_behind_their_head(rt: HostRuntime) -> Result<(), Fail> {
    let alloc = rt.alloc();
    assert!(rt;
        refuses(alloc, BYTES, within(None, Some(1)), ReadLimit::Depth, 8)
            && refuses(alloc, BYTES, within(Some(0), Some(0)), ReadLimit::Depth, 10)
    );
    Ok(())
}

// The text takes four bytes of the heap, with its length.
#[test]
fn heaps_past_the_limit_are_refused(rt: HostRuntime) -> Result<(), Fail> {
    assert!(rt;
        refuses(
            rt.alloc(),
            BYTES,
            within(Some(3), None),
            ReadLimit::HeapBytes,
            3
        )
    );
    Ok(())
}

// One pair: an object in an object, as older stores hold them, and then two bytes that belong to no document.
const OLDER: &[u8] = b"\x81\0\0\0\0\x08{\"a\":{\"b\":1}}\xff\xff";

// It is refused once it has come.
#[test]
fn objects_of_older_stores_nest_within_the_limit(rt: HostRuntime) -> Result<(), Fail> {
    let alloc = rt.alloc();
    assert!(rt;
        reads(alloc, OLDER, within(None, Some(2)), 2)
            && refuses(alloc, OLDER, within(None, Some(0)), ReadLimit::Depth, 2)
            && refuses(alloc, OLDER, within(None, Some(1)), ReadLimit::Depth, 2)
    );
    Ok(())
}

// One pair of field 0: as many objects of older stores in each other.
fn older_objects(alloc: Global, depth: u32) -> Result<Vec<u8>, AllocError> {
    let mut bytes = b"\x81\0\0\0\0\x08".to_vec(alloc)?;
    for _ in 0..depth {
        bytes.extend_from_slice(b"{\"a\":")?;
    }
    bytes.push(b'1')?;
    for _ in 0..depth {
        bytes.push(b'}')?;
    }
    Ok(bytes)
}

// One pair of field 0: as many arrays in each other, and null in the innermost.
fn arrays(alloc: Global, depth: u32) -> Result<Vec<u8>, AllocError> {
    let mut bytes = b"\x81\0\0\0\0".to_vec(alloc)?;
    for _ in 0..depth {
        bytes.extend_from_slice(b"\x0c\x81")?;
    }
    bytes.push(0x0b)?;
    Ok(bytes)
}

// Whether bytes are read within a limit of this depth, and refused within one that is smaller by one. They are dropped.
fn nests(alloc: Global, bytes: Vec<u8>, depth: u32) -> bool {
    let (answer, _) = read(alloc, bytes.as_slice(), within(None, Some(depth)));
    let smaller = within(None, Some(depth.saturating_sub(1)));
    let (refused, _) = read(alloc, bytes.as_slice(), smaller);
    answer == Ok(1) && refused == Err(LimitedReadError::Limit(ReadLimit::Depth))
}

// Past `MAX_DEPTH` levels too, and on the machine's stack no more of them than that.
#[test]
fn deep_values_nest_within_deep_limits(rt: HostRuntime) -> Result<(), Fail> {
    let alloc = rt.alloc();
    assert!(rt; nests(alloc, older_objects(alloc, 100)?, 100));
    assert!(rt; nests(alloc, arrays(alloc, 100000)?, 100000));
    Ok(())
}

// Limits under which this many bytes may be taken.
fn of_bytes(bytes: u64) -> ReadLimits {
    ReadLimits {
        bytes: Some(bytes),
        heap_bytes: None,
        depth: None,
    }
}

// The document has 15 bytes, and bytes 11 to 13 are those of the text.
#[test]
fn no_more_bytes_are_taken_than_the_limit(rt: HostRuntime) -> Result<(), Fail> {
    let alloc = rt.alloc();
    for (bytes, left) in [(0, 17), (1, 16), (12, 5), (14, 3)] {
        assert!(rt; refuses(alloc, BYTES, of_bytes(bytes), ReadLimit::Bytes, left));
    }
    assert!(rt; reads(alloc, BYTES, of_bytes(15), 2));
    Ok(())
}

// How many steps a decoder takes within limits, and how it ends.
fn steps_within(alloc: Global, limits: ReadLimits) -> (usize, Result<Step, LimitedReadError>, u64) {
    let mut source = SliceSource::new(BYTES);
    let mut decoder = DirectDecoder::new(alloc, DocStoreVersion::V2);
    let mut steps: usize = 0;
    for _ in 0..100u8 {
        let step = decoder.step_within(&mut source, limits);
        if step != Ok(Step::More) {
            return (steps, step, decoder.bytes_read());
        }
        steps = steps.saturating_add(1);
    }
    (steps, Ok(Step::More), decoder.bytes_read())
}

// The parts are the number of the pairs, the field, the head of each array, the length of the text, its bytes, and null.
#[test]
fn steps_are_within_limits(rt: HostRuntime) -> Result<(), Fail> {
    let alloc = rt.alloc();
    let none = ReadLimits::default();
    assert!(rt; steps_within(alloc, none) == (6, Ok(Step::Done), 15));
    let deep = ReadLimits {
        depth: Some(1),
        ..none
    };
    let error = Err(LimitedReadError::Limit(ReadLimit::Depth));
    assert!(rt; steps_within(alloc, deep) == (3, error, 9));
    let long = ReadLimits {
        bytes: Some(12),
        ..none
    };
    let error = Err(LimitedReadError::Limit(ReadLimit::Bytes));
    assert!(rt; steps_within(alloc, long) == (5, error, 12));
    Ok(())
}

#[test]
fn a_limited_source_ends(rt: HostRuntime) -> Result<(), Fail> {
    let mut source = SliceSource::new(BYTES);
    let mut first = LimitedSource::new(&mut source, 8);
    let result = read_document_within(
        rt.alloc(),
        &mut first,
        DocStoreVersion::V2,
        ReadLimits::default(),
    );
    let cut = LimitedReadError::Read(DeserializeError::CorruptedValue(Cause::UnexpectedEnd));
    let is_cut = match result {
        Ok(_) => false,
        Err(error) => error == cut,
    };
    assert!(rt; is_cut && first.limit() == 0 && first.next_byte() == Ok(None));
    assert!(rt; source.rest().len() == 9);
    Ok(())
}
