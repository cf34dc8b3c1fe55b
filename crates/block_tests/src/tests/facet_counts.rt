//! Documents counted by the children of a facet. The expected bytes are worked out by hand.

use std::alloc::Global;
use std::test::Fail;
use tv_blocks::status::error_answer;
use tv_blocks::{Answer, BlockError, count_facets};

// Where nothing was written.
const KEPT: u8 = 0xa5;

// Document 1 has `/a/b`, `/a/d` and `/a/b/x`, 2 has `/a/b/c`, 3 has `/a`, and 4 has `/e/f`.
const PAIRS: &[u8] = b"\
\x01\0\0\0\0\0\0\0\x03\0\0\0\0\0\0\0a\0b\
\x02\0\0\0\0\0\0\0\x05\0\0\0\0\0\0\0a\0b\0c\
\x01\0\0\0\0\0\0\0\x03\0\0\0\0\0\0\0a\0d\
\x01\0\0\0\0\0\0\0\x05\0\0\0\0\0\0\0a\0b\0x\
\x03\0\0\0\0\0\0\0\x01\0\0\0\0\0\0\0a\
\x04\0\0\0\0\0\0\0\x03\0\0\0\0\0\0\0e\0f";

// Below `/a`: 2 documents at `/a/b`, and 1 at `/a/d`.
const BELOW: &[u8] = b"\
\x02\0\0\0\0\0\0\0\x03\0\0\0\0\0\0\0a\0b\
\x01\0\0\0\0\0\0\0\x03\0\0\0\0\0\0\0a\0d";

// Below the root: 3 at `/a`, and 1 at `/e`.
const AT_ROOT: &[u8] = b"\
\x03\0\0\0\0\0\0\0\x01\0\0\0\0\0\0\0a\
\x01\0\0\0\0\0\0\0\x01\0\0\0\0\0\0\0e";

// Whether the documents are counted below `/a`, and nothing is written where there is too little room.
fn are_counted_below(alloc: Global) -> bool {
    let mut counts = [KEPT; 40];
    let mut short = [KEPT; 37];
    let needed = BlockError::TooSmall {
        bytes: 38,
        lines: 0,
    };
    count_facets(alloc, b"a", PAIRS, &mut counts) == Ok(38)
        && counts.starts_with(BELOW)
        && counts.ends_with(&[KEPT; 2])
        && count_facets(alloc, b"a", PAIRS, &mut short) == Err(needed)
        && short == [KEPT; 37]
}

// Whether the documents are counted below the root, and none where there is none.
fn are_counted_at_root(alloc: Global) -> bool {
    let mut counts = [KEPT; 40];
    count_facets(alloc, b"", PAIRS, &mut counts) == Ok(34)
        && counts.starts_with(AT_ROOT)
        && count_facets(alloc, b"g", PAIRS, &mut counts) == Ok(0)
        && count_facets(alloc, b"", b"", &mut counts) == Ok(0)
}

#[test]
fn documents_are_counted(rt: HostRuntime) -> Result<(), Fail> {
    assert!(rt; are_counted_below(rt.alloc()) && are_counted_at_root(rt.alloc()));
    Ok(())
}

#[test]
fn pairs_are_refused(rt: HostRuntime) -> Result<(), Fail> {
    let alloc = rt.alloc();
    let mut none = [KEPT; 64];
    let parent = count_facets(alloc, b"\xff", b"\0", &mut none);
    assert!(rt; parent == Err(BlockError::NotUtf8));
    // (the second record is cut in its number, its length and its facet)
    for end in [20, 27, 34, 39] {
        let cut = count_facets(alloc, b"a", &PAIRS[..end], &mut none);
        assert!(rt; cut == Err(BlockError::BadPair { start: 19 }));
    }
    let no_text = count_facets(
        alloc,
        b"a",
        b"\0\0\0\0\0\0\0\0\x01\0\0\0\0\0\0\0\xff",
        &mut none,
    );
    assert!(rt; no_text == Err(BlockError::BadPair { start: 0 }));
    let longest = count_facets(
        alloc,
        b"a",
        b"\0\0\0\0\0\0\0\0\xff\xff\xff\xff\xff\xff\xff\xffa",
        &mut none,
    );
    assert!(rt; longest == Err(BlockError::BadPair { start: 0 }));
    assert!(rt; none == [KEPT; 64]);
    let told = Answer {
        status: 14,
        detail: 0,
        place: 7,
        bytes: 0,
        lines: 0,
    };
    assert!(rt; error_answer(BlockError::BadPair { start: 7 }) == told);
    Ok(())
}
