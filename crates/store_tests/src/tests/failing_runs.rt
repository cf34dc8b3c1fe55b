//! Runs over lines where one read or one write fails, at each in turn.

use std::alloc::{AllocError, Global};
use std::io;
use std::test::Fail;
use tantivy_schema::common::{FaultSink, FaultSource, SliceSource, VecSink};
use tantivy_schema::{Halt, RunEnd, run, try_run};

// A schema of one stored field of texts, and three documents, of which the second is refused. The last line has no line feed.
const INPUT: &[u8] =
    b"[{\"name\":\"t\",\"type\":\"text\",\"options\":{\"stored\":true}}]\n{\"t\":\"a\"}\n[1]\n{}";

// The answers to the documents.
const ANSWERS: [&[u8]; 3] = [
    b"8100000000008161 {\"t\":[\"a\"]}\n",
    b"error InvalidJson\n",
    b"80 {}\n",
];

// The first answers, this many of them.
fn answers(alloc: Global, count: usize) -> Result<Vec<u8>, AllocError> {
    let mut bytes = Vec::new(alloc);
    for answer in ANSWERS.iter().take(count) {
        bytes.extend_from_slice(answer)?;
    }
    Ok(bytes)
}

// After this many calls none is made.
const NEVER: u64 = u64::MAX;

// The kinds of the errors.
const KINDS: [io::ErrorKind; 3] = [
    io::ErrorKind::BrokenPipe,
    io::ErrorKind::Interrupted,
    io::ErrorKind::Other,
];

// How a run ends and what it has written, where the read after this many fails, or the write.
fn ran(
    alloc: Global,
    input: &[u8],
    reads: u64,
    writes: u64,
    kind: io::ErrorKind,
) -> (Result<RunEnd, Halt>, VecSink) {
    let mut source = FaultSource::new(SliceSource::new(input), reads, kind);
    let mut sink = FaultSink::new(VecSink::new(alloc), writes, kind);
    let end = try_run(alloc, &mut source, &mut sink);
    (end, sink.into_inner())
}

// How many documents are answered where the read after this many fails: those whose line has come whole. A first read at the end of the
// input finds the end of the last line, and a second one finds no line after that.
fn answered(place: usize) -> usize {
    let feeds = INPUT
        .iter()
        .take(place)
        .filter(|byte| **byte == b'\n')
        .count();
    if place > INPUT.len() {
        ANSWERS.len()
    } else {
        feeds.saturating_sub(1)
    }
}

#[test]
fn each_read_of_a_run_fails(rt: HostRuntime) -> Result<(), Fail> {
    let reads = INPUT.len() + 2;
    for kind in KINDS {
        for place in 0..=reads {
            let (end, sink) = ran(rt.alloc(), INPUT, place as u64, NEVER, kind);
            let halted = Err(Halt::Read(kind));
            let expected = if place == reads {
                Ok(RunEnd::Done)
            } else {
                halted
            };
            assert!(rt; end == expected, "at {place}");
            let written = answers(rt.alloc(), answered(place))?;
            assert!(rt; sink.as_slice() == written.as_slice(), "at {place}");
        }
    }
    Ok(())
}

#[test]
fn each_write_of_a_run_fails(rt: HostRuntime) -> Result<(), Fail> {
    let all = answers(rt.alloc(), 3)?;
    let refused = b"error InvalidJson\n".as_slice();
    let runs = [
        (INPUT, all.as_slice(), RunEnd::Done),
        (b"{", refused, RunEnd::BadSchema),
    ];
    for (input, output, whole) in runs {
        for kind in KINDS {
            for place in 0..=output.len() {
                let (end, sink) = ran(rt.alloc(), input, NEVER, place as u64, kind);
                let is_whole = place == output.len();
                let halted = Err(Halt::Write(kind));
                assert!(rt;
                    end == (if is_whole { Ok(whole) } else { halted }),
                    "at {place}"
                );
                assert!(rt; Some(sink.as_slice()) == output.get(..place), "at {place}");
            }
        }
    }
    Ok(())
}

#[test]
fn a_run_is_broken_where_a_read_fails(rt: HostRuntime) {
    let mut source = FaultSource::new(SliceSource::new(INPUT), 0, io::ErrorKind::BrokenPipe);
    let mut sink = VecSink::new(rt.alloc());
    assert!(rt; run(rt.alloc(), &mut source, &mut sink) == RunEnd::Broken);
    assert!(rt; sink.as_slice().is_empty());
}
