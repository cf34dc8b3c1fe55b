//! Sources and sinks of which one call fails: which call that is, and what is read or written around it.

ghost use Rattle.std.specs.Prelude.{◌≡◌, Err};

use std::alloc::Global;
use std::io;
use std::test::Fail;
use tv_base::take::{take_text, take_u32, take_vint};
use tv_base::write::{write_text, write_u32, write_vint};
use tv_base::{
    BinarySerializable, ByteSink, ByteSource, ReadError, SliceSource, VecSink, WriteError,
};
use tv_io::{FaultSink, FaultSource};

// The first read fails, whatever the source inside, and reads nothing of it.
fn first_read_fails<S: ByteSource>(
    inner: S,
    kind: io::ErrorKind,
) -> (Result<usize, io::ErrorKind>, S)
    ensures answer { result.0 ≡ Err kind }
    ensures inner { result.1 ≡ inner }
{
    let mut source = FaultSource::new(inner, 0, kind);
    let answer = source.read(&mut [0; 4]);
    (answer, source.into_inner())
}

// The first write fails, whatever the sink inside, and writes nothing to it.
fn first_write_fails<K: ByteSink>(
    inner: K,
    kind: io::ErrorKind,
) -> (Result<usize, io::ErrorKind>, K)
    ensures answer { result.0 ≡ Err kind }
    ensures inner { result.1 ≡ inner }
{
    let mut sink = FaultSink::new(inner, 0, kind);
    let answer = sink.write(&[7]);
    (answer, sink.into_inner())
}

#[test]
fn first_calls_fail(rt: HostRuntime) {
    let kind = io::ErrorKind::PermissionDenied;
    let (answer, source) = first_read_fails(SliceSource::new(b"abc"), kind);
    assert!(rt; (answer, source.rest()) == (Err(kind), b"abc".as_slice()));
    let (answer, sink) = first_write_fails(VecSink::new(rt.alloc()), kind);
    assert!(rt; (answer, sink.as_slice()) == (Err(kind), b"".as_slice()));
}

// The calls before each read of a source of which the second one fails, and what is read.
const READS: [(u64, Result<usize, io::ErrorKind>); 5] = [
    (0, Ok(1)),
    (1, Err(io::ErrorKind::TimedOut)),
    (2, Ok(1)),
    (3, Ok(1)),
    (4, Ok(0)),
];

// Whether the next read gives this, after this many calls, and one into no bytes gives none.
fn reads_next(
    source: &mut FaultSource<SliceSource<'_>>,
    buf: &mut [u8],
    calls: u64,
    answer: Result<usize, io::ErrorKind>,
) -> bool {
    source.calls() == calls && source.read(buf) == answer && source.read(&mut []) == Ok(0)
}

#[test]
fn one_read_fails(rt: HostRuntime) {
    let mut source = FaultSource::new(SliceSource::new(b"abc"), 1, io::ErrorKind::TimedOut);
    let mut buf = [0; 8];
    assert!(rt; source.read(&mut []) == Ok(0) && source.calls() == 0);
    assert!(rt; source.buffered().is_empty() && !source.pass(1));
    for (calls, answer) in READS {
        assert!(rt; reads_next(&mut source, &mut buf, calls, answer));
    }
    assert!(rt; source.calls() == 5 && buf == *b"c\0\0\0\0\0\0\0");
    assert!(rt; source.into_inner().rest().is_empty());
}

// The calls before each write to a sink of which the third one fails, and what is written.
const WRITES: [(u64, Result<usize, io::ErrorKind>); 4] = [
    (0, Ok(1)),
    (1, Ok(1)),
    (2, Err(io::ErrorKind::StorageFull)),
    (3, Ok(1)),
];

// Whether the next write answers this, after this many calls, and one of no bytes writes none.
fn writes_next(
    sink: &mut FaultSink<VecSink>,
    calls: u64,
    answer: Result<usize, io::ErrorKind>,
) -> bool {
    sink.calls() == calls && sink.write(b"abc") == answer && sink.write(&[]) == Ok(0)
}

#[test]
fn one_write_fails(rt: HostRuntime) {
    let sink = VecSink::new(rt.alloc());
    let mut sink = FaultSink::new(sink, 2, io::ErrorKind::StorageFull);
    assert!(rt; sink.write(&[]) == Ok(0));
    for (calls, answer) in WRITES {
        assert!(rt; writes_next(&mut sink, calls, answer));
    }
    assert!(rt; sink.calls() == 4);
    assert!(rt; sink.into_inner().as_slice() == b"aaa".as_slice());
}

// The kinds of the errors.
const KINDS: [io::ErrorKind; 3] = [
    io::ErrorKind::TimedOut,
    io::ErrorKind::Interrupted,
    io::ErrorKind::Other,
];

// The numbers 128 and 65535, and a text.
const PARTS: &[u8] = b"\0\x81\xff\xff\0\0\x8aChillFish8";

fn write_parts<K: ByteSink>(sink: &mut K) -> Result<(), WriteError> {
    write_vint(sink, 128)?;
    write_u32(sink, 65535)?;
    write_text(sink, "ChillFish8")
}

// Whether these parts are read.
fn reads_parts<S: ByteSource>(
    alloc: Global,
    source: &mut S,
    count: &mut u64,
) -> Result<bool, ReadError> {
    let numbers = (take_vint(source, count)?, take_u32(source, count)?);
    let mut text = String::new(alloc);
    take_text(alloc, source, count, &mut text)?;
    Ok(numbers == (128, 65535) && text.as_str() == "ChillFish8")
}

#[test]
fn parts_are_read_up_to_the_call_that_fails(rt: HostRuntime) {
    for kind in KINDS {
        for place in 0..=PARTS.len() {
            let mut source = FaultSource::new(SliceSource::new(PARTS), place as u64, kind);
            let mut count = 0;
            let answer = reads_parts(rt.alloc(), &mut source, &mut count);
            let is_whole = place == PARTS.len();
            let expected = if is_whole {
                Ok(true)
            } else {
                Err(ReadError::Io(kind))
            };
            let calls = place as u64 + u64::from(!is_whole);
            assert!(rt; (answer, count, source.calls()) == ((expected, place as u64, calls)));
            assert!(rt; Some(source.into_inner().rest()) == PARTS.get(place..));
        }
    }
}

#[test]
fn parts_are_written_up_to_the_call_that_fails(rt: HostRuntime) {
    for kind in KINDS {
        for place in 0..=PARTS.len() {
            let mut sink = FaultSink::new(VecSink::new(rt.alloc()), place as u64, kind);
            let answer = write_parts(&mut sink);
            let is_whole = place == PARTS.len();
            let expected = if is_whole {
                Ok(())
            } else {
                Err(WriteError(kind))
            };
            let calls = place as u64 + u64::from(!is_whole);
            assert!(rt; (answer, sink.calls()) == (expected, calls), "at {place}");
            assert!(rt; Some(sink.into_inner().as_slice()) == PARTS.get(..place));
        }
    }
}

// The number that the bytes encode, where one read fails.
fn read_failing(alloc: Global, bytes: &[u8], passes: u64) -> Result<u64, ReadError> {
    let source = SliceSource::new(bytes);
    let mut source = FaultSource::new(source, passes, io::ErrorKind::TimedOut);
    u64::deserialize(alloc, &mut source)
}

// What is written of a number, where one write fails.
fn write_failing(alloc: Global, passes: u64) -> (Result<(), WriteError>, VecSink) {
    let mut sink = FaultSink::new(VecSink::new(alloc), passes, io::ErrorKind::StorageFull);
    let written = 20u64.serialize(&mut sink);
    (written, sink.into_inner())
}

#[test]
fn numbers_fail_with_their_call(rt: HostRuntime) -> Result<(), Fail> {
    let full = Err(WriteError(io::ErrorKind::StorageFull));
    let (written, sink) = write_failing(rt.alloc(), 3);
    assert!(rt; (written, sink.as_slice()) == (full, [20, 0, 0].as_slice()));
    let (written, sink) = write_failing(rt.alloc(), 8);
    assert!(rt; written == Ok(()));
    let failed = read_failing(rt.alloc(), sink.as_slice(), 3);
    assert!(rt; failed == Err(ReadError::Io(io::ErrorKind::TimedOut)));
    assert!(rt; read_failing(rt.alloc(), sink.as_slice(), 8)? == 20);
    Ok(())
}
