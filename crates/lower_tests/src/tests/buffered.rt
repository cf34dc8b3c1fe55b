//! A source over a reader of std, with a buffer.

use std::alloc::Global;
use std::io;
use std::io::Read;
use std::test::Fail;
use tv_base::{ByteSource, ReadError};
use tv_io::BufferedSource;

// Gives a few bytes a call. One call fails, before which this many pass.
#[derive(Drop)]
struct SlowReader<'a> {
    rest: &'a [u8],
    step: usize,
    passes: Option<usize>,
}

impl<'a> Read for SlowReader<'a> {
    fn read(&mut self, buf: &mut [u8]) -> io::Result<usize> {
        if let Some(passes) = self.passes {
            if passes == 0 {
                self.passes = None;
                return Err(io::Error::from(io::ErrorKind::TimedOut));
            }
            self.passes = Some(passes - 1);
        }
        let count = self.rest.len().min(buf.len()).min(self.step);
        buf[..count].copy_from_slice(&self.rest[..count]);
        self.rest = &self.rest[count..];
        Ok(count)
    }
}

// Puts the next bytes after these, each time by another call of the source, and gives their number.
fn take_some<R: Read>(
    source: &mut BufferedSource<R>,
    bytes: &mut Vec<u8>,
    turn: usize,
) -> Result<usize, ReadError> {
    if turn % 3 == 0 {
        return source.append(bytes, 4);
    }
    if turn % 3 == 1 {
        let mut buf = [0; 3];
        return match source.read(&mut buf) {
            Ok(count) => {
                bytes.extend_from_slice(&buf[..count.min(3)])?;
                Ok(count)
            }
            Err(kind) => Err(ReadError::Io(kind)),
        };
    }
    match source.next_byte() {
        Ok(Some(byte)) => {
            bytes.push(byte)?;
            Ok(1)
        }
        Ok(None) => Ok(0),
        Err(kind) => Err(ReadError::Io(kind)),
    }
}

// All bytes of a source, and how many of its calls failed. An append that fails leaves no telling what it wrote.
fn take_all<R: Read>(
    alloc: Global,
    source: &mut BufferedSource<R>,
) -> Result<(Vec<u8>, usize), ReadError> {
    let mut bytes = Vec::new(alloc);
    let mut failed: usize = 0;
    for turn in 0..100 {
        let held = bytes.len();
        match take_some(source, &mut bytes, turn) {
            Ok(0) => return Ok((bytes, failed)),
            Ok(_) => {}
            Err(ReadError::Io(io::ErrorKind::TimedOut)) => {
                bytes.truncate(held);
                failed = failed.saturating_add(1);
            }
            Err(error) => return Err(error),
        }
    }
    Ok((bytes, failed))
}

const BYTES: &[u8] = b"\0\x81\xff\xff\0\0\x8aChillFish8\x07";

// Whether the source gives all bytes, up to the last one of the reader, and this many of its calls fail.
fn gives_all(alloc: Global, mut source: BufferedSource<SlowReader<'_>>, failures: usize) -> bool {
    let is_whole = match take_all(alloc, &mut source) {
        Ok((bytes, failed)) => bytes.as_slice() == BYTES && failed == failures,
        Err(_) => false,
    };
    is_whole && source.into_inner().rest.is_empty()
}

#[test]
fn the_bytes_of_a_reader_come_through_any_buffer(rt: HostRuntime) -> Result<(), Fail> {
    for capacity in [0, 1, 2, 3, 5, 64] {
        for step in [1, 2, 7, 64] {
            for passes in [None, Some(0), Some(1)] {
                let reader = SlowReader {
                    rest: BYTES,
                    step,
                    passes,
                };
                let source = BufferedSource::with_capacity(rt.alloc(), capacity, reader)?;
                assert!(rt; gives_all(rt.alloc(), source, usize::from(passes.is_some())));
            }
        }
    }
    Ok(())
}

// Whether the source lends what it has read of `abcdefgh` and is not taken yet, and passes over no more.
fn lends_first_bytes(source: &mut BufferedSource<SlowReader<'_>>) -> bool {
    source.buffered().is_empty()
        && !source.pass(1)
        && source.next_byte() == Ok(Some(b'a'))
        && source.buffered() == b"bcd".as_slice()
        && !source.pass(4)
        && source.pass(1)
        && source.buffered() == b"cd".as_slice()
}

// Whether the source then reads what it lends, fails, and reads the rest up to the end.
fn reads_last_bytes(source: &mut BufferedSource<SlowReader<'_>>) -> bool {
    let mut buf = [0; 6];
    source.read(&mut buf) == Ok(2)
        && source.read(&mut buf) == Err(io::ErrorKind::TimedOut)
        && source.read(&mut buf) == Ok(4)
        && buf == *b"efgh\0\0"
        && source.buffered().is_empty()
        && source.next_byte() == Ok(None)
}

#[test]
fn what_is_buffered_is_lent(rt: HostRuntime) -> Result<(), Fail> {
    let reader = SlowReader {
        rest: b"abcdefgh",
        step: 8,
        passes: Some(1),
    };
    let mut source = BufferedSource::with_capacity(rt.alloc(), 4, reader)?;
    let (is_lent, is_read) = (
        lends_first_bytes(&mut source),
        reads_last_bytes(&mut source),
    );
    assert!(rt; is_lent && is_read);
    Ok(())
}
