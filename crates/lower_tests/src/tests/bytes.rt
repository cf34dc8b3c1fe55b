//! How much is counted, where a text is read to, what sources lend, and what is written before a sink fails.

ghost use Rattle.std.specs.Prelude.{List, length};

use std::alloc::Global;
use std::io;
use std::test::Fail;
use tv_base::take::{take, take_text, take_u8, take_u32, take_u64, take_vint};
use tv_base::write::{
    write_all, write_sized, write_text, write_u8, write_u32, write_u64, write_vint,
};
use tv_base::{ByteSink, ByteSource, Cause, ReadError, SliceSource, VecSink, WriteError};
use tv_io::ReadSource;

// The largest number.
const LARGEST: [u8; 10] = *b"\x7f\x7f\x7f\x7f\x7f\x7f\x7f\x7f\x7f\x81";

// Bytes, the number at their start or its error, and how many bytes are taken.
const NUMBERS: [(&[u8], Result<u64, ReadError>, u64); 4] = [
    (b"\x85\x01", Ok(5), 1),
    (b"\x05\x80\x01", Ok(5), 2),
    (b"\x05", Err(ReadError::Corrupted(Cause::UnexpectedEnd)), 1),
    (&LARGEST, Ok(u64::MAX), 10),
];

// Whether the source begins with this number, or fails so, and this many bytes are counted.
fn takes_number<S: ByteSource>(
    source: &mut S,
    number: &Result<u64, ReadError>,
    taken: u64,
) -> bool {
    let mut count = 0;
    take_vint(source, &mut count) == *number && count == taken
}

#[test]
fn the_bytes_of_numbers_are_counted(rt: HostRuntime) {
    for (bytes, number, taken) in &NUMBERS {
        assert!(rt; takes_number(&mut SliceSource::new(bytes), number, *taken));
    }
    let mut reader = ReadSource::new(LARGEST.as_slice());
    assert!(rt; takes_number(&mut reader, &Ok(u64::MAX), 10));
}

const VALUES: &[u8] = b"\x80\x55\xff\xff\0\0\x14\0\0\0\0\0\0\0\x8aChillFish8\x07";

// Whether the source begins with the numbers of these values.
fn takes_numbers(source: &mut SliceSource<'_>, count: &mut u64) -> bool {
    take_vint(source, count) == Ok(0)
        && take_u8(source, count) == Ok(0x55)
        && take_u32(source, count) == Ok(65535)
        && take_u64(source, count) == Ok(20)
}

// Whether the source goes on with their text, which replaces what the string held.
fn takes_text(
    alloc: Global,
    source: &mut SliceSource<'_>,
    count: &mut u64,
    mut text: String,
) -> bool {
    take_text(alloc, source, count, &mut text) == Ok(()) && text.as_str() == "ChillFish8"
}

#[test]
fn the_bytes_of_values_are_counted(rt: HostRuntime) -> Result<(), Fail> {
    let text = String::from_str(rt.alloc(), "before")?;
    let mut source = SliceSource::new(VALUES);
    let mut count = 0;
    assert!(rt; takes_numbers(&mut source, &mut count) && count == 14);
    assert!(rt;
        takes_text(rt.alloc(), &mut source, &mut count, text)
            && count == 25
            && source.rest() == [7].as_slice()
    );
    Ok(())
}

// Whether more was taken than can be counted.
fn is_too_long(error: Option<ReadError>) -> bool {
    error == Some(ReadError::Corrupted(Cause::TooLong))
}

#[test]
fn no_more_is_counted_than_fits(rt: HostRuntime) {
    let mut source = SliceSource::new(&[7, 8]);
    let mut count = u64::MAX - 1;
    let taken = take(&mut source, &mut count, &mut [1; 2]);
    assert!(rt; is_too_long(taken.err()) && source.rest() == [8].as_slice());
    let mut source = SliceSource::new(&[1, 0, 0, 0, 0]);
    let mut count = u64::MAX - 3;
    let taken = take_u32(&mut source, &mut count);
    assert!(rt; is_too_long(taken.err()) && count == u64::MAX && source.rest().len() == 2);
}

// Whether a source of the bytes 1, 2 and 3 lends what is left of them, and passes over no more.
fn lends_slice(source: &mut SliceSource<'_>) -> bool {
    source.buffered() == [1, 2, 3].as_slice()
        && source.pass(2)
        && source.buffered() == [3].as_slice()
        && !source.pass(2)
        && source.pass(1)
        && source.buffered().is_empty()
}

#[test]
fn what_sources_lend(rt: HostRuntime) {
    assert!(rt; lends_slice(&mut SliceSource::new(&[1, 2, 3])));
    let mut reader = ReadSource::new([1, 2].as_slice());
    assert!(rt; reader.buffered().is_empty() && !reader.pass(1));
    let mut byte = [0; 1];
    assert!(rt; reader.read(&mut byte) == Ok(1) && byte == [1]);
}

// Takes one byte at a time, and fails where it has no room left.
#[derive(Drop)]
struct SmallSink {
    held: VecSink,
    room: usize,
    failures: u64,
    last: Option<io::ErrorKind>,
}

impl ByteSink for SmallSink {
    ghost is_known = { λ _. Unit {0} };

    ghost held = { λ s. ⟦<VecSink as ByteSink>⟧.held s.held };

    ghost failures = { λ s. record { number = s.failures; last = s.last } };

    fn write(&mut self, buf: &[u8]) -> Result<usize, io::ErrorKind> {
        if buf.is_empty() {
            return Ok(0);
        }
        if self.room == 0 {
            self.failures = self.failures.saturating_add(1);
            self.last = Some(io::ErrorKind::StorageFull);
            return Err(io::ErrorKind::StorageFull);
        }
        match self.held.write(&buf[..1]) {
            Ok(count) => {
                self.room -= 1;
                Ok(count)
            }
            Err(kind) => {
                self.failures = self.failures.saturating_add(1);
                self.last = Some(kind);
                Err(kind)
            }
        }
    }
}

fn write_each<K: ByteSink>(sink: &mut K) -> Result<(), WriteError> {
    write_vint(sink, 127)?;
    write_vint(sink, 128)?;
    write_u8(sink, 0x55)?;
    write_u32(sink, 65535)?;
    write_u64(sink, 20)?;
    write_text(sink, "ChillFish8")?;
    write_sized(sink, &[0x41, 0x42])?;
    write_all(sink, &[7])
}

#[test]
fn what_fits_is_written(rt: HostRuntime) {
    let mut small = SmallSink {
        held: VecSink::new(rt.alloc()),
        room: 20,
        failures: 0,
        last: None,
    };
    assert!(rt; write_each(&mut small) == Err(WriteError(io::ErrorKind::StorageFull)));
    let first = b"\xff\0\x81\x55\xff\xff\0\0\x14\0\0\0\0\0\0\0\x8aChi";
    assert!(rt; small.held.as_slice() == first.as_slice());
    assert!(rt; small.failures == 1);
}
