//! Numbers, truth values, texts and byte strings as the store has them: read from sources of several kinds, and written to sinks.

use crate::shared;
use anyhow::{Context, Result, anyhow};
use case_words as words;
use case_words::leaves::facet;
use std::alloc::Global;
use std::fmt::Write;
use std::io;
use std::io::Read;
use std::str::FromStr;
use tv_base::{
    BinarySerializable, ByteSink, ByteSource, Facet, SliceSource, VInt, VecSink, WriteError,
};
use tv_io::{ReadSource, WriteSink};

/// What a call about numbers returns.
pub fn answer(alloc: Global, call: &[&str]) -> Result<String> {
    let (name, call) = words::first(call)?;
    match name {
        "read" => read(alloc, call),
        "find" => found(alloc, call),
        "encode" => encoded(alloc, call),
        "write" => write(alloc, call),
        _ => Err(anyhow!("an unknown call about numbers")),
    }
}

// The number that bytes begin with, and how many bytes it has.
fn found(alloc: Global, call: &[&str]) -> Result<String> {
    let bytes = shared::bytes(alloc, call)?;
    match VInt::from_slice(bytes.as_slice()) {
        Some((number, length)) => Ok(format!(in alloc; "{number} {length}")?),
        None => words::none(alloc),
    }
}

// The bytes of a number.
fn encoded(alloc: Global, call: &[&str]) -> Result<String> {
    let (bytes, length) = VInt(words::number(words::one(call)?)?).spelling();
    words::digits(alloc, bytes.get(..length).context("ten bytes at most")?)
}

// Gives this many of its bytes, and then fails with errors of this kind.
#[derive(Drop)]
struct FailingReader<'a> {
    rest: &'a [u8],
    good: usize,
    kind: io::ErrorKind,
}

impl<'a> Read for FailingReader<'a> {
    fn read(&mut self, buf: &mut [u8]) -> io::Result<usize> {
        if self.good == 0 {
            return Err(io::Error::from(self.kind));
        }
        let count = self.rest.len().min(buf.len()).min(self.good);
        buf[..count].copy_from_slice(&self.rest[..count]);
        self.rest = &self.rest[count..];
        self.good -= count;
        Ok(count)
    }
}

// The kind of a failure.
fn error_kind(word: &str) -> Result<io::ErrorKind> {
    match word {
        "Interrupted" => Ok(io::ErrorKind::Interrupted),
        "TimedOut" => Ok(io::ErrorKind::TimedOut),
        _ => Err(anyhow!("an unknown kind of failure")),
    }
}

// What a source of bytes reads as values of some kinds, and the bytes that it has left.
fn read(alloc: Global, call: &[&str]) -> Result<String> {
    let (source, kinds, digits) = words::three(call)?;
    let bytes = words::bytes(alloc, digits)?;
    let (source, failure) = words::parted(source);
    match source {
        "whole" => read_whole(alloc, kinds, bytes.as_slice()),
        "reader" => read_through(alloc, kinds, bytes.as_slice()),
        "fails" => read_failing(alloc, kinds, bytes.as_slice(), failure),
        _ => Err(anyhow!("an unknown source")),
    }
}

// What is read of bytes that are there at once.
fn read_whole(alloc: Global, kinds: &str, bytes: &[u8]) -> Result<String> {
    let mut whole = SliceSource::new(bytes);
    let values = read_all(alloc, &mut whole, kinds)?;
    ended(alloc, values.as_str(), whole.rest())
}

// What is read through a reader of std.
fn read_through(alloc: Global, kinds: &str, bytes: &[u8]) -> Result<String> {
    let mut reader = ReadSource::new(bytes);
    let values = read_all(alloc, &mut reader, kinds)?;
    ended(alloc, values.as_str(), reader.into_inner())
}

// What is read through a reader that gives as many bytes as the failure says, and then fails.
fn read_failing(alloc: Global, kinds: &str, bytes: &[u8], failure: &str) -> Result<String> {
    let (good, kind) = words::parted(failure);
    let mut reader = ReadSource::new(FailingReader {
        rest: bytes,
        good: words::number(good)?,
        kind: error_kind(kind)?,
    });
    let values = read_all(alloc, &mut reader, kinds)?;
    ended(alloc, values.as_str(), reader.into_inner().rest)
}

// Values that were read, and the bytes that are left.
fn ended(alloc: Global, values: &str, rest: &[u8]) -> Result<String> {
    let rest = words::digits(alloc, rest)?;
    Ok(format!(in alloc; "{values}left {rest}")?)
}

// What values of these kinds are read, one after the other.
fn read_all<S: ByteSource>(alloc: Global, source: &mut S, kinds: &str) -> Result<String> {
    let mut values = String::new(alloc);
    for kind in kinds.split(' ') {
        let value = read_one(alloc, source, kind)?;
        write!(values, "{value}, ")?;
    }
    Ok(values)
}

// What is read as a value of this kind.
fn read_one<S: ByteSource>(alloc: Global, source: &mut S, kind: &str) -> Result<String> {
    match kind {
        "vint" => match VInt::deserialize(alloc, source) {
            Ok(number) => words::plain(alloc, &number.0),
            Err(error) => words::error(alloc, error),
        },
        "u8" => words::told(alloc, u8::deserialize(alloc, source)),
        "u32" => words::told(alloc, u32::deserialize(alloc, source)),
        "u64" => words::told(alloc, u64::deserialize(alloc, source)),
        "i64" => words::told(alloc, i64::deserialize(alloc, source)),
        "u128" => words::told(alloc, u128::deserialize(alloc, source)),
        "bool" => words::told(alloc, bool::deserialize(alloc, source)),
        _ => read_bytes(alloc, source, kind),
    }
}

// What is read as a text, as a byte string or as a facet.
fn read_bytes<S: ByteSource>(alloc: Global, source: &mut S, kind: &str) -> Result<String> {
    match kind {
        "text" => match String::deserialize(alloc, source) {
            Ok(text) => words::quoted(alloc, text.as_str()),
            Err(error) => words::error(alloc, error),
        },
        "bytes" => match Vec::deserialize(alloc, source) {
            Ok(bytes) => words::digits(alloc, &bytes),
            Err(error) => words::error(alloc, error),
        },
        "facet" => match Facet::deserialize(alloc, source) {
            Ok(facet) => words::quoted(alloc, facet.encoded_str()),
            Err(error) => words::error(alloc, error),
        },
        _ => Err(anyhow!("an unknown kind of value")),
    }
}

// The bytes that a sink holds when values, each after its kind, are written to it, and why it took no more.
fn write(alloc: Global, call: &[&str]) -> Result<String> {
    let (sink, values) = words::first(call)?;
    match sink {
        "memory" => write_to_memory(alloc, values),
        "writer" => write_to_writer(alloc, values),
        _ => write_to_room(alloc, words::number(sink)?, values),
    }
}

// What is written to a sink in memory.
fn write_to_memory(alloc: Global, values: &[&str]) -> Result<String> {
    let mut sink = VecSink::new(alloc);
    let failure = write_all(alloc, &mut sink, values)?;
    written(alloc, &sink.into_vec(), failure)
}

// What is written through a writer of std.
fn write_to_writer(alloc: Global, values: &[&str]) -> Result<String> {
    let mut sink = WriteSink::new(Vec::new(alloc));
    let failure = write_all(alloc, &mut sink, values)?;
    written(alloc, sink.into_inner().as_slice(), failure)
}

// What is written through a writer of std that has room for this many bytes.
fn write_to_room(alloc: Global, length: usize, values: &[&str]) -> Result<String> {
    let mut room = vec![in alloc; 0u8; length]?;
    let mut sink = WriteSink::new(room.as_mut_slice());
    let failure = write_all(alloc, &mut sink, values)?;
    let left = sink.into_inner().len();
    let filled = room.len().saturating_sub(left);
    written(alloc, &room[..filled], failure)
}

// Bytes that were written, and why no more were.
fn written(alloc: Global, bytes: &[u8], failure: Option<io::ErrorKind>) -> Result<String> {
    let digits = words::digits(alloc, bytes)?;
    match failure {
        None => Ok(digits),
        Some(kind) => Ok(format!(in alloc; "{digits} error {kind:?}")?),
    }
}

// Writes values, each after its kind, and returns why the sink took no more.
fn write_all<K: ByteSink>(
    alloc: Global,
    sink: &mut K,
    values: &[&str],
) -> Result<Option<io::ErrorKind>> {
    for pair in values.chunks(2) {
        if let [kind, value] = pair {
            if let Err(failure) = write_one(alloc, sink, kind, value)? {
                return Ok(Some(failure.0));
            }
        }
    }
    Ok(None)
}

// Writes a value of this kind, and returns what the sink answered.
fn write_one<K: ByteSink>(
    alloc: Global,
    sink: &mut K,
    kind: &str,
    value: &str,
) -> Result<Result<(), WriteError>> {
    match kind {
        "vint" => Ok(VInt(words::number(value)?).serialize(sink)),
        "u8" => write_number::<u8, K>(sink, value),
        "u32" => write_number::<u32, K>(sink, value),
        "u64" => write_number::<u64, K>(sink, value),
        "i64" => write_number::<i64, K>(sink, value),
        "u128" => write_number::<u128, K>(sink, value),
        "bool" => Ok((value == "true").serialize(sink)),
        _ => write_bytes(alloc, sink, kind, value),
    }
}

// Writes a number, and returns what the sink answered.
fn write_number<T, K: ByteSink>(sink: &mut K, digits: &str) -> Result<Result<(), WriteError>>
where
    T: FromStr + BinarySerializable + Drop,
    T::Err: Drop,
{
    let number: T = words::number(digits)?;
    Ok(number.serialize(sink))
}

// Writes a text, a byte string or a facet, and returns what the sink answered.
fn write_bytes<K: ByteSink>(
    alloc: Global,
    sink: &mut K,
    kind: &str,
    value: &str,
) -> Result<Result<(), WriteError>> {
    match kind {
        "text" => Ok(words::text(alloc, value)?.serialize(sink)),
        "bytes" => Ok(words::bytes(alloc, value)?.serialize(sink)),
        "facet" => Ok(facet(alloc, value)?.serialize(sink)),
        _ => Err(anyhow!("an unknown kind of value")),
    }
}
