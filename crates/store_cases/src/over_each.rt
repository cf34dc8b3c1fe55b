//! Bytes that are read over each source: at once, in packets, lent in pieces, and through a reader of std.

ghost use Rattle.std.specs.Prelude.{◌<◌};

use crate::sources::LimitedSource;
use anyhow::Result;
use embedding::PacketSource;
use std::alloc::Global;
use std::io;
use tantivy_schema::common::{ByteSource, FaultSource, ReadSource, SliceSource};

// How many bytes the sources lend at once.
const WINDOWS: [usize; 6] = [0, 1, 2, 5, 16, 64];

/// How a reading ends: its answer, how many bytes it counted, and the source as it is left.
#[derive(Drop)]
pub struct Ending<S: ByteSource + Drop> {
    pub answer: String,
    pub counted: Option<u64>,
    pub source: S,
}

/// What reads from a source.
pub trait Reading {
    /// Reads from the source.
    fn read<S: ByteSource + Drop>(&self, alloc: Global, source: S) -> Result<Ending<S>>;
}

impl<S: ByteSource + Drop> Ending<S> {
    // The answer, and how many bytes are left of the whole. A false count is reported too.
    fn told(&self, alloc: Global, whole: usize, left: usize) -> Result<String> {
        let answer = self.answer.as_str();
        let taken = whole.saturating_sub(left) as u64;
        let count = self.counted.unwrap_or(taken);
        if count == taken {
            return Ok(format!(in alloc; "{answer}, {left} left")?);
        }
        Ok(format!(in alloc; "{answer}, {left} left, but {count} counted")?)
    }
}

/// The answer that all have, or each of them where they differ.
pub fn once(alloc: Global, answers: &[String]) -> Result<String> {
    let mut text = String::new(alloc);
    for answer in answers {
        if text.is_empty() {
            text.push_str(answer.as_str())?;
        } else if Some(answer) != answers.first() {
            text.push_str(" | ")?;
            text.push_str(answer.as_str())?;
        }
    }
    Ok(text)
}

// How the reading ends over a source that gives at most this many bytes at once.
fn in_packets<R: Reading>(alloc: Global, bytes: &[u8], packet: usize, reading: &R) -> Result<String>
    requires { 0 < packet }
{
    let ending = reading.read(alloc, PacketSource::new(bytes, packet))?;
    ending.told(alloc, bytes.len(), ending.source.rest().len())
}

// How the reading ends through a reader of std.
fn through_reader<R: Reading>(alloc: Global, bytes: &[u8], reading: &R) -> Result<String> {
    let ending = reading.read(alloc, ReadSource::new(bytes))?;
    let Ending {
        answer,
        counted,
        source,
    } = ending;
    let rest = source.into_inner();
    let source = SliceSource::new(rest);
    let ending = Ending {
        answer,
        counted,
        source,
    };
    ending.told(alloc, bytes.len(), rest.len())
}

/// How the reading ends over each source.
pub fn over_each<R: Reading>(alloc: Global, bytes: &[u8], reading: &R) -> Result<String> {
    let whole = bytes.len();
    let mut answers = Vec::new(alloc);
    let ending = reading.read(alloc, SliceSource::new(bytes))?;
    answers.push(ending.told(alloc, whole, ending.source.rest().len())?)?;
    answers.push(in_packets(alloc, bytes, 1, reading)?)?;
    answers.push(in_packets(alloc, bytes, 3, reading)?)?;
    for window in WINDOWS {
        let ending = reading.read(alloc, LimitedSource::lending(bytes, window))?;
        answers.push(ending.told(alloc, whole, ending.source.rest.len())?)?;
    }
    let ending = reading.read(alloc, LimitedSource::keeping(bytes))?;
    answers.push(ending.told(alloc, whole, ending.source.rest.len())?)?;
    answers.push(through_reader(alloc, bytes, reading)?)?;
    once(alloc, answers.as_slice())
}

/// How the reading ends over a source that gives one byte at a time, where a read fails, once for each byte that it may fail at. What is
/// left is counted from that byte on.
pub fn where_it_fails<R: Reading>(
    alloc: Global,
    kind: io::ErrorKind,
    bytes: &[u8],
    reading: &R,
) -> Result<String> {
    let mut answers = Vec::new(alloc);
    for place in 0..bytes.len() {
        let source = FaultSource::new(SliceSource::new(bytes), place as u64, kind);
        let ending = reading.read(alloc, source)?;
        let Ending {
            answer,
            counted,
            source,
        } = ending;
        let failures = source.calls().saturating_sub(place as u64);
        let rest = source.into_inner();
        let behind = bytes.len().saturating_sub(place);
        let left = rest.rest().len().saturating_sub(behind);
        let ending = Ending {
            answer,
            counted,
            source: rest,
        };
        let told = ending.told(alloc, place, left)?;
        answers.push(format!(in alloc; "{told}, {failures} failed")?)?;
    }
    once(alloc, answers.as_slice())
}
