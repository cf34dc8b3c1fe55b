//! Lines of JSON that are answered: by a run over a source and a sink, one of which may fail, and by the program.

use anyhow::{Context, Result, ensure};
use case_words as words;
use std::alloc::Global;
use std::io;
use std::io::Read;
use tantivy_schema::common::{ByteSource, FaultSink, FaultSource, SliceSource, VecSink};
use tantivy_schema::{RunEnd, answer_lines, run};

// A schema of one field of texts, which are stored.
const ONE_TEXT: &str = r#"[{"name":"t","type":"text","options":{"stored":true}}]"#;

/// How a run over an input ends, and what it has written.
pub fn answer(alloc: Global, call: &[&str]) -> Result<String> {
    let (name, call) = words::first(call)?;
    match name {
        "long" => long(alloc, call),
        "program" => program(alloc, call),
        source => over_source(alloc, source, call),
    }
}

// The run over an input, of which a read may fail.
fn over_source(alloc: Global, source: &str, call: &[&str]) -> Result<String> {
    let (room, input) = words::two(call)?;
    let input = bytes(alloc, input)?;
    let mut whole = SliceSource::new(input.as_slice());
    let (source, place) = words::parted(source);
    if source == "whole" {
        return ran(alloc, &mut whole, room);
    }
    let place = words::number(place.strip_suffix(" Interrupted").context("a failure")?)?;
    let mut failing = FaultSource::new(whole, place, io::ErrorKind::Interrupted);
    ran(alloc, &mut failing, room)
}

// How a run over a document with a text of some letters ends, and the digits of what is stored before these. It is checked that
// the letters follow, and that they are read back.
fn long(alloc: Global, call: &[&str]) -> Result<String> {
    let count: usize = words::number(words::one(call)?)?;
    let letters = "a".repeat(alloc, count)?;
    let input = format!(in alloc; "{ONE_TEXT}\n{{\"t\":\"{letters}\"}}\n")?;
    let mut held = VecSink::new(alloc);
    let end = run(alloc, &mut SliceSource::new(input.as_bytes()), &mut held);
    let output = str::from_utf8(held.as_slice()).ok().context("a text")?;
    let (stored, json) = output.split_once(' ').context("an answer")?;
    let digits = "61".repeat(alloc, count)?;
    let head = stored.strip_suffix(digits.as_str()).context("the letters")?;
    let expected = format!(in alloc; "{{\"t\":[\"{letters}\"]}}\n")?;
    ensure!(json == expected.as_str(), "the letters are read back");
    let end = name(end);
    Ok(format!(in alloc; "{end} {head}")?)
}

// The bytes of a JSON string, or of hexadecimal digits.
fn bytes(alloc: Global, word: &str) -> Result<Vec<u8>> {
    if word.starts_with('"') {
        return Ok(words::text(alloc, word)?.as_bytes().to_vec(alloc)?);
    }
    words::bytes(alloc, word)
}

// The run over a source, into a sink that has room for all bytes or for this many.
fn ran<S: ByteSource>(alloc: Global, source: &mut S, room: &str) -> Result<String> {
    let mut held = VecSink::new(alloc);
    if room == "all" {
        let end = run(alloc, source, &mut held);
        return ended(alloc, name(end), held.as_slice());
    }
    let mut sink = FaultSink::new(held, words::number(room)?, io::ErrorKind::StorageFull);
    let end = run(alloc, source, &mut sink);
    ended(alloc, name(end), sink.into_inner().as_slice())
}

// The name of an end.
fn name(end: RunEnd) -> &'static str {
    match end {
        RunEnd::Done => "Done",
        RunEnd::BadSchema => "BadSchema",
        RunEnd::Broken => "Broken",
    }
}

// How a run has ended, and what it has written.
fn ended(alloc: Global, end: &str, output: &[u8]) -> Result<String> {
    let output = str::from_utf8(output).ok().context("a text")?;
    let output = words::quoted(alloc, output)?;
    Ok(format!(in alloc; "{end} {output}")?)
}

// A reader that gives what another one gives, once, and then fails.
#[derive(Drop)]
struct FailingReader<R: Read> {
    inner: R,
    has_read: bool,
}

impl<R: Read> Read for FailingReader<R> {
    fn read(&mut self, buf: &mut [u8]) -> io::Result<usize> {
        if self.has_read {
            return Err(io::Error::from(io::ErrorKind::TimedOut));
        }
        self.has_read = true;
        self.inner.read(buf)
    }
}

// The exit status of the program, and what it writes. Its input is read whole, or fails at the second read.
fn program(alloc: Global, call: &[&str]) -> Result<String> {
    let (end, input) = words::two(call)?;
    let input = bytes(alloc, input)?;
    let mut output = Vec::new(alloc);
    let status = if end == "whole" {
        answer_lines(alloc, input.as_slice(), &mut output)
    } else {
        let reader = FailingReader {
            inner: input.as_slice(),
            has_read: false,
        };
        answer_lines(alloc, reader, &mut output)
    };
    let status = words::plain(alloc, &status)?;
    ended(alloc, status.as_str(), output.as_slice())
}
