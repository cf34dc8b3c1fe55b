//! A run over the lines of a source.

ghost use Rattle.std.specs.Prelude.{◌≡◌, ◌-◌, ◌^◌, ◌++◌, [], IfOk, IsErrOf, OnErr, OnOk, ◌∷◌, codes, IfErr};
ghost use Rattle.tv_base.specs.ReadsAs.{TakesMost};
ghost use Rattle.tv_base.specs.Stop.{Taken};
ghost use Rattle.tv_lines.specs.Answers.{ReadsSchema, SchemaRefusal, schema_error_name};
ghost use Rattle.tv_lines.specs.Halts.{source_stop, sink_stop};
ghost use Rattle.tv_lines.specs.Reader.{unread};
ghost use Rattle.tv_lines.specs.Run.{AnswersOf, EndsWith, HasReason, PrefixOf, RunsOver, WritesText, IsEnded, IsWhole};
ghost use Rattle.tv_lines.specs.Status.{status_of};
ghost use Rattle.tv_lines.specs.Streams.{ReportsReads, ReportsWrites};
ghost use Rattle.tv_lines.specs.declared.errors.Halt.TheVariants.{TooLong};
ghost use Rattle.tv_lines.specs.declared.runs.RunEnd.TheVariants.{Done};

use crate::document_line::{LineMemory, answer_line};
use crate::errors::{Halt, append};
use crate::line_reader::LineReader;
use serde_json::Value;
use std::alloc::Global;
use std::io;
use std::io::{BufWriter, Read, Write};
use tv_base::{ByteSink, ByteSource};
use tv_field::SchemaError;
use tv_io::{ReadSource, WriteSink};
use tv_schema::Schema;

// Answers each line that the reader has left.
fn answer_each<S: ByteSource, K: ByteSink>(
    alloc: Global,
    source: &mut S,
    sink: &mut K,
    reader: &mut LineReader,
    schema: &Schema,
) -> Result<(), Halt>
    ensures ok { S.is_known source.old → K.is_known sink.old
        → OnOk result
        (WritesText (AnswersOf schema.now (unread reader.old ++ S.left source.old))
        (K.held sink.old) (K.held sink.new)) }
    ensures err { S.is_known source.old → K.is_known sink.old
        → OnErr result
        (WritesText (PrefixOf (AnswersOf schema.now (unread reader.old ++ S.left source.old)))
        (K.held sink.old) (K.held sink.new)) }
    ensures all { S.is_known source.old → OnOk result (S.left source.new ≡ []) }
    ensures source { ReportsReads S.ByteSource source_stop source.old source.new result }
    ensures sink { ReportsWrites K.ByteSink sink_stop sink.old sink.new result }
    ensures taken { S.is_known source.old
        → Taken (S.left source.old) (S.left source.new) reader.old.count reader.new.count }
    ensures too_long { IsErrOf result TooLong → reader.new.count ≡ 2 ^ 64 - 1 }
{
    let mut line = Vec::new(alloc);
    let mut memory = LineMemory::new(alloc);
    let mut text = Vec::new(alloc);
    'lines: loop {
        let Some(_) = reader.take_line(source, &mut line)? else {
            return Ok(());
        };
        answer_line(alloc, schema, line.as_slice(), &mut memory, &mut text)?;
        append(sink, text.as_slice())?;
    }
}

/// Answers the lines of a source, as `run` does, and tells why that breaks off. On success it returns `Done` or `BadSchema`. (Not in tantivy.)
///
/// Errors: `Read` and `Write` only where the source's or the sink's count of failures rose, with the kind of the failure; `TooLong` only after
/// 2^64 - 1 bytes; `Memory` where memory was refused, and neither count has changed. What was written is then a prefix of what such a run
/// writes.
pub fn try_run<S: ByteSource, K: ByteSink>(
    alloc: Global,
    source: &mut S,
    sink: &mut K,
) -> Result<RunEnd, Halt>
    ensures runs { S.is_known source.old → K.is_known sink.old
        → RunsOver (S.left source.old) (K.held sink.old) (K.held sink.new) result }
    ensures whole { IfOk result IsWhole }
    ensures all { S.is_known source.old → IfOk result (λ end. end ≡ Done → S.left source.new ≡ []) }
    ensures source { ReportsReads S.ByteSource source_stop source.old source.new result }
    ensures sink { ReportsWrites K.ByteSink sink_stop sink.old sink.new result }
    ensures too_long { S.is_known source.old → IsErrOf result TooLong
        → TakesMost (S.left source.old) (S.left source.new) }
{
    let mut reader = LineReader::new(alloc);
    let mut line = Vec::new(alloc);
    let _ = reader.take_line(source, &mut line)?;
    match schema_of_line(alloc, line.as_slice()) {
        Ok(schema) => {
            answer_each(alloc, source, sink, &mut reader, &schema)?;
            Ok(RunEnd::Done)
        }
        Err(text) => {
            append(sink, text.as_bytes())?;
            Ok(RunEnd::BadSchema)
        }
    }
}

/// Answers the lines of a source. The first is a schema's JSON, see `Schema::from_json_value`, and each other one a document's, see
/// `CompactDoc::parse_json`. A line ends at a line feed, and the last may lack it.
///
/// For each document one line is written: its stored bytes in lower-case hexadecimal, a space, and the text of JSON of the document
/// that is read back from them. A line that is refused is answered by `error`, a space and the names of the refusal, as
/// `error ValueError TypeError`, and the next line follows. A schema that is refused is answered alike, and ends the run.
///
/// Bytes are read in pieces of up to 64 KiB, and each answer is written at once. The memory of a line, of its document and of its answer serves the next.
///
/// `Broken` where the run broke off; `try_run` does the same, and tells why.
pub fn run<S: ByteSource, K: ByteSink>(alloc: Global, source: &mut S, sink: &mut K) -> RunEnd
    ensures ends { S.is_known source.old → K.is_known sink.old
        → EndsWith result (S.left source.old) (K.held sink.old) (K.held sink.new) }
    ensures all { S.is_known source.old → result ≡ Done → S.left source.new ≡ [] }
    ensures reason { HasReason result (S.failures source.old) (S.failures source.new)
        (K.failures sink.old) (K.failures sink.new) (S.is_known source.old) (S.left source.old)
        (S.left source.new) }
    ensures source_is_known { S.is_known source.old → S.is_known source.new }
    ensures sink_is_known { K.is_known sink.old → K.is_known sink.new }
{
    match try_run(alloc, source, sink) {
        Ok(end) => end,
        Err(_) => RunEnd::Broken,
    }
}

/// How a run over lines ended.
#[derive(Clone, Copy, Debug, PartialEq, Eq, Drop)]
pub enum RunEnd {
    /// Each line was answered.
    Done,
    /// The first line describes no schema, or memory was refused as it was read. This was answered for it.
    BadSchema,
    /// The run broke off: a read or a write failed, memory was refused, or the source was too long. `try_run` tells which.
    Broken,
}

impl RunEnd {
    /// The exit status of a program that ends so: 0 for `Done`, 1 for `BadSchema` and 2 for `Broken`. (Not in tantivy.)
    pub fn status(self) -> u8
        ensures { result ≡ status_of self }
    {
        match self {
            RunEnd::Done => 0,
            RunEnd::BadSchema => 1,
            RunEnd::Broken => 2,
        }
    }
}

// The line that is answered for this error.
fn error_line(error: SchemaError) -> &'static str
    ensures { result.now ≡ codes "error " ++ schema_error_name error ++ 10 ∷ [] }
{
    match error {
        SchemaError::InvalidName => "error InvalidName\n",
        SchemaError::DuplicateName => "error DuplicateName\n",
        SchemaError::TooManyFields => "error TooManyFields\n",
        SchemaError::Memory => "error Memory\n",
        SchemaError::FieldNotFound => "error FieldNotFound\n",
        SchemaError::BadJson { .. } => "error BadJson\n",
        SchemaError::FloatField { .. } => "error FloatField\n",
    }
}

// The schema that the line describes, or the line that is answered.
pub(crate) fn schema_of_line(alloc: Global, line: &[u8]) -> Result<Schema, &'static str>
    ensures ok { IfOk result (λ schema. ReadsSchema line.now schema) }
    ensures err { IfErr result (λ text. IsEnded (SchemaRefusal line.now) text.now) }
{
    let Ok(text) = str::from_utf8(line) else {
        return Err("error InvalidJson\n");
    };
    match Value::from_str(alloc, text) {
        Ok(value) => match Schema::from_json_value(alloc, &value) {
            Ok(schema) => Ok(schema),
            Err(error) => Err(error_line(error)),
        },
        Err(error) => {
            if error.is_memory() {
                return Err("error Memory\n");
            }
            Err("error InvalidJson\n")
        }
    }
}

// How many bytes of answers are collected before they are written.
const BUFFERED: usize = 65536;

/// Answers the lines of a reader on a writer, and gives the exit status of a program that does only that: `RunEnd::status` of how the
/// run ended, or that of `Broken` where the last answers can't be written.
pub fn answer_lines(alloc: Global, reader: impl Read + Drop, writer: impl Write + Drop) -> u8 {
    match answer(alloc, reader, writer) {
        Ok(end) => end.status(),
        Err(_) => RunEnd::Broken.status(),
    }
}

// Answers the lines of a reader, and writes out what was collected.
fn answer(
    alloc: Global,
    reader: impl Read + Drop,
    writer: impl Write + Drop,
) -> io::Result<RunEnd> {
    let mut source = ReadSource::new(reader);
    let mut sink = WriteSink::new(BufWriter::with_capacity(alloc, BUFFERED, writer)?);
    let end = run(alloc, &mut source, &mut sink);
    sink.into_inner().flush()?;
    Ok(end)
}
