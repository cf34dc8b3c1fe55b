//! Lines of JSON as a block of stored documents.

ghost use Rattle.std.specs.Prelude.{◌≡◌, [], OnOk};
ghost use Rattle.tv_blocks.specs.Imports.{ImportsBy, ImportsLines, ImportsInto, IsLenientOutcome, PutsBoth, lenient, line_answer};
ghost use Rattle.tv_lines.specs.Importing.{left_to};

use crate::block_error::BlockError;
use crate::line_refusal::LineRefusal;
use crate::schema_text::read_schema;
use std::alloc::{AllocError, Global};
use tv_base::{SliceSource, VecSink};
use tv_doc::parse_buffers::ParseBuffers;
use tv_format::WriteVersion;
use tv_lines::import::{FaultRule, ImportRules, LineImporter, LineOutcome};
use tv_schema::Schema;

/// What is answered for a line: a number that says what became of it, the field whose value was refused, and how many bytes its document takes
/// in the block. (Not in tantivy.)
#[repr(C)]
#[derive(Clone, Copy, Debug, PartialEq, Eq, Drop)]
pub struct LineAnswer {
    /// 0 where the document was stored, else `LineRefusal::number`.
    pub status: u32,
    /// `LineRefusal::field`; 0 where the document was stored.
    pub field: u32,
    /// How many bytes the stored document takes; `LineRefusal::byte` where the line was refused.
    pub bytes: u64,
}

/// How much was written. (Not in tantivy.)
#[repr(C)]
#[derive(Clone, Copy, Debug, PartialEq, Eq, Drop)]
pub struct Imported {
    /// How many bytes of the block.
    pub bytes: u64,
    /// How many answers, one for each line.
    pub lines: u64,
}

// The rules by which lines are imported: keys may name no field, and nothing is said of documents that can't be searched.
fn lenient() -> ImportRules
    ensures { result ≡ lenient }
{
    ImportRules {
        version: WriteVersion::V2,
        strict: false,
        faults: FaultRule::Ignore,
    }
}

// What is answered for what became of a line.
fn answer_of(schema: &Schema, outcome: &LineOutcome) -> LineAnswer
    requires { IsLenientOutcome outcome.now }
    ensures { result ≡ line_answer schema.now outcome.now }
{
    match outcome {
        LineOutcome::Stored { size, fault: _ } => LineAnswer {
            status: 0,
            field: 0,
            bytes: *size,
        },
        LineOutcome::Refused(error) => {
            let refusal = LineRefusal::of(schema, error);
            LineAnswer {
                status: refusal.number(),
                field: refusal.field(),
                bytes: refusal.byte(),
            }
        }
    }
}

// Appends the stored documents of the lines to the block, and what became of each line to the answers.
fn import_each(
    schema: &Schema,
    buffers: &mut ParseBuffers,
    importer: &mut LineImporter,
    lines: &[u8],
    block: &mut VecSink,
    answers: &mut Vec<LineAnswer>,
) -> Result<(), AllocError>
    requires rules { importer.old.rules ≡ lenient }
    requires unread { left_to importer.old lines.now ≡ lines.now }
    requires block { block.old.bytes.items ≡ [] }
    requires answers { answers.old.items ≡ [] }
    ensures { OnOk result (ImportsLines schema.now lines.now block.new.bytes.items answers.new.items) }
{
    let mut source = SliceSource::new(lines);
    loop {
        match importer.advance(schema, buffers, &mut source, block) {
            Ok(Some(outcome)) => {
                let answer = answer_of(schema, &outcome);
                drop(outcome);
                answers.push(answer)?;
            }
            Ok(None) => return Ok(()),
            Err(_) => return Err(AllocError),
        }
    }
}

// Puts the block and the answers at the beginnings of the buffers, or says how much room they need.
fn put_both(
    stored: &[u8],
    outcomes: &[LineAnswer],
    block: &mut [u8],
    answers: &mut [LineAnswer],
) -> Result<Imported, BlockError>
    ensures { PutsBoth stored.now outcomes.now block.old block.new answers.old answers.new result }
{
    let (bytes, lines) = (stored.len(), outcomes.len());
    if block.len() < bytes || answers.len() < lines {
        return Err(BlockError::TooSmall {
            bytes: bytes as u64,
            lines: lines as u64,
        });
    }
    block[..bytes].copy_from_slice(stored);
    answers[..lines].copy_from_slice(outcomes);
    Ok(Imported {
        bytes: bytes as u64,
        lines: lines as u64,
    })
}

/// Stores the documents of lines of JSON by a schema, one after the other in version 2, and answers each line. A line ends at a line feed,
/// and the last may lack it. A line that is refused stores nothing, and the next line follows. The buffers serve each line, and any later
/// call. See `LineImporter::advance`.
///
/// Errors: `TooSmall` with the bytes of the block and the number of lines, where one of the buffers is too small; `Memory`. Both buffers then
/// stay as they are.
pub fn import_lines_by(
    alloc: Global,
    schema: &Schema,
    buffers: &mut ParseBuffers,
    lines: &[u8],
    block: &mut [u8],
    answers: &mut [LineAnswer],
) -> Result<Imported, BlockError>
    ensures { ImportsBy schema.now lines.now block.old block.new answers.old answers.new result }
{
    let mut importer = LineImporter::new(alloc, lenient());
    let mut stored = VecSink::new(alloc);
    let mut outcomes = Vec::new(alloc);
    import_each(
        schema,
        buffers,
        &mut importer,
        lines,
        &mut stored,
        &mut outcomes,
    )?;
    put_both(stored.as_slice(), outcomes.as_slice(), block, answers)
}

/// Stores the documents of lines of JSON and answers each line, see `import_lines_by`.
///
/// Errors: `InvalidJson`, `BadSchemaKey`, `BadSchemaEntry` and `BadSchema` where the schema is refused; `TooSmall` with the bytes of the block
/// and the number of lines, where one of the buffers is too small; `Memory`. Both buffers then stay as they are.
pub fn import_lines(
    alloc: Global,
    schema: &[u8],
    lines: &[u8],
    block: &mut [u8],
    answers: &mut [LineAnswer],
) -> Result<Imported, BlockError>
    ensures { ImportsInto schema.now lines.now block.old block.new answers.old answers.new result }
{
    let schema = read_schema(alloc, schema)?;
    let mut buffers = ParseBuffers::new(alloc);
    import_lines_by(alloc, &schema, &mut buffers, lines, block, answers)
}
