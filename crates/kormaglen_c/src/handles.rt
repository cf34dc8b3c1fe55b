//! Calls for C by a schema that a handle holds. A handle is used by one call at a time. One that is all zeros holds nothing.

ghost use Rattle.kormaglen_c.specs.Answers.{AnswersFill, AnswersFound, AnswersImport, ByVersion};
ghost use Rattle.kormaglen_c.specs.Handles.{AnswersOpened, OpensOr, closed_answer, IsClosedHandle, IsClosedFound, IsClosedImport};
ghost use Rattle.std.specs.Prelude.{◌≡◌, MatchOption, None};
ghost use Rattle.tv_blocks.specs.Blocks.{IsPrintedBlock};
ghost use Rattle.tv_blocks.specs.Fields.{FindsAmong};
ghost use Rattle.tv_blocks.specs.Imports.{ImportsBy};
ghost use Rattle.tv_blocks.specs.Refusals.{IsBlockRefusal, IsUnfound};
ghost use Rattle.tv_blocks.specs.Schemas.{IsSchemaText};
ghost use Rattle.tv_blocks.specs.Held.{entries_of};

use crate::{NOTHING_FOUND, found_answer};
use std::alloc::Global;
use tv_blocks::schema_handle::{SchemaHandle, SchemaMemory};
use tv_blocks::status::{import_answer, written_answer, wrong_version};
use tv_blocks::{Answer, BlockError, FoundField, LineAnswer};
use tv_schema::Schema;
use tv_store::DocStoreVersion;

// The answer where a handle holds nothing.
pub(crate) fn closed() -> Answer
    ensures { result ≡ closed_answer }
{
    Answer {
        status: 15,
        detail: 0,
        place: 0,
        bytes: 0,
        lines: 0,
    }
}

// Has the handle hold the schema that a text describes.
fn open(alloc: Global, json: &[u8], handle: &mut SchemaHandle) -> Result<u64, BlockError>
    ensures { OpensOr json.now (entries_of handle.new) result }
{
    handle.close(alloc);
    let schema = tv_blocks::read_schema(alloc, json)?;
    handle.open(alloc, schema)?;
    Ok(0)
}

/// Reads the schema that a text of JSON describes, see `tv_blocks::read_schema`. The handle holds it in the place of what it held before.
#[unsafe(no_mangle)]
pub extern "C" fn raw_schema_open(alloc: Global, json: &[u8], handle: &mut SchemaHandle) -> Answer
    ensures { AnswersOpened json.now (entries_of handle.new) result }
{
    written_answer(open(alloc, json, handle))
}

/// Gives up the schema that the handle holds, if it holds one.
#[unsafe(no_mangle)]
pub extern "C" fn raw_schema_close(alloc: Global, handle: &mut SchemaHandle)
    ensures { entries_of handle.new ≡ None }
{
    handle.close(alloc);
}

// Writes the schema's text of JSON.
fn print(alloc: Global, schema: &Schema, text: &mut [u8]) -> Answer
    ensures { AnswersFill (IsSchemaText schema.now) (λ error. ⊥) text.old text.new result }
{
    written_answer(tv_blocks::print_schema(alloc, schema, text))
}

/// Writes the text of JSON of the schema that the handle holds, see `tv_blocks::print_schema`.
#[unsafe(no_mangle)]
pub extern "C" fn raw_schema_to_json(
    alloc: Global,
    handle: &mut SchemaHandle,
    text: &mut [u8],
) -> Answer
    ensures handle { entries_of handle.new ≡ entries_of handle.old }
    ensures answer { MatchOption (entries_of handle.old) (IsClosedHandle text.old text.new result)
        (λ entries. AnswersFill (IsSchemaText entries) (λ error. ⊥) text.old text.new result) }
{
    match handle.take(alloc) {
        Some(memory) => {
            let answer = print(alloc, &memory.schema, text);
            handle.keep(alloc, memory);
            answer
        }
        None => closed(),
    }
}

// Finds the field that a path names by a schema, and puts it into `found`.
fn find(schema: &Schema, path: &[u8], found: &mut FoundField) -> Answer
    ensures { AnswersFound (FindsAmong schema.now path.now) (IsUnfound schema.now path.now) found.new
        result }
{
    found_answer(tv_blocks::find_field_by(schema, path), found)
}

/// Finds the field that a path names, see `tv_blocks::find_field_by`, and puts it into `found`: 0 and 0 where there is none.
#[unsafe(no_mangle)]
pub extern "C" fn raw_schema_find_field(
    alloc: Global,
    handle: &mut SchemaHandle,
    path: &[u8],
    found: &mut FoundField,
) -> Answer
    ensures handle { entries_of handle.new ≡ entries_of handle.old }
    ensures answer { MatchOption (entries_of handle.old) (IsClosedFound found.new result)
        (λ entries. AnswersFound (FindsAmong entries path.now) (IsUnfound entries path.now) found.new
        result) }
{
    match handle.take(alloc) {
        Some(memory) => {
            let answer = find(&memory.schema, path, found);
            handle.keep(alloc, memory);
            answer
        }
        None => {
            *found = NOTHING_FOUND;
            closed()
        }
    }
}

/// Stores documents of lines of JSON and answers each line, see `tv_blocks::import_lines_by`.
#[unsafe(no_mangle)]
pub extern "C" fn raw_schema_import_lines(
    alloc: Global,
    handle: &mut SchemaHandle,
    lines: &[u8],
    block: &mut [u8],
    answers: &mut [LineAnswer],
) -> Answer
    ensures handle { entries_of handle.new ≡ entries_of handle.old }
    ensures answer { MatchOption (entries_of handle.old)
        (IsClosedImport block.old block.new answers.old answers.new result)
        (λ entries. AnswersImport (ImportsBy entries lines.now block.old block.new answers.old
        answers.new) result) }
{
    match handle.take(alloc) {
        Some(mut memory) => {
            let SchemaMemory { schema, buffers } = memory.as_mut();
            let imported = tv_blocks::import_lines_by(
                alloc, schema, buffers, lines, block, answers,
            );
            handle.keep(alloc, memory);
            import_answer(imported)
        }
        None => closed(),
    }
}

// Writes the documents of a block as lines of JSON by a schema.
fn export(alloc: Global, schema: &Schema, version: u32, block: &[u8], lines: &mut [u8]) -> Answer
    ensures { ByVersion version lines.old lines.new result
        (λ known. AnswersFill (IsPrintedBlock schema.now known block.now)
        (IsBlockRefusal known block.now) lines.old lines.new result) }
{
    match DocStoreVersion::from_u32(version) {
        Ok(version) => written_answer(tv_blocks::export_block_by(
            alloc, schema, version, block, lines,
        )),
        Err(_) => wrong_version(),
    }
}

/// Writes the documents of a block as lines of JSON, see `tv_blocks::export_block_by`. The version is 1, 2 or 3.
#[unsafe(no_mangle)]
pub extern "C" fn raw_schema_export_block(
    alloc: Global,
    handle: &mut SchemaHandle,
    version: u32,
    block: &[u8],
    lines: &mut [u8],
) -> Answer
    ensures handle { entries_of handle.new ≡ entries_of handle.old }
    ensures answer { MatchOption (entries_of handle.old) (IsClosedHandle lines.old lines.new result)
        (λ entries. ByVersion version lines.old lines.new result
        (λ known. AnswersFill (IsPrintedBlock entries known block.now)
        (IsBlockRefusal known block.now) lines.old lines.new result)) }
{
    match handle.take(alloc) {
        Some(memory) => {
            let answer = export(alloc, &memory.schema, version, block, lines);
            handle.keep(alloc, memory);
            answer
        }
        None => closed(),
    }
}
