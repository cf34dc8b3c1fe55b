//! Calls for C by a document that a handle holds. A handle is used by one call at a time. One that is all zeros holds nothing.

ghost use Rattle.kormaglen_c.specs.Answers.{AnswersFill, ByWrittenVersion};
ghost use Rattle.kormaglen_c.specs.Documents.{AnswersParsed, AnswersRead, HoldsNone, ParsesOr, ReadsOr};
ghost use Rattle.kormaglen_c.specs.Handles.{IsClosedHandle, closed_answer};
ghost use Rattle.std.specs.Prelude.{◌≡◌, MatchOption, None};
ghost use Rattle.tv_blocks.specs.Documents.{IsForeignRefusal, IsPrintedBy, IsStoredDocument};
ghost use Rattle.tv_blocks.specs.Status.{wrong_version};
ghost use Rattle.tv_doc.specs.Document.{document_of};
ghost use Rattle.tv_blocks.specs.Held.{entries_of};
ghost use Rattle.tv_reader.specs.Version.{version_of_number, version_of};

use crate::handles::closed;
use crate::write_version;
use std::alloc::{AllocError, Global};
use tv_blocks::document_handle::DocumentHandle;
use tv_blocks::schema_handle::{SchemaHandle, SchemaMemory};
use tv_blocks::status::{written_answer, wrong_version};
use tv_blocks::{Answer, BlockError};
use tv_doc::CompactDoc;
use tv_doc::parse_buffers::ParseBuffers;
use tv_schema::Schema;
use tv_store::DocStoreVersion;

// The document that the handle held, whose memory serves the next one, or an empty one. The handle then holds none.
fn taken(alloc: Global, handle: &mut DocumentHandle) -> Result<Box<CompactDoc>, AllocError>
    ensures { handle.new.document ≡ None }
{
    match handle.take(alloc) {
        Some(document) => Ok(document),
        None => Ok(Box::new(alloc, CompactDoc::new(alloc))?),
    }
}

// Has the handle hold the document with which the bytes begin, and returns how many bytes it takes.
fn read(
    alloc: Global,
    version: DocStoreVersion,
    bytes: &[u8],
    handle: &mut DocumentHandle,
) -> Result<u64, BlockError>
    ensures { ReadsOr (version_of version) bytes.now handle.new.document result }
{
    let mut document = taken(alloc, handle)?;
    let len = tv_blocks::read_first_document(alloc, version, bytes, document.as_mut())?;
    handle.keep(alloc, document);
    Ok(len)
}

/// Reads the document with which the bytes begin, see `tv_blocks::read_first_document`. The version is 1, 2 or 3. The handle holds the document
/// in the place of what it held before.
///
/// It is refused with status 2, 8 at place 0, or 9. The handle then holds none.
#[unsafe(no_mangle)]
pub extern "C" fn raw_document_read(
    alloc: Global,
    version: u32,
    bytes: &[u8],
    handle: &mut DocumentHandle,
) -> Answer
    ensures { MatchOption (version_of_number version) (HoldsNone wrong_version handle.new.document result)
        (λ v. AnswersRead (version_of v) bytes.now handle.new.document result) }
{
    match DocStoreVersion::from_u32(version) {
        Ok(version) => written_answer(read(alloc, version, bytes, handle)),
        Err(_) => {
            handle.close(alloc);
            wrong_version()
        }
    }
}

// Has the handle hold the document of a line of JSON.
fn parse(
    alloc: Global,
    schema: &Schema,
    buffers: &mut ParseBuffers,
    line: &[u8],
    handle: &mut DocumentHandle,
) -> Result<u64, BlockError>
    ensures { ParsesOr schema.now line.now handle.new.document result }
{
    let mut document = taken(alloc, handle)?;
    tv_blocks::parse_line(schema, line, document.as_mut(), buffers)?;
    handle.keep(alloc, document);
    Ok(0)
}

/// Makes the document of a line of JSON, see `tv_blocks::parse_line`. The handle holds the document in the place of what it held before.
///
/// It is refused with status 2, 11, or 15 where the schema's handle is closed. The document's handle then holds none.
#[unsafe(no_mangle)]
pub extern "C" fn raw_document_parse(
    alloc: Global,
    schema: &mut SchemaHandle,
    line: &[u8],
    handle: &mut DocumentHandle,
) -> Answer
    ensures schema { entries_of schema.new ≡ entries_of schema.old }
    ensures answer { MatchOption (entries_of schema.old)
        (HoldsNone closed_answer handle.new.document result)
        (λ entries. AnswersParsed entries line.now handle.new.document result) }
{
    match schema.take(alloc) {
        Some(mut memory) => {
            let SchemaMemory {
                schema: held_schema,
                buffers,
            } = memory.as_mut();
            let parsed = parse(alloc, held_schema, buffers, line, handle);
            schema.keep(alloc, memory);
            written_answer(parsed)
        }
        None => {
            handle.close(alloc);
            closed()
        }
    }
}

// Writes the text of JSON of the handle's document by a schema.
fn print(alloc: Global, schema: &Schema, handle: &mut DocumentHandle, text: &mut [u8]) -> Answer
    ensures handle { handle.new.document ≡ handle.old.document }
    ensures answer { MatchOption handle.old.document (IsClosedHandle text.old text.new result)
        (λ document. AnswersFill (IsPrintedBy schema.now (document_of document)) (λ error. ⊥)
        text.old text.new result) }
{
    match handle.take(alloc) {
        Some(document) => {
            let printed = tv_blocks::print_document(alloc, schema, &document, text);
            handle.keep(alloc, document);
            written_answer(printed)
        }
        None => closed(),
    }
}

/// Writes the text of JSON of the handle's document by the names of the schema's fields, see `tv_blocks::print_document`.
///
/// It is refused with status 1, 2, or 15 where one of the handles is closed. The text then stays as it is.
#[unsafe(no_mangle)]
pub extern "C" fn raw_document_to_json(
    alloc: Global,
    handle: &mut DocumentHandle,
    schema: &mut SchemaHandle,
    text: &mut [u8],
) -> Answer
    ensures handle { handle.new.document ≡ handle.old.document }
    ensures schema { entries_of schema.new ≡ entries_of schema.old }
    ensures answer { MatchOption (entries_of schema.old) (IsClosedHandle text.old text.new result)
        (λ entries. MatchOption handle.old.document (IsClosedHandle text.old text.new result)
        (λ document. AnswersFill (IsPrintedBy entries (document_of document)) (λ error. ⊥)
        text.old text.new result)) }
{
    match schema.take(alloc) {
        Some(memory) => {
            let answer = print(alloc, &memory.schema, handle, text);
            schema.keep(alloc, memory);
            answer
        }
        None => closed(),
    }
}

// Writes the stored pairs of a document in the version of a number.
fn write_numbered_version(
    alloc: Global,
    schema: &Schema,
    version: u32,
    document: &CompactDoc,
    bytes: &mut [u8],
) -> Answer
    ensures { ByWrittenVersion version bytes.old bytes.new result
        (λ written. AnswersFill
        (IsStoredDocument schema.now written (document_of document.now))
        (IsForeignRefusal schema.now (document_of document.now)) bytes.old bytes.new result) }
{
    match write_version(version) {
        Some(version) => written_answer(tv_blocks::write_document(
            alloc, schema, version, document, bytes,
        )),
        None => wrong_version(),
    }
}

// Writes the stored pairs of the handle's document by a schema.
fn write(
    alloc: Global,
    schema: &Schema,
    version: u32,
    handle: &mut DocumentHandle,
    bytes: &mut [u8],
) -> Answer
    ensures handle { handle.new.document ≡ handle.old.document }
    ensures answer { MatchOption handle.old.document (IsClosedHandle bytes.old bytes.new result)
        (λ document. ByWrittenVersion version bytes.old bytes.new result
        (λ written. AnswersFill (IsStoredDocument schema.now written (document_of document))
        (IsForeignRefusal schema.now (document_of document)) bytes.old bytes.new result)) }
{
    match handle.take(alloc) {
        Some(document) => {
            let answer = write_numbered_version(alloc, schema, version, &document, bytes);
            handle.keep(alloc, document);
            answer
        }
        None => closed(),
    }
}

/// Writes the stored pairs of the handle's document, see `tv_blocks::write_document`. The version is 2 or 3.
///
/// It is refused with status 1, 2, 9, 12, or 15 where one of the handles is closed. The bytes then stay as they are.
#[unsafe(no_mangle)]
pub extern "C" fn raw_document_write(
    alloc: Global,
    handle: &mut DocumentHandle,
    schema: &mut SchemaHandle,
    version: u32,
    bytes: &mut [u8],
) -> Answer
    ensures handle { handle.new.document ≡ handle.old.document }
    ensures schema { entries_of schema.new ≡ entries_of schema.old }
    ensures answer { MatchOption (entries_of schema.old) (IsClosedHandle bytes.old bytes.new result)
        (λ entries. MatchOption handle.old.document (IsClosedHandle bytes.old bytes.new result)
        (λ document. ByWrittenVersion version bytes.old bytes.new result
        (λ written. AnswersFill (IsStoredDocument entries written (document_of document))
        (IsForeignRefusal entries (document_of document)) bytes.old bytes.new result))) }
{
    match schema.take(alloc) {
        Some(memory) => {
            let answer = write(alloc, &memory.schema, version, handle, bytes);
            schema.keep(alloc, memory);
            answer
        }
        None => closed(),
    }
}

/// Gives up the document that the handle holds, if it holds one.
#[unsafe(no_mangle)]
pub extern "C" fn raw_document_close(alloc: Global, handle: &mut DocumentHandle)
    ensures { handle.new.document ≡ None }
{
    handle.close(alloc);
}
