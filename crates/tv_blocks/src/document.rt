//! One document: read, printed, and written.

ghost use Rattle.std.specs.Prelude.{◌≡◌, [], IfErr, IfOk, MatchOption, OnErr, false, OnOk};
ghost use Rattle.tv_blocks.specs.Buffer.{FillsBuffer};
ghost use Rattle.tv_blocks.specs.Documents.{IsForeign, IsForeignRefusal, IsPrintedBy, IsUnread, IsStoredDocument, ReadsFirst};
ghost use Rattle.tv_blocks.specs.LineRefusals.{IsLineDocument, IsUnparsed};
ghost use Rattle.tv_doc.specs.Belongs.{Belongs};
ghost use Rattle.tv_doc.specs.Document.{document_of};
ghost use Rattle.tv_format.specs.WriteVersion.{written_version};
ghost use Rattle.tv_reader.specs.Version.{version_of};

use crate::block_error::{BlockError, unread};
use crate::buffer::put_whole;
use crate::line_refusal::LineRefusal;
use std::alloc::Global;
use tv_base::{SliceSource, VecSink};
use tv_doc::parse_buffers::ParseBuffers;
use tv_doc::{CompactDoc, Document};
use tv_format::WriteVersion;
use tv_schema::Schema;
use tv_store::{BinaryDocumentSerializer, DocStoreVersion, read_document_into};
use tv_value::Field;

/// Reads the document with which the bytes begin, in place of one that is there and in its memory, and returns how many bytes it takes. See
/// `read_document_into`.
///
/// Errors: `BadDocument` at 0 where the bytes begin with no document, `Memory`. The document then has no pairs.
pub fn read_first_document(
    alloc: Global,
    version: DocStoreVersion,
    bytes: &[u8],
    document: &mut CompactDoc,
) -> Result<u64, BlockError>
    ensures ok { IfOk result
        (ReadsFirst (version_of version) bytes.now (document_of document.new)) }
    ensures err { IfErr result (IsUnread (version_of version) bytes.now) }
    ensures none { OnErr result (document_of document.new ≡ []) }
{
    let mut source = SliceSource::new(bytes);
    match read_document_into(alloc, document, &mut source, version) {
        Ok(()) => Ok((bytes.len() - source.rest().len()) as u64),
        Err(error) => Err(unread(0, &error)),
    }
}

/// Writes the document's text of JSON by the names of the schema's fields, see `to_json`, and returns how many bytes it takes.
///
/// Errors: `TooSmall`, `Memory`. The buffer then stays as it is.
pub fn print_document(
    alloc: Global,
    schema: &Schema,
    document: &CompactDoc,
    text: &mut [u8],
) -> Result<u64, BlockError>
    ensures { FillsBuffer (IsPrintedBy schema.now (document_of document.now)) (λ error. ⊥) text.old
        text.new result }
{
    let json = document.to_json(alloc, schema)?;
    put_whole(json.as_bytes(), text)
}

// The field of the first pair whose field the schema doesn't have.
fn foreign_field(schema: &Schema, document: &CompactDoc) -> Option<Field>
    ensures { MatchOption result (Belongs schema.now (document_of document.now))
        (λ field. IsForeign schema.now (document_of document.now) field.id) }
{
    for pair in document.field_values() {
        if !schema.has_field(pair.0) {
            return Some(pair.0);
        }
    }
    None
}

/// Writes the document's stored pairs in a version of the store, see `BinaryDocumentSerializer`, and returns how many bytes these take.
///
/// Errors: `ForeignField` for the first pair whose field the schema doesn't have; `TooSmall`, `Memory`. The buffer then stays as it is.
pub fn write_document(
    alloc: Global,
    schema: &Schema,
    version: WriteVersion,
    document: &CompactDoc,
    bytes: &mut [u8],
) -> Result<u64, BlockError>
    ensures { FillsBuffer (IsStoredDocument schema.now (written_version version) (document_of document.now))
        (IsForeignRefusal schema.now (document_of document.now)) bytes.old bytes.new result }
{
    if let Some(field) = foreign_field(schema, document) {
        return Err(BlockError::ForeignField {
            field: field.field_id(),
        });
    }
    let mut sink = VecSink::new(alloc);
    match BinaryDocumentSerializer::with_version(&mut sink, schema, version).serialize_doc(
        document,
    ) {
        Ok(()) => put_whole(sink.as_slice(), bytes),
        Err(_) => Err(BlockError::Memory),
    }
}

/// Puts the document of a line of JSON in place of one that is there and in its memory, by a schema, see `tv_lines::line_document::parse_line`.
///
/// Errors: `BadLine` where the line is no JSON object, for the first value that the type of its field refuses, and where the values have no
/// room; `Memory`. The document then has no pairs.
pub fn parse_line(
    schema: &Schema,
    line: &[u8],
    document: &mut CompactDoc,
    buffers: &mut ParseBuffers,
) -> Result<(), BlockError>
    ensures ok { OnOk result (IsLineDocument schema.now line.now (document_of document.new)) }
    ensures err { IfErr result (IsUnparsed schema.now line.now) }
    ensures belongs { OnOk result (Belongs schema.now (document_of document.new)) }
    ensures none { OnErr result (document_of document.new ≡ []) }
{
    match tv_lines::line_document::parse_line(schema, line, false, document, buffers)? {
        None => Ok(()),
        Some(error) => Err(BlockError::BadLine(LineRefusal::of(schema, &error))),
    }
}
