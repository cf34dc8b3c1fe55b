//! Blocks of stored documents to JSON.

ghost use Rattle.std.specs.Prelude.{◌≡◌, ◌++◌, [], IfErr, OnErr, OnOk, string_bytes};
ghost use Rattle.tv_doc.specs.Document.{document_of};
ghost use Rattle.tv_lines.specs.Exporting.{AppendsBegun, PrintsBlock};
ghost use Rattle.tv_lines.specs.Streams.{ReportsReads, ReportsWrites};
ghost use Rattle.tv_lines.specs.Printing.{AppendsJson, laid_out};
ghost use Rattle.tv_lines.specs.WorkErrors.{IsOfPrinting, sink_stop, source_stop};
ghost use Rattle.tv_lines.specs.declared.export.JsonLayout.TheVariants as layouts;
ghost use Rattle.tv_reader.specs.Version.{version_of};

use crate::errors::WorkError;
use json::{Pretty, Reader, Scratch, Token};
use std::alloc::{AllocError, Global};
use tv_base::write::write_all;
use tv_base::{ByteSink, ByteSource};
use tv_doc::{Document, TantivyDocument};
use tv_schema::Schema;
use tv_store::{BlockReader, DocStoreVersion, Projection, Watch};

/// How a document is laid out as JSON. (Not in tantivy.)
#[derive(Clone, Copy, PartialEq, Eq)]
pub enum JsonLayout {
    /// On one line without spaces, as `Document::to_json` prints it.
    Compact,
    /// With a line for each item and member, indented by two spaces for each array and object that it stands in.
    Pretty,
}

/// Appends `json` to `text` in the layout `Pretty`: its tokens, in their order, with line feeds and spaces between them. What is no JSON is appended as it is.
/// (Not in tantivy.)
///
/// The only error is that memory was refused, and then `text` is as it was.
pub fn push_pretty(alloc: Global, json: &str, text: &mut String) -> Result<(), AllocError>
    ensures appended { OnOk result
        (string_bytes text.new ≡ string_bytes text.old ++ laid_out layouts.Pretty json.now) }
    ensures unchanged { OnErr result (string_bytes text.new ≡ string_bytes text.old) }
{
    let mut scratch = Scratch::new(alloc);
    let mut reader = Reader::new(json, &mut scratch)?;
    let mut pretty = Pretty::new(alloc);
    while let Some(token) = reader.next() {
        if let Token::Bad = token {
            return text.push_str(json);
        }
        pretty.token(token)?;
    }
    let lines = unsafe { String::from_utf8_unchecked(pretty.into_inner()) };
    text.push_str(lines.as_str())
}

// Appends the document's JSON on one line.
fn append_compact(
    alloc: Global,
    schema: &Schema,
    document: &TantivyDocument,
    text: &mut String,
) -> Result<(), AllocError>
    ensures appended { OnOk result
        (AppendsJson schema.now layouts.Compact (document_of document.now) (string_bytes text.old)
        (string_bytes text.new)) }
    ensures unchanged { OnErr result (string_bytes text.new ≡ string_bytes text.old) }
{
    let len = text.len();
    document.push_json(alloc, schema, text)?;
    let fed = text.push('\n');
    if fed.is_err() {
        text.truncate(len);
    }
    fed
}

// Appends the document's JSON over several lines.
fn append_pretty(
    alloc: Global,
    schema: &Schema,
    document: &TantivyDocument,
    text: &mut String,
) -> Result<(), AllocError>
    ensures appended { OnOk result
        (AppendsJson schema.now layouts.Pretty (document_of document.now) (string_bytes text.old)
        (string_bytes text.new)) }
    ensures unchanged { OnErr result (string_bytes text.new ≡ string_bytes text.old) }
{
    let json = document.to_json(alloc, schema)?;
    let mut lines = String::new(alloc);
    push_pretty(alloc, json.as_str(), &mut lines)?;
    lines.push('\n')?;
    text.push_str(lines.as_str())
}

/// Appends the document's JSON by the names of the schema's fields to `text`, in the layout `layout`, and a line feed, see `Document::to_json`.
/// (Not in tantivy.)
///
/// The only error is that memory was refused, and then `text` is as it was.
pub fn append_json(
    alloc: Global,
    schema: &Schema,
    layout: JsonLayout,
    document: &TantivyDocument,
    text: &mut String,
) -> Result<(), AllocError>
    ensures appended { OnOk result
        (AppendsJson schema.now layout (document_of document.now) (string_bytes text.old)
        (string_bytes text.new)) }
    ensures unchanged { OnErr result (string_bytes text.new ≡ string_bytes text.old) }
{
    match layout {
        JsonLayout::Compact => append_compact(alloc, schema, document, text),
        JsonLayout::Pretty => append_pretty(alloc, schema, document, text),
    }
}

// Appends the document's JSON and a line feed to the sink. `text` is for them.
pub(crate) fn write_json<K: ByteSink>(
    alloc: Global,
    schema: &Schema,
    layout: JsonLayout,
    document: &TantivyDocument,
    text: &mut String,
    sink: &mut K,
) -> Result<(), WorkError>
    ensures ok { K.is_known sink.old
        → OnOk result (AppendsJson schema.now layout (document_of document.now)
        (K.held sink.old) (K.held sink.new)) }
    ensures err { K.is_known sink.old
        → OnErr result (AppendsBegun schema.now layout (document_of document.now)
        (K.held sink.old) (K.held sink.new)) }
    ensures errors { IfErr result IsOfPrinting }
    ensures sink { ReportsWrites K.ByteSink sink_stop sink.old sink.new result }
{
    text.clear();
    append_json(alloc, schema, layout, document, text)?;
    match write_all(sink, text.as_bytes()) {
        Ok(()) => Ok(()),
        Err(failed) => Err(WorkError::Write(failed.0)),
    }
}

/// Appends what `projection` keeps of the documents of a block to `sink`. The block is what `source` has left: documents in the version `version`,
/// one after the other. Each is printed as JSON by the names of the schema's fields, in the layout `layout`, and a line feed follows it. Returns
/// how many documents there are. `watch` is advanced after each document that is appended, with the bytes from the first on. (Not in tantivy.)
///
/// Errors: `Read` for the first document that can't be read or passes a limit, with its number and place; `Write` where a write failed; `Memory`;
/// `TooMany` after 2^64 - 1 documents. The sink then holds what is printed of the documents before that one, and after `Write` and `Memory` also a
/// beginning of what is printed of that one.
pub fn export_block<S: ByteSource, K: ByteSink, W: Watch>(
    alloc: Global,
    schema: &Schema,
    version: DocStoreVersion,
    projection: &Projection,
    layout: JsonLayout,
    source: &mut S,
    sink: &mut K,
    watch: &mut W,
) -> Result<u64, WorkError>
    ensures prints { S.is_known source.old → K.is_known sink.old → PrintsBlock schema.now layout
        (version_of version) projection.now (S.left source.old) (S.left source.new)
        (K.held sink.old) (K.held sink.new) result }
    ensures all { S.is_known source.old → OnOk result (S.left source.new ≡ []) }
    ensures source { ReportsReads S.ByteSource source_stop source.old source.new result }
    ensures sink { ReportsWrites K.ByteSink sink_stop sink.old sink.new result }
{
    let mut reader = BlockReader::new(alloc, version);
    let mut text = String::new(alloc);
    for documents in 0..u64::MAX {
        match reader.advance_by(source, projection) {
            Ok(true) => {
                let document = reader.document();
                if let Err(error) = write_json(alloc, schema, layout, document, &mut text, sink) {
                    return Err(error);
                }
                watch.advance(reader.start());
            }
            Ok(false) => return Ok(documents),
            Err(error) => return Err(WorkError::Read(error)),
        }
    }
    Err(WorkError::TooMany)
}
