//! Terms of stored values, their texts, and where those of a prefix end.

ghost use Rattle.std.specs.Prelude.{◌≡◌, ◌++◌, [], IfErr, OnOk};
ghost use Rattle.tv_blocks.specs.Blocks.{IsRefusedBlock};
ghost use Rattle.tv_blocks.specs.Buffer.{FillsBuffer};
ghost use Rattle.tv_blocks.specs.Refusals.{IsBlockRefusal, IsTextRefusal, TellsNotUtf8};
ghost use Rattle.tv_blocks.specs.Terms.{document_records, term_record, IsEnd, IsEndRefusal, IsTermList, IsTermRefusal, IsTermText, IsTextTerm};
ghost use Rattle.tv_doc.specs.Document.{document_of};
ghost use Rattle.tv_indexing.specs.LeafTerms.{tree_value};
ghost use Rattle.tv_reader.specs.Version.{version_of};

use crate::block_error::{BlockError, unread};
use crate::buffer::{append_record, put_whole};
use std::alloc::{AllocError, Global};
use tv_base::SliceSource;
use tv_doc::CompactDoc;
use tv_indexing::write_leaf;
use tv_store::{BlockReader, DocStoreVersion};
use tv_term::{Term, TermWriter, successor};
use tv_value::{Field, ReferenceValue, Value};

// Appends the record of a value, if it has a term.
fn append_value<'a, V: Value<'a>>(
    writer: &mut TermWriter,
    field: Field,
    document: u64,
    value: V,
    terms: &mut Vec<u8>,
) -> Result<(), AllocError>
    ensures { OnOk result
        (terms.new.items ≡ terms.old.items
        ++ term_record document field.id (tree_value (V.tree value))) }
{
    let ReferenceValue::Leaf(leaf) = value.as_value() else {
        return Ok(());
    };
    match write_leaf(writer, field, leaf) {
        Ok(true) => append_record(terms, document, writer.term().serialized_term()),
        Ok(false) => Ok(()),
        Err(_) => Err(AllocError),
    }
}

// Appends the records of the field's values in a document. The only error is that memory was refused.
fn append_document(
    writer: &mut TermWriter,
    field: Field,
    number: u64,
    document: &CompactDoc,
    terms: &mut Vec<u8>,
) -> Result<(), AllocError>
    ensures { OnOk result
        (terms.new.items ≡ terms.old.items
        ++ document_records number field.id (document_of document.now)) }
{
    for value in document.get_all(field) {
        append_value(writer, field, number, value, terms)?;
    }
    Ok(())
}

// Appends the records of the field's values in the documents of the block.
fn append_block(
    alloc: Global,
    field: Field,
    version: DocStoreVersion,
    block: &[u8],
    terms: &mut Vec<u8>,
) -> Result<(), BlockError>
    requires { terms.old.items ≡ [] }
    ensures ok { OnOk result (IsTermList (version_of version) field.id block.now terms.new.items) }
    ensures err { IfErr result (IsRefusedBlock (version_of version) block.now) }
{
    let mut source = SliceSource::new(block);
    let mut reader = BlockReader::new(alloc, version);
    let mut writer = TermWriter::new(alloc);
    let mut number = 0;
    loop {
        match reader.advance(&mut source) {
            Ok(true) => append_document(&mut writer, field, number, reader.document(), terms)?,
            Ok(false) => return Ok(()),
            Err(error) => return Err(unread(reader.start(), &error)),
        }
        number += 1;
    }
}

/// Writes the terms of a field's values in the documents of a block, in their order, and returns how many bytes these take. Each stands after
/// the number of its document, from 0, and its own length, both in eight bytes, the lowest first. A date is cut to the second, as it is indexed,
/// and a text is whole. Null, arrays and objects have no term.
///
/// Errors: `BadDocument` for the first document that can't be read, `TooSmall`, `Memory`. The buffer then stays as it is.
pub fn terms_of_block(
    alloc: Global,
    field: u32,
    version: DocStoreVersion,
    block: &[u8],
    terms: &mut [u8],
) -> Result<u64, BlockError>
    ensures { FillsBuffer (IsTermList (version_of version) field block.now)
        (IsBlockRefusal (version_of version) block.now) terms.old terms.new result }
{
    let mut found = Vec::new(alloc);
    append_block(
        alloc,
        Field::from_field_id(field),
        version,
        block,
        &mut found,
    )?;
    put_whole(found.as_slice(), terms)
}

/// Writes the term of a text, see `Term::from_field_text`, and returns its length in bytes. All terms of the field's texts that begin
/// with the text begin with it.
///
/// Errors: `NotUtf8` exactly where the text isn't UTF-8; else `TooSmall`, `Memory`. The buffer then stays as it is.
pub fn term_of_text(
    alloc: Global,
    field: u32,
    text: &[u8],
    term: &mut [u8],
) -> Result<u64, BlockError>
    ensures fills { FillsBuffer (IsTextTerm field text.now) (IsTextRefusal text.now) term.old term.new result }
    ensures not_utf8 { TellsNotUtf8 text.now result }
{
    let Ok(text) = str::from_utf8(text) else {
        return Err(BlockError::NotUtf8);
    };
    let made = Term::from_field_text(alloc, Field::from_field_id(field), text)?;
    put_whole(made.serialized_term(), term)
}

/// Writes the text of a term's value, see `tv_indexing::text_of_term`, and returns its length in bytes.
///
/// Errors: `NotTerm` where the bytes are no term, or are one of a text or a facet that isn't UTF-8, `TooSmall`, `Memory`. The buffer then stays
/// as it is.
pub fn text_of_term(alloc: Global, term: &[u8], text: &mut [u8]) -> Result<u64, BlockError>
    ensures { FillsBuffer (IsTermText term.now) (IsTermRefusal term.now) text.old text.new result }
{
    match tv_indexing::text_of_term(alloc, term)? {
        Some(content) => put_whole(content.as_bytes(), text),
        None => Err(BlockError::NotTerm),
    }
}

/// Writes the least byte string above all that begin with a prefix, see `successor`, and returns its length in bytes. So the terms that
/// begin with the prefix are those from it on and below what is written.
///
/// Errors: `NoEnd` where no byte string is above all that begin with the prefix, `TooSmall`, `Memory`. The buffer then stays as it is.
pub fn end_of_prefix(alloc: Global, prefix: &[u8], end: &mut [u8]) -> Result<u64, BlockError>
    ensures { FillsBuffer (IsEnd prefix.now) (IsEndRefusal prefix.now) end.old end.new result }
{
    match successor(alloc, prefix)? {
        Some(bytes) => put_whole(bytes.as_slice(), end),
        None => Err(BlockError::NoEnd),
    }
}
