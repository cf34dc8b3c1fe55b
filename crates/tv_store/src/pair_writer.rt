//! Writing the pairs of a document, in either version of the store that is written.
//!
//! Each function hands on the error of a failed write, and of memory that was refused. The sink then holds what it held before,
//! and a beginning of what was to be written.

ghost use Rattle.std.specs.Prelude.{◌∷◌, ◌++◌, Ok, IfErr};
ghost use Rattle.std.specs.List.{flat_map};
ghost use Rattle.tv_base.specs.Number.{four_bytes, eight_bytes};
ghost use Rattle.tv_base.specs.Writing.{Writes};
ghost use Rattle.tv_doc.specs.Document.{document_of};
ghost use Rattle.tv_heap.specs.Encoded.{encoded_bytes, HasFewEntries, IsTokenized};
ghost use Rattle.tv_heap.specs.Value.{tree_of};
ghost use Rattle.tv_store.specs.Nested.{HeldNestsWithin};
ghost use Rattle.tv_store.specs.Stored.{leaf_written, tree_written};
ghost use Rattle.tv_value.specs.Lent.{leaf_of};
ghost use Rattle.tv_format.specs.Short.{short_document, short_leaf, short_pair};
ghost use Rattle.tv_format.specs.Version.{Version};
ghost use Rattle.tv_format.specs.WriteVersion.{written_version};
ghost use Rattle.tv_writer.specs.Error as store;
ghost use Rattle.tv_writer.specs.Error.{IsIo, IsIoOrMemory};
ghost use Rattle.tv_value.specs.Nesting.{AllNestWithin, NestsWithin};

use crate::encoded_writer::write_encoded;
use std::alloc::Global;
use tv_base::write::{write_all, write_u32, write_vint};
use tv_base::{ByteSink, WriteError};
use tv_doc::document::CompactDoc;
use tv_format::WriteVersion;
use tv_format::type_codes::TEXT_CODE;
use tv_heap::value::{CompactDocValue, Encoded};
use tv_value::field::Field;
use tv_value::leaf::ReferenceValueLeaf;
use tv_value::nested::MAX_DEPTH;
use tv_value::value::{ReferenceValue, Value};
use tv_writer::SerializeError;
use tv_writer::leaf_writer::{write_coded_text, write_leaf};

// Writes a field and bytes after their code.
#[inline(always)]
#[tactic(auto, using(tv_base::proofs::Written::Writes_then, tv_base::proofs::Written::Writes_prefix))]
fn write_field_bytes<K: ByteSink>(
    sink: &mut K,
    field: Field,
    code: u8,
    content: &[u8],
) -> Result<(), WriteError>
    ensures { Writes K.ByteSink sink.old sink.new result
        (four_bytes field.id ++ (code ∷ content.now)) }
{
    let [a, b, c, d] = field.field_id().to_le_bytes();
    write_all(sink, &[a, b, c, d, code])?;
    write_all(sink, content)
}

// Writes a field and a number in eight bytes, with the code of its type, at once.
#[inline(always)]
fn write_field_u64<K: ByteSink>(
    sink: &mut K,
    field: Field,
    code: u8,
    number: u64,
) -> Result<(), WriteError>
    ensures { Writes K.ByteSink sink.old sink.new result
        (four_bytes field.id ++ (code ∷ eight_bytes number)) }
{
    let [a, b, c, d] = field.field_id().to_le_bytes();
    let [e, f, g, h, i, j, k, l] = number.to_le_bytes();
    write_all(sink, &[a, b, c, d, code, e, f, g, h, i, j, k, l])
}

// Writes a field and what the version has for a value.
#[inline(always)]
fn write_field_encoded<K: ByteSink>(
    sink: &mut K,
    alloc: Global,
    version: WriteVersion,
    field: Field,
    encoded: Encoded<'_>,
) -> Result<(), SerializeError>
    requires { HasFewEntries encoded }
    ensures writes { store.WritesStore K.ByteSink sink.old sink.new result
        (Ok (four_bytes field.id ++ encoded_bytes (written_version version) encoded.entry)) }
    ensures errors { IfErr result IsIoOrMemory }
    ensures only_io { HeldNestsWithin MAX_DEPTH encoded.entry → IfErr result IsIo }
{
    write_u32(sink, field.field_id())?;
    write_encoded(sink, alloc, version, encoded, MAX_DEPTH)
}

// The same. What is commonest is written with the field, at once.
#[inline(always)]
pub(crate) fn write_pair<K: ByteSink>(
    sink: &mut K,
    alloc: Global,
    version: WriteVersion,
    field: Field,
    encoded: Encoded<'_>,
) -> Result<(), SerializeError>
    requires { HasFewEntries encoded }
    ensures writes { store.WritesStore K.ByteSink sink.old sink.new result
        (Ok (four_bytes field.id ++ encoded_bytes (written_version version) encoded.entry)) }
    ensures errors { IfErr result IsIoOrMemory }
    ensures only_io { HeldNestsWithin MAX_DEPTH encoded.entry → IfErr result IsIo }
{
    match encoded {
        Encoded::Number(code, number) => write_field_u64(sink, field, code, number)?,
        Encoded::Bytes(code, content) => write_field_bytes(sink, field, code, content)?,
        other => write_field_encoded(sink, alloc, version, field, other)?,
    }
    Ok(())
}

// Writes a value without children, of a text with tokens the text alone.
fn write_stored_leaf<K: ByteSink>(
    sink: &mut K,
    leaf: &ReferenceValueLeaf<'_>,
) -> Result<(), WriteError>
    ensures { Writes K.ByteSink sink.old sink.new result
        (short_leaf (leaf_written (leaf_of leaf.now))) }
{
    match leaf {
        ReferenceValueLeaf::PreTokStr(text) => write_coded_text(sink, TEXT_CODE, text.text()),
        other => write_leaf(sink, other),
    }
}

// Writes a field and the text of a text with tokens.
#[tactic(auto, using(tv_base::proofs::Written::Writes_then, tv_base::proofs::Written::Writes_prefix))]
fn write_field_text<K: ByteSink>(
    sink: &mut K,
    field: Field,
    value: CompactDocValue<'_>,
) -> Result<(), WriteError>
    requires { IsTokenized (tree_of value) }
    ensures { (v : Version) → Writes K.ByteSink sink.old sink.new result
        (short_pair v (field.id, tree_written (tree_of value.entry))) }
{
    write_u32(sink, field.field_id())?;
    match value.as_value() {
        ReferenceValue::Leaf(leaf) => write_stored_leaf(sink, &leaf),
        ReferenceValue::Array(_) => unreachable!(),
        ReferenceValue::Object(_) => unreachable!(),
    }
}

// Writes a pair as it is stored: its field, and its value, of a text with tokens the text alone.
pub(crate) fn write_stored_pair<K: ByteSink>(
    sink: &mut K,
    alloc: Global,
    version: WriteVersion,
    field: Field,
    value: CompactDocValue<'_>,
) -> Result<(), SerializeError>
    ensures writes { store.WritesStore K.ByteSink sink.old sink.new result
        (Ok (short_pair (written_version version) (field.id, tree_written (tree_of value.entry)))) }
    ensures errors { IfErr result IsIoOrMemory }
    ensures only_io { NestsWithin MAX_DEPTH (tree_of value.entry) → IfErr result IsIo }
{
    match value.encoded() {
        Encoded::Tokenized(_) => write_field_text(sink, field, value)?,
        encoded => write_pair(sink, alloc, version, field, encoded)?,
    }
    Ok(())
}

// Writes all pairs of a document, in order.
fn write_pairs<K: ByteSink>(
    sink: &mut K,
    version: WriteVersion,
    document: &CompactDoc,
) -> Result<(), SerializeError>
    ensures writes { store.WritesStore K.ByteSink sink.old sink.new result
        (Ok (flat_map (short_pair (written_version version)) (document_of document.now))) }
    ensures errors { IfErr result IsIoOrMemory }
    ensures only_io { AllNestWithin MAX_DEPTH (document_of document.now) → IfErr result IsIo }
{
    let alloc = document.allocator();
    for (field, value) in document.field_values() {
        write_pair(sink, alloc, version, field, value.encoded())?;
    }
    Ok(())
}

// Writes a document with all its pairs, a text with tokens with them.
pub(crate) fn write_document<K: ByteSink>(
    sink: &mut K,
    version: WriteVersion,
    document: &CompactDoc,
) -> Result<(), SerializeError>
    ensures writes { store.WritesStore K.ByteSink sink.old sink.new result
        (Ok (short_document (written_version version) (document_of document.now))) }
    ensures errors { IfErr result IsIoOrMemory }
    ensures only_io { AllNestWithin MAX_DEPTH (document_of document.now) → IfErr result IsIo }
{
    write_vint(sink, document.len() as u64)?;
    write_pairs(sink, version, document)
}
