//! Writing documents into the store.

ghost use Rattle.std.specs.Prelude.{◌≡◌, ◌<◌, [], ◌∷◌, Ok, IfErr, length};
ghost use Rattle.tv_doc.specs.Belongs.{Belongs};
ghost use Rattle.tv_doc.specs.Document.{document_of};
ghost use Rattle.tv_heap.specs.Value.{tree_of};
ghost use Rattle.tv_store.specs.Stored.{stored, written_pairs};
ghost use Rattle.tv_format.specs.Short.{short_document};
ghost use Rattle.tv_format.specs.WriteVersion.{written_version};
ghost use Rattle.tv_writer.specs.Error as store;
ghost use Rattle.tv_writer.specs.Error.{IsIo, IsIoOrMemory};
ghost use Rattle.tv_value.specs.Nesting.{AllNestWithin, NestsWithin};

use crate::pair_writer::write_stored_pair;
use std::alloc::Global;
use tv_base::ByteSink;
use tv_base::write::write_vint;
use tv_doc::document::CompactDoc;
use tv_doc::laws::documents_are_valid;
use tv_format::WriteVersion;
use tv_heap::value::CompactDocValue;
use tv_schema::Schema;
use tv_value::field::Field;
use tv_value::nested::MAX_DEPTH;
use tv_writer::SerializeError;
pub use tv_writer::serializers::{
    BinaryArraySerializer, BinaryObjectSerializer, BinaryValueSerializer,
};

// How many pairs have a stored field.
fn stored_count(schema: &Schema, document: &CompactDoc) -> u64
    requires { Belongs schema.now (document_of document.now) }
    ensures { result ≡ length (stored schema.now (document_of document.now)) }
{
    documents_are_valid();
    let mut count = 0;
    for (field, _) in document.field_values() {
        if schema.get_field_entry(field).is_stored() {
            count += 1;
        }
    }
    count
}

// Writes the pair, if its field is stored.
#[inline(always)]
fn write_if_stored<K: ByteSink>(
    sink: &mut K,
    alloc: Global,
    version: WriteVersion,
    schema: &Schema,
    field: Field,
    value: CompactDocValue<'_>,
) -> Result<(), SerializeError>
    requires { field.id < length schema.now }
    ensures writes { store.WritesStore K.ByteSink sink.old sink.new result
        (Ok (written_pairs (written_version version) schema.now
        ((field.id, tree_of value.entry) ∷ []))) }
    ensures errors { IfErr result IsIoOrMemory }
    ensures only_io { NestsWithin MAX_DEPTH (tree_of value.entry) → IfErr result IsIo }
{
    if schema.get_field_entry(field).is_stored() {
        write_stored_pair(sink, alloc, version, field, value)
    } else {
        Ok(())
    }
}

// Writes the stored pairs, in order.
fn write_stored_pairs<K: ByteSink>(
    sink: &mut K,
    version: WriteVersion,
    schema: &Schema,
    document: &CompactDoc,
) -> Result<(), SerializeError>
    requires { Belongs schema.now (document_of document.now) }
    ensures writes { store.WritesStore K.ByteSink sink.old sink.new result
        (Ok (written_pairs (written_version version) schema.now (document_of document.now))) }
    ensures errors { IfErr result IsIoOrMemory }
    ensures only_io { AllNestWithin MAX_DEPTH (document_of document.now) → IfErr result IsIo }
{
    let alloc = document.allocator();
    for (field, value) in document.field_values() {
        write_if_stored(sink, alloc, version, schema, field, value)?;
    }
    Ok(())
}

/// Writes documents to a sink: the pairs whose field is stored, in either version of the store that is written.
#[derive(Drop)]
pub struct BinaryDocumentSerializer<'se, K: ByteSink> {
    sink: &'se mut K,
    schema: &'se Schema,
    version: WriteVersion,
}

impl<'se, K: ByteSink> BinaryDocumentSerializer<'se, K> {
    /// Writes to this sink documents of this schema, as version 2 has them. Nothing is written yet.
    pub fn new(sink: &'se mut K, schema: &'se Schema) -> BinaryDocumentSerializer<'se, K>
        ensures same_sink { result.sink.ghost_name ≡ sink.entry.ghost_name }
        ensures sink { result.sink.now ≡ sink.old }
        ensures schema { result.schema.now ≡ schema.now }
        ensures version { result.version ≡ WriteVersion.V2 }
    {
        BinaryDocumentSerializer::with_version(sink, schema, WriteVersion::V2)
    }

    /// Writes to this sink documents of this schema, as this version has them. Nothing is written yet. (Not in tantivy.)
    pub fn with_version(
        sink: &'se mut K,
        schema: &'se Schema,
        version: WriteVersion,
    ) -> BinaryDocumentSerializer<'se, K>
        ensures same_sink { result.sink.ghost_name ≡ sink.entry.ghost_name }
        ensures sink { result.sink.now ≡ sink.old }
        ensures schema { result.schema.now ≡ schema.now }
        ensures version { result.version ≡ version }
    {
        BinaryDocumentSerializer {
            sink,
            schema,
            version,
        }
    }

    /// Appends the stored pairs of a document whose fields belong to the schema, in the shortest encoding. It takes memory only
    /// for a value that nests deeper than `MAX_DEPTH` levels.
    ///
    /// Errors: `Io` where the sink failed; `Memory` where memory was refused for such a value. The sink then holds what it held
    /// before, and a beginning of what was to be written; a later call appends to that.
    ///
    /// ```
    /// fn append(sink: &mut VecSink, schema: &Schema, document: &TantivyDocument) -> Result<()> {
    ///     if !document.fits(schema) {
    ///         return Err(anyhow!("a field is not the schema's"));
    ///     }
    ///     BinaryDocumentSerializer::new(sink, schema).serialize_doc(document)?;
    ///     Ok(())
    /// }
    /// ```
    pub fn serialize_doc(&mut self, document: &CompactDoc) -> Result<(), SerializeError>
        requires { Belongs self.old.schema.now (document_of document.now) }
        ensures same_sink { self.new.sink.ghost_name ≡ self.old.sink.ghost_name }
        ensures schema { self.new.schema.now ≡ self.old.schema.now }
        ensures version { self.new.version ≡ self.old.version }
        ensures writes { store.WritesStore K.ByteSink self.old.sink.now self.new.sink.now result
            (Ok (short_document (written_version self.old.version)
            (stored self.old.schema.now (document_of document.now)))) }
        ensures errors { IfErr result IsIoOrMemory }
        ensures io { AllNestWithin MAX_DEPTH (document_of document.now) → IfErr result IsIo }
    {
        write_vint(self.sink, stored_count(self.schema, document))?;
        write_stored_pairs(self.sink, self.version, self.schema, document)
    }
}
