//! Documents on their way through the store.

ghost use Rattle.std.specs.Prelude.{Ok, IfErr};
ghost use Rattle.tantivy_schema.specs.Belongs.{Belongs};
ghost use Rattle.tantivy_schema.specs.Document.{document_of};
ghost use Rattle.tantivy_schema.specs.Short.{short_document};
ghost use Rattle.tantivy_schema.specs.Stored.{stored};
ghost use Rattle.tantivy_schema.specs.StoreError.{IsIo, IsIoOrMemory, WritesStore};
ghost use Rattle.tantivy_schema.specs.Nesting.{AllNestWithin};
ghost use Rattle.tantivy_schema.specs.Reading.{ReadsDocument};
ghost use Rattle.tantivy_schema.specs.Version.{V2};

use std::alloc::Global;
use tantivy_schema::common::{ByteSink, ByteSource};
use tantivy_schema::schema::document::{
    BinaryDocumentSerializer, DeserializeError, MAX_DEPTH, SerializeError,
};
use tantivy_schema::schema::{Schema, TantivyDocument};
use tantivy_schema::store::{DocStoreVersion, read_document};

/// Appends a document's stored pairs to a sink. The document's fields are the schema's, as `fits` tests.
///
/// Errors: `Io` where the sink failed; `Memory` where memory was refused for a value that nests deeper than `MAX_DEPTH` levels. The sink
/// then holds a beginning of what was to be written, after what it held.
pub fn store_document<K: ByteSink>(
    sink: &mut K,
    schema: &Schema,
    document: &TantivyDocument,
) -> Result<(), SerializeError>
    requires { Belongs schema.now (document_of document.now) }
    ensures writes { WritesStore K.ByteSink sink.old sink.new result
        (Ok (short_document V2 (stored schema.now (document_of document.now)))) }
    ensures errors { IfErr result IsIoOrMemory }
    ensures io { AllNestWithin MAX_DEPTH (document_of document.now) → IfErr result IsIo }
{
    BinaryDocumentSerializer::new(sink, schema).serialize_doc(document)
}

/// Reads a document from a source.
///
/// Where a prefix of the bytes encodes a document that has room, it is the answer, and what follows it is left. Errors:
/// `CorruptedValue`, `TypeMismatch` and `HeapFull` where they are true of the bytes, `Io` where the source failed, `Memory`.
pub fn fetch_document<S: ByteSource>(
    alloc: Global,
    source: &mut S,
) -> Result<TantivyDocument, DeserializeError>
    ensures { ReadsDocument V2 S.ByteSource source.old source.new document_of result }
{
    read_document(alloc, source, DocStoreVersion::V2)
}
