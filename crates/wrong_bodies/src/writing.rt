//! Documents written.

ghost use Rattle.std.specs.Prelude.{◌≡◌, IfErr, IfOk};
ghost use Rattle.tantivy_schema.specs.Belongs.{Belongs};
ghost use Rattle.tantivy_schema.specs.Document.{document_of};
ghost use Rattle.tantivy_schema.specs.Nesting.{AllNestWithin};
ghost use Rattle.tantivy_schema.specs.Short.{short_document};
ghost use Rattle.tantivy_schema.specs.StoreError.{IsIo, IsIoOrMemory};
ghost use Rattle.tantivy_schema.specs.Stored.{stored};
ghost use Rattle.tantivy_schema.specs.Version.{V2};
ghost use Rattle.tantivy_schema.specs.WriteVersion.{written_version};

use std::alloc::Global;
use tantivy_schema::common::VecSink;
use tantivy_schema::schema::document::{BinaryDocumentSerializer, MAX_DEPTH, SerializeError};
use tantivy_schema::schema::{Schema, TantivyDocument};
use tantivy_schema::store::WriteVersion;

/// What is written of a document is its stored pairs, in the shortest encoding: those of this schema, whatever another one stores.
pub fn stored_pairs_are_written(
    alloc: Global,
    schema: &Schema,
    other: &Schema,
    document: &TantivyDocument,
) -> Result<Vec<u8>, SerializeError>
    requires { Belongs schema.now (document_of document.now) }
    ensures bytes { IfOk result
        (λ bytes. bytes.items ≡
        short_document V2 (stored schema.now (document_of document.now))) }
    ensures errors { IfErr result IsIoOrMemory }
    ensures io { AllNestWithin MAX_DEPTH (document_of document.now) → IfErr result IsIo }
{
    let mut sink = VecSink::new(alloc);
    let used = if document.fits(other) { schema } else { schema };
    BinaryDocumentSerializer::new(&mut sink, used).serialize_doc(document)?;
    Ok(sink.into_vec())
}

/// What is written of a document in a version is its stored pairs, in the shortest encoding of that version.
pub fn stored_pairs_are_written_in_versions(
    alloc: Global,
    schema: &Schema,
    document: &TantivyDocument,
    version: WriteVersion,
) -> Result<Vec<u8>, SerializeError>
    requires { Belongs schema.now (document_of document.now) }
    ensures bytes { IfOk result
        (λ bytes. bytes.items ≡
        short_document (written_version version) (stored schema.now (document_of document.now))) }
    ensures errors { IfErr result IsIoOrMemory }
    ensures io { AllNestWithin MAX_DEPTH (document_of document.now) → IfErr result IsIo }
{
    let mut sink = VecSink::new(alloc);
    let format = match version {
        WriteVersion::V3 => WriteVersion::V3,
        other => other,
    };
    BinaryDocumentSerializer::with_version(&mut sink, schema, format).serialize_doc(document)?;
    Ok(sink.into_vec())
}
