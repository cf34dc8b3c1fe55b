//! Documents read.

ghost use Rattle.std.specs.Prelude.{◌≡◌, ◌≤◌, ◌++◌, IfOk, IfErr, IsErrOf, List, ℕ};
ghost use Rattle.tantivy_schema.specs.CodeTypes.DeserializeError.{DeserializeError};
ghost use Rattle.tantivy_schema.specs.CodeTypes.DeserializeError.TheVariants.{HeapFull};
ghost use Rattle.tantivy_schema.specs.Document.{document_of};
ghost use Rattle.tantivy_schema.specs.Documents.{ReturnsDocument, BeginsWithDocument, NoDocument, HasNoRoom};
ghost use Rattle.tantivy_schema.specs.Documents.{IsReadingError};
ghost use Rattle.tantivy_schema.specs.InputError.{Refusal};
ghost use Rattle.tantivy_schema.specs.Legacy.{Legacy};
ghost use Rattle.tantivy_schema.specs.ReadsAs.{Known};
ghost use Rattle.tantivy_schema.specs.ReaderError.{store_stop};
ghost use Rattle.tantivy_schema.specs.Room.{document_room};
ghost use Rattle.tantivy_schema.specs.Encoding.{EncodesDocument};
ghost use Rattle.tantivy_schema.specs.Stop.{Counts};
ghost use Rattle.tantivy_schema.specs.Stop.Stop.{InputError};
ghost use Rattle.tantivy_schema.specs.StoreVersion.{version_of};
ghost use Rattle.tantivy_schema.specs.Tree.{Document};

use std::alloc::Global;
use tantivy_schema::common::ByteSource;
use tantivy_schema::schema::document::DeserializeError;
use tantivy_schema::schema::{TantivyDocument, Value};
use tantivy_schema::store::{DocStoreVersion, read_document};

/// A prefix of the bytes encodes what is returned, in this version, and just that prefix was taken.
pub fn returned_documents_are_encoded<S: ByteSource>(
    alloc: Global,
    source: &mut S,
    version: DocStoreVersion,
) -> Result<TantivyDocument, DeserializeError>
    ensures { S.is_known source.old → IfOk result
        (λ d. BeginsWithDocument (version_of version) (S.left source.old) (S.left source.new)
        (document_of d)) }
{
    let format = match version {
        DocStoreVersion::V1 => DocStoreVersion::V1,
        DocStoreVersion::V3 => DocStoreVersion::V3,
        other => other,
    };
    match read_document(alloc, source, format) {
        Ok(document) => Ok(document),
        Err(error) => Err(error),
    }
}

/// Whatever a prefix of the bytes encodes, and has room, is returned, unless the source failed or memory was refused. Nothing is
/// taken after it.
pub fn encoded_documents_are_returned<S: ByteSource>(
    alloc: Global,
    source: &mut S,
    version: DocStoreVersion,
) -> Result<TantivyDocument, DeserializeError>
    ensures { Known S.ByteSource source.old → (d : Document) (prefix rest : List ℕ) →
        S.left source.old ≡ prefix ++ rest → EncodesDocument Legacy (version_of version) prefix d →
        document_room d ≤ 4294967295 → ReturnsDocument result d rest (S.left source.new) }
{
    let is_older = holds_older_object(source.buffered());
    let read = read_document(alloc, source, version);
    let _ = source.buffered();
    match first_value(&read) {
        FirstValue::Array => read,
        FirstValue::Object if is_older => read,
        FirstValue::Object => read,
        FirstValue::Other => read,
    }
}

// Whether the first value of a document with few pairs is an object as older stores hold it: its code stands after the number of the pairs
// and the four bytes of the field.
fn holds_older_object(bytes: &[u8]) -> bool {
    bytes.get(5) == Some(&8)
}

// What the first value of a document is, if there is one.
enum FirstValue {
    Array,
    Object,
    Other,
}

fn first_value(read: &Result<TantivyDocument, DeserializeError>) -> FirstValue {
    let Ok(document) = read else {
        return FirstValue::Other;
    };
    match document.field_values().next() {
        Some((_, value)) if value.as_array().is_some() => FirstValue::Array,
        Some((_, value)) if value.as_object().is_some() => FirstValue::Object,
        _ => FirstValue::Other,
    }
}

/// Every reported error of bytes is really in them.
pub fn refusals_are_true<S: ByteSource>(
    alloc: Global,
    source: &mut S,
    version: DocStoreVersion,
) -> Result<TantivyDocument, DeserializeError>
    ensures error { S.is_known source.old → (e : DeserializeError) (r : Refusal) → IsErrOf result e
        → store_stop e ≡ InputError r → NoDocument (version_of version) (S.left source.old) r }
    ensures no_room { S.is_known source.old → (e : DeserializeError) → IsErrOf result e → e ≡ HeapFull
        → HasNoRoom (version_of version) (S.left source.old) }
    ensures errors { IfErr result IsReadingError }
{
    match read_document(alloc, source, version) {
        Ok(found) => Ok(found),
        Err(refusal) => Err(refusal),
    }
}

/// That a source failed is reported exactly where it did, with its kind.
pub fn failures_are_told<S: ByteSource>(
    alloc: Global,
    source: &mut S,
    version: DocStoreVersion,
) -> Result<TantivyDocument, DeserializeError>
    ensures { Counts store_stop result (S.failures source.old) (S.failures source.new) }
{
    match read_document(alloc, source, version) {
        Ok(found) => Ok(found),
        Err(failure) => Err(failure),
    }
}
