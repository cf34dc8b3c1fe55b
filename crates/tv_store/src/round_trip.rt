//! What comes of values that are added to a document, stored, and read back.

ghost use Rattle.std.specs.Prelude.{◌≡◌, ◌<◌, ◌⊎◌, ◌++◌, ℕ, List, length, map, IfErr, IfOk, IsErrOf};
ghost use Rattle.std.specs.List.{AllByRecursion};
ghost use Rattle.tv_doc.specs.Belongs.{Belongs};
ghost use Rattle.tv_doc.specs.Document.{document_of};
ghost use Rattle.tv_heap.specs.Room.{document_room};
ghost use Rattle.tv_reader.specs.Version.{version_of};
ghost use Rattle.tv_store.specs.RoundTrip.{IsCalled, IsRoundTrip, pair_of_value};
ghost use Rattle.tv_store.specs.Stored.{stored};
ghost use Rattle.tv_format.specs.Short.{short_document, IsDocument};
ghost use Rattle.tv_format.specs.Tree.{Document};
ghost use Rattle.tv_format.specs.Version.{V2, IsWritten};

use crate::de::read_document;
use crate::laws::{stored_pairs_are_valid, stored_pairs_need_no_more_room};
use crate::se::BinaryDocumentSerializer;
use std::alloc::{AllocError, Global};
use thiserror::Error;
use tv_base::{SliceSource, VecSink};
use tv_doc::document::CompactDoc;
use tv_doc::laws::documents_are_valid;
use tv_reader::laws::{
    documents_have_one_reading, malformed_documents_derive_none, short_documents_encode,
};
use tv_reader::{DeserializeError, DocStoreVersion};
use tv_schema::Schema;
use tv_value::field::Field;
use tv_value::owned_value::OwnedValue;
use tv_writer::SerializeError;

/// What was added, written and read back. (Not in tantivy.)
#[derive(Drop)]
pub struct RoundTrip {
    /// The document with the values that were accepted.
    pub added: CompactDoc,
    /// What `serialize_doc` wrote of it.
    pub written: Vec<u8>,
    /// What `read_document` read of that, with other bytes after.
    pub back: CompactDoc,
    /// What it left unread.
    pub left: Vec<u8>,
}

/// Why a document isn't stored and read back. (Not in tantivy.)
#[derive(Clone, Copy, Debug, PartialEq, Eq, Error)]
pub enum RoundTripError {
    /// The values need more room than 4294967295 bytes.
    #[error("the values need more room than a heap has")]
    HeapFull,
    /// Memory was refused.
    #[error("memory was refused")]
    Memory,
}

impl From<AllocError> for RoundTripError {
    ghost use Rattle.tv_store.specs.declared.round_trip.RoundTripError.TheVariants.{Memory};

    ghost from_gives = { λ _ error. error ≡ Memory };

    fn from(_error: AllocError) -> RoundTripError {
        RoundTripError::Memory
    }
}

// Adds each value, and goes on where one is refused.
fn add_all(document: &mut CompactDoc, values: &[(Field, OwnedValue)])
    ensures { IsCalled values.now document.old document.new }
{
    for (field, value) in values {
        let _ = document.add_field_value(*field, &value);
    }
}

// The bytes that are stored of a document.
fn stored_bytes(
    alloc: Global,
    schema: &Schema,
    document: &CompactDoc,
) -> Result<Vec<u8>, RoundTripError>
    requires { Belongs schema.now (document_of document.now) }
    ensures bytes { IfOk result
        (λ bytes. bytes.items ≡ short_document V2 (stored schema.now (document_of document.now))) }
    ensures memory { IfErr result (λ error. error ≡ RoundTripError.Memory) }
{
    let mut sink = VecSink::new(alloc);
    match BinaryDocumentSerializer::new(&mut sink, schema).serialize_doc(document) {
        Ok(()) => Ok(sink.into_vec()),
        Err(SerializeError::Io(_) | SerializeError::Memory) => Err(RoundTripError::Memory),
        Err(_) => unreachable!(),
    }
}

// The name of an error of reading what was written.
fn reading_error(error: &DeserializeError) -> RoundTripError
    requires { (error.now ≡ DeserializeError.Memory) ⊎ (error.now ≡ DeserializeError.HeapFull) }
    ensures { result ≡ RoundTripError.HeapFull → error.now ≡ DeserializeError.HeapFull }
{
    match error {
        DeserializeError::Memory => RoundTripError::Memory,
        DeserializeError::HeapFull => RoundTripError::HeapFull,
        _ => unreachable!(),
    }
}

// The document of which these bytes begin with the shortest encoding in a version that is written, and the bytes after it.
pub(crate) fn read_back(
    alloc: Global,
    bytes: &[u8],
    version: DocStoreVersion,
) -> Result<(CompactDoc, Vec<u8>), RoundTripError>
    requires written { IsWritten (version_of version) }
    requires begins { (d : Document) × ((rest : List ℕ) × (IsDocument d
        × (bytes.now ≡ short_document (version_of version) d ++ rest))) }
    ensures found { (d : Document) (rest : List ℕ) → IsDocument d
        → bytes.now ≡ short_document (version_of version) d ++ rest
        → IfOk result (λ read. (document_of read.0 ≡ d) × (read.1.items ≡ rest)) }
    ensures no_room { (d : Document) (rest : List ℕ) → IsDocument d
        → bytes.now ≡ short_document (version_of version) d ++ rest
        → IsErrOf result RoundTripError.HeapFull → 4294967295 < document_room d }
{
    documents_have_one_reading();
    malformed_documents_derive_none();
    short_documents_encode();
    let mut source = SliceSource::new(bytes);
    match read_document(alloc, &mut source, version) {
        Ok(back) => {
            let left = Vec::from_slice(alloc, source.rest())?;
            Ok((back, left))
        }
        Err(error) => Err(reading_error(&error)),
    }
}

/// The headline, over the calls: each value is added with `add_field_value`, whatever the call before it returned; the document is written
/// with `serialize_doc`; and it is read back with `read_document` from what was written and other bytes after it. Each addition returned
/// what it had to, the document has just the accepted pairs, and its heap reads each at its place. What was written is the stored pairs
/// in the shortest encoding. What is read back is the stored pairs, and just the other bytes are left. (Not in tantivy.)
///
/// The fields are those of the schema. `HeapFull` comes only where the values need more room than 4294967295 bytes, else memory was
/// refused.
pub fn additions_are_stored_and_read_back(
    alloc: Global,
    schema: &Schema,
    values: &[(Field, OwnedValue)],
    rest: &[u8],
) -> Result<RoundTrip, RoundTripError>
    requires { AllByRecursion (λ value. value.0.id < length schema.now) values.now }
    ensures trip { IfOk result (IsRoundTrip schema.now values.now rest.now) }
    ensures no_room { IsErrOf result RoundTripError.HeapFull
        → 4294967295 < document_room (map pair_of_value values.now) }
{
    documents_are_valid();
    stored_pairs_are_valid();
    stored_pairs_need_no_more_room();
    let mut added = CompactDoc::new(alloc);
    add_all(&mut added, values);
    let written = stored_bytes(alloc, schema, &added)?;
    let mut bytes = Vec::from_slice(alloc, written.as_slice())?;
    bytes.extend_from_slice(rest)?;
    let (back, left) = read_back(alloc, bytes.as_slice(), DocStoreVersion::V2)?;
    Ok(RoundTrip {
        added,
        written,
        back,
        left,
    })
}
