//! What comes of a document that is migrated and read back.

ghost use Rattle.std.specs.Prelude.{◌≡◌, [], ℕ, List, IfErr, IfOk};
ghost use Rattle.tv_doc.specs.Document.{document_of};
ghost use Rattle.tv_format.specs.Short.{short_document, IsDocument};
ghost use Rattle.tv_format.specs.Tree.{Document};
ghost use Rattle.tv_format.specs.WriteVersion.{written_version};
ghost use Rattle.tv_reader.specs.Version.{version_of};
ghost use Rattle.tv_store.specs.Documents.{BeginsWithDocument, BeginsWithRoom};
ghost use Rattle.tv_store.specs.Migrate.{IsMemory};

use crate::migration::{MigrateError, migrate};
use crate::round_trip::{RoundTripError, read_back};
use std::alloc::Global;
use tv_base::{SliceSource, VecSink};
use tv_doc::document::CompactDoc;
use tv_format::WriteVersion;
use tv_reader::laws::documents_have_one_reading;
use tv_reader::{DeserializeError, DocStoreVersion};
use tv_writer::SerializeError;

/// What was written of a document in a new version, and what was read back of that. (Not in tantivy.)
#[derive(Drop)]
pub struct MigrationTrip {
    /// What `migrate` wrote.
    pub written: Vec<u8>,
    /// What `read_document` read of that.
    pub back: CompactDoc,
    /// What it left unread.
    pub left: Vec<u8>,
}

// What is written of the document with which these bytes begin.
fn migrated_bytes(
    alloc: Global,
    bytes: &[u8],
    from: DocStoreVersion,
    to: WriteVersion,
) -> Result<Vec<u8>, RoundTripError>
    requires { (d : Document) × BeginsWithRoom (version_of from) bytes.now d }
    ensures valid { (d : Document) (rest : List ℕ) → BeginsWithDocument (version_of from) bytes.now rest d
        → IfOk result (λ _. IsDocument d) }
    ensures written { (d : Document) → BeginsWithRoom (version_of from) bytes.now d
        → IfOk result (λ written. written.items ≡ short_document (written_version to) d) }
    ensures memory { IfErr result (λ error. error ≡ RoundTripError.Memory) }
{
    documents_have_one_reading();
    let mut source = SliceSource::new(bytes);
    let mut sink = VecSink::new(alloc);
    match migrate(alloc, &mut source, from, &mut sink, to) {
        Ok(()) => Ok(sink.into_vec()),
        Err(error) => Err(memory_error(&error)),
    }
}

// The name of an error of migrating out of memory and into it.
fn memory_error(error: &MigrateError) -> RoundTripError
    requires { IsMemory error.now }
    ensures { result ≡ RoundTripError.Memory }
{
    match error {
        MigrateError::Read(DeserializeError::Memory) => RoundTripError::Memory,
        MigrateError::Write(SerializeError::Io(_)) => RoundTripError::Memory,
        MigrateError::Write(SerializeError::Memory) => RoundTripError::Memory,
        _ => unreachable!(),
    }
}

/// A law over the calls: bytes that begin with an encoding of a document with room, in any version, are migrated, and what was written
/// is read back in the new version. What was written is that document in the shortest encoding, the document that is read back is that
/// one, and nothing is left. The only error is `Memory`. (Not in tantivy.)
pub fn migrations_are_read_back(
    alloc: Global,
    bytes: &[u8],
    from: DocStoreVersion,
    to: WriteVersion,
    back: DocStoreVersion,
) -> Result<MigrationTrip, RoundTripError>
    requires begins { (d : Document) × BeginsWithRoom (version_of from) bytes.now d }
    requires new_version { version_of back ≡ written_version to }
    ensures written { (d : Document) → BeginsWithRoom (version_of from) bytes.now d
        → IfOk result (λ trip. trip.written.items ≡ short_document (written_version to) d) }
    ensures back { (d : Document) → BeginsWithRoom (version_of from) bytes.now d
        → IfOk result (λ trip. document_of trip.back ≡ d) }
    ensures nothing_left { IfOk result (λ trip. trip.left.items ≡ []) }
    ensures memory { IfErr result (λ error. error ≡ RoundTripError.Memory) }
{
    let written = migrated_bytes(alloc, bytes, from, to)?;
    let (document, left) = read_back(alloc, written.as_slice(), back)?;
    Ok(MigrationTrip {
        written,
        back: document,
        left,
    })
}
