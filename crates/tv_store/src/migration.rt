//! Documents that are read in one version of the store and written in another.

ghost use Rattle.std.specs.Prelude.{◌≡◌};
ghost use Rattle.tv_format.specs.WriteVersion.{written_version};
ghost use Rattle.tv_reader.specs.Version.{version_of};
ghost use Rattle.tv_store.specs.Migrate.{Migrates};
ghost use Rattle.tv_store.specs.declared.migration.MigrateError.{MigrateError};
ghost use Rattle.tv_writer.specs.declared.serializers.SerializeError.{SerializeError};

use crate::de::read_document;
use crate::pair_writer::write_document;
use std::alloc::Global;
use thiserror::Error;
use tv_base::{ByteSink, ByteSource, WriteError};
use tv_doc::laws::documents_are_valid;
use tv_format::WriteVersion;
use tv_reader::{DeserializeError, DocStoreVersion};
use tv_writer::SerializeError;

/// Why a document wasn't migrated. (Not in tantivy.)
#[derive(Debug, PartialEq, Drop, Error)]
pub enum MigrateError {
    /// The document couldn't be read.
    #[error("{0}")]
    Read(DeserializeError),
    /// The document couldn't be written.
    #[error("{0}")]
    Write(SerializeError),
}

impl From<DeserializeError> for MigrateError {
    ghost from_gives = { λ error told. told ≡ MigrateError.Read error };

    fn from(error: DeserializeError) -> MigrateError {
        MigrateError::Read(error)
    }
}

impl From<WriteError> for MigrateError {
    ghost from_gives = { λ failed told. told ≡ MigrateError.Write (SerializeError.Io failed.0) };

    fn from(failed: WriteError) -> MigrateError {
        MigrateError::Write(SerializeError::Io(failed.0))
    }
}

impl From<SerializeError> for MigrateError {
    ghost from_gives = { λ error told. told ≡ MigrateError.Write error };

    fn from(error: SerializeError) -> MigrateError {
        MigrateError::Write(error)
    }
}

/// Reads a document in one version of the store, as `read_document` does, and then appends all its pairs to the sink in the shortest
/// encoding of the other. A text with its tokens keeps them, also where it is a pair's value. (Not in tantivy.)
///
/// Errors: `Read` with an error of `read_document`, and then nothing was written; else `Write` with `Io` where the sink failed, and
/// with `Memory` where memory was refused for a value that nests deeper than `MAX_DEPTH` levels. The source then stands after the document,
/// and the sink holds what it held before and a beginning of what was to be written.
pub fn migrate<S: ByteSource, K: ByteSink>(
    alloc: Global,
    source: &mut S,
    from: DocStoreVersion,
    sink: &mut K,
    to: WriteVersion,
) -> Result<(), MigrateError>
    ensures { Migrates (version_of from) (written_version to) S.ByteSource source.old source.new
        K.ByteSink sink.old sink.new result }
{
    documents_are_valid();
    let document = read_document(alloc, source, from)?;
    write_document(sink, to, &document)?;
    Ok(())
}
