//! Blocks of documents that are read in one version of the store and written in another.

ghost use Rattle.tv_format.specs.WriteVersion.{written_version};
ghost use Rattle.tv_reader.specs.Version.{version_of};
ghost use Rattle.tv_store.specs.BlockMigration.{MigratesBlock};

use crate::block::{BlockReader, RefusedDocument};
use crate::limits::LimitedReadError;
use crate::pair_writer::write_document;
use std::alloc::Global;
use thiserror::Error;
use tv_base::{ByteSink, ByteSource};
use tv_doc::laws::documents_are_valid;
use tv_format::WriteVersion;
use tv_reader::DocStoreVersion;
use tv_writer::SerializeError;

/// An observer of how far the work on an input has come: a display of progress, say. (Not in tantivy.)
pub trait Watch {
    /// One more document, or line, has been done, and `bytes` bytes of the input have been taken from its beginning on.
    fn advance(&mut self, bytes: u64);
}

/// Work that isn't watched. (Not in tantivy.)
#[derive(Clone, Copy)]
pub struct Unwatched;

impl Watch for Unwatched {
    fn advance(&mut self, _bytes: u64) {}
}

/// Which document of a block wasn't migrated, and why. (Not in tantivy.)
#[derive(Debug, PartialEq, Drop, Error)]
pub enum MigrateBlockError {
    /// The document can't be read.
    #[error("{0}")]
    Read(RefusedDocument),
    /// The document can't be written.
    #[error("document {document}, which begins at byte {start}, can't be written: {error}")]
    Write {
        /// The number of the document, counted from 0.
        document: u64,
        /// The byte of the block at which it begins: 2^64 - 1 where it is more.
        start: u64,
        /// Why it can't be written: `Io` or `Memory`.
        error: SerializeError,
    },
    /// 2^64 - 1 documents were migrated, and no more are counted.
    #[error("there are more documents than are counted")]
    TooMany,
}

/// Reads the documents that a source has left, which stand one after the other in one version of the store, and appends each to the sink in the
/// shortest encoding of the other, as `migrate` does. Returns how many there were; an empty block has none. The memory of a document serves the next. After
/// each document `watch` is advanced to the bytes that were taken. (Not in tantivy.)
///
/// Errors: `Read` for the first document that can't be read, with its number, its places and the error of `read_document`; `Write` for the first that
/// can't be written, with `Io` where the sink failed, and with `Memory` where memory was refused for a value that nests deeper than `MAX_DEPTH`
/// levels; `TooMany` after 2^64 - 1 documents. The sink then holds what it held before, all documents before that one, and of that one nothing
/// after `Read`, and after `Write` a beginning of what was to be written. The source stands after the document then.
///
/// ```
/// pub fn to_version_3(alloc: Global, block: &[u8]) -> Result<Vec<u8>, MigrateBlockError> {
///     let mut source = SliceSource::new(block);
///     let mut sink = VecSink::new(alloc);
///     let (from, to) = (DocStoreVersion::V2, WriteVersion::V3);
///     migrate_block(alloc, &mut source, from, &mut sink, to, &mut Unwatched)?;
///     Ok(sink.into_vec())
/// }
/// ```
pub fn migrate_block<S: ByteSource, K: ByteSink, W: Watch>(
    alloc: Global,
    source: &mut S,
    from: DocStoreVersion,
    sink: &mut K,
    to: WriteVersion,
    watch: &mut W,
) -> Result<u64, MigrateBlockError>
    ensures { MigratesBlock (version_of from) (written_version to) S.ByteSource source.old source.new
        K.ByteSink sink.old sink.new result }
{
    documents_are_valid();
    let mut reader = BlockReader::new(alloc, from);
    for document in 0..u64::MAX {
        let start = reader.start();
        match reader.advance(source) {
            Ok(true) => {
                if let Err(error) = write_document(sink, to, reader.document()) {
                    return Err(MigrateBlockError::Write {
                        document,
                        start,
                        error,
                    });
                }
                watch.advance(reader.start());
            }
            Ok(false) => return Ok(document),
            Err(error) => {
                let refused = reader.refusal(LimitedReadError::Read(error));
                return Err(MigrateBlockError::Read(refused));
            }
        }
    }
    Err(MigrateBlockError::TooMany)
}
