//! Blocks of documents in another version of the store.

ghost use Rattle.std.specs.Prelude.{◌≡◌, IfErr, IfOk};
ghost use Rattle.tv_blocks.specs.Blocks.{IsRefusedBlock};
ghost use Rattle.tv_blocks.specs.Buffer.{FillsBuffer};
ghost use Rattle.tv_blocks.specs.Refusals.{IsBlockRefusal, migration_refusal};
ghost use Rattle.tv_format.specs.WriteVersion.{written_version};
ghost use Rattle.tv_reader.specs.Version.{version_of};
ghost use Rattle.tv_store.specs.BlockMigration.{IsMigrated};

use crate::block_error::{BlockError, refused};
use crate::buffer::put_whole;
use std::alloc::Global;
use tv_base::{SliceSource, VecSink};
use tv_format::WriteVersion;
use tv_store::{DocStoreVersion, MigrateBlockError, Unwatched};

// What is said of a document that wasn't migrated. A sink in memory fails where memory is refused, and a slice has fewer documents than are counted.
fn unmigrated(failed: &MigrateBlockError) -> BlockError
    ensures { result ≡ migration_refusal failed.now }
{
    match failed {
        MigrateBlockError::Read(document) => refused(document),
        MigrateBlockError::Write { .. } => BlockError::Memory,
        MigrateBlockError::TooMany => BlockError::Memory,
    }
}

// The documents of the block in the other version.
fn migrated_bytes(
    alloc: Global,
    from: DocStoreVersion,
    block: &[u8],
    to: WriteVersion,
) -> Result<Vec<u8>, BlockError>
    ensures ok { IfOk result (λ bytes.
        IsMigrated (version_of from) (written_version to) block.now bytes.items) }
    ensures err { IfErr result (IsRefusedBlock (version_of from) block.now) }
{
    let mut source = SliceSource::new(block);
    let mut sink = VecSink::new(alloc);
    match tv_store::migrate_block(alloc, &mut source, from, &mut sink, to, &mut Unwatched) {
        Ok(_) => Ok(sink.into_vec()),
        Err(failed) => Err(unmigrated(&failed)),
    }
}

/// Writes the documents of a block, which stand one after the other in one version of the store, in the shortest encoding of the other, see
/// `tv_store::migrate_block`, and returns how many bytes these take.
///
/// Errors: `BadDocument` for the first document that can't be read, `TooSmall`, `Memory`. The buffer then stays as it is.
pub fn migrate_block(
    alloc: Global,
    from: DocStoreVersion,
    block: &[u8],
    to: WriteVersion,
    migrated: &mut [u8],
) -> Result<u64, BlockError>
    ensures { FillsBuffer (IsMigrated (version_of from) (written_version to) block.now)
        (IsBlockRefusal (version_of from) block.now) migrated.old migrated.new result }
{
    let bytes = migrated_bytes(alloc, from, block, to)?;
    put_whole(bytes.as_slice(), migrated)
}
