//! Blocks of documents as lines of JSON.

ghost use Rattle.std.specs.Prelude.{◌≡◌, IfErr, IfOk};
ghost use Rattle.tv_blocks.specs.Blocks.{IsExported, IsPrintedBlock, IsRefusedBlock};
ghost use Rattle.tv_blocks.specs.Buffer.{FillsBuffer};
ghost use Rattle.tv_blocks.specs.Refusals.{IsBlockRefusal, IsExportRefusal, export_refusal};
ghost use Rattle.tv_reader.specs.Version.{version_of};

use crate::block_error::{BlockError, refused};
use crate::buffer::put_whole;
use crate::schema_text::read_schema;
use std::alloc::Global;
use tv_base::{SliceSource, VecSink};
use tv_lines::errors::WorkError;
use tv_lines::export::JsonLayout;
use tv_schema::Schema;
use tv_store::{DocStoreVersion, Projection, ReadLimits, Unwatched};

// What is said of a document that isn't printed. A sink in memory fails where memory is refused, and a slice has fewer documents than are counted.
fn unprinted(error: &WorkError) -> BlockError
    ensures { result ≡ export_refusal error.now }
{
    match error {
        WorkError::Read(document) => refused(document),
        WorkError::Write(_) | WorkError::Memory | WorkError::TooMany => BlockError::Memory,
    }
}

// The lines of the documents of the block.
fn printed_lines(
    alloc: Global,
    schema: &Schema,
    version: DocStoreVersion,
    block: &[u8],
) -> Result<Vec<u8>, BlockError>
    ensures ok { IfOk result (λ lines.
        IsPrintedBlock schema.now (version_of version) block.now lines.items) }
    ensures err { IfErr result (IsRefusedBlock (version_of version) block.now) }
{
    let mut source = SliceSource::new(block);
    let mut sink = VecSink::new(alloc);
    match tv_lines::export::export_block(
        alloc,
        schema,
        version,
        &Projection::All(ReadLimits {
            bytes: None,
            heap_bytes: None,
            depth: None,
        }),
        JsonLayout::Compact,
        &mut source,
        &mut sink,
        &mut Unwatched,
    ) {
        Ok(_) => Ok(sink.into_vec()),
        Err(error) => Err(unprinted(&error)),
    }
}

/// Writes the documents of a block, which stand one after the other, as lines of JSON by the names of the schema's fields, see `to_json`, and
/// returns how many bytes these take.
///
/// Errors: `BadDocument` for the first document that can't be read, `TooSmall`, `Memory`. The buffer then stays as it is.
pub fn export_block_by(
    alloc: Global,
    schema: &Schema,
    version: DocStoreVersion,
    block: &[u8],
    lines: &mut [u8],
) -> Result<u64, BlockError>
    ensures { FillsBuffer (IsPrintedBlock schema.now (version_of version) block.now)
        (IsBlockRefusal (version_of version) block.now) lines.old lines.new result }
{
    let printed = printed_lines(alloc, schema, version, block)?;
    put_whole(printed.as_slice(), lines)
}

/// Writes the documents of a block as lines of JSON, see `export_block_by`, and returns how many bytes these take.
///
/// Errors: `InvalidJson`, `BadSchemaKey`, `BadSchemaEntry` and `BadSchema` where the schema is refused, else `BadDocument` for the first
/// document that can't be read, `TooSmall`, `Memory`. The buffer then stays as it is.
pub fn export_block(
    alloc: Global,
    schema: &[u8],
    version: DocStoreVersion,
    block: &[u8],
    lines: &mut [u8],
) -> Result<u64, BlockError>
    ensures { FillsBuffer (IsExported schema.now (version_of version) block.now)
        (IsExportRefusal schema.now (version_of version) block.now) lines.old lines.new result }
{
    let schema = read_schema(alloc, schema)?;
    export_block_by(alloc, &schema, version, block, lines)
}
