//! Blocks of stored documents, tested.

ghost use Rattle.std.specs.Prelude.{◌<◌, ◌-◌, ◌^◌, length};
ghost use Rattle.tv_lines.specs.Checking.{TestsBlock};
ghost use Rattle.tv_lines.specs.Streams.{ReportsReads};
ghost use Rattle.tv_reader.specs.Version.{version_of};
ghost use Rattle.tv_store.specs.Projections.{refused_stop};

use std::alloc::Global;
use tv_base::{ByteSource, Cause};
use tv_store::{
    BlockReader, DeserializeError, DocStoreVersion, LimitedReadError, Projection, ReadLimits,
    RefusedDocument, Watch,
};

/// Tests that what a source has left is a block of documents of this version, each within the limits, one after the other and nothing else, and returns
/// how many documents there are. Without limits nothing is kept of them, whatever they hold and however deep that nests. `watch` is advanced after
/// each document that passes, with the bytes from the first on. (Not in tantivy.)
///
/// Errors: `RefusedDocument` for the first document that is refused, with the error of `skip_document`, or within limits of `read_document_within`;
/// `TooLong` after 2^64 - 1 documents or bytes.
pub fn check_block<S: ByteSource, W: Watch>(
    alloc: Global,
    version: DocStoreVersion,
    limits: ReadLimits,
    source: &mut S,
    watch: &mut W,
) -> Result<u64, RefusedDocument>
    ensures tests { S.is_known source.old → length (S.left source.old) < 2 ^ 64 - 1 → TestsBlock
        (version_of version) limits (S.left source.old) (S.left source.new) result }
    ensures source { ReportsReads S.ByteSource refused_stop source.old source.new result }
{
    let mut reader = BlockReader::new(alloc, version);
    let projection = Projection::All(limits);
    for documents in 0..u64::MAX {
        match reader.pass_by(source, &projection) {
            Ok(true) => watch.advance(reader.start()),
            Ok(false) => return Ok(documents),
            Err(error) => return Err(error),
        }
    }
    Err(reader.refusal(LimitedReadError::Read(DeserializeError::CorruptedValue(Cause::TooLong))))
}
