//! `migrate`.

use crate::blocks::finish_work;
use crate::ending::{Ending, Failure};
use crate::files::{OutputSink, create};
use crate::inputs::{BlockSource, source, text, version, written_version};
use crate::progress::Progress;
use clap::ArgMatches;
use tantivy_schema::schema::document::SerializeError;
use tantivy_schema::store::{MigrateBlockError, migrate_block};
use tv_lines::errors::WorkError;

// The same, as the work on a block says it.
fn told(error: MigrateBlockError) -> WorkError {
    match error {
        MigrateBlockError::Read(refused) => WorkError::Read(refused),
        MigrateBlockError::Write { error, .. } => match error {
            SerializeError::Io(kind) => WorkError::Write(kind),
            _ => WorkError::Memory,
        },
        MigrateBlockError::TooMany => WorkError::TooMany,
    }
}

// Appends the documents that a source has left to a sink, in another version.
fn migrate_into(
    rt: &HostRuntime,
    given: &ArgMatches<'_>,
    source: &mut BlockSource,
    sink: &mut OutputSink,
) -> Result<u64, WorkError> {
    let (from, to) = (version(given, "from"), written_version(given, "to"));
    let mut progress = Progress::of(rt, given, &[text(given, "BLOCK")]);
    let migrated = migrate_block(rt.alloc(), source, from, sink, to, &mut progress);
    progress.end();
    match migrated {
        Ok(documents) => Ok(documents),
        Err(error) => Err(told(error)),
    }
}

/// Writes the documents of a block in another version.
pub(crate) fn migrate(rt: &HostRuntime, given: &ArgMatches<'_>) -> Result<Ending, Failure> {
    let mut source = source(rt, text(given, "BLOCK"))?;
    let mut output = create(rt, text(given, "output"))?;
    let migrated = migrate_into(rt, given, &mut source, output.sink());
    finish_work(rt, given, output, migrated)
}
