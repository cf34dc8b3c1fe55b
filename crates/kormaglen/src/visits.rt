//! Work on each document of a block.

use crate::ending::{Failure, failed};
use crate::inputs::{BlockSource, limits, source, text, version};
use crate::progress::Progress;
use clap::ArgMatches;
use std::alloc::{AllocError, Global};
use tantivy_schema::schema::{Field, TantivyDocument};
use tantivy_schema::store::{BlockReader, Projection, Watch};

/// What is done with each document of a block.
pub(crate) trait Visit {
    /// Takes the next document, after which this many bytes of the block have been taken.
    fn visit(&mut self, document: &TantivyDocument, bytes: u64) -> Result<(), Failure>;
}

/// What is read of each document by a command that needs these fields alone: all of it where the words set a limit, else their values.
pub(crate) fn fields_within(
    alloc: Global,
    given: &ArgMatches<'_>,
    fields: &[Field],
) -> Result<Projection, AllocError> {
    let limits = limits(given);
    if limits.bytes.is_some() || limits.depth.is_some() {
        return Ok(Projection::All(limits));
    }
    Ok(Projection::Fields(Vec::from_slice(alloc, fields)?))
}

// Shows what `projection` keeps of the documents that a source has left to a visitor.
fn visit_left<V: Visit>(
    alloc: Global,
    given: &ArgMatches<'_>,
    projection: &Projection,
    source: &mut BlockSource,
    visitor: &mut V,
    progress: &mut Progress,
) -> Result<(), Failure> {
    let mut reader = BlockReader::new(alloc, version(given, "version"));
    for _ in 0..u64::MAX {
        match reader.advance_by(source, projection) {
            Ok(true) => {}
            Ok(false) => break,
            Err(error) => return Err(failed(alloc, text(given, "BLOCK"), error)),
        }
        visitor.visit(reader.document(), reader.start())?;
        progress.advance(reader.start());
    }
    Ok(())
}

/// Shows what `projection` keeps of the documents of the block that the words name to a visitor, and how far that has come.
pub(crate) fn visit_block<V: Visit>(
    rt: &HostRuntime,
    given: &ArgMatches<'_>,
    projection: &Projection,
    visitor: &mut V,
) -> Result<(), Failure> {
    let name = text(given, "BLOCK");
    let mut source = source(rt, name)?;
    let mut progress = Progress::of(rt, given, &[name]);
    let visited = visit_left(
        rt.alloc(),
        given,
        projection,
        &mut source,
        visitor,
        &mut progress,
    );
    progress.end();
    visited
}
