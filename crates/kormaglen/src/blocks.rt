//! `export` and `check`.

use crate::ending::{Ending, Failure, escaped, failed, write_failed, wrong_use};
use crate::files::{Output, OutputSink, create, finish, print_lines};
use crate::inputs::{BlockSource, limits, schema_given, source, text, version};
use crate::progress::Progress;
use clap::ArgMatches;
use std::alloc::Global;
use tantivy_schema::schema::document::DeserializeError;
use tantivy_schema::schema::{Field, Schema};
use tantivy_schema::store::{LimitedReadError, Projection, RefusedDocument};
use tv_lines::check::check_block;
use tv_lines::errors::WorkError;
use tv_lines::export::{JsonLayout, export_block};

/// What broke the work on a block off, of which the results go to the output of this name.
pub(crate) fn broken(
    alloc: Global,
    given: &ArgMatches<'_>,
    output: &str,
    error: WorkError,
) -> Failure {
    match error {
        WorkError::Write(kind) => write_failed(alloc, output, kind),
        WorkError::Memory => Failure::Memory,
        other => failed(alloc, text(given, "BLOCK"), other),
    }
}

// The field of a name.
fn field_of(alloc: Global, schema: &Schema, name: &str) -> Result<Field, Failure> {
    match schema.get_field(name) {
        Ok(field) => Ok(field),
        Err(error) => Err(wrong_use(alloc, name, error)),
    }
}

// The fields of names with a comma between each two.
fn fields_of(alloc: Global, schema: &Schema, names: &str) -> Result<Vec<Field>, Failure> {
    let mut fields = Vec::new(alloc);
    for name in names.split(",") {
        fields.push(field_of(alloc, schema, name)?)?;
    }
    Ok(fields)
}

// What is to be printed of each document.
fn projection(
    alloc: Global,
    given: &ArgMatches<'_>,
    schema: &Schema,
) -> Result<Projection, Failure> {
    let limits = limits(given);
    let Some(names) = given.get_str("fields") else {
        return Ok(Projection::All(limits));
    };
    if limits.bytes.is_some() || limits.depth.is_some() {
        return Err(wrong_use(alloc, "--fields", "it can't stand beside a limit"));
    }
    Ok(Projection::Fields(fields_of(alloc, schema, names)?))
}

/// How documents are to be printed.
pub(crate) fn layout(given: &ArgMatches<'_>) -> JsonLayout {
    if given.get_flag("pretty") {
        JsonLayout::Pretty
    } else {
        JsonLayout::Compact
    }
}

// Appends what `projection` keeps of the documents of a block to a sink, as JSON.
fn export_into(
    rt: &HostRuntime,
    given: &ArgMatches<'_>,
    schema: &Schema,
    projection: &Projection,
    source: &mut BlockSource,
    sink: &mut OutputSink,
) -> Result<u64, WorkError> {
    let (alloc, version) = (rt.alloc(), version(given, "version"));
    let mut progress = Progress::of(rt, given, &[text(given, "BLOCK")]);
    let layout = layout(given);
    let exported = export_block(
        alloc,
        schema,
        version,
        projection,
        layout,
        source,
        sink,
        &mut progress,
    );
    progress.end();
    exported
}

/// Ends the output of work on a block. Where the work broke off, the output isn't there.
pub(crate) fn finish_work(
    rt: &HostRuntime,
    given: &ArgMatches<'_>,
    output: Output,
    work: Result<u64, WorkError>,
) -> Result<Ending, Failure> {
    match work {
        Ok(_) => finish(output)?,
        Err(error) => return Err(broken(rt.alloc(), given, text(given, "output"), error)),
    }
    Ok(Ending::Done)
}

// Prints what `projection` keeps of the documents that a source has left.
fn export_from(
    rt: &HostRuntime,
    given: &ArgMatches<'_>,
    schema: &Schema,
    projection: &Projection,
    mut source: BlockSource,
) -> Result<Ending, Failure> {
    let mut output = create(rt, text(given, "output"))?;
    let exported = export_into(rt, given, schema, projection, &mut source, output.sink());
    finish_work(rt, given, output, exported)
}

/// Prints the documents of a block as lines of JSON.
pub(crate) fn export(rt: &HostRuntime, given: &ArgMatches<'_>) -> Result<Ending, Failure> {
    let schema = schema_given(rt, given)?;
    let projection = projection(rt.alloc(), given, &schema)?;
    export_from(
        rt,
        given,
        &schema,
        &projection,
        source(rt, text(given, "BLOCK"))?,
    )
}

// Whether bytes were refused, and not a read or memory.
fn is_of_bytes(error: &LimitedReadError) -> bool {
    !matches!(
        error,
        LimitedReadError::Read(DeserializeError::Io(_) | DeserializeError::Memory)
    )
}

// What is printed of a block that was tested.
fn verdict(
    alloc: Global,
    name: &str,
    checked: Result<u64, RefusedDocument>,
) -> Result<(Ending, String), Failure> {
    match checked {
        Ok(documents) => {
            let line = format!(in alloc; "{name}: all right, {documents} documents")?;
            Ok((Ending::Done, escaped(alloc, line.as_str())?))
        }
        Err(refused) => {
            if !is_of_bytes(&refused.error) {
                return Err(failed(alloc, name, refused));
            }
            let line = format!(in alloc; "{name}: {refused}")?;
            Ok((Ending::Refused, escaped(alloc, line.as_str())?))
        }
    }
}

// Tests the block that a source has left, and says how many documents it has.
fn checked(
    rt: &HostRuntime,
    given: &ArgMatches<'_>,
    mut source: BlockSource,
) -> Result<u64, RefusedDocument> {
    let mut progress = Progress::of(rt, given, &[text(given, "BLOCK")]);
    let (version, limits) = (version(given, "version"), limits(given));
    let checked = check_block(rt.alloc(), version, limits, &mut source, &mut progress);
    progress.end();
    checked
}

/// Tests a block.
pub(crate) fn check(rt: &HostRuntime, given: &ArgMatches<'_>) -> Result<Ending, Failure> {
    let name = text(given, "BLOCK");
    let checked = checked(rt, given, source(rt, name)?);
    let (ending, line) = verdict(rt.alloc(), name, checked)?;
    print_lines(rt, &[line])?;
    Ok(ending)
}
