//! All lines of an input to stored documents.

ghost use Rattle.std.specs.Prelude.{◌≡◌, ◌+◌, ◌-◌, ◌^◌, ◌<◌, ◌≤◌, [], OnOk};
ghost use Rattle.tv_lines.specs.Importing.{left_to};
ghost use Rattle.tv_lines.specs.Streams.{ReportsReads, ReportsWrites};
ghost use Rattle.tv_lines.specs.WholeImports.{CountsOutcome, ImportsInput, lines_sink_stop, lines_source_stop};

use crate::errors::Halt;
use crate::import::{LineImporter, LineOutcome};
use crate::report::{LineReport, Report};
use std::fmt::Display;
use thiserror::Error;
use tv_base::{ByteSink, ByteSource};
use tv_doc::parse_buffers::ParseBuffers;
use tv_schema::Schema;
use tv_store::Watch;

/// How many lines there were.
#[derive(Clone, Copy, Default)]
pub struct Imported {
    /// Those whose documents are stored.
    pub stored: u64,
    /// Those of them whose documents can't be searched.
    pub unsearchable: u64,
    /// Those that are refused.
    pub refused: u64,
}

/// Why an import of lines breaks off.
#[derive(Debug, Drop, Error)]
#[error_bound(E: Display)]
pub enum ImportLinesError<E> {
    /// The next line can't be read, or its document can't be stored.
    #[error("{0}")]
    Import(Halt),
    /// What became of the line can't be told.
    #[error("{0}")]
    Report(E),
    /// 2^64 - 1 lines were taken, and no more are counted.
    #[error("there are more lines than are counted")]
    TooMany,
}

// One line more.
fn counted(imported: Imported, outcome: &LineOutcome) -> Imported
    requires lines { imported.stored + imported.refused < 2 ^ 64 - 1 }
    requires unsearchable { imported.unsearchable ≤ imported.stored }
    ensures { CountsOutcome imported outcome.now result }
{
    let Imported {
        stored,
        unsearchable,
        refused,
    } = imported;
    match outcome {
        LineOutcome::Stored { size: _, fault } => Imported {
            stored: stored + 1,
            unsearchable: if fault.is_some() {
                unsearchable + 1
            } else {
                unsearchable
            },
            refused,
        },
        LineOutcome::Refused(_) => Imported {
            stored,
            unsearchable,
            refused: refused + 1,
        },
    }
}

/// Reads the lines of JSON that a source has left, appends the stored pairs of the document of each to the sink, and tells the report what became of each
/// line, by its number. Returns how many lines there were of each kind. See `LineImporter::advance`, of which this calls one after the other.
/// After each line the watch is advanced to the bytes that all of them took, their line feeds included: 2^64 - 1 where it is more. (Not in tantivy.)
///
/// Errors: `Import` with an error of `LineImporter::advance`; `Report` where a report failed, with its error; `TooMany` after 2^64 - 1 lines. The sink
/// then holds the documents of the lines before the one at which it broke off, after `Import` maybe also a beginning of its document, and after
/// `Report` all of it. The report then has the lines before it.
pub fn import_lines<S: ByteSource, K: ByteSink, T: Report<LineReport>, W: Watch>(
    importer: &mut LineImporter,
    schema: &Schema,
    buffers: &mut ParseBuffers,
    source: &mut S,
    sink: &mut K,
    report: &mut T,
    watch: &mut W,
) -> Result<Imported, ImportLinesError<T::Error>>
    ensures imports { S.is_known source.old → K.is_known sink.old → ImportsInput schema.now
        importer.old.rules (left_to importer.old (S.left source.old)) (K.held sink.old)
        (K.held sink.new) (T.is_known report.old) (T.told report.old) (T.told report.new) result }
    ensures all { S.is_known source.old → K.is_known sink.old
        → OnOk result (left_to importer.new (S.left source.new) ≡ []) }
    ensures rules { importer.new.rules ≡ importer.old.rules }
    ensures source { ReportsReads S.ByteSource lines_source_stop source.old source.new result }
    ensures sink { ReportsWrites K.ByteSink lines_sink_stop sink.old sink.new result }
    ensures report { T.is_known report.old → T.is_known report.new }
{
    let mut imported = Imported {
        stored: 0,
        unsearchable: 0,
        refused: 0,
    };
    let mut bytes: u64 = 0;
    for lines in 0..u64::MAX {
        match importer.advance(schema, buffers, source, sink) {
            Ok(Some(outcome)) => {
                imported = counted(imported, &outcome);
                let line = LineReport {
                    line: lines + 1,
                    outcome,
                };
                match report.tell(line) {
                    Ok(()) => {}
                    Err(error) => return Err(ImportLinesError::Report(error)),
                }
            }
            Ok(None) => return Ok(imported),
            Err(error) => return Err(ImportLinesError::Import(error)),
        }
        bytes = bytes.saturating_add(importer.bytes_read());
        watch.advance(bytes);
    }
    Err(ImportLinesError::TooMany)
}
