//! `import`.

ghost use Rattle.std.specs.Prelude.{[]};

use crate::ending::{Ending, Failure, escaped, failed, write_failed};
use crate::faults::why_faulty;
use crate::files::{Output, create, create_optional, finish_all};
use crate::inputs::{schema_given, source, text, written_version};
use crate::progress::{ERASING, Progress};
use clap::ArgMatches;
use std::alloc::{AllocError, AllocFailed, Global};
use std::io::Eprint;
use tantivy_schema::schema::document::ParseBuffers;
use tantivy_schema::schema::{Schema, TermValuesError};
use tv_lines::Halt;
use tv_lines::import::{FaultRule, ImportRules, LineImporter, LineOutcome};
use tv_lines::imports::{ImportLinesError, import_lines};
use tv_lines::line_document::LineError;
use tv_lines::report::{LineReport, Report};

// The report of an import: where lines that are refused are reported, where documents begin, and how many there were of each kind.
#[derive(Drop)]
struct Reports<'s> {
    rt: HostRuntime,
    schema: &'s Schema,
    name: String,
    offsets: Option<Output>,
    errors: Option<Output>,
    // Whether a line of progress is erased before a report that goes to the standard error.
    is_erasing: bool,
    bytes: u64,
    stored: u64,
    unsearchable: u64,
    refused: u64,
}

// The rules that the words give.
fn rules(given: &ArgMatches<'_>) -> ImportRules {
    let strict = given.get_flag("strict");
    ImportRules {
        version: written_version(given, "store-version"),
        strict,
        faults: if strict {
            FaultRule::Refuse
        } else {
            FaultRule::Tell
        },
    }
}

// A line that says something of a line of an input.
fn line_of(alloc: Global, name: &str, line: u64, said: &str) -> Result<String, AllocError> {
    let mut text = escaped(alloc, format!(in alloc; "{name}:{line}: {said}")?.as_str())?;
    text.push('\n')?;
    Ok(text)
}

// What a file holds isn't known.
impl<'s> Report<LineReport> for Reports<'s> {
    type Error = Failure;

    ghost is_known = { λ _. ⊥ };

    ghost told = { λ _. [] };

    fn tell(&mut self, line: LineReport) -> Result<(), Failure> {
        let LineReport { line, outcome } = line;
        match outcome {
            LineOutcome::Stored { size, fault } => {
                if let Some(fault) = fault {
                    self.tell_unsearchable(line, &fault)?;
                }
                self.tell_stored(size)
            }
            LineOutcome::Refused(error) => self.tell_refused(line, error),
        }
    }
}

impl<'s> Reports<'s> {
    // Prints a line to the standard error.
    fn print(&self, text: &str) {
        let erasing = if self.is_erasing { ERASING } else { "" };
        let _ = eprint!(self.rt; "{erasing}{text}");
    }

    // Counts a document of this size, and writes where it begins if that is asked for.
    fn tell_stored(&mut self, size: u64) -> Result<(), Failure> {
        let begin = self.bytes;
        self.bytes = begin.saturating_add(size);
        self.stored = self.stored.saturating_add(1);
        match &mut self.offsets {
            Some(output) => output.append(&begin.to_le_bytes()),
            None => Ok(()),
        }
    }

    // Counts a document that is stored and can't be searched, and prints why.
    fn tell_unsearchable(&mut self, line: u64, fault: &TermValuesError) -> Result<(), AllocError> {
        let alloc = self.rt.alloc();
        let why = why_faulty(alloc, self.schema, fault)?;
        let said = format!(in alloc; "stored, and can't be searched: {why}")?;
        self.unsearchable = self.unsearchable.saturating_add(1);
        self.print(line_of(alloc, self.name.as_str(), line, said.as_str())?.as_str());
        Ok(())
    }

    // Counts a line that is refused, and writes or prints why.
    fn tell_refused(&mut self, line: u64, error: LineError) -> Result<(), Failure> {
        let alloc = self.rt.alloc();
        let said = format!(in alloc; "{error}")?;
        let text = line_of(alloc, self.name.as_str(), line, said.as_str())?;
        self.refused = self.refused.saturating_add(1);
        if let Some(output) = &mut self.errors {
            return output.append(text.as_str().as_bytes());
        }
        self.print(text.as_str());
        Ok(())
    }
}

// What broke an import off.
fn broken(
    alloc: Global,
    given: &ArgMatches<'_>,
    name: &str,
    error: ImportLinesError<Failure>,
) -> Failure {
    match error {
        ImportLinesError::Import(Halt::Read(kind)) => failed(alloc, name, kind),
        ImportLinesError::Import(Halt::Write(kind)) => {
            write_failed(alloc, text(given, "output"), kind)
        }
        ImportLinesError::Import(Halt::Memory) => Failure::Memory,
        ImportLinesError::Import(Halt::TooLong) => failed(alloc, name, "it has too many bytes"),
        ImportLinesError::Report(failure) => failure,
        ImportLinesError::TooMany => failed(alloc, name, "it has too many lines"),
    }
}

// Imports the lines of a file.
fn import_file(
    reports: &mut Reports<'_>,
    given: &ArgMatches<'_>,
    schema: &Schema,
    importer: &mut LineImporter,
    buffers: &mut ParseBuffers,
    block: &mut Output,
    progress: &mut Progress,
) -> Result<(), Failure> {
    let alloc = reports.rt.alloc();
    let mut source = source(&reports.rt, reports.name.as_str())?;
    progress.begin_input();
    match import_lines(
        importer,
        schema,
        buffers,
        &mut source,
        block.sink(),
        reports,
        progress,
    ) {
        Ok(_) => Ok(()),
        Err(error) => Err(broken(alloc, given, reports.name.as_str(), error)),
    }
}

// Imports the lines of these files one after the other.
fn import_each(
    reports: &mut Reports<'_>,
    given: &ArgMatches<'_>,
    schema: &Schema,
    names: &[&str],
    block: &mut Output,
    progress: &mut Progress,
) -> Result<(), Failure> {
    let alloc = reports.rt.alloc();
    let mut importer = LineImporter::new(alloc, rules(given));
    let mut buffers = ParseBuffers::new(alloc);
    for name in names {
        reports.name = String::from_str(alloc, name)?;
        import_file(
            reports,
            given,
            schema,
            &mut importer,
            &mut buffers,
            block,
            progress,
        )?;
    }
    Ok(())
}

// Imports the lines of these files, and shows how far that has come.
fn import_files(
    reports: &mut Reports<'_>,
    given: &ArgMatches<'_>,
    schema: &Schema,
    names: &[&str],
    block: &mut Output,
) -> Result<(), Failure> {
    let mut progress = Progress::of(&reports.rt, given, names);
    reports.is_erasing = progress.is_shown();
    let ended = import_each(reports, given, schema, names, block, &mut progress);
    progress.end();
    ended
}

// Begins to report.
fn begin<'s>(
    rt: &HostRuntime,
    given: &ArgMatches<'_>,
    schema: &'s Schema,
) -> Result<Reports<'s>, Failure> {
    Ok(Reports {
        rt: *rt,
        schema,
        name: String::new(rt.alloc()),
        offsets: create_optional(rt, given.get_str("offsets"))?,
        errors: create_optional(rt, given.get_str("errors"))?,
        is_erasing: false,
        bytes: 0,
        stored: 0,
        unsearchable: 0,
        refused: 0,
    })
}

// The outputs that were begun, with the block first.
fn begun(
    alloc: Global,
    block: Output,
    others: [Option<Output>; 2],
) -> Result<Vec<Output>, AllocFailed<Output>> {
    let mut outputs = Vec::new(alloc);
    outputs.push(block)?;
    for other in others {
        if let Some(output) = other {
            outputs.push(output)?;
        }
    }
    Ok(outputs)
}

// What was imported: how many documents were stored and lines refused, and how many of the documents can't be searched, if any.
fn imported(alloc: Global, reports: &Reports<'_>) -> Result<String, AllocError> {
    let (stored, bytes, refused) = (reports.stored, reports.bytes, reports.refused);
    let mut said = format!(in alloc;
        "{stored} documents stored in {bytes} bytes, {refused} lines refused"
    )?;
    if reports.unsearchable > 0 {
        let unsearchable = reports.unsearchable;
        said.push_str(format!(in alloc; ", {unsearchable} documents can't be searched")?.as_str())?;
    }
    Ok(said)
}

// Ends the outputs, and says what was imported unless the words ask for quiet.
fn end(given: &ArgMatches<'_>, reports: Reports<'_>, block: Output) -> Result<Ending, Failure> {
    let rt = reports.rt;
    let said = imported(rt.alloc(), &reports)?;
    let refused = reports.refused;
    let Reports {
        rt: _,
        schema: _,
        name: _,
        offsets,
        errors,
        is_erasing: _,
        bytes: _,
        stored: _,
        unsearchable: _,
        refused: _,
    } = reports;
    finish_all(&rt, begun(rt.alloc(), block, [offsets, errors])?)?;
    if !given.get_flag("quiet") {
        let _ = eprintln!(rt; "{said}");
    }
    Ok(if refused > 0 {
        Ending::Refused
    } else {
        Ending::Done
    })
}

/// Stores the documents of lines, and reports the others, and those that can't be searched.
pub(crate) fn import(rt: &HostRuntime, given: &ArgMatches<'_>) -> Result<Ending, Failure> {
    let schema = schema_given(rt, given)?;
    let mut block = create(rt, text(given, "output"))?;
    let mut reports = begin(rt, given, &schema)?;
    let named = given.get_strs("FILE").unwrap_or(&[]);
    let names = if named.is_empty() { &["-"] } else { named };
    import_files(&mut reports, given, &schema, names, &mut block)?;
    end(given, reports, block)
}
