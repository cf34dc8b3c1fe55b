//! `find`.

ghost use Rattle.std.specs.Prelude.{[]};

use crate::bars::push_times;
use crate::blocks::broken;
use crate::ending::{Ending, Failure, escaped, say};
use crate::faults::{Faults, refuse_unstored};
use crate::files::{create, finish, print_lines};
use crate::inputs::{BlockSource, limits, schema_given, source, text, version};
use crate::progress::Progress;
use crate::visits::fields_within;
use clap::ArgMatches;
use std::alloc::{AllocError, Global};
use std::io::{self, Eprint, Write};
use tantivy_schema::common::{ByteSink, WriteSink};
use tantivy_schema::schema::Schema;
use tantivy_schema::store::Projection;
use tv_lines::find::{FindError, Found, find_in_block};
use tv_lines::report::{DocumentReport, Report};
use tv_query::{Query, QueryError, QueryReason};

// Takes what is written, and keeps nothing.
#[derive(Drop)]
struct Unprinted;

impl Write for Unprinted {
    fn write(&mut self, buf: &[u8]) -> io::Result<usize> {
        Ok(buf.len())
    }

    fn flush(&mut self) -> io::Result<()> {
        Ok(())
    }
}

// The report of a search: the documents that can't be searched are told.
#[derive(Drop)]
struct Reports<'s> {
    schema: &'s Schema,
    faults: Faults,
}

// What was told isn't known.
impl<'s> Report<DocumentReport> for Reports<'s> {
    type Error = Failure;

    ghost is_known = { λ _. ⊥ };

    ghost told = { λ _. [] };

    fn tell(&mut self, document: DocumentReport) -> Result<(), Failure> {
        self.faults.tell(self.schema, document)
    }
}

// The line of the text in which this place stands, and where it stands there.
fn line_at(text: &str, place: usize) -> (&str, usize) {
    let mut left = place;
    for line in text.split('\n') {
        if left <= line.len() {
            return (line, left);
        }
        left = left.saturating_sub(line.len().saturating_add(1));
    }
    (text, 0)
}

// The line as it is printed: a tab as one space, and other control characters as escapes.
fn printed(alloc: Global, line: &str) -> Result<String, AllocError> {
    let mut spaced = String::with_capacity(alloc, line.len())?;
    for character in line.chars() {
        spaced.push(if character == '\t' { ' ' } else { character })?;
    }
    escaped(alloc, spaced.as_str())
}

// The line of the text in which this place stands, and a caret under the place, by characters.
fn pointed(alloc: Global, text: &str, place: usize) -> Result<String, AllocError> {
    let (line, place) = line_at(text, place);
    let before = line.get(..place).unwrap_or(line);
    let columns = printed(alloc, before)?.as_str().chars().count();
    let mut pointed = printed(alloc, line)?;
    pointed.push('\n')?;
    push_times(&mut pointed, ' ', columns)?;
    pointed.push('^')?;
    Ok(pointed)
}

// Says why a text is no query: the reason, the line and a caret under the place.
fn report(rt: &HostRuntime, text: &str, error: &QueryError) -> Result<(), Failure> {
    let alloc = rt.alloc();
    let pointed = pointed(alloc, text, error.place)?;
    say(rt, format!(in alloc; "{error}")?.as_str());
    let _ = eprintln!(rt; "{pointed}");
    Ok(())
}

// What is read of each document: all of it, or for their number alone what the query needs.
fn projection(
    alloc: Global,
    given: &ArgMatches<'_>,
    query: &Query,
) -> Result<Projection, AllocError> {
    if given.get_flag("count") {
        return fields_within(alloc, given, query.fields());
    }
    Ok(Projection::All(limits(given)))
}

// Appends the lines of what `projection` keeps of the documents of a source that the query matches.
fn find_from<K: ByteSink>(
    rt: &HostRuntime,
    given: &ArgMatches<'_>,
    schema: &Schema,
    query: &Query,
    projection: &Projection,
    source: &mut BlockSource,
    sink: &mut K,
) -> Result<Found, FindError<Failure>> {
    let names = [text(given, "BLOCK")];
    let mut progress = Progress::beside(rt, given, &names, !given.get_flag("count"));
    let mut reports = match Faults::new(rt, names[0], progress.is_shown()) {
        Ok(faults) => Reports { schema, faults },
        Err(_) => return Err(FindError::Report(Failure::Memory)),
    };
    let found = find_in_block(
        rt.alloc(),
        schema,
        version(given, "version"),
        projection,
        query,
        source,
        sink,
        &mut reports,
        &mut progress,
    );
    progress.end();
    found
}

// Appends the lines of the documents of the block that the query matches.
fn find_into<K: ByteSink>(
    rt: &HostRuntime,
    given: &ArgMatches<'_>,
    schema: &Schema,
    query: &Query,
    sink: &mut K,
) -> Result<Found, Failure> {
    let projection = projection(rt.alloc(), given, query)?;
    let mut source = source(rt, text(given, "BLOCK"))?;
    match find_from(rt, given, schema, query, &projection, &mut source, sink) {
        Ok(found) => Ok(found),
        Err(FindError::Work(error)) => Err(broken(rt.alloc(), given, "-", error)),
        Err(FindError::Report(failure)) => Err(failure),
    }
}

// Prints the number of the documents that the query matches.
fn print_number(
    rt: &HostRuntime,
    given: &ArgMatches<'_>,
    schema: &Schema,
    query: &Query,
) -> Result<Found, Failure> {
    let mut sink = WriteSink::new(Unprinted);
    let found = find_into(rt, given, schema, query, &mut sink)?;
    print_lines(rt, &[format!(in rt.alloc(); "{}", found.found)?])?;
    Ok(found)
}

// Prints the documents that the query matches, or their number.
fn print_found(
    rt: &HostRuntime,
    given: &ArgMatches<'_>,
    schema: &Schema,
    query: &Query,
) -> Result<Found, Failure> {
    if given.get_flag("count") {
        return print_number(rt, given, schema, query);
    }
    let mut output = create(rt, "-")?;
    let found = find_into(rt, given, schema, query, output.sink())?;
    finish(output)?;
    Ok(found)
}

// Prints what a query finds in a block that has the fields that it names.
fn search(
    rt: &HostRuntime,
    given: &ArgMatches<'_>,
    schema: &Schema,
    query: &Query,
) -> Result<Ending, Failure> {
    refuse_unstored(rt.alloc(), schema, query.fields())?;
    let found = print_found(rt, given, schema, query)?;
    Ok(if found.faulty > 0 {
        Ending::Refused
    } else {
        Ending::Done
    })
}

// What a wrong query ends in: it is reported.
fn refused(rt: &HostRuntime, words: &str, error: &QueryError) -> Result<Ending, Failure> {
    if matches!(error.reason, QueryReason::Memory) {
        return Err(Failure::Memory);
    }
    report(rt, words, error)?;
    Ok(Ending::WrongUse)
}

/// Prints the documents of a block that a query matches, or their number.
pub(crate) fn find(rt: &HostRuntime, given: &ArgMatches<'_>) -> Result<Ending, Failure> {
    let schema = schema_given(rt, given)?;
    let words = text(given, "QUERY");
    match Query::parse(rt.alloc(), &schema, words) {
        Ok(query) => search(rt, given, &schema, &query),
        Err(error) => refused(rt, words, &error),
    }
}
