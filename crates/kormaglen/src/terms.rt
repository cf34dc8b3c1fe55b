//! `terms`.

ghost use Rattle.std.specs.Prelude.{◌≤◌, length, OnOk};

use crate::ending::{Ending, Failure, escaped, failed, wrong_use};
use crate::faults::{Faults, refuse_unstored};
use crate::files::{Output, create, finish};
use crate::inputs::{schema_given, text};
use crate::progress::Progress;
use crate::runs::{Runs, add_run, merged_all};
use crate::term_counts::TermCounts;
use crate::visits::{Visit, fields_within, visit_block};
use clap::ArgMatches;
use memchr::memchr;
use std::alloc::{AllocError, Global};
use std::env;
use tantivy_schema::schema::{
    Schema, TantivyDocument, TermList, TermValuesError, TermVisitor, Type, text_of_term,
    visit_terms,
};
use tv_lines::find::DocumentOutcome;
use tv_lines::report::DocumentReport;
use tv_query::{QueryReason, Selection, Wanted};

// How many bytes the number of a field and the code of a type have, with which a term starts.
const START_LEN: usize = 5;

// The terms of a document that are wanted, each time it has them. Those of a field of JSON objects have one path, and are kept without it.
struct WantedTerms {
    wanted: Selection,
    terms: TermList,
    // The term that is being kept.
    kept: Vec<u8>,
}

impl Drop for WantedTerms {
    fn drop(self) {
        let WantedTerms {
            wanted: _,
            terms: _,
            kept: _,
        } = self;
    }
}

// Puts a term without its path in place of what is there: what it starts with, and of a field of JSON objects what stands from U+0000 on, which
// ends the path.
fn put_without_path(kept: &mut Vec<u8>, term: &[u8]) -> Result<(), AllocError>
    requires { 5 ≤ length term.now }
    ensures { OnOk result (5 ≤ length kept.new.items) }
{
    let (start, rest) = term.split_at(START_LEN);
    let path_len = match memchr(0, rest) {
        Some(end) if start[4] == Type::Json.to_code() => end,
        _ => 0,
    };
    kept.clear();
    kept.extend_from_slice(start)?;
    kept.extend_from_slice(&rest[path_len..])
}

impl TermVisitor for WantedTerms {
    // Nothing is said of what it holds.
    ghost has_taken = { λ start now terms. Unit {0} };

    fn visit(&mut self, term: &[u8]) -> Result<(), AllocError> {
        if !self.wanted.contains(term) {
            return Ok(());
        }
        put_without_path(&mut self.kept, term)?;
        self.terms.visit(self.kept.as_slice())
    }
}

// Counts each of these terms once.
fn count_terms(terms: &mut TermList, counts: &mut TermCounts) -> Result<(), Failure> {
    terms.sort_dedup();
    for term in terms.iter() {
        counts.count(term)?;
    }
    Ok(())
}

// Counts the terms of documents that are wanted, and tells those that can't be searched. Terms that are too many for memory go into runs.
struct Counting {
    rt: HostRuntime,
    schema: Schema,
    wanted: WantedTerms,
    // How many documents were visited, and how many bytes they take.
    documents: u64,
    bytes: u64,
    faults: Faults,
    counts: TermCounts,
    runs: Runs,
}

impl Drop for Counting {
    fn drop(self) {
        let Counting {
            rt: _,
            schema: _,
            wanted: _,
            documents: _,
            bytes: _,
            faults: _,
            counts: _,
            runs: _,
        } = self;
    }
}

impl Counting {
    // Puts the terms that are counted in memory into a run.
    fn put_away(&mut self) -> Result<(), Failure> {
        add_run(&self.rt, &mut self.runs, &mut self.counts)
    }

    // Counts the terms of the next document, or tells that it can't be searched.
    fn count(&mut self, document: &TantivyDocument) -> Result<(), Failure> {
        let fields = [self.wanted.wanted.field()];
        let alloc = self.rt.alloc();
        self.wanted.terms.clear();
        match visit_terms(
            alloc,
            &self.schema,
            Some(&fields),
            document,
            &mut self.wanted,
        ) {
            Ok(()) => count_terms(&mut self.wanted.terms, &mut self.counts),
            Err(TermValuesError::Memory) => Err(Failure::Memory),
            Err(fault) => self.tell(fault),
        }
    }

    // Tells that the next document can't be searched.
    fn tell(&mut self, fault: TermValuesError) -> Result<(), Failure> {
        let report = DocumentReport {
            document: self.documents,
            start: self.bytes,
            outcome: DocumentOutcome::Faulty(fault),
        };
        self.faults.tell(&self.schema, report)
    }
}

impl Visit for Counting {
    fn visit(&mut self, document: &TantivyDocument, bytes: u64) -> Result<(), Failure> {
        self.count(document)?;
        self.documents = self.documents.saturating_add(1);
        self.bytes = bytes;
        if self.counts.is_full() {
            self.put_away()?;
        }
        Ok(())
    }
}

// The terms of a field that are asked for: those of a range, those that begin with the term of a text, or all.
fn wanted(alloc: Global, given: &ArgMatches<'_>, schema: &Schema) -> Result<Selection, Failure> {
    let path = text(given, "FIELD");
    let range = given.get_str("range");
    let wanted = match given.get_str("prefix") {
        Some(prefix) => {
            if range.is_some() {
                return Err(wrong_use(alloc, "--prefix", "it can't stand beside --range"));
            }
            Wanted::Prefix(prefix)
        }
        None => Wanted::Range(range.unwrap_or("*")),
    };
    match Selection::of(alloc, schema, path, wanted) {
        Ok(selection) => Ok(selection),
        Err(QueryReason::Memory) => Err(Failure::Memory),
        Err(reason) => Err(wrong_use(alloc, path, reason)),
    }
}

// A number of bytes above 0, with K, M or G after it or without.
fn bytes_of(words: &str) -> Option<u64> {
    let (digits, unit) = match words.as_bytes().last() {
        Some(b'K') => (words.strip_suffix('K')?, 1 << 10),
        Some(b'M') => (words.strip_suffix('M')?, 1 << 20),
        Some(b'G') => (words.strip_suffix('G')?, 1 << 30),
        _ => (words, 1u64),
    };
    let bytes = digits.parse::<u64>().ok()?.checked_mul(unit)?;
    if bytes > 0 { Some(bytes) } else { None }
}

// How many bytes terms may take in memory.
fn memory(alloc: Global, given: &ArgMatches<'_>) -> Result<u64, Failure> {
    match bytes_of(text(given, "memory")) {
        Some(bytes) => Ok(bytes),
        None => Err(wrong_use(
            alloc,
            "--memory",
            "it wants a number of bytes above 0; K, M or G may follow it",
        )),
    }
}

// The folder of temporary files: the one that the words name, or that of `TMPDIR`, or `/tmp`.
fn folder(rt: &HostRuntime, given: &ArgMatches<'_>) -> Result<String, Failure> {
    let alloc = rt.alloc();
    let named = text(given, "temporary");
    if !named.is_empty() {
        return Ok(String::from_str(alloc, named)?);
    }
    match env::temp_dir(rt) {
        Ok(found) if !found.as_str().is_empty() => Ok(String::from_str(alloc, found.as_str())?),
        Ok(_) => Ok(String::from_str(alloc, "/tmp")?),
        Err(error) => Err(failed(alloc, "TMPDIR", error)),
    }
}

// Prints terms, as the words ask for it.
#[derive(Drop)]
struct Printer {
    alloc: Global,
    output: Output,
    is_counted: bool,
    is_raw: bool,
}

impl Printer {
    // The text of the value of a term.
    fn text(&self, term: &[u8]) -> Result<String, Failure> {
        let Some(text) = text_of_term(self.alloc, term)? else {
            return Err(failed(self.alloc, "a temporary file", "it was changed"));
        };
        if self.is_raw {
            return Ok(text);
        }
        Ok(escaped(self.alloc, text.as_str())?)
    }

    // Prints the line of a term, with how many documents have it where that is asked for.
    fn print(&mut self, term: &[u8], count: u64) -> Result<(), Failure> {
        let text = self.text(term)?;
        if self.is_counted {
            let line = format!(in self.alloc; "{count}\t{text}")?;
            return self.output.print_line(line.as_str());
        }
        self.output.print_line(text.as_str())
    }

    // Prints the terms that are counted in memory.
    fn print_counts(&mut self, counts: &TermCounts) -> Result<(), Failure> {
        for (term, count) in counts.as_map().iter() {
            self.print(term.as_slice(), *count)?;
        }
        Ok(())
    }

    // Prints the terms of runs.
    fn print_runs(&mut self, runs: &mut Runs) -> Result<(), Failure> {
        let mut merged = merged_all(self.alloc, runs)?;
        for _ in 0..u64::MAX {
            if !merged.advance(self.alloc)? {
                break;
            }
            self.print(merged.term(), merged.count())?;
        }
        Ok(())
    }
}

// What counts the terms that the words ask for.
fn begin(rt: &HostRuntime, given: &ArgMatches<'_>) -> Result<Counting, Failure> {
    let alloc = rt.alloc();
    let counts = TermCounts::new(alloc, memory(alloc, given)?);
    let runs = Runs::new(alloc, folder(rt, given)?);
    let schema = schema_given(rt, given)?;
    let wanted = wanted(alloc, given, &schema)?;
    refuse_unstored(alloc, &schema, &[wanted.field()])?;
    let is_erasing = Progress::of(rt, given, &[]).is_shown();
    Ok(Counting {
        rt: *rt,
        schema,
        wanted: WantedTerms {
            wanted,
            terms: TermList::new(alloc),
            kept: Vec::new(alloc),
        },
        documents: 0,
        bytes: 0,
        faults: Faults::new(rt, text(given, "BLOCK"), is_erasing)?,
        counts,
        runs,
    })
}

/// Prints the terms of a field in their order. Memory is kept for terms of `--memory` bytes, and for those of one document, without their path.
pub(crate) fn terms(rt: &HostRuntime, given: &ArgMatches<'_>) -> Result<Ending, Failure> {
    let mut counting = begin(rt, given)?;
    let projection = fields_within(rt.alloc(), given, &[counting.wanted.wanted.field()])?;
    visit_block(rt, given, &projection, &mut counting)?;
    let mut printer = Printer {
        alloc: rt.alloc(),
        output: create(rt, "-")?,
        is_counted: given.get_flag("counts"),
        is_raw: given.get_flag("raw"),
    };
    if counting.runs.is_empty() {
        printer.print_counts(&counting.counts)?;
    } else {
        counting.put_away()?;
        printer.print_runs(&mut counting.runs)?;
    }
    finish(printer.output)?;
    Ok(counting.faults.ending())
}
