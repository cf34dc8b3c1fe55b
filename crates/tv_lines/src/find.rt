//! The documents of a block that a query matches, as lines of JSON.

ghost use Rattle.std.specs.Prelude.{◌≡◌, ◌+◌, ◌-◌, ◌<◌, ◌^◌, [], IfErr, IfOk, OnOk};
ghost use Rattle.tv_lines.specs.Finding.{CountsFound, SearchesBlock, SearchesDocument, TellsMatch, find_sink_stop, find_source_stop, named_terms};
ghost use Rattle.tv_lines.specs.Streams.{ReportsReads, ReportsWrites};
ghost use Rattle.tv_lines.specs.WorkErrors.{IsOfPrinting, sink_stop};
ghost use Rattle.tv_doc.specs.Document.{document_of};
ghost use Rattle.tv_query.specs.Grammar.{QueryTree, steps_of};
ghost use Rattle.tv_reader.specs.Version.{version_of};

use crate::errors::WorkError;
use crate::export::{JsonLayout, write_json};
use crate::report::{DocumentReport, Report};
use std::alloc::{AllocError, Global};
use std::fmt::Display;
use thiserror::Error;
use tv_base::{ByteSink, ByteSource};
use tv_doc::TantivyDocument;
use tv_indexing::{TermValuesError, visit_terms};
use tv_query::{Query, QueryMatcher};
use tv_schema::Schema;
use tv_store::{BlockReader, DocStoreVersion, Projection, Watch};

/// What becomes of a document that is searched.
#[derive(Clone, Copy)]
pub enum DocumentOutcome {
    /// The query matches it.
    Found,
    /// The query doesn't match it.
    NotFound,
    /// A value of a field that the query names has no term, for this reason, so that the document can't be searched.
    Faulty(TermValuesError),
}

/// What was found in a block.
#[derive(Clone, Copy)]
pub struct Found {
    /// How many documents there are.
    pub documents: u64,
    /// How many of them the query matches.
    pub found: u64,
    /// How many of them can't be searched.
    pub faulty: u64,
}

/// Why a search breaks off.
#[derive(Debug, Drop, Error)]
#[error_bound(E: Display)]
pub enum FindError<E> {
    /// The next document can't be read, or its line can't be written.
    #[error("{0}")]
    Work(WorkError),
    /// What became of the document can't be told.
    #[error("{0}")]
    Report(E),
}

// The memory that serves one document after the other.
struct FindBuffers<'q> {
    matcher: QueryMatcher<'q>,
    text: String,
}

impl<'q> Drop for FindBuffers<'q> {
    fn drop(self) {
        let FindBuffers {
            matcher: _,
            text: _,
        } = self;
    }
}

// Whether the terms of a document's fields that the query names match the query, or why there are none.
fn match_document(
    alloc: Global,
    schema: &Schema,
    document: &TantivyDocument,
    matcher: &mut QueryMatcher<'_>,
) -> Result<Result<bool, TermValuesError>, AllocError>
    ensures tells { (tree : QueryTree) → matcher.old.query.now.steps.items ≡ steps_of tree
        → IfOk result (TellsMatch (named_terms schema.now tree (document_of document.now)) tree) }
    ensures query { matcher.new.query.now ≡ matcher.old.query.now }
{
    matcher.clear();
    let fields = matcher.query().fields();
    match visit_terms(alloc, schema, Some(fields), document, matcher) {
        Ok(()) => Ok(Ok(matcher.matches()?)),
        Err(error) => match error {
            TermValuesError::Memory => Err(AllocError),
            fault => Ok(Err(fault)),
        },
    }
}

// Appends the line of a document that the query matches, and says what becomes of the document.
fn find_in_document<K: ByteSink>(
    alloc: Global,
    schema: &Schema,
    document: &TantivyDocument,
    buffers: &mut FindBuffers<'_>,
    sink: &mut K,
) -> Result<DocumentOutcome, WorkError>
    ensures searches { K.is_known sink.old → (tree : QueryTree)
        → buffers.old.matcher.query.now.steps.items ≡ steps_of tree → SearchesDocument schema.now
        tree (document_of document.now) (K.held sink.old) (K.held sink.new) result }
    ensures query { buffers.new.matcher.query.now ≡ buffers.old.matcher.query.now }
    ensures errors { IfErr result IsOfPrinting }
    ensures sink { ReportsWrites K.ByteSink sink_stop sink.old sink.new result }
{
    match match_document(alloc, schema, document, &mut buffers.matcher)? {
        Ok(true) => {
            write_json(
                alloc,
                schema,
                JsonLayout::Compact,
                document,
                &mut buffers.text,
                sink,
            )?;
            Ok(DocumentOutcome::Found)
        }
        Ok(false) => Ok(DocumentOutcome::NotFound),
        Err(fault) => Ok(DocumentOutcome::Faulty(fault)),
    }
}

// One document more.
fn counted(found: Found, outcome: DocumentOutcome) -> Found
    requires documents { found.documents < 2 ^ 64 - 1 }
    requires kinds { found.found + found.faulty < 2 ^ 64 - 1 }
    ensures { CountsFound found outcome result }
{
    let Found {
        documents,
        found,
        faulty,
    } = found;
    let documents = documents + 1;
    match outcome {
        DocumentOutcome::Found => Found {
            documents,
            found: found + 1,
            faulty,
        },
        DocumentOutcome::NotFound => Found {
            documents,
            found,
            faulty,
        },
        DocumentOutcome::Faulty(_) => Found {
            documents,
            found,
            faulty: faulty + 1,
        },
    }
}

/// Appends the lines of those documents of a block that the query matches, in order, as `export_block` prints what `projection` keeps of them,
/// and tells the report what became of each document, by its number and place. Returns how many documents there are, how many match, and how many
/// can't be searched. `watch` is advanced after each document that was gone over, with the bytes from the first on. (Not in tantivy.)
///
/// Of what is kept of a document, it matches by the terms of those fields that the query names, as `term_values_of_fields` gives them, and no others are
/// made. One of which a value of these fields has no term is told as `Faulty`, with the error for the first such value, and passed over.
///
/// Errors: `Work`, with `Read` for the first document that can't be read or passes a limit, with its number and place; with `Write` where a write
/// failed; with `Memory`; or with `TooMany` after 2^64 - 1 documents. `Report` where a report failed, with its error. The sink then holds the
/// lines of the documents before that one which match, after `Write` and `Memory` also a beginning of the line of that one, and after `Report` all
/// of it, if it matches. The report then has the documents before it.
pub fn find_in_block<S: ByteSource, K: ByteSink, T: Report<DocumentReport>, W: Watch>(
    alloc: Global,
    schema: &Schema,
    version: DocStoreVersion,
    projection: &Projection,
    query: &Query,
    source: &mut S,
    sink: &mut K,
    report: &mut T,
    watch: &mut W,
) -> Result<Found, FindError<T::Error>>
    ensures searches { S.is_known source.old → K.is_known sink.old → (tree : QueryTree)
        → query.now.steps.items ≡ steps_of tree → SearchesBlock schema.now (version_of version)
        projection.now tree (S.left source.old) (S.left source.new) (K.held sink.old)
        (K.held sink.new) (T.is_known report.old) (T.told report.old) (T.told report.new) result }
    ensures all { S.is_known source.old → OnOk result (S.left source.new ≡ []) }
    ensures source { ReportsReads S.ByteSource find_source_stop source.old source.new result }
    ensures sink { ReportsWrites K.ByteSink find_sink_stop sink.old sink.new result }
    ensures report { T.is_known report.old → T.is_known report.new }
{
    let mut reader = BlockReader::new(alloc, version);
    let matcher = QueryMatcher::new(alloc, query);
    let mut buffers = FindBuffers {
        matcher,
        text: String::new(alloc),
    };
    let mut found = Found {
        documents: 0,
        found: 0,
        faulty: 0,
    };
    for number in 0..u64::MAX {
        let start = reader.start();
        match reader.advance_by(source, projection) {
            Ok(true) => {
                let document = reader.document();
                let outcome = match find_in_document(alloc, schema, document, &mut buffers, sink) {
                    Ok(outcome) => outcome,
                    Err(error) => return Err(FindError::Work(error)),
                };
                found = counted(found, outcome);
                let said = DocumentReport {
                    document: number,
                    start,
                    outcome,
                };
                match report.tell(said) {
                    Ok(()) => {}
                    Err(error) => return Err(FindError::Report(error)),
                }
                watch.advance(reader.start());
            }
            Ok(false) => return Ok(found),
            Err(error) => return Err(FindError::Work(WorkError::Read(error))),
        }
    }
    Err(FindError::Work(WorkError::TooMany))
}
