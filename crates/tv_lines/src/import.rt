//! Lines of JSON to stored documents.

ghost use Rattle.std.specs.Prelude.{◌≡◌, ◌<◌, ℕ, List, IfOk, IsSome, OnOk};
ghost use Rattle.tv_doc.specs.Belongs.{Belongs};
ghost use Rattle.tv_doc.specs.Document.{document_of};
ghost use Rattle.tv_format.specs.Short.{short_document};
ghost use Rattle.tv_format.specs.WriteVersion.{written_version};
ghost use Rattle.tv_lines.specs.Halts.{sink_stop, source_stop};
ghost use Rattle.tv_lines.specs.Importing.{CountsTaken, ImportsLine, IsJudged, TellsUnsearchable, left_to, most_to};
ghost use Rattle.tv_lines.specs.Streams.{ReportsReads, ReportsWrites};
ghost use Rattle.tv_store.specs.Stored.{stored};

use crate::errors::{Halt, append};
use crate::line_document::{LineError, parse_line};
use crate::line_reader::LineReader;
use crate::terms::name_of_faulty;
use std::alloc::{AllocError, Global};
use tv_base::{ByteSink, ByteSource, VecSink};
use tv_doc::CompactDoc;
use tv_doc::parse_buffers::ParseBuffers;
use tv_format::WriteVersion;
use tv_indexing::{TermValuesError, term_fault};
use tv_schema::Schema;
use tv_store::BinaryDocumentSerializer;

/// What becomes of a line. (Not in tantivy.)
#[derive(Drop)]
pub enum LineOutcome {
    /// Its document is stored.
    Stored {
        /// How many bytes its encoding takes.
        size: u64,
        /// Why it can't be searched, as `term_fault` says it: a value of an indexed field has no term. `None` where it can, and where that isn't asked.
        fault: Option<TermValuesError>,
    },
    /// Nothing is stored, for this reason.
    Refused(LineError),
}

/// What an import does about a document that can't be searched, since a value of an indexed field has no term. (Not in tantivy.)
#[derive(Clone, Copy, Debug, PartialEq, Eq, Drop)]
pub enum FaultRule {
    /// It is stored, and its terms aren't looked for.
    Ignore,
    /// It is stored, and the outcome of its line says why it can't be searched.
    Tell,
    /// Its line is refused.
    Refuse,
}

/// How lines are read and documents are stored. (Not in tantivy.)
#[derive(Clone, Copy, Debug, PartialEq, Eq, Drop)]
pub struct ImportRules {
    /// The version of the store that documents are written in.
    pub version: WriteVersion,
    /// Whether each key of a line's object has to name a field, and none may stand twice. Else a key that no field has is skipped.
    pub strict: bool,
    /// What is done about documents that can't be searched.
    pub faults: FaultRule,
}

// Says that a document isn't to be stored, since a value has no term. The only error is that memory was refused.
fn unsearchable(
    alloc: Global,
    schema: &Schema,
    fault: TermValuesError,
) -> Result<LineError, AllocError>
    ensures { IfOk result (TellsUnsearchable schema.now fault) }
{
    let name = String::from_str(alloc, name_of_faulty(schema, &fault))?;
    Ok(LineError::Unsearchable(name, fault))
}

// Puts the document of a line in place of one that is there, and says why it can't be searched, if it can't and that is told; or says why the line is
// refused. The only error is that memory was refused.
#[inline(always)]
fn judge_line(
    schema: &Schema,
    line: &[u8],
    rules: ImportRules,
    document: &mut CompactDoc,
    buffers: &mut ParseBuffers,
) -> Result<Result<Option<TermValuesError>, LineError>, AllocError>
    ensures { IfOk result (IsJudged schema.now rules line.now document.new) }
{
    if let Some(error) = parse_line(schema, line, rules.strict, document, buffers)? {
        return Ok(Err(error));
    }
    let alloc = document.allocator();
    match rules.faults {
        FaultRule::Ignore => Ok(Ok(None)),
        FaultRule::Tell => Ok(Ok(term_fault(alloc, schema, document)?)),
        FaultRule::Refuse => match term_fault(alloc, schema, document)? {
            Some(fault) => Ok(Err(unsearchable(alloc, schema, fault)?)),
            None => Ok(Ok(None)),
        },
    }
}

// Puts the document's stored pairs in place of what `bytes` holds. The only error is that memory was refused.
#[inline(always)]
pub(crate) fn put_stored(
    schema: &Schema,
    version: WriteVersion,
    document: &CompactDoc,
    bytes: &mut VecSink,
) -> Result<(), AllocError>
    requires { Belongs schema.now (document_of document.now) }
    ensures { OnOk result
        (bytes.new.bytes.items
        ≡ short_document (written_version version) (stored schema.now (document_of document.now))) }
{
    bytes.clear();
    match BinaryDocumentSerializer::with_version(bytes, schema, version).serialize_doc(document) {
        Ok(()) => Ok(()),
        Err(_) => Err(AllocError),
    }
}

/// Reads lines of JSON one by one, and stores the document of each. The memory of a line and of its document serves the next. (Not in tantivy.)
///
/// A line ends at a line feed, and the last may lack it. What was read of a source beyond the last line belongs to the importer: a source is read by one
/// importer alone, to its end, and then maybe another one.
pub struct LineImporter {
    rules: ImportRules,
    taken: u64,
    lines: LineReader,
    line: Vec<u8>,
    document: CompactDoc,
    stored: VecSink,
}

impl Drop for LineImporter {
    fn drop(self) {
        let LineImporter {
            rules: _,
            taken: _,
            lines: _,
            line: _,
            document: _,
            stored: _,
        } = self;
    }
}

impl LineImporter {
    /// An importer by `rules`, which has read no line. It takes no memory.
    pub fn new(alloc: Global, rules: ImportRules) -> LineImporter
        ensures rules { result.rules ≡ rules }
        ensures taken { result.taken ≡ 0 }
        ensures left { (left : List ℕ) → left_to result left ≡ left }
    {
        LineImporter {
            rules,
            taken: 0,
            lines: LineReader::new(alloc),
            line: Vec::new(alloc),
            document: CompactDoc::new(alloc),
            stored: VecSink::new(alloc),
        }
    }

    /// Reads the next line, appends the stored pairs of its document to the sink, and says what became of the line; `None` where nothing is left. What
    /// reading JSON needs is in `buffers`, which serve the next line, too. A line
    /// that makes no document is refused with the reason, as `parse_line` says it, and nothing is appended. What is done about one whose document can't be
    /// searched is in the rules.
    ///
    /// Errors: `Read` where a read failed, `Write` where a write did, and only there, with its kind; `Memory`; `TooLong` after 2^64 - 1 bytes. The sink then
    /// holds what it held before, and a beginning of what was to be appended; some of the source's bytes are lost.
    pub fn advance<S: ByteSource, K: ByteSink>(
        &mut self,
        schema: &Schema,
        buffers: &mut ParseBuffers,
        source: &mut S,
        sink: &mut K,
    ) -> Result<Option<LineOutcome>, Halt>
        ensures imports { S.is_known source.old → K.is_known sink.old → ImportsLine schema.now
            self.old.rules (left_to self.old (S.left source.old))
            (left_to self.new (S.left source.new)) (K.held sink.old) (K.held sink.new) result }
        ensures bytes { S.is_known source.old → OnOk result
            (CountsTaken self.old (S.left source.old) self.new (S.left source.new)) }
        ensures fewer { IfOk result (λ said. IsSome said → most_to self.new < most_to self.old) }
        ensures rules { self.new.rules ≡ self.old.rules }
        ensures source { ReportsReads S.ByteSource source_stop source.old source.new result }
        ensures sink { ReportsWrites K.ByteSink sink_stop sink.old sink.new result }
    {
        let Some(taken) = self.lines.take_line(source, &mut self.line)? else {
            self.taken = 0;
            return Ok(None);
        };
        self.taken = taken;
        let line = self.line.as_slice();
        match judge_line(schema, line, self.rules, &mut self.document, buffers)? {
            Err(error) => Ok(Some(LineOutcome::Refused(error))),
            Ok(fault) => {
                put_stored(schema, self.rules.version, &self.document, &mut self.stored)?;
                let bytes = self.stored.as_slice();
                append(sink, bytes)?;
                let size = bytes.len() as u64;
                Ok(Some(LineOutcome::Stored { size, fault }))
            }
        }
    }

    /// How many bytes the last line took that was read, its line feed included: 0 before the first, and where nothing was left.
    pub fn bytes_read(&self) -> u64
        ensures { result ≡ self.now.taken }
    {
        self.taken
    }
}
