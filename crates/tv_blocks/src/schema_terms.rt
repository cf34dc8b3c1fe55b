//! Terms that documents of a block have by a schema.

ghost use Rattle.std.specs.Prelude.{◌≡◌, ◌≢◌, ◌++◌, [], IfErr, IfOk, OnErr, OnOk, ◌+◌, ◌≤◌, drop, length, take};
ghost use Rattle.std.specs.Int.{from_le_bytes, w64};
ghost use Rattle.tv_blocks.specs.Buffer.{FillsBuffer};
ghost use Rattle.tv_blocks.specs.SchemaTerms.{AppendsDocument, AreSchemaTerms, IsSchemaTermsRefusal, IsTermsBlockRefusal, IsWithoutTerms, common_len};
ghost use Rattle.tv_blocks.specs.SchemaTerms.{fault_record, shared_record};
ghost use Rattle.tv_doc.specs.Document.{document_of};
ghost use Rattle.tv_indexing.specs.declared.document.TermValuesError.TheVariants.{Memory};
ghost use Rattle.tv_reader.specs.Version.{version_of};

use crate::block_error::{BlockError, unread};
use crate::buffer::{append_numbered, put_whole};
use crate::terms_refusal::{refusal_of, terms_error};
use std::alloc::{AllocError, Global};
use tv_base::SliceSource;
use tv_doc::CompactDoc;
use tv_indexing::{TermValuesError, TermVisitor, visit_terms};
use tv_schema::Schema;
use tv_store::{BlockReader, DocStoreVersion};

// Of a document without terms, in place of how many bytes a term shares.
const NO_TERMS: u64 = u64::MAX;

// The records of terms, as they are taken.
#[derive(Drop)]
struct TermRecords {
    // The number of the document whose terms are taken, from 0.
    document: u64,
    // The last term that was taken of it.
    last: Vec<u8>,
    content: Vec<u8>,
}

// The number in the eight bytes at this place.
#[inline(always)]
fn word_at(bytes: &[u8], at: usize) -> u64
    requires { at + 8 ≤ length bytes.now }
    ensures { result ≡ from_le_bytes w64 (take 8 (drop at bytes.now)) }
{
    match bytes[at..].first_chunk::<8>() {
        Some(word) => u64::from_le_bytes(*word),
        None => 0,
    }
}

// The length of the longest common prefix of `before` and `term`. Eight bytes are compared at a time, since a key is compared for each value below it.
fn common_len(before: &[u8], term: &[u8]) -> usize
    ensures len { result ≡ common_len before.now term.now }
    ensures within { result ≤ length term.now }
{
    let both = before.len().min(term.len());
    let mut len = 0;
    while both - len >= 8 && word_at(before, len) == word_at(term, len) {
        len += 8;
    }
    while len < both && before[len] == term[len] {
        len += 1;
    }
    len
}

// Keeps the first `kept` bytes of `buffer`, and puts `end` after them. After an error `buffer` is as it was.
fn replace_end(buffer: &mut Vec<u8>, kept: usize, end: &[u8]) -> Result<(), AllocError>
    ensures made { OnOk result (buffer.new.items ≡ take kept buffer.old.items ++ end.now) }
    ensures unchanged { OnErr result (buffer.new.items ≡ buffer.old.items) }
{
    buffer.reserve(end.len())?;
    buffer.truncate(kept);
    buffer.extend_from_slice(end)
}

impl TermRecords {
    // No records. It takes no memory.
    fn new(alloc: Global) -> TermRecords
        ensures document { result.document ≡ 0 }
        ensures content { result.content.items ≡ [] }
    {
        TermRecords {
            document: 0,
            last: Vec::new(alloc),
            content: Vec::new(alloc),
        }
    }

    // Appends the record of a term. After an error a beginning of it may be appended.
    fn append(&mut self, term: &[u8]) -> Result<(), AllocError>
        ensures document { self.new.document ≡ self.old.document }
        ensures content { OnOk result (self.new.content.items ≡ self.old.content.items
            ++ shared_record self.old.document self.old.last.items term.now) }
        ensures last { OnOk result (self.new.last.items ≡ term.now) }
        ensures kept { OnErr result (self.new.last.items ≡ self.old.last.items) }
        ensures before { take (length self.old.content.items) self.new.content.items
            ≡ self.old.content.items }
    {
        let shared = common_len(self.last.as_slice(), term);
        let rest = &term[shared..];
        append_numbered(&mut self.content, self.document, shared as u64, rest)?;
        replace_end(&mut self.last, shared, rest)
    }
}

impl TermVisitor for TermRecords {
    ghost use Rattle.std.specs.Prelude.{◌≡◌, ◌++◌};
    ghost use Rattle.tv_blocks.specs.SchemaTerms.{last_term, term_records};

    // Their records stand after what was there, and the last of them is kept.
    ghost has_taken = { λ start now terms. (now.document ≡ start.document)
        × (now.last.items ≡ last_term start.last.items terms)
        × (now.content.items
        ≡ start.content.items ++ term_records start.document start.last.items terms) };

    // Appends the record of a term. Errors: memory was refused, and then nothing is appended.
    fn visit(&mut self, term: &[u8]) -> Result<(), AllocError> {
        let len = self.content.len();
        match self.append(term) {
            Ok(()) => Ok(()),
            Err(error) => {
                self.content.truncate(len);
                Err(error)
            }
        }
    }
}

// Appends the record of a document that has no terms for this reason. Errors: memory was refused, now or before.
fn append_fault(
    content: &mut Vec<u8>,
    document: u64,
    error: TermValuesError,
) -> Result<(), AllocError>
    ensures told { OnOk result (error ≢ Memory) }
    ensures appended { OnOk result
        (content.new.items ≡ content.old.items ++ fault_record document error) }
{
    let Some((refusal, field)) = refusal_of(error) else {
        return Err(AllocError);
    };
    let fault = [
        u64::from(refusal.number()).to_le_bytes(),
        u64::from(field.field_id()).to_le_bytes(),
    ];
    append_numbered(content, document, NO_TERMS, fault.as_flattened())
}

// Appends the records of a document, which begins at this byte of its block.
fn append_document(
    alloc: Global,
    schema: &Schema,
    start: u64,
    with_faults: bool,
    document: &CompactDoc,
    records: &mut TermRecords,
) -> Result<(), BlockError>
    ensures ok { OnOk result (AppendsDocument with_faults schema.now records.old.document
        (document_of document.now) records.old.content.items records.new.content.items) }
    ensures document { OnOk result (records.new.document ≡ records.old.document) }
    ensures err { IfErr result
        (IsWithoutTerms with_faults schema.now start (document_of document.now)) }
{
    let len = records.content.len();
    records.last.clear();
    match visit_terms(alloc, schema, None, document, records) {
        Ok(()) => Ok(()),
        Err(error) if with_faults => {
            records.content.truncate(len);
            Ok(append_fault(&mut records.content, records.document, error)?)
        }
        Err(error) => Err(terms_error(start, error)),
    }
}

// The records of the documents of the block.
fn block_records(
    alloc: Global,
    schema: &Schema,
    version: DocStoreVersion,
    with_faults: bool,
    block: &[u8],
) -> Result<Vec<u8>, BlockError>
    ensures ok { IfOk result (λ content.
        AreSchemaTerms with_faults schema.now (version_of version) block.now content.items) }
    ensures err { IfErr result
        (IsTermsBlockRefusal with_faults schema.now (version_of version) block.now) }
{
    let mut source = SliceSource::new(block);
    let mut reader = BlockReader::new(alloc, version);
    let mut records = TermRecords::new(alloc);
    loop {
        let start = reader.start();
        match reader.advance(&mut source) {
            Ok(true) => append_document(
                alloc,
                schema,
                start,
                with_faults,
                reader.document(),
                &mut records,
            )?,
            Ok(false) => return Ok(records.content),
            Err(error) => return Err(unread(start, &error)),
        }
        records.document += 1;
    }
}

/// Writes the terms that the documents of `block`, which is of the version `version`, have by `schema`, see `tv_indexing::term_values`, in their
/// order, at the front of `terms`, and returns how many bytes these take. (Not in tantivy.)
///
/// Each term stands as three numbers in eight bytes, the lowest first, and then bytes: the number of its document, from 0; how many of its first bytes
/// are those of the term before it in the document, 0 for the first; the length of the rest; and the rest. So what is written is in proportion to the
/// block, however long its keys are, and so is the memory that is taken from `alloc` meanwhile.
///
/// `with_faults` says what becomes of a document that has a value without a term. Where it is set, the document has one record: its number,
/// 2^64 - 1, the length 16, and then the number of the `TermsRefusal` and that of the value's field, in eight bytes each, the lowest first. Where it
/// isn't set, the document is refused.
///
/// Errors: `BadDocument` for the first document that can't be read, or `NoTerms`, where `with_faults` isn't set, for one before it that has a value
/// without a term; `TooSmall` where `terms` is too small, with how many bytes are needed; `Memory`. `terms` then stays as it is.
pub fn schema_terms_of_block(
    alloc: Global,
    schema: &Schema,
    version: DocStoreVersion,
    with_faults: bool,
    block: &[u8],
    terms: &mut [u8],
) -> Result<u64, BlockError>
    ensures { FillsBuffer (AreSchemaTerms with_faults schema.now (version_of version) block.now)
        (IsSchemaTermsRefusal with_faults schema.now (version_of version) block.now)
        terms.old terms.new result }
{
    let content = block_records(alloc, schema, version, with_faults, block)?;
    put_whole(content.as_slice(), terms)
}
