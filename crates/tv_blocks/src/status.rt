//! Answers as numbers, for callers in other languages.

ghost use Rattle.std.specs.Prelude.{◌≡◌};
ghost use Rattle.tv_blocks.specs.Status.{call_answer, cause_number, error_answer, import_answer, key_number, nothing_written, placed, refusal_number};
ghost use Rattle.tv_blocks.specs.Status.{schema_answer, wrong_version};

use crate::block_error::{BlockError, DocumentRefusal};
use crate::import::Imported;
use tv_base::Cause;
use tv_field::SchemaError;
use tv_schema::SchemaKey;

/// What a call answers, as numbers. (Not in tantivy.)
#[repr(C)]
#[derive(Clone, Copy, Debug, PartialEq, Eq, Drop)]
pub struct Answer {
    /// 0 where the call did what it says; 1 where a buffer is too small, 2 where memory was refused, 3 where a text isn't UTF-8, 4 where it
    /// names no facet, 5 where the schema isn't JSON, 6 where the JSON describes no schema, 7 where the path names no field, 8 where a document
    /// of the block is refused, 9 where there is no such version of the store, 10 where a prefix has no end, 11 where there is no document of
    /// a line, 12 where a document has a field that the schema doesn't have, 13 where a text of a query has no terms or no ranges of them, 14
    /// where the record of a document and a facet is cut short or its facet isn't UTF-8, 15 where a handle is closed, and 17
    /// where bytes are no term.
    pub status: u32,
    /// With status 6 why there is no schema: 1 for a bad name, 2 for a name that comes twice, 3 for too many fields, 4 for an entry that is no
    /// object, or with `place` 0 a whole that is no array, 5 for a field of type `f64`; or the key whose value in the entry is not as it has to
    /// be, or is missing: 6 `name`, 7 `type`, 8 `options`, 9 `indexed`, 10 `stored`, 11 `fieldnorms`, 12 `fast`, 13 `fast` of a text or a JSON
    /// object, 14 `coerce`, 15 `precision`, 16 `indexing`, of `indexing` 17 `record`, 18 `fieldnorms` and 19 `tokenizer`, 20 `with_tokenizer`
    /// of `fast`, 21 `expand_dots_enabled`; see `SchemaKey`. With status 8 why the document is refused: 1 to 11 and 14 for the variants of
    /// `Cause` in their order, 12 where a key is no text, 13 where the document has no room, and 15 to 18 where it has no terms, see
    /// `TermsRefusal`. With status 11 the number of the `LineRefusal`,
    /// with status 13 that of the `QueryRefusal`. Else 0.
    pub detail: u32,
    /// With status 6 the place of the entry, from 1, and 0 where the whole is meant; with status 8 where in the block the document begins,
    /// with status 14 where among the records the pair begins;
    /// with status 11 `LineRefusal::field`; with status 12 the number of the
    /// field; with status 13 the number of the field that the path names, 0 where the text is no range. Else 0.
    pub place: u64,
    /// How many bytes were written, or with status 1 how many are needed; with status 11 `LineRefusal::byte`. Else 0.
    pub bytes: u64,
    /// How many answers of lines were written, or with status 1 how many are needed. Else 0.
    pub lines: u64,
}

/// The answer where there is no such version of the store.
pub fn wrong_version() -> Answer
    ensures { result ≡ wrong_version }
{
    refusal(9, 0, 0)
}

// An answer that nothing was written.
fn refusal(status: u32, detail: u32, place: u64) -> Answer
    ensures { result ≡ nothing_written status detail place }
{
    Answer {
        status,
        detail,
        place,
        bytes: 0,
        lines: 0,
    }
}

// The number of a cause, from 1.
fn cause_number(cause: Cause) -> u32
    ensures { result ≡ cause_number cause }
{
    match cause {
        Cause::UnexpectedEnd => 1,
        Cause::UnknownTypeCode(_) => 2,
        Cause::UnknownExtCode(_) => 3,
        Cause::FloatCode => 4,
        Cause::BadNumber => 5,
        Cause::BadBool => 6,
        Cause::NotUtf8 => 7,
        Cause::OddObject => 8,
        Cause::DateRange => 9,
        Cause::LegacyJson => 10,
        Cause::LegacyFloat => 11,
        Cause::TooLong => 14,
    }
}

// The number of a document's refusal.
fn refusal_number(refusal: DocumentRefusal) -> u32
    ensures { result ≡ refusal_number refusal }
{
    match refusal {
        DocumentRefusal::Corrupted(cause) => cause_number(cause),
        DocumentRefusal::KeyIsNoText => 12,
        DocumentRefusal::HeapFull => 13,
    }
}

// The answer with the place of an entry.
fn placed(entry: usize, answer: Answer) -> Answer
    ensures { result ≡ placed entry answer }
{
    refusal(
        answer.status,
        answer.detail,
        (entry as u64).saturating_add(1),
    )
}

// The number of a key of a schema's entry.
fn key_number(key: SchemaKey) -> u32
    ensures { result ≡ key_number key }
{
    match key {
        SchemaKey::Name => 6,
        SchemaKey::Type => 7,
        SchemaKey::Options => 8,
        SchemaKey::Indexed => 9,
        SchemaKey::Stored => 10,
        SchemaKey::Fieldnorms => 11,
        SchemaKey::Fast => 12,
        SchemaKey::FastOfText => 13,
        SchemaKey::Coerce => 14,
        SchemaKey::Precision => 15,
        SchemaKey::Indexing => 16,
        SchemaKey::Record => 17,
        SchemaKey::IndexingFieldnorms => 18,
        SchemaKey::Tokenizer => 19,
        SchemaKey::WithTokenizer => 20,
        SchemaKey::ExpandDots => 21,
    }
}

// The answer for a schema that is refused.
fn schema_answer(error: SchemaError) -> Answer
    ensures { result ≡ schema_answer error }
{
    match error {
        SchemaError::InvalidName => refusal(6, 1, 0),
        SchemaError::DuplicateName => refusal(6, 2, 0),
        SchemaError::TooManyFields => refusal(6, 3, 0),
        SchemaError::BadJson { entry: None } => refusal(6, 4, 0),
        SchemaError::BadJson { entry: Some(entry) } => refusal(
            6,
            4,
            (entry as u64).saturating_add(1),
        ),
        SchemaError::FloatField { entry } => refusal(6, 5, (entry as u64).saturating_add(1)),
        SchemaError::Memory => refusal(2, 0, 0),
        SchemaError::FieldNotFound => refusal(7, 0, 0),
    }
}

/// The answer for an error.
pub fn error_answer(error: BlockError) -> Answer
    ensures { result ≡ error_answer error }
{
    match error {
        BlockError::TooSmall { bytes, lines } => Answer {
            status: 1,
            detail: 0,
            place: 0,
            bytes,
            lines,
        },
        BlockError::Memory => refusal(2, 0, 0),
        BlockError::NotUtf8 => refusal(3, 0, 0),
        BlockError::NotFacet => refusal(4, 0, 0),
        BlockError::InvalidJson => refusal(5, 0, 0),
        BlockError::BadSchema(error) => schema_answer(error),
        BlockError::BadSchemaEntry { entry, error } => placed(entry, schema_answer(error)),
        BlockError::BadSchemaKey { entry, key } => refusal(
            6,
            key_number(key),
            (entry as u64).saturating_add(1),
        ),
        BlockError::NoField => refusal(7, 0, 0),
        BlockError::NoEnd => refusal(10, 0, 0),
        BlockError::BadDocument {
            start,
            refusal: why,
        } => refusal(8, refusal_number(why), start),
        BlockError::BadLine(why) => Answer {
            status: 11,
            detail: why.number(),
            place: u64::from(why.field()),
            bytes: why.byte(),
            lines: 0,
        },
        BlockError::ForeignField { field } => refusal(12, 0, u64::from(field)),
        BlockError::BadQuery(why) => refusal(13, why.number(), u64::from(why.field())),
        BlockError::NoTerms {
            start,
            refusal: why,
        } => refusal(8, why.number(), start),
        BlockError::BadPair { start } => refusal(14, 0, start),
        BlockError::NotTerm => refusal(17, 0, 0),
    }
}

/// The answer for what a call returned that writes bytes.
pub fn written_answer(written: Result<u64, BlockError>) -> Answer
    ensures { result ≡ call_answer written }
{
    match written {
        Ok(bytes) => Answer {
            status: 0,
            detail: 0,
            place: 0,
            bytes,
            lines: 0,
        },
        Err(error) => error_answer(error),
    }
}

/// The answer for what `import_lines` returned.
pub fn import_answer(imported: Result<Imported, BlockError>) -> Answer
    ensures { result ≡ import_answer imported }
{
    match imported {
        Ok(Imported { bytes, lines }) => Answer {
            status: 0,
            detail: 0,
            place: 0,
            bytes,
            lines,
        },
        Err(error) => error_answer(error),
    }
}
