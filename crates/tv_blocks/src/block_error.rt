//! Why a call wrote nothing.

ghost use Rattle.std.specs.Prelude.{◌≡◌};
ghost use Rattle.tv_blocks.specs.declared.block_error.BlockError.TheVariants.{Memory};
ghost use Rattle.tv_blocks.specs.Refusals.{document_refusal, refusal_within};

use crate::line_refusal::LineRefusal;
use crate::query_refusal::QueryRefusal;
use crate::terms_refusal::TermsRefusal;
use std::alloc::AllocError;
use std::error::Error;
use std::fmt;
use tv_base::Cause;
use tv_field::SchemaError;
use tv_schema::SchemaKey;
use tv_store::{DeserializeError, LimitedReadError, RefusedDocument};
use tv_term::TermError;

/// Why a document of a block can't be read. (Not in tantivy.)
#[derive(Clone, Copy, Debug, PartialEq, Eq, Drop)]
pub enum DocumentRefusal {
    /// The bytes encode no document.
    Corrupted(Cause),
    /// In a key's place stands a value that isn't a text.
    KeyIsNoText,
    /// The document needs more room than 4294967295 bytes.
    HeapFull,
}

/// As `a key is no text`.
impl fmt::Display for DocumentRefusal {
    fn fmt<W: fmt::Write>(&self, f: &mut fmt::Formatter<W>) -> fmt::Result {
        let text = match self {
            DocumentRefusal::Corrupted(cause) => return write!(f, "{cause}"),
            DocumentRefusal::KeyIsNoText => "a key is no text",
            DocumentRefusal::HeapFull => "the document needs more room than 4294967295 bytes",
        };
        f.write_str(text)
    }
}

impl Error for DocumentRefusal {}

/// Why a call wrote nothing. (Not in tantivy.)
#[derive(Clone, Copy, Debug, PartialEq, Eq, Drop)]
pub enum BlockError {
    /// A buffer is too small.
    TooSmall {
        /// How many bytes are to be written.
        bytes: u64,
        /// How many answers of lines are to be written; 0 where a call has none.
        lines: u64,
    },
    /// Memory was refused.
    Memory,
    /// A text isn't UTF-8.
    NotUtf8,
    /// A text names no facet, as it doesn't begin with `/`.
    NotFacet,
    /// The schema's text isn't JSON.
    InvalidJson,
    /// The JSON describes no schema: the whole is no array, an entry is no object, or it has the type `f64`.
    BadSchema(SchemaError),
    /// The JSON describes no schema: an entry is refused as a field, for its name or because there are too many.
    BadSchemaEntry {
        /// The place of the entry, from 0.
        entry: usize,
        /// Why it is refused: `InvalidName`, `DuplicateName` or `TooManyFields`.
        error: SchemaError,
    },
    /// The JSON describes no schema: a key's value in an entry is not as it has to be, or is missing.
    BadSchemaKey {
        /// The place of the entry, from 0.
        entry: usize,
        /// The first such key, in the order in which the keys are read.
        key: SchemaKey,
    },
    /// The path names no field of the schema.
    NoField,
    /// No byte string is above all that begin with the prefix.
    NoEnd,
    /// A document of the block can't be read.
    BadDocument {
        /// Where in the block the document begins.
        start: u64,
        /// Why it can't be read.
        refusal: DocumentRefusal,
    },
    /// There is no document of a line.
    BadLine(LineRefusal),
    /// A document has a field that the schema doesn't have.
    ForeignField {
        /// The field's number.
        field: u32,
    },
    /// A text of a query has no terms, or no ranges of them.
    BadQuery(QueryRefusal),
    /// A document of the block can be read, but its values have no terms by the schema.
    NoTerms {
        /// Where in the block the document begins.
        start: u64,
        /// Why its values have no terms.
        refusal: TermsRefusal,
    },
    /// The record of a document and a facet is cut short, or the facet isn't UTF-8.
    BadPair {
        /// Where among the records it begins.
        start: u64,
    },
    /// The bytes are no term, or are one of a text or a facet that isn't UTF-8.
    NotTerm,
}

// Writes why a document of a block is refused, and where it begins.
fn write_document<W: fmt::Write, R: fmt::Display>(
    f: &mut fmt::Formatter<W>,
    start: u64,
    refusal: &R,
) -> fmt::Result {
    write!(f, "the document at byte {start}: {refusal}")
}

// Writes what is wrong with an entry of a schema.
fn write_entry<W: fmt::Write, R: fmt::Display>(
    f: &mut fmt::Formatter<W>,
    entry: usize,
    error: &R,
) -> fmt::Result {
    write!(f, "at entry {entry} of the schema: {error}")
}

/// As `memory was refused`, or `the document at byte 7: a key is no text`.
impl fmt::Display for BlockError {
    fn fmt<W: fmt::Write>(&self, f: &mut fmt::Formatter<W>) -> fmt::Result {
        let text = match self {
            BlockError::TooSmall { bytes, lines } => {
                return write!(f, "{bytes} bytes and {lines} answers are to be written");
            }
            BlockError::Memory => "memory was refused",
            BlockError::NotUtf8 => "a text is not UTF-8",
            BlockError::NotFacet => "a facet begins with /",
            BlockError::InvalidJson => "the schema is not JSON",
            BlockError::BadSchema(error) => return write!(f, "{error}"),
            BlockError::BadSchemaEntry { entry, error } => return write_entry(f, *entry, error),
            BlockError::BadSchemaKey { entry, key } => return write_entry(f, *entry, key),
            BlockError::NoField => "the path names no field",
            BlockError::NoEnd => "the prefix has no end",
            BlockError::BadDocument { start, refusal } => {
                return write_document(f, *start, refusal);
            }
            BlockError::BadLine(refusal) => return write!(f, "{refusal}"),
            BlockError::ForeignField { field } => {
                return write!(f, "the schema has no field {field}");
            }
            BlockError::BadQuery(refusal) => return write!(f, "{refusal}"),
            BlockError::NoTerms { start, refusal } => return write_document(f, *start, refusal),
            BlockError::BadPair { start } => {
                return write!(
                    f,
                    "the pair at byte {start} is cut short, or its facet is not UTF-8"
                );
            }
            BlockError::NotTerm => "the bytes are no term",
        };
        f.write_str(text)
    }
}

impl Error for BlockError {}

impl From<TermError> for BlockError {
    ghost from_gives = { λ _ error. error ≡ Memory };

    fn from(_error: TermError) -> BlockError {
        BlockError::Memory
    }
}

impl From<AllocError> for BlockError {
    ghost from_gives = { λ _ error. error ≡ Memory };

    fn from(_error: AllocError) -> BlockError {
        BlockError::Memory
    }
}

// What is said of a document that couldn't be read, where it begins at this byte of its block.
pub(crate) fn unread(start: u64, error: &DeserializeError) -> BlockError
    ensures { result ≡ document_refusal start error.now }
{
    let refusal = match error {
        DeserializeError::CorruptedValue(cause) => DocumentRefusal::Corrupted(*cause),
        DeserializeError::TypeMismatch { .. } => DocumentRefusal::KeyIsNoText,
        DeserializeError::HeapFull => DocumentRefusal::HeapFull,
        _ => return BlockError::Memory,
    };
    BlockError::BadDocument { start, refusal }
}

// What is said of a document that is refused where no limit is set.
pub(crate) fn refused(document: &RefusedDocument) -> BlockError
    ensures { result ≡ refusal_within document.now.start document.now.error }
{
    match &document.error {
        LimitedReadError::Read(error) => unread(document.start, error),
        LimitedReadError::Limit(_) => BlockError::Memory,
    }
}
