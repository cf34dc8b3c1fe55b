//! Why the values of a document have no terms.

ghost use Rattle.std.specs.Prelude.{◌≡◌};
ghost use Rattle.tv_blocks.specs.TermsRefusals.{refusal_of, terms_error, terms_number};

use crate::block_error::BlockError;
use std::error::Error;
use std::fmt;
use tv_indexing::TermValuesError;
use tv_value::Field;

/// Why the values of a document have no terms by a schema. (Not in tantivy.)
#[derive(Clone, Copy, Debug, PartialEq, Eq, Drop)]
pub enum TermsRefusal {
    /// The document has a field that the schema doesn't have.
    ForeignField,
    /// A value isn't of its field's type.
    WrongType,
    /// A key in a value of a field of JSON objects has U+0000.
    NulInKey,
    /// In a value of a field of JSON objects stands a facet, bytes, an IP address or a text with tokens.
    NoTerm,
}

/// As `a key has U+0000`.
impl fmt::Display for TermsRefusal {
    fn fmt<W: fmt::Write>(&self, f: &mut fmt::Formatter<W>) -> fmt::Result {
        f.write_str(match self {
            TermsRefusal::ForeignField => "the schema has no such field",
            TermsRefusal::WrongType => "a value is not of its field's type",
            TermsRefusal::NulInKey => "a key has U+0000",
            TermsRefusal::NoTerm => "a value that has no term stands in a JSON value",
        })
    }
}

impl Error for TermsRefusal {}

impl TermsRefusal {
    /// The number of the refusal, as `Answer::detail` has it.
    pub fn number(self) -> u32
        ensures { result ≡ terms_number self }
    {
        match self {
            TermsRefusal::ForeignField => 15,
            TermsRefusal::WrongType => 16,
            TermsRefusal::NulInKey => 17,
            TermsRefusal::NoTerm => 18,
        }
    }
}

// Why a document has no terms, and the field whose value has none. `None` where memory was refused.
pub(crate) fn refusal_of(error: TermValuesError) -> Option<(TermsRefusal, Field)>
    ensures { result ≡ refusal_of error }
{
    match error {
        TermValuesError::UnknownField(field) => Some((TermsRefusal::ForeignField, field)),
        TermValuesError::WrongType(field) => Some((TermsRefusal::WrongType, field)),
        TermValuesError::NulInPath(field) => Some((TermsRefusal::NulInKey, field)),
        TermValuesError::NoJsonTerm(field) => Some((TermsRefusal::NoTerm, field)),
        TermValuesError::Memory => None,
    }
}

// What is said of a document that begins at this byte of its block and has no terms.
pub(crate) fn terms_error(start: u64, error: TermValuesError) -> BlockError
    ensures { result ≡ terms_error start error }
{
    match refusal_of(error) {
        Some((refusal, _)) => BlockError::NoTerms { start, refusal },
        None => BlockError::Memory,
    }
}
