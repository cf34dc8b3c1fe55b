//! Why a text of a query has no terms, or no ranges of them.

ghost use Rattle.std.specs.Prelude.{◌≡◌};
ghost use Rattle.tv_blocks.specs.QueryRefusals.{query_field, query_number};

use crate::line_refusal::ValueRefusal;
use thiserror::Error;

/// Why a text of a query has no terms, or no ranges of them. (Not in tantivy.)
#[derive(Clone, Copy, Debug, PartialEq, Eq, Drop, Error)]
pub enum QueryRefusal {
    /// The field isn't indexed, so it has no terms.
    #[error("field {field} isn't indexed")]
    NotIndexed {
        /// The field's number.
        field: u32,
    },
    /// The path names a field of JSON objects, and nothing below it.
    #[error("the path ends at field {field}, which has JSON objects")]
    PathEnds {
        /// The field's number.
        field: u32,
    },
    /// The path into the JSON objects of a field has U+0000, which ends the path in a term.
    #[error("the path below field {field} has U+0000")]
    NulInPath {
        /// The field's number.
        field: u32,
    },
    /// The text, or a bound of the range, is no value of the field's type.
    #[error("a text for field {field}: {refusal}")]
    BadText {
        /// The field's number.
        field: u32,
        /// Why its type refuses the text.
        refusal: ValueRefusal,
    },
    /// The text bounds no range: it is neither `*` nor two bounds with ` TO ` between them, in brackets.
    #[error("the text is no range")]
    NoRange,
    /// The bounds of the range run backwards.
    #[error("the bounds of the range of field {field} run backwards")]
    Backwards {
        /// The field's number.
        field: u32,
    },
}

impl QueryRefusal {
    /// Its number: 1 where the field isn't indexed, 2 where the path ends at a field of JSON objects, 3 where it has U+0000, 4 where the text is
    /// no range, 5 where the bounds run backwards; and where the text is no value 12 to 16, for the refusals of a value in the order of
    /// `ValueRefusal`.
    pub fn number(self) -> u32
        ensures { result ≡ query_number self }
    {
        match self {
            QueryRefusal::NotIndexed { .. } => 1,
            QueryRefusal::PathEnds { .. } => 2,
            QueryRefusal::NulInPath { .. } => 3,
            QueryRefusal::NoRange => 4,
            QueryRefusal::Backwards { .. } => 5,
            QueryRefusal::BadText { refusal, .. } => 10 + refusal.number(),
        }
    }

    /// The number of the field, and 0 where the text is no range.
    pub fn field(self) -> u32
        ensures { result ≡ query_field self }
    {
        match self {
            QueryRefusal::NotIndexed { field }
            | QueryRefusal::PathEnds { field }
            | QueryRefusal::NulInPath { field }
            | QueryRefusal::BadText { field, .. }
            | QueryRefusal::Backwards { field } => field,
            QueryRefusal::NoRange => 0,
        }
    }
}
