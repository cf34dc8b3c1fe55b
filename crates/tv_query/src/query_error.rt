//! Why a text is no query.

ghost use Rattle.std.specs.Prelude.{◌≡◌};

use std::alloc::AllocError;
use std::{error, fmt};
use thiserror::Error;
use tv_indexing::TextTermsError;

/// Why a text is no query, by what stands at the place of the error.
#[derive(Debug, Drop)]
pub enum QueryReason {
    /// Here a clause, `NOT` or `(` has to stand, and another token stands here, or the text ends.
    NoOperand,
    /// A clause, `NOT` or `(` stands here after an operand, without `AND` or `OR`.
    NoOperator,
    /// A `)` stands here to which no `(` belongs.
    Unopened,
    /// The text ends, and a `(` has no `)`.
    Unclosed,
    /// A path or a word begins here that no colon follows, and it is none of `AND`, `OR` and `NOT`.
    NoColon,
    /// A colon stands here with no path before it.
    NoPath,
    /// A clause begins here with nothing after its colon.
    NoText,
    /// A clause begins here with a quote or a bracket that isn't closed.
    Unended,
    /// A clause begins here that wants a prefix, in a field that is neither of texts nor of facets nor of JSON objects.
    NoPrefix,
    /// A clause begins here that the schema refuses.
    Clause(TextTermsError),
    /// Memory was refused.
    Memory,
}

/// As `a clause is missing here`, or what is wrong with the clause.
impl fmt::Display for QueryReason {
    fn fmt<W: fmt::Write>(&self, f: &mut fmt::Formatter<W>) -> fmt::Result {
        let text = match self {
            QueryReason::NoOperand => "a clause is missing here",
            QueryReason::NoOperator => "AND or OR is missing here",
            QueryReason::Unopened => "no parenthesis was opened that this one closes",
            QueryReason::Unclosed => "a parenthesis isn't closed",
            QueryReason::NoColon => "a colon is missing after this path",
            QueryReason::NoPath => "a path is missing before this colon",
            QueryReason::NoText => "nothing stands after the colon of this clause",
            QueryReason::Unended => "a quote or a bracket of this clause isn't closed",
            QueryReason::NoPrefix => {
                "a prefix is of texts, facets and texts in JSON objects, and this field has none"
            }
            QueryReason::Clause(error) => return write!(f, "{error}"),
            QueryReason::Memory => "memory was refused",
        };
        f.write_str(text)
    }
}

impl error::Error for QueryReason {}

impl From<AllocError> for QueryReason {
    ghost use Rattle.tv_query.specs.declared.query_error.QueryReason.TheVariants.{Memory};

    ghost from_gives = { λ _ error. error ≡ Memory };

    fn from(_: AllocError) -> QueryReason {
        QueryReason::Memory
    }
}

/// Why a text is no query, and where. (Not in tantivy.)
#[derive(Debug, Drop, Error)]
#[error("{reason}, at byte {place}")]
pub struct QueryError {
    /// The place of what is refused, in bytes: where the token begins that can't stand there, or whose clause is refused; or the length of
    /// the text, where that ends too early.
    pub place: usize,
    /// Why it is refused.
    pub reason: QueryReason,
}
