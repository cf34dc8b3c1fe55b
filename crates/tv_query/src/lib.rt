//! Queries: texts that say which documents are wanted by their terms, and whether a document's terms match one.
#![tactic(auto)]

pub mod laws;
pub mod matching;
mod parser;
pub mod query;
pub mod query_error;
pub mod selection;
pub mod token;

pub use matching::QueryMatcher;
pub use query::Query;
pub use query_error::{QueryError, QueryReason};
pub use selection::Selection;
pub use token::Wanted;
