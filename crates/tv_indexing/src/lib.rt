//! The terms of a document's values, as an index has them.
#![tactic(auto)]

pub mod document;
pub mod indexed_field;
mod json;
mod json_bounds;
mod json_leaf;
pub mod json_ranges;
pub mod laws;
pub mod leaf;
mod plain;
mod term_buffer;
pub mod term_list;
pub mod term_text;
pub mod text_range;
pub mod text_terms;
pub mod text_terms_error;

pub use document::{
    TermValuesError, TermVisitor, is_among, term_fault, term_values, term_values_of_fields,
    visit_terms,
};
pub use indexed_field::IndexedField;
pub use json_ranges::{ranges_between_texts, ranges_of_text};
pub use leaf::write_leaf;
pub use term_list::{TermIter, TermList};
pub use term_text::text_of_term;
pub use text_range::{bounds_of_text, range_between_texts, range_of_text};
pub use text_terms::terms_of_text;
pub use text_terms_error::TextTermsError;
