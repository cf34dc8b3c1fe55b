//! Calls over whole blocks of bytes, as callers in other languages need them: each is given its input as bytes, keeps nothing from one call to
//! the next, and writes its answer into a buffer of the caller's. Where the buffer is too small nothing is written, and the answer says how
//! many bytes are needed. A call over a block that needs a schema is there twice: it reads the schema's JSON anew, or it is given the schema
//! that `read_schema` read. A call of one document is given the document, too, or puts another one in its place. (Not in tantivy.)
#![tactic(auto)]

pub mod block_error;
mod buffer;
pub mod document;
pub mod document_handle;
pub mod export;
pub mod facet_counts;
pub mod facet_text;
pub mod field_path;
pub mod field_values;
pub mod import;
mod kept;
pub mod laws;
pub mod line_refusal;
pub mod migration;
pub mod query;
pub mod query_refusal;
pub mod schema_handle;
pub mod schema_terms;
pub mod schema_text;
pub mod status;
pub mod terms;
pub mod terms_refusal;

pub use block_error::{BlockError, DocumentRefusal};
pub use document::{parse_line, print_document, read_first_document, write_document};
pub use export::{export_block, export_block_by};
pub use facet_counts::count_facets;
pub use facet_text::{facet_of_text, text_of_facet};
pub use field_path::{FoundField, find_field, find_field_by};
pub use field_values::{ValueKind, values_of_block};
pub use import::{Imported, LineAnswer, import_lines, import_lines_by};
pub use line_refusal::{LineRefusal, ValueRefusal};
pub use migration::migrate_block;
pub use query::{ranges_of_text, terms_of_text};
pub use query_refusal::QueryRefusal;
pub use schema_terms::schema_terms_of_block;
pub use schema_text::{print_schema, read_schema};
pub use status::Answer;
pub use terms::{end_of_prefix, term_of_text, terms_of_block, text_of_term};
pub use terms_refusal::TermsRefusal;
