//! Lines of JSON and blocks of stored documents: lines are imported into a block, or answered by what is stored of them; a block is printed as lines,
//! tested and searched; and terms that are too many for memory are sorted in parts. All of it goes over sources and sinks. A
//! block is documents one after the other, and nothing else.
#![tactic(auto)]

pub mod check;
mod document_line;
pub mod errors;
pub mod export;
pub mod find;
pub mod import;
pub mod imports;
pub mod laws;
pub mod line_document;
pub mod line_reader;
mod refused_value;
pub mod report;
pub mod runs;
pub mod term_runs;
pub mod terms;

pub use errors::Halt;
pub use runs::{RunEnd, answer_lines, run, try_run};
