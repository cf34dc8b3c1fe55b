//! The calls of the guide (`docs/GUIDE.md`), each in a function of its own.
#![tactic(auto)]

pub mod counter;
pub mod dictionary;
pub mod documents;
pub mod failing;
pub mod files;
pub mod importer;
pub mod offsets;
pub mod query;
pub mod schemas;
pub mod store;
pub mod terms;
pub mod values;
