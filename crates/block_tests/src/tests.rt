//! Blocks in buffers of a caller's, by a schema, its text or a handle.

mod buffers;
mod by_schema;
mod checked;
mod documents;
mod facet_counts;
mod handles;
mod lines;
mod queries;
mod schemas;
mod terms;
