//! Visitors of your own, and what readers and counts hold afterwards; documents that are passed over, chosen fields of documents, limits, and terms of
//! documents.

mod chosen;
mod counts;
mod depth;
mod failing;
mod indexed;
mod leaves;
mod list_visitors;
mod plain_visitors;
mod skipped;
mod visitors;
mod within;
