//! Reading values of the document store into types.
#![tactic(auto)]

pub mod array;
pub mod collections;
pub mod de;
pub mod document;
pub mod laws;
mod leaf_values;
mod legacy_object;
pub mod object;
pub mod store_reader;
mod visits;

pub use array::BinaryArrayDeserializer;
pub use de::{BinaryValueDeserializer, ValueDeserialize};
pub use document::{BinaryDocumentDeserializer, DocumentDeserializer};
pub use leaf_values::ValueVisitor;
pub use object::BinaryObjectDeserializer;
pub use store_reader::StoreReader;
