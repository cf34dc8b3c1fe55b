//! Documents: pairs of a field and a value, the values in one flat heap of bytes.
#![tactic(auto)]

mod borrowed_json;
pub mod builder;
mod convert;
pub mod document;
pub mod document_trait;
pub mod errors;
pub mod field_values;
mod grouped;
pub mod json_object;
pub mod laws;
pub mod lent_borrowed;
mod lent_names;
mod map_value;
pub mod named;
pub mod parse_buffers;
mod recent_fields;
pub mod strict_json;

pub use builder::{Awaits, BuildError, BytesKind, TreeBuilder};
pub use document::{CompactDoc, CompactDoc as TantivyDocument};
pub use document_trait::Document;
pub use errors::{DocParsingError, NamedBackError, StrictParsingError};
pub use field_values::{FieldValueIterRef, GetAllIter};
pub use named::NamedFieldDocument;
pub use tv_builder::errors::AddError;
pub use tv_heap::value::{CompactDocArrayIter, CompactDocObjectIter, CompactDocValue};
pub use tv_heap::value_type::ValueType;
pub use tv_json::json_expected::{JsonExpected, JsonWord, LowSurrogatePart};
pub use tv_json::json_fault::{JsonFault, JsonFaultKind};
