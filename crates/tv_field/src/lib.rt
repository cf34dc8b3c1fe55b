//! The types of fields with their options, and the values of JSON that each type takes.
#![tactic(auto)]

pub mod field_entry;
pub mod field_type;
mod json_tokens;
pub mod json_value;
pub mod laws;
pub mod value_parsing_error;

pub use field_entry::{FieldEntry, SchemaError, is_valid_field_name};
pub use field_type::FieldType;
pub use value_parsing_error::{NotWhole, ParseCause, ValueParsingError};
