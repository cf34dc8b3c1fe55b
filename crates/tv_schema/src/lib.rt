//! Schemas: fields by name, number and path; schemas as JSON.
#![tactic(auto)]

pub mod json;
pub mod laws;
mod path;
pub mod schema;
mod table;

pub use json::error::SchemaJsonError;
pub use json::key::SchemaKey;
pub use schema::{FieldIter, Schema, SchemaBuilder};
pub use tv_field::{
    FieldEntry, FieldType, ParseCause, SchemaError, ValueParsingError, is_valid_field_name,
};
pub use tv_options::{
    BytesOptions, COERCE, CoerceFlag, Coercion, DATE_TIME_PRECISION_INDEXED, DateOptions,
    DateTimePrecision, DotExpansion, FAST, FacetOptions, FastFieldTextOptions, FastFlag,
    FlagOptions, INDEXED, IndexRecordOption, IndexedFlag, IpAddrOptions, JsonObjectOptions,
    NumericOptions, OfBytes, OfIpAddrs, PlainPart, STORED, STRING, SchemaFlagList, StoredFlag,
    TEXT, TextFieldIndexing, TextOptions, TextualOptions, TokenizerName, Type, TypeIter,
};
pub use tv_value::Field;
