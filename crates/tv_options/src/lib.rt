//! Options of a schema's fields, and the types of their values.
#![tactic(auto)]

pub mod date_time_options;
pub mod facet_options;
pub mod flag_options;
pub mod flags;
pub mod json_object_options;
pub mod laws;
pub mod numeric_options;
mod own_part;
pub mod text_options;
pub mod textual_options;
pub mod tokenizer_name;
pub mod types;

pub use date_time_options::DateOptions;
pub use facet_options::FacetOptions;
pub use flag_options::{BytesOptions, FlagOptions, IpAddrOptions};
pub use flags::{
    COERCE, CoerceFlag, FAST, FastFlag, INDEXED, IndexedFlag, STORED, SchemaFlagList, StoredFlag,
};
pub use json_object_options::JsonObjectOptions;
pub use numeric_options::NumericOptions;
pub use own_part::{Coercion, DotExpansion, OfBytes, OfIpAddrs, PlainPart};
pub use text_options::{
    FastFieldTextOptions, IndexRecordOption, STRING, TEXT, TextFieldIndexing, TextOptions,
};
pub use textual_options::TextualOptions;
pub use tokenizer_name::TokenizerName;
pub use tv_date::date_time::{DATE_TIME_PRECISION_INDEXED, DateTimePrecision};
pub use types::{TypeIter, TypeTag as Type};
