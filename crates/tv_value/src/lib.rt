//! Values of any kind, lent and owned, and from JSON.
#![tactic(auto)]

pub mod children;
pub mod copy;
pub mod encode;
pub mod field;
pub mod in_place;
pub mod json;
pub mod json_value;
pub mod laws;
pub mod leaf;
mod moved;
pub mod nested;
pub mod owned_value;
pub mod pre_tokenized;
pub mod same;
pub mod tokenizer;
mod utf8;
pub mod value;

pub use field::Field;
pub use leaf::{IntoIpv6Addr, ReferenceValueLeaf};
pub use owned_value::{JsonError, OwnedValue};
pub use pre_tokenized::{PreTokenizedStr, TokenRef};
pub use tokenizer::{PreTokenizedString, Token};
pub use tv_base::{
    BinarySerializable, ByteSink, ByteSource, Cause, DocumentFacet, FACET_SEP_BYTE, FACET_SEP_CHAR,
    Facet, FacetCount, FacetCountsError, FacetParseError, ReadError, SliceSource, VInt, VecSink,
    WriteError, count_child_documents, count_child_facets, greatest_counts, join_json_path,
    joined_json_path, push_joined_json_path, split_json_path,
};
pub use tv_date::{DATE_TIME_PRECISION_INDEXED, DateError, DateTime, DateTimePrecision};
pub use tv_io::{BufferedSource, FaultSink, FaultSource, LimitedSource, ReadSource, WriteSink};
pub use value::{ReferenceValue, Value};
