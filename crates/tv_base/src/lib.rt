//! Bytes: where they come from and go to, and the numbers and texts that they encode; facets, and how they are counted.
#![tactic(auto)]

pub mod byte_buffer;
pub mod cause;
pub mod facet;
pub mod facet_counts;
mod fixed_copy;
pub mod json_path;
pub mod laws;
pub mod serializable;
pub mod sink;
pub mod slice_source;
pub mod source;
pub mod take;
mod text_rules;
pub mod vint;
pub mod write;

pub use byte_buffer::ByteBuffer;
pub use cause::{Cause, ReadError, WriteError};
pub use facet::{FACET_SEP_BYTE, FACET_SEP_CHAR, Facet, FacetParseError};
pub use facet_counts::{
    DocumentFacet, FacetCount, FacetCountsError, count_child_documents, count_child_facets,
    greatest_counts,
};
pub use json_path::{join_json_path, joined_json_path, push_joined_json_path, split_json_path};
pub use serializable::BinarySerializable;
pub use sink::{ByteSink, VecSink};
pub use slice_source::SliceSource;
pub use source::ByteSource;
pub use vint::VInt;
