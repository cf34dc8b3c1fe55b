//! Values as finite trees, and the bytes that encode them in a store: the grammar of the store format in each of its versions, what is
//! wrong with bytes that encode nothing, the shortest encodings, and the laws that hold of these.
#![tactic(auto)]

pub mod laws;
pub mod leaf_type;
pub mod type_codes;

pub use leaf_type::{Form, LeafType, WriteVersion};
