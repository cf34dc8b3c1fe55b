//! Reading the parts and the trees of values in the document store, with the objects that older stores hold as JSON.
#![tactic(auto)]

pub mod encoded_tokens;
pub mod error;
pub mod heads;
pub mod laws;
pub mod leaves;
pub mod legacy;
pub mod trees;
pub mod value_type;
pub mod version;

pub use error::{DeserializeError, ValueType};
pub use version::DocStoreVersion;
