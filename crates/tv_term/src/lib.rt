//! Terms: a field and a value as bytes, whose order is the order of values.
#![tactic(auto)]

pub mod fast_value;
pub mod laws;
pub mod range;
pub mod term;
mod term_debug;
pub mod value_bytes;
pub mod writer;

pub use fast_value::FastValue;
pub use range::{TermRange, successor};
pub use term::{Term, TermError};
pub use value_bytes::{OwnedValueBytes, ValueBytes};
pub use writer::TermWriter;
