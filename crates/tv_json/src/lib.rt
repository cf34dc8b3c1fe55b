//! Values as JSON: as JSON values, and as texts without spaces; and JSON values that borrow their texts from the text that they were read from.
#![tactic(auto)]

pub mod compact;
pub mod json_expected;
pub mod json_fault;
mod json_place;
pub mod json_scan;
pub mod large_number;
pub mod laws;
mod list_stack;
pub mod member_order;
mod members;
pub mod named;
mod number;
mod open_lists;
pub mod read;
pub mod value;
mod write;

/// Where texts with escapes are written while a JSON value is read: one serves any number of readings, one after the other.
pub use json::Scratch;
