//! Dates: to which part of a second they are kept, and their texts.
#![tactic(auto)]

pub mod date_time;
pub mod laws;
mod rfc3339;

pub use date_time::{DATE_TIME_PRECISION_INDEXED, DateTime, DateTimePrecision};
pub use rfc3339::DateError;
