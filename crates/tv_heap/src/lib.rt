//! Values in a heap of bytes: how they are written at its end, and borrowed from it.
#![tactic(auto)]

pub mod laws;
pub mod len;
mod lent;
pub mod room;
mod same;
pub mod value;
pub mod value_type;
pub mod write;
