//! A value of any depth, written into a heap of bytes as its parts arrive.
#![tactic(auto)]

mod building;
pub mod encoded;
pub mod errors;
pub mod heap_pairs;
pub mod kinds;
pub mod laws;
mod nested;
pub mod pair_builder;
mod whole;
