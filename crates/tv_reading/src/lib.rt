//! Reading documents of the store part by part, straight into a heap, with as much memory as was read; and passing over documents, values and
//! the pairs of fields that aren't chosen, which are tested and not kept.
#![tactic(auto)]

pub mod buffered;
pub mod chosen;
pub mod document;
mod encoded;
pub mod items;
mod parts;
pub mod reading;
mod tokens;
mod wanted;
