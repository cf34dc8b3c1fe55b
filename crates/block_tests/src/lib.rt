//! Tests of `tv_blocks`, in a crate of their own, so that these are proved once.
#![tactic(auto)]

#[cfg(test)]
mod tests;
