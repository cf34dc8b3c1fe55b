//! Tests of the crates up to `tv_doc` that a row of the programs of cases can't say, in a crate of their own, so that these are proved once.
#![tactic(auto)]

#[cfg(test)]
mod tests;
