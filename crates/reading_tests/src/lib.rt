//! Tests of reads that a row of the programs of cases can't say, in a crate of their own, so that the libraries are proved once.
#![tactic(auto)]

#[cfg(test)]
mod tests;
