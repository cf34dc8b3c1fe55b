//! Tests of `tv_store`, `tantivy_schema` and `embedding`, in a crate of their own, so that these are proved once.
#![tactic(auto)]

#[cfg(test)]
mod tests;
