//! Functions for the planted bugs in `must-fail/`: each edit there is a wrong body of one of these functions, and the prover must refuse it.
//!
//! Each function makes a call of the library or a few, and its contract is what these calls promise, or what follows from that. Its body has
//! the shape of its wrong bodies, with the same `match` or `if`, so that a refused edit is refused for what it returns and not for its shape.
//! These functions are for nobody to call: code to copy stands in the crate `uses`, and `docs/PROVED.md` names the calls that promise this.
#![tactic(auto)]

pub mod adding;
pub mod building;
pub mod facets;
pub mod heap;
pub mod numbers;
pub mod reading;
pub mod schemas;
pub mod steps;
pub mod terms;
pub mod typed;
pub mod writing;
