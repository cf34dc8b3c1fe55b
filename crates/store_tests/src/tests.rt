//! Values of great depth, in documents and by themselves, documents read in place and within limits, the laws of calls in use,
//! a store of your own, and calls that fail.

mod any_depth;
mod blocks;
mod deep;
mod embedded;
mod failing_reads;
mod failing_runs;
mod failing_writes;
mod laws;
mod limits;
mod reused;
mod surface;
