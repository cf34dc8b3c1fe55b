//! Byte sources and sinks over the readers and writers of std, and others of which one call fails.
#![tactic(auto)]

pub mod buffered_source;
mod failures;
pub mod faulty;
pub mod limited_source;
pub mod std_io;

pub use buffered_source::BufferedSource;
pub use faulty::{FaultSink, FaultSource, Faulty};
pub use limited_source::LimitedSource;
pub use std_io::{ReadSource, WriteSink};
