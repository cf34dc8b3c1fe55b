//! Sources and sinks, values and terms; documents with very many lists, and memory that is refused.

mod buffered;
mod bytes;
mod failing_calls;
mod laws;
mod long;
mod memory;
mod owned_values;
mod parsed;
mod printed;
mod terms;
