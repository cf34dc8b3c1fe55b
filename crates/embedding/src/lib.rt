//! Documents in a store of your own: a sink with a limit, and a source that gives its bytes in packets; and types of your own that
//! are read out of a store: a number, a record and a recursive one. All implement the traits of `tantivy_schema`, and their contracts
//! are said with its definitions. Of the crates below it `crates.txt` names just `tv_value`, where the toolchain looks for the type
//! `OwnedValue` in the contracts of `figures`.
#![tactic(auto)]

pub mod bounded_sink;
pub mod documents;
pub mod figures;
pub mod packet_source;
pub mod point;
pub mod score;

pub use bounded_sink::BoundedSink;
pub use documents::{fetch_document, store_document};
pub use figures::Figures;
pub use packet_source::PacketSource;
pub use point::Point;
pub use score::Score;
