//! The document store's format: documents are written as bytes, and read from them.
#![tactic(auto)]

pub mod block;
pub mod block_migration;
pub mod de;
mod depth;
pub mod direct_decoder;
pub mod early_end;
mod encoded_writer;
pub mod fields;
pub mod laws;
pub mod limits;
pub mod migration;
pub mod migration_trip;
mod pair_writer;
pub mod pairs_given;
pub mod projection;
pub mod round_trip;
pub mod se;

pub use block::{BlockReader, RefusedDocument};
pub use block_migration::{MigrateBlockError, Unwatched, Watch, migrate_block};
pub use de::{read_document, read_document_into, skip_document, skip_value};
pub use direct_decoder::{DirectDecoder, Step};
pub use early_end::{EarlyEnd, next_of};
pub use fields::{read_fields, read_fields_into};
pub use limits::{LimitedReadError, ReadLimit, ReadLimits, read_document_within};
pub use migration::{MigrateError, migrate};
pub use pairs_given::DocumentDeserialize;
pub use projection::Projection;
pub use se::{
    BinaryArraySerializer, BinaryDocumentSerializer, BinaryObjectSerializer, BinaryValueSerializer,
};
pub use tv_format::type_codes;
pub use tv_reader::{DeserializeError, DocStoreVersion, ValueType};
pub use tv_typed::{
    BinaryArrayDeserializer, BinaryDocumentDeserializer, BinaryObjectDeserializer,
    BinaryValueDeserializer, DocumentDeserializer, StoreReader, ValueDeserialize, ValueVisitor,
};
pub use tv_writer::SerializeError;
