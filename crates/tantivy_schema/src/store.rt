//! The document store.

pub use tv_format::WriteVersion;
pub use tv_store::{
    BlockReader, DirectDecoder, DocStoreVersion, LimitedReadError, MigrateBlockError, MigrateError,
    Projection, ReadLimit, ReadLimits, RefusedDocument, Step, Unwatched, Watch, migrate,
    migrate_block, read_document, read_document_into, read_document_within, read_fields,
    read_fields_into, skip_document, skip_value,
};
