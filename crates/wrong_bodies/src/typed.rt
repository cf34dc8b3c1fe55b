//! Documents read into types.

ghost use Rattle.std.specs.Prelude.{◌≡◌, true, OnErr};

use std::alloc::Global;
use tantivy_schema::common::ByteSource;
use tantivy_schema::schema::TantivyDocument;
use tantivy_schema::schema::document::{
    BinaryDocumentDeserializer, DeserializeError, DocumentDeserialize, StoreReader,
};

/// A reader is marked once a document was refused, also where it had no room or no memory, so that nothing is read after it.
pub fn refused_documents_are_marked<S: ByteSource>(
    alloc: Global,
    reader: &mut StoreReader<S>,
) -> Result<TantivyDocument, DeserializeError>
    ensures { OnErr result (reader.new.has_failed ≡ true) }
{
    let mut pairs = BinaryDocumentDeserializer::from_reader(reader)?;
    TantivyDocument::deserialize(alloc, &mut pairs)
}
