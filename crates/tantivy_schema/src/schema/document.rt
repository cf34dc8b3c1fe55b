//! Documents, and their form in the store.
//!
//! A document is a list of pairs of a field and a value, and it is written and read back:
//!
//! ```
//! pub fn added(alloc: Global, schema: &Schema) -> Result<TantivyDocument> {
//!     let mut document = TantivyDocument::new(alloc);
//!     document.add_text(schema.get_field("name")?, "Ada")?;
//!     document.add_u64(schema.get_field("age")?, 36)?;
//!     let group = Facet::from_text(alloc, "/staff/research")?;
//!     document.add_facet(schema.get_field("group")?, &group)?;
//!     Ok(document)
//! }
//!
//! fn append(sink: &mut VecSink, schema: &Schema, document: &TantivyDocument) -> Result<()> {
//!     if !document.fits(schema) {
//!         return Err(anyhow!("a field is not the schema's"));
//!     }
//!     BinaryDocumentSerializer::new(sink, schema).serialize_doc(document)?;
//!     Ok(())
//! }
//!
//! pub fn documents_of(alloc: Global, bytes: &[u8], count: usize) -> Result<Vec<TantivyDocument>> {
//!     let mut source = SliceSource::new(bytes);
//!     let mut documents = Vec::new(alloc);
//!     for _ in 0..count {
//!         documents.push(read_document(alloc, &mut source, DocStoreVersion::V2)?)?;
//!     }
//!     Ok(documents)
//! }
//! ```

/// What reading stored values says of their types.
pub mod de {
    pub use tv_store::ValueType;
}

/// The types of values in a document's heap.
pub mod default_document {
    pub use tv_heap::value_type::ValueType;
}

pub use tv_builder::errors::AddError;
pub use tv_doc::builder::{Awaits, BuildError, BytesKind, TreeBuilder};
pub use tv_doc::document::{CompactDoc, CompactDoc as TantivyDocument};
pub use tv_doc::document_trait::Document;
pub use tv_doc::errors::{DocParsingError, NamedBackError, StrictParsingError};
pub use tv_doc::field_values::{FieldValueIterRef, GetAllIter};
pub use tv_doc::json_object::text_fault;
pub use tv_doc::named::{FieldNames, NamedFieldDocument};
pub use tv_doc::parse_buffers::ParseBuffers;
pub use tv_format::{LeafType, type_codes};
pub use tv_heap::value::{CompactDocArrayIter, CompactDocObjectIter, CompactDocValue};
pub use tv_json::compact::push_json;
pub use tv_json::json_expected::{JsonExpected, JsonWord, LowSurrogatePart};
pub use tv_json::json_fault::{JsonFault, JsonFaultKind};
pub use tv_store::{
    BinaryArraySerializer, BinaryDocumentSerializer, BinaryObjectSerializer, BinaryValueSerializer,
    DeserializeError, DocumentDeserialize, SerializeError, ValueType,
};
pub use tv_typed::{
    BinaryArrayDeserializer, BinaryDocumentDeserializer, BinaryObjectDeserializer,
    BinaryValueDeserializer, DocumentDeserializer, StoreReader, ValueDeserialize, ValueVisitor,
};
pub use tv_value::copy::CopyError;
pub use tv_value::json_value::{to_json_value, to_json_value_within};
pub use tv_value::leaf::ReferenceValueLeaf;
pub use tv_value::nested::{Lent, MAX_DEPTH, Nested, NestedValue, TooDeep, lend, nests_within};
pub use tv_value::owned_value::{OwnedArrayIter, OwnedObjectIter, OwnedValue};
pub use tv_value::same::is_same;
pub use tv_value::value::{ReferenceValue, Value};
