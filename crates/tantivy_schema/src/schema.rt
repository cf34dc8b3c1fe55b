//! Schemas, their fields, and the options of these.
//!
//! A schema is made by a builder, field by field:
//!
//! ```
//! pub fn people(alloc: Global) -> Result<Schema> {
//!     let mut builder = Schema::builder(alloc);
//!     builder.add_text_field("name", TEXT | STORED)?;
//!     builder.add_u64_field("age", INDEXED | STORED)?;
//!     builder.add_facet_field("group", STORED)?;
//!     builder.add_json_field("more", STORED)?;
//!     Ok(builder.build()?)
//! }
//! ```

pub mod document;

pub use tv_base::{
    DocumentFacet, FACET_SEP_BYTE, FACET_SEP_CHAR, Facet, FacetCount, FacetCountsError,
    FacetParseError, count_child_documents, count_child_facets, greatest_counts,
};
pub use tv_doc::document::{CompactDoc, CompactDoc as TantivyDocument};
pub use tv_doc::document_trait::Document;
pub use tv_doc::errors::{DocParsingError, StrictParsingError};
pub use tv_doc::json_object::text_fault;
pub use tv_doc::named::NamedFieldDocument;
pub use tv_field::json_value::JsonRefusal;
pub use tv_field::{
    FieldEntry, FieldType, NotWhole, ParseCause, SchemaError, ValueParsingError,
    is_valid_field_name,
};
pub use tv_indexing::{
    IndexedField, TermIter, TermList, TermValuesError, TermVisitor, TextTermsError, bounds_of_text,
    is_among, range_between_texts, range_of_text, ranges_between_texts, ranges_of_text, term_fault,
    term_values, term_values_of_fields, terms_of_text, text_of_term, visit_terms,
};
pub use tv_json::json_expected::{JsonExpected, JsonWord, LowSurrogatePart};
pub use tv_json::json_fault::{JsonFault, JsonFaultKind};
pub use tv_options::{
    BytesOptions, COERCE, CoerceFlag, Coercion, DATE_TIME_PRECISION_INDEXED, DateOptions,
    DateTimePrecision, DotExpansion, FAST, FacetOptions, FastFieldTextOptions, FastFlag,
    FlagOptions, INDEXED, IndexRecordOption, IndexedFlag, IpAddrOptions, JsonObjectOptions,
    NumericOptions, OfBytes, OfIpAddrs, STORED, STRING, SchemaFlagList, StoredFlag, TEXT,
    TextFieldIndexing, TextOptions, TextualOptions, TokenizerName, Type, TypeIter,
};
pub use tv_schema::{FieldIter, Schema, SchemaBuilder, SchemaJsonError, SchemaKey};
pub use tv_term::{OwnedValueBytes, Term, TermError, TermRange, TermWriter, ValueBytes, successor};
pub use tv_value::field::Field;
pub use tv_value::leaf::IntoIpv6Addr;
pub use tv_value::owned_value::{JsonError, OwnedValue};
pub use tv_value::value::Value;
