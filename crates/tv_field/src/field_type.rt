//! The type of a field, with its options.

ghost use Rattle.std.specs.Prelude.{◌≡◌, ◌↔◌, IsTrue, IfOk};
ghost use Rattle.std.specs.Option.{option_copied};
ghost use Rattle.tv_options.specs.declared.types.TypeTag.TheVariants as tags;
ghost use Rattle.tv_field.specs.Entry.{is_stored_type, value_type, is_indexed_type, is_fast_type, has_fieldnorms_type, record_option, record_of, basic_where};

use std::alloc::{AllocError, Global};
use tv_options::{
    BytesOptions, DateOptions, FacetOptions, IndexRecordOption, IpAddrOptions, JsonObjectOptions,
    NumericOptions, TextFieldIndexing, TextOptions, Type,
};

/// The type of a field's values, and how they are kept.
#[derive(Debug, Drop, PartialEq, Eq)]
pub enum FieldType {
    /// Texts.
    Str(TextOptions),
    /// Whole numbers from 0 to 2^64 - 1.
    U64(NumericOptions),
    /// Whole numbers from -2^63 to 2^63 - 1.
    I64(NumericOptions),
    /// Truth values.
    Bool(NumericOptions),
    /// Dates.
    Date(DateOptions),
    /// Facets, which are always indexed and always have a fast field.
    Facet(FacetOptions),
    /// Bytes.
    Bytes(BytesOptions),
    /// JSON objects.
    JsonObject(JsonObjectOptions),
    /// IP addresses.
    IpAddr(IpAddrOptions),
}

impl FieldType {
    /// The type of the values, without the options.
    pub fn value_type(&self) -> Type
        ensures { result ≡ value_type self.now }
    {
        match self {
            FieldType::Str(_) => Type::Str,
            FieldType::U64(_) => Type::U64,
            FieldType::I64(_) => Type::I64,
            FieldType::Bool(_) => Type::Bool,
            FieldType::Date(_) => Type::Date,
            FieldType::Facet(_) => Type::Facet,
            FieldType::Bytes(_) => Type::Bytes,
            FieldType::JsonObject(_) => Type::Json,
            FieldType::IpAddr(_) => Type::IpAddr,
        }
    }

    /// Whether the values are JSON objects.
    pub fn is_json(&self) -> bool
        ensures { IsTrue result ↔ (value_type self.now ≡ tags.Json) }
    {
        matches!(self, FieldType::JsonObject(_))
    }

    /// Whether the values are IP addresses.
    pub fn is_ip_addr(&self) -> bool
        ensures { IsTrue result ↔ (value_type self.now ≡ tags.IpAddr) }
    {
        matches!(self, FieldType::IpAddr(_))
    }

    /// Whether the values are texts.
    pub fn is_str(&self) -> bool
        ensures { IsTrue result ↔ (value_type self.now ≡ tags.Str) }
    {
        matches!(self, FieldType::Str(_))
    }

    /// Whether the values are bytes.
    pub fn is_bytes(&self) -> bool
        ensures { IsTrue result ↔ (value_type self.now ≡ tags.Bytes) }
    {
        matches!(self, FieldType::Bytes(_))
    }

    /// Whether the values are dates.
    pub fn is_date(&self) -> bool
        ensures { IsTrue result ↔ (value_type self.now ≡ tags.Date) }
    {
        matches!(self, FieldType::Date(_))
    }

    /// Whether the field's values are kept in the document store.
    pub fn is_stored(&self) -> bool
        ensures { result ≡ is_stored_type self.now }
    {
        match self {
            FieldType::Str(options) => options.is_stored(),
            FieldType::U64(options) | FieldType::I64(options) | FieldType::Bool(options) => {
                options.is_stored()
            }
            FieldType::Date(options) => options.is_stored(),
            FieldType::Facet(options) => options.is_stored(),
            FieldType::Bytes(options) => options.is_stored(),
            FieldType::JsonObject(options) => options.is_stored(),
            FieldType::IpAddr(options) => options.is_stored(),
        }
    }

    /// Whether the field's values can be searched for.
    pub fn is_indexed(&self) -> bool
        ensures { result ≡ is_indexed_type self.now }
    {
        match self {
            FieldType::Str(options) => options.get_indexing_options().is_some(),
            FieldType::U64(options) | FieldType::I64(options) | FieldType::Bool(options) => {
                options.is_indexed()
            }
            FieldType::Date(options) => options.is_indexed(),
            FieldType::Facet(_) => true,
            FieldType::Bytes(options) => options.is_indexed(),
            FieldType::JsonObject(options) => options.is_indexed(),
            FieldType::IpAddr(options) => options.is_indexed(),
        }
    }

    /// Whether the field has a fast field: its values in a column, for access by document.
    pub fn is_fast(&self) -> bool
        ensures { result ≡ is_fast_type self.now }
    {
        match self {
            FieldType::Str(options) => options.is_fast(),
            FieldType::U64(options) | FieldType::I64(options) | FieldType::Bool(options) => {
                options.is_fast()
            }
            FieldType::Date(options) => options.is_fast(),
            FieldType::Facet(_) => true,
            FieldType::Bytes(options) => options.is_fast(),
            FieldType::JsonObject(options) => options.is_fast(),
            FieldType::IpAddr(options) => options.is_fast(),
        }
    }

    /// Whether field norms are kept. They never are for facets and JSON objects.
    pub fn has_fieldnorms(&self) -> bool
        ensures { result ≡ has_fieldnorms_type self.now }
    {
        match self {
            FieldType::Str(options) => match options.get_indexing_options() {
                Some(indexing) => indexing.fieldnorms(),
                None => false,
            },
            FieldType::U64(options) | FieldType::I64(options) | FieldType::Bool(options) => {
                options.fieldnorms()
            }
            FieldType::Date(options) => options.fieldnorms(),
            FieldType::Facet(_) | FieldType::JsonObject(_) => false,
            FieldType::Bytes(options) => options.fieldnorms(),
            FieldType::IpAddr(options) => options.fieldnorms(),
        }
    }

    /// What an index keeps of each term of the field, or `None` where the field isn't indexed. Of a field of JSON objects
    /// it is what is kept of texts; of numbers in them no more than the documents is.
    pub fn index_record_option(&self) -> Option<IndexRecordOption>
        ensures { result ≡ record_option self.now }
    {
        match self {
            FieldType::Str(options) => record_of(options.get_indexing_options()),
            FieldType::JsonObject(options) => record_of(options.get_text_indexing_options()),
            other => basic_where(other.is_indexed()),
        }
    }

    /// The same as `index_record_option`, which is tantivy's older name.
    pub fn get_index_record_option(&self) -> Option<IndexRecordOption>
        ensures { result ≡ record_option self.now }
    {
        self.index_record_option()
    }

    /// A copy. The only error is that memory is refused.
    pub fn try_clone(&self, alloc: Global) -> Result<FieldType, AllocError>
        ensures { IfOk result (λ copy. copy ≡ self.now) }
    {
        match self {
            FieldType::Str(options) => Ok(FieldType::Str(options.try_clone(alloc)?)),
            FieldType::U64(options) => Ok(FieldType::U64(*options)),
            FieldType::I64(options) => Ok(FieldType::I64(*options)),
            FieldType::Bool(options) => Ok(FieldType::Bool(*options)),
            FieldType::Date(options) => Ok(FieldType::Date(*options)),
            FieldType::Facet(options) => Ok(FieldType::Facet(*options)),
            FieldType::Bytes(options) => Ok(FieldType::Bytes(*options)),
            FieldType::JsonObject(options) => Ok(FieldType::JsonObject(options.try_clone(alloc)?)),
            FieldType::IpAddr(options) => Ok(FieldType::IpAddr(*options)),
        }
    }
}

// What is kept by this indexing.
fn record_of(indexing: Option<&TextFieldIndexing>) -> Option<IndexRecordOption>
    ensures { result ≡ record_of (option_copied indexing.entry) }
{
    match indexing {
        Some(indexing) => Some(indexing.index_option()),
        None => None,
    }
}

// The documents alone, where the field is indexed.
fn basic_where(is_indexed: bool) -> Option<IndexRecordOption>
    ensures { result ≡ basic_where is_indexed }
{
    if is_indexed {
        Some(IndexRecordOption::Basic)
    } else {
        None
    }
}
