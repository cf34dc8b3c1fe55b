//! A field of a schema: its name, its type and its options; why a schema refuses one.

ghost use Rattle.std.specs.Prelude.{◌≡◌};
ghost use Rattle.tv_field.specs.Entry.{is_valid_name};

use crate::field_type::FieldType;
use std::alloc::AllocError;
use std::marker::Model;
use thiserror::Error;
use tv_options::{
    BytesOptions, DateOptions, FacetOptions, IpAddrOptions, JsonObjectOptions, NumericOptions,
    TextOptions,
};

/// Why a schema refuses what is asked.
#[derive(Clone, Copy, Debug, PartialEq, Eq, Error)]
pub enum SchemaError {
    /// A field's name is empty or begins with `-`.
    #[error("a field name is empty or begins with `-`")]
    InvalidName,
    /// A field has the name already.
    #[error("a field has this name already")]
    DuplicateName,
    /// There are 4294967295 fields, and no number is left for one more.
    #[error("there are 4294967295 fields already")]
    TooManyFields,
    /// Memory was refused.
    #[error("memory was refused")]
    Memory,
    /// No field has the name.
    #[error("no field has this name")]
    FieldNotFound,
    /// The JSON description is not one of a schema: in the entry of this place, from 0, or as a whole.
    #[error("the JSON description is not one of a schema, at entry {entry:?}")]
    BadJson {
        /// The place of the entry, or `None` where the whole isn't an array.
        entry: Option<usize>,
    },
    /// The entry of this place, from 0, has the type `f64`, which this library doesn't have.
    #[error("entry {entry} has the type `f64`")]
    FloatField {
        /// The place of the entry.
        entry: usize,
    },
}

impl From<AllocError> for SchemaError {
    ghost use Rattle.std.specs.Prelude.{◌≡◌};
    ghost use Rattle.tv_field.specs.declared.field_entry.SchemaError.TheVariants.{Memory};

    ghost from_gives = { λ _ error. error ≡ Memory };

    fn from(_: AllocError) -> SchemaError {
        SchemaError::Memory
    }
}

/// Whether the text can be a field's name: it isn't empty and doesn't begin with `-` (tantivy's rule).
pub fn is_valid_field_name(name: &str) -> bool
    ensures { result ≡ is_valid_name name.now }
{
    match name.as_bytes() {
        [] => false,
        [first, ..] => *first != b'-',
    }
}

/// A valid name, and a type with its options.
#[derive(Debug)]
pub struct FieldEntry {
    name: String,
    field_type: FieldType,
}

// By hand, so that an entry is dropped by one call.
impl Drop for FieldEntry {
    fn drop(self) {
        let FieldEntry {
            name: _,
            field_type: _,
        } = self;
    }
}

impl Model for FieldEntry {
    ghost use Rattle.std.specs.String.{string_bytes};
    ghost use Rattle.tv_field.specs.Entry.{Entry, IsValidName};

    ghost Value = { Entry };

    ghost view = { λ entry. record {
      name = string_bytes entry.name;
      field_type = entry.field_type;
    } };

    ghost invariant = { λ entry. IsValidName (string_bytes entry.name) };
}

impl FieldEntry {
    ghost use Rattle.std.specs.String.{string_bytes};
    ghost use Rattle.std.specs.Prelude.{◌≡◌, IfOk};
    ghost use Rattle.tv_field.specs.Entry.{IsValidName, MakesEntry, is_stored_type, is_indexed_type, is_fast_type, has_fieldnorms_type, expands_dots};
    ghost use Rattle.tv_field.specs.declared.field_type.FieldType.TheVariants as types;

    /// An entry of this name and type. A name that is empty or begins with `-` is refused as `InvalidName`, and that is
    /// the only error: no memory is taken.
    pub fn new(name: String, field_type: FieldType) -> Result<FieldEntry, SchemaError>
        ensures { MakesEntry (string_bytes name) field_type result }
    {
        if is_valid_field_name(name.as_str()) {
            Ok(FieldEntry { name, field_type })
        } else {
            Err(SchemaError::InvalidName)
        }
    }

    /// An entry of a field of texts. The only error is `InvalidName`, where the name is empty or begins with `-`.
    pub fn new_text(name: String, options: TextOptions) -> Result<FieldEntry, SchemaError>
        ensures { MakesEntry (string_bytes name) (types.Str options) result }
    {
        FieldEntry::new(name, FieldType::Str(options))
    }

    /// An entry of a field of whole numbers from 0 to 2^64 - 1. The only error is `InvalidName`, where the name is empty or begins with `-`.
    pub fn new_u64(name: String, options: NumericOptions) -> Result<FieldEntry, SchemaError>
        ensures { MakesEntry (string_bytes name) (types.U64 options) result }
    {
        FieldEntry::new(name, FieldType::U64(options))
    }

    /// An entry of a field of whole numbers from -2^63 to 2^63 - 1. The only error is `InvalidName`, where the name is empty or begins with `-`.
    pub fn new_i64(name: String, options: NumericOptions) -> Result<FieldEntry, SchemaError>
        ensures { MakesEntry (string_bytes name) (types.I64 options) result }
    {
        FieldEntry::new(name, FieldType::I64(options))
    }

    /// An entry of a field of truth values. The only error is `InvalidName`, where the name is empty or begins with `-`.
    pub fn new_bool(name: String, options: NumericOptions) -> Result<FieldEntry, SchemaError>
        ensures { MakesEntry (string_bytes name) (types.Bool options) result }
    {
        FieldEntry::new(name, FieldType::Bool(options))
    }

    /// An entry of a field of dates. The only error is `InvalidName`, where the name is empty or begins with `-`.
    pub fn new_date(name: String, options: DateOptions) -> Result<FieldEntry, SchemaError>
        ensures { MakesEntry (string_bytes name) (types.Date options) result }
    {
        FieldEntry::new(name, FieldType::Date(options))
    }

    /// An entry of a field of IP addresses. The only error is `InvalidName`, where the name is empty or begins with `-`.
    pub fn new_ip_addr(name: String, options: IpAddrOptions) -> Result<FieldEntry, SchemaError>
        ensures { MakesEntry (string_bytes name) (types.IpAddr options) result }
    {
        FieldEntry::new(name, FieldType::IpAddr(options))
    }

    /// An entry of a field of facets. The only error is `InvalidName`, where the name is empty or begins with `-`.
    pub fn new_facet(name: String, options: FacetOptions) -> Result<FieldEntry, SchemaError>
        ensures { MakesEntry (string_bytes name) (types.Facet options) result }
    {
        FieldEntry::new(name, FieldType::Facet(options))
    }

    /// An entry of a field of bytes. The only error is `InvalidName`, where the name is empty or begins with `-`.
    pub fn new_bytes(name: String, options: BytesOptions) -> Result<FieldEntry, SchemaError>
        ensures { MakesEntry (string_bytes name) (types.Bytes options) result }
    {
        FieldEntry::new(name, FieldType::Bytes(options))
    }

    /// An entry of a field of JSON objects. The only error is `InvalidName`, where the name is empty or begins with `-`.
    pub fn new_json(name: String, options: JsonObjectOptions) -> Result<FieldEntry, SchemaError>
        ensures { MakesEntry (string_bytes name) (types.JsonObject options) result }
    {
        FieldEntry::new(name, FieldType::JsonObject(options))
    }

    /// The field's name.
    pub fn name(&self) -> &str
        ensures name { result.now ≡ self.now.name }
        ensures valid { IsValidName self.now.name }
    {
        self.name.as_str()
    }

    /// The type, with its options.
    pub fn field_type(&self) -> &FieldType
        ensures { result.now ≡ self.now.field_type }
    {
        &self.field_type
    }

    /// Whether the field's values can be searched for.
    pub fn is_indexed(&self) -> bool
        ensures { result ≡ is_indexed_type self.now.field_type }
    {
        self.field_type.is_indexed()
    }

    /// Whether field norms are kept. They never are for facets and JSON objects.
    pub fn has_fieldnorms(&self) -> bool
        ensures { result ≡ has_fieldnorms_type self.now.field_type }
    {
        self.field_type.has_fieldnorms()
    }

    /// Whether the field has a fast field: its values in a column, for access by document.
    pub fn is_fast(&self) -> bool
        ensures { result ≡ is_fast_type self.now.field_type }
    {
        self.field_type.is_fast()
    }

    /// Whether the field's values are kept in the document store.
    pub fn is_stored(&self) -> bool
        ensures { result ≡ is_stored_type self.now.field_type }
    {
        self.field_type.is_stored()
    }

    /// Whether the field is of JSON objects, and dots part their keys.
    pub fn is_expand_dots_enabled(&self) -> bool
        ensures { result ≡ expands_dots self.now.field_type }
    {
        match &self.field_type {
            FieldType::JsonObject(options) => options.is_expand_dots_enabled(),
            _ => false,
        }
    }

    /// A copy. The only error is that memory is refused.
    pub fn try_clone(&self) -> Result<FieldEntry, AllocError>
        ensures { IfOk result (λ copy. copy ≡ self.now) }
    {
        let alloc = *self.name.allocator();
        Ok(FieldEntry {
            name: String::from_str(alloc, self.name.as_str())?,
            field_type: self.field_type.try_clone(alloc)?,
        })
    }
}

impl PartialEq for FieldEntry {
    ghost use Rattle.std.specs.Cmp.{and_per, on_per, partial_equiv_from_equiv};
    ghost use Rattle.std.specs.Cmp.Lexicographic.{pointwise, nat_list_eq_equiv};
    ghost use Rattle.std.specs.Prelude.{nat_eq};
    ghost use Rattle.std.specs.Ordering.{eq_of_both, on};
    ghost use Rattle.tv_field.specs.Entry.{Entry};
    ghost use Rattle.tv_field.specs.contracts.field_type.FieldTypePartialEq.TheImpl.Laws.{laws-law as field_type_laws};

    ghost eq = { eq_of_both (on (λ (entry : Entry). entry.name) (pointwise nat_eq))
        (on (λ (entry : Entry). entry.field_type) ⟦<FieldType as PartialEq>⟧.eq) };

    ghost laws = { and_per
        (on_per (λ entry. entry.name) (partial_equiv_from_equiv nat_list_eq_equiv))
        (on_per (λ entry. entry.field_type) field_type_laws) };

    fn eq(&self, other: &FieldEntry) -> bool {
        self.name() == other.name() && self.field_type == other.field_type
    }
}

impl Eq for FieldEntry {
    ghost use Rattle.std.specs.Cmp.{and_equiv, on_equiv};
    ghost use Rattle.std.specs.Cmp.Lexicographic.{nat_list_eq_equiv};
    ghost use Rattle.tv_field.specs.contracts.field_type.FieldTypeEq.TheImpl.Laws.{laws-law as field_type_laws};

    ghost laws = { and_equiv (on_equiv (λ entry. entry.name) nat_list_eq_equiv)
        (on_equiv (λ entry. entry.field_type) field_type_laws) };
}
