//! Schemas, how they are built, and their fields, one after the other.

ghost use Rattle.std.specs.Prelude.{◌≡◌, ◌<◌, ◌+◌, ◌^◌, ◌++◌, ◌∷◌, [], ◌↔◌, length, None, Some, Ok, Err, IfOk, IfSome, OnOk, OnErr, IsTrue, MatchOption, IsOk};
ghost use Rattle.std.specs.Prelude.{IsOkAnd, slice_get};
ghost use Rattle.std.specs.Option.{ForSome, option_map};
ghost use Rattle.std.specs.List.{enumerate_from};
ghost use Rattle.tv_schema.specs.Path.{find, find_or};
ghost use Rattle.tv_schema.specs.Schema.{IsSchema, AddsField, AddsWith, refusal, field_named};

use crate::path;
use crate::table::FieldTable;
use std::alloc::{AllocError, Global};
use std::marker::Model;
use std::rc::Rc;
use tv_field::{FieldEntry, FieldType, SchemaError, is_valid_field_name};
use tv_options::{
    BytesOptions, DateOptions, FacetOptions, IpAddrOptions, JsonObjectOptions, NumericOptions,
    TextOptions,
};
use tv_value::Field;

// The most fields of a schema, so that 32 bits hold the number of each.
const MAX_FIELDS: usize = 4294967295;

/// What a schema is made with: the entries so far, in the order of their numbers. Their names are valid and distinct.
///
/// ```
/// pub fn people(alloc: Global) -> Result<Schema> {
///     let mut builder = Schema::builder(alloc);
///     builder.add_text_field("name", TEXT | STORED)?;
///     builder.add_u64_field("age", INDEXED | STORED)?;
///     builder.add_facet_field("group", STORED)?;
///     builder.add_json_field("more", STORED)?;
///     Ok(builder.build()?)
/// }
/// ```
#[derive(Debug)]
pub struct SchemaBuilder {
    table: FieldTable,
    alloc: Global,
}

// By hand, so that a builder is dropped by one call.
impl Drop for SchemaBuilder {
    fn drop(self) {
        let SchemaBuilder { table: _, alloc: _ } = self;
    }
}

impl Model for SchemaBuilder {
    ghost use Rattle.std.specs.Prelude.{List};
    ghost use Rattle.tv_field.specs.Entry.{Entry};

    ghost Value = { List Entry };

    ghost view = { λ builder. builder.table };
}

impl SchemaBuilder {
    /// A builder without fields. It takes no memory.
    pub fn new(alloc: Global) -> SchemaBuilder
        ensures { result ≡ [] }
    {
        SchemaBuilder {
            table: FieldTable::new(alloc),
            alloc,
        }
    }

    /// Adds a field of texts. Its number is the count of the fields before it.
    ///
    /// Errors, the first that holds: `InvalidName` where the name is empty or begins with `-`, `DuplicateName` where a
    /// field has it already, `TooManyFields` where 4294967295 fields are there, `Memory` where a growth was refused.
    /// After each the builder is as it was.
    pub fn add_text_field<T: Into<TextOptions>>(
        &mut self,
        name: &str,
        options: T,
    ) -> Result<Field, SchemaError>
        ensures { AddsWith T.converts options FieldType.Str self.old self.new name.now result }
    {
        self.add(name, FieldType::Str(options.into()))
    }

    /// Adds a field of whole numbers from 0 to 2^64 - 1. Its number is the count of the fields before it.
    ///
    /// Errors, the first that holds: `InvalidName` where the name is empty or begins with `-`, `DuplicateName` where a
    /// field has it already, `TooManyFields` where 4294967295 fields are there, `Memory` where a growth was refused.
    /// After each the builder is as it was.
    pub fn add_u64_field<T: Into<NumericOptions>>(
        &mut self,
        name: &str,
        options: T,
    ) -> Result<Field, SchemaError>
        ensures { AddsWith T.converts options FieldType.U64 self.old self.new name.now result }
    {
        self.add(name, FieldType::U64(options.into()))
    }

    /// Adds a field of whole numbers from -2^63 to 2^63 - 1. Its number is the count of the fields before it.
    ///
    /// Errors, the first that holds: `InvalidName` where the name is empty or begins with `-`, `DuplicateName` where a
    /// field has it already, `TooManyFields` where 4294967295 fields are there, `Memory` where a growth was refused.
    /// After each the builder is as it was.
    pub fn add_i64_field<T: Into<NumericOptions>>(
        &mut self,
        name: &str,
        options: T,
    ) -> Result<Field, SchemaError>
        ensures { AddsWith T.converts options FieldType.I64 self.old self.new name.now result }
    {
        self.add(name, FieldType::I64(options.into()))
    }

    /// Adds a field of truth values. Its number is the count of the fields before it.
    ///
    /// Errors, the first that holds: `InvalidName` where the name is empty or begins with `-`, `DuplicateName` where a
    /// field has it already, `TooManyFields` where 4294967295 fields are there, `Memory` where a growth was refused.
    /// After each the builder is as it was.
    pub fn add_bool_field<T: Into<NumericOptions>>(
        &mut self,
        name: &str,
        options: T,
    ) -> Result<Field, SchemaError>
        ensures { AddsWith T.converts options FieldType.Bool self.old self.new name.now result }
    {
        self.add(name, FieldType::Bool(options.into()))
    }

    /// Adds a field of dates. Its number is the count of the fields before it.
    ///
    /// Errors, the first that holds: `InvalidName` where the name is empty or begins with `-`, `DuplicateName` where a
    /// field has it already, `TooManyFields` where 4294967295 fields are there, `Memory` where a growth was refused.
    /// After each the builder is as it was.
    pub fn add_date_field<T: Into<DateOptions>>(
        &mut self,
        name: &str,
        options: T,
    ) -> Result<Field, SchemaError>
        ensures { AddsWith T.converts options FieldType.Date self.old self.new name.now result }
    {
        self.add(name, FieldType::Date(options.into()))
    }

    /// Adds a field of IP addresses. Its number is the count of the fields before it.
    ///
    /// Errors, the first that holds: `InvalidName` where the name is empty or begins with `-`, `DuplicateName` where a
    /// field has it already, `TooManyFields` where 4294967295 fields are there, `Memory` where a growth was refused.
    /// After each the builder is as it was.
    pub fn add_ip_addr_field<T: Into<IpAddrOptions>>(
        &mut self,
        name: &str,
        options: T,
    ) -> Result<Field, SchemaError>
        ensures { AddsWith T.converts options FieldType.IpAddr self.old self.new name.now result }
    {
        self.add(name, FieldType::IpAddr(options.into()))
    }

    /// Adds a field of facets. Its number is the count of the fields before it.
    ///
    /// Errors, the first that holds: `InvalidName` where the name is empty or begins with `-`, `DuplicateName` where a
    /// field has it already, `TooManyFields` where 4294967295 fields are there, `Memory` where a growth was refused.
    /// After each the builder is as it was.
    pub fn add_facet_field<T: Into<FacetOptions>>(
        &mut self,
        name: &str,
        options: T,
    ) -> Result<Field, SchemaError>
        ensures { AddsWith T.converts options FieldType.Facet self.old self.new name.now result }
    {
        self.add(name, FieldType::Facet(options.into()))
    }

    /// Adds a field of bytes. Its number is the count of the fields before it.
    ///
    /// Errors, the first that holds: `InvalidName` where the name is empty or begins with `-`, `DuplicateName` where a
    /// field has it already, `TooManyFields` where 4294967295 fields are there, `Memory` where a growth was refused.
    /// After each the builder is as it was.
    pub fn add_bytes_field<T: Into<BytesOptions>>(
        &mut self,
        name: &str,
        options: T,
    ) -> Result<Field, SchemaError>
        ensures { AddsWith T.converts options FieldType.Bytes self.old self.new name.now result }
    {
        self.add(name, FieldType::Bytes(options.into()))
    }

    /// Adds a field of JSON objects. Its number is the count of the fields before it.
    ///
    /// Errors, the first that holds: `InvalidName` where the name is empty or begins with `-`, `DuplicateName` where a
    /// field has it already, `TooManyFields` where 4294967295 fields are there, `Memory` where a growth was refused.
    /// After each the builder is as it was.
    pub fn add_json_field<T: Into<JsonObjectOptions>>(
        &mut self,
        name: &str,
        options: T,
    ) -> Result<Field, SchemaError>
        ensures { AddsWith T.converts options FieldType.JsonObject self.old self.new name.now result }
    {
        self.add(name, FieldType::JsonObject(options.into()))
    }

    /// Adds an entry, as `add_text_field` adds a field of texts; the entry has a valid name. Where it is refused it is
    /// given up, and the builder is as it was.
    pub fn add_field(&mut self, entry: FieldEntry) -> Result<Field, SchemaError>
        ensures { AddsField self.old self.new entry result }
    {
        check_name(&self.table, entry.name())?;
        let number = self.table.push(entry)?;
        Ok(Field::from_field_id(number))
    }

    fn add(&mut self, name: &str, field_type: FieldType) -> Result<Field, SchemaError>
        ensures { AddsField self.old self.new (record { name = name.now; field_type = field_type })
            result }
    {
        check_name(&self.table, name)?;
        let entry = FieldEntry::new(String::from_str(self.alloc, name)?, field_type)?;
        let number = self.table.push(entry)?;
        Ok(Field::from_field_id(number))
    }

    /// The schema of the fields so far. The only error is that memory is refused, and then the builder is given up.
    pub fn build(self) -> Result<Schema, AllocError>
        ensures { IfOk result (λ schema. schema ≡ self) }
    {
        let SchemaBuilder { table, alloc } = self;
        Ok(Schema {
            table: Rc::new(alloc, table)?,
        })
    }
}

fn check_name(table: &FieldTable, name: &str) -> Result<(), SchemaError>
    ensures refusal { MatchOption (refusal table.now name.now) (IsOk result)
        (λ error. result ≡ Err error) }
    ensures room { OnOk result (length table.now + 1 < 2 ^ 32) }
{
    if !is_valid_field_name(name) {
        Err(SchemaError::InvalidName)
    } else if table.field_named(name).is_some() {
        Err(SchemaError::DuplicateName)
    } else if table.len() == MAX_FIELDS {
        Err(SchemaError::TooManyFields)
    } else {
        Ok(())
    }
}

/// A schema: entries with distinct valid names, where field `i` is entry `i`. Its clones share them.
///
/// ```
/// pub fn printed(alloc: Global, schema: &Schema) -> Result<String> {
///     Ok(schema.to_json_value()?.to_string(alloc)?)
/// }
///
/// pub fn parsed(alloc: Global, text: &str) -> Result<Schema> {
///     let json = serde_json::Value::from_str(alloc, text)?;
///     Ok(Schema::from_json_value(alloc, &json)?)
/// }
/// ```
#[derive(Debug, Drop)]
pub struct Schema {
    pub(crate) table: Rc<FieldTable>,
}

impl Model for Schema {
    ghost use Rattle.std.specs.Prelude.{List};
    ghost use Rattle.tv_field.specs.Entry.{Entry};

    ghost Value = { List Entry };

    ghost view = { λ schema. schema.table.value };
}

/// A clone shares the entries and takes no memory. It is refused only where as many owners share them as can be counted.
impl Clone for Schema {
    ghost is_clone = { λ schema copy. copy ≡ schema };

    fn clone(&self) -> Result<Schema, AllocError> {
        Ok(Schema {
            table: self.table.clone()?,
        })
    }
}

impl PartialEq for Schema {
    ghost use Rattle.std.specs.Cmp.Lexicographic.{pointwise, lists_per};
    ghost use Rattle.tv_field.specs.contracts.field_entry.FieldEntryPartialEq.TheImpl.Laws.{laws-law};

    ghost eq = { λ one other. pointwise ⟦<FieldEntry as PartialEq>⟧.eq one other };

    ghost laws = { lists_per laws-law };

    fn eq(&self, other: &Schema) -> bool {
        self.table.entries() == other.table.entries()
    }
}

impl Eq for Schema {
    ghost use Rattle.std.specs.Cmp.Lexicographic.{lists_equiv};
    ghost use Rattle.tv_field.specs.contracts.field_entry.FieldEntryEq.TheImpl.Laws.{laws-law};

    ghost laws = { lists_equiv laws-law };
}

impl Schema {
    /// A builder without fields. It takes no memory.
    pub fn builder(alloc: Global) -> SchemaBuilder
        ensures { result ≡ [] }
    {
        SchemaBuilder::new(alloc)
    }

    /// How many fields there are, at most 4294967295.
    pub fn num_fields(&self) -> usize
        ensures number { result ≡ length self.now }
        ensures schema { IsSchema self.now }
    {
        self.table.len()
    }

    /// Whether the schema has the field: its number is below `num_fields`.
    pub fn has_field(&self, field: Field) -> bool
        ensures { IsTrue result ↔ (field.id < length self.now) }
    {
        (field.field_id() as usize) < self.num_fields()
    }

    /// The field's entry. The field is one of the schema, as `has_field` tests.
    pub fn get_field_entry(&self, field: Field) -> &FieldEntry
        requires { field.id < length self.now }
        ensures { slice_get self.now field.id ≡ Some result.now }
    {
        self.table.entry(field.field_id() as usize)
    }

    /// The field's name. The field is one of the schema, as `has_field` tests.
    pub fn get_field_name(&self, field: Field) -> &str
        requires { field.id < length self.now }
        ensures { option_map (λ entry. entry.name) (slice_get self.now field.id) ≡ Some result.now }
    {
        self.get_field_entry(field).name()
    }

    /// The field that has the name, which is one of the schema. It takes no memory.
    ///
    /// Errors: `FieldNotFound`, exactly where no field has the name.
    pub fn get_field(&self, name: &str) -> Result<Field, SchemaError>
        ensures found { MatchOption (field_named self.now name.now)
            (result ≡ Err SchemaError.FieldNotFound)
            (λ number. IsOkAnd result (λ field. field.id ≡ number)) }
        ensures within { IfOk result (λ field. field.id < length self.now) }
    {
        match self.table.field_named(name) {
            Some(number) => Ok(Field::from_field_id(number)),
            None => Err(SchemaError::FieldNotFound),
        }
    }

    /// Each field with its entry, once, in the order of their numbers.
    pub fn fields(&self) -> FieldIter<'_>
        ensures { result ≡ enumerate_from 0 self.now }
    {
        FieldIter::over(self.table.entries())
    }

    /// The field that the path names, which is one of the schema, and the rest of the path; or `None` where it names none.
    ///
    /// A path that is a field's name is that field, with an empty rest. Else the path is parted at a dot that no backslash
    /// takes: the last one before which there is a field's name, as it stands or without its escapes, and the name as it
    /// stands comes first. The rest is what follows that dot. A backslash takes the byte after it, whatever that is.
    ///
    /// It takes no memory. It looks the path up, and then what stands before each such dot from the last on, until one
    /// serves: one lookup each. Only what holds a backslash, and is no name as it stands, is compared with each name too.
    ///
    /// ```
    /// pub fn found<'p>(schema: &Schema, path: &'p str) -> Option<(Field, &'p str)> {
    ///     schema.find_field(path)
    /// }
    /// ```
    pub fn find_field<'a>(&self, path: &'a str) -> Option<(Field, &'a str)>
        ensures found { option_map (λ found. (found.0.id, found.1.now)) result
            ≡ find self.now path.now }
        ensures within { IfSome result (λ found. found.0.id < length self.now) }
    {
        let (number, rest) = path::find(&self.table, path)?;
        Some((Field::from_field_id(number), rest))
    }

    /// What `find_field` finds, or else the default, with the whole path as its rest. A rest that isn't empty is for fields of
    /// JSON objects alone: with another field the answer is `None`, and where that field was found the default isn't tried.
    ///
    /// The default, if there is one, is a field of the schema, as `has_field` tests. It takes no memory, and no more time
    /// than `find_field`.
    pub fn find_field_with_default<'a>(
        &self,
        path: &'a str,
        default: Option<Field>,
    ) -> Option<(Field, &'a str)>
        requires { ForSome default (λ field. field.id < length self.now) }
        ensures found { option_map (λ found. (found.0.id, found.1.now)) result
            ≡ find_or self.now path.now (option_map (λ field. field.id) default) }
        ensures within { IfSome result (λ found. found.0.id < length self.now) }
    {
        let (field, rest) = match self.find_field(path) {
            Some(found) => found,
            None => (default?, path),
        };
        if rest.is_empty() || self.get_field_entry(field).field_type().is_json() {
            Some((field, rest))
        } else {
            None
        }
    }
}

/// The fields of a schema that are left, each with its entry, in the order of their numbers.
#[derive(Drop)]
pub struct FieldIter<'a> {
    entries: &'a [FieldEntry],
    number: u32,
}

impl<'a> Model for FieldIter<'a> {
    ghost use Rattle.std.specs.Prelude.{List, ℕ, length, ◌+◌, ◌<◌, ◌^◌};
    ghost use Rattle.std.specs.List.{enumerate_from};
    ghost use Rattle.tv_field.specs.Entry.{Entry};

    ghost Value = { List (ℕ × Entry) };

    ghost view = { λ fields. enumerate_from fields.number fields.entries.now };

    ghost invariant = { λ fields. fields.number + length fields.entries.now < 2 ^ 32 };
}

impl<'a> FieldIter<'a> {
    // These entries, from number 0 on.
    pub(crate) fn over(entries: &'a [FieldEntry]) -> FieldIter<'a>
        requires { length entries.now < 2 ^ 32 }
        ensures { result ≡ enumerate_from 0 entries.now }
    {
        FieldIter { entries, number: 0 }
    }
}

/// Gives each field that is left once, and then `None`.
impl<'a> Iterator for FieldIter<'a> {
    ghost use Rattle.std.specs.Iterator.{YieldsFirstBy, item_count};

    type Item = (Field, &'a FieldEntry);

    ghost next_gives = { YieldsFirstBy (λ item. (item.0.id, item.1.now)) (λ fields. fields) };

    ghost remaining = { item_count (λ fields. fields) };

    fn next(&mut self) -> Option<(Field, &'a FieldEntry)> {
        let (first, others) = self.entries.split_first()?;
        let field = Field::from_field_id(self.number);
        self.entries = others;
        self.number += 1;
        Some((field, first))
    }
}
