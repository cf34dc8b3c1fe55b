//! Laws of schemas, their paths and their JSON, and over calls on the types of fields.

ghost use Rattle.std.specs.Prelude.{◌≡◌, ◌↔◌, ◌<◌, ◌+◌, ℕ, List, [], length, take, drop, None, Some, IsTrue, IsSomeAnd, slice_get, Ok, IfOk, IfErr};
ghost use Rattle.tv_field.specs.Entry.{Entry, record_option};
ghost use Rattle.tv_schema.specs.Path.{is_splitting_dot, field_of_prefix, find};
ghost use Rattle.tv_schema.specs.Schema.{IsSchema, field_named};
ghost use Rattle.tv_field.specs.declared.field_type.FieldType.{FieldType};
ghost use Rattle.tv_schema.specs.SchemaJson.{schema_json};
ghost use Rattle.tv_schema.specs.SchemaJsonReading.{schema_of};
ghost use Rattle.tv_field.specs.declared.field_entry.SchemaError.TheVariants.{Memory};

use crate::schema::Schema;
use std::alloc::Global;
use tv_field::{FieldEntry, FieldType, SchemaError};
use tv_options::laws::{
    comparisons_of_facet_options_agree, comparisons_of_flag_options_agree,
    comparisons_of_textual_options_agree,
};
use tv_options::{
    Coercion, DateTimePrecision, DotExpansion, IndexRecordOption, OfBytes, OfIpAddrs,
};

/// `index_record_option` and `get_index_record_option` return the same: what an index keeps of each term.
pub fn record_options_agree(
    field_type: &FieldType,
) -> (Option<IndexRecordOption>, Option<IndexRecordOption>)
    ensures one { result.0 ≡ record_option field_type.now }
    ensures other { result.1 ≡ record_option field_type.now }
{
    (
        field_type.index_record_option(),
        field_type.get_index_record_option(),
    )
}

/// Types, entries and schemas that `==` calls equal are the same, and it calls the same ones equal.
pub fn comparisons_of_schemas_agree()
    ensures types { (one other : FieldType)
        → IsTrue (⟦<FieldType as PartialEq>⟧.eq one other) ↔ (one ≡ other) }
    ensures entries { (one other : Entry)
        → IsTrue (⟦<FieldEntry as PartialEq>⟧.eq one other) ↔ (one ≡ other) }
    ensures schemas { (one other : List Entry)
        → IsTrue (⟦<Schema as PartialEq>⟧.eq one other) ↔ (one ≡ other) }
{
    comparisons_of_flag_options_agree::<Coercion>();
    comparisons_of_flag_options_agree::<DateTimePrecision>();
    comparisons_of_flag_options_agree::<OfBytes>();
    comparisons_of_flag_options_agree::<OfIpAddrs>();
    comparisons_of_textual_options_agree::<Coercion>();
    comparisons_of_textual_options_agree::<DotExpansion>();
    comparisons_of_facet_options_agree();
}

/// Each field is found by its name, and what is found by a name is a field that has it.
pub fn names_are_of_one_field()
    ensures found { (schema : List Entry) (number : ℕ) (entry : Entry) → IsSchema schema
        → slice_get schema number ≡ Some entry → field_named schema entry.name ≡ Some number }
    ensures named { (schema : List Entry) (name : List ℕ) (number : ℕ)
        → field_named schema name ≡ Some number
        → IsSomeAnd (slice_get schema number) (λ entry. entry.name ≡ name) }
{}

/// A path that is a name is that field's, with an empty rest.
pub fn whole_paths_come_first()
    ensures { (schema : List Entry) (path : List ℕ) (field : ℕ)
        → field_named schema path ≡ Some field → find schema path ≡ Some (field, []) }
{}

/// Else the last unescaped dot counts whose prefix names a field, and where there is none no field is found.
pub fn the_last_dot_counts()
    ensures found { (schema : List Entry) (path : List ℕ) (place field : ℕ)
        → field_named schema path ≡ None → place < length path
        → IsTrue (is_splitting_dot path place)
        → field_of_prefix schema (take place path) ≡ Some field
        → ((later : ℕ) → place < later → later < length path → IsTrue (is_splitting_dot path later)
        → field_of_prefix schema (take later path) ≡ None)
        → find schema path ≡ Some (field, drop (place + 1) path) }
    ensures none { (schema : List Entry) (path : List ℕ) → field_named schema path ≡ None
        → ((place : ℕ) → place < length path → IsTrue (is_splitting_dot path place)
        → field_of_prefix schema (take place path) ≡ None)
        → find schema path ≡ None }
{}

/// What is written of a schema is read as that schema.
pub fn written_schemas_are_read_back()
    ensures { (schema : List Entry) → IsSchema schema → schema_of (schema_json schema) ≡ Ok schema }
{}

/// Schemas with the same JSON are the same.
pub fn written_schemas_tell_all()
    ensures { (one other : List Entry) → IsSchema one → IsSchema other
        → schema_json one ≡ schema_json other → one ≡ other }
{}

/// What a schema prints is read as that schema, and nothing but memory is refused on the way.
pub fn printed_schema_is_read_back(alloc: Global, schema: &Schema) -> Result<Schema, SchemaError>
    ensures ok { IfOk result (λ again. again ≡ schema.now) }
    ensures err { IfErr result (λ error. error ≡ Memory) }
{
    let _fields = schema.num_fields();
    let description = schema.to_json_value()?;
    Schema::from_json_value(alloc, &description)
}
