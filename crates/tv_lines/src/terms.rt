//! The fields by which the documents of a block are searched.

ghost use Rattle.std.specs.Prelude.{◌≡◌, not};
ghost use Rattle.std.specs.List.{find};
ghost use Rattle.std.specs.Option.{option_map};
ghost use Rattle.tv_lines.specs.Terms.{faulty_name, name_at};
ghost use Rattle.tv_store.specs.Stored.{is_stored_field};

use tv_indexing::TermValuesError;
use tv_schema::Schema;
use tv_value::Field;

/// The name of a field, or nothing where the schema has no such field. (Not in tantivy.)
pub fn name_of<'s>(schema: &'s Schema, field: Field) -> &'s str
    ensures { result.now ≡ name_at schema.now field }
{
    if schema.has_field(field) {
        schema.get_field_name(field)
    } else {
        ""
    }
}

/// The name of the field of which a value has no term, or nothing where the schema has no such field, and for `Memory`. (Not in tantivy.)
pub fn name_of_faulty<'s>(schema: &'s Schema, fault: &TermValuesError) -> &'s str
    ensures { result.now ≡ faulty_name schema.now fault.now }
{
    match fault {
        TermValuesError::UnknownField(field)
        | TermValuesError::WrongType(field)
        | TermValuesError::NulInPath(field)
        | TermValuesError::NoJsonTerm(field) => name_of(schema, *field),
        TermValuesError::Memory => "",
    }
}

// Whether the schema stores a field.
fn is_stored(schema: &Schema, field: Field) -> bool
    ensures { result ≡ is_stored_field schema.now field.id }
{
    schema.has_field(field) && schema.get_field_entry(field).is_stored()
}

/// The first of these fields that the schema doesn't store, so that no document of a block has values of it: a search by it finds nothing. (Not in tantivy.)
pub fn first_unstored<'f>(schema: &Schema, fields: &'f [Field]) -> Option<&'f Field>
    ensures { option_map (λ field. field.now) result
        ≡ find (λ field. not (is_stored_field schema.now field.id)) fields.now }
{
    fields.iter().find(|field| !is_stored(schema, **field))
}
