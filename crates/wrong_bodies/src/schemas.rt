//! Schemas, and the fields that paths name.

ghost use Rattle.std.specs.Prelude.{◌≡◌};
ghost use Rattle.std.specs.Option.{option_map};
ghost use Rattle.tantivy_schema.specs.CodeTypes.FieldType.TheVariants.{Str};
ghost use Rattle.tantivy_schema.specs.Path.{find};
ghost use Rattle.tantivy_schema.specs.Schema.{AddsField};

use tantivy_schema::schema::{Field, Schema, SchemaBuilder, SchemaError, TextOptions};

/// A path names the field of the whole path, or else the field before the last unescaped dot that names a field.
pub fn paths_name_fields<'a>(schema: &Schema, path: &'a str) -> Option<(Field, &'a str)>
    ensures { option_map (λ found. (found.0.id, found.1.now)) result ≡ find schema.now path.now }
{
    match path.split_once('.') {
        Some(_) => schema.find_field(path),
        None => schema.find_field(path),
    }
}

/// A field is added after those that are there. A refusal has its true reason, and the builder is then unchanged.
pub fn fields_are_added_last(
    builder: &mut SchemaBuilder,
    name: &str,
    options: TextOptions,
) -> Result<Field, SchemaError>
    ensures { AddsField builder.old builder.new
        (record { name = name.now; field_type = Str options }) result }
{
    match builder.add_text_field(name, options) {
        Ok(field) => Ok(field),
        Err(error) => Err(error),
    }
}
