//! Documents of values by name.

ghost use Rattle.std.specs.Prelude.{map};
ghost use Rattle.tv_value.specs.Owned.{owned_tree};
ghost use Rattle.tv_schema.specs.Schema.{field_named};
ghost use Rattle.tv_doc.specs.Named.{named_of};
ghost use Rattle.tv_doc.specs.NamedPairs.{AddsNamedPairs, ConvertsNamed, pairs_of_field};

use crate::document::CompactDoc;
use crate::errors::DocParsingError;
use crate::named::NamedFieldDocument;
use std::alloc::Global;
use tv_builder::errors::AddError;
use tv_schema::Schema;
use tv_schema::laws::names_are_of_one_field;
use tv_value::field::Field;
use tv_value::owned_value::OwnedValue;

// Adds values to a field.
fn add_values(
    document: &mut CompactDoc,
    field: Field,
    values: &[OwnedValue],
) -> Result<(), AddError>
    ensures { AddsNamedPairs (map (λ t. (field.id, t)) (map owned_tree values.now)) document.old
        document.new result }
{
    for value in values {
        document.add_field_value(field, &value)?;
    }
    Ok(())
}

// Adds values to the field of this name, if there is one.
fn add_named(
    document: &mut CompactDoc,
    schema: &Schema,
    name: &str,
    values: &Vec<OwnedValue>,
) -> Result<(), AddError>
    ensures { AddsNamedPairs
        (pairs_of_field (field_named schema.now name.now) (map owned_tree values.now.items))
        document.old document.new result }
{
    match schema.get_field(name) {
        Ok(field) => add_values(document, field, values.as_slice()),
        Err(_) => Ok(()),
    }
}

impl CompactDoc {
    /// The document of values by name: for each name that is a field's, in byte order, its values in order. Other names are skipped.
    /// They are added one after the other. Errors, for the first value that is refused, are those of `add_field_value`: `Add(AddError::HeapFull)`
    /// where the length of the heap so far and the value's room are together above 4294967295; `Memory` where memory was refused.
    pub fn convert_named_doc(
        alloc: Global,
        schema: &Schema,
        named: &NamedFieldDocument,
    ) -> Result<CompactDoc, DocParsingError>
        ensures { ConvertsNamed schema.now (named_of named.now) result }
    {
        names_are_of_one_field();
        let mut document = CompactDoc::new(alloc);
        for (name, values) in named.0.iter() {
            match add_named(&mut document, schema, name.as_str(), values) {
                Ok(()) => {}
                Err(refused) => return Err(DocParsingError::from(refused)),
            }
        }
        Ok(document)
    }
}
