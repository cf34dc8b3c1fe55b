//! The fields that the members of the last object named.

ghost use Rattle.std.specs.Prelude.{◌≡◌, ◌<◌, ◌^◌, Some, IfSome, IsTrue, length, option_map};
ghost use Rattle.tv_schema.specs.Schema.{field_named};

use std::alloc::Global;
use tv_schema::Schema;
use tv_value::field::Field;

// For each member of the last object, by its place, the field that a member at this place may name again. It is tested before it is used, so any field
// may stand there.
#[derive(Drop)]
pub(crate) struct RecentFields {
    fields: Vec<Field>,
    // Whether more are remembered.
    are_kept: bool,
}

impl RecentFields {
    // For any number of documents. It takes no memory.
    pub(crate) fn new(alloc: Global) -> RecentFields {
        RecentFields {
            fields: Vec::new(alloc),
            are_kept: true,
        }
    }

    // For one document, so that none is remembered.
    pub(crate) fn none(alloc: Global) -> RecentFields {
        RecentFields {
            fields: Vec::new(alloc),
            are_kept: false,
        }
    }

    // The field of the name, which is the key of the member at a place; `None` where no field has it. The field that is remembered for the place is
    // looked at first.
    #[inline(always)]
    pub(crate) fn field_named(&mut self, schema: &Schema, place: usize, name: &str) -> Option<Field>
        requires { place < 2 ^ 63 }
        ensures named { option_map (λ field. field.id) result ≡ field_named schema.now name.now }
        ensures within { IfSome result (λ field. field.id < length schema.now) }
    {
        if let Some(field) = self.fields.get(place) {
            if is_named(schema, *field, name) {
                return Some(*field);
            }
        }
        let field = schema.get_field(name).ok()?;
        if self.are_kept {
            self.remember(place, field);
        }
        Some(field)
    }

    // Remembers a field for a place, unless memory is refused.
    fn remember(&mut self, place: usize, field: Field)
        requires { place < 2 ^ 63 }
    {
        match self.fields.get_mut(place) {
            Some(known) => *known = field,
            None => drop(self.fields.resize(place + 1, field)),
        }
    }
}

// Whether the schema has the field, and the field has the name.
#[inline(always)]
fn is_named(schema: &Schema, field: Field, name: &str) -> bool
    ensures within { IsTrue result → field.id < length schema.now }
    ensures named { IsTrue result → field_named schema.now name.now ≡ Some field.id }
{
    (field.field_id() as usize) < schema.num_fields()
        && schema.get_field_entry(field).name() == name
}
