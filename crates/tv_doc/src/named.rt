//! Documents by the names of their fields.

ghost use Rattle.std.specs.Prelude.{◌≡◌, ℕ, List, [], IfOk, map, option_map, slice_get};
ghost use Rattle.tv_value.specs.Owned.{owned_tree};
ghost use Rattle.tv_doc.specs.Grouped.{group_seen};
ghost use Rattle.tv_doc.specs.Named.{by_name as named_by, field_names, named_of};

use std::alloc::{AllocError, Global};
use std::collections::BTreeMap;
use tv_schema::Schema;
use tv_value::copy::copy_of;
use tv_value::field::Field;
use tv_value::owned_value::OwnedValue;
use tv_value::value::Value;

/// What has names of fields, as a schema. (Not in tantivy.)
pub trait FieldNames {
    ghost names: { Self → List (List ℕ) };

    /// The field's name; `None` where there is no such field.
    fn name_of(&self, field: Field) -> Option<&str>
        ensures { option_map (λ name. name.now) result ≡ slice_get (names self.now) field.id };
}

impl FieldNames for Schema {
    ghost names = { field_names };

    fn name_of(&self, field: Field) -> Option<&str> {
        if self.has_field(field) {
            Some(self.get_field_name(field))
        } else {
            None
        }
    }
}

/// Values under the names of their fields, by byte order of the names.
#[derive(Debug, Drop)]
pub struct NamedFieldDocument(pub BTreeMap<String, Vec<OwnedValue>>);

// Copies of the values.
fn owned_values<'a, V: Value<'a>>(
    alloc: Global,
    values: Vec<V>,
) -> Result<Vec<OwnedValue>, AllocError>
    ensures { IfOk result (λ owned. map owned_tree owned.items ≡ map V.tree values.items) }
{
    let mut owned = Vec::new(alloc);
    for value in values {
        let copy = copy_of(alloc, &value)?;
        owned.push(copy)?;
    }
    Ok(owned)
}

// Copies of values by the names of their fields. Those of a field without a name are left out. The only error is that memory was
// refused.
pub(crate) fn owned_by_name<'a, S: FieldNames, V: Value<'a>>(
    alloc: Global,
    schema: &S,
    groups: Vec<(Field, Vec<V>)>,
) -> Result<NamedFieldDocument, AllocError>
    ensures { IfOk result
        (λ named. named_of named
        ≡ named_by (S.names schema.now) (map (group_seen V.tree) groups.items) []) }
{
    let mut named = BTreeMap::new(alloc);
    for (field, values) in groups {
        match schema.name_of(field) {
            Some(name) => {
                let key = String::from_str(alloc, name)?;
                let owned = owned_values(alloc, values)?;
                drop(named.insert(key, owned)?);
            }
            None => {}
        }
    }
    Ok(NamedFieldDocument(named))
}
