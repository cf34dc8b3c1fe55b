//! Pairs of a field and a value, brought together by field.

ghost use Rattle.std.specs.Prelude.{◌≡◌, ℕ, map, OnOk, IfOk};
ghost use Rattle.std.specs.List.Sorted.{IsNonDecreasingBy};
ghost use Rattle.tv_doc.specs.Grouped.{IsGrouped, with_number, numbered_all};
ghost use Rattle.tv_doc.specs.FieldValues.{values_of};

use std::alloc::{AllocError, Global};
use tv_value::field::Field;

// Sorts pairs by their fields. The values of a field stay in order. The only error is that memory was refused.
pub(crate) fn sort_pairs<V: Drop>(pairs: &mut Vec<(Field, V)>) -> Result<(), AllocError>
    ensures ascending { OnOk result (IsNonDecreasingBy (λ pair. pair.0.id) pairs.new.items) }
    ensures values { (field : ℕ)
        → values_of field (map with_number pairs.new.items)
        ≡ values_of field (map with_number pairs.old.items) }
{
    pairs.sort_by_key(|pair| pair.0.field_id())?;
    Ok(())
}

// Brings pairs together that are sorted by their fields.
fn group_sorted<V: Drop>(
    alloc: Global,
    pairs: Vec<(Field, V)>,
) -> Result<Vec<(Field, Vec<V>)>, AllocError>
    requires { IsNonDecreasingBy (λ pair. pair.0.id) pairs.items }
    ensures { IfOk result
        (λ groups. IsGrouped (map with_number pairs.items) (map numbered_all groups.items)) }
{
    let mut groups = Vec::new(alloc);
    let mut sorted = pairs.into_iter();
    let Some((first, value)) = sorted.next() else {
        return Ok(groups);
    };
    let mut field = first;
    let mut values = vec![in alloc; value]?;
    for (next, value) in sorted {
        if next == field {
            values.push(value)?;
        } else {
            groups.push((field, values))?;
            field = next;
            values = vec![in alloc; value]?;
        }
    }
    groups.push((field, values))?;
    Ok(groups)
}

/// The fields that have a value, rising, each once and with its values in order. The only error is that memory was refused.
pub fn grouped<V: Drop>(
    alloc: Global,
    mut pairs: Vec<(Field, V)>,
) -> Result<Vec<(Field, Vec<V>)>, AllocError>
    ensures { IfOk result
        (λ groups. IsGrouped (map with_number pairs.items) (map numbered_all groups.items)) }
{
    sort_pairs(&mut pairs)?;
    group_sorted(alloc, pairs)
}
