//! Copies of lent values, that own what they hold, and why none is made.

ghost use Rattle.std.specs.Prelude.{◌≡◌, IfOk};
ghost use Rattle.tv_format.specs.Tree.{array, object, elements, entries};
ghost use Rattle.tv_value.specs.Lent.{nested_tree};
ghost use Rattle.tv_value.specs.Owned.{owned_tree};
ghost use Rattle.tv_value.specs.declared.copy.CopyError.TheVariants.{Memory};

use crate::nested::{Nested, NestedValue, lend};
use crate::owned_value::OwnedValue;
use crate::value::Value;
use std::alloc::{AllocError, AllocFailed, Global};
use std::convert::AsStr;
use thiserror::Error;

/// Why no copy of a value is made. (Not in tantivy.)
#[derive(Clone, Copy, Debug, PartialEq, Eq, Error)]
pub enum CopyError {
    /// It nests too deep.
    #[error("the value nests too deep")]
    TooDeep,
    /// Memory was refused.
    #[error("memory was refused")]
    Memory,
}

impl From<AllocError> for CopyError {
    ghost from_gives = { λ _ error. error ≡ Memory };

    fn from(_error: AllocError) -> CopyError {
        CopyError::Memory
    }
}

impl<T: Drop> From<AllocFailed<T>> for CopyError {
    ghost from_gives = { λ _ error. error ≡ Memory };

    fn from(_error: AllocFailed<T>) -> CopyError {
        CopyError::Memory
    }
}

// A copy of a value and of all below it.
#[cycle(copies)]
fn owned_of<N: Nested>(alloc: Global, value: NestedValue<'_, N>) -> Result<OwnedValue, AllocError>
    ensures { IfOk result
        (λ made. owned_tree made ≡ nested_tree N.array_rest N.object_rest value.entry) }
{
    match value {
        NestedValue::Leaf(leaf) => OwnedValue::from_leaf(alloc, leaf),
        NestedValue::Array(items) => owned_array::<N>(alloc, items),
        NestedValue::Object(members) => owned_object::<N>(alloc, members),
    }
}

// A copy of an array.
#[cycle(copies)]
fn owned_array<N: Nested>(alloc: Global, items: N::ArrayIter) -> Result<OwnedValue, AllocError>
    ensures { IfOk result (λ made. owned_tree made ≡ array (elements (N.array_rest items))) }
{
    let mut owned = Vec::new(alloc);
    for item in items {
        owned.push(owned_of(alloc, item.as_nested())?)?;
    }
    Ok(OwnedValue::Array(owned))
}

// A copy of an object.
#[cycle(copies)]
fn owned_object<N: Nested>(alloc: Global, members: N::ObjectIter) -> Result<OwnedValue, AllocError>
    ensures { IfOk result (λ made. owned_tree made ≡ object (entries (N.object_rest members))) }
{
    let mut owned = Vec::new(alloc);
    for (key, item) in members {
        let name = String::from_str(alloc, key.as_str())?;
        owned.push((name, owned_of(alloc, item.as_nested())?))?;
    }
    Ok(OwnedValue::Object(owned))
}

/// A copy of any value, however deep it nests. (Not in tantivy.) It is made by a recursion, and dropped by one, of as many levels as the
/// value has; so it is for values that are known to nest within some depth. The only error is that memory was refused.
pub fn copy_of<'a, V: Value<'a>>(alloc: Global, value: &V) -> Result<OwnedValue, AllocError>
    ensures { IfOk result (λ made. owned_tree made ≡ V.tree value.now) }
{
    owned_of(alloc, lend(value))
}
