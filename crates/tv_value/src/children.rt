//! The children of arrays and objects in one form, for walks that go through both alike.

ghost use Rattle.std.specs.Prelude.{◌≡◌, IfErr, IfOk};
ghost use Rattle.std.specs.Iterator.{YieldsFirstBy, item_count};
ghost use Rattle.tv_format.specs.Tree.{leaf};
ghost use Rattle.tv_value.specs.Children.{IsListOf, child_seen, children_left};
ghost use Rattle.tv_value.specs.Lent.{leaf_of, nested_tree};

use crate::leaf::ReferenceValueLeaf;
use crate::nested::{Nested, NestedValue};

/// The children of a list that are left, in order: each with its key, if the list is an object. (Not in tantivy.)
#[derive(Drop)]
pub enum Children<N: Nested> {
    /// The values of an array.
    Array(N::ArrayIter),
    /// The keys and values of an object.
    Object(N::ObjectIter),
}

impl<N: Nested> Iterator for Children<N> {
    type Item = (Option<N::Key>, N);

    ghost next_gives = { YieldsFirstBy (child_seen N.Key.text N.tree)
        (children_left N.array_rest N.object_rest) };

    ghost remaining = { item_count (children_left N.array_rest N.object_rest) };

    fn size_hint(&self) -> (usize, Option<usize>) {
        (0, None)
    }

    #[inline(always)]
    fn next(&mut self) -> Option<(Option<N::Key>, N)> {
        match self {
            Children::Array(items) => {
                let item = items.next()?;
                Some((None, item))
            }
            Children::Object(members) => {
                let (key, item) = members.next()?;
                Some((Some(key), item))
            }
        }
    }
}

impl<'s, N: Nested> NestedValue<'s, N> {
    /// The children of a list, or else, as the error, the value itself, which is a leaf. (Not in tantivy.)
    #[inline(always)]
    pub fn into_children(self) -> Result<Children<N>, ReferenceValueLeaf<'s>>
        ensures list { IfOk result
            (λ children. IsListOf (children_left N.array_rest N.object_rest children)
            (nested_tree N.array_rest N.object_rest self.entry)) }
        ensures leaf { IfErr result
            (λ single. nested_tree N.array_rest N.object_rest self.entry ≡ leaf (leaf_of single)) }
    {
        match self {
            NestedValue::Leaf(single) => Err(single),
            NestedValue::Array(items) => Ok(Children::Array(items)),
            NestedValue::Object(members) => Ok(Children::Object(members)),
        }
    }
}
