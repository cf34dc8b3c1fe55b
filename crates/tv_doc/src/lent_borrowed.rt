//! JSON values that borrow their texts, lent as values of a document.

ghost use Rattle.std.specs.Prelude.{◌≡◌, map};
ghost use Rattle.std.specs.Iterator.{YieldsFirstBy, item_count};
ghost use Rattle.std.specs.Slice.Iter.{iter_rest};
ghost use Rattle.serde_json.specs.Data.{unsigned};
ghost use Rattle.tv_json.specs.BorrowedData.{data_of};
ghost use Rattle.tv_value.specs.JsonTree.{number_leaf as number_leaf_of, whole_tree};
ghost use Rattle.tv_value.specs.Lent.{leaf_of};

use std::slice;
use tv_json::value::BorrowedJson;
use tv_value::leaf::ReferenceValueLeaf;
use tv_value::value::{ReferenceValue, Value};

/// A JSON value that borrows its texts, lent as a value of a document: a float, which is no value there, as null. (Not in tantivy.)
#[derive(Clone, Copy)]
pub struct LentBorrowed<'a, 't> {
    json: &'a BorrowedJson<'t>,
}

impl<'a, 't> LentBorrowed<'a, 't> {
    /// The JSON value, lent.
    pub fn new(json: &'a BorrowedJson<'t>) -> LentBorrowed<'a, 't>
        ensures { result.json.now ≡ json.now }
    {
        LentBorrowed { json }
    }
}

/// The values of an array that are left, in order. (Not in tantivy.)
#[derive(Drop)]
pub struct LentBorrowedArray<'a, 't> {
    items: slice::Iter<'a, BorrowedJson<'t>>,
}

impl<'a, 't> Iterator for LentBorrowedArray<'a, 't> {
    type Item = LentBorrowed<'a, 't>;

    ghost next_gives = { YieldsFirstBy (λ x. whole_tree (data_of x.json.now))
        (λ s. map (λ j. whole_tree (data_of j)) (iter_rest s.items)) };

    ghost remaining = { item_count (λ s. iter_rest s.items) };

    #[inline]
    fn next(&mut self) -> Option<LentBorrowed<'a, 't>> {
        let json = self.items.next()?;
        Some(LentBorrowed { json })
    }
}

/// The keys and values of an object that are left, in byte order of the keys. (Not in tantivy.)
#[derive(Drop)]
pub struct LentBorrowedObject<'a, 't> {
    members: slice::Iter<'a, (&'t str, BorrowedJson<'t>)>,
}

impl<'a, 't> Iterator for LentBorrowedObject<'a, 't> {
    ghost use Rattle.tv_value.specs.Lent.{entry_of};

    type Item = (&'a str, LentBorrowed<'a, 't>);

    ghost next_gives = { YieldsFirstBy (entry_of (λ x. whole_tree (data_of x.json.now)))
        (λ s. map (λ m. (m.0.now, whole_tree (data_of m.1))) (iter_rest s.members)) };

    ghost remaining = { item_count (λ s. iter_rest s.members) };

    #[inline]
    fn next(&mut self) -> Option<(&'a str, LentBorrowed<'a, 't>)> {
        let (key, json) = self.members.next()?;
        Some((*key, LentBorrowed { json }))
    }
}

// The leaf of a number from 0 on: a signed one where it fits 64 bits, else an unsigned one.
#[inline(always)]
fn number_leaf(number: u64) -> ReferenceValueLeaf<'static>
    ensures { leaf_of result ≡ number_leaf_of (unsigned number) }
{
    match i64::try_from(number) {
        Ok(signed) => ReferenceValueLeaf::I64(signed),
        Err(_) => ReferenceValueLeaf::U64(number),
    }
}

impl<'a, 't> Value<'a> for LentBorrowed<'a, 't> {
    type ArrayIter = LentBorrowedArray<'a, 't>;

    type ObjectIter = LentBorrowedObject<'a, 't>;

    ghost tree = { λ x. whole_tree (data_of x.json.now) };

    ghost array_rest = { λ s. map (λ j. whole_tree (data_of j)) (iter_rest s.items) };

    ghost object_rest = { λ s. map (λ m. (m.0.now, whole_tree (data_of m.1))) (iter_rest s.members) };

    ghost array_walks = { λ s. (tt, tt) };

    ghost object_walks = { λ s. (tt, tt) };

    ghost array_steps = { λ s t r steps. steps };

    ghost object_steps = { λ s t r steps. steps };

    #[inline(always)]
    fn as_value(&self) -> ReferenceValue<'a, LentBorrowed<'a, 't>> {
        match self.json {
            BorrowedJson::Null => ReferenceValue::Leaf(ReferenceValueLeaf::Null),
            BorrowedJson::Bool(truth) => ReferenceValue::Leaf(ReferenceValueLeaf::Bool(*truth)),
            BorrowedJson::Unsigned(number) => ReferenceValue::Leaf(number_leaf(*number)),
            BorrowedJson::Negative(number) => ReferenceValue::Leaf(ReferenceValueLeaf::I64(
                *number,
            )),
            BorrowedJson::Float(_) => ReferenceValue::Leaf(ReferenceValueLeaf::Null),
            BorrowedJson::String(text) => ReferenceValue::Leaf(ReferenceValueLeaf::Str(text)),
            BorrowedJson::Array(items) => ReferenceValue::Array(LentBorrowedArray {
                items: items.iter(),
            }),
            BorrowedJson::Object(members) => ReferenceValue::Object(LentBorrowedObject {
                members: members.iter(),
            }),
        }
    }
}
