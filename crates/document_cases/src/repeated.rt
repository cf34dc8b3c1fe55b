//! A value whose bytes are borrowed many times, and which takes no memory; and what adding it leaves.

ghost use Rattle.std.specs.Prelude.{[], cond, replicate};
ghost use Rattle.std.specs.Iterator.{YieldsFirstBy, at_most, item_count};
ghost use Rattle.tv_value.specs.Lent.{entry_of};
ghost use Rattle.tv_format.specs.Tree.{leaf, bytes, array, elements};

use crate::documents;
use anyhow::Result;
use case_words as words;
use std::alloc::Global;
use std::fmt::Write;
use tv_doc::document::CompactDoc;
use tv_value::field::Field;
use tv_value::leaf::ReferenceValueLeaf;
use tv_value::value::{ReferenceValue, Value};

/// Bytes, or an array in which they are borrowed this many times.
#[derive(Clone, Copy)]
pub struct Repeated<'a> {
    content: &'a [u8],
    is_array: bool,
    times: usize,
}

/// The values that are left.
#[derive(Clone, Copy)]
pub struct RepeatedIter<'a> {
    content: &'a [u8],
    left: usize,
}

impl<'a> Iterator for RepeatedIter<'a> {
    type Item = Repeated<'a>;

    ghost next_gives = { YieldsFirstBy
        (λ v. cond v.is_array (array (elements (replicate v.times (leaf (bytes v.content.now)))))
        (leaf (bytes v.content.now)))
        (λ s. replicate s.left (leaf (bytes s.content.now))) };

    ghost remaining = { item_count (λ s. replicate s.left (leaf (bytes s.content.now))) };

    fn next(&mut self) -> Option<Repeated<'a>> {
        let left = self.left.checked_sub(1)?;
        self.left = left;
        Some(Repeated {
            content: self.content,
            is_array: false,
            times: 0,
        })
    }
}

/// No entries.
#[derive(Clone, Copy)]
pub struct NoEntries<'a> {
    content: &'a [u8],
}

impl<'a> Iterator for NoEntries<'a> {
    type Item = (&'a str, Repeated<'a>);

    ghost next_gives = { YieldsFirstBy
        (entry_of
        (λ v. cond v.is_array
        (array (elements (replicate v.times (leaf (bytes v.content.now)))))
        (leaf (bytes v.content.now))))
        (λ s. []) };

    ghost remaining = { λ s. at_most 0 };

    fn next(&mut self) -> Option<(&'a str, Repeated<'a>)> {
        None
    }
}

impl<'a> Value<'a> for Repeated<'a> {
    type ArrayIter = RepeatedIter<'a>;

    type ObjectIter = NoEntries<'a>;

    ghost tree = { λ v. cond v.is_array
        (array (elements (replicate v.times (leaf (bytes v.content.now)))))
        (leaf (bytes v.content.now)) };

    ghost array_rest = { λ s. replicate s.left (leaf (bytes s.content.now)) };

    ghost object_rest = { λ s. [] };

    ghost array_walks = { λ s. (tt, tt) };

    ghost object_walks = { λ s. (tt, tt) };

    ghost array_steps = { λ s t r steps. steps };

    ghost object_steps = { λ s t r steps. steps };

    fn as_value(&self) -> ReferenceValue<'a, Repeated<'a>> {
        if self.is_array {
            ReferenceValue::Array(RepeatedIter {
                content: self.content,
                left: self.times,
            })
        } else {
            ReferenceValue::Leaf(ReferenceValueLeaf::Bytes(self.content))
        }
    }
}

/// The length of a document's heap, and its pairs, after a number and an array are added, in which zeros of a length are borrowed a number of
/// times.
pub fn added(alloc: Global, call: &[&str]) -> Result<String> {
    let (times, length) = words::two(call)?;
    let zeros = vec![in alloc; 0; words::number(length)?]?;
    let value = Repeated {
        content: zeros.as_slice(),
        is_array: true,
        times: words::number(times)?,
    };
    let field = Field::from_field_id(0);
    let mut document = CompactDoc::new(alloc);
    document.add_u64(field, 1)?;
    let mut answer = String::new(alloc);
    if let Err(error) = document.add_field_value(field, &value) {
        write!(answer, "error {error:?} ")?;
    }
    let length = document.node_data().len();
    write!(answer, "{length}")?;
    documents::with_pairs(answer, &document)
}
