//! Whether two values of documents are one, at any depth and without memory.
//!
//! Of two lists all pairs of children but one are compared by recursion, and that one by going on in a loop. It is the pair whose first
//! child has most of the heap. A value stands after its children, and each child after the one before, so the others have half of
//! their list's part of the heap each at most, and the recursion is no deeper than the 32 bits of an address.

ghost use Rattle.std.specs.Prelude.{◌≡◌, ℕ, IfSome};
ghost use Rattle.tv_format.specs.Size.{elements_size, entries_size};
ghost use Rattle.tv_format.specs.Tree.{elements, entries};
ghost use Rattle.tv_heap.specs.Same.{pair_eq, left_eq, compared_eq, IsLeft, SortsPairs, Smaller};
ghost use Rattle.tv_heap.specs.Value.{tree_of};
ghost use Rattle.tv_value.specs.Same.{tree_eq, elements_eq, entries_eq};

use crate::value::{CompactDocArrayIter, CompactDocObjectIter, CompactDocValue};
use tv_value::same::same_leaf;
use tv_value::value::{ReferenceValue, Value};

// Two values that are to be compared, and where the part of the heap that the first has may begin.
#[derive(Clone, Copy)]
struct Pair<'a, 'b> {
    one: CompactDocValue<'a>,
    other: CompactDocValue<'b>,
    begin: u32,
}

impl Pair<'_, '_> {
    // How much of its heap the first has, its own bytes apart.
    fn weight(&self) -> u32 {
        self.one.address().saturating_sub(self.begin)
    }
}

// What is known of two lists.
#[derive(Clone, Copy)]
enum Compared<'a, 'b> {
    // They differ.
    Differ,
    // They are one.
    Same,
    // They are one exactly where this pair is.
    Like(Pair<'a, 'b>),
}

// The heavier of two pairs, and the other one, if there are two.
fn by_weight<'a, 'b>(
    before: Option<Pair<'a, 'b>>,
    next: Pair<'a, 'b>,
) -> (Pair<'a, 'b>, Option<Pair<'a, 'b>>)
    ensures { SortsPairs before.entry next.entry result }
{
    if let Some(pair) = before {
        if next.weight() < pair.weight() {
            return (pair, Some(next));
        }
    }
    (next, before)
}

// What is known of two lists of which only this pair isn't compared.
fn left_over<'a, 'b>(pair: Option<Pair<'a, 'b>>) -> Compared<'a, 'b>
    ensures equal { compared_eq result ≡ left_eq pair.entry }
    ensures smaller { (n : ℕ) → IfSome pair.entry (Smaller n) → IsLeft (Smaller n) result }
{
    match pair {
        Some(pair) => Compared::Like(pair),
        None => Compared::Same,
    }
}

// Whether two values are one.
#[cycle(same)]
fn same_pair(pair: Pair<'_, '_>) -> bool
    ensures { result ≡ pair_eq pair.entry }
{
    let mut left = pair;
    loop {
        let compared = match (left.one.as_value(), left.other.as_value()) {
            (ReferenceValue::Array(items), ReferenceValue::Array(others)) => {
                same_items(items, others, left.begin)
            }
            (ReferenceValue::Object(members), ReferenceValue::Object(others)) => {
                same_members(members, others, left.begin)
            }
            (ReferenceValue::Leaf(one), ReferenceValue::Leaf(other)) => {
                return same_leaf(one, other);
            }
            _ => return false,
        };
        match compared {
            Compared::Differ => return false,
            Compared::Same => return true,
            Compared::Like(pair) => left = pair,
        }
    }
}

// What is known of two arrays once all pairs of values but the heaviest are compared.
#[cycle(same)]
fn same_items<'a, 'b>(
    items: CompactDocArrayIter<'a>,
    others: CompactDocArrayIter<'b>,
    begin: u32,
) -> Compared<'a, 'b>
    ensures equal { compared_eq result
        ≡ elements_eq (elements items.entry.held.0) (elements others.entry.held.0) }
    ensures smaller { IsLeft (Smaller (elements_size (elements items.entry.held.0))) result }
{
    let mut others = others;
    let mut begin = begin;
    let mut heaviest = None;
    for one in items {
        let Some(other) = others.next() else {
            return Compared::Differ;
        };
        let (heavier, lighter) = by_weight(heaviest, Pair { one, other, begin });
        if let Some(pair) = lighter {
            if !same_pair(pair) {
                return Compared::Differ;
            }
        }
        heaviest = Some(heavier);
        begin = begin.max(one.address());
    }
    if others.next().is_some() {
        return Compared::Differ;
    }
    left_over(heaviest)
}

// What is known of two objects once all keys, and all pairs of values but the heaviest are compared.
#[cycle(same)]
fn same_members<'a, 'b>(
    members: CompactDocObjectIter<'a>,
    others: CompactDocObjectIter<'b>,
    begin: u32,
) -> Compared<'a, 'b>
    ensures equal { compared_eq result
        ≡ entries_eq (entries members.entry.held.0) (entries others.entry.held.0) }
    ensures smaller { IsLeft (Smaller (entries_size (entries members.entry.held.0))) result }
{
    let mut others = others;
    let mut begin = begin;
    let mut heaviest = None;
    for (key, one) in members {
        let Some((other_key, other)) = others.next() else {
            return Compared::Differ;
        };
        if key != other_key {
            return Compared::Differ;
        }
        let (heavier, lighter) = by_weight(heaviest, Pair { one, other, begin });
        if let Some(pair) = lighter {
            if !same_pair(pair) {
                return Compared::Differ;
            }
        }
        heaviest = Some(heavier);
        begin = begin.max(one.address());
    }
    if others.next().is_some() {
        return Compared::Differ;
    }
    left_over(heaviest)
}

// Whether two values are one: of one kind, with the same content, children in the same order and keys among them.
pub(crate) fn same_value(one: CompactDocValue<'_>, other: CompactDocValue<'_>) -> bool
    ensures { result ≡ tree_eq (tree_of one.entry) (tree_of other.entry) }
{
    same_pair(Pair {
        one,
        other,
        begin: 0,
    })
}
