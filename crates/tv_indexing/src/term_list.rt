//! Terms in one buffer.

ghost use Rattle.std.specs.Prelude.{◌≡◌, ◌+◌, ◌≤◌, ◌++◌, ◌∷◌, ◌↔◌, ℕ, List, [], drop, length, take, bytes_eq, slice_get, IfOk, IsTrue, None, Ok, OnErr, OnOk};
ghost use Rattle.std.specs.Cmp.Lexicographic.{slice_cmp};
ghost use Rattle.std.specs.List.{Contains, dedup};
ghost use Rattle.std.specs.List.Sorted.{IsPermutation, IsSorted, IsSortedByKey, IsStrictlySortedBy};
ghost use Rattle.std.specs.Option.{option_copied};
ghost use Rattle.std.specs.Ordering.{nat_cmp};
ghost use Rattle.tv_indexing.specs.TermPlaces.{bytes_at, end_of, place};
ghost use Rattle.tv_term.specs.Making.{OnlyMemory};

use crate::document::TermVisitor;
use std::alloc::{AllocError, Global};
use std::cmp::Ordering;
use std::fmt;
use std::marker::Model;
use tv_term::{Term, TermError};

// Where a term stands in the buffer.
#[derive(Clone, Copy)]
struct TermPlace {
    start: usize,
    end: usize,
}

// The first terms, which may stand in any order: how many they are, and within how many bytes they stand.
#[derive(Clone, Copy)]
struct MovedTerms {
    len: usize,
    bytes: usize,
}

/// Terms in one buffer, each as its bytes. (Not in tantivy.)
///
/// A term that is added takes memory only where the buffer is full. `clear` keeps the buffer, so a list that serves for many documents
/// grows to what the largest of them needs, and takes no more. `sort_dedup` makes a list of each term once and in order, as a term dictionary has them.
/// Each term is there whole: a key above many values of a document stands in the list once for each. `visit_terms` takes no such memory.
pub struct TermList {
    bytes: Vec<u8>,
    places: Vec<TermPlace>,
    // The others stand one after the other.
    moved: MovedTerms,
}

// By hand, so that a list is dropped by one call.
impl Drop for TermList {
    fn drop(self) {
        let TermList {
            bytes: _,
            places: _,
            moved: _,
        } = self;
    }
}

impl Model for TermList {
    ghost use Rattle.std.specs.Prelude.{List, ℕ};
    ghost use Rattle.tv_indexing.specs.TermPlaces.{pieces, ArePlacesHeld};

    // The bytes of each term.
    ghost Value = { List (List ℕ) };

    ghost view = { λ terms. pieces terms.bytes.items terms.places.items };

    ghost invariant = { λ terms. ArePlacesHeld terms.bytes.items terms.places.items terms.moved };
}

impl TermList {
    /// A list without terms. It takes no memory.
    pub fn new(alloc: Global) -> TermList
        ensures { result ≡ [] }
    {
        TermList {
            bytes: Vec::new(alloc),
            places: Vec::new(alloc),
            moved: MovedTerms { len: 0, bytes: 0 },
        }
    }

    /// Takes all terms off the list. Its memory stays.
    pub fn clear(&mut self)
        ensures { self.new ≡ [] }
    {
        self.bytes.clear();
        self.places.clear();
        self.moved = MovedTerms { len: 0, bytes: 0 };
    }

    /// How many terms there are.
    pub fn len(&self) -> usize
        ensures { result ≡ length self.now }
    {
        self.places.len()
    }

    /// Whether there is no term.
    pub fn is_empty(&self) -> bool
        ensures { IsTrue result ↔ (self.now ≡ []) }
    {
        self.places.is_empty()
    }

    /// The bytes of the term at this place, counted from 0, or `None` where there are no more than this many terms.
    pub fn get(&self, index: usize) -> Option<&[u8]>
        ensures { option_copied result ≡ slice_get self.now index }
    {
        let place = self.places.get(index)?;
        Some(term_at(self.bytes.as_slice(), *place))
    }

    /// The term at this place, counted from 0, in memory of its own, or `None` where there are no more than this many terms.
    ///
    /// Errors: `Memory`. Where there are no more than this many terms, no memory is asked for.
    pub fn term(&self, index: usize) -> Result<Option<Term>, TermError>
        ensures found { IfOk result (λ found. found ≡ slice_get self.now index) }
        ensures missing { length self.now ≤ index → result ≡ Ok None }
        ensures memory { OnlyMemory result }
    {
        match self.places.get(index) {
            Some(place) => {
                let bytes = term_at(self.bytes.as_slice(), *place);
                Ok(Some(Term::wrap(*self.bytes.allocator(), bytes)?))
            }
            None => Ok(None),
        }
    }

    /// The bytes of each term, in order.
    pub fn iter(&self) -> TermIter<'_>
        ensures { result ≡ self.now }
    {
        TermIter {
            bytes: self.bytes.as_slice(),
            places: self.places.as_slice(),
        }
    }

    /// Puts the terms in rising order of their bytes, which is the order of terms. It takes no memory.
    pub fn sort(&mut self)
        ensures permutation { IsPermutation self.old self.new }
        ensures sorted { IsSorted (slice_cmp nat_cmp) self.new }
    {
        sort_places(self.bytes.as_slice(), &mut self.places);
        self.moved = MovedTerms {
            len: self.places.len(),
            bytes: self.bytes.len(),
        };
    }

    /// Of equal terms that stand one after the other, keeps the first. It takes no memory, and the bytes of the others stay in the buffer
    /// until `clear`.
    pub fn dedup(&mut self)
        ensures { self.new ≡ dedup bytes_eq self.old }
    {
        dedup_places(self.bytes.as_slice(), &mut self.places);
        self.moved = MovedTerms {
            len: self.places.len(),
            bytes: self.bytes.len(),
        };
    }

    /// Puts the terms in rising order of their bytes, and keeps each once: `sort` and then `dedup`.
    pub fn sort_dedup(&mut self)
        ensures rising { IsStrictlySortedBy (slice_cmp nat_cmp) self.new }
        ensures same_terms { (term : List ℕ) → Contains self.new term ↔ Contains self.old term }
    {
        self.sort();
        self.dedup();
    }

    // Takes the terms from this place on off the list. The bytes of those that were appended since the last `sort` or `dedup` go too.
    pub(crate) fn truncate(&mut self, len: usize)
        requires { len ≤ length self.old }
        ensures { self.new ≡ take len self.old }
    {
        self.places.truncate(len);
        self.moved.len = self.moved.len.min(len);
        let end = end_of(self.moved, self.places.as_slice());
        self.bytes.truncate(end);
    }
}

impl TermVisitor for TermList {
    ghost use Rattle.std.specs.Prelude.{◌≡◌, ◌++◌};

    ghost has_taken = { λ start list terms. list ≡ start ++ terms };

    /// Appends a term, which has at least five bytes. Errors: memory was refused, and then the list is as it was.
    #[inline(always)]
    fn visit(&mut self, term: &[u8]) -> Result<(), AllocError>
        requires { 5 ≤ length term.now }
        ensures made { OnOk result (self.new ≡ self.old ++ term.now ∷ []) }
        ensures unchanged { OnErr result (self.new ≡ self.old) }
    {
        let start = self.bytes.len();
        match append(&mut self.bytes, &mut self.places, term) {
            Ok(()) => Ok(()),
            Err(error) => {
                self.bytes.truncate(start);
                Err(error)
            }
        }
    }
}

/// The bytes of each term, as a list.
impl fmt::Debug for TermList {
    fn fmt<W: fmt::Write>(&self, f: &mut fmt::Formatter<W>) -> fmt::Result {
        f.debug_list().entries(self.iter()).finish()
    }
}

// The bytes at a place, or those of them that there are.
fn term_at(bytes: &[u8], place: TermPlace) -> &[u8]
    ensures { result.now ≡ bytes_at bytes.now place }
{
    let end = place.end.min(bytes.len());
    let start = place.start.min(end);
    &bytes[start..end]
}

// Where the last term ends, and where there is none after the moved ones, where they do.
fn end_of(moved: MovedTerms, places: &[TermPlace]) -> usize
    ensures { result ≡ end_of moved.bytes (drop moved.len places.now) }
{
    match places.last() {
        Some(last) if moved.len < places.len() => last.end,
        _ => moved.bytes,
    }
}

// How the terms at two places compare.
fn compared(bytes: &[u8], first: TermPlace, second: TermPlace) -> Ordering
    ensures { result ≡ slice_cmp nat_cmp (bytes_at bytes.now first) (bytes_at bytes.now second) }
{
    term_at(bytes, first).cmp(term_at(bytes, second))
}

// Whether the terms at two places are equal.
fn are_equal(bytes: &[u8], first: TermPlace, second: TermPlace) -> bool
    ensures { result ≡ bytes_eq (bytes_at bytes.now first) (bytes_at bytes.now second) }
{
    term_at(bytes, first) == term_at(bytes, second)
}

// Puts the places in the order of their terms.
fn sort_places(bytes: &[u8], places: &mut Vec<TermPlace>)
    ensures permutation { IsPermutation places.old.items places.new.items }
    ensures sorted { IsSortedByKey (bytes_at bytes.now) (slice_cmp nat_cmp) places.new.items }
{
    places.sort_unstable_by(|first, second| compared(bytes, *first, *second));
}

// Of the places of equal terms that stand one after the other, keeps the first.
fn dedup_places(bytes: &[u8], places: &mut Vec<TermPlace>)
    ensures { places.new.items
        ≡ dedup (λ x y. bytes_eq (bytes_at bytes.now x) (bytes_at bytes.now y)) places.old.items }
{
    places.dedup_by(|later, kept| are_equal(bytes, *later, *kept));
}

// Appends the bytes of a term, and the place where they stand. Errors: memory was refused, and then the bytes may be appended, and no place.
#[inline(always)]
fn append(bytes: &mut Vec<u8>, places: &mut Vec<TermPlace>, term: &[u8]) -> Result<(), AllocError>
    ensures bytes { OnOk result (bytes.new.items ≡ bytes.old.items ++ term.now) }
    ensures place { OnOk result (places.new.items
        ≡ places.old.items ++ place (length bytes.old.items) (length bytes.new.items) ∷ []) }
    ensures before { take (length bytes.old.items) bytes.new.items ≡ bytes.old.items }
    ensures places { OnErr result (places.new.items ≡ places.old.items) }
{
    let start = bytes.len();
    bytes.extend_from_slice(term)?;
    let end = bytes.len();
    places.push(TermPlace { start, end })?;
    Ok(())
}

/// The terms of a list that are left, in order.
#[derive(Drop)]
pub struct TermIter<'a> {
    bytes: &'a [u8],
    places: &'a [TermPlace],
}

impl<'a> Model for TermIter<'a> {
    ghost use Rattle.std.specs.Prelude.{List, ℕ};
    ghost use Rattle.tv_indexing.specs.TermPlaces.{pieces};

    // The bytes of each term.
    ghost Value = { List (List ℕ) };

    ghost view = { λ terms. pieces terms.bytes.now terms.places.now };
}

/// Gives the bytes of each term that is left once, and then `None`.
impl<'a> Iterator for TermIter<'a> {
    ghost use Rattle.std.specs.Iterator.{YieldsFirstBy, item_count};

    type Item = &'a [u8];

    ghost next_gives = { YieldsFirstBy (λ item. item.now) (λ terms. terms) };

    ghost remaining = { item_count (λ terms. terms) };

    fn next(&mut self) -> Option<&'a [u8]> {
        let (first, others) = self.places.split_first()?;
        self.places = others;
        Some(term_at(self.bytes, *first))
    }
}
