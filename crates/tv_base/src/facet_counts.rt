//! How many facets, or documents with them, lie at or below each child of a facet; these counts as they are printed.

ghost use Rattle.std.specs.Prelude.{◌≡◌, ◌≢◌, ◌<◌, ◌≤◌, ◌+◌, ◌^◌, ◌↔◌, ℕ, length, map, slice_index, option_map, IfOk, IfSome, IsTrue, MatchOption};
ghost use Rattle.tv_base.specs.FacetCounting.{AreRising, CountsChildren, entry_of};
ghost use Rattle.tv_base.specs.ChildPlaces.{front, entries, HasNoChild, IsChildAbove, CountsOne};
ghost use Rattle.tv_base.specs.declared.facet_counts.FacetCountsError.TheVariants.{Memory};
ghost use Rattle.tv_base.specs.Greatest.{AreGreatest};
ghost use Rattle.tv_base.specs.Printed.{child_debug_printed, child_printed, count_debug_printed, count_printed};
ghost use Rattle.tv_base.specs.DocumentCounting.{AreDocumentCounts, facet_of};
ghost use Rattle.tv_base.specs.DocumentPairs.{ArePairs, HasEachOnce, pair_of};

use crate::facet::{FACET_SEP_BYTE, Facet};
use std::alloc::{AllocError, Global};
use std::cmp::Reverse;
use std::{fmt, str};
use thiserror::Error;

/// A child of a facet with its count: how many of the facets that were counted are this child or lie below it, or how many documents have
/// such a facet.
#[derive(Clone, Copy, PartialEq, Eq)]
pub struct FacetCount<'a> {
    /// The child's encoded text, as it begins a facet that was counted.
    pub child: &'a [u8],
    /// How many facets or documents there are: at least one.
    pub count: u64,
}

/// Why facets weren't counted.
#[derive(Clone, Copy, Debug, PartialEq, Eq, Error)]
pub enum FacetCountsError {
    /// A facet is before the one that stands before it in the list.
    #[error("the facets aren't in rising order")]
    NotRising,
    /// Memory was refused.
    #[error("memory was refused")]
    Memory,
}

impl From<AllocError> for FacetCountsError {
    ghost from_gives = { λ _ error. error ≡ Memory };

    fn from(_: AllocError) -> FacetCountsError {
        FacetCountsError::Memory
    }
}

/// Counts for each child of the ancestor how many of the facets are the child or lie below it: the facets are compared each with the one
/// before it, and then counted in one pass. They are given by their encoded texts in rising order, as a term dictionary lists them, and
/// one may come more than once. What is returned are the children that have such a facet, each once and in rising order. A facet that is
/// the ancestor itself, or doesn't lie below it, counts for no child; and under the root neither does one whose first step is empty, since
/// no facet has that step alone. (Not in tantivy: it counts facets in a collector over an index.)
///
/// Errors: `NotRising`, exactly where a facet is before the one that stands before it in the list, and before memory is asked for; else
/// `Memory`.
///
/// ```
/// pub fn most_facets<'a>(
///     alloc: Global,
///     ancestor: &Facet,
///     facets: &[&'a [u8]],
/// ) -> Result<Option<FacetCount<'a>>> {
///     let counts = count_child_facets(alloc, ancestor.encoded_str().as_bytes(), facets)?;
///     Ok(counts.iter().copied().max_by_key(|entry| entry.count))
/// }
/// ```
pub fn count_child_facets<'a>(
    alloc: Global,
    ancestor: &[u8],
    facets: &[&'a [u8]],
) -> Result<Vec<FacetCount<'a>>, FacetCountsError>
    ensures { CountsChildren ancestor.now facets.now result }
{
    if !are_rising(facets) {
        return Err(FacetCountsError::NotRising);
    }
    let mut counts = Vec::new(alloc);
    let mut current = None;
    for facet in facets {
        if let Some(child) = child_towards(ancestor, facet) {
            current = Some(counted(&mut counts, current, child)?);
        }
    }
    Ok(finished(counts, current)?)
}

// The children that are done, and after them the current one.
pub(crate) fn finished<'a>(
    counts: Vec<FacetCount<'a>>,
    current: Option<FacetCount<'a>>,
) -> Result<Vec<FacetCount<'a>>, AllocError>
    ensures { IfOk result
        (λ all. map entry_of all.items ≡ entries counts.entry.items current.entry) }
{
    let mut counts = counts;
    if let Some(last) = current {
        counts.push(last)?;
    }
    Ok(counts)
}

// Whether no facet is before the one that stands before it.
fn are_rising(facets: &[&[u8]]) -> bool
    ensures { IsTrue result ↔ AreRising facets.now }
{
    for place in 1..facets.len() {
        if facets[place].cmp(facets[place - 1]).is_lt() {
            return false;
        }
    }
    true
}

// The child that was counted last, with one facet more: the current one, or another one, and then the current one is done.
pub(crate) fn counted<'a>(
    counts: &mut Vec<FacetCount<'a>>,
    current: Option<FacetCount<'a>>,
    child: &'a [u8],
) -> Result<FacetCount<'a>, AllocError>
    requires { IfSome current (λ entry. entry.count + 1 < 2 ^ 64) }
    ensures { IfOk result (λ last.
        CountsOne (map entry_of counts.old.items) (option_map entry_of current.entry) child.now
        (map entry_of counts.new.items) (entry_of last)) }
{
    match current {
        Some(last) if last.child == child => Ok(FacetCount {
            child,
            count: last.count + 1,
        }),
        Some(last) => {
            counts.push(last)?;
            Ok(FacetCount { child, count: 1 })
        }
        None => Ok(FacetCount { child, count: 1 }),
    }
}

// The child of the ancestor that is the facet or above it.
pub(crate) fn child_towards<'a>(ancestor: &[u8], facet: &'a [u8]) -> Option<&'a [u8]>
    ensures { MatchOption result (HasNoChild ancestor.now facet.now)
        (λ child. IsChildAbove ancestor.now facet.now child.now) }
{
    if !Facet::encoded_is_prefix_of(ancestor, facet) {
        return None;
    }
    let start = step_start(ancestor);
    let (_, rest) = facet.split_at(start);
    let end = start + step_len(rest);
    if end == 0 {
        return None;
    }
    let (child, _) = facet.split_at(end);
    Some(child)
}

// Where the last step of a child begins.
fn step_start(ancestor: &[u8]) -> usize
    ensures { result ≡ length (front ancestor.now) }
{
    if ancestor.is_empty() {
        0
    } else {
        ancestor.len() + 1
    }
}

// How long the first step is.
fn step_len(text: &[u8]) -> usize
    ensures within { result ≤ length text.now }
    ensures step { (k : ℕ) → k < result → slice_index text.now k ≢ 0 }
    ensures ended { result < length text.now → slice_index text.now result ≡ 0 }
{
    for (place, byte) in text.iter().enumerate() {
        if *byte == FACET_SEP_BYTE {
            return place;
        }
    }
    text.len()
}

/// The entries with the greatest counts, as many as `most` at most: by falling count, and those of equal counts by their rising child.
/// (Not in tantivy: its collector has `top_k`.) The only error is that memory was refused.
pub fn greatest_counts<'a>(
    alloc: Global,
    counts: &[FacetCount<'a>],
    most: usize,
) -> Result<Vec<FacetCount<'a>>, AllocError>
    ensures { IfOk result (λ greatest.
        AreGreatest (map entry_of counts.now) most (map entry_of greatest.items)) }
{
    let mut greatest = Vec::from_slice(alloc, counts)?;
    greatest.sort_unstable_by_key(|entry| (Reverse(entry.count), entry.child));
    greatest.truncate(most);
    Ok(greatest)
}

// The child of a count, which is printed as a facet, or as bytes where it is no text.
#[derive(Clone, Copy)]
struct Child<'a> {
    encoded: &'a [u8],
}

impl fmt::Display for Child<'_> {
    ghost output = { λ child. child_printed child.encoded.now };

    fn fmt<W: fmt::Write>(&self, f: &mut fmt::Formatter<W>) -> fmt::Result {
        match str::from_utf8(self.encoded) {
            Ok(encoded) => Facet::format_encoded(encoded, f),
            Err(_) => write!(f, "{:?}", self.encoded),
        }
    }
}

impl fmt::Debug for Child<'_> {
    ghost debug_output = { λ child. child_debug_printed child.encoded.now };

    fn fmt<W: fmt::Write>(&self, f: &mut fmt::Formatter<W>) -> fmt::Result {
        match str::from_utf8(self.encoded) {
            Ok(_) => write!(f, "Facet({self})"),
            Err(_) => write!(f, "{:?}", self.encoded),
        }
    }
}

/// Prints the text that names the child, as `Display` of the facet does, and the count: `/shop/shoes: 2`. A child that isn't UTF-8 is
/// printed as the list of its bytes. (Not in tantivy.)
impl fmt::Display for FacetCount<'_> {
    ghost output = { λ counted. count_printed (entry_of counted) };

    fn fmt<W: fmt::Write>(&self, f: &mut fmt::Formatter<W>) -> fmt::Result {
        let child = Child {
            encoded: self.child,
        };
        write!(f, "{child}: {}", self.count)
    }
}

/// Prints the child as `Debug` of the facet does, and the count: `FacetCount { child: Facet(/shop/shoes), count: 2 }`. A child that isn't
/// UTF-8 is printed as the list of its bytes. (Not in tantivy.)
impl fmt::Debug for FacetCount<'_> {
    ghost debug_output = { λ counted. count_debug_printed (entry_of counted) };

    fn fmt<W: fmt::Write>(&self, f: &mut fmt::Formatter<W>) -> fmt::Result {
        let child = Child {
            encoded: self.child,
        };
        write!(
            f,
            "FacetCount {{ child: {child:?}, count: {} }}",
            self.count
        )
    }
}

/// A facet of a document.
#[derive(Clone, Copy, Debug, PartialEq, Eq)]
pub struct DocumentFacet<'a> {
    /// The facet's encoded text.
    pub facet: &'a [u8],
    /// The number of the document that has it.
    pub document: u64,
}

/// Counts for each child of the ancestor how many documents have a facet that is the child or lies below it: a document that has several
/// of these counts once. The facets are given by their encoded texts, in any order, and one may come more than once. What is returned
/// are the children for which there is such a document, each once and in rising order, and the counts are those of documents. A facet
/// that is the ancestor itself, or doesn't lie below it, counts for no child; and under the root neither does one whose first step is
/// empty. (Not in tantivy: its collector counts the documents of an index.)
///
/// The only error is that memory was refused.
///
/// ```
/// pub fn most_documents(
///     alloc: Global,
///     ancestor: &Facet,
///     facets: &[DocumentFacet<'_>],
/// ) -> Result<String> {
///     let counts = count_child_documents(alloc, ancestor.encoded_str().as_bytes(), facets)?;
///     let mut lines = String::new(alloc);
///     for entry in &greatest_counts(alloc, &counts, 3)? {
///         writeln!(lines, "{entry}")?;
///     }
///     Ok(lines)
/// }
/// ```
pub fn count_child_documents<'a>(
    alloc: Global,
    ancestor: &[u8],
    facets: &[DocumentFacet<'a>],
) -> Result<Vec<FacetCount<'a>>, AllocError>
    ensures { IfOk result (λ counts.
        AreDocumentCounts ancestor.now (map facet_of facets.now) (map entry_of counts.items)) }
{
    let mut pairs = child_documents(alloc, ancestor, facets)?;
    keep_each_once(&mut pairs);
    let mut counts = Vec::new(alloc);
    let mut current = None;
    for (child, _) in &pairs {
        current = Some(counted(&mut counts, current, child)?);
    }
    finished(counts, current)
}

// The children that the facets are or lie below, each with the document that has the facet.
fn child_documents<'a>(
    alloc: Global,
    ancestor: &[u8],
    facets: &[DocumentFacet<'a>],
) -> Result<Vec<(&'a [u8], u64)>, AllocError>
    ensures { IfOk result (λ pairs.
        ArePairs ancestor.now (map facet_of facets.now) (map pair_of pairs.items)) }
{
    let mut pairs = Vec::new(alloc);
    for one in facets {
        if let Some(child) = child_towards(ancestor, one.facet) {
            pairs.push((child, one.document))?;
        }
    }
    Ok(pairs)
}

// The pairs, each once and rising.
fn keep_each_once(pairs: &mut Vec<(&[u8], u64)>)
    ensures { HasEachOnce (map pair_of pairs.old.items) (map pair_of pairs.new.items) }
{
    pairs.sort_unstable();
    pairs.dedup();
}
