//! Ranges of terms, as a term dictionary goes over them.

ghost use Rattle.std.specs.Prelude.{◌≡◌, ◌↔◌, ◌≤◌, ◌<◌, ◌+◌, ◌++◌, ◌∷◌, [], ℕ, IsTrue, IfOk, length, option_map, false, slice_index, true};
ghost use Rattle.std.specs.List.Sorted.{IsPartitionPoint};
ghost use Rattle.tv_term.specs.Making.{GivesPathRange, GivesRange, GivesRangeIf, date_value, second_within};
ghost use Rattle.tv_term.specs.Within.{HasJust, IsRising, ends_below, is_below};
ghost use Rattle.tv_term.specs.Range.{EndsPrefix, HasPrefixed, HasTerms, IsIn, HasPayloadPrefix, IsOfField, IsOfType, HasTextPrefix, IsBelowFacet, HasLonger};
ghost use Rattle.tv_term.specs.Range.{AreTermsOf, IsBetween, LeavesBetween, LeavesFrom, LeavesTo};
ghost use Rattle.std.specs.Range.Bound.{bound_map};
ghost use Rattle.std.specs.declared.ops.Bound.TheVariants.{Excluded, Included};
ghost use Rattle.tv_options.specs.declared.types.TypeTag.TheVariants.{Date as DateTag};

use crate::fast_value::FastValue;
use crate::term::{Term, TermError};
use std::alloc::{AllocError, Global};
use std::convert::AsSlice;
use std::fmt;
use std::ops::{Bound, RangeBounds};
use tv_base::{FACET_SEP_BYTE, Facet};
use tv_date::DateTime;
use tv_options::{DATE_TIME_PRECISION_INDEXED, Type};
use tv_value::Field;

/// The byte strings from one on, up to another one, in the order of terms. (Not in tantivy.) A term dictionary looks for the start, and
/// goes on up to the end.
#[derive(PartialEq, Eq)]
pub struct TermRange {
    start: Vec<u8>,
    end: Option<Vec<u8>>,
}

// By hand, so that a range is dropped by one call.
impl Drop for TermRange {
    fn drop(self) {
        let TermRange { start: _, end: _ } = self;
    }
}

/// Prints both ends as byte strings: `TermRange(b"\x00\x00\x00\x01sa"..b"\x00\x00\x00\x01sb")`, and nothing for no end.
impl fmt::Debug for TermRange {
    fn fmt<W: fmt::Write>(&self, f: &mut fmt::Formatter<W>) -> fmt::Result {
        write!(f, "TermRange(b\"{}\"..", self.start.escape_ascii())?;
        if let Some(end) = &self.end {
            write!(f, "b\"{}\"", end.escape_ascii())?;
        }
        f.write_str(")")
    }
}

// Whether the first bytes are below the others.
fn is_below(bytes: &[u8], others: &[u8]) -> bool
    ensures { result ≡ is_below bytes.now others.now }
{
    bytes.cmp(others).is_lt()
}

// How many of the terms, which rise, are below these bytes.
fn count_below<T: AsSlice<u8>>(terms: &[T], bytes: &[u8]) -> usize
    ensures within { result ≤ length terms.now }
    ensures exact { IsRising T.items terms.now
        → IsPartitionPoint (λ term. is_below (T.items term) bytes.now ≡ true)
        (λ term. is_below (T.items term) bytes.now ≡ false) terms.now result }
{
    terms.partition_point(
        |term: &T| -> bool
            ensures { result ≡ is_below (T.items term.now) bytes.entry.now }
        { is_below(term.as_slice(), bytes) },
    )
}

// The same in steps that double from the start on, so that few terms are looked at where few are below these bytes.
fn count_below_by_doubling<T: AsSlice<u8>>(terms: &[T], bytes: &[u8]) -> usize
    ensures within { result ≤ length terms.now }
    ensures exact { IsRising T.items terms.now
        → IsPartitionPoint (λ term. is_below (T.items term) bytes.now ≡ true)
        (λ term. is_below (T.items term) bytes.now ≡ false) terms.now result }
{
    let mut below: usize = 0;
    let mut step: usize = 1;
    while step <= terms.len() - below && is_below(terms[below + (step - 1)].as_slice(), bytes) {
        below += step;
        step = step.saturating_mul(2);
    }
    // The last term of the step isn't below the bytes, or there is none.
    let (_, rest) = terms.split_at(below);
    let (part, _) = rest.split_at((step - 1).min(rest.len()));
    below + count_below(part, bytes)
}

// How many of the bytes are left once those of 255 at the end are taken off.
fn len_without_largest(bytes: &[u8]) -> usize
    ensures within { result ≤ length bytes.now }
    ensures largest { (k : ℕ) → result ≤ k → k < length bytes.now → slice_index bytes.now k ≡ 255 }
    ensures last { 0 < result → (k : ℕ) → k + 1 ≡ result → slice_index bytes.now k < 255 }
{
    let mut len = bytes.len();
    while len > 0 && bytes[len - 1] == u8::MAX {
        len -= 1;
    }
    len
}

/// The least byte string that is above all that begin with these bytes, which doesn't begin with them itself: they without those of 255
/// at the end, and the last one more. (Not in tantivy.) `None` where there is no such string: all byte strings that aren't below these
/// begin with them, as each of these bytes is 255 or there is none. The only error is that memory was refused.
pub fn successor(alloc: Global, prefix: &[u8]) -> Result<Option<Vec<u8>>, AllocError>
    ensures { IfOk result (EndsPrefix prefix.now) }
{
    let (kept, _) = prefix.split_at(len_without_largest(prefix));
    let Some((last, front)) = kept.split_last() else {
        return Ok(None);
    };
    let mut end = Vec::with_capacity(alloc, kept.len())?;
    end.extend_from_slice(front)?;
    end.push(*last + 1)?;
    Ok(Some(end))
}

impl TermRange {
    /// The byte strings that begin with these bytes. The only error is that memory was refused.
    pub fn of_prefix(alloc: Global, prefix: &[u8]) -> Result<TermRange, AllocError>
        ensures { IfOk result (HasPrefixed prefix.now) }
    {
        TermRange::from_prefix(alloc, Vec::from_slice(alloc, prefix)?)
    }

    // The byte strings that begin with these bytes, in whose memory the range starts.
    fn from_prefix(alloc: Global, prefix: Vec<u8>) -> Result<TermRange, AllocError>
        ensures { IfOk result (HasPrefixed prefix.items) }
    {
        let end = successor(alloc, prefix.as_slice())?;
        Ok(TermRange { start: prefix, end })
    }

    // The byte strings that begin with these bytes and are longer.
    fn of_longer(alloc: Global, prefix: &[u8]) -> Result<TermRange, AllocError>
        ensures { IfOk result (HasLonger prefix.now) }
    {
        let end = successor(alloc, prefix)?;
        let mut start = Vec::with_capacity(alloc, prefix.len().saturating_add(1))?;
        start.extend_from_slice(prefix)?;
        start.push(0)?;
        Ok(TermRange { start, end })
    }

    // The byte strings that begin with the bytes of the field, of the type's code and of the payload.
    fn of_payload(
        alloc: Global,
        field: Field,
        value_type: Type,
        payload: &[u8],
    ) -> Result<TermRange, AllocError>
        ensures { IfOk result (HasTerms (HasPayloadPrefix field.id value_type payload.now)) }
    {
        let least = Term::from_payload(alloc, field, value_type, payload)?;
        TermRange::from_prefix(alloc, least.into_bytes())
    }

    // What of the range isn't below these bytes.
    fn starting_at(self, least: Vec<u8>) -> TermRange
        ensures { LeavesFrom self (Included least.items) result }
    {
        if is_below(self.start.as_slice(), least.as_slice()) {
            let TermRange { start: _, end } = self;
            return TermRange { start: least, end };
        }
        self
    }

    // Whether the range ends below these bytes.
    fn ends_below(&self, bytes: &[u8]) -> bool
        ensures { result ≡ ends_below self.now.end bytes.now }
    {
        match &self.end {
            Some(end) => is_below(end.as_slice(), bytes),
            None => false,
        }
    }

    // What of the range is below these bytes.
    fn ending_at(self, end: Vec<u8>) -> TermRange
        ensures { LeavesTo self (Excluded end.items) result }
    {
        if self.ends_below(end.as_slice()) {
            return self;
        }
        let TermRange { start, end: _ } = self;
        TermRange {
            start,
            end: Some(end),
        }
    }

    // What of the range lies from a bound on.
    fn from_bound(self, start: Bound<Term>) -> Result<TermRange, AllocError>
        ensures { IfOk result (LeavesFrom self start) }
    {
        match start {
            Bound::Included(term) => Ok(self.starting_at(term.into_bytes())),
            Bound::Excluded(term) => Ok(self.starting_at(bytes_behind(term)?)),
            Bound::Unbounded => Ok(self),
        }
    }

    // What of the range lies up to a bound.
    fn up_to_bound(self, end: Bound<Term>) -> Result<TermRange, AllocError>
        ensures { IfOk result (LeavesTo self end) }
    {
        match end {
            Bound::Included(term) => Ok(self.ending_at(bytes_behind(term)?)),
            Bound::Excluded(term) => Ok(self.ending_at(term.into_bytes())),
            Bound::Unbounded => Ok(self),
        }
    }

    /// What of the range lies within two bounds, as bytes. Bounds that run backwards leave nothing. The only error is that memory was refused.
    pub fn between(self, start: Bound<Term>, end: Bound<Term>) -> Result<TermRange, AllocError>
        ensures { IfOk result (LeavesBetween self start end) }
    {
        self.from_bound(start)?.up_to_bound(end)
    }

    /// Where the range begins: the byte strings in it are not below this one.
    pub fn start(&self) -> &[u8]
        ensures { result.now ≡ self.now.start.items }
    {
        self.start.as_slice()
    }

    /// Where the range ends: the byte strings in it are below this one. `None` where it has no end.
    pub fn end(&self) -> Option<&[u8]>
        ensures { option_map (λ end. end.now) result ≡ option_map (λ end. end.items) self.now.end }
    {
        match &self.end {
            Some(end) => Some(end.as_slice()),
            None => None,
        }
    }

    /// The terms that are in the range, of terms in rising order, as a term dictionary has them. Equal ones may stand beside one another.
    /// A binary search finds the first of them, and steps from there that double find the last, so that few terms are looked at where the
    /// range has few. Of terms in another order some of them are returned, one after the other.
    ///
    /// ```
    /// pub fn terms_of_field<'t>(alloc: Global, terms: &'t [Term], field: Field) -> Result<&'t [Term]> {
    ///     let range = Term::range_of_field(alloc, field)?;
    ///     Ok(range.within(terms))
    /// }
    /// ```
    pub fn within<'t, T: AsSlice<u8>>(&self, terms: &'t [T]) -> &'t [T]
        ensures { IsRising T.items terms.now
            → HasJust T.items (IsIn self.now) terms.now result.now }
    {
        let (_, from_start) = terms.split_at(count_below(terms, self.start.as_slice()));
        let Some(end) = &self.end else {
            return from_start;
        };
        let (within, _) = from_start.split_at(count_below_by_doubling(from_start, end.as_slice()));
        within
    }

    /// Whether the range has a term of these bytes.
    pub fn contains(&self, serialized: &[u8]) -> bool
        ensures { IsTrue result ↔ IsIn self.now serialized.now }
    {
        if self.start.as_slice().cmp(serialized).is_gt() {
            return false;
        }
        match &self.end {
            Some(end) => serialized.cmp(end.as_slice()).is_lt(),
            None => true,
        }
    }
}

impl Term {
    /// The terms of a field. (Not in tantivy.) The only error is that memory was refused.
    pub fn range_of_field(alloc: Global, field: Field) -> Result<TermRange, AllocError>
        ensures { IfOk result (HasTerms (IsOfField field.id)) }
    {
        TermRange::of_prefix(alloc, &field.field_id().to_be_bytes())
    }

    /// The terms of a field whose values are of a type. (Not in tantivy.) The only error is `Memory`.
    pub fn range_of_type(
        alloc: Global,
        field: Field,
        value_type: Type,
    ) -> Result<TermRange, TermError>
        ensures { GivesRange (IsOfType field.id value_type) result }
    {
        Ok(TermRange::of_payload(alloc, field, value_type, &[])?)
    }

    /// The terms of a field whose values are texts that begin with a text. (Not in tantivy.) The only error is `Memory`.
    pub fn prefix_range(alloc: Global, field: Field, prefix: &str) -> Result<TermRange, TermError>
        ensures { GivesRange (HasTextPrefix field.id prefix.now) result }
    {
        Ok(TermRange::of_payload(alloc, field, Type::Str, prefix.as_bytes())?)
    }

    /// The terms of a field of JSON objects whose values stand at a path, which is read as `from_field_json_path` reads it. (Not in
    /// tantivy.) Errors: `NulInPath`, exactly where the path has U+0000; else `Memory`.
    pub fn json_path_range(
        alloc: Global,
        field: Field,
        json_path: &str,
        expand_dots: bool,
    ) -> Result<TermRange, TermError>
        ensures { GivesPathRange field.id expand_dots json_path.now result }
    {
        let least = Term::from_field_json_path(alloc, field, json_path, expand_dots)?;
        Ok(TermRange::from_prefix(alloc, least.into_bytes())?)
    }

    /// The terms of a field of facets whose facets are below this one: those with its steps and at least one more. (Not in tantivy.)
    /// The only error is `Memory`.
    pub fn descendant_range(
        alloc: Global,
        field: Field,
        facet: &Facet,
    ) -> Result<TermRange, TermError>
        ensures { GivesRange (IsBelowFacet field.id facet.now) result }
    {
        let upper = Term::from_facet(alloc, field, facet)?;
        if facet.is_root() {
            return Ok(TermRange::of_longer(alloc, upper.serialized_term())?);
        }
        let mut least = upper;
        least.append_bytes(&[FACET_SEP_BYTE])?;
        Ok(TermRange::from_prefix(alloc, least.into_bytes())?)
    }

    /// The terms of a field whose values are numbers, truth values or dates within the bounds, as `3..7` or `..=9`. (Not in tantivy.)
    /// Bounds that run backwards give a range without terms. The only error is `Memory`.
    ///
    /// Dates are indexed to the second alone: a range that searches is `range_of_dates_for_search`'s.
    pub fn range_of_values<T: FastValue, B: RangeBounds<T>>(
        alloc: Global,
        field: Field,
        values: &B,
    ) -> Result<TermRange, TermError>
        ensures { GivesRangeIf (B.has_bounds values.now)
            (IsBetween field.id T.type_tag (bound_map T.as_value (B.start_bound values.now))
            (bound_map T.as_value (B.end_bound values.now))) result }
    {
        let start = term_of_bound(alloc, field, values.start_bound())?;
        let end = term_of_bound(alloc, field, values.end_bound())?;
        let all = Term::range_of_type(alloc, field, T::to_type())?;
        Ok(all.between(start, end)?)
    }

    /// The terms of a field whose values are dates, as they are indexed, from the second of one bound to that of the other. (Not in tantivy.) A
    /// term stands for all dates of its second, so the range has the terms of all dates within the bounds, and of those in the same second as
    /// a bound, whether that one is within or not. Bounds that run backwards by a second or more give a range without terms. The only error
    /// is `Memory`.
    pub fn range_of_dates_for_search<B: RangeBounds<DateTime>>(
        alloc: Global,
        field: Field,
        dates: &B,
    ) -> Result<TermRange, TermError>
        ensures { GivesRangeIf (B.has_bounds dates.now)
            (IsBetween field.id DateTag (second_within (B.start_bound dates.now))
            (second_within (B.end_bound dates.now))) result }
    {
        let start = second_of(dates.start_bound());
        let end = second_of(dates.end_bound());
        Term::range_of_values(alloc, field, &(start, end))
    }
}

// The second of a bound, which is within the range itself.
fn second_of(bound: Bound<&DateTime>) -> Bound<DateTime>
    ensures { bound_map date_value result ≡ second_within (bound_map (λ date. date.now) bound.entry) }
{
    match bound {
        Bound::Included(date) | Bound::Excluded(date) => {
            Bound::Included(date.truncate(DATE_TIME_PRECISION_INDEXED))
        }
        Bound::Unbounded => Bound::Unbounded,
    }
}

// The term of the value of a bound.
fn term_of_bound<T: FastValue>(
    alloc: Global,
    field: Field,
    bound: Bound<&T>,
) -> Result<Bound<Term>, AllocError>
    ensures { IfOk result
        (AreTermsOf field.id (bound_map (λ x. T.as_value x.now) bound.entry)) }
{
    match bound {
        Bound::Included(value) => {
            Ok(Bound::Included(Term::from_fast_value(alloc, field, *value)?))
        }
        Bound::Excluded(value) => {
            Ok(Bound::Excluded(Term::from_fast_value(alloc, field, *value)?))
        }
        Bound::Unbounded => Ok(Bound::Unbounded),
    }
}

// The least byte string above a term.
fn bytes_behind(term: Term) -> Result<Vec<u8>, AllocError>
    ensures { IfOk result (λ behind. behind.items ≡ term ++ 0 ∷ []) }
{
    let mut bytes = term.into_bytes();
    bytes.push(0)?;
    Ok(bytes)
}
