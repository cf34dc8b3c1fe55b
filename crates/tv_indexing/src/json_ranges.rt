//! Ranges of terms between texts of queries, also at paths into JSON objects.

ghost use Rattle.std.specs.Prelude.{◌≡◌, ◌≢◌, ◌++◌, List, [], false, Err, Some, IfErr, IfOk, OnOk, option_map};
ghost use Rattle.std.specs.Range.Bound.{bound_map};
ghost use Rattle.std.specs.declared.ops.Bound.{Bound};
ghost use Rattle.std.specs.declared.ops.Bound.TheVariants.{Included};
ghost use Rattle.tv_base.specs.JsonPath.{joined_path};
ghost use Rattle.tv_date.specs.Rfc3339.{rfc};
ghost use Rattle.tv_field.specs.JsonTable.{truth_in};
ghost use Rattle.tv_indexing.specs.DocumentTerms.{has_zero};
ghost use Rattle.tv_indexing.specs.JsonBounds.{RunBackwards};
ghost use Rattle.tv_indexing.specs.JsonRanges.{AnswersBetween, AnswersRanges, AreBoundValues, AreOfKind, AreRangesOf, AreTermsAt, EndsIn, IsBetweenAt};
ghost use Rattle.tv_indexing.specs.JsonRanges.{IsTypedAt, OneRange, RangesBelow, RangesInField, RangesOfText, StartsIn, WritesEnd, placed_bound, ranges_in};
ghost use Rattle.tv_indexing.specs.JsonRanges.{signed_end, signed_start, type_of_kind, unsigned_end, unsigned_start};
ghost use Rattle.tv_indexing.specs.LeafTerms.{leaf_value};
ghost use Rattle.tv_indexing.specs.TakesMemory.{TakesMemory, TakesMemoryIn};
ghost use Rattle.tv_indexing.specs.Tells.{UnlessFirst};
ghost use Rattle.tv_indexing.specs.TextRange.{bound_text, bounding};
ghost use Rattle.tv_indexing.specs.TextTerms.{date_written_in, listed};
ghost use Rattle.tv_indexing.specs.Unless.{Unless};
ghost use Rattle.tv_indexing.specs.declared.text_terms_error.TextTermsError.TheVariants.{Memory};
ghost use Rattle.tv_term.specs.Key.{IsJsonTerm, IsTerm, Json, TermValue};
ghost use Rattle.tv_term.specs.Range.{HasTerms};
ghost use Rattle.tv_term.specs.declared.range.TermRange.{TermRange};
ghost use Rattle.tv_value.specs.Lent.{leaf_of};

use crate::indexed_field::IndexedField;
use crate::json::JsonField;
use crate::json_bounds::run_backwards;
use crate::leaf::payload_of;
use crate::text_range::{bounds_of_text, plain_range};
use crate::text_terms::{date_written, number_written, truth_written};
use crate::text_terms_error::{TextTermsError, wrong_range};
use std::alloc::Global;
use std::ops::Bound;
use tv_field::FieldType;
use tv_options::Type;
use tv_schema::Schema;
use tv_term::{Term, TermRange};
use tv_value::{Field, ReferenceValueLeaf};

/// What a value in JSON objects is, by the type of its term, in the order of the terms. The contract of `ranges_of_text` speaks of these.
#[derive(Clone, Copy)]
pub enum JsonKind {
    /// A date.
    Date,
    /// A number below 2^63.
    Signed,
    /// A truth value.
    Truth,
    /// A text.
    Text,
    /// A number from 2^63 on.
    Unsigned,
}

impl JsonKind {
    fn to_type(self) -> Type
        ensures { result ≡ type_of_kind self }
    {
        match self {
            JsonKind::Date => Type::Date,
            JsonKind::Signed => Type::I64,
            JsonKind::Truth => Type::Bool,
            JsonKind::Text => Type::Str,
            JsonKind::Unsigned => Type::U64,
        }
    }
}

// A bound that is within the range itself, or not.
fn placed_bound(is_within: bool, leaf: ReferenceValueLeaf<'_>) -> Bound<ReferenceValueLeaf<'_>>
    ensures { bound_map leaf_of result ≡ placed_bound is_within (leaf_of leaf.entry) }
{
    if is_within {
        Bound::Included(leaf)
    } else {
        Bound::Excluded(leaf)
    }
}

// What a text writes of a kind, as the start of a range.
fn started(kind: JsonKind, is_within: bool, text: &str) -> Option<Bound<ReferenceValueLeaf<'_>>>
    ensures { WritesEnd signed_start unsigned_start kind is_within text.now
        (option_map (bound_map leaf_of) result) }
{
    match kind {
        JsonKind::Date => date_end(text),
        JsonKind::Signed => match number_written(text) {
            Some(ReferenceValueLeaf::I64(number)) => {
                Some(placed_bound(is_within, ReferenceValueLeaf::I64(number)))
            }
            _ => None,
        },
        JsonKind::Truth => truth_end(is_within, text),
        JsonKind::Text => Some(placed_bound(is_within, ReferenceValueLeaf::Str(text))),
        JsonKind::Unsigned => match number_written(text) {
            Some(ReferenceValueLeaf::U64(number)) => {
                Some(placed_bound(is_within, ReferenceValueLeaf::U64(number)))
            }
            Some(ReferenceValueLeaf::I64(_)) => Some(Bound::Unbounded),
            _ => None,
        },
    }
}

// What a text writes of a kind, as the end of a range.
fn ended(kind: JsonKind, is_within: bool, text: &str) -> Option<Bound<ReferenceValueLeaf<'_>>>
    ensures { WritesEnd signed_end unsigned_end kind is_within text.now
        (option_map (bound_map leaf_of) result) }
{
    match kind {
        JsonKind::Date => date_end(text),
        JsonKind::Signed => match number_written(text) {
            Some(ReferenceValueLeaf::I64(number)) => {
                Some(placed_bound(is_within, ReferenceValueLeaf::I64(number)))
            }
            Some(ReferenceValueLeaf::U64(_)) => Some(Bound::Unbounded),
            _ => None,
        },
        JsonKind::Truth => truth_end(is_within, text),
        JsonKind::Text => Some(placed_bound(is_within, ReferenceValueLeaf::Str(text))),
        JsonKind::Unsigned => match number_written(text) {
            Some(ReferenceValueLeaf::U64(number)) => {
                Some(placed_bound(is_within, ReferenceValueLeaf::U64(number)))
            }
            _ => None,
        },
    }
}

// The bound of a date that a text writes: its second is within the range.
fn date_end(text: &str) -> Option<Bound<ReferenceValueLeaf<'static>>>
    ensures { option_map (bound_map leaf_of) result
        ≡ option_map Included (date_written_in (rfc text.now)) }
{
    match date_written(text) {
        Some(date) => Some(Bound::Included(date)),
        None => None,
    }
}

// The bound of a truth value that a text writes.
fn truth_end(is_within: bool, text: &str) -> Option<Bound<ReferenceValueLeaf<'static>>>
    ensures { option_map (bound_map leaf_of) result
        ≡ option_map (placed_bound is_within) (truth_in text.now) }
{
    match truth_written(text) {
        Some(truth) => Some(placed_bound(is_within, truth)),
        None => None,
    }
}

// The start of a range of a kind.
fn start_in<'t>(kind: JsonKind, start: Bound<&'t str>) -> Option<Bound<ReferenceValueLeaf<'t>>>
    ensures { StartsIn kind (bound_text start.entry)
        (option_map (bound_map leaf_of) result) }
{
    match start {
        Bound::Included(text) => started(kind, true, text),
        Bound::Excluded(text) => started(kind, false, text),
        Bound::Unbounded => Some(Bound::Unbounded),
    }
}

// The end of a range of a kind.
fn end_in<'t>(kind: JsonKind, end: Bound<&'t str>) -> Option<Bound<ReferenceValueLeaf<'t>>>
    ensures { EndsIn kind (bound_text end.entry)
        (option_map (bound_map leaf_of) result) }
{
    match end {
        Bound::Included(text) => ended(kind, true, text),
        Bound::Excluded(text) => ended(kind, false, text),
        Bound::Unbounded => Some(Bound::Unbounded),
    }
}

// The term of a path, which has no U+0000, before a value is appended.
fn term_of_path(alloc: Global, at: JsonField, path: &str) -> Result<Term, TextTermsError>
    ensures made { IfOk result
        (λ term. IsJsonTerm term at.field.id (joined_path at.expand_dots path.now)) }
    ensures memory { IfErr result (λ e. e ≡ Memory) }
{
    match Term::from_field_json_path(alloc, at.field, path, at.expand_dots) {
        Ok(term) => Ok(term),
        Err(_) => Err(TextTermsError::Memory),
    }
}

// The term of a value at a path, which has no U+0000. A value of the kinds above has one.
fn term_at(
    alloc: Global,
    at: JsonField,
    path: &str,
    leaf: ReferenceValueLeaf<'_>,
) -> Result<Term, TextTermsError>
    ensures made { IfOk result (λ term. (value : TermValue)
        × (leaf_value (leaf_of leaf.entry) ≡ Some value)
        × IsTerm term at.field.id (Json (joined_path at.expand_dots path.now) value)) }
    ensures memory { IfErr result (λ e. e ≡ Memory) }
{
    let Some((value_type, payload)) = payload_of(leaf) else {
        return Err(TextTermsError::Memory);
    };
    let mut term = term_of_path(alloc, at, path)?;
    term.append_type_and_bytes(value_type, payload.as_slice())?;
    Ok(term)
}

// The terms of a bound at a path.
fn terms_of_bound(
    alloc: Global,
    at: JsonField,
    path: &str,
    bound: Bound<ReferenceValueLeaf<'_>>,
) -> Result<Bound<Term>, TextTermsError>
    ensures made { IfOk result (λ term. (value : Bound TermValue)
        × AreBoundValues (bound_map leaf_of bound.entry) value
        × AreTermsAt at.field.id (joined_path at.expand_dots path.now) value term) }
    ensures memory { IfErr result (λ e. e ≡ Memory) }
{
    match bound {
        Bound::Included(leaf) => Ok(Bound::Included(term_at(alloc, at, path, leaf)?)),
        Bound::Excluded(leaf) => Ok(Bound::Excluded(term_at(alloc, at, path, leaf)?)),
        Bound::Unbounded => Ok(Bound::Unbounded),
    }
}

// The terms at a path whose values are of a type.
fn all_of_type(
    alloc: Global,
    at: JsonField,
    path: &str,
    value_type: Type,
) -> Result<TermRange, TextTermsError>
    ensures made { IfOk result
        (HasTerms (IsTypedAt at.field.id (joined_path at.expand_dots path.now) value_type)) }
    ensures memory { IfErr result (λ e. e ≡ Memory) }
{
    let mut least = term_of_path(alloc, at, path)?;
    least.append_type_and_bytes(value_type, &[])?;
    Ok(TermRange::of_prefix(alloc, least.serialized_term())?)
}

// The terms at a path of a kind between two bounds.
fn range_of_kind(
    alloc: Global,
    at: JsonField,
    path: &str,
    kind: JsonKind,
    first: Bound<ReferenceValueLeaf<'_>>,
    last: Bound<ReferenceValueLeaf<'_>>,
) -> Result<TermRange, TextTermsError>
    ensures made { IfOk result (λ range. (lo : Bound TermValue) × (hi : Bound TermValue)
        × AreBoundValues (bound_map leaf_of first.entry) lo
        × AreBoundValues (bound_map leaf_of last.entry) hi
        × HasTerms (IsBetweenAt at.field.id (joined_path at.expand_dots path.now)
        (type_of_kind kind) lo hi) range) }
    ensures memory { IfErr result (λ e. e ≡ Memory) }
{
    let start = terms_of_bound(alloc, at, path, first)?;
    let end = terms_of_bound(alloc, at, path, last)?;
    let all = all_of_type(alloc, at, path, kind.to_type())?;
    Ok(all.between(start, end)?)
}

// The same where both bounds are of the kind.
fn range_in(
    alloc: Global,
    at: JsonField,
    path: &str,
    kind: JsonKind,
    first: Option<Bound<ReferenceValueLeaf<'_>>>,
    last: Option<Bound<ReferenceValueLeaf<'_>>>,
) -> Result<Option<TermRange>, TextTermsError>
    ensures made { IfOk result (λ range. AreRangesOf at.field
        (joined_path at.expand_dots path.now) kind (option_map (bound_map leaf_of) first.entry)
        (option_map (bound_map leaf_of) last.entry) (listed range)) }
    ensures memory { IfErr result (λ e. e ≡ Memory) }
{
    let Some(start) = first else {
        return Ok(None);
    };
    match last {
        Some(end) => Ok(Some(range_of_kind(alloc, at, path, kind, start, end)?)),
        None => Ok(None),
    }
}

// Appends a range, if there is one.
fn push_range(ranges: &mut Vec<TermRange>, range: Option<TermRange>) -> Result<(), TextTermsError>
    ensures made { OnOk result (ranges.new.items ≡ ranges.old.items ++ listed range) }
    ensures memory { IfErr result (λ e. e ≡ Memory) }
{
    let Some(range) = range else {
        return Ok(());
    };
    match ranges.push(range) {
        Ok(()) => Ok(()),
        Err(_) => Err(TextTermsError::Memory),
    }
}

// Appends the range of a kind, if both bounds are of it.
fn push_kind(
    alloc: Global,
    at: JsonField,
    path: &str,
    kind: JsonKind,
    start: Bound<&str>,
    end: Bound<&str>,
    ranges: &mut Vec<TermRange>,
) -> Result<(), TextTermsError>
    ensures made { OnOk result ((made : List TermRange)
        × AreOfKind at.field (joined_path at.expand_dots path.now)
        (bound_text start.entry) (bound_text end.entry) kind made
        × (ranges.new.items ≡ ranges.old.items ++ made)) }
    ensures memory { IfErr result (λ e. e ≡ Memory) }
{
    let first = start_in(kind, start);
    let last = end_in(kind, end);
    let range = range_in(alloc, at, path, kind, first, last)?;
    push_range(ranges, range)
}

// The ranges of all kinds at a path below a field of JSON objects.
fn ranges_below(
    alloc: Global,
    at: JsonField,
    path: &str,
    start: Bound<&str>,
    end: Bound<&str>,
) -> Result<Vec<TermRange>, TextTermsError>
    ensures answers { Unless Memory (RangesBelow at.field at.expand_dots path.now
        (bound_text start.entry) (bound_text end.entry)) (ranges_in result) }
    ensures memory { result ≡ Err Memory → ((path.now ≢ []) × (has_zero path.now ≡ false))
        × RunBackwards (bounding (bound_text start.entry)) (bounding (bound_text end.entry)) false }
{
    if path.is_empty() {
        return Err(TextTermsError::PathEnds(at.field));
    }
    if path.as_bytes().contains(&0) {
        return Err(TextTermsError::NulInPath(at.field));
    }
    if run_backwards(start, end) {
        return Err(TextTermsError::Backwards(at.field));
    }
    let mut ranges = Vec::new(alloc);
    push_kind(alloc, at, path, JsonKind::Date, start, end, &mut ranges)?;
    push_kind(alloc, at, path, JsonKind::Signed, start, end, &mut ranges)?;
    push_kind(alloc, at, path, JsonKind::Truth, start, end, &mut ranges)?;
    push_kind(alloc, at, path, JsonKind::Text, start, end, &mut ranges)?;
    push_kind(alloc, at, path, JsonKind::Unsigned, start, end, &mut ranges)?;
    Ok(ranges)
}

// The one range of a field that isn't of JSON objects.
fn one_range(
    alloc: Global,
    field: Field,
    field_type: &FieldType,
    start: Bound<&str>,
    end: Bound<&str>,
) -> Result<Vec<TermRange>, TextTermsError>
    ensures { Unless Memory (OneRange field field_type.now
        (bound_text start.entry) (bound_text end.entry)) (ranges_in result) }
{
    let mut ranges = Vec::new(alloc);
    match plain_range(alloc, field, field_type, start, end) {
        Ok(range) => {
            push_range(&mut ranges, Some(range))?;
            Ok(ranges)
        }
        Err(error) => Err(error),
    }
}

impl IndexedField<'_, '_> {
    /// The ranges of terms between two texts of a query: those of `ranges_between_texts`.
    ///
    /// Errors: of a path into JSON objects `PathEnds`, `NulInPath`; of other fields `WrongText`; `Backwards`, where the start is above the end;
    /// or `Memory`, which hides none of those at a path into JSON objects.
    pub fn ranges(
        &self,
        alloc: Global,
        start: Bound<&str>,
        end: Bound<&str>,
    ) -> Result<Vec<TermRange>, TextTermsError>
        ensures { UnlessFirst Memory (TakesMemoryIn self.now.type) (RangesInField self.now
            (bound_text start.entry) (bound_text end.entry)) (ranges_in result) }
    {
        let field = self.field;
        match self.field_type {
            FieldType::JsonObject(options) => {
                let expand_dots = options.is_expand_dots_enabled();
                ranges_below(
                    alloc,
                    JsonField { field, expand_dots },
                    self.rest,
                    start,
                    end,
                )
            }
            other => one_range(alloc, field, other, start, end),
        }
    }

    /// The ranges of terms that a text of a query writes, as `[10 TO 20]`: those of `ranges` for its `bounds_of_text`.
    ///
    /// Errors: `WrongRange`, exactly where the text writes no bounds; else those of `ranges`.
    pub fn ranges_of_text(
        &self,
        alloc: Global,
        text: &str,
    ) -> Result<Vec<TermRange>, TextTermsError>
        ensures { UnlessFirst Memory (TakesMemoryIn self.now.type)
            (RangesOfText self.now text.now) (ranges_in result) }
    {
        match bounds_of_text(text) {
            Some((start, end)) => self.ranges(alloc, start, end),
            None => Err(wrong_range(alloc, text)),
        }
    }
}

/// The ranges of terms between two texts of a query, at a path that also names values in JSON objects. (Not in tantivy, whose query parser does so.)
///
/// In a field that isn't of JSON objects that is the one range of `range_between_texts`. At a path into JSON objects there is a range for each kind of
/// value that both bounds write, in the order of their terms: of dates, of numbers below 2^63, of truth values, of texts, which each text
/// writes, and of numbers from 2^63 on. So a number above 10 is in one of two ranges, and a text that lies between the bounds as a text is in another
/// one. Two bounds that are both numbers, dates or truth values run backwards as these do, and all others as texts.
///
/// Errors: `UnknownPath`, `NotIndexed`; of a path into JSON objects `PathEnds`, `NulInPath`; of other fields `WrongText`; `Backwards`, where the
/// start is above the end; or `Memory`, which hides neither `NotIndexed` nor what is wrong at a path into JSON objects.
pub fn ranges_between_texts(
    alloc: Global,
    schema: &Schema,
    path: &str,
    start: Bound<&str>,
    end: Bound<&str>,
) -> Result<Vec<TermRange>, TextTermsError>
    ensures { UnlessFirst Memory (TakesMemory schema.now) (AnswersBetween schema.now path.now
        (bound_text start.entry) (bound_text end.entry)) (ranges_in result) }
{
    match IndexedField::of(alloc, schema, path) {
        Ok(at) => at.ranges(alloc, start, end),
        Err(error) => Err(error),
    }
}

/// The ranges of terms that a text of a query writes, as `[10 TO 20]`, at a path that also names values in JSON objects: those of
/// `ranges_between_texts` for its `bounds_of_text`. (Not in tantivy, whose query parser does so.)
///
/// Errors: `WrongRange`, exactly where the text writes no bounds; else those of `ranges_between_texts`.
///
/// ```
/// pub fn ranges_of_size(alloc: Global, schema: &Schema) -> Result<Vec<TermRange>> {
///     Ok(ranges_of_text(alloc, schema, "more.size", "[10 TO *]")?)
/// }
/// ```
pub fn ranges_of_text(
    alloc: Global,
    schema: &Schema,
    path: &str,
    text: &str,
) -> Result<Vec<TermRange>, TextTermsError>
    ensures { UnlessFirst Memory (TakesMemory schema.now)
        (AnswersRanges schema.now path.now text.now) (ranges_in result) }
{
    match bounds_of_text(text) {
        Some((start, end)) => ranges_between_texts(alloc, schema, path, start, end),
        None => Err(wrong_range(alloc, text)),
    }
}
