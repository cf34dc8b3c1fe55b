//! Ranges of terms between texts of queries, by the types of their fields.

ghost use Rattle.std.specs.Prelude.{◌≡◌, List, ℕ, IfOk, MatchOption};
ghost use Rattle.std.specs.Option.{option_copied};
ghost use Rattle.std.specs.declared.ops.Bound.{Bound};
ghost use Rattle.tv_indexing.specs.TakesMemory.{TakesMemory, TakesMemoryIn};
ghost use Rattle.tv_indexing.specs.Tells.{UnlessFirst};
ghost use Rattle.tv_indexing.specs.TextRange.{AnswersBounds, AnswersRange, AreTermsOfBound, BelowInField, EndsBelowTerm, IsEndBound, IsStartBound};
ghost use Rattle.tv_indexing.specs.TextRange.{IsTermOfText, RangeInField, RangeOfTexts, RangeWithBelow, WritesBounds, bound_of, bound_text, bounding};
ghost use Rattle.tv_indexing.specs.TextRange.{bytes_run_backwards, outer_bound};
ghost use Rattle.tv_indexing.specs.Unless.{Unless};
ghost use Rattle.tv_indexing.specs.declared.text_terms_error.TextTermsError.TheVariants.{Memory};
ghost use Rattle.tv_term.specs.Key.{IsTerm, TermValue};
ghost use Rattle.tv_term.specs.Range.{AreTermsOf};

use crate::indexed_field::IndexedField;
use crate::leaf::write_leaf;
use crate::text_terms_error::{TextTermsError, wrong_range, wrong_text};
use std::alloc::{AllocError, Global};
use std::ops::Bound;
use tv_base::FACET_SEP_BYTE;
use tv_field::FieldType;
use tv_field::json_value::{JsonRefusal, JsonScratch, lend_text};
use tv_schema::Schema;
use tv_term::{Term, TermRange, TermWriter};
use tv_value::Field;

// The term of the value that a text is to a field that isn't of JSON objects.
fn term_of_text(
    alloc: Global,
    field: Field,
    field_type: &FieldType,
    text: &str,
) -> Result<Term, TextTermsError>
    ensures { Unless Memory (IsTermOfText field field_type.now text.now) result }
{
    let mut scratch = JsonScratch::new(alloc);
    let leaf = match lend_text(field_type, text, &mut scratch) {
        Ok(leaf) => leaf,
        Err(JsonRefusal::Memory) => return Err(TextTermsError::Memory),
        Err(refusal) => {
            let value_type = field_type.value_type();
            return Err(wrong_text(alloc, field, value_type, refusal, text));
        }
    };
    let mut writer = TermWriter::new(alloc);
    match write_leaf(&mut writer, field, leaf) {
        Ok(true) => match writer.into_term() {
            Some(term) => Ok(term),
            None => Err(TextTermsError::Memory),
        },
        Ok(false) | Err(_) => Err(TextTermsError::Memory),
    }
}

// The bound by a term that isn't within the range itself, unless it is that of a date, which stands for all dates of its second.
fn outer_bound(field_type: &FieldType, term: Term) -> Bound<Term>
    ensures { (id : ℕ) (value : TermValue) → IsTerm term id value
        → AreTermsOf id (outer_bound field_type.now value) result }
{
    match field_type {
        FieldType::Date(_) => Bound::Included(term),
        _ => Bound::Excluded(term),
    }
}

// The bound by the term of the value that a text is.
fn term_of_bound(
    alloc: Global,
    field: Field,
    field_type: &FieldType,
    bound: Bound<&str>,
) -> Result<Bound<Term>, TextTermsError>
    ensures { Unless Memory (AreTermsOfBound field field_type.now (bound_text bound.entry)) result }
{
    match bound {
        Bound::Included(text) => {
            Ok(Bound::Included(term_of_text(alloc, field, field_type, text)?))
        }
        Bound::Excluded(text) => {
            let term = term_of_text(alloc, field, field_type, text)?;
            Ok(outer_bound(field_type, term))
        }
        Bound::Unbounded => Ok(Bound::Unbounded),
    }
}

// The bytes of the term of a bound.
fn bounding(bound: &Bound<Term>) -> Option<&[u8]>
    ensures { option_copied result ≡ bounding bound.now }
{
    match bound {
        Bound::Included(term) | Bound::Excluded(term) => Some(term.serialized_term()),
        Bound::Unbounded => None,
    }
}

// Whether the term of the first bound is above that of the second one.
fn run_backwards(start: &Bound<Term>, end: &Bound<Term>) -> bool
    ensures { result ≡ bytes_run_backwards (bounding start.now) (bounding end.now) }
{
    let Some(first) = bounding(start) else {
        return false;
    };
    match bounding(end) {
        Some(last) => last.cmp(first).is_lt(),
        None => false,
    }
}

// The terms of a field that isn't of JSON objects between two texts.
pub(crate) fn plain_range(
    alloc: Global,
    field: Field,
    field_type: &FieldType,
    start: Bound<&str>,
    end: Bound<&str>,
) -> Result<TermRange, TextTermsError>
    ensures { Unless Memory (RangeOfTexts field field_type.now
        (bound_text start.entry) (bound_text end.entry)) result }
{
    let first = term_of_bound(alloc, field, field_type, start)?;
    let last = match term_of_bound(alloc, field, field_type, end) {
        Ok(last) => last,
        Err(error) => return Err(error),
    };
    if run_backwards(&first, &last) {
        return Err(TextTermsError::Backwards(field));
    }
    match Term::range_of_type(alloc, field, field_type.value_type()) {
        Ok(all) => Ok(all.between(first, last)?),
        Err(_) => Err(TextTermsError::Memory),
    }
}

// Where the terms end that begin with the term of a value and are of that value or of one below it. The term of a facet that is below another
// one, which isn't the root, has a separator after the bytes of that.
fn end_of_below(field_type: &FieldType, term: Term) -> Result<Bound<Term>, AllocError>
    ensures { IfOk result (EndsBelowTerm field_type.now term) }
{
    if !matches!(field_type, FieldType::Facet(_)) {
        return Ok(Bound::Included(term));
    }
    if term.is_empty() {
        return Ok(Bound::Unbounded);
    }
    let mut end = term;
    end.append_bytes(&[FACET_SEP_BYTE + 1])?;
    Ok(Bound::Excluded(end))
}

// The terms of the value that a text is to a field that isn't of JSON objects, and of those below it.
fn range_with_below(
    alloc: Global,
    field: Field,
    field_type: &FieldType,
    text: &str,
) -> Result<TermRange, TextTermsError>
    ensures { Unless Memory (RangeWithBelow field field_type.now text.now) result }
{
    let term = term_of_text(alloc, field, field_type, text)?;
    let all = TermRange::of_prefix(alloc, term.serialized_term())?;
    let end = end_of_below(field_type, term)?;
    Ok(all.between(Bound::Unbounded, end)?)
}

impl IndexedField<'_, '_> {
    /// The range of the field's terms between two texts of a query: that of `range_between_texts`.
    ///
    /// Errors: `NoRange`; `WrongText`, for the start before the end; `Backwards`, where the start is above the end; or `Memory`, which doesn't hide
    /// `NoRange`.
    pub fn range(
        &self,
        alloc: Global,
        start: Bound<&str>,
        end: Bound<&str>,
    ) -> Result<TermRange, TextTermsError>
        ensures { UnlessFirst Memory (TakesMemoryIn self.now.type)
            (RangeInField self.now (bound_text start.entry) (bound_text end.entry)) result }
    {
        match self.field_type {
            FieldType::JsonObject(_) => Err(TextTermsError::NoRange(self.field)),
            other => plain_range(alloc, self.field, other, start, end),
        }
    }

    /// The range of the term of a text of a query and of the terms below it: in a field of facets those of the facets that have the steps of this one
    /// and more, as tantivy finds documents by a facet above theirs. In a field of another type no value is below another one, and the range has
    /// the text's own term.
    ///
    /// Errors: `NoRange`, exactly where the field is of JSON objects; `WrongText`; or `Memory`, which of these hides `WrongText` alone.
    pub fn below(&self, alloc: Global, text: &str) -> Result<TermRange, TextTermsError>
        ensures { UnlessFirst Memory (TakesMemoryIn self.now.type)
            (BelowInField self.now text.now) result }
    {
        match self.field_type {
            FieldType::JsonObject(_) => Err(TextTermsError::NoRange(self.field)),
            other => range_with_below(alloc, self.field, other, text),
        }
    }
}

/// The range of a field's terms between two texts of a query. (Not in tantivy, whose query parser does so.)
///
/// The path names the field, as `Schema::find_field` reads it, and each text is a value of that field as in `terms_of_text`. The range has
/// just those of the field's terms whose values lie within the bounds. A term of a date stands for all dates of its second: so the range has the
/// terms of all dates within the bounds, and of those in the same second as a bound, whether that one is within or not.
///
/// Errors: `UnknownPath`, `NotIndexed`, `NoRange`; `WrongText`, for the start before the end; `Backwards`, where the start is above the end; or `Memory`,
/// which hides neither `NotIndexed` nor `NoRange`.
pub fn range_between_texts(
    alloc: Global,
    schema: &Schema,
    path: &str,
    start: Bound<&str>,
    end: Bound<&str>,
) -> Result<TermRange, TextTermsError>
    ensures { UnlessFirst Memory (TakesMemory schema.now) (AnswersBounds schema.now path.now
        (bound_text start.entry) (bound_text end.entry)) result }
{
    match IndexedField::of(alloc, schema, path) {
        Ok(at) => at.range(alloc, start, end),
        Err(error) => Err(error),
    }
}

// A bound, unless the text is `*`.
fn bound_of(is_within: bool, text: &str) -> Bound<&str>
    ensures { bound_text result ≡ bound_of is_within text.now }
{
    if text == "*" {
        return Bound::Unbounded;
    }
    if is_within {
        Bound::Included(text)
    } else {
        Bound::Excluded(text)
    }
}

// The bound after its bracket.
fn start_of_range(text: &str) -> Option<Bound<&str>>
    ensures { MatchOption result ((start : Bound (List ℕ)) → ¬ IsStartBound text.now start)
        (λ start. IsStartBound text.now (bound_text start)) }
{
    if let Some(inner) = text.strip_prefix("[") {
        return Some(bound_of(true, inner));
    }
    match text.strip_prefix("{") {
        Some(inner) => Some(bound_of(false, inner)),
        None => None,
    }
}

// The bound before its bracket.
fn end_of_range(text: &str) -> Option<Bound<&str>>
    ensures { MatchOption result ((end : Bound (List ℕ)) → ¬ IsEndBound text.now end)
        (λ end. IsEndBound text.now (bound_text end)) }
{
    if let Some(inner) = text.strip_suffix("]") {
        return Some(bound_of(true, inner));
    }
    match text.strip_suffix("}") {
        Some(inner) => Some(bound_of(false, inner)),
        None => None,
    }
}

/// The two bounds that a text of a query writes, as in tantivy's query language: `[10 TO 20]` with both, `{10 TO 20}` without, `[10 TO 20}` and
/// `{10 TO 20]` with one of them; `*` for a bound is none, and `*` alone is a range without bounds. The bounds stand around the first ` TO `,
/// and are as they stand there. `None` where the text is none of these.
pub fn bounds_of_text(text: &str) -> Option<(Bound<&str>, Bound<&str>)>
    ensures { MatchOption result ((start end : Bound (List ℕ)) → ¬ WritesBounds text.now start end)
        (λ bounds. WritesBounds text.now (bound_text bounds.0)
        (bound_text bounds.1)) }
{
    if text == "*" {
        return Some((Bound::Unbounded, Bound::Unbounded));
    }
    let Some((before, behind)) = text.split_once(" TO ") else {
        return None;
    };
    let Some(start) = start_of_range(before) else {
        return None;
    };
    match end_of_range(behind) {
        Some(end) => Some((start, end)),
        None => None,
    }
}

/// The range of a field's terms that a text of a query writes, as `[10 TO 20]`: that of `range_between_texts` for its `bounds_of_text`. (Not in
/// tantivy, whose query parser does so.)
///
/// Errors: `WrongRange`, exactly where the text writes no bounds; else those of `range_between_texts`.
///
/// ```
/// pub fn range_of_prices(alloc: Global, schema: &Schema) -> Result<TermRange> {
///     Ok(range_of_text(alloc, schema, "price", "[10 TO 20}")?)
/// }
/// ```
pub fn range_of_text(
    alloc: Global,
    schema: &Schema,
    path: &str,
    text: &str,
) -> Result<TermRange, TextTermsError>
    ensures { UnlessFirst Memory (TakesMemory schema.now)
        (AnswersRange schema.now path.now text.now) result }
{
    match bounds_of_text(text) {
        Some((start, end)) => range_between_texts(alloc, schema, path, start, end),
        None => Err(wrong_range(alloc, text)),
    }
}
