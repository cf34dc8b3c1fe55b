//! Whether the bounds of a range at a path into JSON objects run backwards.

ghost use Rattle.std.specs.Prelude.{◌≡◌, option_map};
ghost use Rattle.std.specs.Option.{option_copied};
ghost use Rattle.tv_indexing.specs.JsonBounds.{RunBackwards, TextsRunBackwards, above};
ghost use Rattle.tv_indexing.specs.TextRange.{bound_text, bounding};
ghost use Rattle.tv_value.specs.Lent.{leaf_of};

use crate::text_terms::{date_written, number_written, truth_written};
use std::ops::Bound;
use tv_options::DATE_TIME_PRECISION_INDEXED;
use tv_value::ReferenceValueLeaf;

// Whether the first of two values of one kind is above the second one.
fn above(start: Option<ReferenceValueLeaf<'_>>, end: Option<ReferenceValueLeaf<'_>>) -> Option<bool>
    ensures { result ≡ above (option_map leaf_of start.entry) (option_map leaf_of end.entry) }
{
    match (start?, end?) {
        (ReferenceValueLeaf::I64(start), ReferenceValueLeaf::I64(end)) => Some(end < start),
        (ReferenceValueLeaf::U64(start), ReferenceValueLeaf::U64(end)) => Some(end < start),
        (ReferenceValueLeaf::U64(_), ReferenceValueLeaf::I64(_)) => Some(true),
        (ReferenceValueLeaf::I64(_), ReferenceValueLeaf::U64(_)) => Some(false),
        (ReferenceValueLeaf::Date(start), ReferenceValueLeaf::Date(end)) => {
            let start = start.truncate(DATE_TIME_PRECISION_INDEXED);
            Some(end.truncate(DATE_TIME_PRECISION_INDEXED) < start)
        }
        (ReferenceValueLeaf::Bool(start), ReferenceValueLeaf::Bool(end)) => Some(!end & start),
        _ => None,
    }
}

// Whether two texts run backwards: as numbers where both write one, as dates, as truth values, and else as texts.
fn texts_run_backwards(start: &str, end: &str) -> bool
    ensures { TextsRunBackwards start.now end.now result }
{
    if let Some(told) = above(number_written(start), number_written(end)) {
        return told;
    }
    if let Some(told) = above(date_written(start), date_written(end)) {
        return told;
    }
    match above(truth_written(start), truth_written(end)) {
        Some(told) => told,
        None => end.as_bytes().cmp(start.as_bytes()).is_lt(),
    }
}

// The text of a bound.
fn text_of<'t>(bound: Bound<&'t str>) -> Option<&'t str>
    ensures { option_copied result ≡ bounding (bound_text bound.entry) }
{
    match bound {
        Bound::Included(text) | Bound::Excluded(text) => Some(text),
        Bound::Unbounded => None,
    }
}

// Whether the bounds of a range run backwards.
pub(crate) fn run_backwards(start: Bound<&str>, end: Bound<&str>) -> bool
    ensures { RunBackwards (bounding (bound_text start.entry))
        (bounding (bound_text end.entry)) result }
{
    let Some(start) = text_of(start) else {
        return false;
    };
    match text_of(end) {
        Some(end) => texts_run_backwards(start, end),
        None => false,
    }
}
