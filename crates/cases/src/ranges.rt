//! Ranges of terms.

use crate::shared;
use crate::terms::wrapped;
use anyhow::{Result, anyhow, ensure};
use case_words as words;
use case_words::leaves;
use std::alloc::Global;
use std::ops::Bound;
use std::str::FromStr;
use tv_date::DateTime;
use tv_term::{FastValue, Term, TermError, TermRange};
use tv_value::field::Field;

/// What a call about ranges of terms returns.
pub fn answer(alloc: Global, call: &[&str]) -> Result<String> {
    match range(alloc, call)? {
        Ok(range) => shown(alloc, range),
        Err(error) => words::error(alloc, error),
    }
}

/// Those of the terms with the digits of the first word, which rise, that are in a range.
pub fn within(alloc: Global, call: &[&str]) -> Result<String> {
    let (digits, call) = words::first(call)?;
    let range = range(alloc, call)??;
    let terms = rising(alloc, digits)?;
    within_range(alloc, &range, terms.as_slice())
}

// The terms with these digits, with a blank between each two.
fn rising(alloc: Global, digits: &str) -> Result<Vec<Term>> {
    let mut terms = Vec::new(alloc);
    for digits in digits.split_whitespace() {
        terms.push(wrapped(alloc, digits)?)?;
    }
    Ok(terms)
}

// Those of the terms that are in a range.
fn within_range(alloc: Global, range: &TermRange, terms: &[Term]) -> Result<String> {
    let mut found = Vec::new(alloc);
    for term in range.within(terms) {
        found.push(hex::encode(alloc, term.serialized_term())?)?;
    }
    words::joined(alloc, found.as_slice())
}

// The range of a call, or why there is none.
fn range(alloc: Global, call: &[&str]) -> Result<Result<TermRange, TermError>> {
    let (name, call) = words::first(call)?;
    match name {
        "bytes" => of_bytes(alloc, call),
        "field" => of_field(alloc, call),
        "type" => of_type(alloc, call),
        "prefix" => of_prefix(alloc, call),
        "path" => of_path(alloc, call),
        "below" => below(alloc, call),
        "values" => of_values(alloc, call),
        "dates" => of_dates(alloc, call),
        _ => Err(anyhow!("an unknown call about ranges")),
    }
}

// The terms that begin with bytes.
fn of_bytes(alloc: Global, call: &[&str]) -> Result<Result<TermRange, TermError>> {
    let bytes = shared::bytes(alloc, call)?;
    Ok(Ok(TermRange::of_prefix(alloc, bytes.as_slice())?))
}

// The terms of a field.
fn of_field(alloc: Global, call: &[&str]) -> Result<Result<TermRange, TermError>> {
    let field = words::field(words::one(call)?)?;
    Ok(Ok(Term::range_of_field(alloc, field)?))
}

// The terms of a field whose values are texts that begin with a text.
fn of_prefix(alloc: Global, call: &[&str]) -> Result<Result<TermRange, TermError>> {
    let (field, prefix) = words::two(call)?;
    let (field, prefix) = (words::field(field)?, words::text(alloc, prefix)?);
    Ok(Term::prefix_range(alloc, field, prefix.as_str()))
}

// The terms of a field whose values are facets below a facet.
fn below(alloc: Global, call: &[&str]) -> Result<Result<TermRange, TermError>> {
    let (field, facet) = words::two(call)?;
    let field = words::field(field)?;
    let facet = leaves::facet(alloc, facet)?;
    Ok(Term::descendant_range(alloc, field, &facet))
}

// The terms of a field whose values are of the type that has this letter.
fn of_type(alloc: Global, call: &[&str]) -> Result<Result<TermRange, TermError>> {
    let (field, letter) = words::two(call)?;
    let value_type = words::type_of(letter)?;
    Ok(Ok(Term::range_of_type(alloc, words::field(field)?, value_type)?))
}

// The terms of a field whose values stand at a path.
fn of_path(alloc: Global, call: &[&str]) -> Result<Result<TermRange, TermError>> {
    let (field, path, dots) = words::three(call)?;
    let field = words::field(field)?;
    let path = words::text(alloc, path)?;
    Ok(Term::json_path_range(alloc, field, path.as_str(), dots == "expanded"))
}

// The terms of a field whose values are of a kind and within bounds.
fn of_values(alloc: Global, call: &[&str]) -> Result<Result<TermRange, TermError>> {
    let (field, kind, start, end) = words::four(call)?;
    let field = words::field(field)?;
    match kind {
        "u64" => between::<u64>(alloc, field, start, end),
        "i64" => between::<i64>(alloc, field, start, end),
        "bool" => between::<bool>(alloc, field, start, end),
        "date" => Ok(Term::range_of_values(alloc, field, &dates(start, end)?)),
        _ => Err(anyhow!("a value that has no range")),
    }
}

// The terms of a field whose values are dates, from the second of one bound to that of the other.
fn of_dates(alloc: Global, call: &[&str]) -> Result<Result<TermRange, TermError>> {
    let (field, start, end) = words::three(call)?;
    let dates = dates(start, end)?;
    Ok(Term::range_of_dates_for_search(alloc, words::field(field)?, &dates))
}

// The bound of a word: a value that is included, one after `not` that is excluded, or none.
fn bound<T: FromStr + Drop>(word: &str) -> Result<Bound<T>>
where
    T::Err: Drop,
{
    match word.split_once(' ') {
        Some((_, excluded)) => Ok(Bound::Excluded(words::number(excluded)?)),
        None if word == "none" => Ok(Bound::Unbounded),
        None => Ok(Bound::Included(words::number(word)?)),
    }
}

// The bound of dates this many nanoseconds after 1970.
fn date(bound: Bound<i64>) -> Bound<DateTime> {
    match bound {
        Bound::Included(nanoseconds) => {
            Bound::Included(DateTime::from_timestamp_nanos(nanoseconds))
        }
        Bound::Excluded(nanoseconds) => {
            Bound::Excluded(DateTime::from_timestamp_nanos(nanoseconds))
        }
        Bound::Unbounded => Bound::Unbounded,
    }
}

// The bounds of dates of two words.
fn dates(start: &str, end: &str) -> Result<(Bound<DateTime>, Bound<DateTime>)> {
    Ok((date(bound(start)?), date(bound(end)?)))
}

// The terms of a field whose values are between the bounds of two words.
fn between<T: FastValue + FromStr + Drop>(
    alloc: Global,
    field: Field,
    start: &str,
    end: &str,
) -> Result<Result<TermRange, TermError>>
where
    T::Err: Drop,
{
    let bounds = (bound::<T>(start)?, bound::<T>(end)?);
    Ok(Term::range_of_values(alloc, field, &bounds))
}

// The start and the end of a range.
fn shown(alloc: Global, range: TermRange) -> Result<String> {
    if let Some(end) = range.end() {
        ensure!(!range.contains(end), "the end is in the range");
    }
    words::ends(alloc, range.start(), range.end())
}
