//! Terms, and the values that are read back from them.

use crate::{ranges, shared};
use anyhow::{Result, anyhow, ensure};
use case_words as words;
use case_words::leaves;
use case_words::parts::{Part, push_parts};
use case_words::schemas::schema;
use std::alloc::{AllocError, Global};
use std::fmt::Write;
use tv_term::laws::{
    fast_types_are_of_eight_bytes, fast_values_are_ordered_as_numbers, fast_values_are_read_back,
};
use tv_term::{FastValue, Term, ValueBytes};
use tv_value::field::Field;
use tv_value::owned_value::OwnedValue;

/// What a call about terms returns.
pub fn answer(alloc: Global, call: &[&str]) -> Result<String> {
    let (name, call) = words::first(call)?;
    match name {
        "range" => ranges::answer(alloc, call),
        "within" => ranges::within(alloc, call),
        "of" => of_value(alloc, call),
        "searched date" => of_searched_date(alloc, call),
        "json" => of_path(alloc, call),
        "segments" => of_segments(alloc, call),
        "wrap" => of_bytes(alloc, call),
        "value" => value_of_bytes(alloc, call),
        "full path" => full_path(alloc, call),
        "compare" => compared_terms(alloc, call),
        "edit" => edited(alloc, call),
        "fast" => fast_values(alloc, call),
        _ => Err(anyhow!("an unknown call about terms")),
    }
}

// The term of a field and a value.
fn of_value(alloc: Global, call: &[&str]) -> Result<String> {
    let (field, kind, value) = words::three(call)?;
    let field = words::field(field)?;
    let value = leaves::leaf(alloc, kind, value)?;
    let term = term_of(alloc, field, &value);
    drop(value);
    shown(alloc, &term?)
}

// The term of a date that is searched for.
fn of_searched_date(alloc: Global, call: &[&str]) -> Result<String> {
    let (field, value) = words::two(call)?;
    let field = words::field(field)?;
    let date = leaves::date(value)?;
    shown(
        alloc,
        &Term::from_field_date_for_search(alloc, field, date)?,
    )
}

// The term of a field and a path, to which a value is appended, if there is one.
fn of_path(alloc: Global, call: &[&str]) -> Result<String> {
    let [field, path, dots, appended @ ..] = call else {
        return Err(anyhow!("a field and a path"));
    };
    let field = words::field(field)?;
    let path = words::text(alloc, path)?;
    match Term::from_field_json_path(alloc, field, path.as_str(), *dots == "expanded") {
        Ok(term) => of_appended(alloc, term, appended),
        Err(error) => words::error(alloc, error),
    }
}

// The term of a field and the segments of a path.
fn of_segments(alloc: Global, call: &[&str]) -> Result<String> {
    let (field, segments) = words::first(call)?;
    let field = words::field(field)?;
    let texts = words::all_texts(alloc, segments)?;
    let segments = words::lent(alloc, texts.as_slice())?;
    match Term::from_field_json_segments(alloc, field, segments.as_slice()) {
        Ok(term) => shown(alloc, &term),
        Err(error) => words::error(alloc, error),
    }
}

// The term to which a value is appended, if there is one.
fn of_appended(alloc: Global, mut term: Term, appended: &[&str]) -> Result<String> {
    match appended {
        [] => {}
        [kind, value] => append(alloc, &mut term, kind, value)??,
        _ => return Err(anyhow!("an unknown value")),
    }
    shown(alloc, &term)
}

// The term of bytes.
fn of_bytes(alloc: Global, call: &[&str]) -> Result<String> {
    let bytes = shared::bytes(alloc, call)?;
    match Term::wrap(alloc, &bytes) {
        Ok(term) => shown(alloc, &term),
        Err(error) => words::error(alloc, error),
    }
}

// The value of bytes.
fn value_of_bytes(alloc: Global, call: &[&str]) -> Result<String> {
    let bytes = shared::bytes(alloc, call)?;
    match ValueBytes::wrap(&bytes) {
        Ok(value) => shown_value(alloc, &value),
        Err(error) => words::error(alloc, error),
    }
}

/// The term of these bytes, and a fresh one for the word `new`.
pub fn wrapped(alloc: Global, digits: &str) -> Result<Term> {
    match digits {
        "new" => Ok(Term::with_capacity(alloc, 8)?),
        _ => Ok(Term::wrap(alloc, &words::bytes(alloc, digits)?)?),
    }
}

// The term of a field and a value.
fn term_of(alloc: Global, field: Field, value: &OwnedValue) -> Result<Term> {
    let made = match value {
        OwnedValue::Str(text) => Term::from_field_text(alloc, field, text.as_str()),
        OwnedValue::U64(number) => Term::from_field_u64(alloc, field, *number),
        OwnedValue::I64(number) => Term::from_field_i64(alloc, field, *number),
        OwnedValue::Bool(truth) => Term::from_field_bool(alloc, field, *truth),
        OwnedValue::Date(date) => Term::from_field_date(alloc, field, *date),
        OwnedValue::Facet(facet) => Term::from_facet(alloc, field, facet),
        OwnedValue::Bytes(bytes) => Term::from_field_bytes(alloc, field, bytes),
        OwnedValue::IpAddr(address) => Term::from_field_ip_addr(alloc, field, *address),
        _ => return Err(anyhow!("a value that has no term")),
    };
    Ok(made?)
}

// Appends a value of this kind to a term, and returns what that call answers.
fn append(
    alloc: Global,
    term: &mut Term,
    kind: &str,
    value: &str,
) -> Result<Result<(), AllocError>> {
    if kind == "number" {
        return Ok(term.append_json_number(words::number(value)?));
    }
    let value = leaves::leaf(alloc, kind, value)?;
    let outcome = append_value(term, &value);
    drop(value);
    outcome
}

// Appends a value to a term, and returns what that call answers.
fn append_value(term: &mut Term, value: &OwnedValue) -> Result<Result<(), AllocError>> {
    Ok(match value {
        OwnedValue::Str(text) => term.append_type_and_str(text.as_str()),
        OwnedValue::U64(number) => term.append_type_and_fast_value(*number),
        OwnedValue::I64(number) => term.append_type_and_fast_value(*number),
        OwnedValue::Bool(truth) => term.append_type_and_fast_value(*truth),
        OwnedValue::Date(date) => term.append_type_and_fast_value(*date),
        _ => return Err(anyhow!("a value that isn't appended")),
    })
}

// The bytes of a term, its field, and the value that is read back from a copy.
fn shown(alloc: Global, term: &Term) -> Result<String> {
    check_copy(term)?;
    let mut answer = parts(alloc, term)?;
    push_json_path(alloc, &mut answer, term)?;
    Ok(answer)
}

// The bytes of a term, its field, and its value.
fn parts(alloc: Global, term: &Term) -> Result<String> {
    let bytes = hex::encode(alloc, term.serialized_term())?;
    let field = term.field().field_id();
    let value = copied_value(alloc, term)?;
    shared::answered(format!(in alloc; "{bytes} {field} {value}"))
}

// The value that is read back from a copy of a term's value.
fn copied_value(alloc: Global, term: &Term) -> Result<String> {
    let owned = term.value().to_owned(alloc)?;
    shown_value(alloc, &owned.as_value_bytes())
}

// Appends the path of a term of a JSON field.
fn push_json_path(alloc: Global, answer: &mut String, term: &Term) -> Result<()> {
    if let Some(path) = term.get_json_path()? {
        push_parts(alloc, answer, &[("path", Part::Text(path.as_str()))])?;
    }
    Ok(())
}

// Checks that a copy of a term is equal and has the same hash.
fn check_copy(term: &Term) -> Result<()> {
    let copy = term.try_clone()?;
    let is_copied = copy == *term && words::hash(&copy) == words::hash(term);
    ensure!(is_copied, "a copy of a term differs");
    Ok(())
}

// The type of a value, and the name and the answer of each reader that has one.
fn shown_value(alloc: Global, value: &ValueBytes<'_>) -> Result<String> {
    let parts = [
        ("u64", Part::from(value.as_u64())),
        ("i64", Part::from(value.as_i64())),
        ("bool", Part::from(value.as_bool())),
        ("date", Part::from(value.as_date())),
        ("str", Part::from(value.as_str())),
        ("bytes", Part::from(value.as_bytes())),
        ("ip", Part::from(value.as_ip_addr())),
    ];
    let name = value.typ().map_or("none", |value_type| value_type.name());
    let mut answer = String::from_str(alloc, name)?;
    push_parts(alloc, &mut answer, &parts)?;
    push_facet(alloc, &mut answer, value)?;
    push_path(alloc, &mut answer, value)?;
    Ok(answer)
}

// Appends the encoded text of a facet, if the value is one.
fn push_facet(alloc: Global, answer: &mut String, value: &ValueBytes<'_>) -> Result<()> {
    if let Some(facet) = value.as_facet(alloc)? {
        push_parts(alloc, answer, &[("facet", Part::Text(facet.encoded_str()))])?;
    }
    Ok(())
}

// Appends the path of a value of a JSON field, what stands after it, and the type of that.
fn push_path(alloc: Global, answer: &mut String, value: &ValueBytes<'_>) -> Result<()> {
    if let Some((path, rest)) = value.as_json() {
        let path = words::digits(alloc, path)?;
        let rest = words::digits(alloc, rest)?;
        write!(answer, " json {path} {rest}")?;
    }
    let value_type = match value.json_path_type() {
        Some(value_type) => Part::Name(value_type.name()),
        None => Part::Nothing,
    };
    push_parts(alloc, answer, &[("of", value_type)])
}

// The name of a term's field in a schema, and the term's path.
fn full_path(alloc: Global, call: &[&str]) -> Result<String> {
    let (description, digits) = words::two(call)?;
    let term = wrapped(alloc, digits)?;
    let schema = schema(alloc, description)?;
    ensure!(schema.has_field(term.field()), "a field of the schema");
    words::quoted(alloc, term.get_full_path(&schema)?.as_str())
}

// How two terms compare.
fn compared_terms(alloc: Global, call: &[&str]) -> Result<String> {
    let (one, other) = words::two(call)?;
    let one = wrapped(alloc, one)?;
    words::compared(alloc, &one, &wrapped(alloc, other)?)
}

// What is left of a term after steps.
fn edited(alloc: Global, call: &[&str]) -> Result<String> {
    let (start, steps) = words::first(call)?;
    let mut term = wrapped(alloc, start)?;
    for step in steps {
        edit(alloc, &mut term, step)??;
    }
    shown(alloc, &term)
}

/// Changes a term by one step, and returns what the step's call answers.
pub fn edit(alloc: Global, term: &mut Term, step: &str) -> Result<Result<(), AllocError>> {
    let (name, content) = words::parted(step);
    match name {
        "set" => Ok(term.set_bytes(&words::bytes(alloc, content)?)),
        "append" => Ok(term.append_bytes(&words::bytes(alloc, content)?)),
        "field" => changed(set_field(term, content)),
        "fill" => changed(fill(term, content)),
        "truncate" => changed(truncate(term, content)),
        "clear" => changed(clear(term, content)),
        kind => append(alloc, term, kind, content),
    }
}

// What a step's call that takes no memory answers, if its words are right.
fn changed(outcome: Result<()>) -> Result<Result<(), AllocError>> {
    Ok(Ok(outcome?))
}

// Keeps this many value bytes of a term.
fn truncate(term: &mut Term, content: &str) -> Result<()> {
    term.truncate_value_bytes(words::number(content)?);
    Ok(())
}

// Takes the value bytes of a term away, and gives it another type.
fn clear(term: &mut Term, content: &str) -> Result<()> {
    term.clear_with_type(words::type_of(content)?);
    Ok(())
}

// Gives a term without value bytes another field and type.
fn set_field(term: &mut Term, content: &str) -> Result<()> {
    let (field, code) = words::parted(content);
    ensure!(term.is_empty(), "a term without value bytes");
    term.set_field_and_type(words::field(field)?, words::type_of(code)?);
    Ok(())
}

// Makes all value bytes from a place on the same.
fn fill(term: &mut Term, content: &str) -> Result<()> {
    let (start, byte) = words::parted(content);
    let (start, byte): (usize, u8) = (words::number(start)?, words::number(byte)?);
    ensure!(start <= term.len_bytes(), "fewer value bytes");
    for slot in term.value_bytes_mut(start) {
        *slot = byte;
    }
    Ok(())
}

// The type of two fast values, their numbers, and how the values and the numbers compare.
fn fast_values(alloc: Global, call: &[&str]) -> Result<String> {
    let (kind, one, other) = words::three(call)?;
    let one = leaves::leaf(alloc, kind, one)?;
    let answer = fast_with(alloc, &one, kind, other);
    drop(one);
    answer
}

// The same of a value and of one that a word stands for.
fn fast_with(alloc: Global, one: &OwnedValue, kind: &str, other: &str) -> Result<String> {
    let other = leaves::leaf(alloc, kind, other)?;
    let answer = fast_pair(alloc, one, &other);
    drop(other);
    answer
}

// The same of two values.
fn fast_pair(alloc: Global, one: &OwnedValue, other: &OwnedValue) -> Result<String> {
    match (one, other) {
        (OwnedValue::I64(one), OwnedValue::I64(other)) => compared(alloc, *one, *other),
        (OwnedValue::U64(one), OwnedValue::U64(other)) => compared(alloc, *one, *other),
        (OwnedValue::Bool(one), OwnedValue::Bool(other)) => compared(alloc, *one, *other),
        (OwnedValue::Date(one), OwnedValue::Date(other)) => compared(alloc, *one, *other),
        _ => Err(anyhow!("values that aren't fast")),
    }
}

// The type of two fast values, their numbers, and how the values and the numbers compare.
fn compared<T: FastValue>(alloc: Global, one: T, other: T) -> Result<String> {
    let value_type = fast_types_are_of_eight_bytes::<T>().name();
    let (number, same) = fast_values_are_read_back(one);
    let (other_number, other_same) = fast_values_are_read_back(other);
    ensure!(
        same == one && other_same == other,
        "other values are read back"
    );
    let (values, numbers) = fast_values_are_ordered_as_numbers(one, other);
    shared::answered(format!(in alloc;
        "{value_type} {number} {other_number} {values:?} {numbers:?}"
    ))
}
