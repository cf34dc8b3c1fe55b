//! Leaves that are made of values, and values that hold others.

use std::alloc::{AllocError, Global};
use std::test::Fail;
use tv_value::copy::CopyError;
use tv_value::leaf::ReferenceValueLeaf;
use tv_value::nested::{MAX_DEPTH, TooDeep, nests_within};
use tv_value::owned_value::OwnedValue;
use tv_value::same::is_same;
use tv_value::value::Value;

#[test]
fn leaves_are_made_of_values(rt: HostRuntime) {
    assert!(rt; ReferenceValueLeaf::from(7u64).as_u64() == Some(7));
    assert!(rt; ReferenceValueLeaf::from(-7i64).as_i64() == Some(-7));
    assert!(rt; ReferenceValueLeaf::from(true).as_bool() == Some(true));
    assert!(rt; ReferenceValueLeaf::from("a").as_str() == Some("a"));
    assert!(rt; ReferenceValueLeaf::Null.is_null());
    assert!(rt; !ReferenceValueLeaf::from("a").is_null());
}

// The object with the array of null, a number and a text at the key `k`, twice.
fn nested(alloc: Global) -> Result<OwnedValue, AllocError> {
    let mut members = Vec::new(alloc);
    for _ in 0..2 {
        let text = OwnedValue::Str(String::from_str(alloc, "a")?);
        let items = vec![in alloc; OwnedValue::Null, OwnedValue::U64(7), text]?;
        members.push((String::from_str(alloc, "k")?, OwnedValue::Array(items)))?;
    }
    Ok(OwnedValue::Object(members))
}

// Whether this is the next entry, and its value an array.
fn is_array_at(entry: Option<(&str, &OwnedValue)>, key: &str) -> bool {
    entry.is_some_and(|(found, value)| found == key && value.as_array().is_some())
}

// Whether the copies of a value are equal to it.
fn are_copies_equal(alloc: Global, value: &OwnedValue) -> Result<bool, CopyError> {
    let made = OwnedValue::from_value(alloc, &value)?;
    let is_made = made == *value && is_same(&&made, &value) == Ok(true);
    drop(made);
    let copy = value.try_clone(alloc)?;
    let is_copied = copy == *value;
    drop(copy);
    Ok(is_made && is_copied)
}

// Whether a value has two entries, both with an array at the key `k`.
fn has_two_arrays(value: &OwnedValue) -> bool {
    let Some(mut entries) = value.as_object() else {
        return false;
    };
    is_array_at(entries.next(), "k") && is_array_at(entries.next(), "k") && entries.next().is_none()
}

#[test]
fn values_that_hold_others(rt: HostRuntime) -> Result<(), Fail> {
    let value = nested(rt.alloc())?;
    let are_equal = are_copies_equal(rt.alloc(), &value);
    let has_two_arrays = has_two_arrays(&value);
    drop(value);
    assert!(rt; are_equal?);
    assert!(rt; has_two_arrays);
    Ok(())
}

// A number within this many arrays.
fn within_arrays(alloc: Global, count: u32) -> Result<OwnedValue, AllocError> {
    let mut value = OwnedValue::U64(7);
    for _ in 0..count {
        value = OwnedValue::Array(vec![in alloc; value]?);
    }
    Ok(value)
}

// Whether a value that nests one list deeper than the limit is refused, and copied by a larger one.
fn is_too_deep(alloc: Global, value: &OwnedValue) -> Result<bool, CopyError> {
    let copy = OwnedValue::from_value_within(alloc, &value, MAX_DEPTH + 1)?;
    let is_copied = copy == *value;
    drop(copy);
    let refusal = value.try_clone(alloc).err();
    Ok(
        is_copied
            && refusal == Some(CopyError::TooDeep)
            && is_same(&value, &value) == Err(TooDeep)
            && !nests_within(&value, MAX_DEPTH),
    )
}

#[test]
fn values_that_nest_as_deep_as_the_limit(rt: HostRuntime) -> Result<(), Fail> {
    let value = within_arrays(rt.alloc(), MAX_DEPTH)?;
    let are_equal = are_copies_equal(rt.alloc(), &value);
    drop(value);
    assert!(rt; are_equal?);
    Ok(())
}

#[test]
fn values_that_nest_deeper(rt: HostRuntime) -> Result<(), Fail> {
    let value = within_arrays(rt.alloc(), MAX_DEPTH + 1)?;
    let is_too_deep = is_too_deep(rt.alloc(), &value);
    drop(value);
    assert!(rt; is_too_deep?);
    Ok(())
}
