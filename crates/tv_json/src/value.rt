//! JSON values that borrow their texts, and copies of them.

ghost use Rattle.std.specs.Prelude.{◌≡◌, ◌↔◌, IsTrue, IfSome, OnSome};
ghost use Rattle.std.specs.Cmp.Lexicographic.{slice_cmp};
ghost use Rattle.std.specs.Ordering.{nat_cmp};
ghost use Rattle.std.specs.declared.cmp.Ordering.TheVariants.{Less};
ghost use Rattle.serde_json.specs.Data.{array, object, put, string};
ghost use Rattle.serde_json.specs.View.{view, members_view};
ghost use Rattle.serde_json.specs.Written.{has_float, items_have_float, members_have_float};
ghost use Rattle.tv_json.specs.BorrowedData.{data_of, items_data, members_data};

use crate::member_order::compare;
use serde_json::{Map, Number, Value};
use std::alloc::Global;
use std::cmp::Ordering;

/// A JSON value whose texts and keys stand in the text that it was read from, or in the scratch memory of its reading where an escape had
/// to be replaced. (Not in tantivy.)
#[derive(Drop)]
pub enum BorrowedJson<'a> {
    /// `null`.
    Null,
    /// A truth value.
    Bool(bool),
    /// A whole number from 0 to 2^64 - 1.
    Unsigned(u64),
    /// A whole number below 0, from -2^63 on.
    Negative(i64),
    /// Any other number, as the nearest float: one with a point or an exponent, one that doesn't fit these, and `-0`. What is read is finite.
    Float(f64),
    /// A text.
    String(&'a str),
    /// An array's items.
    Array(Vec<BorrowedJson<'a>>),
    /// An object's members, in byte order of their keys, each key once.
    Object(Vec<(&'a str, BorrowedJson<'a>)>),
}

impl BorrowedJson<'_> {
    /// The JSON library's value that is the same, with copies of its texts. (Not in tantivy.) `None` where memory is refused; and of what wasn't read from a
    /// text, where the keys of an object don't rise, a negative number isn't negative or a float isn't finite.
    #[cycle(copies)]
    pub fn to_value(&self, alloc: Global) -> Option<Value>
        ensures { IfSome result (λ made. view made ≡ data_of self.now) }
    {
        match self {
            BorrowedJson::Null => Some(Value::Null),
            BorrowedJson::Bool(truth) => Some(Value::Bool(*truth)),
            BorrowedJson::Unsigned(number) => Some(Value::from(*number)),
            BorrowedJson::Negative(number) => {
                if *number < 0 {
                    Some(Value::from(*number))
                } else {
                    None
                }
            }
            BorrowedJson::Float(number) => Some(Value::Number(Number::from_f64(*number)?)),
            BorrowedJson::String(text) => copied_text(text, alloc),
            BorrowedJson::Array(items) => copied_items(items.as_slice(), alloc),
            BorrowedJson::Object(members) => copied_members(members.as_slice(), alloc),
        }
    }

    /// Whether it is a float or has one within. (Not in tantivy.)
    #[cycle(floats)]
    pub fn has_float(&self) -> bool
        ensures { result ≡ has_float (data_of self.now) }
    {
        match self {
            BorrowedJson::Float(_) => true,
            BorrowedJson::Array(items) => is_float_among_items(items.as_slice()),
            BorrowedJson::Object(members) => is_float_among_members(members.as_slice()),
            _ => false,
        }
    }
}

// Whether an item has a float.
#[inline(never)]
#[cycle(floats)]
fn is_float_among_items(items: &[BorrowedJson<'_>]) -> bool
    ensures { result ≡ items_have_float (items_data items.now) }
{
    for item in items {
        if item.has_float() {
            return true;
        }
    }
    false
}

// Whether a member's value has a float.
#[inline(never)]
#[cycle(floats)]
fn is_float_among_members(members: &[(&str, BorrowedJson<'_>)]) -> bool
    ensures { result ≡ members_have_float (members_data members.now) }
{
    for (_, member) in members {
        if member.has_float() {
            return true;
        }
    }
    false
}

// A copy of a text.
#[inline(always)]
fn copied_text(text: &str, alloc: Global) -> Option<Value>
    ensures { IfSome result (λ made. view made ≡ string text.now) }
{
    Some(Value::String(String::from_str(alloc, text).ok()?))
}

// An array of copies of the items.
#[inline(never)]
#[cycle(copies)]
fn copied_items(items: &[BorrowedJson<'_>], alloc: Global) -> Option<Value>
    ensures { IfSome result (λ made. view made ≡ array (items_data items.now)) }
{
    let mut made = Vec::new(alloc);
    for item in items {
        made.push(item.to_value(alloc)?).ok()?;
    }
    Some(Value::Array(made))
}

// An object with copies of the members, if their keys rise.
#[inline(never)]
#[cycle(copies)]
fn copied_members(members: &[(&str, BorrowedJson<'_>)], alloc: Global) -> Option<Value>
    ensures { IfSome result (λ made. view made ≡ object (members_data members.now)) }
{
    let mut made = Map::new(alloc);
    let mut last = None;
    for (key, member) in members {
        if !is_above(key, last) {
            return None;
        }
        let value = member.to_value(alloc)?;
        insert_copy(&mut made, key, value, alloc)?;
        last = Some(*key);
    }
    Some(Value::Object(made))
}

// Whether the key is above the last one, if there is one.
#[inline(always)]
fn is_above(key: &str, last: Option<&str>) -> bool
    ensures { IsTrue result
        ↔ IfSome last.entry (λ before. slice_cmp nat_cmp before.now key.now ≡ Less) }
{
    match last {
        Some(before) => compare(before, key) == Ordering::Less,
        None => true,
    }
}

// Puts a value under a copy of its key.
#[inline(always)]
fn insert_copy(made: &mut Map<String, Value>, key: &str, value: Value, alloc: Global) -> Option<()>
    ensures { OnSome result
        (members_view made.new.entries ≡ put key.now (view value) (members_view made.old.entries)) }
{
    let name = String::from_str(alloc, key).ok()?;
    drop(made.insert(name, value).ok()?);
    Some(())
}
