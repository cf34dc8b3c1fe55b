//! Values of any depth as texts of JSON, by a loop: the lists that are open stand on a stack.

ghost use Rattle.std.specs.Prelude.{◌≡◌, ◌∷◌, ◌++◌, OnOk, IfOk};
ghost use Rattle.json.specs.Token as Token;
ghost use Rattle.tv_value.specs.JsonOf.{json_of};
ghost use Rattle.tv_json.specs.Open.{rest_left, children_tokens, list_left, open_left, LeavesToWrite, TakesNext};
ghost use Rattle.tv_json.specs.Rising.{data_tokens};
ghost use Rattle.tv_format.specs.Tree.{object, entries};

use crate::member_order::{by_key, is_in_order};
use crate::write::{JsonWriter, write_leaf};
use std::alloc::{AllocError, Global};
use std::collections::btree_map::IntoIter;
use std::convert::AsStr;
use tv_value::children::Children;
use tv_value::nested::{Nested, NestedValue};

// The children that a list has left.
#[derive(Drop)]
enum Rest<N: Nested> {
    // As they come, those of an object each with a key below the next.
    InOrder(Children<N>),
    // The members of an object by byte order of their keys, of equal keys the last.
    ByKey(Box<IntoIter<String, N>>),
}

// A list of which the opening bracket is written.
#[derive(Drop)]
struct OpenList<N: Nested> {
    rest: Rest<N>,
    is_object: bool,
}

// The members of an object in the order in which they are written: as they come, if their keys are in order.
fn ordered<N: Nested>(
    alloc: Global,
    value: &N,
    members: N::ObjectIter,
) -> Result<Rest<N>, AllocError>
    requires { object (entries (N.object_rest members)) ≡ N.tree value.now }
    ensures { IfOk result (λ rest. Token.begin_object
        ∷ children_tokens Token.end_object (rest_left N.tree N.array_rest N.object_rest rest)
        ≡ data_tokens (json_of (N.tree value.now))) }
{
    if is_in_order(value.as_nested()) {
        return Ok(Rest::InOrder(Children::Object(members)));
    }
    let sorted = by_key::<N>(alloc, members)?;
    let pairs = Box::new(alloc, sorted.into_iter())?;
    Ok(Rest::ByKey(pairs))
}

// Writes a leaf, or the opening bracket of a list.
fn begin<N: Nested>(
    json: &mut JsonWriter,
    lists: &mut Vec<OpenList<N>>,
    value: &N,
) -> Result<(), AllocError>
    ensures ok { OnOk result (LeavesToWrite json.old.out.tokens json.new.out.tokens
        (data_tokens (json_of (N.tree value.now))
        ++ open_left (list_left N.tree N.array_rest N.object_rest) lists.old.items)
        (open_left (list_left N.tree N.array_rest N.object_rest) lists.new.items)) }
    ensures before { json.new.out.before ≡ json.old.out.before }
{
    match value.as_nested() {
        NestedValue::Leaf(leaf) => write_leaf(json, &leaf),
        NestedValue::Array(items) => {
            json.out.begin_array()?;
            lists.push(OpenList {
                rest: Rest::InOrder(Children::Array(items)),
                is_object: false,
            })?;
            Ok(())
        }
        NestedValue::Object(members) => {
            let rest = ordered(json.alloc, value, members)?;
            json.out.begin_object()?;
            lists.push(OpenList {
                rest,
                is_object: true,
            })?;
            Ok(())
        }
    }
}

// Takes the next child of a list, and writes its key if it has one.
fn next_child<N: Nested>(json: &mut JsonWriter, rest: &mut Rest<N>) -> Result<Option<N>, AllocError>
    ensures ok { IfOk result (TakesNext N.tree json.old.out.tokens json.new.out.tokens
        (rest_left N.tree N.array_rest N.object_rest rest.old)
        (rest_left N.tree N.array_rest N.object_rest rest.new)) }
    ensures before { json.new.out.before ≡ json.old.out.before }
{
    match rest {
        Rest::InOrder(children) => {
            let Some((key, child)) = children.next() else {
                return Ok(None);
            };
            let Some(key) = key else {
                return Ok(Some(child));
            };
            json.out.key(key.as_str())?;
            Ok(Some(child))
        }
        Rest::ByKey(pairs) => {
            let Some((key, child)) = pairs.next() else {
                return Ok(None);
            };
            json.out.key(key.as_str())?;
            Ok(Some(child))
        }
    }
}

// Writes the next child of a list with its key, or the closing bracket if there is none. The list stays open with what is left of it.
fn write_next<N: Nested>(
    json: &mut JsonWriter,
    lists: &mut Vec<OpenList<N>>,
    list: OpenList<N>,
) -> Result<(), AllocError>
    ensures ok { OnOk result (LeavesToWrite json.old.out.tokens json.new.out.tokens
        (list_left N.tree N.array_rest N.object_rest list
        ++ open_left (list_left N.tree N.array_rest N.object_rest) lists.old.items)
        (open_left (list_left N.tree N.array_rest N.object_rest) lists.new.items)) }
    ensures before { json.new.out.before ≡ json.old.out.before }
{
    let OpenList {
        mut rest,
        is_object,
    } = list;
    if let Some(child) = next_child(json, &mut rest)? {
        lists.push(OpenList { rest, is_object })?;
        return begin(json, lists, &child);
    }
    if is_object {
        return json.out.end_object();
    }
    json.out.end_array()
}

// Writes a value, however deep its lists nest.
#[inline(never)]
pub(crate) fn write_deep<N: Nested>(json: &mut JsonWriter, value: &N) -> Result<(), AllocError>
    ensures ok { OnOk result
        (json.new.out.tokens ≡ json.old.out.tokens ++ data_tokens (json_of (N.tree value.now))) }
    ensures before { json.new.out.before ≡ json.old.out.before }
{
    let mut lists = Vec::new(json.alloc);
    begin(json, &mut lists, value)?;
    while let Some(list) = lists.pop() {
        write_next(json, &mut lists, list)?;
    }
    Ok(())
}
