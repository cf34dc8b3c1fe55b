//! Whether a value nests within a limit, however deep it nests.

ghost use Rattle.std.specs.Prelude.{◌↔◌, IfOk, IsTrue};
ghost use Rattle.tv_doc.specs.Document.{document_of};
ghost use Rattle.tv_value.specs.Children.{ChildrenNestWithin, children_left};
ghost use Rattle.tv_value.specs.Nesting.{AllNestWithin, NestsWithin};

use std::alloc::{AllocError, Global};
use tv_doc::document::CompactDoc;
use tv_value::children::Children;
use tv_value::nested::{MAX_DEPTH, Nested, lend, nests_within};
use tv_value::value::Value;

// Whether each child that is left of a list nests within this many lists. The open lists stand on a stack in memory.
fn rest_within<N: Nested>(
    alloc: Global,
    outermost: Children<N>,
    depth: u32,
) -> Result<bool, AllocError>
    ensures { IfOk result (λ within. IsTrue within
        ↔ ChildrenNestWithin depth (children_left N.array_rest N.object_rest outermost)) }
{
    let most = depth as usize;
    let mut around = Vec::new(alloc);
    let mut list = outermost;
    'lists: loop {
        let Some((_, child)) = list.next() else {
            let Some(outer) = around.pop() else {
                return Ok(true);
            };
            list = outer;
            continue 'lists;
        };
        match child.as_nested().into_children() {
            Ok(inner) => {
                if around.len() == most {
                    return Ok(false);
                }
                around.push(list)?;
                list = inner;
            }
            Err(_) => continue 'lists,
        }
    }
}

// Whether no more than this many lists are open at once in a value. Where it nests deeper than `MAX_DEPTH` lists, those that are open stand on a stack in
// memory, so that no value exhausts the machine's stack. The only error is that memory was refused.
fn value_within<'a, V: Value<'a>>(alloc: Global, value: &V, depth: u32) -> Result<bool, AllocError>
    ensures { IfOk result (λ within. IsTrue within ↔ NestsWithin depth (V.tree value.now)) }
{
    if depth <= MAX_DEPTH {
        return Ok(nests_within(value, depth));
    }
    if nests_within(value, MAX_DEPTH) {
        return Ok(true);
    }
    match lend(value).into_children() {
        Ok(children) => rest_within(alloc, children, depth - 1),
        Err(_) => Ok(true),
    }
}

// The same of each value of a document.
pub(crate) fn document_within(
    alloc: Global,
    document: &CompactDoc,
    depth: u32,
) -> Result<bool, AllocError>
    ensures { IfOk result
        (λ within. IsTrue within ↔ AllNestWithin depth (document_of document.now)) }
{
    for (_, value) in document.field_values() {
        if !value_within(alloc, &value, depth)? {
            return Ok(false);
        }
    }
    Ok(true)
}
