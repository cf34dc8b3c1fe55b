//! How deep the values of documents nest.

use std::alloc::{AllocError, Global};
use tantivy_schema::schema::Document;
use tantivy_schema::schema::document::{MAX_DEPTH, Nested, NestedValue, lend, nests_within};

// How many lists are open at once in a value. Those that are open stand on a stack in memory.
fn nested_depth<N: Nested>(alloc: Global, value: NestedValue<'_, N>) -> Result<u64, AllocError> {
    let Ok(outermost) = value.into_children() else {
        return Ok(0);
    };
    let mut list = outermost;
    let mut around = Vec::new(alloc);
    let mut deepest: u64 = 1;
    for _ in 0..u64::MAX {
        let Some((_, child)) = list.next() else {
            let Some(outer) = around.pop() else {
                break;
            };
            list = outer;
            continue;
        };
        match child.as_nested().into_children() {
            Ok(inner) => {
                around.push(list)?;
                list = inner;
                deepest = deepest.max((around.len() as u64).saturating_add(1));
            }
            Err(_) => continue,
        }
    }
    Ok(deepest)
}

/// The number of lists and objects around the innermost value of a document, or `deepest` where that is greater.
pub(crate) fn deepest_of<'a, D: Document<'a>>(
    alloc: Global,
    document: &'a D,
    deepest: u64,
) -> Result<u64, AllocError> {
    let mut deepest = deepest;
    for (_, value) in document.iter_fields_and_values() {
        let most = u32::try_from(deepest).unwrap_or(u32::MAX).min(MAX_DEPTH);
        if !nests_within(&value, most) {
            deepest = deepest.max(nested_depth(alloc, lend(&value))?);
        }
    }
    Ok(deepest)
}
