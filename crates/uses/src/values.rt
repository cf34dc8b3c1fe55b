//! A recursion over values of any kind.

use tantivy_schema::schema::Value;
use tantivy_schema::schema::document::{Nested, NestedValue, lend};

/// How many values without children a value has, itself or below it.
pub fn leaves<'a, V: Value<'a>>(value: &V) -> u64 {
    leaves_of(lend(value))
}

#[cycle(leaves)]
fn leaves_of<N: Nested>(value: NestedValue<'_, N>) -> u64 {
    match value {
        NestedValue::Leaf(_) => 1,
        NestedValue::Array(items) => leaves_of_items::<N>(items),
        NestedValue::Object(members) => leaves_of_members::<N>(members),
    }
}

#[cycle(leaves)]
fn leaves_of_items<N: Nested>(items: N::ArrayIter) -> u64 {
    let mut count: u64 = 0;
    for item in items {
        count = count.saturating_add(leaves_of(item.as_nested()));
    }
    count
}

#[cycle(leaves)]
fn leaves_of_members<N: Nested>(members: N::ObjectIter) -> u64 {
    let mut count: u64 = 0;
    for (_, item) in members {
        count = count.saturating_add(leaves_of(item.as_nested()));
    }
    count
}
