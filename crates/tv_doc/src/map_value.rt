//! A map, lent as an object: its entries in the order of the keys, each value in place.

ghost use Rattle.std.specs.Iterator.{YieldsFirstBy, item_count};
ghost use Rattle.tv_value.specs.Lent.{entry_of};

use std::collections::BTreeMap;
use std::collections::btree_map::Iter;
use tv_value::owned_value::{OwnedArrayIter, OwnedObjectIter, OwnedValue};
use tv_value::value::{ReferenceValue, Value};

/// A map, or a value in it.
#[derive(Clone, Copy)]
pub enum MapValue<'a> {
    Map(&'a BTreeMap<String, OwnedValue>),
    Owned(&'a OwnedValue),
}

/// The values of an array that are left, in order.
#[derive(Clone, Copy)]
pub struct MapArrayIter<'a> {
    items: OwnedArrayIter<'a>,
}

impl<'a> Iterator for MapArrayIter<'a> {
    ghost use Rattle.tv_doc.specs.MapValue.{map_value_tree, items_left};

    type Item = MapValue<'a>;

    ghost next_gives = { YieldsFirstBy map_value_tree items_left };

    ghost remaining = { item_count items_left };

    #[inline]
    fn next(&mut self) -> Option<MapValue<'a>> {
        Some(MapValue::Owned(self.items.next()?))
    }
}

/// The keys and values of a map, or of an object in it, that are left, in order.
#[derive(Drop)]
pub enum MapObjectIter<'a> {
    Map(Iter<'a, String, OwnedValue>),
    Owned(OwnedObjectIter<'a>),
}

impl<'a> Iterator for MapObjectIter<'a> {
    ghost use Rattle.tv_doc.specs.MapValue.{map_value_tree, members_left};

    type Item = (&'a str, MapValue<'a>);

    ghost next_gives = { YieldsFirstBy (entry_of map_value_tree) members_left };

    ghost remaining = { item_count members_left };

    #[inline]
    fn next(&mut self) -> Option<(&'a str, MapValue<'a>)> {
        match self {
            MapObjectIter::Map(entries) => {
                let (key, value) = entries.next()?;
                Some((key.as_str(), MapValue::Owned(value)))
            }
            MapObjectIter::Owned(members) => {
                let (key, value) = members.next()?;
                Some((key, MapValue::Owned(value)))
            }
        }
    }
}

impl<'a> Value<'a> for MapValue<'a> {
    ghost use Rattle.tv_doc.specs.MapValue.{map_value_tree, items_left, members_left};

    type ArrayIter = MapArrayIter<'a>;

    type ObjectIter = MapObjectIter<'a>;

    ghost tree = { map_value_tree };

    ghost array_rest = { items_left };

    ghost object_rest = { members_left };

    ghost array_walks = { λ s. (tt, tt) };

    ghost object_walks = { λ s. (tt, tt) };

    ghost array_steps = { λ s t r steps. steps };

    ghost object_steps = { λ s t r steps. steps };

    #[inline(always)]
    fn as_value(&self) -> ReferenceValue<'a, MapValue<'a>> {
        match *self {
            MapValue::Map(map) => ReferenceValue::Object(MapObjectIter::Map(map.iter())),
            MapValue::Owned(value) => match value.as_value() {
                ReferenceValue::Leaf(leaf) => ReferenceValue::Leaf(leaf),
                ReferenceValue::Array(items) => ReferenceValue::Array(MapArrayIter { items }),
                ReferenceValue::Object(members) => {
                    ReferenceValue::Object(MapObjectIter::Owned(members))
                }
            },
        }
    }
}
