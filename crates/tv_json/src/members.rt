//! The members of an object, in byte order of their keys.

ghost use Rattle.std.specs.Prelude.{◌≡◌, OnSome, IfSome, IsTrue};
ghost use Rattle.serde_json.specs.Data.{no_members, put};
ghost use Rattle.tv_json.specs.BorrowedData.{data_of, members_data};
ghost use Rattle.tv_json.specs.Found.{found_data};
ghost use Rattle.tv_json.specs.RisingMembers.{Rise, EndsBelow};

use crate::member_order::compare;
use crate::value::BorrowedJson;
use std::alloc::Global;
use std::cmp::Ordering;
use std::collections::BTreeMap;
use std::mem::replace;

// The members of an object in byte order of their keys, each key once.
pub(crate) type Members<'a> = Vec<(&'a str, BorrowedJson<'a>)>;

// The members of an object that is being read.
#[derive(Drop)]
pub(crate) enum FoundMembers<'a> {
    // While they are few, or their keys come in byte order.
    Listed(Members<'a>),
    // Any others: there are too many to move those above a key.
    Mapped(BTreeMap<&'a str, BorrowedJson<'a>>),
}

// A key that isn't above the last one is put into a list of fewer members than this, since those above it are moved.
const MOST_MOVED: usize = 128;

// The outermost object gets memory for this many members at once.
const FIRST_MEMBERS: usize = 16;

impl<'a> FoundMembers<'a> {
    // None so far. `None` where memory is refused.
    #[inline(always)]
    pub(crate) fn begin(alloc: Global, is_outermost: bool) -> Option<FoundMembers<'a>>
        ensures { IfSome result (λ found. found_data found ≡ no_members) }
    {
        if is_outermost {
            return Some(FoundMembers::Listed(Vec::with_capacity(alloc, FIRST_MEMBERS).ok()?));
        }
        Some(FoundMembers::Listed(Vec::new(alloc)))
    }

    // Puts a member where its key belongs, in place of the one that has the key already. `None` where memory is refused.
    #[inline(always)]
    pub(crate) fn put(&mut self, alloc: Global, key: &'a str, value: BorrowedJson<'a>) -> Option<()>
        requires { Rise (found_data self.old) }
        ensures { OnSome result
            (found_data self.new ≡ put key.now (data_of value.entry) (found_data self.old)) }
    {
        if let FoundMembers::Listed(list) = self {
            if is_above_last(list.as_slice(), key) {
                return list.push((key, value)).ok();
            }
            if list.len() < MOST_MOVED {
                return put_among(list, key, value);
            }
        }
        self.put_mapped(alloc, key, value)
    }

    // The same, into a map. It isn't inlined, so that a level of a nested value takes little stack.
    #[inline(never)]
    fn put_mapped(&mut self, alloc: Global, key: &'a str, value: BorrowedJson<'a>) -> Option<()>
        requires { Rise (found_data self.old) }
        ensures { OnSome result
            (found_data self.new ≡ put key.now (data_of value.entry) (found_data self.old)) }
    {
        match self {
            FoundMembers::Listed(list) => {
                let mut map = mapped(alloc, replace(list, Vec::new(alloc)))?;
                drop(map.insert(key, value).ok()?);
                *self = FoundMembers::Mapped(map);
            }
            FoundMembers::Mapped(map) => drop(map.insert(key, value).ok()?),
        }
        Some(())
    }

    // All of them. `None` where memory is refused.
    #[inline(always)]
    pub(crate) fn into_list(self, alloc: Global) -> Option<Members<'a>>
        ensures { IfSome result (λ list. members_data list.items ≡ found_data self.entry) }
    {
        match self {
            FoundMembers::Listed(list) => Some(list),
            FoundMembers::Mapped(map) => listed(alloc, map),
        }
    }
}

// The members of a map as a list.
#[inline(never)]
fn listed<'a>(alloc: Global, map: BTreeMap<&'a str, BorrowedJson<'a>>) -> Option<Members<'a>>
    ensures { IfSome result (λ list. list.items ≡ map.entry.entries) }
{
    let mut list = Vec::with_capacity(alloc, map.len()).ok()?;
    for member in map {
        list.push(member).ok()?;
    }
    Some(list)
}

// The members of a list as a map.
fn mapped<'a>(alloc: Global, list: Members<'a>) -> Option<BTreeMap<&'a str, BorrowedJson<'a>>>
    requires { Rise (members_data list.items) }
    ensures { IfSome result (λ map. members_data map.entries ≡ members_data list.entry.items) }
{
    let mut map = BTreeMap::new(alloc);
    for (key, value) in list {
        drop(map.insert(key, value).ok()?);
    }
    Some(map)
}

// Whether a key is above the last one, if there is one.
#[inline(always)]
fn is_above_last(members: &[(&str, BorrowedJson<'_>)], key: &str) -> bool
    ensures { IsTrue result → EndsBelow key.now members.now }
{
    match members.len() {
        0 => true,
        len => compare(key, members[len - 1].0) == Ordering::Greater,
    }
}

// Puts a member where its key belongs, in place of the one that has the key already, by a search that halves the places that are left. `None` where
// memory is refused.
#[inline(always)]
fn put_among<'a>(members: &mut Members<'a>, key: &'a str, value: BorrowedJson<'a>) -> Option<()>
    requires { Rise (members_data members.old.items) }
    ensures { OnSome result
        (members_data members.new.items
        ≡ put key.now (data_of value.entry) (members_data members.old.items)) }
{
    let mut low = 0;
    let mut high = members.len();
    'halves: while low < high {
        let middle = low + (high - low) / 2;
        match compare(key, members[middle].0) {
            Ordering::Less => high = middle,
            Ordering::Equal => {
                members[middle] = (key, value);
                return Some(());
            }
            Ordering::Greater => low = middle + 1,
        }
    }
    members.insert(low, (key, value)).ok()
}
