//! Pairs in place, under the names of their fields.

ghost use Rattle.std.specs.Prelude.{◌≡◌, ◌≢◌, ◌↔◌, ◌<◌, ◌++◌, [], IfNone, IfOk, IfSome, IsTrue, length, map, slice_get};
ghost use Rattle.std.specs.Cmp.Lexicographic.{slice_cmp};
ghost use Rattle.std.specs.List.{AllByRecursion};
ghost use Rattle.std.specs.List.Sorted.{IsNonDecreasingBy};
ghost use Rattle.std.specs.Ordering.{nat_cmp};
ghost use Rattle.std.specs.declared.cmp.Ordering.TheVariants.{Less};
ghost use Rattle.tv_json.specs.Named.{named_trees};
ghost use Rattle.tv_doc.specs.FieldValues.{pair_seen};
ghost use Rattle.tv_doc.specs.Named.{IsNamed, put_under};

use crate::named::FieldNames;
use std::alloc::{AllocError, Global};
use std::cmp::Ordering;
use std::collections::BTreeMap;
use tv_json::member_order::compare;
use tv_value::field::Field;
use tv_value::value::Value;

// Names, and the pairs whose values stand under each.
type NamedPairs<'s, 'p, V> = Vec<(&'s str, &'p [(Field, V)])>;

// This many names are kept in memory that is taken once.
const FIRST_NAMES: usize = 16;

// The field of the first pair, the pairs at the front that have it, and those after them. `None` where there is no pair.
#[inline(always)]
fn first_run<V>(pairs: &[(Field, V)]) -> Option<(Field, &[(Field, V)], &[(Field, V)])>
    ensures none { IfNone result (pairs.now ≡ []) }
    ensures joined { IfSome result (λ cut. cut.1.now ++ cut.2.now ≡ pairs.now) }
    ensures some { IfSome result (λ cut. cut.1.now ≢ []) }
    ensures one_field { IfSome result (λ cut. AllByRecursion (λ pair. pair.0.id ≡ cut.0.id) cut.1.now) }
    ensures shorter { IfSome result (λ cut. length cut.2.now < length pairs.now) }
{
    let (first, _) = pairs.first()?;
    let mut len = 1;
    'run: while len < pairs.len() && pairs[len].0 == *first {
        len += 1;
    }
    let (run, others) = pairs.split_at(len);
    Some((*first, run, others))
}

// Whether the name is above the last one, if there is one.
#[inline(always)]
fn is_above(name: &str, last: Option<&str>) -> bool
    ensures { IsTrue result
        ↔ IfSome last.entry (λ before. slice_cmp nat_cmp before.now name.now ≡ Less) }
{
    match last {
        Some(before) => compare(before, name) == Ordering::Less,
        None => true,
    }
}

// The pairs of each field in place, under the names of the fields, if the pairs stand so that each field has a name and the names rise.
// Else `None`. The only error is that memory was refused.
pub(crate) fn rising_by_name<'a, 's, 'p, S: FieldNames, V: Value<'a>>(
    alloc: Global,
    schema: &'s S,
    pairs: &'p [(Field, V)],
) -> Result<Option<NamedPairs<'s, 'p, V>>, AllocError>
    ensures { IfOk result
        (λ made. IfSome made
        (λ named. IsNamed (S.names schema.now) (map (pair_seen V.tree) pairs.now)
        (map (named_trees V.tree) named.items))) }
{
    let mut named = Vec::with_capacity(alloc, FIRST_NAMES)?;
    let mut last = None;
    let mut rest = pairs;
    'runs: while let Some((field, run, others)) = first_run(rest) {
        let Some(name) = schema.name_of(field) else {
            return Ok(None);
        };
        if !is_above(name, last) {
            return Ok(None);
        }
        named.push((name, run))?;
        last = Some(name);
        rest = others;
    }
    Ok(Some(named))
}

// Puts the pairs of a field under its name, if it has one.
fn put_named<'a, 's, 'p, S: FieldNames, V: Value<'a>>(
    mut named: BTreeMap<&'s str, &'p [(Field, V)]>,
    schema: &'s S,
    field: Field,
    pairs: &'p [(Field, V)],
) -> Result<BTreeMap<&'s str, &'p [(Field, V)]>, AllocError>
    ensures { IfOk result
        (λ made. map (named_trees V.tree) made.entries
        ≡ put_under (slice_get (S.names schema.now) field.id)
        (map (λ pair. V.tree pair.1) pairs.now)
        (map (named_trees V.tree) named.entry.entries)) }
{
    if let Some(name) = schema.name_of(field) {
        drop(named.insert(name, pairs)?);
    }
    Ok(named)
}

// The same as `by_name` answers, as a map.
fn map_by_name<'a, 's, 'p, S: FieldNames, V: Value<'a>>(
    alloc: Global,
    schema: &'s S,
    pairs: &'p [(Field, V)],
) -> Result<BTreeMap<&'s str, &'p [(Field, V)]>, AllocError>
    requires { IsNonDecreasingBy (λ pair. pair.0.id) pairs.now }
    ensures { IfOk result
        (λ named. IsNamed (S.names schema.now) (map (pair_seen V.tree) pairs.now)
        (map (named_trees V.tree) named.entries)) }
{
    let mut named = BTreeMap::new(alloc);
    let Some((first, _)) = pairs.first() else {
        return Ok(named);
    };
    let mut field = *first;
    let mut start = 0;
    for at in 1..pairs.len() {
        let next = pairs[at].0;
        if next != field {
            named = put_named(named, schema, field, &pairs[start..at])?;
            field = next;
            start = at;
        }
    }
    put_named(named, schema, field, &pairs[start..])
}

// The pairs of each field in place, under the names of the fields, in byte order of the names. Those of a field without a name are left
// out. The pairs are sorted by their fields. The only error is that memory was refused.
pub(crate) fn by_name<'a, 's, 'p, S: FieldNames, V: Value<'a>>(
    alloc: Global,
    schema: &'s S,
    pairs: &'p [(Field, V)],
) -> Result<NamedPairs<'s, 'p, V>, AllocError>
    requires { IsNonDecreasingBy (λ pair. pair.0.id) pairs.now }
    ensures { IfOk result
        (λ named. IsNamed (S.names schema.now) (map (pair_seen V.tree) pairs.now)
        (map (named_trees V.tree) named.items)) }
{
    let map = map_by_name(alloc, schema, pairs)?;
    let mut named = Vec::with_capacity(alloc, map.len())?;
    for entry in map {
        named.push(entry)?;
    }
    Ok(named)
}
