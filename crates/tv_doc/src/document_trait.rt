//! Documents of any kind: pairs of a field and a value.

ghost use Rattle.std.specs.Prelude.{◌≡◌, ◌↔◌, Option, IfOk, IsTrue, OnErr, OnOk, map, string_bytes};
ghost use Rattle.std.specs.Iterator.{IsFinite, YieldsFirstBy};
ghost use Rattle.tv_value.specs.declared.field.Field.{Field};
ghost use Rattle.tv_format.specs.Tree.{Document as Pairs};
ghost use Rattle.tv_doc.specs.Grouped.{IsGrouped, group_seen};
ghost use Rattle.tv_doc.specs.Named.{AddsJsonText, CopiesByName, IsJsonText, NamedNestWithin};
ghost use Rattle.tv_doc.specs.FieldValues.{pair_seen};

use crate::grouped::{grouped, sort_pairs};
use crate::lent_names::{by_name, rising_by_name};
use crate::named::{FieldNames, NamedFieldDocument, owned_by_name};
use std::alloc::{AllocError, Global};
use tv_json::named::push_named_json;
use tv_value::copy::CopyError;
use tv_value::field::Field;
use tv_value::nested::{MAX_DEPTH, nests_within};
use tv_value::value::Value;

// This many pairs are gathered in memory that is taken once.
const FIRST_PAIRS: usize = 16;

// The first room of a text.
const FIRST_BYTES: usize = 256;

// The pairs of a document.
fn gathered<'a, D: Document<'a>>(
    alloc: Global,
    document: &'a D,
) -> Result<Vec<(Field, D::Value)>, AllocError>
    ensures { IfOk result
        (λ gathered. map (pair_seen D.Value.tree) gathered.items ≡ D.pairs document.now) }
{
    let mut pairs = Vec::with_capacity(alloc, FIRST_PAIRS)?;
    for pair in document.iter_fields_and_values() {
        pairs.push(pair)?;
    }
    Ok(pairs)
}

// Whether each value of a field that has a name nests within this many lists.
fn named_nest_within<'a, D: Document<'a>, S: FieldNames>(
    document: &'a D,
    schema: &S,
    depth: u32,
) -> bool
    ensures { IsTrue result
        ↔ NamedNestWithin (S.names schema.now) depth (D.pairs document.now) }
{
    for (field, value) in document.iter_fields_and_values() {
        if schema.name_of(field).is_some() && !nests_within(&value, depth) {
            return false;
        }
    }
    true
}

/// A document: pairs of a field and a value, in order.
///
/// An implementation gives `iter_fields_and_values`, and says which pairs its documents have (`pairs`) and which its iterators have
/// left (`pairs_rest`). Its iterators give the pairs in order, each once, and end. The calls with a body are final.
pub trait Document<'a> {
    /// The values.
    type Value: Value<'a>;

    /// The fields and their values.
    type FieldsValuesIter: Iterator<Item = (Field, Self::Value)>;

    ghost pairs: { Self → Pairs };

    ghost pairs_rest: { Self.FieldsValuesIter → Pairs };

    /// The fields and their values, in order.
    fn iter_fields_and_values(&'a self) -> Self::FieldsValuesIter
        ensures { pairs_rest result ≡ pairs self.now };

    ghost pairs_walk: { (s : Self.FieldsValuesIter)
        → Self.FieldsValuesIter.can_next s × IsFinite (Self.FieldsValuesIter.remaining s) };

    ghost pairs_steps: { (s t : Self.FieldsValuesIter) (r : Option (Field × Self.Value))
        → Self.FieldsValuesIter.next_gives s r t
        → YieldsFirstBy (pair_seen Self.Value.tree) pairs_rest s r t };

    /// The fields that have a value, rising, each once and with its values in order. The only error is that memory was refused.
    final fn get_sorted_field_values(
        &'a self,
        alloc: Global,
    ) -> Result<Vec<(Field, Vec<Self::Value>)>, AllocError>
        ensures { IfOk result
            (λ groups. IsGrouped (pairs self.now) (map (group_seen Self.Value.tree) groups.items)) }
    {
        grouped(alloc, gathered(alloc, self)?)
    }

    /// Copies of the values under the names of their fields: for each field of the schema that has a value its values in order. Those
    /// of a field that the schema doesn't have are left out. Errors: `TooDeep` exactly where one of the others nests deeper than
    /// `MAX_DEPTH` lists, before anything is made, else `Memory` where memory was refused.
    final fn to_named_doc<S: FieldNames>(
        &'a self,
        alloc: Global,
        schema: &S,
    ) -> Result<NamedFieldDocument, CopyError>
        ensures { CopiesByName (S.names schema.now) (pairs self.now) MAX_DEPTH result }
    {
        self.to_named_doc_within(alloc, schema, MAX_DEPTH)
    }

    /// The same of values that nest within `depth` lists. (Not in tantivy.) Errors: `TooDeep` exactly where a value of a field that the
    /// schema has nests deeper, before anything is made, else `Memory` where memory was refused.
    final fn to_named_doc_within<S: FieldNames>(
        &'a self,
        alloc: Global,
        schema: &S,
        depth: u32,
    ) -> Result<NamedFieldDocument, CopyError>
        ensures { CopiesByName (S.names schema.now) (pairs self.now) depth result }
    {
        if !named_nest_within(self, schema, depth) {
            return Err(CopyError::TooDeep);
        }
        let groups = self.get_sorted_field_values(alloc)?;
        let named = owned_by_name(alloc, schema, groups)?;
        Ok(named)
    }

    /// The document as a text of JSON, without spaces: an object of the names of the fields that have a value, in byte order, and the
    /// arrays of their values. Those of a field that the schema doesn't have are left out. The only error is that memory was refused.
    final fn to_json<S: FieldNames>(
        &'a self,
        alloc: Global,
        schema: &S,
    ) -> Result<String, AllocError>
        ensures { IfOk result
            (λ text. IsJsonText (S.names schema.now) (pairs self.now) (string_bytes text)) }
    {
        let mut text = String::with_capacity(alloc, FIRST_BYTES)?;
        self.push_json(alloc, schema, &mut text)?;
        Ok(text)
    }

    /// Adds the text of JSON that `to_json` gives to a text, so that the same memory serves for many documents. (Not in tantivy.) The only
    /// error is that memory was refused, and then the text is as it was.
    final fn push_json<S: FieldNames>(
        &'a self,
        alloc: Global,
        schema: &S,
        text: &mut String,
    ) -> Result<(), AllocError>
        ensures added { OnOk result
            (AddsJsonText (S.names schema.now) (pairs self.now) (string_bytes text.old)
            (string_bytes text.new)) }
        ensures unchanged { OnErr result (string_bytes text.new ≡ string_bytes text.old) }
    {
        let mut pairs = gathered(alloc, self)?;
        if let Some(named) = rising_by_name(alloc, schema, pairs.as_slice())? {
            return push_named_json(alloc, text, named.as_slice());
        }
        sort_pairs(&mut pairs)?;
        let named = by_name(alloc, schema, pairs.as_slice())?;
        push_named_json(alloc, text, named.as_slice())
    }
}
