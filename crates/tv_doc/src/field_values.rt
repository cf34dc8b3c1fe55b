//! The pairs of a document, one after the other.

ghost use Rattle.std.specs.Prelude.{◌≡◌};
ghost use Rattle.std.specs.Iterator.{YieldsFirstBy, item_count};
ghost use Rattle.tv_builder.specs.Holds.{Holds, Holds-prop};

use tv_builder::heap_pairs::HeapPair;
use tv_heap::value::CompactDocValue;
use tv_value::field::Field;

/// The pairs of a document that are left: each once, in the order in which they were added.
#[derive(Clone, Copy)]
pub struct FieldValueIterRef<'a> {
    heap: &'a [u8],
    pairs: &'a [HeapPair],
    pub ghost held: { Holds heap.now pairs.now } by { Holds-prop heap.now pairs.now },
}

impl<'a> FieldValueIterRef<'a> {
    pub(crate) fn new(heap: &'a [u8], pairs: &'a [HeapPair]) -> FieldValueIterRef<'a>
        requires held { Holds heap.now pairs.now }
        ensures heap { result.heap.now ≡ heap.now }
        ensures pairs { result.pairs.now ≡ pairs.now }
    {
        FieldValueIterRef { heap, pairs }
    }
}

impl<'a> Iterator for FieldValueIterRef<'a> {
    type Item = (Field, CompactDocValue<'a>);

    ghost next_gives = { YieldsFirstBy (λ pair. (pair.0.id, pair.1.held.0)) (λ s. s.held.0) };

    ghost remaining = { item_count (λ s. s.held.0) };

    #[inline]
    fn next(&mut self) -> Option<(Field, CompactDocValue<'a>)> {
        let heap = self.heap;
        let (pair, pairs) = self.pairs.split_first()?;
        *self = FieldValueIterRef { heap, pairs };
        let field = Field::from_field_id(u32::from(pair.field));
        Some((
            field,
            CompactDocValue::new(heap, pair.place.value_type, pair.place.address),
        ))
    }
}

/// The values of one field of a document that are left: each once, in the order in which they were added.
#[derive(Clone, Copy)]
pub struct GetAllIter<'a> {
    pairs: FieldValueIterRef<'a>,
    field: Field,
}

impl<'a> GetAllIter<'a> {
    pub(crate) fn new(pairs: FieldValueIterRef<'a>, field: Field) -> GetAllIter<'a>
        ensures pairs { result.pairs ≡ pairs.entry }
        ensures field { result.field ≡ field }
    {
        GetAllIter { pairs, field }
    }
}

impl<'a> Iterator for GetAllIter<'a> {
    ghost use Rattle.tv_doc.specs.FieldValues.{values_left};

    type Item = CompactDocValue<'a>;

    ghost next_gives = { YieldsFirstBy (λ v. v.held.0) values_left };

    ghost remaining = { item_count (λ s. s.pairs.held.0) };

    #[inline]
    fn next(&mut self) -> Option<CompactDocValue<'a>> {
        let field = self.field;
        let mut pairs = self.pairs;
        while let Some((other, value)) = pairs.next() {
            if other == field {
                *self = GetAllIter { pairs, field };
                return Some(value);
            }
        }
        *self = GetAllIter { pairs, field };
        None
    }
}
