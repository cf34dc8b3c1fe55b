//! Documents: pairs of a field and a value, the values in one heap.

ghost use Rattle.std.specs.Prelude.{◌≡◌, [], ◌↔◌, IsTrue, IfOk, option_map, length, map, slice_get};
ghost use Rattle.std.specs.Net.Addr.{ipv6_bits};
ghost use Rattle.std.specs.String.{string_bytes};
ghost use Rattle.tv_value.specs.HeldTokens.{token_of};
ghost use Rattle.tv_format.specs.Tree.{text, unsigned, signed, boolean, date, facet, bytes as bytes_leaf, ip_address, tokenized};
ghost use Rattle.tv_value.specs.Lent.{leaf_of};
ghost use Rattle.tv_doc.specs.Document.{document_of};
ghost use Rattle.tv_doc.specs.SameTexts.{HasAll, IsSameSet, SameTexts, field_texts, texts_seen};

use crate::document_trait::Document;
use crate::field_values::{FieldValueIterRef, GetAllIter};
use crate::map_value::MapValue;
use std::alloc::{AllocError, Global};
use std::collections::{BTreeMap, BTreeSet};
use std::net::Ipv6Addr;
use tv_base::Facet;
use tv_builder::errors::AddError;
use tv_builder::heap_pairs::HeapPairs;
use tv_date::date_time::DateTime;
use tv_format::WriteVersion;
use tv_heap::value::CompactDocValue;
use tv_json::compact::push_json;
use tv_schema::Schema;
use tv_value::field::Field;
use tv_value::leaf::ReferenceValueLeaf;
use tv_value::owned_value::OwnedValue;
use tv_value::pre_tokenized::PreTokenizedStr;
use tv_value::tokenizer::PreTokenizedString;
use tv_value::value::Value;

/// Pairs of a field and a value, in order. The values stand in one heap of bytes, in which each addition is kept apart.
///
/// ```
/// pub fn added(alloc: Global, schema: &Schema) -> Result<TantivyDocument> {
///     let mut document = TantivyDocument::new(alloc);
///     document.add_text(schema.get_field("name")?, "Ada")?;
///     document.add_u64(schema.get_field("age")?, 36)?;
///     let group = Facet::from_text(alloc, "/staff/research")?;
///     document.add_facet(schema.get_field("group")?, &group)?;
///     Ok(document)
/// }
/// ```
#[derive(Debug)]
pub struct CompactDoc {
    pub(crate) values: HeapPairs,
}

// By hand, so that a document is dropped by one call.
impl Drop for CompactDoc {
    fn drop(self) {
        let CompactDoc { values: _ } = self;
    }
}

impl CompactDoc {
    ghost use Rattle.tv_doc.specs.Belongs.{Belongs};
    ghost use Rattle.tv_doc.specs.Document.{document_of, heap_of, places_of, Adds, AddsLeaf, Clears, IsEmptyWith, IsUnchanged, KeepsMemory, ReadsAt, Shrinks};
    ghost use Rattle.tv_doc.specs.MapValue.{map_tree};
    ghost use Rattle.tv_heap.specs.Value.{tree_of};
    ghost use Rattle.tv_doc.specs.FieldValues.{pairs_left, values_left, values_of};

    /// A document without pairs, which takes no memory.
    pub fn new(alloc: Global) -> CompactDoc
        ensures { IsEmptyWith 0 0 result }
    {
        CompactDoc {
            values: HeapPairs::new(alloc),
        }
    }

    /// A document without pairs, with memory for this many bytes of values. The only error is that memory was refused.
    pub fn with_capacity(alloc: Global, bytes: usize) -> Result<CompactDoc, AllocError>
        ensures { IfOk result (λ made. IsEmptyWith 0 bytes made) }
    {
        let values = HeapPairs::with_capacity(alloc, bytes)?;
        Ok(CompactDoc { values })
    }

    /// The document of these pairs. (Not in tantivy.)
    pub fn from_pairs(values: HeapPairs) -> CompactDoc
        ensures { result.values ≡ values }
    {
        CompactDoc { values }
    }

    /// Its pairs, and their heap. (Not in tantivy.)
    pub fn into_pairs(self) -> HeapPairs
        ensures { result ≡ self.values }
    {
        let CompactDoc { values } = self;
        values
    }

    /// Takes all pairs off, and keeps the memory for more. (Not in tantivy.)
    pub fn clear(&mut self)
        ensures { Clears self.old self.new }
    {
        self.values.clear();
    }

    /// A copy: the same pairs, and their values at the same places of the same heap. The only error is that memory was
    /// refused.
    pub fn try_clone(&self) -> Result<CompactDoc, AllocError>
        ensures { IfOk result (λ copy. IsUnchanged self.now copy) }
    {
        let values = self.values.try_clone()?;
        Ok(CompactDoc { values })
    }

    /// Gives memory back that neither the values nor the pairs need, as far as the allocator takes it; where there is no value or no pair,
    /// all of what was for them. The document stays the same.
    pub fn shrink_to_fit(&mut self)
        ensures { Shrinks self.old self.new }
    {
        self.values.shrink_to_fit();
    }

    /// The number of pairs.
    pub fn len(&self) -> usize
        ensures { result ≡ length (document_of self.now) }
    {
        self.values.pairs.len()
    }

    /// Whether it has no pairs.
    pub fn is_empty(&self) -> bool
        ensures { IsTrue result ↔ (document_of self.now ≡ []) }
    {
        self.values.pairs.is_empty()
    }

    /// The allocator from which its memory is taken. (Not in tantivy.)
    pub fn allocator(&self) -> Global
        ensures { result ≡ self.now.values.pairs.alloc }
    {
        *self.values.pairs.allocator()
    }

    /// The bytes of the heap, in which all values stand.
    pub fn node_data(&self) -> &[u8]
        ensures { result.now ≡ heap_of self.now }
    {
        self.values.heap.as_slice()
    }

    /// The type byte and the address of the value of pair `i`, counted from 0; past the last pair, `None`.
    pub fn addr_of(&self, i: usize) -> Option<(u8, u32)>
        ensures place { result ≡ slice_get (places_of self.now) i }
        ensures reads { ReadsAt self.now i result }
    {
        let pair = self.values.pairs.get(i)?;
        Some((pair.place.value_type.to_code(), pair.place.address))
    }

    /// Adds a pair of a field and a text.
    ///
    /// `HeapFull` where the heap's length and the text's room, 5 bytes and its length, are together above 4294967295; else
    /// `Memory` where memory is refused. After each of these the pairs and the heap are unchanged, and after `HeapFull` the heap has memory for at
    /// most 1 MiB more.
    pub fn add_text(&mut self, field: Field, content: &str) -> Result<(), AddError>
        ensures adds { AddsLeaf self.old self.new field.id (text content.now) result }
        ensures memory { KeepsMemory self.old self.new result }
    {
        self.add_leaf(field, &ReferenceValueLeaf::Str(content))
    }

    /// Adds a pair of a field and an unsigned number, whose room is 8 bytes. The errors are those of `add_text`.
    pub fn add_u64(&mut self, field: Field, number: u64) -> Result<(), AddError>
        ensures adds { AddsLeaf self.old self.new field.id (unsigned number) result }
        ensures memory { KeepsMemory self.old self.new result }
    {
        self.add_leaf(field, &ReferenceValueLeaf::U64(number))
    }

    /// Adds a pair of a field and a signed number, whose room is 8 bytes. The errors are those of `add_text`.
    pub fn add_i64(&mut self, field: Field, number: i64) -> Result<(), AddError>
        ensures adds { AddsLeaf self.old self.new field.id (signed number) result }
        ensures memory { KeepsMemory self.old self.new result }
    {
        self.add_leaf(field, &ReferenceValueLeaf::I64(number))
    }

    /// Adds a pair of a field and a truth value, which takes no room. The errors are those of `add_text`.
    pub fn add_bool(&mut self, field: Field, truth: bool) -> Result<(), AddError>
        ensures adds { AddsLeaf self.old self.new field.id (boolean truth) result }
        ensures memory { KeepsMemory self.old self.new result }
    {
        self.add_leaf(field, &ReferenceValueLeaf::Bool(truth))
    }

    /// Adds a pair of a field and a date, whose room is 8 bytes. The errors are those of `add_text`.
    pub fn add_date(&mut self, field: Field, moment: DateTime) -> Result<(), AddError>
        ensures adds { AddsLeaf self.old self.new field.id (date moment.nanoseconds) result }
        ensures memory { KeepsMemory self.old self.new result }
    {
        self.add_leaf(field, &ReferenceValueLeaf::Date(moment))
    }

    /// Adds a pair of a field and a facet, whose room is 5 bytes and the length of its encoded text. The errors are those of
    /// `add_text`.
    pub fn add_facet(&mut self, field: Field, path: &Facet) -> Result<(), AddError>
        ensures adds { AddsLeaf self.old self.new field.id (facet path.now) result }
        ensures memory { KeepsMemory self.old self.new result }
    {
        self.add_leaf(field, &ReferenceValueLeaf::Facet(path.encoded_str()))
    }

    /// Adds a pair of a field and bytes, whose room is 5 bytes and their length. The errors are those of `add_text`.
    pub fn add_bytes(&mut self, field: Field, content: &[u8]) -> Result<(), AddError>
        ensures adds { AddsLeaf self.old self.new field.id (bytes_leaf content.now) result }
        ensures memory { KeepsMemory self.old self.new result }
    {
        self.add_leaf(field, &ReferenceValueLeaf::Bytes(content))
    }

    /// Adds a pair of a field and an IP address, whose room is 16 bytes. The errors are those of `add_text`.
    pub fn add_ip_addr(&mut self, field: Field, address: Ipv6Addr) -> Result<(), AddError>
        ensures adds { AddsLeaf self.old self.new field.id (ip_address (ipv6_bits address)) result }
        ensures memory { KeepsMemory self.old self.new result }
    {
        self.add_leaf(field, &ReferenceValueLeaf::IpAddr(address))
    }

    /// Adds a pair of a field and a text with its tokens. The room is 15 bytes and the text's length, and for each token 50
    /// and the length of its text. The errors are those of `add_text`.
    pub fn add_pre_tokenized_text(
        &mut self,
        field: Field,
        content: &PreTokenizedString,
    ) -> Result<(), AddError>
        ensures adds { AddsLeaf self.old self.new field.id
            (tokenized (string_bytes content.now.text) (map token_of content.now.tokens.items))
            result }
        ensures memory { KeepsMemory self.old self.new result }
    {
        let content = PreTokenizedStr::from_string(content);
        self.add_leaf(field, &ReferenceValueLeaf::PreTokStr(content))
    }

    /// Adds a pair of a field and a value of any kind. The errors are those of `add_text`, where the room of an array is 5
    /// bytes, and for each value in it 6 and its room; that of an object 5 bytes, and for each key 17, its length and the room
    /// of its value; and that of any other value as in `add_leaf_field_value`.
    pub fn add_field_value<'a, V: Value<'a>>(
        &mut self,
        field: Field,
        value: &V,
    ) -> Result<(), AddError>
        ensures adds { Adds self.old self.new field.id (V.tree value.now) result }
        ensures memory { KeepsMemory self.old self.new result }
    {
        self.values.add_value(field.field_id(), value)
    }

    /// Adds a pair of a field and an object: the entries of a map, in byte order of the keys. The errors are those of
    /// `add_field_value`.
    pub fn add_object(
        &mut self,
        field: Field,
        members: &BTreeMap<String, OwnedValue>,
    ) -> Result<(), AddError>
        ensures adds { Adds self.old self.new field.id (map_tree members.now) result }
        ensures memory { KeepsMemory self.old self.new result }
    {
        self.add_field_value(field, &MapValue::Map(members))
    }

    /// The fields and their values, in the order in which they were added.
    pub fn field_values(&self) -> FieldValueIterRef<'_>
        ensures { pairs_left result ≡ document_of self.now }
    {
        FieldValueIterRef::new(self.values.heap.as_slice(), self.values.pairs.as_slice())
    }

    /// The values of a field, in the order in which they were added.
    ///
    /// ```
    /// pub fn texts(alloc: Global, document: &TantivyDocument, field: Field) -> Result<Vec<String>> {
    ///     let mut texts = Vec::new(alloc);
    ///     for value in document.get_all(field) {
    ///         if let Some(text) = value.as_str() {
    ///             texts.push(String::from_str(alloc, text)?)?;
    ///         }
    ///     }
    ///     Ok(texts)
    /// }
    /// ```
    pub fn get_all(&self, field: Field) -> GetAllIter<'_>
        ensures { values_left result ≡ values_of field.id (document_of self.now) }
    {
        GetAllIter::new(self.field_values(), field)
    }

    /// The value of a field that was added first; `None` where it has none.
    pub fn get_first(&self, field: Field) -> Option<CompactDocValue<'_>>
        ensures { option_map tree_of result
            ≡ slice_get (values_of field.id (document_of self.now)) 0 }
    {
        self.get_all(field).next()
    }

    /// Whether each pair's field is one of the schema: its number is below the schema's `num_fields`.
    pub fn fits(&self, schema: &Schema) -> bool
        ensures { IsTrue result ↔ Belongs schema.now (document_of self.now) }
    {
        for (field, _) in self.field_values() {
            if !schema.has_field(field) {
                return false;
            }
        }
        true
    }

    /// Adds a pair of a field and a value without children. The errors are those of `add_text`, where the value's room is 5
    /// bytes and its length for a text, a facet and bytes, 8 for a number and a date, 16 for an IP address, none for a truth
    /// value and no value; for a text with its tokens 15 and its length, and for each token 50 and its text's length.
    pub fn add_leaf_field_value(
        &mut self,
        field: Field,
        value: ReferenceValueLeaf<'_>,
    ) -> Result<(), AddError>
        ensures adds { AddsLeaf self.old self.new field.id (leaf_of value.entry) result }
        ensures memory { KeepsMemory self.old self.new result }
    {
        self.add_leaf(field, &value)
    }

    // The same of a value that is lent: moving one costs as much as writing it.
    #[inline(always)]
    pub(crate) fn add_leaf(
        &mut self,
        field: Field,
        value: &ReferenceValueLeaf<'_>,
    ) -> Result<(), AddError>
        ensures adds { AddsLeaf self.old self.new field.id (leaf_of value.now) result }
        ensures memory { KeepsMemory self.old self.new result }
    {
        self.values.add_leaf(field.field_id(), value)
    }
}

/// The pairs are lent in place, without memory.
impl<'a> Document<'a> for CompactDoc {
    ghost use Rattle.tv_doc.specs.Document.{document_of};
    ghost use Rattle.tv_doc.specs.FieldValues.{pairs_left};

    type Value = CompactDocValue<'a>;

    type FieldsValuesIter = FieldValueIterRef<'a>;

    ghost pairs = { document_of };

    ghost pairs_rest = { pairs_left };

    ghost pairs_walk = { λ s. (tt, tt) };

    ghost pairs_steps = { λ s t r steps. steps };

    fn iter_fields_and_values(&'a self) -> FieldValueIterRef<'a> {
        self.field_values()
    }
}

// Texts of JSON, each beside its field.
type FieldTexts = BTreeSet<(Field, String)>;

// Those of a document's values.
fn texts_of(document: &CompactDoc) -> Result<FieldTexts, AllocError>
    ensures { IfOk result
        (λ texts. IsSameSet (texts_seen texts) (field_texts (document_of document.now))) }
{
    let alloc = document.allocator();
    let mut texts = BTreeSet::new(alloc);
    for (field, value) in document.field_values() {
        let mut text = String::new(alloc);
        push_json(alloc, &mut text, value)?;
        let _added = texts.insert((field, text))?;
    }
    Ok(texts)
}

// Whether all of the others are among the texts.
fn has_all(texts: &FieldTexts, others: &FieldTexts) -> bool
    ensures { IsTrue result ↔ HasAll (texts_seen texts.now) (texts_seen others.now) }
{
    for text in others {
        if !texts.contains(text) {
            return false;
        }
    }
    true
}

impl CompactDoc {
    /// Whether for each field both documents have the same set of texts of JSON, of each value the one that `push_json` adds. So the order
    /// of the values, and how often one repeats, doesn't count; nor does the order of the keys of an object. (In place of `==`.) The only
    /// error is that memory was refused.
    pub fn same_as(&self, other: &CompactDoc) -> Result<bool, AllocError>
        ensures { IfOk result
            (λ same. IsTrue same ↔ SameTexts (document_of self.now) (document_of other.now)) }
    {
        let texts = texts_of(self)?;
        let others = texts_of(other)?;
        Ok(has_all(&texts, &others) && has_all(&others, &texts))
    }
}
