//! Values of any kind, lent: a leaf, or an iterator over children that are values again.

ghost use Rattle.std.specs.Prelude.{◌≡◌, ℕ, List, Option, option_map, is_some};
ghost use Rattle.std.specs.Borrow.{Bor};
ghost use Rattle.std.specs.Iterator.{IsFinite, YieldsFirstBy};
ghost use Rattle.std.specs.Net.Addr.{ipv6_bits};
ghost use Rattle.tv_value.specs.Cases.{leaf_in, elements_in, entries_in, is_null_leaf, in_leaf};
ghost use Rattle.tv_format.specs.Leaves.{text_in, unsigned_in, signed_in, boolean_in, date_in, facet_in, bytes_in, ip_address_in, tokenized_in};
ghost use Rattle.tv_value.specs.Lent.{leaf_of, tree_of, entry_of};
ghost use Rattle.tv_value.specs.PreTokenized.{text_of, tokens_of};
ghost use Rattle.tv_format.specs.Tree.{Tree, leaf, elements, entries};

use crate::leaf::ReferenceValueLeaf;
use crate::pre_tokenized::PreTokenizedStr;
use std::net::Ipv6Addr;
use tv_date::DateTime;

/// What a value is: a leaf, or an iterator over its children.
#[derive(Drop)]
pub enum ReferenceValue<'a, V: Value<'a>> {
    /// A value without children.
    Leaf(ReferenceValueLeaf<'a>),
    /// Values, in order.
    Array(V::ArrayIter),
    /// Keys and their values, in order. Keys may repeat.
    Object(V::ObjectIter),
}

/// A value that can be lent: a finite tree, of which `as_value` says one level.
///
/// An implementation gives `as_value`, and says which tree its values are (`tree`) and which trees its iterators have left
/// (`array_rest`, `object_rest`). Its iterators give the children in order, each once, and end. The calls with a body are final.
pub trait Value<'a>: Drop {
    /// The values of an array.
    type ArrayIter: Iterator<Item = Self>;

    /// The keys and values of an object.
    type ObjectIter: Iterator<Item = (&'a str, Self)>;

    ghost tree: { Self → Tree };

    ghost array_rest: { Self.ArrayIter → List Tree };

    ghost object_rest: { Self.ObjectIter → List (List ℕ × Tree) };

    /// What the value is.
    fn as_value(&self) -> ReferenceValue<'a, Self>
        ensures { tree_of array_rest object_rest result ≡ tree self.now };

    ghost array_walks: { (s : Self.ArrayIter)
        → Self.ArrayIter.can_next s × IsFinite (Self.ArrayIter.remaining s) };

    ghost object_walks: { (s : Self.ObjectIter)
        → Self.ObjectIter.can_next s × IsFinite (Self.ObjectIter.remaining s) };

    ghost array_steps: { (s t : Self.ArrayIter) (r : Option Self) → Self.ArrayIter.next_gives s r t
        → YieldsFirstBy tree array_rest s r t };

    ghost object_steps: { (s t : Self.ObjectIter) (r : Option (Bor (List ℕ) × Self))
        → Self.ObjectIter.next_gives s r t → YieldsFirstBy (entry_of tree) object_rest s r t };

    /// The leaf, if it is one.
    final fn as_leaf(&self) -> Option<ReferenceValueLeaf<'a>>
        ensures { option_map leaf_of result ≡ leaf_in (tree self.now) }
    {
        match self.as_value() {
            ReferenceValue::Leaf(leaf) => Some(leaf),
            _ => None,
        }
    }

    /// The text, if it is one. No copy is made.
    final fn as_str(&self) -> Option<&'a str>
        ensures { option_map (λ t. t.now) result ≡ in_leaf text_in (tree self.now) }
    {
        self.as_leaf()?.as_str()
    }

    /// The number, if it is an unsigned one.
    final fn as_u64(&self) -> Option<u64>
        ensures { result ≡ in_leaf unsigned_in (tree self.now) }
    {
        self.as_leaf()?.as_u64()
    }

    /// The number, if it is a signed one.
    final fn as_i64(&self) -> Option<i64>
        ensures { result ≡ in_leaf signed_in (tree self.now) }
    {
        self.as_leaf()?.as_i64()
    }

    /// The date, if it is one.
    final fn as_datetime(&self) -> Option<DateTime>
        ensures { option_map (λ d. d.nanoseconds) result ≡ in_leaf date_in (tree self.now) }
    {
        self.as_leaf()?.as_datetime()
    }

    /// The IP address, if it is one.
    final fn as_ip_addr(&self) -> Option<Ipv6Addr>
        ensures { option_map ipv6_bits result ≡ in_leaf ip_address_in (tree self.now) }
    {
        self.as_leaf()?.as_ip_addr()
    }

    /// The truth value, if it is one.
    final fn as_bool(&self) -> Option<bool>
        ensures { result ≡ in_leaf boolean_in (tree self.now) }
    {
        self.as_leaf()?.as_bool()
    }

    /// The bytes, if it is bytes. No copy is made.
    final fn as_bytes(&self) -> Option<&'a [u8]>
        ensures { option_map (λ bs. bs.now) result ≡ in_leaf bytes_in (tree self.now) }
    {
        self.as_leaf()?.as_bytes()
    }

    /// The text with its tokens, if it is one. No copy is made.
    final fn as_pre_tokenized_text(&self) -> Option<PreTokenizedStr<'a>>
        ensures { option_map (λ t. (text_of t, tokens_of t)) result
            ≡ in_leaf tokenized_in (tree self.now) }
    {
        self.as_leaf()?.into_pre_tokenized_text()
    }

    /// The encoded text of the facet, if it is one. No copy is made.
    final fn as_facet(&self) -> Option<&'a str>
        ensures { option_map (λ t. t.now) result ≡ in_leaf facet_in (tree self.now) }
    {
        self.as_leaf()?.as_facet()
    }

    /// The values of the array, if it is one.
    final fn as_array(&self) -> Option<Self::ArrayIter>
        ensures { option_map (λ it. elements (array_rest it)) result ≡ elements_in (tree self.now) }
    {
        match self.as_value() {
            ReferenceValue::Array(items) => Some(items),
            _ => None,
        }
    }

    /// The keys and values of the object, if it is one.
    final fn as_object(&self) -> Option<Self::ObjectIter>
        ensures { option_map (λ it. entries (object_rest it)) result ≡ entries_in (tree self.now) }
    {
        match self.as_value() {
            ReferenceValue::Object(members) => Some(members),
            _ => None,
        }
    }
}

impl<'a, V: Value<'a>> ReferenceValue<'a, V> {
    /// Whether it is the leaf that is no value.
    pub fn is_null(&self) -> bool
        ensures { result ≡ is_null_leaf (tree_of V.array_rest V.object_rest self.now) }
    {
        matches!(self, ReferenceValue::Leaf(ReferenceValueLeaf::Null))
    }

    /// The leaf, if it is one, lent.
    pub fn as_leaf(&self) -> Option<&ReferenceValueLeaf<'a>>
        ensures { option_map (λ l. leaf_of l.now) result
            ≡ leaf_in (tree_of V.array_rest V.object_rest self.now) }
    {
        match self {
            ReferenceValue::Leaf(lent) => Some(lent),
            _ => None,
        }
    }

    /// The leaf, if it is one.
    pub fn into_leaf(self) -> Option<ReferenceValueLeaf<'a>>
        ensures { option_map leaf_of result
            ≡ leaf_in (tree_of V.array_rest V.object_rest self.entry) }
    {
        match self {
            ReferenceValue::Leaf(single) => Some(single),
            _ => None,
        }
    }

    /// The text, if it is one. No copy is made.
    pub fn as_str(&self) -> Option<&'a str>
        ensures { option_map (λ t. t.now) result
            ≡ in_leaf text_in (tree_of V.array_rest V.object_rest self.now) }
    {
        self.as_leaf()?.as_str()
    }

    /// The number, if it is an unsigned one.
    pub fn as_u64(&self) -> Option<u64>
        ensures { result ≡ in_leaf unsigned_in (tree_of V.array_rest V.object_rest self.now) }
    {
        self.as_leaf()?.as_u64()
    }

    /// The number, if it is a signed one.
    pub fn as_i64(&self) -> Option<i64>
        ensures { result ≡ in_leaf signed_in (tree_of V.array_rest V.object_rest self.now) }
    {
        self.as_leaf()?.as_i64()
    }

    /// The date, if it is one.
    pub fn as_datetime(&self) -> Option<DateTime>
        ensures { option_map (λ d. d.nanoseconds) result
            ≡ in_leaf date_in (tree_of V.array_rest V.object_rest self.now) }
    {
        self.as_leaf()?.as_datetime()
    }

    /// The IP address, if it is one.
    pub fn as_ip_addr(&self) -> Option<Ipv6Addr>
        ensures { option_map ipv6_bits result
            ≡ in_leaf ip_address_in (tree_of V.array_rest V.object_rest self.now) }
    {
        self.as_leaf()?.as_ip_addr()
    }

    /// The truth value, if it is one.
    pub fn as_bool(&self) -> Option<bool>
        ensures { result ≡ in_leaf boolean_in (tree_of V.array_rest V.object_rest self.now) }
    {
        self.as_leaf()?.as_bool()
    }

    /// The bytes, if it is bytes. No copy is made.
    pub fn as_bytes(&self) -> Option<&'a [u8]>
        ensures { option_map (λ bs. bs.now) result
            ≡ in_leaf bytes_in (tree_of V.array_rest V.object_rest self.now) }
    {
        self.as_leaf()?.as_bytes()
    }

    /// The text with its tokens, if it is one. No copy is made.
    pub fn into_pre_tokenized_text(self) -> Option<PreTokenizedStr<'a>>
        ensures { option_map (λ t. (text_of t, tokens_of t)) result
            ≡ in_leaf tokenized_in (tree_of V.array_rest V.object_rest self.entry) }
    {
        self.into_leaf()?.into_pre_tokenized_text()
    }

    /// The encoded text of the facet, if it is one. No copy is made.
    pub fn as_facet(&self) -> Option<&'a str>
        ensures { option_map (λ t. t.now) result
            ≡ in_leaf facet_in (tree_of V.array_rest V.object_rest self.now) }
    {
        self.as_leaf()?.as_facet()
    }

    /// Whether it is an array.
    pub fn is_array(&self) -> bool
        ensures { result ≡ is_some (elements_in (tree_of V.array_rest V.object_rest self.now)) }
    {
        matches!(self, ReferenceValue::Array(_))
    }

    /// Whether it is an object.
    pub fn is_object(&self) -> bool
        ensures { result ≡ is_some (entries_in (tree_of V.array_rest V.object_rest self.now)) }
    {
        matches!(self, ReferenceValue::Object(_))
    }
}

/// A leaf as a value.
impl<'a, V: Value<'a>> From<ReferenceValueLeaf<'a>> for ReferenceValue<'a, V> {
    ghost from_gives = { λ l made. tree_of V.array_rest V.object_rest made ≡ leaf (leaf_of l) };

    fn from(leaf: ReferenceValueLeaf<'a>) -> ReferenceValue<'a, V> {
        ReferenceValue::Leaf(leaf)
    }
}
