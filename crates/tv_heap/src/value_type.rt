//! The types of values in a heap.

ghost use Rattle.std.specs.Prelude.{◌≡◌, ◌≢◌, IfSome, IfNone};
ghost use Rattle.tv_base.specs.Number.{Fixed, one_byte};
ghost use Rattle.tv_base.specs.ReadsAs.{ReadsLean};
ghost use Rattle.tv_value.specs.Lent.{leaf_of, tree_of};
ghost use Rattle.tv_heap.specs.Reads.{leaf_type_byte, tree_type};

use std::alloc::Global;
use tv_base::write::write_u8;
use tv_base::{BinarySerializable, ByteSink, ByteSource, Cause, ReadError, WriteError};
use tv_format::LeafType;
use tv_value::leaf::ReferenceValueLeaf;
use tv_value::value::{ReferenceValue, Value};

/// The types of values that stand in a document's heap, each with its type byte. 4, tantivy's type of floats, is no type.
#[derive(Clone, Copy, Debug, PartialEq, Eq)]
pub enum ValueType {
    /// No value.
    Null = 0,
    /// A text.
    Str = 1,
    /// A number from 0 to 2^64 - 1.
    U64 = 2,
    /// A number from -2^63 to 2^63 - 1.
    I64 = 3,
    /// A date.
    Date = 5,
    /// A facet.
    Facet = 6,
    /// Bytes.
    Bytes = 7,
    /// An IPv6 address.
    IpAddr = 8,
    /// A truth value.
    Bool = 9,
    /// A text and its tokens.
    PreTokStr = 10,
    /// Keys and their values, in order.
    Object = 11,
    /// Values, in order.
    Array = 12,
}

impl ValueType {
    ghost use Rattle.tv_heap.specs.declared.value_type.ValueType.{ValueType};
    ghost use Rattle.tv_heap.specs.TypeCode.{leaf_heap_type, leaf_type_of, type_code};

    /// The type byte that stands for it in a heap.
    #[inline(always)]
    pub fn to_code(self) -> u8
        ensures { result ≡ type_code self }
    {
        self as u8
    }

    /// The type whose type byte `code` is; `None` for 4 and for bytes above 12.
    #[inline(always)]
    pub fn from_code(code: u8) -> Option<ValueType>
        ensures some { IfSome result (λ t. type_code t ≡ code) }
        ensures none { IfNone result ((t : ValueType) → type_code t ≢ code) }
    {
        match code {
            0 => Some(ValueType::Null),
            1 => Some(ValueType::Str),
            2 => Some(ValueType::U64),
            3 => Some(ValueType::I64),
            5 => Some(ValueType::Date),
            6 => Some(ValueType::Facet),
            7 => Some(ValueType::Bytes),
            8 => Some(ValueType::IpAddr),
            9 => Some(ValueType::Bool),
            10 => Some(ValueType::PreTokStr),
            11 => Some(ValueType::Object),
            12 => Some(ValueType::Array),
            _ => None,
        }
    }

    /// The type in a heap of the values without children of the type `leaf_type`. (Not in tantivy.)
    #[inline(always)]
    pub fn of_leaf(leaf_type: LeafType) -> ValueType
        ensures { result ≡ leaf_heap_type leaf_type }
    {
        match leaf_type {
            LeafType::Null => ValueType::Null,
            LeafType::Str => ValueType::Str,
            LeafType::U64 => ValueType::U64,
            LeafType::I64 => ValueType::I64,
            LeafType::Date => ValueType::Date,
            LeafType::Facet => ValueType::Facet,
            LeafType::Bytes => ValueType::Bytes,
            LeafType::IpAddr => ValueType::IpAddr,
            LeafType::Bool => ValueType::Bool,
            LeafType::PreTokStr => ValueType::PreTokStr,
        }
    }

    /// The type of the values without children that have this type in a heap; `None` for arrays and objects. (Not in tantivy.)
    #[inline(always)]
    pub fn leaf_type(self) -> Option<LeafType>
        ensures { result ≡ leaf_type_of self }
    {
        match self {
            ValueType::Null => Some(LeafType::Null),
            ValueType::Str => Some(LeafType::Str),
            ValueType::U64 => Some(LeafType::U64),
            ValueType::I64 => Some(LeafType::I64),
            ValueType::Date => Some(LeafType::Date),
            ValueType::Facet => Some(LeafType::Facet),
            ValueType::Bytes => Some(LeafType::Bytes),
            ValueType::IpAddr => Some(LeafType::IpAddr),
            ValueType::Bool => Some(LeafType::Bool),
            ValueType::PreTokStr => Some(LeafType::PreTokStr),
            ValueType::Object | ValueType::Array => None,
        }
    }
}

impl Default for ValueType {
    ghost use Rattle.tv_heap.specs.declared.value_type.ValueType.TheVariants.{Null};

    ghost is_default = { λ made. made ≡ Null };

    /// The type of no value.
    fn default() -> ValueType {
        ValueType::Null
    }
}

/// A type is one byte.
impl BinarySerializable for ValueType {
    ghost use Rattle.tv_heap.specs.declared.value_type.ValueType.{ValueType};
    ghost use Rattle.tv_heap.specs.TypeCode.{type_code};
    ghost use Rattle.tv_heap.specs.TypeByte.{ErrorInType};

    ghost Seen = { ValueType };

    ghost view = { λ t. t };

    ghost shortest = { λ t. one_byte (type_code t) };

    ghost encodes = { λ bytes t. Fixed 1 bytes (type_code t) };

    ghost has_error = { ErrorInType };

    fn serialize<K: ByteSink>(&self, sink: &mut K) -> Result<(), WriteError> {
        write_u8(sink, self.to_code())
    }

    fn deserialize<S: ByteSource>(alloc: Global, source: &mut S) -> Result<ValueType, ReadError>
        ensures reads { ReadsLean S.ByteSource source.old source.new (λ t. t) result
            (λ bytes t. Fixed 1 bytes (type_code t)) ErrorInType }
    {
        let code = u8::deserialize(alloc, source)?;
        match ValueType::from_code(code) {
            Some(value_type) => Ok(value_type),
            None => Err(ReadError::Corrupted(Cause::UnknownTypeCode(code))),
        }
    }
}

/// The type that a leaf has in a heap.
impl From<&ReferenceValueLeaf<'_>> for ValueType {
    ghost use Rattle.tv_heap.specs.TypeCode.{type_code};

    ghost from_gives = { λ value made. type_code made ≡ leaf_type_byte (leaf_of value.now) };

    #[tactic(auto, using(crate::proofs::TypeCodes::leaf_code))]
    fn from(value: &ReferenceValueLeaf<'_>) -> ValueType {
        ValueType::of_leaf(value.leaf_type())
    }
}

/// The type that a value has in a heap.
impl<'a, V: Value<'a>> From<&ReferenceValue<'a, V>> for ValueType {
    ghost use Rattle.tv_heap.specs.TypeCode.{type_code};

    ghost from_gives = { λ value made. type_code made
        ≡ tree_type (tree_of V.array_rest V.object_rest value.now) };

    fn from(value: &ReferenceValue<'a, V>) -> ValueType {
        match value {
            ReferenceValue::Leaf(leaf) => ValueType::from(leaf),
            ReferenceValue::Array(_) => ValueType::Array,
            ReferenceValue::Object(_) => ValueType::Object,
        }
    }
}

/// The type and the address of a value or a key in a heap. (Not in tantivy.)
#[derive(Clone, Copy, Debug)]
pub struct Place {
    /// Its type.
    pub value_type: ValueType,
    /// Its address.
    pub address: u32,
}
