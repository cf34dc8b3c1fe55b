//! The types of values in the store, and what is done by type.

ghost use Rattle.std.specs.Prelude.{◌≡◌, ◌≤◌, ◌+◌, IsTrue, IfOk, ◌<◌, OnOk};
ghost use Rattle.tv_base.specs.Take.{TakesBy, TakesLean};
ghost use Rattle.tv_reader.specs.HeadReading.{head_part, head_at};
ghost use Rattle.tv_reader.specs.Leaves.{leaf_at, is_leaf_type, IsSingle};
ghost use Rattle.tv_reader.specs.ValueType.{of_leaf, leaf_type, value_type_with};
ghost use Rattle.tv_reader.specs.Version.{version_of};
ghost use Rattle.tv_reader.specs.Kinds.{extension_at, kind_at};
ghost use Rattle.tv_value.specs.Owned.{owned_tree};

use crate::heads::Head;
use crate::leaves::{take_date, take_ip_address, take_tokenized};
use crate::trees::take_entry_count;
use crate::version::DocStoreVersion;
use std::alloc::Global;
use tv_base::take::{
    take_bool, take_bytes, take_facet, take_i64, take_string, take_u8, take_u64, take_vint,
};
use tv_base::{ByteSource, Cause, ReadError};
use tv_format::LeafType;
use tv_format::type_codes::{
    ARRAY_CODE, EXT_CODE, F64_CODE, JSON_OBJ_CODE, OBJECT_CODE, TOK_STR_EXT_CODE,
};
use tv_value::leaf::ReferenceValueLeaf;
use tv_value::owned_value::OwnedValue;

/// The type of a value in the store.
#[derive(Clone, Copy, Debug, PartialEq, Eq)]
pub enum ValueType {
    /// Code 0.
    String,
    /// Code 1.
    U64,
    /// Code 2.
    I64,
    /// Code 3.
    Facet,
    /// Code 4.
    Bytes,
    /// Code 5.
    DateTime,
    /// Code 7, and then 0.
    PreTokStr,
    /// Code 8.
    JSONObject,
    /// Code 9.
    Bool,
    /// Code 10.
    IpAddr,
    /// Code 11.
    Null,
    /// Code 12.
    Array,
    /// Code 13.
    Object,
}

impl ValueType {
    /// The type as one among all. (Not in tantivy.)
    #[inline(always)]
    pub fn of_leaf(leaf: LeafType) -> ValueType
        ensures { result ≡ of_leaf leaf }
    {
        match leaf {
            LeafType::Null => ValueType::Null,
            LeafType::Str => ValueType::String,
            LeafType::U64 => ValueType::U64,
            LeafType::I64 => ValueType::I64,
            LeafType::Date => ValueType::DateTime,
            LeafType::Facet => ValueType::Facet,
            LeafType::Bytes => ValueType::Bytes,
            LeafType::IpAddr => ValueType::IpAddr,
            LeafType::Bool => ValueType::Bool,
            LeafType::PreTokStr => ValueType::PreTokStr,
        }
    }

    /// The type as one of values that hold no others; `None` for arrays and for objects, legacy ones too. (Not in tantivy.)
    #[inline(always)]
    pub fn leaf_type(self) -> Option<LeafType>
        ensures { result ≡ leaf_type self }
    {
        match self {
            ValueType::Null => Some(LeafType::Null),
            ValueType::String => Some(LeafType::Str),
            ValueType::U64 => Some(LeafType::U64),
            ValueType::I64 => Some(LeafType::I64),
            ValueType::DateTime => Some(LeafType::Date),
            ValueType::Facet => Some(LeafType::Facet),
            ValueType::Bytes => Some(LeafType::Bytes),
            ValueType::IpAddr => Some(LeafType::IpAddr),
            ValueType::Bool => Some(LeafType::Bool),
            ValueType::PreTokStr => Some(LeafType::PreTokStr),
            ValueType::JSONObject | ValueType::Array | ValueType::Object => None,
        }
    }

    /// The type of this code; `None` where there is none. (Not in tantivy.)
    #[inline(always)]
    pub fn from_code(code: u8) -> Option<ValueType>
        ensures { result ≡ value_type_with code }
    {
        match code {
            JSON_OBJ_CODE => Some(ValueType::JSONObject),
            ARRAY_CODE => Some(ValueType::Array),
            OBJECT_CODE => Some(ValueType::Object),
            _ => match LeafType::from_store_code(code) {
                Some(leaf) => Some(ValueType::of_leaf(leaf)),
                None => None,
            },
        }
    }
}

// Takes what the head of a value has after its code: a value of a known width, a length or a number.
//
// Errors: those of the part that it has.
#[tactic(auto, using(tv_base::proofs::TakeSteps::Taken_then), unfolding(crate::specs::HeadReading::head_at))]
pub(crate) fn take_head_behind<S: ByteSource>(
    source: &mut S,
    count: &mut u64,
    version: DocStoreVersion,
    kind: ValueType,
) -> Result<Head, ReadError>
    ensures takes { TakesLean S.ByteSource source.old count.old source.new count.new
        head_part result (head_at (version_of version) kind) }
    ensures at_most { count.new ≤ count.old + 16 }
{
    match kind {
        ValueType::String => Ok(Head::Length(LeafType::Str, take_vint(source, count)?)),
        ValueType::Facet => Ok(Head::Length(LeafType::Facet, take_vint(source, count)?)),
        ValueType::Bytes => Ok(Head::Length(LeafType::Bytes, take_vint(source, count)?)),
        ValueType::Array => Ok(Head::Array(take_vint(source, count)?)),
        ValueType::Object => Ok(Head::Object(take_entry_count(source, count, version)?)),
        ValueType::PreTokStr => Ok(Head::Tokenized),
        ValueType::JSONObject => Ok(Head::Legacy),
        ValueType::Null => Ok(Head::Leaf(ReferenceValueLeaf::Null)),
        ValueType::U64 => Ok(Head::Leaf(ReferenceValueLeaf::U64(take_u64(source, count)?))),
        ValueType::I64 => Ok(Head::Leaf(ReferenceValueLeaf::I64(take_i64(source, count)?))),
        ValueType::DateTime => {
            let date = take_date(source, count, version)?;
            Ok(Head::Leaf(ReferenceValueLeaf::Date(date)))
        }
        ValueType::Bool => Ok(Head::Leaf(ReferenceValueLeaf::Bool(take_bool(source, count)?))),
        ValueType::IpAddr => {
            let address = take_ip_address(source, count)?;
            Ok(Head::Leaf(ReferenceValueLeaf::IpAddr(address)))
        }
    }
}

/// Takes a value of a type whose values hold no others, after its codes. (Not in tantivy.)
///
/// Errors: those of the parts that it has, and `Memory`.
#[tactic(auto, using(tv_base::proofs::TakeSteps::Taken_then), unfolding(crate::specs::Leaves::leaf_at))]
pub fn take_leaf<S: ByteSource>(
    alloc: Global,
    source: &mut S,
    count: &mut u64,
    version: DocStoreVersion,
    kind: ValueType,
) -> Result<OwnedValue, ReadError>
    requires { IsTrue (is_leaf_type kind) }
    ensures takes { TakesBy S.ByteSource source.old count.old source.new count.new
        owned_tree result (leaf_at (version_of version) kind) }
    ensures single { IfOk result (λ value. IsSingle (owned_tree value)) }
{
    match kind {
        ValueType::String => Ok(OwnedValue::Str(take_string(alloc, source, count)?)),
        ValueType::U64 => Ok(OwnedValue::U64(take_u64(source, count)?)),
        ValueType::I64 => Ok(OwnedValue::I64(take_i64(source, count)?)),
        ValueType::Facet => Ok(OwnedValue::Facet(take_facet(alloc, source, count)?)),
        ValueType::Bytes => Ok(OwnedValue::Bytes(take_bytes(alloc, source, count)?)),
        ValueType::DateTime => Ok(OwnedValue::Date(take_date(source, count, version)?)),
        ValueType::PreTokStr => Ok(OwnedValue::PreTokStr(take_tokenized(alloc, source, count)?)),
        ValueType::Bool => Ok(OwnedValue::Bool(take_bool(source, count)?)),
        ValueType::IpAddr => Ok(OwnedValue::IpAddr(take_ip_address(source, count)?)),
        ValueType::Null => Ok(OwnedValue::Null),
        ValueType::JSONObject | ValueType::Array | ValueType::Object => unreachable!(),
    }
}

#[tactic(auto, unfolding(crate::specs::Kinds::extension_at))]
fn take_extension<S: ByteSource>(source: &mut S, count: &mut u64) -> Result<ValueType, ReadError>
    ensures takes { TakesLean S.ByteSource source.old count.old source.new count.new
        (λ x. x) result extension_at }
    ensures advances { OnOk result (count.old < count.new) }
    ensures at_most { count.new ≤ count.old + 1 }
{
    match take_u8(source, count)? {
        TOK_STR_EXT_CODE => Ok(ValueType::PreTokStr),
        code => Err(ReadError::Corrupted(Cause::UnknownExtCode(code))),
    }
}

/// Takes all that stands before a value: the code of its type, and after the code of an extension its own.
///
/// Errors: those of `take_u8`, `Corrupted(FloatCode)` at the code of floating-point numbers, `Corrupted(UnknownTypeCode)` at one
/// above 13, and `Corrupted(UnknownExtCode)` at an extension other than 0.
#[tactic(auto, using(tv_base::proofs::TakeSteps::Taken_then), unfolding(crate::specs::Kinds::kind_at))]
pub fn take_kind<S: ByteSource>(source: &mut S, count: &mut u64) -> Result<ValueType, ReadError>
    ensures takes { TakesLean S.ByteSource source.old count.old source.new count.new
        (λ x. x) result kind_at }
    ensures advances { OnOk result (count.old < count.new) }
    ensures at_most { count.new ≤ count.old + 2 }
{
    match take_u8(source, count)? {
        EXT_CODE => take_extension(source, count),
        F64_CODE => Err(ReadError::Corrupted(Cause::FloatCode)),
        code => match ValueType::from_code(code) {
            Some(kind) => Ok(kind),
            None => Err(ReadError::Corrupted(Cause::UnknownTypeCode(code))),
        },
    }
}
