//! Taking the head of a value from a source that is lent: as much of it as is taken at once, without memory.

ghost use Rattle.std.specs.Prelude.{◌≤◌, ◌+◌};
ghost use Rattle.tv_base.specs.Number.{VNum};
ghost use Rattle.tv_base.specs.Reading.{vint_at};
ghost use Rattle.tv_base.specs.ErrorInPart.{ErrorInNumber};
ghost use Rattle.tv_reader.specs.Finds.{FindsLean};
ghost use Rattle.tv_reader.specs.Heads.{EncodesHead, EncodesKeyHead, CodedLength};
ghost use Rattle.tv_reader.specs.HeadReading.{coded_text_by, head_part, key_by, value_head_at};
ghost use Rattle.tv_reader.specs.Trees.{NoValue};
ghost use Rattle.tv_reader.specs.Version.{version_of};
ghost use Rattle.tv_reader.specs.Error.{StoreTakesLean};
ghost use Rattle.tv_reader.specs.Fields.{field_at};
ghost use Rattle.tv_format.specs.InputError.{Corrupt, ErrorInCodedKey, ErrorInKey};

use crate::error::DeserializeError;
use crate::value_type::{ValueType, take_head_behind, take_kind};
use crate::version::DocStoreVersion;
use tv_base::ByteSource;
use tv_base::take::{take_u32, take_vint};
use tv_format::LeafType;
use tv_value::leaf::ReferenceValueLeaf;

/// What is taken of a value at once: a whole value of a known width, or what stands before the parts of another.
#[derive(Clone, Copy, Debug, PartialEq)]
pub enum Head {
    /// A whole value of a known width.
    Leaf(ReferenceValueLeaf<'static>),
    /// The length in bytes of a text, of a facet's encoded text or of bytes, with its type. None of these bytes was taken.
    Length(LeafType, u64),
    /// The number of an array's elements. None of them was taken.
    Array(u64),
    /// The number of an object's entries. None of them was taken.
    Object(u64),
    /// The codes of a pre-tokenized text. Nothing after them was taken.
    Tokenized,
    /// The code of an object as older stores hold it. Nothing after it was taken.
    Legacy,
}

/// Takes the head of a value: all of one of a known width, and of any other its code and what the code is followed by up to the
/// first byte, element or entry. No memory is taken.
///
/// Errors: `CorruptedValue` with the first error in the head, and `Io` where the source failed.
pub fn take_head<S: ByteSource>(
    source: &mut S,
    count: &mut u64,
    version: DocStoreVersion,
) -> Result<Head, DeserializeError>
    ensures takes { StoreTakesLean S.ByteSource source.old count.old source.new count.new
        head_part result (value_head_at (version_of version)) }
    ensures finds { FindsLean S.ByteSource source.old count.old source.new count.new
        result (λ b head. EncodesHead (version_of version) b (head_part head))
        (NoValue (version_of version)) }
    ensures at_most { count.new ≤ count.old + 18 }
{
    let kind = take_kind(source, count)?;
    let head = take_head_behind(source, count, version, kind)?;
    Ok(head)
}

/// Takes the head of a key: its length in bytes, in versions 1 and 2 after its code. None of these bytes is taken.
///
/// Errors: `CorruptedValue` with the first error in the head, `Io`, and in versions 1 and 2 `TypeMismatch` where a value of another type
/// stands there.
#[tactic(auto, unfolding(crate::specs::HeadReading::key_by))]
pub fn take_key_head<S: ByteSource>(
    source: &mut S,
    count: &mut u64,
    version: DocStoreVersion,
) -> Result<u64, DeserializeError>
    ensures takes { StoreTakesLean S.ByteSource source.old count.old source.new count.new
        (λ x. x) result (key_by vint_at (version_of version)) }
    ensures finds { FindsLean S.ByteSource source.old count.old source.new count.new
        result (EncodesKeyHead (version_of version)) (ErrorInKey (version_of version)) }
    ensures at_most { count.new ≤ count.old + 12 }
{
    match version {
        DocStoreVersion::V1 | DocStoreVersion::V2 => take_coded_key_head(source, count),
        DocStoreVersion::V3 => {
            let len = take_vint(source, count)?;
            Ok(len)
        }
    }
}

// A key's length after the code of a text.
fn take_coded_key_head<S: ByteSource>(
    source: &mut S,
    count: &mut u64,
) -> Result<u64, DeserializeError>
    ensures takes { StoreTakesLean S.ByteSource source.old count.old source.new count.new
        (λ x. x) result (coded_text_by vint_at) }
    ensures finds { FindsLean S.ByteSource source.old count.old source.new count.new
        result CodedLength ErrorInCodedKey }
    ensures at_most { count.new ≤ count.old + 12 }
{
    let kind = take_kind(source, count)?;
    match kind {
        ValueType::String => {
            let len = take_vint(source, count)?;
            Ok(len)
        }
        actual => Err(DeserializeError::TypeMismatch {
            expected: ValueType::String,
            actual,
        }),
    }
}

/// Takes the head of a document: the number of its pairs.
///
/// Errors: `CorruptedValue` with the first error in the number, and `Io`.
pub fn take_document_head<S: ByteSource>(
    source: &mut S,
    count: &mut u64,
) -> Result<u64, DeserializeError>
    ensures finds { FindsLean S.ByteSource source.old count.old source.new count.new
        result VNum (Corrupt ErrorInNumber) }
    ensures at_most { count.new ≤ count.old + 10 }
{
    let number = take_vint(source, count)?;
    Ok(number)
}

/// Takes a field number.
///
/// Errors: `CorruptedValue(UnexpectedEnd)` where fewer than four bytes are left, and `Io`.
#[tactic(auto, using(tv_base::proofs::TakeSteps::Taken_then), unfolding(crate::specs::Fields::field_at))]
pub fn take_field<S: ByteSource>(source: &mut S, count: &mut u64) -> Result<u32, DeserializeError>
    ensures takes { StoreTakesLean S.ByteSource source.old count.old source.new count.new
        (λ x. x) result field_at }
    ensures at_most { count.new ≤ count.old + 4 }
{
    Ok(take_u32(source, count)?)
}
