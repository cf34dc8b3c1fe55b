//! Taking values of every type from a source that is lent, with the count of the bytes that were taken of it.

ghost use Rattle.std.specs.Prelude.{◌≡◌, ◌≤◌, ◌+◌, ◌++◌, map, suc, IfErr, IfOk, IsErrOf, string_bytes};
ghost use Rattle.tv_base.specs.Parts.{Begins, Then};
ghost use Rattle.tv_base.specs.Reading.{text_at};
ghost use Rattle.tv_base.specs.Take as reads;
ghost use Rattle.tv_format.specs.Encoding.{Key};
ghost use Rattle.tv_format.specs.Tree.{elements, entries};
ghost use Rattle.tv_format.specs.Version.{Version};
ghost use Rattle.tv_format.specs.InputError.{ErrorInCodedKey, ErrorInKey};
ghost use Rattle.tv_reader.specs.Counts.{half_at, entry_count_at};
ghost use Rattle.tv_reader.specs.Depth.{Opens, EncodesWithin, ElementsWithin, EntriesWithin, BehindKey, AmongElements, AmongEntries};
ghost use Rattle.tv_reader.specs.Error.{StoreTakesRoomy};
ghost use Rattle.tv_reader.specs.Finds.{FindsRoomy, FindsDeep};
ghost use Rattle.tv_reader.specs.HeadReading.{coded_text_by, key_by};
ghost use Rattle.tv_reader.specs.Trees.{EncodesValue, NoValue, EncodesBehind, NoneBehind, EncodesItems, NoItems, EncodesMember, NoMember, EncodesMembers};
ghost use Rattle.tv_reader.specs.Trees.{NoMembers, CodedKey};
ghost use Rattle.tv_reader.specs.ValueType.{type_prefix};
ghost use Rattle.tv_reader.specs.Version.{version_of};
ghost use Rattle.tv_reader.specs.declared.error.DeserializeError.TheVariants as errors;
ghost use Rattle.tv_reader.specs.declared.value_type.ValueType.TheVariants as types;
ghost use Rattle.tv_value.specs.Owned.{owned_tree, owned_entries};

use crate::error::{DeserializeError, ValueType};
use crate::legacy::take_legacy;
use crate::value_type::{take_kind, take_leaf};
use crate::version::DocStoreVersion;
use std::alloc::Global;
use tv_base::take::{take_string, take_vint};
use tv_base::{ByteSource, Cause, ReadError};
use tv_value::owned_value::OwnedValue;

// Half of a number.
//
// Errors: those of `take_vint`, and `Corrupted(OddObject)` where the number is odd.
#[tactic(auto, using(tv_base::proofs::TakeSteps::Taken_then), unfolding(crate::specs::Counts::half_at))]
fn take_half<S: ByteSource>(source: &mut S, count: &mut u64) -> Result<u64, ReadError>
    ensures takes { reads.TakesLean S.ByteSource source.old count.old source.new
        count.new (λ x. x) result half_at }
    ensures at_most { count.new ≤ count.old + 10 }
{
    let number = take_vint(source, count)?;
    if number % 2 == 0 {
        Ok(number / 2)
    } else {
        Err(ReadError::Corrupted(Cause::OddObject))
    }
}

/// Takes the number of an object's entries. Versions 1 and 2 announce twice that number.
///
/// Errors: those of `take_vint`, and in versions 1 and 2 `Corrupted(OddObject)` where the number is odd.
#[tactic(auto, unfolding(crate::specs::Counts::entry_count_at))]
pub fn take_entry_count<S: ByteSource>(
    source: &mut S,
    count: &mut u64,
    version: DocStoreVersion,
) -> Result<u64, ReadError>
    ensures takes { reads.TakesLean S.ByteSource source.old count.old source.new
        count.new (λ x. x) result (entry_count_at (version_of version)) }
    ensures at_most { count.new ≤ count.old + 10 }
{
    match version {
        DocStoreVersion::V1 | DocStoreVersion::V2 => take_half(source, count),
        DocStoreVersion::V3 => take_vint(source, count),
    }
}

/// Takes a key: a text, which in versions 1 and 2 stands after its code.
///
/// Errors: those of `take_string`, and in versions 1 and 2 also those of `take_kind`, and `TypeMismatch` where a value of another
/// type stands there.
#[tactic(auto, unfolding(crate::specs::HeadReading::key_by))]
pub fn take_key<S: ByteSource>(
    alloc: Global,
    source: &mut S,
    count: &mut u64,
    version: DocStoreVersion,
) -> Result<String, DeserializeError>
    ensures takes { StoreTakesRoomy S.ByteSource source.old count.old source.new count.new
        (λ s. string_bytes s) result (key_by text_at (version_of version)) }
    ensures finds { FindsRoomy S.ByteSource source.old count.old source.new
        count.new result (λ b key. Key (version_of version) b (string_bytes key))
        (ErrorInKey (version_of version)) }
{
    match version {
        DocStoreVersion::V1 | DocStoreVersion::V2 => take_coded_key(alloc, source, count),
        DocStoreVersion::V3 => {
            let key = take_string(alloc, source, count)?;
            Ok(key)
        }
    }
}

// A text after its code.
//
// Errors: those of `take_kind` and of `take_string`, and `TypeMismatch` where a value of another type stands there.
fn take_coded_key<S: ByteSource>(
    alloc: Global,
    source: &mut S,
    count: &mut u64,
) -> Result<String, DeserializeError>
    ensures takes { StoreTakesRoomy S.ByteSource source.old count.old source.new count.new
        (λ s. string_bytes s) result (coded_text_by text_at) }
    ensures finds { FindsRoomy S.ByteSource source.old count.old source.new
        count.new result CodedKey ErrorInCodedKey }
{
    let kind = take_kind(source, count)?;
    match kind {
        ValueType::String => {
            let key = take_string(alloc, source, count)?;
            Ok(key)
        }
        actual => Err(DeserializeError::TypeMismatch {
            expected: ValueType::String,
            actual,
        }),
    }
}

/// Takes a legacy object, after its code. How deep it nests has no limit of ours: those that are read as JSON nest 127 levels deep at most.
///
/// Errors: `CorruptedValue` with the first error in the bytes; `Io` where the source failed; `Memory`.
pub fn take_legacy_object<S: ByteSource>(
    alloc: Global,
    source: &mut S,
    count: &mut u64,
) -> Result<OwnedValue, DeserializeError>
    ensures finds { (v : Version) → FindsRoomy S.ByteSource source.old count.old
        source.new count.new result (EncodesBehind v types.JSONObject)
        (NoneBehind v types.JSONObject) }
{
    let value = take_legacy(alloc, source, count)?;
    Ok(value)
}

// How many lists may be opened in one that is opened now. The only error is `TooDeep`, where none may be opened.
fn levels_below(levels: u32) -> Result<u32, DeserializeError>
    ensures ok { IfOk result (λ below. levels ≡ suc below) }
    ensures err { IfErr result (λ e. (e ≡ errors.TooDeep) × (levels ≡ 0)) }
{
    if levels == 0 {
        return Err(DeserializeError::TooDeep);
    }
    Ok(levels - 1)
}

/// Takes a value of any type, in which no more than `levels` lists, which are arrays and objects, are open at once. A legacy object
/// isn't counted, nor what it holds. Nothing is reserved from announced numbers.
///
/// Errors: `CorruptedValue` with the first error in the bytes; `TypeMismatch` where in a key's place stands a value that isn't a
/// text; `TooDeep` right after the code of a list that is one too many; `Io` where the source failed; `Memory`.
#[cycle(trees)]
pub fn take_tree<S: ByteSource>(
    alloc: Global,
    source: &mut S,
    count: &mut u64,
    version: DocStoreVersion,
    levels: u32,
) -> Result<OwnedValue, DeserializeError>
    ensures finds { FindsDeep S.ByteSource source.old count.old source.new count.new
        result (EncodesValue (version_of version)) (NoValue (version_of version)) }
    ensures within { S.is_known source.old → IfOk result
        (λ made. Begins (λ b. EncodesWithin (version_of version) levels b (owned_tree made))
        (S.left source.old) (S.left source.new)) }
    ensures deep { S.is_known source.old → IsErrOf result errors.TooDeep
        → Begins (Opens (version_of version) levels) (S.left source.old) (S.left source.new) }
{
    let before = *count;
    let kind = take_kind(source, count)?;
    // so the recursion ends: the count has an end
    prove!(before < *count);
    take_behind(alloc, source, count, version, kind, levels)
}

/// Takes a value whose type was taken. Errors: those of [`take_tree`].
#[cycle(trees)]
pub fn take_behind<S: ByteSource>(
    alloc: Global,
    source: &mut S,
    count: &mut u64,
    version: DocStoreVersion,
    kind: ValueType,
    levels: u32,
) -> Result<OwnedValue, DeserializeError>
    ensures finds { FindsDeep S.ByteSource source.old count.old source.new count.new
        result (EncodesBehind (version_of version) kind) (NoneBehind (version_of version) kind) }
    ensures within { S.is_known source.old → IfOk result
        (λ made. Begins
        (λ b. EncodesWithin (version_of version) levels (type_prefix kind ++ b) (owned_tree made))
        (S.left source.old) (S.left source.new)) }
    ensures deep { S.is_known source.old → IsErrOf result errors.TooDeep
        → Begins (λ b. Opens (version_of version) levels (type_prefix kind ++ b)) (S.left source.old)
        (S.left source.new) }
{
    match kind {
        ValueType::Array => {
            let below = levels_below(levels)?;
            let announced = take_vint(source, count)?;
            let items = take_items(alloc, source, count, version, announced, below)?;
            Ok(OwnedValue::Array(items))
        }
        ValueType::Object => {
            let below = levels_below(levels)?;
            let announced = take_entry_count(source, count, version)?;
            let members = take_members(alloc, source, count, version, announced, below)?;
            Ok(OwnedValue::Object(members))
        }
        ValueType::JSONObject => take_legacy_object(alloc, source, count),
        leaf => {
            let value = take_leaf(alloc, source, count, version, leaf)?;
            Ok(value)
        }
    }
}

// This many values.
#[cycle(trees)]
fn take_items<S: ByteSource>(
    alloc: Global,
    source: &mut S,
    count: &mut u64,
    version: DocStoreVersion,
    announced: u64,
    levels: u32,
) -> Result<Vec<OwnedValue>, DeserializeError>
    ensures finds { FindsDeep S.ByteSource source.old count.old source.new count.new
        result (EncodesItems (version_of version) announced)
        (NoItems (version_of version) announced) }
    ensures within { S.is_known source.old → IfOk result (λ made. Begins
        (λ b. ElementsWithin (version_of version) levels b (elements (map owned_tree made.items)))
        (S.left source.old) (S.left source.new)) }
    ensures deep { S.is_known source.old → IsErrOf result errors.TooDeep
        → Begins (AmongElements (version_of version) levels
        (Opens (version_of version) levels) announced) (S.left source.old) (S.left source.new) }
{
    let mut items = Vec::new(alloc);
    for _ in 0..announced {
        let item = take_tree(alloc, source, count, version, levels)?;
        items.push(item)?;
    }
    Ok(items)
}

// A key, and the value after it.
#[cycle(trees)]
fn take_member<S: ByteSource>(
    alloc: Global,
    source: &mut S,
    count: &mut u64,
    version: DocStoreVersion,
    levels: u32,
) -> Result<(String, OwnedValue), DeserializeError>
    ensures finds { FindsDeep S.ByteSource source.old count.old source.new count.new
        result (EncodesMember (version_of version)) (NoMember (version_of version)) }
    ensures within { S.is_known source.old → IfOk result (λ made. Begins
        (Then (λ b. Key (version_of version) b (string_bytes made.0))
        (λ b. EncodesWithin (version_of version) levels b (owned_tree made.1)))
        (S.left source.old) (S.left source.new)) }
    ensures deep { S.is_known source.old → IsErrOf result errors.TooDeep
        → Begins (BehindKey (version_of version) (Opens (version_of version) levels))
        (S.left source.old) (S.left source.new) }
{
    let key = take_key(alloc, source, count, version)?;
    let value = take_tree(alloc, source, count, version, levels)?;
    Ok((key, value))
}

// This many keys with values.
#[cycle(trees)]
fn take_members<S: ByteSource>(
    alloc: Global,
    source: &mut S,
    count: &mut u64,
    version: DocStoreVersion,
    announced: u64,
    levels: u32,
) -> Result<Vec<(String, OwnedValue)>, DeserializeError>
    ensures finds { FindsDeep S.ByteSource source.old count.old source.new count.new
        result (EncodesMembers (version_of version) announced)
        (NoMembers (version_of version) announced) }
    ensures within { S.is_known source.old → IfOk result (λ made. Begins
        (λ b. EntriesWithin (version_of version) levels b (entries (owned_entries made.items)))
        (S.left source.old) (S.left source.new)) }
    ensures deep { S.is_known source.old → IsErrOf result errors.TooDeep
        → Begins (AmongEntries (version_of version) levels
        (Opens (version_of version) levels) announced) (S.left source.old) (S.left source.new) }
{
    let mut members = Vec::new(alloc);
    for _ in 0..announced {
        let member = take_member(alloc, source, count, version, levels)?;
        members.push(member)?;
    }
    Ok(members)
}
