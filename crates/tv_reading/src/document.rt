//! Reading whole documents from a source that is lent, with the count of the bytes that were taken of it.

ghost use Rattle.std.specs.Prelude.{◌≡◌, [], IsErrOf};
ghost use Rattle.tv_builder.specs.HeldPairs.{document_of};
ghost use Rattle.tv_reading.specs.Documents.{DocumentHasNoRoom, EncodesRest, FindsDocument};
ghost use Rattle.tv_reading.specs.PairValue.{FindsPairValue, PairValueHasNoRoom};
ghost use Rattle.tv_reading.specs.Prefix.{IsSound, IsMalformedNext, NoRoomBehind};
ghost use Rattle.tv_reader.specs.Finds.{Finds};
ghost use Rattle.tv_reader.specs.Version.{version_of};
ghost use Rattle.tv_reader.specs.declared.error.DeserializeError.TheVariants.{HeapFull};

use crate::buffered::take_buffered_pairs;
use crate::reading::Reading;
use std::alloc::Global;
use tv_base::{ByteSource, Cause};
use tv_builder::heap_pairs::HeapPairs;
use tv_reader::heads::take_document_head;
use tv_reader::{DeserializeError, DocStoreVersion};

// Takes what is left of a document, part by part, and whole pairs where the source has them buffered. `bytes` is a buffer for at most 4096 bytes.
fn take_rest<S: ByteSource>(
    alloc: Global,
    source: &mut S,
    count: &mut u64,
    version: DocStoreVersion,
    begun: Reading,
    bytes: &mut Vec<u8>,
) -> Result<HeapPairs, DeserializeError>
    requires { IsSound begun }
    ensures finds { Finds S.ByteSource source.old count.old source.new count.new
        result (EncodesRest (version_of version) begun) (IsMalformedNext (version_of version) begun) }
    ensures no_room { S.is_known source.old → IsErrOf result HeapFull
        → NoRoomBehind (version_of version) begun (S.left source.old) }
{
    let mut reading = begun;
    let mut legacy_seen = false;
    // each part takes a byte at least
    for _ in 0..u64::MAX {
        if reading.is_done() {
            return Ok(reading.into_pairs());
        }
        reading.advance(alloc, source, count, version, &mut legacy_seen, bytes)?;
        reading = reading.with_buffered_pairs(source, count, version);
    }
    if reading.is_done() {
        return Ok(reading.into_pairs());
    }
    let _taken = *count;
    *count = u64::MAX;
    Err(DeserializeError::CorruptedValue(Cause::TooLong))
}

/// Takes a document: the number of its pairs, and each pair, to any depth, by a recursion of `MAX_DEPTH` levels at most. Nothing is reserved from
/// announced numbers, and no byte after the document is taken.
///
/// Errors: `CorruptedValue` and `TypeMismatch` with the first error in the bytes; `HeapFull` where what has come needs more room than
/// 4294967295 bytes; `Io` where the source failed; `Memory`.
#[inline(always)]
pub fn take_document<S: ByteSource>(
    alloc: Global,
    source: &mut S,
    count: &mut u64,
    version: DocStoreVersion,
) -> Result<HeapPairs, DeserializeError>
    ensures finds { FindsDocument version S.ByteSource source.old count.old source.new count.new
        result }
    ensures no_room { DocumentHasNoRoom version S.ByteSource source.old result }
{
    take_document_into(alloc, HeapPairs::new(alloc), source, count, version)
}

/// Takes a document as `take_document` does, in the memory of pairs that were taken off.
#[inline(always)]
pub fn take_document_into<S: ByteSource>(
    alloc: Global,
    empty: HeapPairs,
    source: &mut S,
    count: &mut u64,
    version: DocStoreVersion,
) -> Result<HeapPairs, DeserializeError>
    requires { document_of empty ≡ [] }
    ensures finds { FindsDocument version S.ByteSource source.old count.old source.new count.new
        result }
    ensures no_room { DocumentHasNoRoom version S.ByteSource source.old result }
{
    let announced = take_document_head(source, count)?;
    let mut document = empty;
    let finished = take_buffered_pairs(&mut document, source, count, version, announced);
    if finished == announced {
        return Ok(document);
    }
    let begun = Reading::between_pairs(announced, finished, document);
    let mut bytes = Vec::new(alloc);
    take_rest(alloc, source, count, version, begun, &mut bytes)
}

/// Takes a value, to any depth, and adds the pair of this field and the value to the document, in its memory. `bytes` is a buffer for at
/// most 4096 bytes, which may be lent to one call after the other.
///
/// What is found is shown of a document whose pairs some bytes of this version encode, as those do that were read before.
///
/// Errors: `CorruptedValue` and `TypeMismatch` with the first error in the bytes; `HeapFull` where what has come needs more room than
/// 4294967295 bytes; `Io` where the source failed; `Memory`.
pub fn take_pair_value<S: ByteSource>(
    alloc: Global,
    document: HeapPairs,
    source: &mut S,
    count: &mut u64,
    version: DocStoreVersion,
    field: u32,
    bytes: &mut Vec<u8>,
) -> Result<HeapPairs, DeserializeError>
    ensures finds { FindsPairValue version document field S.ByteSource source.old count.old
        source.new count.new result }
    ensures no_room { PairValueHasNoRoom version document S.ByteSource source.old result }
{
    let begun = Reading::before_value(document, field);
    take_rest(alloc, source, count, version, begun, bytes)
}
