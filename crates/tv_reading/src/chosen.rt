//! Reading the pairs of chosen fields from a source that is lent, with the count of the bytes that were taken of it.

ghost use Rattle.std.specs.Prelude.{◌≡◌, [], Ok, IfSome, IsErrOf, true};
ghost use Rattle.tv_builder.specs.HeldPairs.{document_of};
ghost use Rattle.tv_reading.specs.ChosenFields.{ChosenHaveNoRoom, FindsChosen};
ghost use Rattle.tv_reading.specs.ChosenPair.{BeginsAsPair, AddsIf, FindsPair, FindsNoPair, PairHasNoRoom};
ghost use Rattle.tv_reading.specs.PairValue.{CanStand};
ghost use Rattle.tv_reader.specs.Finds.{Finds, Nothing};
ghost use Rattle.tv_reader.specs.Version.{version_of};
ghost use Rattle.tv_reader.specs.declared.error.DeserializeError.TheVariants.{HeapFull};

use crate::buffered::{take_buffered_chosen, take_buffered_pairs};
use crate::document::take_pair_value;
use crate::items::pass_value;
use crate::wanted::is_among;
use std::alloc::Global;
use tv_base::ByteSource;
use tv_builder::heap_pairs::HeapPairs;
use tv_reader::heads::{take_document_head, take_field};
use tv_reader::{DeserializeError, DocStoreVersion};
use tv_value::field::Field;

// The field of a pair that the bytes begin with.
fn field_at(bytes: &[u8]) -> Option<u32>
    ensures { IfSome result (BeginsAsPair bytes.now) }
{
    let prefix = bytes.first_chunk::<4>()?;
    Some(u32::from_le_bytes(*prefix))
}

// The field of the next pair, if it is buffered.
fn buffered_field<S: ByteSource>(source: &S) -> Option<u32>
    ensures { S.is_known source.now → IfSome result (BeginsAsPair (S.left source.now)) }
{
    field_at(source.buffered())
}

// Adds the next pair, if its field is among these and the source has the pair buffered whole. Says whether it did.
fn take_buffered_pair<S: ByteSource>(
    document: &mut HeapPairs,
    source: &mut S,
    count: &mut u64,
    version: DocStoreVersion,
    fields: &[Field],
) -> bool
    ensures finds { Finds S.ByteSource source.old count.old source.new count.new
        (Ok result) (λ b added. AddsIf (version_of version) fields.now document.old document.new b
        added) Nothing }
{
    let Some(field) = buffered_field(source) else {
        return false;
    };
    if !is_among(fields, field) {
        return false;
    }
    take_buffered_pairs(document, source, count, version, 1) == 1
}

// Takes the next pair part by part. One whose field isn't among these is passed over.
fn take_pair_by_parts<S: ByteSource>(
    alloc: Global,
    document: HeapPairs,
    source: &mut S,
    count: &mut u64,
    version: DocStoreVersion,
    fields: &[Field],
    bytes: &mut Vec<u8>,
) -> Result<HeapPairs, DeserializeError>
    ensures finds { Finds S.ByteSource source.old count.old source.new count.new
        result (FindsPair (version_of version) fields.now (document_of document))
        (FindsNoPair (version_of version) (document_of document)) }
    ensures no_room { S.is_known source.old → IsErrOf result HeapFull
        → CanStand (version_of version) (document_of document)
        → PairHasNoRoom (version_of version) fields.now (document_of document)
        (S.left source.old) }
{
    let field = take_field(source, count)?;
    if is_among(fields, field) {
        return take_pair_value(alloc, document, source, count, version, field, bytes);
    }
    pass_value(alloc, source, count, version)?;
    Ok(document)
}

// Takes the next pair, at once where the source has it buffered whole. One whose field isn't among these is passed over.
fn take_chosen_pair<S: ByteSource>(
    alloc: Global,
    document: HeapPairs,
    source: &mut S,
    count: &mut u64,
    version: DocStoreVersion,
    fields: &[Field],
    bytes: &mut Vec<u8>,
) -> Result<HeapPairs, DeserializeError>
    ensures finds { Finds S.ByteSource source.old count.old source.new count.new
        result (FindsPair (version_of version) fields.now (document_of document))
        (FindsNoPair (version_of version) (document_of document)) }
    ensures no_room { S.is_known source.old → IsErrOf result HeapFull
        → CanStand (version_of version) (document_of document)
        → PairHasNoRoom (version_of version) fields.now (document_of document)
        (S.left source.old) }
{
    let mut pairs = document;
    if take_buffered_pair(&mut pairs, source, count, version, fields) {
        return Ok(pairs);
    }
    take_pair_by_parts(alloc, pairs, source, count, version, fields, bytes)
}

/// Takes a document, and keeps the pairs whose field is among these, in order, in the memory of pairs that were taken off. All others are tested
/// as if they were read, and passed over as `pass_value` does. Values that are kept are read straight into the heap, to any depth, by a recursion of
/// `MAX_DEPTH` levels at most. Nothing is reserved from announced numbers, and no byte after the document is taken.
///
/// Fields with numbers below 64 are looked up in a table, and others are looked through for each pair. Without any, all pairs are passed over.
///
/// Errors: `CorruptedValue` and `TypeMismatch` with the first error in the bytes, whether or not it is in a pair that is kept; `HeapFull`
/// where what has come of the kept pairs needs more room than 4294967295 bytes; `Io` where the source failed; `Memory`.
pub fn take_chosen_into<S: ByteSource>(
    alloc: Global,
    empty: HeapPairs,
    source: &mut S,
    count: &mut u64,
    version: DocStoreVersion,
    fields: &[Field],
) -> Result<HeapPairs, DeserializeError>
    requires { document_of empty ≡ [] }
    ensures finds { FindsChosen version fields.now S.ByteSource source.old count.old source.new
        count.new result }
    ensures no_room { ChosenHaveNoRoom version fields.now S.ByteSource source.old result }
{
    let announced = take_document_head(source, count)?;
    let mut document = empty;
    let taken = take_buffered_chosen(&mut document, source, count, version, fields, announced);
    let mut bytes = Vec::new(alloc);
    for _ in taken..announced {
        document = take_chosen_pair(alloc, document, source, count, version, fields, &mut bytes)?;
    }
    Ok(document)
}
