//! Whole pairs that a source has buffered.

ghost use Rattle.std.specs.Prelude.{◌≡◌, ◌+◌, ◌≤◌, length, Ok, IfNone, IfSome};
ghost use Rattle.tv_reading.specs.Buffered.{AddsBufferedPairs};
ghost use Rattle.tv_reading.specs.ChosenBuffered.{AddsBufferedChosen, AddsChosenPair, AddsChosenPairs};
ghost use Rattle.tv_builder.specs.HeldPairs.{document_of, IsUnchanged};
ghost use Rattle.tv_reader.specs.Finds.{Finds, Nothing};
ghost use Rattle.tv_reader.specs.Version.{version_of};
ghost use Rattle.tv_format.specs.WriteVersion.{written_version};

use crate::encoded::behind_value;
use crate::wanted::WantedFields;
use tv_base::ByteSource;
use tv_builder::heap_pairs::HeapPairs;
use tv_format::WriteVersion;
use tv_reader::DocStoreVersion;
use tv_value::field::Field;
use tv_value::nested::MAX_DEPTH;

/// Adds the next pairs that the source has buffered whole, at once, up to this many, and says how many they are. It may add none: where the
/// source doesn't give the bytes that it has buffered, the pairs are taken back, so that they are read part by part.
pub fn take_buffered_pairs<S: ByteSource>(
    document: &mut HeapPairs,
    source: &mut S,
    count: &mut u64,
    version: DocStoreVersion,
    most: u64,
) -> u64
    ensures finds { Finds S.ByteSource source.old count.old source.new count.new
        (Ok result) (λ b added. AddsBufferedPairs (version_of version) document.old document.new b added)
        Nothing }
    ensures counted { length (document_of document.new)
        ≡ length (document_of document.old) + result }
    ensures most { result ≤ most }
{
    let Some(known) = version.written() else {
        return 0;
    };
    let lent = source.buffered();
    if u64::MAX - *count < lent.len() as u64 {
        return 0;
    }
    let pairs = document.pairs.len();
    let heap = document.heap.len();
    let (rest, added) = document.add_encoded(lent, known, most);
    let taken = lent.len() - rest.len();
    if taken == 0 {
        return added;
    }
    if !source.pass(taken) {
        document.take_back(pairs, heap);
        return 0;
    }
    *count += taken as u64;
    added
}

// What follows the pair at the start, which is added if its field is among these. None where there is no pair, or it can't be added or passed over where it
// stands.
#[inline(always)]
fn add_chosen_pair<'a>(
    document: &mut HeapPairs,
    bytes: &'a [u8],
    version: WriteVersion,
    wanted: &WantedFields<'_>,
) -> Option<&'a [u8]>
    ensures added { IfSome result
        (λ rest. AddsChosenPair (written_version version) wanted.now.fields.now document.old document.new
        bytes.now rest.now) }
    ensures none { IfNone result (IsUnchanged document.old document.new) }
{
    let (prefix, value) = bytes.split_first_chunk::<4>()?;
    if !wanted.has(u32::from_le_bytes(*prefix)) {
        return behind_value(value, version, MAX_DEPTH);
    }
    let (rest, added) = document.add_encoded(bytes, version, 1);
    if added == 0 {
        return None;
    }
    Some(rest)
}

// What follows the pairs at the start, as many as there are, up to this many, and how many they are. Those whose field is among these are added.
fn add_chosen<'a>(
    document: &mut HeapPairs,
    bytes: &'a [u8],
    version: WriteVersion,
    wanted: &WantedFields<'_>,
    most: u64,
) -> (&'a [u8], u64)
    ensures added { AddsChosenPairs (written_version version) wanted.now.fields.now document.old
        document.new bytes.now result.0.now result.1 }
    ensures most { result.1 ≤ most }
{
    let mut rest = bytes;
    for count in 0..most {
        let Some(behind) = add_chosen_pair(document, rest, version, wanted) else {
            return (rest, count);
        };
        rest = behind;
    }
    (rest, most)
}

// Takes the next pairs that the source has buffered whole, at once, up to this many, and says how many they are. Those whose field is among these are added. It
// may take none: where the source doesn't give the bytes that it has buffered, the pairs are taken back, so that they are read part by part.
pub(crate) fn take_buffered_chosen<S: ByteSource>(
    document: &mut HeapPairs,
    source: &mut S,
    count: &mut u64,
    version: DocStoreVersion,
    fields: &[Field],
    most: u64,
) -> u64
    ensures finds { Finds S.ByteSource source.old count.old source.new count.new (Ok result)
        (λ b taken. AddsBufferedChosen (version_of version) fields.now document.old document.new b taken)
        Nothing }
    ensures most { result ≤ most }
{
    let Some(known) = version.written() else {
        return 0;
    };
    let lent = source.buffered();
    if u64::MAX - *count < lent.len() as u64 {
        return 0;
    }
    let pairs = document.pairs.len();
    let heap = document.heap.len();
    let wanted = WantedFields::new(fields);
    let (rest, taken) = add_chosen(document, lent, known, &wanted, most);
    let len = lent.len() - rest.len();
    if len == 0 {
        return taken;
    }
    if !source.pass(len) {
        document.take_back(pairs, heap);
        return 0;
    }
    *count += len as u64;
    taken
}
