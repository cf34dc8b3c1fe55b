//! Reading a document within limits.

ghost use Rattle.std.specs.Prelude.{◌≡◌, ◌↔◌, ◌<◌, ◌+◌, ◌-◌, ◌^◌, [], ℕ, None, length, IsTrue, OnOk, OnErr, Ok, Err, true, false};
ghost use Rattle.std.specs.Prelude.{IfOk, IfErr, IsErrOf, IsSome, Some, is_ok};
ghost use Rattle.tv_base.specs.declared.cause.Cause.TheVariants.{UnexpectedEnd, TooLong};
ghost use Rattle.tv_base.specs.Parts.{Begins};
ghost use Rattle.tv_base.specs.ReadsAs.{EndsEarly};
ghost use Rattle.tv_base.specs.Stop.{Counts, Taken};
ghost use Rattle.tv_builder.specs.Builder.{state_of, heap_so_far};
ghost use Rattle.tv_builder.specs.HeldPairs.{document_of as pairs_of};
ghost use Rattle.tv_builder.specs.State.{lists_of};
ghost use Rattle.tv_doc.specs.Document.{document_of};
ghost use Rattle.tv_reading.specs.Prefix.{IsDone, IsMalformedNext, NoRoomBehind, parts_read};
ghost use Rattle.tv_reading.specs.Steps.{Advances, Stepped};
ghost use Rattle.tv_reader.specs.Legacy.{Legacy};
ghost use Rattle.tv_reader.specs.declared.error.DeserializeError.{DeserializeError};
ghost use Rattle.tv_reader.specs.Version.{version_of};
ghost use Rattle.tv_reader.specs.declared.error.DeserializeError.TheVariants.{CorruptedValue, HeapFull, AlreadyFailed};
ghost use Rattle.tv_format.specs.InputError.{corrupted};
ghost use Rattle.tv_store.specs.Limits.{Checks, FindsWithin, IsPast, FitsLimits, TestsDepth, ReadsByLimits, IsLimitedError, TakenWithin, has_come, limited_stop, first_count};
ghost use Rattle.tv_store.specs.Limits.{FindsPart, IsCapped, ReadsWithin, StopsWithin, Told, EndsPart, KeepsMost, LeavesPart, ReadsStepWithin, TestsPart};
ghost use Rattle.tv_store.specs.Decoder.{MeetsLegacy, SaysDone, StaysPaid, TakesFew};
ghost use Rattle.tv_reading.specs.Kept.{Grows, KeepsPairs};
ghost use Rattle.tv_store.specs.Documents.{in_place};
ghost use Rattle.tv_store.specs.declared.limits.LimitedReadError.{LimitedReadError};
ghost use Rattle.tv_store.specs.declared.limits.LimitedReadError.TheVariants.{Read, Limit};

use crate::depth::document_within;
use crate::direct_decoder::{DirectDecoder, Step};
use std::alloc::Global;
use std::fmt;
use std::fmt::{Display, Formatter, Write};
use std::mem::replace;
use thiserror::Error;
use tv_base::{ByteSource, Cause};
use tv_builder::heap_pairs::HeapPairs;
use tv_doc::document::CompactDoc;
use tv_reader::{DeserializeError, DocStoreVersion};

/// What reading one document may take. `None` doesn't limit. (Not in tantivy.)
#[derive(Clone, Copy, Debug, Default, PartialEq, Eq)]
pub struct ReadLimits {
    /// The bytes that are taken of the source.
    pub bytes: Option<u64>,
    /// The bytes of heap that the document takes.
    pub heap_bytes: Option<u64>,
    /// The lists, arrays or objects, that are open at once. An object as older stores hold it is read at once, so no list of it is ever open,
    /// and a list without children isn't either: `step_within` doesn't count these, and `read_document_within` does once the whole document
    /// has come.
    pub depth: Option<u32>,
}

/// Which limit was passed. (Not in tantivy.)
#[derive(Clone, Copy, Debug, PartialEq, Eq)]
pub enum ReadLimit {
    /// That of the bytes that are taken: as many were, and more are needed.
    Bytes,
    /// That of the bytes of heap.
    HeapBytes,
    /// That of the lists that are open.
    Depth,
}

impl Display for ReadLimit {
    fn fmt<W: Write>(&self, f: &mut Formatter<W>) -> fmt::Result {
        f.write_str(match self {
            ReadLimit::Bytes => "bytes",
            ReadLimit::HeapBytes => "bytes of heap",
            ReadLimit::Depth => "open lists",
        })
    }
}

/// Why a document wasn't read within limits. (Not in tantivy.)
#[derive(Debug, PartialEq, Drop, Error)]
pub enum LimitedReadError {
    /// The document couldn't be read.
    #[error("{0}")]
    Read(DeserializeError),
    /// It passes a limit.
    #[error("the document passes the limit of its {0}")]
    Limit(ReadLimit),
}

impl From<DeserializeError> for LimitedReadError {
    ghost from_gives = { λ error told. told ≡ LimitedReadError.Read error };

    fn from(error: DeserializeError) -> LimitedReadError {
        LimitedReadError::Read(error)
    }
}

// The limit that was passed by what has come so far, if any was: that of the open lists before that of the heap.
fn passed_limit(decoder: &DirectDecoder, limits: ReadLimits) -> Option<ReadLimit>
    ensures { Checks limits (length (heap_so_far decoder.now.reading.builder))
        (length (lists_of (state_of decoder.now.reading.builder))) result }
{
    if let Some(depth) = limits.depth {
        if decoder.frames() > depth as usize {
            return Some(ReadLimit::Depth);
        }
    }
    if let Some(most) = limits.heap_bytes {
        if decoder.heap_len() as u64 > most {
            return Some(ReadLimit::HeapBytes);
        }
    }
    None
}

// The count from which this many bytes can be counted, as 2^64 - 1 can be in all.
fn first_count(most: Option<u64>) -> u64
    ensures count { result ≡ first_count most }
    ensures room { (n : ℕ) → ¬ IsPast most n → n < 2 ^ 64 → result + n < 2 ^ 64 }
    ensures sum { (bytes : ℕ) → most ≡ Some bytes → result + bytes ≡ 2 ^ 64 - 1 }
{
    match most {
        Some(bytes) => u64::MAX - bytes,
        None => 0,
    }
}

// Whether the number is above the limit, if there is one.
fn is_past(most: Option<u64>, number: u64) -> bool
    ensures { IsTrue result ↔ IsPast most number }
{
    match most {
        Some(most) => number > most,
        None => false,
    }
}

// Whether all bytes were taken that may be, by the count.
fn is_all(most: Option<u64>, count: u64) -> bool
    ensures { IsTrue result ↔ (IsSome most × (count ≡ 2 ^ 64 - 1)) }
{
    count == u64::MAX && most.is_some()
}

// Whether more bytes are needed, and no more can be counted.
fn is_uncounted(error: &DeserializeError) -> bool
    ensures { IsTrue result ↔ (error.now ≡ CorruptedValue TooLong) }
{
    match error {
        DeserializeError::CorruptedValue(Cause::TooLong) => true,
        _ => false,
    }
}

// What is said of an error, where all bytes were taken that may be taken, or not.
fn refused(error: DeserializeError, took_all: bool) -> LimitedReadError
    ensures { Told took_all error result }
{
    if took_all && is_uncounted(&error) {
        LimitedReadError::Limit(ReadLimit::Bytes)
    } else {
        LimitedReadError::Read(error)
    }
}

// Reads the next part, after as many bytes as were taken of those that may be.
fn step_capped<S: ByteSource>(
    decoder: &mut DirectDecoder,
    source: &mut S,
    most: Option<u64>,
) -> Result<Step, LimitedReadError>
    requires not_failed { decoder.old.failed ≡ false }
    requires more { ¬ IsDone decoder.old.reading }
    requires within { ¬ IsPast most decoder.old.count }
    ensures finds { FindsPart S.ByteSource source.old decoder.old.count source.new
        decoder.new.count result
        (λ b _. Stepped (version_of decoder.old.version) decoder.new.legacy_seen
        decoder.old.reading decoder.new.reading b)
        (IsMalformedNext (version_of decoder.old.version) decoder.old.reading) }
    ensures ends { S.is_known source.old → IsErrOf result (Limit ReadLimit.Bytes)
        → EndsEarly (corrupted UnexpectedEnd)
        (IsMalformedNext (version_of decoder.old.version) decoder.old.reading) (S.left source.old)
        (S.left source.new) }
    ensures no_room { S.is_known source.old → IsErrOf result (Read HeapFull)
        → NoRoomBehind (version_of decoder.old.version) decoder.old.reading (S.left source.old) }
    ensures done { IfOk result (λ step. SaysDone step ↔ IsDone decoder.new.reading) }
    ensures not_failed { OnOk result (decoder.new.failed ≡ false) }
    ensures failed { OnErr result (decoder.new.failed ≡ true) }
    ensures limit { IfErr result (IsCapped most decoder.new.count) }
    ensures most { ¬ IsPast most decoder.new.count }
    ensures grows { OnOk result (Grows decoder.old.reading decoder.new.reading) }
    ensures kept { OnErr result (KeepsPairs decoder.old.reading decoder.new.reading) }
    ensures version { decoder.new.version ≡ decoder.old.version }
    ensures at_most { TakesFew S.ByteSource source.old decoder.old decoder.new }
    ensures seen { MeetsLegacy S.ByteSource source.old decoder.old decoder.new }
    ensures paid { S.is_known source.old → StaysPaid decoder.old decoder.new }
{
    let first = first_count(most);
    let taken = decoder.bytes_read();
    decoder.recount(first + taken);
    let stepped = decoder.step(source);
    let count = decoder.bytes_read();
    decoder.recount(count - first);
    match stepped {
        Ok(step) => Ok(step),
        Err(error) => Err(refused(error, is_all(most, count))),
    }
}

// Takes what is left of a document, part by part, until a limit is passed, and says which.
fn take_within<S: ByteSource>(
    decoder: &mut DirectDecoder,
    source: &mut S,
    limits: ReadLimits,
) -> Result<Option<ReadLimit>, DeserializeError>
    requires not_failed { decoder.old.failed ≡ false }
    requires more { ¬ IsDone decoder.old.reading }
    requires nothing { parts_read decoder.old.reading ≡ [] }
    ensures finds { FindsWithin S.ByteSource source.old decoder.old.count source.new
        decoder.new.count result
        (λ b _. Advances Legacy (version_of decoder.old.version) decoder.old.reading
        decoder.new.reading b) (IsMalformedNext (version_of decoder.old.version) decoder.old.reading) }
    ensures no_room { S.is_known source.old → IsErrOf result HeapFull
        → NoRoomBehind (version_of decoder.old.version) decoder.old.reading (S.left source.old) }
    ensures checked { IfOk result
        (Checks limits (length (heap_so_far decoder.new.reading.builder))
        (length (lists_of (state_of decoder.new.reading.builder)))) }
    ensures done { IfOk result (λ passed. passed ≡ None → IsDone decoder.new.reading) }
    ensures not_failed { IfOk result (λ _. decoder.new.failed ≡ false) }
    ensures version { decoder.new.version ≡ decoder.old.version }
    ensures parts { S.is_known source.old
        → Begins (TakenWithin (version_of decoder.old.version) limits (is_ok result))
        (S.left source.old) (S.left source.new) }
{
    // each part takes a byte at least
    for _ in 0..u64::MAX {
        let step = decoder.step(source)?;
        let passed = passed_limit(decoder, limits);
        if passed.is_some() {
            return Ok(passed);
        }
        if let Step::Done = step {
            return Ok(None);
        }
    }
    let _count = decoder.bytes_read();
    Err(DeserializeError::CorruptedValue(Cause::TooLong))
}

// A document that was read, if each of its values nests within the limit of depth.
fn tested(
    alloc: Global,
    document: CompactDoc,
    depth: Option<u32>,
) -> Result<CompactDoc, LimitedReadError>
    ensures { TestsDepth depth document result }
{
    let Some(most) = depth else {
        return Ok(document);
    };
    match document_within(alloc, &document, most) {
        Ok(true) => Ok(document),
        Ok(false) => Err(LimitedReadError::Limit(ReadLimit::Depth)),
        Err(_) => Err(LimitedReadError::Read(DeserializeError::Memory)),
    }
}

// Reads a document, part by part, until a limit is passed, into the memory of pairs that were taken off. Counts the bytes that are taken.
fn read_parts<S: ByteSource>(
    alloc: Global,
    empty: HeapPairs,
    source: &mut S,
    count: &mut u64,
    version: DocStoreVersion,
    limits: ReadLimits,
) -> Result<CompactDoc, LimitedReadError>
    requires { pairs_of empty ≡ [] }
    ensures comes { S.is_known source.old
        → ReadsByLimits (version_of version) limits (S.left source.old) (S.left source.new) result }
    ensures fits { IfOk result (FitsLimits limits) }
    ensures errors { IfErr result (IsLimitedError limits) }
    ensures failures { Counts limited_stop result (S.failures source.old) (S.failures source.new) }
    ensures stays_known { S.is_known source.old → S.is_known source.new }
    ensures counted { S.is_known source.old
        → Taken (S.left source.old) (S.left source.new) 0 count.new }
    ensures parts { S.is_known source.old
        → Begins (TakenWithin (version_of version) limits (has_come result)) (S.left source.old)
        (S.left source.new) }
{
    let first = first_count(limits.bytes);
    let mut decoder = DirectDecoder::counting_from(alloc, empty, version, first);
    let taken = take_within(&mut decoder, source, limits);
    let last = decoder.bytes_read();
    *count = last - first;
    let passed = match taken {
        Ok(passed) => passed,
        Err(error) => return Err(refused(error, is_all(limits.bytes, last))),
    };
    match passed {
        Some(limit) => Err(LimitedReadError::Limit(limit)),
        None => tested(alloc, decoder.into_doc(), limits.depth),
    }
}

// Reads a document as `read_parts` does, in place of one that is there and in its memory. After an error the document has no pairs.
pub(crate) fn read_parts_in_place<S: ByteSource>(
    alloc: Global,
    document: &mut CompactDoc,
    source: &mut S,
    count: &mut u64,
    version: DocStoreVersion,
    limits: ReadLimits,
) -> Result<(), LimitedReadError>
    ensures comes { S.is_known source.old
        → ReadsByLimits (version_of version) limits (S.left source.old) (S.left source.new)
        (in_place result document.new) }
    ensures fits { OnOk result (FitsLimits limits document.new) }
    ensures errors { IfErr result (IsLimitedError limits) }
    ensures none { OnErr result (document_of document.new ≡ []) }
    ensures failures { Counts limited_stop result (S.failures source.old) (S.failures source.new) }
    ensures stays_known { S.is_known source.old → S.is_known source.new }
    ensures counted { S.is_known source.old
        → Taken (S.left source.old) (S.left source.new) 0 count.new }
    ensures parts { S.is_known source.old
        → Begins (TakenWithin (version_of version) limits (has_come result)) (S.left source.old)
        (S.left source.new) }
{
    let mut empty = replace(document, CompactDoc::new(alloc)).into_pairs();
    empty.clear();
    *document = read_parts(alloc, empty, source, count, version, limits)?;
    Ok(())
}

impl DirectDecoder {
    /// Reads the next part as `step` does, and then tests what has come so far against limits. Of the source no more bytes are taken than
    /// may be in all, also within a part. (Not in tantivy.)
    ///
    /// Errors: `Read` with those of `step`, also where the last byte that may be taken shows one; `Limit(Bytes)` where just as many bytes as
    /// may be were taken and the part needs more, or where more were taken before; `Limit(Depth)` where more than `depth` lists are open once
    /// the part has come, else `Limit(HeapBytes)` where the document's heap takes more than `heap_bytes` bytes then. After each the decoder
    /// is refused, as after those of `step`.
    pub fn step_within<S: ByteSource>(
        &mut self,
        source: &mut S,
        limits: ReadLimits,
    ) -> Result<Step, LimitedReadError>
        // what was taken, and what has come then; or why nothing has
        ensures steps { ReadsStepWithin limits S.ByteSource source.old source.new self.old self.new
            result }

        // a limit is passed exactly where it is reported
        ensures ends { EndsPart limits S.ByteSource source.old source.new self.old result }
        ensures limits { TestsPart limits self.old self.new result }
        ensures most { KeepsMost limits self.old self.new }

        // the heap grows at its end, or ends after the finished pairs after a refusal; these are kept
        ensures leaves { LeavesPart self.old self.new result }

        // as of `step`: how many bytes are taken, objects of older stores, and what is paid for by the bytes that were read
        ensures at_most { TakesFew S.ByteSource source.old self.old self.new }
        ensures seen { MeetsLegacy S.ByteSource source.old self.old self.new }
        ensures paid { S.is_known source.old → StaysPaid self.old self.new }
    {
        if self.has_failed() {
            return Err(LimitedReadError::Read(DeserializeError::AlreadyFailed));
        }
        if self.is_done() {
            return Ok(Step::Done);
        }
        if is_past(limits.bytes, self.bytes_read()) {
            self.refuse();
            return Err(LimitedReadError::Limit(ReadLimit::Bytes));
        }
        let step = step_capped(self, source, limits.bytes)?;
        match passed_limit(self, limits) {
            Some(limit) => {
                self.refuse();
                Err(LimitedReadError::Limit(limit))
            }
            None => Ok(step),
        }
    }
}

/// Reads a document as `read_document` does, and stops where it passes a limit. The parts are those that a step of `DirectDecoder` reads,
/// so a text with its tokens is one part, and so is an object as stores of versions 1 and 2 may hold it, a JSON text with code 8. In such an
/// object no list is open while it is read, and it nests at most 127 levels by itself: how deep the values nest is tested once more when the
/// document has come. The test takes memory for values that nest deeper than `MAX_DEPTH` levels. Without limits `read_document` is faster. Never more
/// than `bytes` bytes are taken of the source, also within a part. The other limits are tested after each part, so at most one part is taken after
/// what passes no limit: 4096 bytes, or a value that is taken whole. (Not in tantivy.)
///
/// Errors: `Limit(Bytes)` where all these were taken and the document needs more, so no prefix of them encodes one; `Limit(Depth)` right
/// after the head of the list with which more than `depth` lists are open, `Limit(HeapBytes)` right after the part with which the
/// document's heap takes more than `heap_bytes` bytes, and the first of them where both hold; `Limit(Depth)` after a document of which a
/// value nests deeper by an object of an older store or by a list without children; else `Read` with the error of `read_document`, also
/// where the last byte that may be taken shows it, and with `Memory` where it is refused for that test.
///
/// ```
/// pub fn read_untrusted(alloc: Global, bytes: &[u8]) -> Result<TantivyDocument, LimitedReadError> {
///     let limits = ReadLimits {
///         bytes: Some(1 << 20),
///         heap_bytes: Some(1 << 20),
///         depth: Some(32),
///     };
///     let mut source = SliceSource::new(bytes);
///     read_document_within(alloc, &mut source, DocStoreVersion::V2, limits)
/// }
/// ```
pub fn read_document_within<S: ByteSource>(
    alloc: Global,
    source: &mut S,
    version: DocStoreVersion,
    limits: ReadLimits,
) -> Result<CompactDoc, LimitedReadError>
    ensures reads { ReadsWithin (version_of version) limits S.ByteSource source.old source.new
        result }

    // each tree and the heap are within their limits
    ensures fits { IfOk result (FitsLimits limits) }

    // what was taken passes the limit that is reported
    ensures stops { StopsWithin (version_of version) limits S.ByteSource source.old source.new
        result }
{
    let mut count = 0;
    let empty = HeapPairs::new(alloc);
    read_parts(alloc, empty, source, &mut count, version, limits)
}
