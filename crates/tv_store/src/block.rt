//! Documents that stand one after the other, read in the memory of one, and counted.

ghost use Rattle.std.specs.Prelude.{◌≡◌, ◌↔◌, [], length, true, false, Some, Ok, Err, IsErrOf, IsTrue};
ghost use Rattle.tv_base.specs.Stop.{Counts, Taken};
ghost use Rattle.tv_doc.specs.Document.{document_of};
ghost use Rattle.tv_reader.specs.Version.{version_of};
ghost use Rattle.tv_reader.specs.declared.error.DeserializeError.TheVariants.{AlreadyFailed, HeapFull};
ghost use Rattle.tv_store.specs.BlockSteps.{FinishesBlock, LeavesNone, StartsAt, StepsBlock, place_of, refusal_of};
ghost use Rattle.tv_store.specs.Blocks.{SaysNothingWithin, SeesNext};
ghost use Rattle.tv_store.specs.Documents.{SaysNothing};
ghost use Rattle.tv_store.specs.Limits.{FitsLimits, ReadsNextWithin, StopsNextWithin, limited_stop};
ghost use Rattle.tv_store.specs.Reading.{PassesNext, ReadsNext, ReadsNextFields};
ghost use Rattle.tv_store.specs.declared.limits.LimitedReadError.TheVariants.{Read};

use crate::de::take_in_place;
use crate::early_end::{EarlyEnd, next_of};
use crate::fields::take_fields_in_place;
use crate::limits::{LimitedReadError, ReadLimit, ReadLimits, read_parts_in_place};
use std::alloc::Global;
use thiserror::Error;
use tv_base::{ByteSource, Cause};
use tv_doc::document::CompactDoc;
use tv_reader::{DeserializeError, DocStoreVersion};
use tv_reading::items::pass_document;
use tv_value::field::Field;

/// Why the next document of a block can't be read. (Not in tantivy.)
#[derive(Debug, PartialEq, Drop, Error)]
#[error("document {document}, which begins at byte {start}, is refused at byte {place}: {error}")]
pub struct RefusedDocument {
    /// The number of the document, counted from 0: how many come before it.
    pub document: u64,
    /// The byte of the block at which it begins: how many bytes those before it take.
    pub start: u64,
    /// How many bytes of the block were taken when it was refused.
    pub place: u64,
    /// Why it is refused.
    pub error: LimitedReadError,
}

// Whether no byte may be taken of a document.
fn takes_none(limits: ReadLimits) -> bool
    ensures { IsTrue result ↔ (limits.bytes ≡ Some 0) }
{
    match limits.bytes {
        Some(bytes) => bytes == 0,
        None => false,
    }
}

// Reads a document of which no byte may be taken: it passes that limit. Its first byte is taken to see it, and counted.
fn see_next<S: ByteSource>(source: &mut S, count: &mut u64) -> Result<(), LimitedReadError>
    ensures sees { SeesNext (S.is_known source.old) (S.left source.old) (S.left source.new) result }
    ensures counted { S.is_known source.old
        → Taken (S.left source.old) (S.left source.new) 0 count.new }
    ensures failures { Counts limited_stop result (S.failures source.old) (S.failures source.new) }
    ensures stays_known { S.is_known source.old → S.is_known source.new }
{
    *count = 0;
    match source.next_byte() {
        Ok(None) => Err(LimitedReadError::Read(DeserializeError::CorruptedValue(
            Cause::UnexpectedEnd,
        ))),
        Ok(Some(_)) => {
            *count = 1;
            Err(LimitedReadError::Limit(ReadLimit::Bytes))
        }
        Err(kind) => Err(LimitedReadError::Read(DeserializeError::Io(kind))),
    }
}

/// Reads documents that stand one after the other, as a block of a store has them, each in place of the one before and in its memory. So a
/// block takes memory once. It counts the documents and their bytes. (Not in tantivy.)
///
/// It is lent the source for each call, so it holds none. After a refusal each call returns `AlreadyFailed` and reads nothing.
///
/// ```
/// pub fn values_of_block(alloc: Global, block: &[u8]) -> Result<usize> {
///     let mut source = SliceSource::new(block);
///     let mut reader = BlockReader::new(alloc, DocStoreVersion::V2);
///     let mut values: usize = 0;
///     while reader.advance(&mut source)? {
///         values = values.saturating_add(reader.document().len());
///     }
///     Ok(values)
/// }
/// ```
#[derive(Debug, Drop)]
pub struct BlockReader {
    alloc: Global,
    version: DocStoreVersion,
    document: CompactDoc,
    // How many documents were read or passed over, and how many bytes these take.
    documents: u64,
    start: u64,
    // How many bytes the last call took.
    taken: u64,
    failed: bool,
}

impl BlockReader {
    /// A reader of documents of this version. It reads nothing and takes no memory.
    pub fn new(alloc: Global, version: DocStoreVersion) -> BlockReader
        ensures { StartsAt version 0 0 result }
    {
        BlockReader::starting_at(alloc, version, 0, 0)
    }

    /// A reader that begins in a block after `documents` documents, which take `bytes` bytes. Its counts go on from these. It reads nothing and takes
    /// no memory.
    pub fn starting_at(
        alloc: Global,
        version: DocStoreVersion,
        documents: u64,
        bytes: u64,
    ) -> BlockReader
        ensures { StartsAt version documents bytes result }
    {
        BlockReader {
            alloc,
            version,
            document: CompactDoc::new(alloc),
            documents,
            start: bytes,
            taken: 0,
            failed: false,
        }
    }

    // Counts what was read, by what reading a document returned and how many bytes that took, and says whether there was one.
    fn finish<E: EarlyEnd + Drop>(&mut self, read: Result<(), E>, taken: u64) -> Result<bool, E>
        ensures { FinishesBlock E.early_end self.old self.new read taken result }
    {
        self.taken = taken;
        match next_of(read, taken) {
            Ok(Some(())) => {
                self.documents = self.documents.saturating_add(1);
                self.start = self.start.saturating_add(taken);
                Ok(true)
            }
            Ok(None) => Ok(false),
            Err(error) => {
                self.failed = true;
                Err(error)
            }
        }
    }

    /// Reads the next document as `read_document` does, and says whether there was one: `false` where the source had nothing left.
    ///
    /// Errors: those of `read_document`, and `AlreadyFailed` after one of these. A document that is cut off is `CorruptedValue`, also where it is
    /// the last. At the end and after an error there is no document, and its memory was given back.
    pub fn advance<S: ByteSource>(&mut self, source: &mut S) -> Result<bool, DeserializeError>
        ensures steps { StepsBlock SaysNothing AlreadyFailed S.ByteSource source.old source.new
            self.old self.new result }
        ensures reads { ReadsNext S.ByteSource source.old source.new self.old self.new result }
        ensures none { LeavesNone self.old self.new result }
    {
        if self.failed {
            return Err(DeserializeError::AlreadyFailed);
        }
        let mut count = 0;
        let read = take_in_place(
            self.alloc,
            &mut self.document,
            source,
            &mut count,
            self.version,
        );
        self.finish(read, count)
    }

    /// Reads the next document as `read_document_within` does, which stops where it passes a limit, and says whether there was one: `false`
    /// where the source had nothing left. The limits are those of this document alone.
    ///
    /// Errors: those of `read_document_within`, and `Read` with `AlreadyFailed` after an error of this call or another. Where no byte may be
    /// taken, each document that is there is `Limit(Bytes)`, and its first byte is taken to see it. At the end and after an error there is no
    /// document, and its memory was given back.
    ///
    /// ```
    /// pub fn values_of_untrusted(alloc: Global, block: &[u8]) -> Result<usize, LimitedReadError> {
    ///     let limits = ReadLimits {
    ///         bytes: Some(1 << 20),
    ///         heap_bytes: Some(1 << 20),
    ///         depth: Some(32),
    ///     };
    ///     let mut source = SliceSource::new(block);
    ///     let mut reader = BlockReader::new(alloc, DocStoreVersion::V2);
    ///     let mut values: usize = 0;
    ///     while reader.advance_within(&mut source, limits)? {
    ///         values = values.saturating_add(reader.document().len());
    ///     }
    ///     Ok(values)
    /// }
    /// ```
    pub fn advance_within<S: ByteSource>(
        &mut self,
        source: &mut S,
        limits: ReadLimits,
    ) -> Result<bool, LimitedReadError>
        ensures steps { StepsBlock SaysNothingWithin (Read AlreadyFailed) S.ByteSource source.old
            source.new self.old self.new result }
        ensures reads { ReadsNextWithin limits S.ByteSource source.old source.new self.old self.new
            result }
        ensures none { LeavesNone self.old self.new result }

        // each tree and the heap are within their limits, and what was taken passes the limit that is reported, not sooner than with its last part
        ensures fits { result ≡ Ok true → FitsLimits limits self.new.document }
        ensures stops { StopsNextWithin (version_of self.old.version) limits S.ByteSource source.old
            source.new result }
    {
        if self.failed {
            return Err(LimitedReadError::Read(DeserializeError::AlreadyFailed));
        }
        let mut count = 0;
        if takes_none(limits) {
            self.document = CompactDoc::new(self.alloc);
            let seen = see_next(source, &mut count);
            return self.finish(seen, count);
        }
        let read = read_parts_in_place(
            self.alloc,
            &mut self.document,
            source,
            &mut count,
            self.version,
            limits,
        );
        self.finish(read, count)
    }

    /// Reads the next document as `read_fields` does, which keeps the values of these fields alone, and says whether there was one: `false` where
    /// the source had nothing left.
    ///
    /// Errors: those of `read_fields`, and `AlreadyFailed` after an error of this call or another. A document that is cut off is `CorruptedValue`,
    /// also where it is the last. At the end and after an error there is no document, and its memory was given back.
    pub fn advance_fields<S: ByteSource>(
        &mut self,
        source: &mut S,
        fields: &[Field],
    ) -> Result<bool, DeserializeError>
        ensures steps { StepsBlock SaysNothing AlreadyFailed S.ByteSource source.old source.new
            self.old self.new result }
        ensures reads { ReadsNextFields fields.now S.ByteSource source.old source.new self.old
            self.new result }
        ensures none { LeavesNone self.old self.new result }
    {
        if self.failed {
            return Err(DeserializeError::AlreadyFailed);
        }
        let mut count = 0;
        let read = take_fields_in_place(
            self.alloc,
            &mut self.document,
            source,
            &mut count,
            self.version,
            fields,
        );
        self.finish(read, count)
    }

    /// Passes over the next document as `skip_document` does, and says whether there was one: `false` where the source had nothing left. The document
    /// that was read last stays as it is, whatever is returned.
    ///
    /// Errors: those of `skip_document`, and `AlreadyFailed` after an error of this call or of `advance`. A document that is cut off is
    /// `CorruptedValue`, also where it is the last.
    pub fn skip<S: ByteSource>(&mut self, source: &mut S) -> Result<bool, DeserializeError>
        ensures steps { StepsBlock SaysNothing AlreadyFailed S.ByteSource source.old source.new
            self.old self.new result }
        ensures reads { PassesNext S.ByteSource source.old source.new self.old result }
        ensures no_heap { ¬ IsErrOf result HeapFull }
        ensures document { self.new.document ≡ self.old.document }
    {
        if self.failed {
            return Err(DeserializeError::AlreadyFailed);
        }
        let mut count = 0;
        let passed = pass_document(self.alloc, source, &mut count, self.version);
        self.finish(passed, count)
    }

    /// How many documents were read or passed over so far, with those that `starting_at` was given: 2^64 - 1 where there were more. So it is the number of
    /// the next document, counted from 0, also of one that was refused.
    pub fn documents(&self) -> u64
        ensures { result ≡ self.now.documents }
    {
        self.documents
    }

    /// How many bytes these documents take: 2^64 - 1 where they take more. The next document begins there, also one that was refused.
    pub fn start(&self) -> u64
        ensures { result ≡ self.now.start }
    {
        self.start
    }

    /// How many bytes of the block were taken so far: those of `start`, and after an error those that the refused call took. It is 2^64 - 1 where they are
    /// more.
    pub fn place(&self) -> u64
        ensures { result ≡ place_of self.now }
    {
        if self.failed {
            self.start.saturating_add(self.taken)
        } else {
            self.start
        }
    }

    /// The next document, refused for `error`, which a call returned, with its number and its places.
    pub fn refusal(&self, error: LimitedReadError) -> RefusedDocument
        ensures { result ≡ refusal_of self.now error }
    {
        RefusedDocument {
            document: self.documents,
            start: self.start,
            place: self.place(),
            error,
        }
    }

    /// How many bytes the last call took of its source: those of the document that it read or passed over, or those that were taken before an
    /// error. It is 0 before the first, and at the end. A call that returns `AlreadyFailed` leaves it as it is.
    pub fn bytes_read(&self) -> u64
        ensures { result ≡ self.now.taken }
    {
        self.taken
    }

    /// The document that was read last. It has no pairs before the first, and after an `advance` that came to the end or was refused.
    pub fn document(&self) -> &CompactDoc
        ensures { result.now ≡ self.now.document }
    {
        &self.document
    }

    /// The document that was read last, taken out.
    pub fn into_document(self) -> CompactDoc
        ensures { result ≡ self.document }
    {
        self.document
    }
}
