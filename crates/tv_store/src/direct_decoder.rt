//! A decoder of documents with a stack of its own, which is lent its source for each step.

ghost use Rattle.std.specs.Prelude.{◌≡◌, ◌↔◌, [], length, true, false, OnOk, OnErr, IsTrue};
ghost use Rattle.tv_reading.specs.Prefix.{parts_read, IsSound, IsDone};
ghost use Rattle.tv_reading.specs.Kept.{Grows, KeepsPairs};
ghost use Rattle.tv_reading.specs.Sound.{SoundUnless-prop};
ghost use Rattle.tv_builder.specs.Builder.{built, state_of, heap_so_far, kept_heap};
ghost use Rattle.tv_builder.specs.HeldPairs.{document_of as pairs_of};
ghost use Rattle.tv_doc.specs.Document.{document_of, heap_of};
ghost use Rattle.tv_builder.specs.State.{lists_of, children_of};

use std::alloc::Global;
use tv_base::ByteSource;
use tv_builder::heap_pairs::HeapPairs;
use tv_doc::document::CompactDoc;
use tv_reader::{DeserializeError, DocStoreVersion};
use tv_reading::reading::Reading;

/// Whether a step was the last. (Not in tantivy.)
#[derive(Clone, Copy, Debug, PartialEq, Eq)]
pub enum Step {
    /// More is to be read.
    More,
    /// All announced pairs are finished.
    Done,
}

/// A document that is read step by step, straight into its heap. (Not in tantivy.)
///
/// A step reads the number of the pairs, a field, the head of a key or a value (all of a value of a known width, of a pre-tokenized text
/// and of an object as older stores hold it), or at most 4096 bytes of a text, a facet, bytes or a key. It is lent the source, so the
/// decoder holds none. After a refusal each step returns `AlreadyFailed` and reads nothing; the finished pairs stay.
///
/// ```
/// pub fn stepwise(alloc: Global, bytes: &[u8]) -> Result<TantivyDocument> {
///     let mut source = SliceSource::new(bytes);
///     let mut decoder = DirectDecoder::new(alloc, DocStoreVersion::V2);
///     for _ in 0..u64::MAX {
///         if decoder.step(&mut source)? == Step::Done {
///             break;
///         }
///     }
///     Ok(decoder.into_doc())
/// }
/// ```
#[derive(Debug, Drop)]
pub struct DirectDecoder {
    alloc: Global,
    version: DocStoreVersion,
    reading: Reading,
    count: u64,
    failed: bool,
    legacy_seen: bool,
    // A buffer for the bytes of a text.
    bytes: Vec<u8>,
    pub ghost sound: { failed ≡ false → IsSound reading } by { SoundUnless-prop failed reading },
}

impl DirectDecoder {
    ghost use Rattle.tv_store.specs.Decoder.{MeetsLegacy, ReadsStep, StaysPaid, TakesFew};

    /// A decoder of a document of this version. It reads nothing and takes no memory.
    pub fn new(alloc: Global, version: DocStoreVersion) -> DirectDecoder
        ensures parts { parts_read result.reading ≡ [] }
        ensures document { built result.reading.builder ≡ [] }
        ensures version { result.version ≡ version }
        ensures count { result.count ≡ 0 }
        ensures not_failed { result.failed ≡ false }
        ensures none_seen { result.legacy_seen ≡ false }
    {
        DirectDecoder::counting_from(alloc, HeapPairs::new(alloc), version, 0)
    }

    // The same, which reads into the memory of pairs that were taken off, and counts from this number on.
    pub(crate) fn counting_from(
        alloc: Global,
        empty: HeapPairs,
        version: DocStoreVersion,
        count: u64,
    ) -> DirectDecoder
        requires { pairs_of empty ≡ [] }
        ensures parts { parts_read result.reading ≡ [] }
        ensures document { built result.reading.builder ≡ [] }
        ensures version { result.version ≡ version }
        ensures count { result.count ≡ count }
        ensures not_failed { result.failed ≡ false }
        ensures none_seen { result.legacy_seen ≡ false }
    {
        DirectDecoder {
            alloc,
            version,
            reading: Reading::in_memory_of(empty),
            count,
            failed: false,
            legacy_seen: false,
            bytes: Vec::new(alloc),
        }
    }

    /// Reads the next part from the source, and says whether it was the last. Once all pairs are finished it returns `Done` and reads
    /// nothing.
    ///
    /// Errors: `AlreadyFailed` after a refusal; `CorruptedValue` and `TypeMismatch` with the first error in the bytes; `HeapFull` where
    /// what has come needs more room than 4294967295 bytes; `Io` where the source failed; `Memory`.
    pub fn step<S: ByteSource>(&mut self, source: &mut S) -> Result<Step, DeserializeError>
        // what was taken, and what has come then; or why nothing has
        ensures steps { ReadsStep S.ByteSource source.old source.new self.old self.new result }

        // at most 4096 bytes were taken, also where they are refused, unless a value is taken whole
        ensures at_most { TakesFew S.ByteSource source.old self.old self.new }

        // the heap grows at its end, and ends after the finished pairs after a refusal; these are kept
        ensures grows { OnOk result (Grows self.old.reading self.new.reading) }
        ensures kept { OnErr result (KeepsPairs self.old.reading self.new.reading) }

        // objects of older stores, and what is paid for by the bytes that were read
        ensures seen { MeetsLegacy S.ByteSource source.old self.old self.new }
        ensures paid { S.is_known source.old → StaysPaid self.old self.new }
    {
        if self.failed {
            return Err(DeserializeError::AlreadyFailed);
        }
        if self.reading.is_done() {
            return Ok(Step::Done);
        }
        let read = self.reading.advance(
            self.alloc,
            source,
            &mut self.count,
            self.version,
            &mut self.legacy_seen,
            &mut self.bytes,
        );
        if let Err(error) = read {
            self.failed = true;
            return Err(error);
        }
        if self.reading.is_done() {
            Ok(Step::Done)
        } else {
            Ok(Step::More)
        }
    }

    // Whether it was refused.
    pub(crate) fn has_failed(&self) -> bool
        ensures { result ≡ self.now.failed }
    {
        self.failed
    }

    // Whether all pairs are finished.
    pub(crate) fn is_done(&self) -> bool
        ensures { IsTrue result ↔ IsDone self.now.reading }
    {
        self.reading.is_done()
    }

    // Counts from this number on.
    pub(crate) fn recount(&mut self, count: u64)
        ensures reading { self.new.reading ≡ self.old.reading }
        ensures version { self.new.version ≡ self.old.version }
        ensures count { self.new.count ≡ count }
        ensures failed { self.new.failed ≡ self.old.failed }
        ensures seen { self.new.legacy_seen ≡ self.old.legacy_seen }
    {
        self.count = count;
    }

    // Marks a refusal.
    pub(crate) fn refuse(&mut self)
        ensures reading { self.new.reading ≡ self.old.reading }
        ensures version { self.new.version ≡ self.old.version }
        ensures count { self.new.count ≡ self.old.count }
        ensures failed { self.new.failed ≡ true }
        ensures seen { self.new.legacy_seen ≡ self.old.legacy_seen }
    {
        self.failed = true;
    }

    /// The document of the finished pairs, at any time, also after a refusal. Its heap ends after the last of their values.
    pub fn into_doc(self) -> CompactDoc
        ensures document { document_of result ≡ built self.reading.builder }
        ensures heap { heap_of result ≡ kept_heap self.reading.builder }
    {
        CompactDoc::from_pairs(self.reading.into_pairs())
    }

    /// How many bytes were read.
    pub fn bytes_read(&self) -> u64
        ensures { result ≡ self.now.count }
    {
        self.count
    }

    /// The length of the document's heap so far, in bytes.
    pub fn heap_len(&self) -> usize
        ensures { result ≡ length (heap_so_far self.now.reading.builder) }
    {
        self.reading.heap_len()
    }

    /// How many finished children the open lists have, keys among them.
    pub fn pending(&self) -> usize
        ensures { result ≡ children_of (lists_of (state_of self.now.reading.builder)) }
    {
        self.reading.pending()
    }

    /// How many lists are open.
    pub fn frames(&self) -> usize
        ensures { result ≡ length (lists_of (state_of self.now.reading.builder)) }
    {
        self.reading.frames()
    }

    /// Whether an object as older stores hold it was met: what it takes in the heap isn't bounded by its bytes.
    pub fn legacy_seen(&self) -> bool
        ensures { result ≡ self.now.legacy_seen }
    {
        self.legacy_seen
    }
}
