//! What has been read of a document, and what its next part does to that.

ghost use Rattle.std.specs.Prelude.{◌≡◌, ◌↔◌, ◌≤◌, ◌<◌, ◌^◌, [], ◌∷◌, ◌+◌, Bool, length, take, IsTrue, Ok, OnErr, Some, None};
ghost use Rattle.tv_builder.specs.Behind.{document_parts, open_parts};
ghost use Rattle.tv_builder.specs.Parts.{value as value_part, some_bytes, bytes_head};
ghost use Rattle.tv_builder.specs.State.{awaited, head_awaits, list_head, lists_of, children_of, in_lists};
ghost use Rattle.tv_builder.specs.declared.kinds.Awaits.TheVariants.{Value as ValueAwaited, Key as KeyAwaited, Bytes as BytesAwaited};
ghost use Rattle.tv_reading.specs.Prefix.{parts_read, IsSound, IsDone, LacksPair};
ghost use Rattle.tv_reading.specs.Puts.{IsOpen, AtEnd, Awaiting, PutsParts, PutsEnd, PutsBytes, IsParts, bytes_kind, head_parts};
ghost use Rattle.tv_reading.specs.Kept.{LetGo};
ghost use Rattle.tv_reading.specs.Steps.{Advances, ReadsPart};
ghost use Rattle.tv_reading.specs.Errors.{ComesInPlace, build_error};
ghost use Rattle.tv_builder.specs.Builder.{built, state_of, heap_so_far};
ghost use Rattle.tv_builder.specs.HeldPairs.{document_of, heap_of};
ghost use Rattle.tv_reader.specs.Finds.{Finds, Nothing};
ghost use Rattle.tv_reader.specs.HeadReading.{head_part};
ghost use Rattle.tv_reader.specs.Legacy.{Legacy};
ghost use Rattle.tv_reader.specs.Version.{version_of};
ghost use Rattle.tv_value.specs.Lent.{leaf_of};
ghost use Rattle.tv_format.specs.Tree.{leaf as leaf_tree};
ghost use Rattle.tv_format.specs.Version.{Version};

use crate::buffered::take_buffered_pairs;
use std::alloc::Global;
use tv_base::take::take_pieces;
use tv_base::{ByteSource, Cause};
use tv_builder::errors::BuildError;
use tv_builder::heap_pairs::HeapPairs;
use tv_builder::kinds::{Awaits, BytesKind, ListKind};
use tv_builder::pair_builder::PairBuilder;
use tv_format::LeafType;
use tv_reader::encoded_tokens::take_gathered;
use tv_reader::heads::{Head, take_document_head, take_field, take_head, take_key_head};
use tv_reader::trees::take_legacy_object;
use tv_reader::{DeserializeError, DocStoreVersion};
use tv_value::leaf::ReferenceValueLeaf;
use tv_value::value::Value;

// The error of a reader whose next part a builder refused.
pub(crate) fn store_error(error: BuildError) -> DeserializeError
    requires { ComesInPlace error }
    ensures { result ≡ build_error error }
{
    match error {
        BuildError::NotUtf8 => DeserializeError::CorruptedValue(Cause::NotUtf8),
        BuildError::HeapFull => DeserializeError::HeapFull,
        BuildError::Memory => DeserializeError::Memory,
        BuildError::AlreadyFailed | BuildError::OutOfPlace => unreachable!(),
    }
}

// No more than this is read of open bytes at once.
const PIECE: u32 = 4096;

// What a text, a facet or bytes are while they are read.
fn bytes_kind(leaf_type: LeafType) -> BytesKind
    ensures { result ≡ bytes_kind leaf_type }
{
    match leaf_type {
        LeafType::Facet => BytesKind::Facet,
        LeafType::Bytes => BytesKind::Bytes,
        _ => BytesKind::Str,
    }
}

/// What has been read of a document.
#[derive(Debug, Drop)]
pub struct Reading {
    /// How many pairs there are, once that was read.
    announced: Option<u64>,
    /// How many of them are finished.
    finished: u64,
    /// The field of the next pair, once that was read.
    field: Option<u32>,
    /// The finished pairs, and what has come of the next value.
    builder: PairBuilder,
}

impl Reading {
    /// Nothing is read yet. It takes no memory.
    pub fn new(alloc: Global) -> Reading
        ensures parts { parts_read result ≡ [] }
        ensures sound { IsSound result }
        ensures document { built result.builder ≡ [] }
    {
        Reading::in_memory_of(HeapPairs::new(alloc))
    }

    /// Nothing is read yet. What is read is put into the memory of these pairs, which were taken off.
    pub fn in_memory_of(empty: HeapPairs) -> Reading
        requires { document_of empty ≡ [] }
        ensures parts { parts_read result ≡ [] }
        ensures sound { IsSound result }
        ensures document { built result.builder ≡ [] }
    {
        Reading {
            announced: None,
            finished: 0,
            field: None,
            builder: PairBuilder::new(empty),
        }
    }

    // This many of the announced pairs are finished, and of the next one nothing has come.
    pub(crate) fn between_pairs(announced: u64, finished: u64, document: HeapPairs) -> Reading
        requires counted { finished ≡ length (document_of document) }
        requires within { finished ≤ announced }
        ensures parts { parts_read result ≡ document_parts announced (document_of document) }
        ensures done { IsDone result → finished ≡ announced }
        ensures sound { IsSound result }
    {
        Reading {
            announced: Some(announced),
            finished,
            field: None,
            builder: PairBuilder::new(document),
        }
    }

    // All announced pairs but one are finished, and of that one the field has come.
    pub(crate) fn before_value(document: HeapPairs, field: u32) -> Reading
        ensures parts { parts_read result
            ≡ open_parts (length (document_of document) + 1) (document_of document) field
            (in_lists []) }
        ensures sound { IsSound result }
        ensures at_most { length (document_of document) + 1 < 2 ^ 64 }
    {
        let finished = document.pairs.len() as u64;
        Reading {
            announced: Some(finished + 1),
            finished,
            field: Some(field),
            builder: PairBuilder::new(document),
        }
    }

    // Where a pair is awaited, the next pairs that the source has buffered whole, at once, as far as that can be. It may read none.
    pub(crate) fn with_buffered_pairs<S: ByteSource>(
        self,
        source: &mut S,
        count: &mut u64,
        version: DocStoreVersion,
    ) -> Reading
        requires { IsSound self }
        ensures sound { IsSound result }
        ensures finds { Finds S.ByteSource source.old count.old source.new count.new
            (Ok result) (λ b r. Advances Legacy (version_of version) self r b) Nothing }
    {
        let (Some(announced), None) = (self.announced, self.field) else {
            return self;
        };
        if source.buffered().is_empty() {
            return self;
        }
        let finished = self.finished;
        let mut document = self.builder.into_pairs();
        let most = announced - finished;
        let more = take_buffered_pairs(&mut document, source, count, version, most);
        Reading::between_pairs(announced, finished + more, document)
    }

    /// The finished pairs. Their heap ends after the last of their values.
    pub fn into_pairs(self) -> HeapPairs
        ensures document { document_of result ≡ built self.builder }
        ensures heap { heap_of result ≡ take self.builder.kept (heap_so_far self.builder) }
    {
        self.builder.into_pairs()
    }

    /// The length of the heap, in bytes.
    pub fn heap_len(&self) -> usize
        ensures { result ≡ length (heap_so_far self.now.builder) }
    {
        self.builder.heap_len()
    }

    /// How many finished children the open lists have, keys among them.
    pub fn pending(&self) -> usize
        ensures { result ≡ children_of (lists_of (state_of self.now.builder)) }
    {
        self.builder.pending()
    }

    /// How many lists are open.
    pub fn frames(&self) -> usize
        ensures { result ≡ length (lists_of (state_of self.now.builder)) }
    {
        self.builder.frames()
    }

    /// Whether all pairs are finished.
    pub fn is_done(&self) -> bool
        ensures { IsTrue result ↔ IsDone self.now }
    {
        match self.announced {
            None => false,
            Some(announced) => self.finished == announced,
        }
    }

    // Makes a complete value that of the pair whose field was read.
    fn close_pair(&mut self) -> Result<(), DeserializeError>
        requires { IsOpen self.old }
        ensures puts { PutsParts self.old self.new [] result }
        ensures after_error { OnErr result (LetGo self.old self.new) }
    {
        let Awaits::Finish = self.builder.awaits() else {
            return Ok(());
        };
        let (Some(field), Some(announced)) = (self.field, self.announced) else {
            return Ok(());
        };
        prove!(self.finished < announced);
        match self.builder.finish(field) {
            Ok(()) => {
                self.finished += 1;
                self.field = None;
                Ok(())
            }
            Err(error) => Err(store_error(error)),
        }
    }

    // A value without children has come.
    fn put_leaf(&mut self, value: ReferenceValueLeaf<'_>) -> Result<(), DeserializeError>
        requires { Awaiting self.old ValueAwaited }
        ensures puts { PutsParts self.old self.new (value_part (leaf_tree (leaf_of value.entry)) ∷ [])
            result }
        ensures after_error { OnErr result (LetGo self.old self.new) }
    {
        match self.builder.leaf(value) {
            Ok(()) => self.close_pair(),
            Err(error) => Err(store_error(error)),
        }
    }

    // A whole value has come.
    fn put_tree<'a, V: Value<'a>>(&mut self, value: &V) -> Result<(), DeserializeError>
        requires { Awaiting self.old ValueAwaited }
        ensures puts { PutsParts self.old self.new (value_part (V.tree value.now) ∷ []) result }
        ensures after_error { OnErr result (LetGo self.old self.new) }
    {
        match self.builder.tree(value) {
            Ok(()) => self.close_pair(),
            Err(error) => Err(store_error(error)),
        }
    }

    // The head of a list has come.
    fn put_list(&mut self, kind: ListKind, announced: u64) -> Result<(), DeserializeError>
        requires { Awaiting self.old ValueAwaited }
        ensures puts { PutsParts self.old self.new (list_head kind announced ∷ []) result }
        ensures after_error { OnErr result (LetGo self.old self.new) }
    {
        match self.builder.open_list(kind, announced) {
            Ok(()) => self.close_pair(),
            Err(error) => Err(store_error(error)),
        }
    }

    // All open bytes have come: they are a value or a key.
    fn put_end(&mut self) -> Result<(), DeserializeError>
        requires { AtEnd self.old }
        ensures puts { PutsEnd self.old self.new result }
        ensures after_error { OnErr result (LetGo self.old self.new) }
    {
        match self.builder.end_bytes() {
            Ok(()) => self.close_pair(),
            Err(error) => Err(store_error(error)),
        }
    }

    // The length of bytes has come. None at all are a value or a key at once.
    fn put_bytes_head(&mut self, kind: BytesKind, announced: u64) -> Result<(), DeserializeError>
        requires { Awaiting self.old (head_awaits kind) }
        ensures puts { PutsParts self.old self.new (bytes_head kind announced ∷ []) result }
        ensures after_error { OnErr result (LetGo self.old self.new) }
    {
        if let Err(error) = self.builder.begin_bytes(kind, announced) {
            return Err(store_error(error));
        }
        if announced > 0 {
            return Ok(());
        }
        self.put_end()
    }

    // Some of the announced bytes have come.
    fn put_bytes(&mut self, bytes: &[u8], missing: u32) -> Result<(), DeserializeError>
        requires awaiting { Awaiting self.old (BytesAwaited missing) }
        requires at_most { length bytes.now ≤ missing }
        ensures puts { PutsBytes self.old self.new bytes.now (some_bytes bytes.now ∷ []) result }
        ensures after_error { OnErr result (LetGo self.old self.new) }
    {
        if let Err(error) = self.builder.chunk(bytes) {
            return Err(store_error(error));
        }
        if bytes.len() < missing as usize {
            return Ok(());
        }
        self.put_end()
    }

    // What was taken of a value at once has come.
    fn put_head(&mut self, head: Head) -> Result<(), DeserializeError>
        requires awaiting { Awaiting self.old ValueAwaited }
        requires parts { IsParts (head_part head) }
        ensures puts { PutsParts self.old self.new (head_parts (head_part head)) result }
        ensures after_error { OnErr result (LetGo self.old self.new) }
    {
        match head {
            Head::Leaf(value) => self.put_leaf(value),
            Head::Length(leaf_type, len) => self.put_bytes_head(bytes_kind(leaf_type), len),
            Head::Array(announced) => self.put_list(ListKind::Array, announced),
            Head::Object(announced) => self.put_list(ListKind::Object, announced),
            Head::Tokenized | Head::Legacy => unreachable!(),
        }
    }

    // Reads how many pairs there are.
    fn step_number<S: ByteSource>(
        &mut self,
        source: &mut S,
        count: &mut u64,
    ) -> Result<(), DeserializeError>
        requires sound { IsSound self.old }
        requires none { self.old.announced ≡ None }
        ensures { (version : Version) (seen : Bool) → ReadsPart version S.ByteSource source.old
            source.new count.old count.new seen seen self.old self.new result }
    {
        let announced = take_document_head(source, count)?;
        self.announced = Some(announced);
        Ok(())
    }

    // Reads the field of a pair.
    fn step_field<S: ByteSource>(
        &mut self,
        source: &mut S,
        count: &mut u64,
    ) -> Result<(), DeserializeError>
        requires sound { IsSound self.old }
        requires none { self.old.field ≡ None }
        requires lacks { LacksPair self.old.announced self.old.finished }
        ensures { (version : Version) (seen : Bool) → ReadsPart version S.ByteSource source.old
            source.new count.old count.new seen seen self.old self.new result }
    {
        let field = take_field(source, count)?;
        self.field = Some(field);
        Ok(())
    }

    // Reads a value, or its head.
    fn step_value<S: ByteSource>(
        &mut self,
        alloc: Global,
        source: &mut S,
        count: &mut u64,
        version: DocStoreVersion,
        legacy_seen: &mut bool,
    ) -> Result<(), DeserializeError>
        requires { Awaiting self.old ValueAwaited }
        ensures { ReadsPart (version_of version) S.ByteSource source.old source.new count.old
            count.new legacy_seen.old legacy_seen.new self.old self.new result }
    {
        let head = take_head(source, count, version)?;
        match head {
            Head::Tokenized => {
                let (text, tokens) = take_gathered(alloc, source, count, version)?;
                self.put_leaf(ReferenceValueLeaf::PreTokStr(tokens.with_text(text.as_str())))
            }
            Head::Legacy => {
                *legacy_seen = true;
                let value = take_legacy_object(alloc, source, count)?;
                self.put_tree(&&value)
            }
            head => self.put_head(head),
        }
    }

    // Reads the head of a key.
    fn step_key<S: ByteSource>(
        &mut self,
        source: &mut S,
        count: &mut u64,
        version: DocStoreVersion,
    ) -> Result<(), DeserializeError>
        requires { Awaiting self.old KeyAwaited }
        ensures { (seen : Bool) → ReadsPart (version_of version) S.ByteSource source.old source.new
            count.old count.new seen seen self.old self.new result }
    {
        let len = take_key_head(source, count, version)?;
        self.put_bytes_head(BytesKind::Key, len)
    }

    // Reads some of the announced bytes, through a buffer.
    fn step_bytes<S: ByteSource>(
        &mut self,
        source: &mut S,
        count: &mut u64,
        missing: u32,
        bytes: &mut Vec<u8>,
    ) -> Result<(), DeserializeError>
        requires awaiting { Awaiting self.old (BytesAwaited missing) }
        ensures { (version : Version) (seen : Bool) → ReadsPart version S.ByteSource source.old
            source.new count.old count.new seen seen self.old self.new result }
    {
        let len = missing.min(PIECE);
        bytes.clear();
        take_pieces(source, count, bytes, u64::from(len))?;
        self.put_bytes(bytes.as_slice(), missing)
    }

    /// Reads the next part: the number of the pairs, a field, a key's or a value's head (all of a value of a known width, of a
    /// pre-tokenized text and of an object as older stores hold it), or at most 4096 of the bytes of a text, a facet, bytes or a key.
    ///
    /// `bytes` is a buffer for at most 4096 bytes, which may be lent to one step after the other.
    ///
    /// Errors: `CorruptedValue` and `TypeMismatch` with the first error in the bytes, `HeapFull` where what has come needs more room
    /// than 4294967295 bytes, `Io` where the source failed, `Memory`.
    pub fn advance<S: ByteSource>(
        &mut self,
        alloc: Global,
        source: &mut S,
        count: &mut u64,
        version: DocStoreVersion,
        legacy_seen: &mut bool,
        bytes: &mut Vec<u8>,
    ) -> Result<(), DeserializeError>
        requires sound { IsSound self.old }
        requires more { ¬ IsDone self.old }
        ensures { ReadsPart (version_of version) S.ByteSource source.old source.new count.old
            count.new legacy_seen.old legacy_seen.new self.old self.new result }
    {
        if self.announced.is_none() {
            return self.step_number(source, count);
        }
        if self.field.is_none() {
            return self.step_field(source, count);
        }
        match self.builder.awaits() {
            Awaits::Value => self.step_value(alloc, source, count, version, legacy_seen),
            Awaits::Key => self.step_key(source, count, version),
            Awaits::Bytes { missing } => self.step_bytes(source, count, missing, bytes),
            Awaits::Finish => unreachable!(),
        }
    }
}
