//! Documents in a store, whose pairs are read one after the other.

ghost use Rattle.std.specs.Prelude.{[], ◌≡◌, ◌+◌, ◌-◌, List, ℕ, Bool, false, true, Ok, OnErr, is_err, IfOk};
ghost use Rattle.std.specs.Prelude.{IfErr, IsErrOf, if◌then◌else◌};
ghost use Rattle.std.specs.Borrow.{sem, RestsIfErr};
ghost use Rattle.tv_base.specs.Number.{Fixed, VNum};
ghost use Rattle.tv_base.specs.Source.{Failures};
ghost use Rattle.tv_base.specs.Stop.{Counts};
ghost use Rattle.tv_builder.specs.HeldPairs.{document_of};
ghost use Rattle.tv_reader.specs.declared.error.DeserializeError.{DeserializeError};
ghost use Rattle.tv_reader.specs.declared.error.DeserializeError.TheVariants as errors;
ghost use Rattle.tv_reader.specs.declared.value_type.ValueType.{ValueType};
ghost use Rattle.tv_format.specs.Tree.{Tree, Document};
ghost use Rattle.tv_format.specs.Version.{Version};
ghost use Rattle.tv_typed.specs.Documents.{FieldEnds, GivesField, GivesInto, GivesPair, GivesPairInto, NumberRefused};
ghost use Rattle.tv_typed.specs.Documents.{RefusesInto, RefusesPair};
ghost use Rattle.tv_typed.specs.Items.{ReadsNextPair, ReadsPair};
ghost use Rattle.tv_typed.specs.Typed.{document_stop, ReadsThrough, RefusesThrough};
ghost use Rattle.tv_typed.specs.contracts.store_reader.StoreReader.{the_row};

use crate::de::ValueDeserialize;
use crate::store_reader::StoreReader;
use std::alloc::Global;
use std::mem::replace;
use tv_base::ByteSource;
use tv_base::take::take_vint;
use tv_builder::heap_pairs::HeapPairs;
use tv_reader::DeserializeError;
use tv_reader::heads::take_field;
use tv_reading::document::take_pair_value;
use tv_value::field::Field;

/// What gives the pairs of a document, one after the other.
pub trait DocumentDeserializer: Drop {
    /// How many pairs are announced, however many were given.
    ghost announced: { Self → ℕ };

    /// How many pairs are still to be given.
    ghost remaining: { Self → ℕ };

    /// Whether its pairs are known.
    ghost is_known: { Self → Type 0 };

    /// Which pair of a field and a tree is given next, and what is left then.
    ghost gives: { Self → ℕ × Tree → Self → Type 0 };

    /// Which error may be returned in place of the next pair, where a value of some type is read, by the refusals of that type and by what
    /// stands where a value of any type in it is too deep.
    ghost refuses: { Self → (Version → ValueType → List ℕ → DeserializeError → Type 0)
        → (Version → ℕ → ValueType → List ℕ → List ℕ → Type 0) → DeserializeError → Type 0 };

    /// Which error may be returned in place of the next pair, where it is read into a heap after these pairs.
    ghost refuses_into: { Self → Document → DeserializeError → Type 0 };

    /// Whether a read through it was refused, so that each later one returns `AlreadyFailed`.
    ghost has_failed: { Self → Bool };

    /// How many reads of what it reads from have failed, and of what kind the last failure was.
    ghost failures: { Self → Failures };

    /// The ghost name of what it borrows to read from. Where it borrows nothing, any number.
    ghost borrow_name: { Self → ℕ };

    /// How many pairs are announced, however many were given.
    fn size_hint(&self) -> usize
        ensures { result ≡ announced self.now };

    /// Reads the next pair, its value as one of this type. None where all were given. The errors are those that `refuses` allows. Each is
    /// marked.
    fn next_field<V: ValueDeserialize>(
        &mut self,
        alloc: Global,
    ) -> Result<Option<(Field, V)>, DeserializeError>
        ensures { GivesField remaining is_known gives has_failed failures borrow_name V.is
            (refuses self.old V.refused V.deep) self.old self.new result };

    /// Reads the next pair into `pairs`, after those that it gave before, its value to any depth, straight into their heap. False where
    /// all were given. `bytes` is a buffer for at most 4096 bytes, which may be lent to one call after the other.
    ///
    /// The errors are those that `refuses_into` allows, and come only where a pair is awaited. Each is marked, and `pairs` may then have lost what it held.
    /// (Not in tantivy.)
    fn next_pair(
        &mut self,
        alloc: Global,
        pairs: &mut HeapPairs,
        bytes: &mut Vec<u8>,
    ) -> Result<bool, DeserializeError>
        ensures { GivesPairInto remaining is_known gives has_failed failures borrow_name
            (refuses_into self.old (document_of pairs.old)) self.old self.new
            (document_of pairs.old) (document_of pairs.new) result };
}

impl<S: ByteSource> StoreReader<S> {
    // Takes the number of a document's pairs.
    pub(crate) fn pair_count(&mut self) -> Result<u64, DeserializeError>
        ensures reads { ReadsThrough S.ByteSource self.old self.new result VNum NumberRefused }
        ensures no_memory { ¬ IsErrOf result errors.Memory }
    {
        self.go_on()?;
        let answer = take_vint(&mut self.source, &mut self.count);
        self.marked(answer)
    }

    // Takes the field of a pair.
    pub(crate) fn field(&mut self) -> Result<u32, DeserializeError>
        ensures reads { ReadsThrough S.ByteSource self.old self.new result (Fixed 4) FieldEnds }
        ensures no_memory { ¬ IsErrOf result errors.Memory }
    {
        self.go_on()?;
        let answer = take_field(&mut self.source, &mut self.count);
        self.has_failed = answer.is_err();
        answer
    }

    // Reads the next pair.
    pub(crate) fn pair<V: ValueDeserialize>(
        &mut self,
        alloc: Global,
    ) -> Result<(Field, V), DeserializeError>
        ensures { ReadsPair S.ByteSource V.ValueDeserialize self.old self.new result }
    {
        let field = self.field()?;
        let value = self.read::<V>(alloc)?;
        Ok((Field::from_field_id(field), value))
    }

    // Reads the next pair into a heap, after these pairs.
    fn pair_into(
        &mut self,
        alloc: Global,
        pairs: HeapPairs,
        bytes: &mut Vec<u8>,
    ) -> Result<HeapPairs, DeserializeError>
        ensures gives { IfOk result (λ made. GivesInto S.ByteSource self.old self.new
            (document_of pairs) (document_of made)) }
        ensures refuses { IfErr result (RefusesInto S.ByteSource self.old (document_of pairs)) }
        ensures marks_failure { self.new.has_failed ≡ is_err result }
        ensures counts { self.old.has_failed ≡ false
            → Counts document_stop result (S.failures self.old.source) (S.failures self.new.source) }
        ensures closed { self.old.has_failed ≡ true
            → IsErrOf result errors.AlreadyFailed
            × (S.failures self.new.source ≡ S.failures self.old.source) }
    {
        let field = self.field()?;
        let version = self.version;
        let (source, count) = (&mut self.source, &mut self.count);
        let answer = take_pair_value(alloc, pairs, source, count, version, field, bytes);
        self.has_failed = answer.is_err();
        answer
    }
}

/// The pairs of a document in a store, which are read one after the other.
#[derive(Drop)]
pub struct BinaryDocumentDeserializer<'de, S: ByteSource> {
    pub(crate) announced: u64,
    pub(crate) position: u64,
    pub(crate) reader: &'de mut StoreReader<S>,
}

impl<'de, S: ByteSource> BinaryDocumentDeserializer<'de, S> {
    /// Reads the number of a document's pairs. Errors: `CorruptedValue` where the bytes encode no number, and just the bytes that
    /// show it were taken then; `Io`; and `AlreadyFailed` where an earlier read was refused. A refusal is marked in the reader.
    pub fn from_reader(
        reader: &'de mut StoreReader<S>,
    ) -> Result<BinaryDocumentDeserializer<'de, S>, DeserializeError>
        ensures* rests { sem 𝓛 (RestsIfErr (the_row S.row) reader.entry
            (λ made. made.reader.ghost_name) result
            (λ now. RefusesThrough S.ByteSource VNum NumberRefused reader.entry.now now result)) }
        ensures same_reader { IfOk result
            (λ made. made.reader.ghost_name ≡ reader.entry.ghost_name) }
        ensures reads { IfOk result (λ made. ReadsThrough S.ByteSource reader.entry.now
            made.reader.now (Ok made.announced) VNum NumberRefused) }
        ensures first { IfOk result (λ made. made.position ≡ 0) }
        ensures no_memory { ¬ IsErrOf result errors.Memory }
    {
        let announced = reader.pair_count()?;
        Ok(BinaryDocumentDeserializer {
            announced,
            position: 0,
            reader,
        })
    }
}

impl<'de, S: ByteSource> DocumentDeserializer for BinaryDocumentDeserializer<'de, S> {
    ghost use Rattle.tv_typed.specs.Pairs.{GivesNextField, GivesNextInto};

    ghost announced = { λ d. d.announced };

    ghost remaining = { λ d. d.announced - d.position };

    ghost is_known = { λ d. S.is_known d.reader.now.source };

    ghost gives = { λ old pair new. GivesPair S.left old.reader.now pair new.reader.now };

    ghost refuses = { λ d. RefusesPair S.ByteSource d.position d.announced d.reader.now };

    ghost refuses_into = { λ d before. RefusesInto S.ByteSource d.reader.now before };

    ghost has_failed = { λ d. d.reader.now.has_failed };

    ghost failures = { λ d. S.failures d.reader.now.source };

    ghost borrow_name = { λ d. d.reader.ghost_name };

    fn size_hint(&self) -> usize {
        self.announced as usize
    }

    /// Reads the next pair, its value as one of this type. None where as many were read as are announced.
    ///
    /// Errors: `CorruptedValue(UnexpectedEnd)` where the field ends within its four bytes, and those of `StoreReader::read`. Each is
    /// marked in the reader, and the place in the document stays.
    fn next_field<V: ValueDeserialize>(
        &mut self,
        alloc: Global,
    ) -> Result<Option<(Field, V)>, DeserializeError>
        ensures gives { GivesNextField
            ⟦<BinaryDocumentDeserializer<'de, S> as DocumentDeserializer>⟧ V.ValueDeserialize
            self.old self.new result }
        ensures same_reader { self.new.reader.ghost_name ≡ self.old.reader.ghost_name }
        ensures reads { ReadsNextPair S.ByteSource V.ValueDeserialize self.old self.new result }
    {
        self.reader.go_on()?;
        if self.position >= self.announced {
            return Ok(None);
        }
        let pair = self.reader.pair::<V>(alloc)?;
        self.position += 1;
        Ok(Some(pair))
    }

    /// Reads the next pair into `pairs`, its value to any depth, however deep the reader's limit is. False where as many were read as are
    /// announced. `bytes` is a buffer for at most 4096 bytes.
    ///
    /// Errors: `CorruptedValue` and `TypeMismatch` with the first error in the bytes; `HeapFull` where what has come needs more room after
    /// `pairs` than 4294967295 bytes; `Io`; `Memory`; and `AlreadyFailed` where an earlier read was refused. Each is marked in the reader.
    /// After each but `AlreadyFailed` the `pairs` are lost, and there are none.
    fn next_pair(
        &mut self,
        alloc: Global,
        pairs: &mut HeapPairs,
        bytes: &mut Vec<u8>,
    ) -> Result<bool, DeserializeError>
        ensures gives { GivesNextInto
            ⟦<BinaryDocumentDeserializer<'de, S> as DocumentDeserializer>⟧
            self.old self.new pairs.old pairs.new result }
        ensures same_reader { self.new.reader.ghost_name ≡ self.old.reader.ghost_name }
        ensures lost { OnErr result (self.old.reader.now.has_failed ≡ false
            → document_of pairs.new ≡ []) }
        ensures announced { self.new.announced ≡ self.old.announced }
        ensures position { IfOk result (λ more. self.new.position
            ≡ self.old.position + (if more then 1 else 0)) }
    {
        self.reader.go_on()?;
        if self.position >= self.announced {
            return Ok(false);
        }
        let before = replace(pairs, HeapPairs::new(alloc));
        *pairs = self.reader.pair_into(alloc, before, bytes)?;
        self.position += 1;
        Ok(true)
    }
}
