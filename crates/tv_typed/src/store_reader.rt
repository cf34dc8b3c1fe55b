//! A source that is read as a store of one version.

ghost use Rattle.std.specs.Prelude.{◌≡◌, true, false, is_err, IfErr, IsErrOf, OnOk, OnErr, string_bytes};
ghost use Rattle.tv_reader.specs.ValueType.{IsCoded};
ghost use Rattle.tv_reader.specs.Version.{version_of};
ghost use Rattle.tv_reader.specs.declared.value_type.ValueType.TheVariants as types;
ghost use Rattle.tv_format.specs.Encoding.{Key};
ghost use Rattle.tv_format.specs.Version.{entry_total};
ghost use Rattle.tv_typed.specs.Lists.{Length, LengthRefused, KeyRefused, element_total};
ghost use Rattle.tv_typed.specs.Typed.{ReadsThrough, raised, IsMismatch};
ghost use Rattle.tv_typed.specs.Values.{CodeRefused};
ghost use Rattle.tv_reader.specs.declared.error.DeserializeError.TheVariants as errors;

use std::alloc::Global;
use tv_base::take::take_vint;
use tv_base::{ByteSource, ReadError};
use tv_reader::trees::{take_entry_count, take_key};
use tv_reader::value_type::take_kind;
use tv_reader::{DeserializeError, DocStoreVersion, ValueType};
use tv_value::nested::MAX_DEPTH;

/// A source, the version of what it holds, how many bytes were taken of it, whether a read was refused, and how deep a value of any type
/// may nest. After a refusal every later read returns `AlreadyFailed` and takes nothing.
///
/// The depth limits each `OwnedValue` that is read, for itself: one in which more lists would be open at once is refused with `TooDeep`.
/// Lists, maps, visitors and types of your own nest as deep as their type does, and each `OwnedValue` in them has the whole limit. A legacy
/// object isn't counted, nor what it holds: its JSON nests 127 levels deep at most.
///
/// ```
/// pub fn scores(alloc: Global, bytes: &[u8]) -> Result<BTreeMap<String, u64>> {
///     let mut reader = StoreReader::new(SliceSource::new(bytes), DocStoreVersion::V2);
///     Ok(reader.read::<BTreeMap<String, u64>>(alloc)?)
/// }
/// ```
#[derive(Drop)]
pub struct StoreReader<S: ByteSource> {
    pub(crate) source: S,
    pub(crate) count: u64,
    pub(crate) has_failed: bool,
    pub(crate) version: DocStoreVersion,
    pub(crate) levels: u32,
}

impl<S: ByteSource> StoreReader<S> {
    /// Reads this source, with values of any type to a depth of [`MAX_DEPTH`]. Nothing is read yet.
    pub fn new(source: S, version: DocStoreVersion) -> StoreReader<S>
        ensures source { result.source ≡ source }
        ensures version { result.version ≡ version }
        ensures count { result.count ≡ 0 }
        ensures fresh { result.has_failed ≡ false }
        ensures levels { result.levels ≡ MAX_DEPTH }
    {
        StoreReader::with_depth(source, version, MAX_DEPTH)
    }

    /// Reads this source, with values of any type in which no more than `levels` lists are open at once. Nothing is read yet. Reading such a
    /// value calls itself once for each list that is open, and so does its drop: a limit in the thousands needs a large stack. (Not in
    /// tantivy.)
    pub fn with_depth(source: S, version: DocStoreVersion, levels: u32) -> StoreReader<S>
        ensures source { result.source ≡ source }
        ensures version { result.version ≡ version }
        ensures count { result.count ≡ 0 }
        ensures fresh { result.has_failed ≡ false }
        ensures levels { result.levels ≡ levels }
    {
        StoreReader {
            source,
            count: 0,
            has_failed: false,
            version,
            levels,
        }
    }

    /// How many bytes were taken of the source.
    pub fn bytes_read(&self) -> u64
        ensures { result ≡ self.now.count }
    {
        self.count
    }

    /// Whether a read was refused.
    pub fn has_failed(&self) -> bool
        ensures { result ≡ self.now.has_failed }
    {
        self.has_failed
    }

    /// The source, where reading has left it.
    pub fn into_source(self) -> S
        ensures { result ≡ self.source }
    {
        let StoreReader {
            source,
            count: _,
            has_failed: _,
            version: _,
            levels: _,
        } = self;
        source
    }

    // Goes on where nothing was refused before.
    pub(crate) fn go_on(&self) -> Result<(), DeserializeError>
        ensures ok { OnOk result (self.now.has_failed ≡ false) }
        ensures err { IfErr result
            (λ e. (e ≡ errors.AlreadyFailed) × (self.now.has_failed ≡ true)) }
    {
        if self.has_failed {
            return Err(DeserializeError::AlreadyFailed);
        }
        Ok(())
    }

    // Marks a refusal, and says it in the words of the store.
    pub(crate) fn marked<T>(&mut self, answer: Result<T, ReadError>) -> Result<T, DeserializeError>
        ensures source { self.new.source ≡ self.old.source }
        ensures count { self.new.count ≡ self.old.count }
        ensures version { self.new.version ≡ self.old.version }
        ensures levels { self.new.levels ≡ self.old.levels }
        ensures told { result ≡ raised answer }
        ensures marks_failure { self.new.has_failed ≡ is_err result }
    {
        match answer {
            Ok(value) => {
                self.has_failed = false;
                Ok(value)
            }
            Err(error) => {
                self.has_failed = true;
                Err(DeserializeError::from(error))
            }
        }
    }

    // Goes on where nothing was refused before and the type is the one that is expected; of another one this is the refusal.
    pub(crate) fn expect(
        &mut self,
        kind: ValueType,
        expected: ValueType,
        refusal: DeserializeError,
    ) -> Result<(), DeserializeError>
        ensures source { self.new.source ≡ self.old.source }
        ensures count { self.new.count ≡ self.old.count }
        ensures version { self.new.version ≡ self.old.version }
        ensures levels { self.new.levels ≡ self.old.levels }
        ensures ok { OnOk result
            ((self.old.has_failed ≡ false) × (self.new.has_failed ≡ false) × (kind ≡ expected)) }
        ensures err { IfErr result
            (IsMismatch self.old.has_failed kind expected refusal) }
        ensures marks_failure { OnErr result (self.new.has_failed ≡ true) }
    {
        self.go_on()?;
        if kind != expected {
            self.has_failed = true;
            return Err(refusal);
        }
        Ok(())
    }

    // Takes all that stands before the next value.
    pub(crate) fn code(&mut self) -> Result<ValueType, DeserializeError>
        ensures reads { ReadsThrough S.ByteSource self.old self.new result IsCoded CodeRefused }
        ensures no_memory { ¬ IsErrOf result errors.Memory }
    {
        self.go_on()?;
        let answer = take_kind(&mut self.source, &mut self.count);
        self.marked(answer)
    }

    // Takes the number of an array's values, after its code.
    pub(crate) fn array_length(&mut self, kind: ValueType) -> Result<u64, DeserializeError>
        ensures reads { ReadsThrough S.ByteSource self.old self.new result
            (Length types.Array element_total kind) (LengthRefused types.Array element_total kind) }
        ensures no_memory { ¬ IsErrOf result errors.Memory }
    {
        self.expect(
            kind,
            ValueType::Array,
            DeserializeError::UnsupportedType(kind),
        )?;
        let answer = take_vint(&mut self.source, &mut self.count);
        self.marked(answer)
    }

    // Takes the number of an object's entries, after its code.
    pub(crate) fn object_length(&mut self, kind: ValueType) -> Result<u64, DeserializeError>
        ensures reads { ReadsThrough S.ByteSource self.old self.new result
            (Length types.Object (entry_total (version_of self.old.version)) kind)
            (LengthRefused types.Object (entry_total (version_of self.old.version)) kind) }
        ensures no_memory { ¬ IsErrOf result errors.Memory }
    {
        self.expect(
            kind,
            ValueType::Object,
            DeserializeError::UnsupportedType(kind),
        )?;
        let version = self.version;
        let answer = take_entry_count(&mut self.source, &mut self.count, version);
        self.marked(answer)
    }

    // Takes a key.
    pub(crate) fn key(&mut self, alloc: Global) -> Result<String, DeserializeError>
        ensures { ReadsThrough S.ByteSource self.old self.new result
            (λ b key. Key (version_of self.old.version) b (string_bytes key))
            (KeyRefused (version_of self.old.version)) }
    {
        self.go_on()?;
        let version = self.version;
        let answer = take_key(alloc, &mut self.source, &mut self.count, version);
        self.has_failed = answer.is_err();
        answer
    }
}
