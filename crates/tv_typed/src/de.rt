//! Reading values out of a store: of the type that a type of this program reads, and of any type.

ghost use Rattle.std.specs.Prelude.{◌≡◌, Ok, IfOk, List, ℕ, IsErrOf};
ghost use Rattle.std.specs.Borrow.{sem, RestsIfErr};
ghost use Rattle.tv_format.specs.Tree.{Tree};
ghost use Rattle.tv_format.specs.Version.{Version};
ghost use Rattle.tv_reader.specs.ValueType.{IsCoded};
ghost use Rattle.tv_reader.specs.declared.error.DeserializeError.{DeserializeError};
ghost use Rattle.tv_reader.specs.declared.error.DeserializeError.TheVariants as errors;
ghost use Rattle.tv_reader.specs.declared.value_type.ValueType.{ValueType};
ghost use Rattle.tv_typed.specs.Depths.{NestsBehind, OpensBehind};
ghost use Rattle.tv_typed.specs.Excluding.{tree_excludes};
ghost use Rattle.tv_typed.specs.Reads.{DeserializesTree, DeserializesValue};
ghost use Rattle.tv_typed.specs.Typed.{ReadsThrough, RefusesThrough};
ghost use Rattle.tv_typed.specs.Values.{CodeRefused, IsTree, TreeRefused, RefusalsExclude};

pub use crate::leaf_values::ValueVisitor;
use crate::store_reader::StoreReader;
use std::alloc::Global;
use tv_base::ByteSource;
use tv_reader::trees::take_behind;
use tv_reader::{DeserializeError, ValueType};
use tv_value::owned_value::OwnedValue;

/// A value whose code was read. Each call reads the value after it.
///
/// A call for one type returns `TypeMismatch` where the value is of another type, and nothing more is taken then;
/// `CorruptedValue` where its bytes encode none, and just the bytes that show the cause are taken then; `Io` where the source
/// failed; `Memory`; and `AlreadyFailed` where an earlier read was refused. A refusal is marked in the reader.
#[derive(Drop)]
pub struct BinaryValueDeserializer<'de, S: ByteSource> {
    pub(crate) kind: ValueType,
    pub(crate) reader: &'de mut StoreReader<S>,
}

impl<'de, S: ByteSource> BinaryValueDeserializer<'de, S> {
    ghost use Rattle.tv_typed.specs.contracts.store_reader.StoreReader.{the_row};

    /// Reads the code of the next value, which says its type. Errors: `CorruptedValue` where no type has that code, and just the
    /// bytes that show it were taken then; `Io`; and `AlreadyFailed` where an earlier read was refused. A refusal is marked in the
    /// reader.
    pub fn from_reader(
        reader: &'de mut StoreReader<S>,
    ) -> Result<BinaryValueDeserializer<'de, S>, DeserializeError>
        ensures* rests { sem 𝓛 (RestsIfErr (the_row S.row) reader.entry
            (λ made. made.reader.ghost_name) result
            (λ now. RefusesThrough S.ByteSource IsCoded CodeRefused reader.entry.now now result)) }
        ensures same_reader { IfOk result
            (λ made. made.reader.ghost_name ≡ reader.entry.ghost_name) }
        ensures reads { IfOk result (λ made. ReadsThrough S.ByteSource reader.entry.now
            made.reader.now (Ok made.kind) IsCoded CodeRefused) }
        ensures no_memory { ¬ IsErrOf result errors.Memory }
    {
        let kind = reader.code()?;
        Ok(BinaryValueDeserializer { kind, reader })
    }

    /// Reads a value of any type, legacy objects too, to the depth of the reader. Nothing is reserved from announced numbers.
    ///
    /// Errors, the first error in reading order: `CorruptedValue`;
    /// `TypeMismatch` where in a key's place stands a value that isn't a text; `TooDeep` right after the code of an array or an object that
    /// is one too many; `Io`; `Memory`; `AlreadyFailed`.
    pub fn deserialize_tree(self, alloc: Global) -> Result<OwnedValue, DeserializeError>
        ensures { DeserializesTree S.ByteSource self.entry self.exit result }
    {
        let BinaryValueDeserializer { kind, reader } = self;
        reader.go_on()?;
        let version = reader.version;
        let levels = reader.levels;
        let answer = take_behind(
            alloc,
            &mut reader.source,
            &mut reader.count,
            version,
            kind,
            levels,
        );
        reader.has_failed = answer.is_err();
        answer
    }
}

/// A type of which values are read out of a store.
pub trait ValueDeserialize: Sized + Drop {
    /// Which values are read of which trees.
    ghost is: { Tree → Self → Type 0 };

    /// Which refusal bytes after the code of a type have: the first error in reading order.
    ghost refused: { Version → ValueType → List ℕ → DeserializeError → Type 0 };

    /// What stands where a value of any type in it is too deep for the reader. It speaks of the version, the depth of the reader, the type
    /// whose code was read, the bytes after that and those that are left in the end. By default it says nothing.
    ghost deep: { Version → ℕ → ValueType → List ℕ → List ℕ → Type 0 } = { λ _ _ _ _ _. Unit {0} };

    /// What holds where a value was read: how deep the values of any type in it nest. It speaks of the same things as `deep`. By default it says
    /// nothing.
    ghost within: { Version → ℕ → ValueType → List ℕ → List ℕ → Type 0 } = { λ _ _ _ _ _. Unit {0} };

    /// Reads the value whose code was read. The errors are those of `BinaryValueDeserializer`, and `Custom`.
    fn deserialize<S: ByteSource>(
        alloc: Global,
        deserializer: BinaryValueDeserializer<'_, S>,
    ) -> Result<Self, DeserializeError>
        ensures { DeserializesValue S.ByteSource is refused deep within deserializer.entry
            deserializer.exit result };

    /// Where bytes after the code of a type are refused, no prefix of them encodes a tree of which a value is read.
    ghost excludes: { RefusalsExclude is refused };
}

impl<S: ByteSource> StoreReader<S> {
    ghost use Rattle.tv_typed.specs.Items.{ReadsEntry, ReadsNext};

    /// Reads the next value: its code, and what stands after it. Errors: those of `BinaryValueDeserializer::from_reader` and of
    /// the type's own `deserialize`. Each is marked, whoever it is of, so that every later read returns `AlreadyFailed`.
    pub fn read<V: ValueDeserialize>(&mut self, alloc: Global) -> Result<V, DeserializeError>
        ensures { ReadsNext S.ByteSource V.ValueDeserialize self.old self.new result }
    {
        let kind = self.code()?;
        match V::deserialize(alloc, BinaryValueDeserializer { kind, reader: self }) {
            Ok(value) => Ok(value),
            Err(error) => {
                self.has_failed = true;
                Err(error)
            }
        }
    }

    // Reads the next key, and the value after it.
    pub(crate) fn entry<V: ValueDeserialize>(
        &mut self,
        alloc: Global,
    ) -> Result<(String, V), DeserializeError>
        ensures { ReadsEntry S.ByteSource V.ValueDeserialize self.old self.new result }
    {
        let key = self.key(alloc)?;
        let value = self.read::<V>(alloc)?;
        Ok((key, value))
    }
}

impl ValueDeserialize for OwnedValue {
    ghost is = { IsTree };

    ghost refused = { TreeRefused };

    ghost deep = { OpensBehind };

    ghost within = { NestsBehind };

    fn deserialize<S: ByteSource>(
        alloc: Global,
        deserializer: BinaryValueDeserializer<'_, S>,
    ) -> Result<OwnedValue, DeserializeError>
        ensures value { DeserializesValue S.ByteSource IsTree TreeRefused OpensBehind NestsBehind
            deserializer.entry deserializer.exit result }
        ensures tree { DeserializesTree S.ByteSource deserializer.entry deserializer.exit result }
    {
        deserializer.deserialize_tree(alloc)
    }

    ghost excludes = { tree_excludes IsTree };
}
