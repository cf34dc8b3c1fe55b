//! Objects in a store.

ghost use Rattle.std.specs.Prelude.{◌≡◌, ◌++◌, ◌∷◌, [], false, List, OnOk, String};
ghost use Rattle.std.specs.BTreeMap as tree;
ghost use Rattle.std.specs.HashMap as hash;
ghost use Rattle.std.specs.declared.alloc.Global.{Global};
ghost use Rattle.tv_reader.specs.declared.value_type.ValueType.TheVariants as types;
ghost use Rattle.std.proofs.Common.{subst, sym};
ghost use Rattle.tv_format.specs.Tree.{Tree};
ghost use Rattle.tv_typed.specs.Items.{ReadsAllEntries, ReadsEntries, ReadsNextEntry, ReadsObject};
ghost use Rattle.tv_typed.specs.Lists.{GivesLast, MapOf, ObjectOf};
ghost use Rattle.tv_typed.specs.Typed.{RefusesItems, items_reader};

use crate::de::ValueDeserialize;
use crate::store_reader::StoreReader;
use std::alloc::{AllocError, Global};
use std::collections::{BTreeMap, HashMap};
use tv_base::ByteSource;
use tv_reader::{DeserializeError, ValueType};

// What the entries of an object are put into, one after the other.
pub(crate) trait Entries<T: ValueDeserialize>: Sized + Drop {
    /// It was made of these, in this order.
    ghost made: { Self → List (String Global × T) → Type 0 };

    /// It is read of this tree.
    ghost is: { Tree → Self → Type 0 };

    /// An empty collection.
    fn empty(alloc: Global) -> Self
        ensures { made result [] };

    /// Puts in one more. The only error is that memory was refused.
    fn put(&mut self, key: String, value: T) -> Result<(), AllocError>
        ensures { OnOk result ((entries : List (String Global × T)) → made self.old entries
            → made self.new (entries ++ (key, value) ∷ [])) };

    /// What is made of the entries of an object is read of it.
    ghost made_is: { (t : Tree) (c : Self) (entries : List (String Global × T)) → made c entries
        → ObjectOf T.is t entries → is t c };
}

// All of them, in order.
impl<T: ValueDeserialize> Entries<T> for Vec<(String, T)> {
    ghost made = { λ list entries. list.items ≡ entries };

    ghost is = { λ t list. ObjectOf T.is t list.items };

    fn empty(alloc: Global) -> Vec<(String, T)> {
        Vec::new(alloc)
    }

    fn put(&mut self, key: String, value: T) -> Result<(), AllocError> {
        self.push((key, value))?;
        Ok(())
    }

    ghost made_is = { λ t list entries same read. subst (ObjectOf T.is t) (sym same) read };
}

// Of equal keys the last.
impl<T: ValueDeserialize> Entries<T> for BTreeMap<String, T> {
    ghost made = { λ map entries. GivesLast (λ key. tree.get_by_text map key) entries };

    ghost is = { λ t map. MapOf T.is t (λ key. tree.get_by_text map key) };

    fn empty(alloc: Global) -> BTreeMap<String, T> {
        BTreeMap::new(alloc)
    }

    fn put(&mut self, key: String, value: T) -> Result<(), AllocError> {
        match self.insert(key, value) {
            Ok(_) => Ok(()),
            Err(_) => Err(AllocError),
        }
    }

    ghost made_is = { λ t map entries last read. record {
      pairs = entries;
      read = read;
      last = last;
    } };
}

// The same.
impl<T: ValueDeserialize> Entries<T> for HashMap<String, T> {
    ghost made = { λ map entries. GivesLast (λ key. hash.get_by_text map key) entries };

    ghost is = { λ t map. MapOf T.is t (λ key. hash.get_by_text map key) };

    fn empty(alloc: Global) -> HashMap<String, T> {
        HashMap::new(alloc)
    }

    fn put(&mut self, key: String, value: T) -> Result<(), AllocError> {
        match self.insert(key, value) {
            Ok(_) => Ok(()),
            Err(_) => Err(AllocError),
        }
    }

    ghost made_is = { λ t map entries last read. record {
      pairs = entries;
      read = read;
      last = last;
    } };
}

// Reads this many keys with values, in order. Nothing is reserved from their number. That memory was refused isn't marked yet.
pub(crate) fn read_entries<T: ValueDeserialize, C: Entries<T>, S: ByteSource>(
    alloc: Global,
    reader: &mut StoreReader<S>,
    announced: u64,
) -> Result<C, DeserializeError>
    requires { reader.old.has_failed ≡ false }
    ensures { ReadsEntries S.ByteSource C.made T.ValueDeserialize announced reader.old reader.new
        result }
{
    let mut entries = C::empty(alloc);
    for _ in 0..announced {
        let (key, value) = reader.entry::<T>(alloc)?;
        entries.put(key, value)?;
    }
    Ok(entries)
}

// Reads the entries of an object that isn't a legacy one, after the code of its type.
pub(crate) fn read_coded<T: ValueDeserialize, C: Entries<T>, S: ByteSource>(
    alloc: Global,
    kind: ValueType,
    reader: &mut StoreReader<S>,
) -> Result<C, DeserializeError>
    ensures { ReadsObject S.ByteSource C.is T.ValueDeserialize kind reader.old reader.new result }
{
    let announced = reader.object_length(kind)?;
    let answer = read_entries::<T, C, S>(alloc, reader, announced);
    reader.has_failed = answer.is_err();
    answer
}

/// The keys and values of an object, which are read one after the other.
#[derive(Drop)]
pub struct BinaryObjectDeserializer<'de, S: ByteSource> {
    pub(crate) announced: u64,
    pub(crate) position: u64,
    pub(crate) reader: &'de mut StoreReader<S>,
}

impl<'de, S: ByteSource> BinaryObjectDeserializer<'de, S> {
    /// How many entries the object has, however many were read: what it announces, and in versions 1 and 2 half of that.
    pub fn size_hint(&self) -> usize
        ensures { result ≡ self.now.announced }
    {
        self.announced as usize
    }

    /// Refuses the object: reads nothing, and returns `UnsupportedType(Object)`. (Not in tantivy.)
    pub fn unsupported<T>(self) -> Result<T, DeserializeError>
        requires { self.reader.now.has_failed ≡ false }
        ensures { RefusesItems S.ByteSource types.Object self.entry.reader.now
            (items_reader self.exit) result }
    {
        Err(DeserializeError::UnsupportedType(ValueType::Object))
    }

    /// Reads all keys with values that are left, in order, equal keys too. Nothing is reserved from their number. (Not in tantivy.)
    ///
    /// Errors: those of `next_entry`, and `Memory` where the list can't grow. Each is marked in the reader.
    pub fn read_all<V: ValueDeserialize>(
        self,
        alloc: Global,
    ) -> Result<Vec<(String, V)>, DeserializeError>
        requires { self.reader.now.has_failed ≡ false }
        ensures { ReadsAllEntries S.ByteSource V.ValueDeserialize self.entry self.exit result }
    {
        let BinaryObjectDeserializer {
            announced,
            position,
            reader,
        } = self;
        let rest = announced.saturating_sub(position);
        let answer = read_entries::<V, Vec<(String, V)>, S>(alloc, reader, rest);
        reader.has_failed = answer.is_err();
        answer
    }

    /// Reads the next key with its value. None where as many were read as there are.
    ///
    /// Errors: `TypeMismatch` where in the key's place stands a value that isn't a text, `CorruptedValue` where its bytes encode
    /// none, and those of `StoreReader::read`. Each is marked in the reader, and the place in the object stays.
    pub fn next_entry<V: ValueDeserialize>(
        &mut self,
        alloc: Global,
    ) -> Result<Option<(String, V)>, DeserializeError>
        ensures same_reader { self.new.reader.ghost_name ≡ self.old.reader.ghost_name }
        ensures reads { ReadsNextEntry S.ByteSource V.ValueDeserialize self.old self.new result }
    {
        self.reader.go_on()?;
        if self.position >= self.announced {
            return Ok(None);
        }
        let entry = self.reader.entry::<V>(alloc)?;
        self.position += 1;
        Ok(Some(entry))
    }
}
