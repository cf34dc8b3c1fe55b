//! Arrays and objects, read as lists and maps of values of one type.
//!
//! Errors of each: `UnsupportedType` where a value of another type stands there, and nothing more is taken then; `CorruptedValue`
//! where the number of values is malformed, with `OddObject` where no object announces it; and the first refusal of a key or of a
//! value. `Memory` where the list or the map can't grow: nothing is reserved from the number.
//!
//! A legacy object is read too, as a list of keys and values and as a map: its tree is encoded in memory, in its shortest encoding, and read
//! from there. Its own errors are those of `deserialize_tree` but `TooDeep`; the first refusal of a value in it comes after the whole object.
//! `UnsupportedType(JSONObject)` where the type of its values reads past the end of that encoding, which none of this library does.

ghost use Rattle.std.specs.BTreeMap as tree;
ghost use Rattle.std.specs.HashMap as hash;
ghost use Rattle.tv_typed.specs.Depths.{ArrayTooDeep, ArrayWithin, MembersTooDeep, MembersWithin};
ghost use Rattle.tv_typed.specs.ExcludingLegacy.{entries_exclude};
ghost use Rattle.tv_typed.specs.ExcludingLists.{array_excludes};
ghost use Rattle.tv_typed.specs.Items.{DeserializesMarked, DeserializesMembers};
ghost use Rattle.tv_typed.specs.LegacyObjects.{MembersRefused};
ghost use Rattle.tv_typed.specs.Lists.{ArrayOf, ObjectOf, MapOf, ArrayRefused, ObjectRefused};

use crate::array::read_elements;
use crate::de::{BinaryValueDeserializer, ValueDeserialize};
use crate::legacy_object::read_object;
use crate::object::Entries;
use std::alloc::Global;
use std::collections::{BTreeMap, HashMap};
use tv_base::ByteSource;
use tv_reader::DeserializeError;

impl<T: ValueDeserialize> ValueDeserialize for Vec<T> {
    ghost is = { λ t list. ArrayOf T.is t list.items };

    ghost refused = { ArrayRefused T.is T.refused };

    ghost deep = { ArrayTooDeep T.is T.deep };

    ghost within = { ArrayWithin T.within };

    fn deserialize<S: ByteSource>(
        alloc: Global,
        deserializer: BinaryValueDeserializer<'_, S>,
    ) -> Result<Vec<T>, DeserializeError>
        ensures { DeserializesMarked S.ByteSource ⟦<Vec<T> as ValueDeserialize>⟧
            deserializer.entry deserializer.exit result }
    {
        let BinaryValueDeserializer { kind, reader } = deserializer;
        let announced = reader.array_length(kind)?;
        let answer = read_elements(alloc, reader, announced);
        reader.has_failed = answer.is_err();
        answer
    }

    ghost excludes = { λ v kind prefix rest e t list refused encoded is. array_excludes T.is
        T.refused T.excludes v kind prefix rest e t list.items refused encoded is };
}

impl<'de, S: ByteSource> BinaryValueDeserializer<'de, S> {
    // Reads what the entries of an object are put into, of a legacy object too.
    fn members<T: ValueDeserialize, C: Entries<T>>(
        self,
        alloc: Global,
    ) -> Result<C, DeserializeError>
        ensures { DeserializesMembers S.ByteSource C.is T.ValueDeserialize self.entry self.exit
            result }
    {
        let BinaryValueDeserializer { kind, reader } = self;
        let answer = read_object::<T, C, S>(alloc, kind, reader);
        reader.has_failed = answer.is_err();
        answer
    }
}

impl<T: ValueDeserialize> ValueDeserialize for Vec<(String, T)> {
    ghost is = { λ t list. ObjectOf T.is t list.items };

    ghost refused = { MembersRefused (ObjectRefused T.is T.refused) };

    ghost deep = { MembersTooDeep T.is T.deep };

    ghost within = { MembersWithin T.within };

    fn deserialize<S: ByteSource>(
        alloc: Global,
        deserializer: BinaryValueDeserializer<'_, S>,
    ) -> Result<Vec<(String, T)>, DeserializeError>
        ensures { DeserializesMarked S.ByteSource ⟦<Vec<(String, T)> as ValueDeserialize>⟧
            deserializer.entry deserializer.exit result }
    {
        deserializer.members::<T, Vec<(String, T)>>(alloc)
    }

    ghost excludes = { entries_exclude T.is T.refused T.excludes
        (λ t list. ObjectOf T.is t list.items) (λ t list is. (list.items, is)) };
}

impl<T: ValueDeserialize> ValueDeserialize for BTreeMap<String, T> {
    ghost is = { λ t map. MapOf T.is t (λ key. tree.get_by_text map key) };

    ghost refused = { MembersRefused (ObjectRefused T.is T.refused) };

    ghost deep = { MembersTooDeep T.is T.deep };

    ghost within = { MembersWithin T.within };

    fn deserialize<S: ByteSource>(
        alloc: Global,
        deserializer: BinaryValueDeserializer<'_, S>,
    ) -> Result<BTreeMap<String, T>, DeserializeError>
        ensures { DeserializesMarked S.ByteSource ⟦<BTreeMap<String, T> as ValueDeserialize>⟧
            deserializer.entry deserializer.exit result }
    {
        deserializer.members::<T, BTreeMap<String, T>>(alloc)
    }

    ghost excludes = { entries_exclude T.is T.refused T.excludes
        (λ t map. MapOf T.is t (λ key. tree.get_by_text map key))
        (λ t map is. (is.pairs, is.read)) };
}

impl<T: ValueDeserialize> ValueDeserialize for HashMap<String, T> {
    ghost is = { λ t map. MapOf T.is t (λ key. hash.get_by_text map key) };

    ghost refused = { MembersRefused (ObjectRefused T.is T.refused) };

    ghost deep = { MembersTooDeep T.is T.deep };

    ghost within = { MembersWithin T.within };

    fn deserialize<S: ByteSource>(
        alloc: Global,
        deserializer: BinaryValueDeserializer<'_, S>,
    ) -> Result<HashMap<String, T>, DeserializeError>
        ensures { DeserializesMarked S.ByteSource ⟦<HashMap<String, T> as ValueDeserialize>⟧
            deserializer.entry deserializer.exit result }
    {
        deserializer.members::<T, HashMap<String, T>>(alloc)
    }

    ghost excludes = { entries_exclude T.is T.refused T.excludes
        (λ t map. MapOf T.is t (λ key. hash.get_by_text map key))
        (λ t map is. (is.pairs, is.read)) };
}
