//! The types of values that hold no others: what is read of each, the call that reads it, the Rust type that is read so, and the
//! visitor's call for it.

#![tactic(auto, using(tv_base::proofs::TakeSteps::Taken_then), unfolding(tv_reader::specs::Leaves::leaf_at))]

ghost use Rattle.std.specs.Prelude.{◌≡◌, List, ℕ, Result, string_bytes, map, false, refl, true, IfErr};
ghost use Rattle.std.specs.Net.Addr.{ipv6_bits};
ghost use Rattle.tv_format.specs.Tree.{null, text, unsigned, signed, boolean, date, facet, bytes, ip_address, tokenized, Leaf, leaf};
ghost use Rattle.tv_format.specs.Version.{Version};
ghost use Rattle.tv_reader.specs.Leaves.{IsSingle, is_leaf_type, leaf_at};
ghost use Rattle.tv_reader.specs.Version.{version_of};
ghost use Rattle.tv_reader.specs.declared.error.DeserializeError.{DeserializeError};
ghost use Rattle.tv_reader.specs.declared.value_type.ValueType.TheVariants as types;
ghost use Rattle.tv_reader.specs.ValueType.{leaf_type as held_type};
ghost use Rattle.tv_reader.specs.declared.value_type.ValueType.{ValueType};
ghost use Rattle.tv_typed.specs.Excluding.{leaf_excludes, type_of_leaf};
ghost use Rattle.tv_typed.specs.Typed.{items_reader};
ghost use Rattle.tv_typed.specs.Values.{IsLeafOf, LeafRefused, ReadsLeaf, IsFixed};
ghost use Rattle.tv_typed.specs.Visits.{MakesOfItems, TellsNoFailure, single_leaf};
ghost use Rattle.tv_value.specs.HeldTokens.{token_of};
ghost use Rattle.tv_value.specs.Owned.{owned_tree};
ghost use Rattle.tv_base.specs.Take.{TakesBy, MayStopLean};

use crate::array::BinaryArrayDeserializer;
use crate::de::{BinaryValueDeserializer, ValueDeserialize};
use crate::object::BinaryObjectDeserializer;
use crate::store_reader::StoreReader;
use std::alloc::Global;
use std::net::Ipv6Addr;
use tv_base::take::{take_bool, take_bytes, take_facet, take_i64, take_string, take_u64};
use tv_base::{ByteSource, Facet, ReadError};
use tv_date::date_time::DateTime;
use tv_reader::leaves::{take_date, take_ip_address, take_tokenized};
use tv_reader::{DeserializeError, ValueType};
use tv_value::owned_value::OwnedValue;
use tv_value::tokenizer::PreTokenizedString;

// What is read of one type of values that hold no others.
pub(crate) trait LeafValue: Sized + Drop {
    /// What its memory comes from, where it takes any.
    type Alloc: Copy;

    /// The type of the values.
    ghost expected: { ValueType };

    /// The leaf of which this is read.
    ghost make: { Self → Leaf };

    /// Takes a value after its codes. Errors: those of its parts.
    fn take<S: ByteSource>(
        alloc: Self::Alloc,
        reader: &mut StoreReader<S>,
    ) -> Result<Self, ReadError>
        ensures takes { TakesBy S.ByteSource reader.old.source reader.old.count
            reader.new.source reader.new.count (λ x. leaf (make x)) result
            (leaf_at (version_of reader.old.version) expected) }
        ensures version { reader.new.version ≡ reader.old.version }
        ensures levels { reader.new.levels ≡ reader.old.levels }
        ensures no_memory { IsFixed (held_type expected)
            → IfErr result (λ e. MayStopLean e reader.new.count) };

    /// It is a type of leaves, and the leaf is of this type.
    ghost typed: { (is_leaf_type expected ≡ true) × ((x : Self) → type_of_leaf (make x) ≡ expected) };
}

impl<'de, S: ByteSource> BinaryValueDeserializer<'de, S> {
    // Reads a value after its codes, of the type that is expected.
    pub(crate) fn leaf<T: LeafValue>(
        self,
        alloc: T::Alloc,
        expected: ValueType,
    ) -> Result<T, DeserializeError>
        requires { expected ≡ T.expected }
        ensures { ReadsLeaf S.ByteSource T.expected T.make self.entry self.exit result }
    {
        let BinaryValueDeserializer { kind, reader } = self;
        let actual = kind;
        reader.expect(
            kind,
            expected,
            DeserializeError::TypeMismatch { expected, actual },
        )?;
        let answer = T::take(alloc, reader);
        reader.marked(answer)
    }
}

impl LeafValue for () {
    type Alloc = ();

    ghost expected = { types.Null };

    ghost make = { λ _. null };

    fn take<S: ByteSource>(_alloc: (), _reader: &mut StoreReader<S>) -> Result<(), ReadError> {
        Ok(())
    }

    ghost typed = { (refl, λ _. refl) };
}

impl LeafValue for u64 {
    type Alloc = ();

    ghost expected = { types.U64 };

    ghost make = { λ n. unsigned n };

    fn take<S: ByteSource>(_alloc: (), reader: &mut StoreReader<S>) -> Result<u64, ReadError> {
        take_u64(&mut reader.source, &mut reader.count)
    }

    ghost typed = { (refl, λ _. refl) };
}

impl LeafValue for i64 {
    type Alloc = ();

    ghost expected = { types.I64 };

    ghost make = { λ z. signed z };

    fn take<S: ByteSource>(_alloc: (), reader: &mut StoreReader<S>) -> Result<i64, ReadError> {
        take_i64(&mut reader.source, &mut reader.count)
    }

    ghost typed = { (refl, λ _. refl) };
}

impl LeafValue for bool {
    type Alloc = ();

    ghost expected = { types.Bool };

    ghost make = { λ b. boolean b };

    fn take<S: ByteSource>(_alloc: (), reader: &mut StoreReader<S>) -> Result<bool, ReadError> {
        take_bool(&mut reader.source, &mut reader.count)
    }

    ghost typed = { (refl, λ _. refl) };
}

impl LeafValue for String {
    type Alloc = Global;

    ghost expected = { types.String };

    ghost make = { λ s. text (string_bytes s) };

    fn take<S: ByteSource>(
        alloc: Global,
        reader: &mut StoreReader<S>,
    ) -> Result<String, ReadError> {
        take_string(alloc, &mut reader.source, &mut reader.count)
    }

    ghost typed = { (refl, λ _. refl) };
}

impl LeafValue for Facet {
    type Alloc = Global;

    ghost expected = { types.Facet };

    ghost make = { λ f. facet f };

    fn take<S: ByteSource>(alloc: Global, reader: &mut StoreReader<S>) -> Result<Facet, ReadError> {
        take_facet(alloc, &mut reader.source, &mut reader.count)
    }

    ghost typed = { (refl, λ _. refl) };
}

impl LeafValue for Vec<u8> {
    type Alloc = Global;

    ghost expected = { types.Bytes };

    ghost make = { λ v. bytes v.items };

    fn take<S: ByteSource>(
        alloc: Global,
        reader: &mut StoreReader<S>,
    ) -> Result<Vec<u8>, ReadError> {
        take_bytes(alloc, &mut reader.source, &mut reader.count)
    }

    ghost typed = { (refl, λ _. refl) };
}

impl LeafValue for DateTime {
    type Alloc = ();

    ghost expected = { types.DateTime };

    ghost make = { λ d. date d.nanoseconds };

    fn take<S: ByteSource>(_alloc: (), reader: &mut StoreReader<S>) -> Result<DateTime, ReadError> {
        take_date(&mut reader.source, &mut reader.count, reader.version)
    }

    ghost typed = { (refl, λ _. refl) };
}

impl LeafValue for Ipv6Addr {
    type Alloc = ();

    ghost expected = { types.IpAddr };

    ghost make = { λ a. ip_address (ipv6_bits a) };

    fn take<S: ByteSource>(_alloc: (), reader: &mut StoreReader<S>) -> Result<Ipv6Addr, ReadError> {
        take_ip_address(&mut reader.source, &mut reader.count)
    }

    ghost typed = { (refl, λ _. refl) };
}

impl LeafValue for PreTokenizedString {
    type Alloc = Global;

    ghost expected = { types.PreTokStr };

    ghost make = { λ s. tokenized (string_bytes s.text) (map token_of s.tokens.items) };

    fn take<S: ByteSource>(
        alloc: Global,
        reader: &mut StoreReader<S>,
    ) -> Result<PreTokenizedString, ReadError> {
        take_tokenized(alloc, &mut reader.source, &mut reader.count)
    }

    ghost typed = { (refl, λ _. refl) };
}

impl<'de, S: ByteSource> BinaryValueDeserializer<'de, S> {
    /// Reads null.
    pub fn deserialize_null(self) -> Result<(), DeserializeError>
        ensures { ReadsLeaf S.ByteSource types.Null (λ _. null) self.entry self.exit result }
    {
        self.leaf::<()>((), ValueType::Null)
    }

    /// Reads a number from 0 to 2^64 - 1.
    pub fn deserialize_u64(self) -> Result<u64, DeserializeError>
        ensures { ReadsLeaf S.ByteSource types.U64 (λ n. unsigned n) self.entry self.exit result }
    {
        self.leaf::<u64>((), ValueType::U64)
    }

    /// Reads a number from -2^63 to 2^63 - 1.
    pub fn deserialize_i64(self) -> Result<i64, DeserializeError>
        ensures { ReadsLeaf S.ByteSource types.I64 (λ z. signed z) self.entry self.exit result }
    {
        self.leaf::<i64>((), ValueType::I64)
    }

    /// Reads a truth value.
    pub fn deserialize_bool(self) -> Result<bool, DeserializeError>
        ensures { ReadsLeaf S.ByteSource types.Bool (λ b. boolean b) self.entry self.exit result }
    {
        self.leaf::<bool>((), ValueType::Bool)
    }

    /// Reads a text.
    pub fn deserialize_string(self, alloc: Global) -> Result<String, DeserializeError>
        ensures { ReadsLeaf S.ByteSource types.String (λ s. text (string_bytes s))
            self.entry self.exit result }
    {
        self.leaf::<String>(alloc, ValueType::String)
    }

    /// Reads a facet.
    pub fn deserialize_facet(self, alloc: Global) -> Result<Facet, DeserializeError>
        ensures { ReadsLeaf S.ByteSource types.Facet (λ f. facet f) self.entry self.exit result }
    {
        self.leaf::<Facet>(alloc, ValueType::Facet)
    }

    /// Reads bytes.
    pub fn deserialize_bytes(self, alloc: Global) -> Result<Vec<u8>, DeserializeError>
        ensures { ReadsLeaf S.ByteSource types.Bytes (λ v. bytes v.items)
            self.entry self.exit result }
    {
        self.leaf::<Vec<u8>>(alloc, ValueType::Bytes)
    }

    /// Reads a date: microseconds in version 1, and nanoseconds in the others.
    pub fn deserialize_datetime(self) -> Result<DateTime, DeserializeError>
        ensures { ReadsLeaf S.ByteSource types.DateTime (λ d. date d.nanoseconds)
            self.entry self.exit result }
    {
        self.leaf::<DateTime>((), ValueType::DateTime)
    }

    /// Reads an IP address.
    pub fn deserialize_ip_address(self) -> Result<Ipv6Addr, DeserializeError>
        ensures { ReadsLeaf S.ByteSource types.IpAddr (λ a. ip_address (ipv6_bits a))
            self.entry self.exit result }
    {
        self.leaf::<Ipv6Addr>((), ValueType::IpAddr)
    }

    /// Reads a text and its tokens.
    pub fn deserialize_pre_tokenized_string(
        self,
        alloc: Global,
    ) -> Result<PreTokenizedString, DeserializeError>
        ensures { ReadsLeaf S.ByteSource types.PreTokStr
            (λ s. tokenized (string_bytes s.text) (map token_of s.tokens.items))
            self.entry self.exit result }
    {
        self.leaf::<PreTokenizedString>(alloc, ValueType::PreTokStr)
    }
}

impl ValueDeserialize for u64 {
    ghost is = { IsLeafOf (λ n. unsigned n) };

    ghost refused = { LeafRefused types.U64 };

    ghost deep = { λ _ _ _ _ _. ⊥ };

    fn deserialize<S: ByteSource>(
        _alloc: Global,
        deserializer: BinaryValueDeserializer<'_, S>,
    ) -> Result<u64, DeserializeError>
        ensures { ReadsLeaf S.ByteSource types.U64 (λ n. unsigned n)
            deserializer.entry deserializer.exit result }
    {
        deserializer.deserialize_u64()
    }

    ghost excludes = { leaf_excludes types.U64 (λ n. unsigned n) (λ _. refl) };
}

impl ValueDeserialize for i64 {
    ghost is = { IsLeafOf (λ z. signed z) };

    ghost refused = { LeafRefused types.I64 };

    ghost deep = { λ _ _ _ _ _. ⊥ };

    fn deserialize<S: ByteSource>(
        _alloc: Global,
        deserializer: BinaryValueDeserializer<'_, S>,
    ) -> Result<i64, DeserializeError>
        ensures { ReadsLeaf S.ByteSource types.I64 (λ z. signed z)
            deserializer.entry deserializer.exit result }
    {
        deserializer.deserialize_i64()
    }

    ghost excludes = { leaf_excludes types.I64 (λ z. signed z) (λ _. refl) };
}

impl ValueDeserialize for bool {
    ghost is = { IsLeafOf (λ b. boolean b) };

    ghost refused = { LeafRefused types.Bool };

    ghost deep = { λ _ _ _ _ _. ⊥ };

    fn deserialize<S: ByteSource>(
        _alloc: Global,
        deserializer: BinaryValueDeserializer<'_, S>,
    ) -> Result<bool, DeserializeError>
        ensures { ReadsLeaf S.ByteSource types.Bool (λ b. boolean b)
            deserializer.entry deserializer.exit result }
    {
        deserializer.deserialize_bool()
    }

    ghost excludes = { leaf_excludes types.Bool (λ b. boolean b) (λ _. refl) };
}

impl ValueDeserialize for String {
    ghost is = { IsLeafOf (λ s. text (string_bytes s)) };

    ghost refused = { LeafRefused types.String };

    ghost deep = { λ _ _ _ _ _. ⊥ };

    fn deserialize<S: ByteSource>(
        alloc: Global,
        deserializer: BinaryValueDeserializer<'_, S>,
    ) -> Result<String, DeserializeError>
        ensures { ReadsLeaf S.ByteSource types.String (λ s. text (string_bytes s))
            deserializer.entry deserializer.exit result }
    {
        deserializer.deserialize_string(alloc)
    }

    ghost excludes = { leaf_excludes types.String (λ s. text (string_bytes s)) (λ _. refl) };
}

impl ValueDeserialize for Facet {
    ghost is = { IsLeafOf (λ f. facet f) };

    ghost refused = { LeafRefused types.Facet };

    ghost deep = { λ _ _ _ _ _. ⊥ };

    fn deserialize<S: ByteSource>(
        alloc: Global,
        deserializer: BinaryValueDeserializer<'_, S>,
    ) -> Result<Facet, DeserializeError>
        ensures { ReadsLeaf S.ByteSource types.Facet (λ f. facet f)
            deserializer.entry deserializer.exit result }
    {
        deserializer.deserialize_facet(alloc)
    }

    ghost excludes = { leaf_excludes types.Facet (λ f. facet f) (λ _. refl) };
}

impl ValueDeserialize for Vec<u8> {
    ghost is = { IsLeafOf (λ v. bytes v.items) };

    ghost refused = { LeafRefused types.Bytes };

    ghost deep = { λ _ _ _ _ _. ⊥ };

    fn deserialize<S: ByteSource>(
        alloc: Global,
        deserializer: BinaryValueDeserializer<'_, S>,
    ) -> Result<Vec<u8>, DeserializeError>
        ensures { ReadsLeaf S.ByteSource types.Bytes (λ v. bytes v.items)
            deserializer.entry deserializer.exit result }
    {
        deserializer.deserialize_bytes(alloc)
    }

    ghost excludes = { leaf_excludes types.Bytes (λ v. bytes v.items) (λ _. refl) };
}

impl ValueDeserialize for DateTime {
    ghost is = { IsLeafOf (λ d. date d.nanoseconds) };

    ghost refused = { LeafRefused types.DateTime };

    ghost deep = { λ _ _ _ _ _. ⊥ };

    fn deserialize<S: ByteSource>(
        _alloc: Global,
        deserializer: BinaryValueDeserializer<'_, S>,
    ) -> Result<DateTime, DeserializeError>
        ensures { ReadsLeaf S.ByteSource types.DateTime (λ d. date d.nanoseconds)
            deserializer.entry deserializer.exit result }
    {
        deserializer.deserialize_datetime()
    }

    ghost excludes = { leaf_excludes types.DateTime (λ d. date d.nanoseconds) (λ _. refl) };
}

impl ValueDeserialize for Ipv6Addr {
    ghost is = { IsLeafOf (λ a. ip_address (ipv6_bits a)) };

    ghost refused = { LeafRefused types.IpAddr };

    ghost deep = { λ _ _ _ _ _. ⊥ };

    fn deserialize<S: ByteSource>(
        _alloc: Global,
        deserializer: BinaryValueDeserializer<'_, S>,
    ) -> Result<Ipv6Addr, DeserializeError>
        ensures { ReadsLeaf S.ByteSource types.IpAddr (λ a. ip_address (ipv6_bits a))
            deserializer.entry deserializer.exit result }
    {
        deserializer.deserialize_ip_address()
    }

    ghost excludes = { leaf_excludes types.IpAddr (λ a. ip_address (ipv6_bits a)) (λ _. refl) };
}

impl ValueDeserialize for PreTokenizedString {
    ghost is = { IsLeafOf (λ s. tokenized (string_bytes s.text) (map token_of s.tokens.items)) };

    ghost refused = { LeafRefused types.PreTokStr };

    ghost deep = { λ _ _ _ _ _. ⊥ };

    fn deserialize<S: ByteSource>(
        alloc: Global,
        deserializer: BinaryValueDeserializer<'_, S>,
    ) -> Result<PreTokenizedString, DeserializeError>
        ensures { ReadsLeaf S.ByteSource types.PreTokStr
            (λ s. tokenized (string_bytes s.text) (map token_of s.tokens.items))
            deserializer.entry deserializer.exit result }
    {
        deserializer.deserialize_pre_tokenized_string(alloc)
    }

    ghost excludes = { leaf_excludes types.PreTokStr
        (λ s. tokenized (string_bytes s.text) (map token_of s.tokens.items)) (λ _. refl) };
}

/// What makes a value of whatever stands in a store, by a call for each type.
///
/// A visitor gives each call, and says what it returns: by `answers` for a value that isn't an array or an object, and for arrays and
/// objects by the bytes that it reads. Where it takes no value of a type, it returns `UnsupportedType` of that type; for arrays and
/// objects `unsupported` does so.
pub trait ValueVisitor {
    /// What is made.
    type Value;

    /// What may be returned for a value that isn't an array or an object.
    ghost answers: { Self → Leaf → Result Self.Value DeserializeError → Type 0 };

    /// None of it tells of a failed read, nor of what only a reader refuses.
    ghost tells_no_failure: { (visitor : Self) (leaf : Leaf)
        (result : Result Self.Value DeserializeError) → answers visitor leaf result
        → TellsNoFailure result };

    /// What is made of an array, by how many values it announces and the bytes after their number that are read.
    ghost of_array: { Self → Version → ℕ → List ℕ → Self.Value → Type 0 };

    /// Which refusal bytes after the number of an array's values have.
    ghost array_refused: { Self → Version → ℕ → List ℕ → DeserializeError → Type 0 };

    /// What is made of an object, by how many entries it has and the bytes after their number that are read.
    ghost of_object: { Self → Version → ℕ → List ℕ → Self.Value → Type 0 };

    /// Which refusal bytes after the number of an object's entries have.
    ghost object_refused: { Self → Version → ℕ → List ℕ → DeserializeError → Type 0 };

    /// Null stands there.
    fn visit_null(&self, value: ()) -> Result<Self::Value, DeserializeError>
        ensures { answers self.now null result };

    /// A text stands there.
    fn visit_string(&self, value: String) -> Result<Self::Value, DeserializeError>
        ensures { answers self.now (text (string_bytes value)) result };

    /// A number from 0 to 2^64 - 1 stands there.
    fn visit_u64(&self, value: u64) -> Result<Self::Value, DeserializeError>
        ensures { answers self.now (unsigned value) result };

    /// A number from -2^63 to 2^63 - 1 stands there.
    fn visit_i64(&self, value: i64) -> Result<Self::Value, DeserializeError>
        ensures { answers self.now (signed value) result };

    /// A truth value stands there.
    fn visit_bool(&self, value: bool) -> Result<Self::Value, DeserializeError>
        ensures { answers self.now (boolean value) result };

    /// A date stands there.
    fn visit_datetime(&self, value: DateTime) -> Result<Self::Value, DeserializeError>
        ensures { answers self.now (date value.nanoseconds) result };

    /// An IP address stands there.
    fn visit_ip_address(&self, value: Ipv6Addr) -> Result<Self::Value, DeserializeError>
        ensures { answers self.now (ip_address (ipv6_bits value)) result };

    /// A facet stands there.
    fn visit_facet(&self, value: Facet) -> Result<Self::Value, DeserializeError>
        ensures { answers self.now (facet value) result };

    /// Bytes stand there.
    fn visit_bytes(&self, value: Vec<u8>) -> Result<Self::Value, DeserializeError>
        ensures { answers self.now (bytes value.items) result };

    /// A text with its tokens stands there.
    fn visit_pre_tokenized_string(
        &self,
        value: PreTokenizedString,
    ) -> Result<Self::Value, DeserializeError>
        ensures { answers self.now
            (tokenized (string_bytes value.text) (map token_of value.tokens.items)) result };

    /// An array stands there, whose number of values was read. The errors are those of its values, what the visitor refuses, and
    /// `Memory`. It returns `Io` exactly where a read failed, with its kind, and none of `HeapFull`, `UnsupportedVersion` and
    /// `AlreadyFailed`. After a read that was refused it returns an error.
    fn visit_array<S: ByteSource>(
        &self,
        alloc: Global,
        access: BinaryArrayDeserializer<'_, S>,
    ) -> Result<Self::Value, DeserializeError>
        requires first { access.position ≡ 0 }
        requires open { access.reader.now.has_failed ≡ false }
        ensures { MakesOfItems S.ByteSource (of_array self.now) (array_refused self.now)
            access.entry.announced access.entry.reader.now (items_reader access.exit) result };

    /// An object stands there, whose number of entries was read. The errors are those of its entries, what the visitor refuses, and
    /// `Memory`. It returns `Io` exactly where a read failed, with its kind, and none of `HeapFull`, `UnsupportedVersion` and
    /// `AlreadyFailed`. After a read that was refused it returns an error.
    fn visit_object<S: ByteSource>(
        &self,
        alloc: Global,
        access: BinaryObjectDeserializer<'_, S>,
    ) -> Result<Self::Value, DeserializeError>
        requires first { access.position ≡ 0 }
        requires open { access.reader.now.has_failed ≡ false }
        ensures { MakesOfItems S.ByteSource (of_object self.now) (object_refused self.now)
            access.entry.announced access.entry.reader.now (items_reader access.exit) result };
}

// Hands a value that holds no others to the visitor's call for its type.
pub(crate) fn hand<V: ValueVisitor>(
    visitor: &V,
    value: OwnedValue,
) -> Result<V::Value, DeserializeError>
    requires { IsSingle (owned_tree value) }
    ensures { V.answers visitor.now (single_leaf (owned_tree value)) result }
{
    match value {
        OwnedValue::Null => visitor.visit_null(()),
        OwnedValue::Str(text) => visitor.visit_string(text),
        OwnedValue::PreTokStr(text) => visitor.visit_pre_tokenized_string(text),
        OwnedValue::U64(number) => visitor.visit_u64(number),
        OwnedValue::I64(number) => visitor.visit_i64(number),
        OwnedValue::Bool(truth) => visitor.visit_bool(truth),
        OwnedValue::Date(date) => visitor.visit_datetime(date),
        OwnedValue::Facet(facet) => visitor.visit_facet(facet),
        OwnedValue::Bytes(bytes) => visitor.visit_bytes(bytes),
        OwnedValue::IpAddr(address) => visitor.visit_ip_address(address),
        OwnedValue::Array(_) | OwnedValue::Object(_) => unreachable!(),
    }
}
