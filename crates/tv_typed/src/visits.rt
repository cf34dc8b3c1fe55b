//! Handing what stands in a store to a visitor.

ghost use Rattle.std.specs.Prelude.{◌≡◌, false, is_err, IsTrue, OnOk};
ghost use Rattle.tv_format.specs.Version.{V2};
ghost use Rattle.tv_reader.specs.Leaves.{is_leaf_type};
ghost use Rattle.tv_reader.specs.declared.version.DocStoreVersion.TheVariants as stores;
ghost use Rattle.tv_typed.specs.LegacyObjects.{OfEncoding};
ghost use Rattle.tv_typed.specs.Typed.{Deserializes, value_reader};
ghost use Rattle.tv_typed.specs.Visitors.{Visits, VisitsArray, VisitsKind, VisitsLegacy, VisitsObject, VisitsValue};
ghost use Rattle.tv_typed.specs.Visits.{EncodesNextVisited, NextVisitRefused};

use crate::array::BinaryArrayDeserializer;
use crate::de::BinaryValueDeserializer;
use crate::leaf_values::{ValueVisitor, hand};
use crate::legacy_object::{encoded, retold};
use crate::object::BinaryObjectDeserializer;
use crate::store_reader::StoreReader;
use std::alloc::Global;
use tv_base::{ByteSource, SliceSource};
use tv_reader::value_type::take_leaf;
use tv_reader::{DeserializeError, DocStoreVersion, ValueType};

// Hands the visitor the entries of an object whose encoding stands in memory. The JSON of a legacy object nests 127 levels deep at most, so no
// value in it is too deep.
fn visit_encoding<V: ValueVisitor>(
    alloc: Global,
    bytes: &Vec<u8>,
    visitor: &V,
) -> Result<V::Value, DeserializeError>
    ensures { OfEncoding (EncodesNextVisited (V.of_object visitor.now V2))
        (NextVisitRefused (V.object_refused visitor.now V2)) bytes.now.items result }
{
    let mut reader = StoreReader::new(SliceSource::new(bytes), DocStoreVersion::V2);
    match reader.visit_next_object(alloc, visitor) {
        Ok(value) => Ok(value),
        Err(error) => Err(retold(error)),
    }
}

impl<S: ByteSource> StoreReader<S> {
    // Hands the visitor a value that holds no others, after the codes of its type. What it refuses isn't marked yet.
    fn visit_leaf<V: ValueVisitor>(
        &mut self,
        alloc: Global,
        kind: ValueType,
        visitor: &V,
    ) -> Result<V::Value, DeserializeError>
        requires { IsTrue (is_leaf_type kind) }
        ensures visits { Visits S.ByteSource V.ValueVisitor visitor.now kind self.old self.new
            result }
        ensures unmarked { OnOk result (self.new.has_failed ≡ false) }
    {
        self.go_on()?;
        match take_leaf(alloc, &mut self.source, &mut self.count, self.version, kind) {
            Ok(value) => hand(visitor, value),
            Err(error) => Err(DeserializeError::from(error)),
        }
    }

    // Hands the visitor the values of an array, once their number is read. What it refuses isn't marked yet.
    fn visit_elements<V: ValueVisitor>(
        &mut self,
        alloc: Global,
        kind: ValueType,
        visitor: &V,
    ) -> Result<V::Value, DeserializeError>
        ensures visits { VisitsArray S.ByteSource V.ValueVisitor visitor.now kind self.old self.new
            result }
        ensures unmarked { OnOk result (self.new.has_failed ≡ false) }
    {
        let announced = self.array_length(kind)?;
        let access = BinaryArrayDeserializer {
            announced,
            position: 0,
            reader: self,
        };
        visitor.visit_array(alloc, access)
    }

    // Hands the visitor the entries of an object, once their number is read. What it refuses isn't marked yet.
    fn visit_entries<V: ValueVisitor>(
        &mut self,
        alloc: Global,
        kind: ValueType,
        visitor: &V,
    ) -> Result<V::Value, DeserializeError>
        ensures visits { VisitsObject S.ByteSource V.ValueVisitor visitor.now kind self.old self.new
            result }
        ensures unmarked { OnOk result (self.new.has_failed ≡ false) }
    {
        let announced = self.object_length(kind)?;
        let access = BinaryObjectDeserializer {
            announced,
            position: 0,
            reader: self,
        };
        visitor.visit_object(alloc, access)
    }

    // Hands the visitor the entries of the object that comes next, with its code. What it refuses isn't marked yet.
    fn visit_next_object<V: ValueVisitor>(
        &mut self,
        alloc: Global,
        visitor: &V,
    ) -> Result<V::Value, DeserializeError>
        requires { self.old.version ≡ stores.V2 }
        ensures { Deserializes S.ByteSource self.old self.new result
            (EncodesNextVisited (V.of_object visitor.now V2))
            (NextVisitRefused (V.object_refused visitor.now V2)) }
    {
        let kind = self.code()?;
        self.visit_entries(alloc, kind, visitor)
    }

    // Hands the visitor the entries of a legacy object, out of the encoding of its tree. What it refuses isn't marked yet.
    fn visit_legacy<V: ValueVisitor>(
        &mut self,
        alloc: Global,
        visitor: &V,
    ) -> Result<V::Value, DeserializeError>
        ensures visits { VisitsLegacy S.ByteSource V.ValueVisitor visitor.now self.old self.new
            result }
        ensures unmarked { OnOk result (self.new.has_failed ≡ false) }
    {
        let tree = self.legacy_tree(alloc)?;
        let bytes = encoded(alloc, &tree)?;
        visit_encoding(alloc, &bytes, visitor)
    }

    // Hands the visitor what stands after the code of a type. What it refuses isn't marked yet.
    fn visit_kind<V: ValueVisitor>(
        &mut self,
        alloc: Global,
        kind: ValueType,
        visitor: &V,
    ) -> Result<V::Value, DeserializeError>
        ensures visits { VisitsKind S.ByteSource V.ValueVisitor visitor.now kind self.old self.new
            result }
        ensures unmarked { OnOk result (self.new.has_failed ≡ false) }
    {
        match kind {
            ValueType::Array => self.visit_elements(alloc, kind, visitor),
            ValueType::Object => self.visit_entries(alloc, kind, visitor),
            ValueType::JSONObject => self.visit_legacy(alloc, visitor),
            _ => self.visit_leaf(alloc, kind, visitor),
        }
    }
}

impl<'de, S: ByteSource> BinaryValueDeserializer<'de, S> {
    /// Hands the value to the visitor's call for its type, and gives what that returns.
    ///
    /// Errors: those of the call for a value of this type; for an array or an object `CorruptedValue` where the number of its values
    /// is malformed, with `OddObject` where no object announces it; for a legacy object those of a value of any type but `TooDeep`, and then the
    /// visitor's call for objects is handed the entries of an encoding of its tree, which is made in memory, with
    /// `UnsupportedType(JSONObject)` where it reads past the end of that; `Io`; `Memory`; `AlreadyFailed` where an earlier read was
    /// refused; and what the visitor refuses. The visitor isn't called after another refusal.
    /// Each is marked in the reader, which else isn't marked.
    pub fn deserialize_any<V: ValueVisitor>(
        self,
        alloc: Global,
        visitor: &V,
    ) -> Result<V::Value, DeserializeError>
        ensures visits { VisitsValue S.ByteSource V.ValueVisitor visitor.now self.entry self.exit
            result }
        ensures marks_failure { (value_reader self.exit).has_failed ≡ is_err result }
    {
        let BinaryValueDeserializer { kind, reader } = self;
        let answer = reader.visit_kind(alloc, kind, visitor);
        reader.has_failed = answer.is_err();
        answer
    }
}
