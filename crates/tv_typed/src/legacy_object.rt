//! Legacy objects, read as lists and maps: the object's tree is encoded in memory, and read from there.

ghost use Rattle.std.specs.Prelude.{◌≡◌, false, IfOk, OnOk};
ghost use Rattle.tv_format.specs.Short.{short, IsValue};
ghost use Rattle.tv_format.specs.Version.{V2};
ghost use Rattle.tv_reader.specs.Trees.{EncodesBehind};
ghost use Rattle.tv_reader.specs.Version.{version_of};
ghost use Rattle.tv_reader.specs.declared.value_type.ValueType.TheVariants as types;
ghost use Rattle.tv_typed.specs.LegacyObjects.{Retold, OfEncoding, LegacyRefused};
ghost use Rattle.tv_typed.specs.Items.{ReadsMembers};
ghost use Rattle.tv_typed.specs.Typed.{ReadsThrough, Deserializes};
ghost use Rattle.tv_typed.specs.Lists.{ObjectRefused};
ghost use Rattle.tv_typed.specs.Values.{EncodesAs, EncodedAs, NextRefused, TreeRefused};
ghost use Rattle.tv_value.specs.Owned.{owned_tree};

use crate::de::ValueDeserialize;
use crate::object::{Entries, read_coded};
use crate::store_reader::StoreReader;
use std::alloc::{AllocError, Global};
use tv_base::{ByteSource, Cause, SliceSource, VecSink};
use tv_format::WriteVersion;
use tv_reader::trees::take_legacy_object;
use tv_reader::{DeserializeError, DocStoreVersion, ValueType};
use tv_value::owned_value::OwnedValue;
use tv_writer::encoding::has_encoding;
use tv_writer::value_writer::write_value;

// The code, and the value after it.
fn next_object<T: ValueDeserialize, C: Entries<T>, S: ByteSource>(
    alloc: Global,
    reader: &mut StoreReader<S>,
) -> Result<C, DeserializeError>
    ensures { Deserializes S.ByteSource reader.old reader.new result
        (EncodesAs C.is (version_of reader.old.version))
        (NextRefused (ObjectRefused T.is T.refused) (version_of reader.old.version)) }
{
    let kind = reader.code()?;
    read_coded::<T, C, S>(alloc, kind, reader)
}

// The shortest encoding of a value in version 2. The only error is that memory was refused, which is reported too where it has none.
pub(crate) fn encoded(alloc: Global, value: &OwnedValue) -> Result<Vec<u8>, AllocError>
    ensures ok { IfOk result (λ bytes. bytes.items ≡ short V2 (owned_tree value.now)) }
    ensures valid { OnOk result (IsValue (owned_tree value.now)) }
{
    let mut sink = VecSink::new(alloc);
    if has_encoding(&value) && write_value(&mut sink, &value, WriteVersion::V2).is_ok() {
        Ok(sink.into_vec())
    } else {
        Err(AllocError)
    }
}

// How a refusal of what was encoded is reported.
pub(crate) fn retold(error: DeserializeError) -> DeserializeError
    ensures { Retold error result }
{
    match error {
        DeserializeError::CorruptedValue(cause) => match cause {
            Cause::UnexpectedEnd => DeserializeError::UnsupportedType(ValueType::JSONObject),
            cause => DeserializeError::CorruptedValue(cause),
        },
        error => error,
    }
}

// What is read of the shortest encoding of a tree. The JSON of a legacy object nests 127 levels deep at most, so no value in it is too deep.
fn of_encoding<T: ValueDeserialize, C: Entries<T>>(
    alloc: Global,
    bytes: &Vec<u8>,
) -> Result<C, DeserializeError>
    ensures { OfEncoding (EncodesAs C.is V2) (NextRefused (ObjectRefused T.is T.refused) V2)
        bytes.now.items result }
{
    let mut reader = StoreReader::new(SliceSource::new(bytes), DocStoreVersion::V2);
    match next_object::<T, C, SliceSource<'_>>(alloc, &mut reader) {
        Ok(value) => Ok(value),
        Err(error) => Err(retold(error)),
    }
}

impl<S: ByteSource> StoreReader<S> {
    // Reads a legacy object after its code.
    pub(crate) fn legacy_tree(&mut self, alloc: Global) -> Result<OwnedValue, DeserializeError>
        ensures reads { ReadsThrough S.ByteSource self.old self.new result
            (EncodesBehind (version_of self.old.version) types.JSONObject)
            (TreeRefused (version_of self.old.version) types.JSONObject) }
    {
        self.go_on()?;
        let answer = take_legacy_object(alloc, &mut self.source, &mut self.count);
        self.has_failed = answer.is_err();
        answer
    }
}

// The value of a legacy object, after its code.
fn legacy_object<T: ValueDeserialize, C: Entries<T>, S: ByteSource>(
    alloc: Global,
    reader: &mut StoreReader<S>,
) -> Result<C, DeserializeError>
    ensures { Deserializes S.ByteSource reader.old reader.new result
        (EncodedAs C.is (version_of reader.old.version) types.JSONObject)
        (LegacyRefused (ObjectRefused T.is T.refused) (version_of reader.old.version)) }
{
    let tree = reader.legacy_tree(alloc)?;
    let bytes = encoded(alloc, &tree)?;
    of_encoding::<T, C>(alloc, &bytes)
}

// Reads a value after its code, of a legacy object too.
pub(crate) fn read_object<T: ValueDeserialize, C: Entries<T>, S: ByteSource>(
    alloc: Global,
    kind: ValueType,
    reader: &mut StoreReader<S>,
) -> Result<C, DeserializeError>
    ensures { ReadsMembers S.ByteSource C.is T.ValueDeserialize kind reader.old reader.new result }
{
    match kind {
        ValueType::JSONObject => legacy_object::<T, C, S>(alloc, reader),
        kind => read_coded::<T, C, S>(alloc, kind, reader),
    }
}
