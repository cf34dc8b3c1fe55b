//! A visitor that takes no arrays and no objects.

ghost use Rattle.std.specs.Prelude.{◌≡◌, Result};
ghost use Rattle.tv_reader.specs.declared.error.DeserializeError.TheVariants as errors;
ghost use Rattle.tv_reader.specs.declared.value_type.ValueType.TheVariants as types;
ghost use Rattle.tv_typed.specs.Visits.{TellsNoFailure};

use std::alloc::Global;
use std::net::Ipv6Addr;
use tv_base::{ByteSource, Facet, SliceSource};
use tv_date::date_time::DateTime;
use tv_reader::{DeserializeError, DocStoreVersion, ValueType};
use tv_typed::{
    BinaryArrayDeserializer, BinaryObjectDeserializer, BinaryValueDeserializer, StoreReader,
    ValueVisitor,
};
use tv_value::tokenizer::PreTokenizedString;

// Takes each leaf, and says nothing of it.
struct Leaves;

impl ValueVisitor for Leaves {
    type Value = ();

    ghost answers = { λ v l result. TellsNoFailure result };

    ghost tells_no_failure = { λ v l result h. h };

    ghost of_array = { λ visitor v n bytes x. ⊥ };

    ghost array_refused = { λ visitor v n bytes e. e ≡ errors.UnsupportedType types.Array };

    ghost of_object = { λ visitor v n bytes x. ⊥ };

    ghost object_refused = { λ visitor v n bytes e. e ≡ errors.UnsupportedType types.Object };

    fn visit_null(&self, _value: ()) -> Result<(), DeserializeError> {
        Ok(())
    }

    fn visit_string(&self, _value: String) -> Result<(), DeserializeError> {
        Ok(())
    }

    fn visit_u64(&self, _value: u64) -> Result<(), DeserializeError> {
        Ok(())
    }

    fn visit_i64(&self, _value: i64) -> Result<(), DeserializeError> {
        Ok(())
    }

    fn visit_bool(&self, _value: bool) -> Result<(), DeserializeError> {
        Ok(())
    }

    fn visit_datetime(&self, _value: DateTime) -> Result<(), DeserializeError> {
        Ok(())
    }

    fn visit_ip_address(&self, _value: Ipv6Addr) -> Result<(), DeserializeError> {
        Ok(())
    }

    fn visit_facet(&self, _value: Facet) -> Result<(), DeserializeError> {
        Ok(())
    }

    fn visit_bytes(&self, _value: Vec<u8>) -> Result<(), DeserializeError> {
        Ok(())
    }

    fn visit_pre_tokenized_string(
        &self,
        _value: PreTokenizedString,
    ) -> Result<(), DeserializeError> {
        Ok(())
    }

    fn visit_array<S: ByteSource>(
        &self,
        _alloc: Global,
        access: BinaryArrayDeserializer<'_, S>,
    ) -> Result<(), DeserializeError> {
        access.unsupported()
    }

    fn visit_object<S: ByteSource>(
        &self,
        _alloc: Global,
        access: BinaryObjectDeserializer<'_, S>,
    ) -> Result<(), DeserializeError> {
        access.unsupported()
    }
}

// How handing on the value ends which these bytes begin with.
fn ending(alloc: Global, bytes: &[u8]) -> Result<(), DeserializeError> {
    let mut reader = StoreReader::new(SliceSource::new(bytes), DocStoreVersion::V2);
    BinaryValueDeserializer::from_reader(&mut reader)?.deserialize_any(alloc, &Leaves)
}

#[test]
fn arrays_and_objects_need_calls_of_their_own(rt: HostRuntime) {
    let alloc = rt.alloc();
    let array = DeserializeError::UnsupportedType(ValueType::Array);
    assert!(rt; ending(alloc, b"\x0c\x82\x0b\x0b") == Err(array));
    let object = DeserializeError::UnsupportedType(ValueType::Object);
    assert!(rt; ending(alloc, b"\x0d\x82\x00\x81a\x0b") == Err(object));
    let legacy = DeserializeError::UnsupportedType(ValueType::Object);
    assert!(rt; ending(alloc, b"\x08{}") == Err(legacy));
    assert!(rt; ending(alloc, b"\x0b") == Ok(()));
}
