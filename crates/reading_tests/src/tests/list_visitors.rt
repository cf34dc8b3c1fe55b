//! A visitor that takes arrays of numbers alone, and says which array it takes and which it refuses.

ghost use Rattle.std.specs.Prelude.{◌≡◌, Result};
ghost use Rattle.tv_base.specs.ErrorInPart.{InEach};
ghost use Rattle.tv_reader.specs.declared.error.DeserializeError.TheVariants as errors;
ghost use Rattle.tv_reader.specs.declared.value_type.ValueType.TheVariants as types;
ghost use Rattle.tv_typed.specs.Lists.{EncodesInto};
ghost use Rattle.tv_typed.specs.Values.{EncodesAs, NextRefused};
ghost use Rattle.tv_typed.specs.Visits.{TellsNoFailure};

use std::alloc::Global;
use std::net::Ipv6Addr;
use std::test::Fail;
use tv_base::{ByteSource, Cause, Facet, SliceSource};
use tv_date::date_time::DateTime;
use tv_reader::{DeserializeError, DocStoreVersion, ValueType};
use tv_typed::{
    BinaryArrayDeserializer, BinaryObjectDeserializer, BinaryValueDeserializer, StoreReader,
    ValueDeserialize, ValueVisitor,
};
use tv_value::tokenizer::PreTokenizedString;

// Takes the numbers of an array, and no other value.
struct Elements;

// The refusal of a value that isn't taken.
fn refused(value_type: ValueType) -> Result<Vec<u64>, DeserializeError>
    ensures { TellsNoFailure result }
{
    Err(DeserializeError::UnsupportedType(value_type))
}

impl ValueVisitor for Elements {
    type Value = Vec<u64>;

    ghost answers = { λ v l result. TellsNoFailure result };

    ghost tells_no_failure = { λ v l result h. h };

    ghost of_array = { λ visitor v n bytes x. EncodesInto (λ items xs. items.items ≡ xs)
        (EncodesAs ⟦<u64 as ValueDeserialize>⟧.is v) n bytes x };

    ghost array_refused = { λ visitor v n bytes e. InEach
        (NextRefused ⟦<u64 as ValueDeserialize>⟧.refused v)
        (EncodesAs ⟦<u64 as ValueDeserialize>⟧.is v) n bytes e };

    ghost of_object = { λ visitor v n bytes x. ⊥ };

    ghost object_refused = { λ visitor v n bytes e. e ≡ errors.UnsupportedType types.Object };

    fn visit_null(&self, _value: ()) -> Result<Vec<u64>, DeserializeError> {
        refused(ValueType::Null)
    }

    fn visit_string(&self, _value: String) -> Result<Vec<u64>, DeserializeError> {
        refused(ValueType::String)
    }

    fn visit_u64(&self, _value: u64) -> Result<Vec<u64>, DeserializeError> {
        refused(ValueType::U64)
    }

    fn visit_i64(&self, _value: i64) -> Result<Vec<u64>, DeserializeError> {
        refused(ValueType::I64)
    }

    fn visit_bool(&self, _value: bool) -> Result<Vec<u64>, DeserializeError> {
        refused(ValueType::Bool)
    }

    fn visit_datetime(&self, _value: DateTime) -> Result<Vec<u64>, DeserializeError> {
        refused(ValueType::DateTime)
    }

    fn visit_ip_address(&self, _value: Ipv6Addr) -> Result<Vec<u64>, DeserializeError> {
        refused(ValueType::IpAddr)
    }

    fn visit_facet(&self, _value: Facet) -> Result<Vec<u64>, DeserializeError> {
        refused(ValueType::Facet)
    }

    fn visit_bytes(&self, _value: Vec<u8>) -> Result<Vec<u64>, DeserializeError> {
        refused(ValueType::Bytes)
    }

    fn visit_pre_tokenized_string(
        &self,
        _value: PreTokenizedString,
    ) -> Result<Vec<u64>, DeserializeError> {
        refused(ValueType::PreTokStr)
    }

    fn visit_array<S: ByteSource>(
        &self,
        alloc: Global,
        access: BinaryArrayDeserializer<'_, S>,
    ) -> Result<Vec<u64>, DeserializeError> {
        access.read_all::<u64>(alloc)
    }

    fn visit_object<S: ByteSource>(
        &self,
        _alloc: Global,
        access: BinaryObjectDeserializer<'_, S>,
    ) -> Result<Vec<u64>, DeserializeError> {
        access.unsupported()
    }
}

// The numbers of the array which these bytes begin with, how many bytes were read, and whether the reader is marked then.
fn numbers(alloc: Global, bytes: &[u8]) -> (Result<Vec<u64>, DeserializeError>, u64, bool) {
    let mut reader = StoreReader::new(SliceSource::new(bytes), DocStoreVersion::V2);
    let answer = match BinaryValueDeserializer::from_reader(&mut reader) {
        Ok(value) => value.deserialize_any(alloc, &Elements),
        Err(error) => Err(error),
    };
    (answer, reader.bytes_read(), reader.has_failed())
}

#[test]
fn a_visitor_reads_all_elements(rt: HostRuntime) -> Result<(), Fail> {
    let bytes = b"\x0c\x82\x01\x05\0\0\0\0\0\0\0\x01\x06\0\0\0\0\0\0\0\xff";
    let (read, count, has_failed) = numbers(rt.alloc(), bytes);
    assert!(rt; read?.as_slice() == [5, 6].as_slice());
    assert!(rt; (count, has_failed) == (20, false));
    Ok(())
}

#[test]
fn what_a_visitor_cannot_read_is_marked(rt: HostRuntime) {
    let mismatch = DeserializeError::TypeMismatch {
        expected: ValueType::U64,
        actual: ValueType::Bool,
    };
    let bytes = b"\x0c\x82\x01\x05\0\0\0\0\0\0\0\x09\x01";
    assert!(rt; numbers(rt.alloc(), bytes) == (Err(mismatch), 12, true));
    let cut = DeserializeError::CorruptedValue(Cause::UnexpectedEnd);
    let bytes = b"\x0c\x82\x01\x05\0\0\0\0\0\0\0";
    assert!(rt; numbers(rt.alloc(), bytes) == (Err(cut), 11, true));
}
