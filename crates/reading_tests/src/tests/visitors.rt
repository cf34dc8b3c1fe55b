//! Values that are handed to visitors.

ghost use Rattle.std.specs.Prelude.{◌≡◌, [], Result};
ghost use Rattle.tv_typed.specs.Visits.{TellsNoFailure};

use std::alloc::Global;
use std::net::Ipv6Addr;
use tv_base::{ByteSource, Cause, Facet, SliceSource};
use tv_date::date_time::DateTime;
use tv_reader::{DeserializeError, DocStoreVersion, ValueType};
use tv_typed::{
    BinaryArrayDeserializer, BinaryObjectDeserializer, BinaryValueDeserializer, StoreReader,
    ValueVisitor,
};
use tv_value::tokenizer::PreTokenizedString;

// Tells a number for what stands there: of an array or an object how many values or entries are announced. It takes no date.
struct Numbers;

impl ValueVisitor for Numbers {
    type Value = u64;

    ghost answers = { λ v l result. TellsNoFailure result };

    ghost tells_no_failure = { λ v l result h. h };

    ghost of_array = { λ visitor v n bytes x. (bytes ≡ []) × (x ≡ n) };

    ghost array_refused = { λ visitor v n bytes e. ⊥ };

    ghost of_object = { λ visitor v n bytes x. (bytes ≡ []) × (x ≡ n) };

    ghost object_refused = { λ visitor v n bytes e. ⊥ };

    fn visit_null(&self, _value: ()) -> Result<u64, DeserializeError> {
        Ok(11)
    }

    fn visit_string(&self, value: String) -> Result<u64, DeserializeError> {
        Ok(value.len() as u64)
    }

    fn visit_u64(&self, value: u64) -> Result<u64, DeserializeError> {
        Ok(value)
    }

    fn visit_i64(&self, value: i64) -> Result<u64, DeserializeError> {
        Ok(value.unsigned_abs())
    }

    fn visit_bool(&self, value: bool) -> Result<u64, DeserializeError> {
        Ok(u64::from(value))
    }

    fn visit_datetime(&self, _value: DateTime) -> Result<u64, DeserializeError> {
        Err(DeserializeError::UnsupportedType(ValueType::DateTime))
    }

    fn visit_ip_address(&self, value: Ipv6Addr) -> Result<u64, DeserializeError> {
        Ok(u64::from(value.is_loopback()))
    }

    fn visit_facet(&self, value: Facet) -> Result<u64, DeserializeError> {
        Ok(value.encoded_str().len() as u64)
    }

    fn visit_bytes(&self, value: Vec<u8>) -> Result<u64, DeserializeError> {
        Ok(value.len() as u64)
    }

    fn visit_pre_tokenized_string(
        &self,
        value: PreTokenizedString,
    ) -> Result<u64, DeserializeError> {
        Ok(value.tokens.len() as u64)
    }

    fn visit_array<S: ByteSource>(
        &self,
        _alloc: Global,
        access: BinaryArrayDeserializer<'_, S>,
    ) -> Result<u64, DeserializeError> {
        Ok(access.size_hint() as u64)
    }

    fn visit_object<S: ByteSource>(
        &self,
        _alloc: Global,
        access: BinaryObjectDeserializer<'_, S>,
    ) -> Result<u64, DeserializeError> {
        Ok(access.size_hint() as u64)
    }
}

// The number that is reported for the value which these bytes begin with, and whether the reader is marked then.
fn told(alloc: Global, bytes: &[u8]) -> (Result<u64, DeserializeError>, bool) {
    let mut reader = StoreReader::new(SliceSource::new(bytes), DocStoreVersion::V2);
    let answer = match BinaryValueDeserializer::from_reader(&mut reader) {
        Ok(value) => value.deserialize_any(alloc, &Numbers),
        Err(error) => Err(error),
    };
    (answer, reader.has_failed())
}

#[test]
fn values_are_handed_to_the_call_of_their_type(rt: HostRuntime) {
    let alloc = rt.alloc();
    let cases: [(&[u8], u64); 11] = [
        (b"\x0b", 11),
        (b"\x00\x82ab", 2),
        (b"\x01\x05\0\0\0\0\0\0\0", 5),
        (b"\x02\xfe\xff\xff\xff\xff\xff\xff\xff", 2),
        (b"\x03\x83a\0b", 3),
        (b"\x04\x83\0\0\0", 3),
        (b"\x07\x00\x81a\x81\x80\x81\x80\x81a\x81", 1),
        (b"\x09\x01", 1),
        (b"\x0c\x82\x0b\x0b", 2),
        (b"\x0d\x82\x00\x81a\x0b", 1),
        // a legacy object
        (b"\x08{\"a\":1,\"b\":2}", 2),
    ];
    for (bytes, number) in cases {
        assert!(rt; told(alloc, bytes) == (Ok(number), false));
    }
}

#[test]
fn refusals_are_given_and_marked(rt: HostRuntime) {
    let alloc = rt.alloc();
    let cases: [(&[u8], DeserializeError); 4] = [
        // the visitor's own
        (
            b"\x05\0\0\0\0\0\0\0\0",
            DeserializeError::UnsupportedType(ValueType::DateTime),
        ),
        (
            b"\x08[",
            DeserializeError::CorruptedValue(Cause::LegacyJson),
        ),
        (
            b"\x0d\x81",
            DeserializeError::CorruptedValue(Cause::OddObject),
        ),
        (
            b"\x09\x02",
            DeserializeError::CorruptedValue(Cause::BadBool),
        ),
    ];
    for (bytes, error) in cases {
        assert!(rt; told(alloc, bytes) == (Err(error), true));
    }
}
