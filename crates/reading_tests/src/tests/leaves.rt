//! Values without children that are read by the call for their type. The bytes are those of FORMATS: the code of the type, and what follows it.

use std::net::Ipv6Addr;
use std::test::Fail;
use tantivy_schema::DateTime;
use tantivy_schema::common::SliceSource;
use tantivy_schema::schema::Facet;
use tantivy_schema::schema::document::{
    BinaryValueDeserializer, DeserializeError, StoreReader, ValueType,
};
use tantivy_schema::store::DocStoreVersion;

// A reader of these bytes.
fn reader(bytes: &[u8]) -> StoreReader<SliceSource<'_>> {
    StoreReader::new(SliceSource::new(bytes), DocStoreVersion::V2)
}

#[test]
fn null_is_read(rt: HostRuntime) -> Result<(), Fail> {
    let mut null = reader(b"\x0b");
    assert!(rt; BinaryValueDeserializer::from_reader(&mut null)?.deserialize_null() == Ok(()));
    let mut number = reader(b"\x01\x07\0\0\0\0\0\0\0");
    let refused = BinaryValueDeserializer::from_reader(&mut number)?.deserialize_null();
    let mismatch = DeserializeError::TypeMismatch {
        expected: ValueType::Null,
        actual: ValueType::U64,
    };
    assert!(rt; refused == Err(mismatch));
    Ok(())
}

#[test]
fn numbers_and_truth_values_are_read(rt: HostRuntime) -> Result<(), Fail> {
    let mut unsigned = reader(b"\x01\x07\x01\0\0\0\0\0\0");
    let number = BinaryValueDeserializer::from_reader(&mut unsigned)?.deserialize_u64()?;
    assert!(rt; number == 263);
    let mut signed = reader(b"\x02\xfe\xff\xff\xff\xff\xff\xff\xff");
    let number = BinaryValueDeserializer::from_reader(&mut signed)?.deserialize_i64()?;
    assert!(rt; number == -2);
    let mut truth = reader(b"\x09\x01");
    assert!(rt; BinaryValueDeserializer::from_reader(&mut truth)?.deserialize_bool()?);
    let mut date = reader(b"\x05\x05\0\0\0\0\0\0\0");
    let moment = BinaryValueDeserializer::from_reader(&mut date)?.deserialize_datetime()?;
    assert!(rt; moment == DateTime::from_timestamp_nanos(5));
    let mut address = reader(b"\x0a\x01\0\0\0\0\0\0\0\0\0\0\0\0\0\0\0");
    let one = BinaryValueDeserializer::from_reader(&mut address)?.deserialize_ip_address()?;
    assert!(rt; one == Ipv6Addr::from_bits(1));
    Ok(())
}

#[test]
fn texts_are_read(rt: HostRuntime) -> Result<(), Fail> {
    let alloc = rt.alloc();
    let mut text = reader(b"\0\x82ab");
    let read = BinaryValueDeserializer::from_reader(&mut text)?.deserialize_string(alloc)?;
    assert!(rt; read.as_str() == "ab");
    let mut facet = reader(b"\x03\x83a\0b");
    let read = BinaryValueDeserializer::from_reader(&mut facet)?.deserialize_facet(alloc)?;
    assert!(rt; read == Facet::from_path(alloc, &["a", "b"])?);
    let mut bytes = reader(b"\x04\x82\xff\0");
    let read = BinaryValueDeserializer::from_reader(&mut bytes)?.deserialize_bytes(alloc)?;
    assert!(rt; read.as_slice() == b"\xff\0".as_slice());
    let mut tokenized = reader(b"\x07\0\x82ab\x80");
    let read = BinaryValueDeserializer::from_reader(
        &mut tokenized,
    )?.deserialize_pre_tokenized_string(alloc)?;
    assert!(rt; read.text.as_str() == "ab" && read.tokens.is_empty());
    Ok(())
}
