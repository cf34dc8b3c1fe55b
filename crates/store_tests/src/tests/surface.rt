//! Each public name of tantivy's layer, at the root of the crate that it belongs to and of `tantivy_schema`; and the cases of each error, by their numbers.

use std::alloc::Global;
use std::io;
use std::test::Fail;
use tantivy_schema::schema::document::{de, default_document};
use tv_doc::{AddError, BuildError, DocParsingError};
use tv_schema::{ParseCause, SchemaError, ValueParsingError};
use tv_store::{DeserializeError, SerializeError};
use tv_term::TermError;
use tv_value::{Cause, DateError, FacetParseError, JsonError, OwnedValue, ReadError};

mod of_tv_value {
    pub use tv_value::{
        BinarySerializable, ByteSink, ByteSource, Cause, DATE_TIME_PRECISION_INDEXED, DateError,
        DateTime, DateTimePrecision, FACET_SEP_BYTE, FACET_SEP_CHAR, Facet, FacetParseError,
        FaultSink, FaultSource, Field, IntoIpv6Addr, JsonError, OwnedValue, PreTokenizedStr,
        PreTokenizedString, ReadError, ReadSource, ReferenceValue, ReferenceValueLeaf, SliceSource,
        Token, TokenRef, VInt, Value, VecSink, WriteSink, join_json_path, split_json_path,
    };
}

mod of_tv_schema {
    pub use tv_schema::{
        BytesOptions, COERCE, CoerceFlag, DateOptions, DateTimePrecision, FAST, FacetOptions,
        FastFieldTextOptions, FastFlag, Field, FieldEntry, FieldIter, FieldType, INDEXED,
        IndexRecordOption, IndexedFlag, IpAddrOptions, JsonObjectOptions, NumericOptions,
        ParseCause, STORED, STRING, Schema, SchemaBuilder, SchemaError, SchemaFlagList, StoredFlag,
        TEXT, TextFieldIndexing, TextOptions, TokenizerName, Type, TypeIter, ValueParsingError,
        is_valid_field_name,
    };
}

mod of_tv_term {
    pub use tv_term::{FastValue, OwnedValueBytes, Term, TermError, ValueBytes};
}

mod of_tv_doc {
    pub use tv_doc::{
        AddError, BuildError, BytesKind, CompactDoc, CompactDocArrayIter, CompactDocObjectIter,
        CompactDocValue, DocParsingError, Document, FieldValueIterRef, GetAllIter,
        NamedFieldDocument, TantivyDocument, TreeBuilder, ValueType,
    };
}

mod of_tv_store {
    pub use tv_store::{
        BinaryArrayDeserializer, BinaryArraySerializer, BinaryDocumentDeserializer,
        BinaryDocumentSerializer, BinaryObjectDeserializer, BinaryObjectSerializer,
        BinaryValueDeserializer, BinaryValueSerializer, DeserializeError, DirectDecoder,
        DocStoreVersion, DocumentDeserialize, DocumentDeserializer, MigrateError, SerializeError,
        Step, StoreReader, ValueDeserialize, ValueType, ValueVisitor, migrate, read_document,
        type_codes,
    };
}

mod of_tantivy_schema {
    pub use tantivy_schema::AddError;
    pub use tantivy_schema::BinaryArrayDeserializer;
    pub use tantivy_schema::BinaryArraySerializer;
    pub use tantivy_schema::BinaryDocumentDeserializer;
    pub use tantivy_schema::BinaryDocumentSerializer;
    pub use tantivy_schema::BinaryObjectDeserializer;
    pub use tantivy_schema::BinaryObjectSerializer;
    pub use tantivy_schema::BinarySerializable;
    pub use tantivy_schema::BinaryValueDeserializer;
    pub use tantivy_schema::BinaryValueSerializer;
    pub use tantivy_schema::BuildError;
    pub use tantivy_schema::ByteSink;
    pub use tantivy_schema::ByteSource;
    pub use tantivy_schema::BytesKind;
    pub use tantivy_schema::BytesOptions;
    pub use tantivy_schema::COERCE;
    pub use tantivy_schema::Cause;
    pub use tantivy_schema::CoerceFlag;
    pub use tantivy_schema::CompactDoc;
    pub use tantivy_schema::CompactDocArrayIter;
    pub use tantivy_schema::CompactDocObjectIter;
    pub use tantivy_schema::CompactDocValue;
    pub use tantivy_schema::DATE_TIME_PRECISION_INDEXED;
    pub use tantivy_schema::DateError;
    pub use tantivy_schema::DateOptions;
    pub use tantivy_schema::DateTime;
    pub use tantivy_schema::DateTimePrecision;
    pub use tantivy_schema::DeserializeError;
    pub use tantivy_schema::DirectDecoder;
    pub use tantivy_schema::DocParsingError;
    pub use tantivy_schema::DocStoreVersion;
    pub use tantivy_schema::Document;
    pub use tantivy_schema::DocumentDeserialize;
    pub use tantivy_schema::DocumentDeserializer;
    pub use tantivy_schema::FACET_SEP_BYTE;
    pub use tantivy_schema::FACET_SEP_CHAR;
    pub use tantivy_schema::FAST;
    pub use tantivy_schema::Facet;
    pub use tantivy_schema::FacetOptions;
    pub use tantivy_schema::FacetParseError;
    pub use tantivy_schema::FastFieldTextOptions;
    pub use tantivy_schema::FastFlag;
    pub use tantivy_schema::FastValue;
    pub use tantivy_schema::FaultSink;
    pub use tantivy_schema::FaultSource;
    pub use tantivy_schema::Field;
    pub use tantivy_schema::FieldEntry;
    pub use tantivy_schema::FieldIter;
    pub use tantivy_schema::FieldType;
    pub use tantivy_schema::FieldValueIterRef;
    pub use tantivy_schema::GetAllIter;
    pub use tantivy_schema::INDEXED;
    pub use tantivy_schema::IndexRecordOption;
    pub use tantivy_schema::IndexedFlag;
    pub use tantivy_schema::IntoIpv6Addr;
    pub use tantivy_schema::IpAddrOptions;
    pub use tantivy_schema::JsonError;
    pub use tantivy_schema::JsonObjectOptions;
    pub use tantivy_schema::MigrateError;
    pub use tantivy_schema::NamedFieldDocument;
    pub use tantivy_schema::NumericOptions;
    pub use tantivy_schema::OwnedValue;
    pub use tantivy_schema::OwnedValueBytes;
    pub use tantivy_schema::ParseCause;
    pub use tantivy_schema::PreTokenizedStr;
    pub use tantivy_schema::PreTokenizedString;
    pub use tantivy_schema::ReadError;
    pub use tantivy_schema::ReadSource;
    pub use tantivy_schema::ReferenceValue;
    pub use tantivy_schema::ReferenceValueLeaf;
    pub use tantivy_schema::RunEnd;
    pub use tantivy_schema::STORED;
    pub use tantivy_schema::STRING;
    pub use tantivy_schema::Schema;
    pub use tantivy_schema::SchemaBuilder;
    pub use tantivy_schema::SchemaError;
    pub use tantivy_schema::SchemaFlagList;
    pub use tantivy_schema::SerializeError;
    pub use tantivy_schema::SliceSource;
    pub use tantivy_schema::Step;
    pub use tantivy_schema::StoreReader;
    pub use tantivy_schema::StoredFlag;
    pub use tantivy_schema::TEXT;
    pub use tantivy_schema::TantivyDocument;
    pub use tantivy_schema::Term;
    pub use tantivy_schema::TermError;
    pub use tantivy_schema::TextFieldIndexing;
    pub use tantivy_schema::TextOptions;
    pub use tantivy_schema::Token;
    pub use tantivy_schema::TokenRef;
    pub use tantivy_schema::TokenizerName;
    pub use tantivy_schema::TreeBuilder;
    pub use tantivy_schema::Type;
    pub use tantivy_schema::TypeIter;
    pub use tantivy_schema::VInt;
    pub use tantivy_schema::Value;
    pub use tantivy_schema::ValueBytes;
    pub use tantivy_schema::ValueDeserialize;
    pub use tantivy_schema::ValueParsingError;
    pub use tantivy_schema::ValueVisitor;
    pub use tantivy_schema::VecSink;
    pub use tantivy_schema::WriteSink;
    pub use tantivy_schema::is_valid_field_name;
    pub use tantivy_schema::join_json_path;
    pub use tantivy_schema::migrate;
    pub use tantivy_schema::read_document;
    pub use tantivy_schema::run;
    pub use tantivy_schema::split_json_path;
    pub use tantivy_schema::type_codes;
}

// The number of a cause.
fn cause(cause: Cause) -> u8 {
    match cause {
        Cause::UnexpectedEnd => 1,
        Cause::UnknownTypeCode(_) => 2,
        Cause::UnknownExtCode(_) => 3,
        Cause::FloatCode => 4,
        Cause::BadNumber => 5,
        Cause::BadBool => 6,
        Cause::NotUtf8 => 7,
        Cause::OddObject => 8,
        Cause::DateRange => 9,
        Cause::LegacyJson => 10,
        Cause::LegacyFloat => 11,
        Cause::TooLong => 12,
    }
}

// The number of an error of a read, and that of its cause.
fn read_error(error: ReadError) -> (u8, u8) {
    match error {
        ReadError::Corrupted(found) => (1, cause(found)),
        ReadError::Io(_) => (2, 0),
        ReadError::Memory => (3, 0),
    }
}

fn date_error(error: DateError) -> u8 {
    match error {
        DateError::Shape => 1,
        DateError::Field => 2,
        DateError::OutOfRange => 3,
    }
}

fn facet_error(error: &FacetParseError) -> u8 {
    match error {
        FacetParseError::FacetParseError(_) => 1,
        FacetParseError::Memory => 2,
    }
}

fn json_error(error: JsonError) -> u8 {
    match error {
        JsonError::FloatNumber => 1,
        JsonError::Memory => 2,
    }
}

fn value_error(error: &ValueParsingError) -> u8 {
    match error {
        ValueParsingError::OverflowError {
            expected: _,
            json: _,
        } => 1,
        ValueParsingError::TypeError {
            expected: _,
            json: _,
        } => 2,
        ValueParsingError::ParseError { cause, json: _ } => match cause {
            ParseCause::Ip | ParseCause::Facet | ParseCause::DateOutOfRange => 3,
        },
        ValueParsingError::InvalidBase64 { base64: _ } => 4,
        ValueParsingError::FloatNumber => 5,
        ValueParsingError::Memory => 6,
    }
}

fn schema_error(error: &SchemaError) -> u8 {
    match error {
        SchemaError::InvalidName => 1,
        SchemaError::DuplicateName => 2,
        SchemaError::TooManyFields => 3,
        SchemaError::Memory => 4,
        SchemaError::FieldNotFound => 5,
        SchemaError::BadJson { entry: _ } => 6,
        SchemaError::FloatField { entry: _ } => 7,
    }
}

// What this layer adds stands last.
fn term_error(error: &TermError) -> u8 {
    match error {
        TermError::TooShort => 1,
        TermError::Memory => 2,
        TermError::NulInPath => 3,
    }
}

// 1 would be a field's number that has no room, and each has.
fn add_error(error: AddError) -> u8 {
    match error {
        AddError::HeapFull => 2,
        AddError::Memory => 3,
    }
}

fn parsing_error(error: &DocParsingError) -> u8 {
    match error {
        DocParsingError::InvalidJson(_) => 1,
        DocParsingError::ValueError(_, _) => 2,
        DocParsingError::Add(_) => 3,
        DocParsingError::Memory => 4,
    }
}

// 3 would be a field's number that has no room, and each has.
fn build_error(error: BuildError) -> u8 {
    match error {
        BuildError::AlreadyFailed => 1,
        BuildError::OutOfPlace => 2,
        BuildError::NotUtf8 => 4,
        BuildError::HeapFull => 5,
        BuildError::Memory => 6,
    }
}

// What this layer adds stands last.
fn write_error(error: SerializeError) -> u8 {
    match error {
        SerializeError::Io(_) => 1,
        SerializeError::WrongCount => 2,
        SerializeError::TooMany => 3,
        SerializeError::TooDeep => 4,
        SerializeError::Memory => 5,
    }
}

// What this layer adds stands last.
fn store_error(error: &DeserializeError) -> u8 {
    match error {
        DeserializeError::UnsupportedType(_) => 1,
        DeserializeError::TypeMismatch {
            expected: _,
            actual: _,
        } => 2,
        DeserializeError::CorruptedValue(_) => 3,
        DeserializeError::Custom(_) => 4,
        DeserializeError::UnsupportedVersion(_, _) => 5,
        DeserializeError::HeapFull => 6,
        DeserializeError::Memory => 7,
        DeserializeError::Io(_) => 8,
        DeserializeError::AlreadyFailed => 9,
        DeserializeError::TooDeep => 10,
    }
}

#[test]
fn errors_have_their_numbers(rt: HostRuntime) {
    let kind = io::ErrorKind::Other;
    assert!(rt; read_error(ReadError::Corrupted(Cause::TooLong)) == (1, 12));
    assert!(rt; read_error(ReadError::Io(kind)) == (2, 0));
    assert!(rt; date_error(DateError::OutOfRange) == 3);
    assert!(rt; facet_error(&FacetParseError::Memory) == 2);
    assert!(rt; json_error(JsonError::Memory) == 2);
    assert!(rt; value_error(&ValueParsingError::FloatNumber) == 5);
    assert!(rt; schema_error(&SchemaError::FloatField { entry: 0 }) == 7);
    assert!(rt; term_error(&TermError::Memory) == 2);
    assert!(rt; add_error(AddError::HeapFull) == 2);
    assert!(rt; parsing_error(&DocParsingError::Add(AddError::HeapFull)) == 3);
    assert!(rt; build_error(BuildError::HeapFull) == 5);
    assert!(rt; write_error(SerializeError::TooMany) == 3);
    assert!(rt; store_error(&DeserializeError::AlreadyFailed) == 9);
}

// The name of a type in a heap.
fn heap_type(value_type: default_document::ValueType) -> &'static str {
    match value_type {
        default_document::ValueType::Null => "Null",
        default_document::ValueType::Str => "Str",
        default_document::ValueType::U64 => "U64",
        default_document::ValueType::I64 => "I64",
        default_document::ValueType::Date => "Date",
        default_document::ValueType::Facet => "Facet",
        default_document::ValueType::Bytes => "Bytes",
        default_document::ValueType::IpAddr => "IpAddr",
        default_document::ValueType::Bool => "Bool",
        default_document::ValueType::PreTokStr => "PreTokStr",
        default_document::ValueType::Object => "Object",
        default_document::ValueType::Array => "Array",
    }
}

#[test]
fn types_in_a_heap_have_their_bytes(rt: HostRuntime) {
    let names = [
        "Null",
        "Str",
        "U64",
        "I64",
        "",
        "Date",
        "Facet",
        "Bytes",
        "IpAddr",
        "Bool",
        "PreTokStr",
        "Object",
        "Array",
    ];
    for (code, name) in names.iter().enumerate() {
        let found = default_document::ValueType::from_code(code as u8);
        assert!(rt; found.map_or("", heap_type) == *name);
    }
    assert!(rt; default_document::ValueType::from_code(13).is_none());
    assert!(rt; default_document::ValueType::default() == default_document::ValueType::Null);
}

// The JSON of an array of a number and no value, by the method.
fn printed(alloc: Global) -> Result<String, Fail> {
    let mut items = Vec::new(alloc);
    items.push(OwnedValue::U64(20))?;
    items.push(OwnedValue::Null)?;
    let value = OwnedValue::Array(items);
    let json = value.to_json_value(alloc)?;
    Ok(json.to_string(alloc)?)
}

#[test]
fn owned_values_have_their_json(rt: HostRuntime) -> Result<(), Fail> {
    let text = printed(rt.alloc())?;
    assert!(rt; text.as_str() == "[20,null]");
    assert!(rt; de::ValueType::Null != de::ValueType::Array);
    Ok(())
}
