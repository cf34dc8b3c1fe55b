//! One document at a time: of a line, of bytes, printed, and written.

use std::alloc::Global;
use std::test::Fail;
use tantivy_schema::common::Cause;
use tantivy_schema::schema::{Field, JsonExpected, JsonFault, JsonFaultKind, TantivyDocument};
use tv_blocks::{
    BlockError, DocumentRefusal, LineRefusal, ValueRefusal, parse_line, print_document,
    read_first_document, read_schema, write_document,
};
use tv_doc::parse_buffers::ParseBuffers;
use tv_format::WriteVersion;
use tv_schema::Schema;
use tv_store::DocStoreVersion;

// A schema of a text and a JSON object.
const SCHEMA: &[u8] = br#"[{"name":"s","type":"text","options":{"stored":true}},
{"name":"j","type":"json_object","options":{"stored":true,"fast":false}}]"#;

const LINE: &[u8] = br#"{"s":"a","j":{"a":"b"}}"#;

// Its document in version 2, the pairs in the order of the keys, and the same in version 3.
const STORED: &[u8] = b"\x82\x01\0\0\0\x0d\x82\0\x81a\0\x81b\0\0\0\0\0\x81a";

const LATER: &[u8] = b"\x82\x01\0\0\0\x0d\x81\x81a\0\x81b\0\0\0\0\0\x81a";

// The same as JSON, and two bytes that stay as they were.
const PRINTED: &[u8] = b"{\"j\":[{\"a\":\"b\"}],\"s\":[\"a\"]}\xa5\xa5";

// Where nothing was written.
const KEPT: u8 = 0xa5;

// What is said of a line that is parsed into this document.
fn parsed(
    alloc: Global,
    schema: &Schema,
    line: &[u8],
    document: &mut TantivyDocument,
) -> Result<(), BlockError> {
    parse_line(schema, line, document, &mut ParseBuffers::new(alloc))
}

// What is said of a line.
fn refused(alloc: Global, schema: &Schema, line: &[u8]) -> Result<(), BlockError> {
    parsed(alloc, schema, line, &mut TantivyDocument::new(alloc))
}

// Whether a document is printed and written so in both versions.
fn is_written(alloc: Global, schema: &Schema, document: &TantivyDocument) -> bool {
    let mut text = [KEPT; 29];
    let mut bytes = [KEPT; 20];
    let mut later = [KEPT; 19];
    print_document(alloc, schema, document, &mut text) == Ok(27)
        && text.as_slice() == PRINTED
        && write_document(alloc, schema, WriteVersion::V2, document, &mut bytes) == Ok(20)
        && bytes.as_slice() == STORED
        && write_document(alloc, schema, WriteVersion::V3, document, &mut later) == Ok(19)
        && later.as_slice() == LATER
}

#[test]
fn a_line_is_parsed_printed_and_written(rt: HostRuntime) -> Result<(), Fail> {
    let alloc = rt.alloc();
    let schema = read_schema(alloc, SCHEMA).expect(&rt, "a schema");
    let mut document = TantivyDocument::new(alloc);
    assert!(rt; parsed(alloc, &schema, LINE, &mut document) == Ok(()));
    assert!(rt; is_written(alloc, &schema, &document));
    Ok(())
}

// Whether nothing of a document is printed or written where there is too little room.
fn is_too_long(alloc: Global, schema: &Schema, document: &TantivyDocument) -> bool {
    let mut text = [KEPT; 26];
    let longer = BlockError::TooSmall {
        bytes: 27,
        lines: 0,
    };
    let mut bytes = [KEPT; 19];
    let needed = BlockError::TooSmall {
        bytes: 20,
        lines: 0,
    };
    print_document(alloc, schema, document, &mut text) == Err(longer)
        && text == [KEPT; 26]
        && write_document(alloc, schema, WriteVersion::V2, document, &mut bytes) == Err(needed)
        && bytes == [KEPT; 19]
}

#[test]
fn nothing_is_written_where_a_buffer_is_too_small(rt: HostRuntime) -> Result<(), Fail> {
    let alloc = rt.alloc();
    let schema = read_schema(alloc, SCHEMA).expect(&rt, "a schema");
    let mut document = TantivyDocument::new(alloc);
    assert!(rt; parsed(alloc, &schema, LINE, &mut document) == Ok(()));
    assert!(rt; is_too_long(alloc, &schema, &document));
    Ok(())
}

// Whether a document is read of bytes of version 3, and printed.
fn is_first_printed(alloc: Global, schema: &Schema, document: &mut TantivyDocument) -> bool {
    let mut text = [KEPT; 29];
    read_first_document(alloc, DocStoreVersion::V3, LATER, document) == Ok(19)
        && print_document(alloc, schema, document, &mut text) == Ok(27)
        && text.as_slice() == PRINTED
}

// Whether documents are read one after the other in place of one, and none is left after bytes that are refused.
fn are_read_in_place(alloc: Global, document: &mut TantivyDocument) -> bool {
    let two = DocStoreVersion::V2;
    let broken = BlockError::BadDocument {
        start: 0,
        refusal: DocumentRefusal::Corrupted(Cause::UnexpectedEnd),
    };
    let no_text = BlockError::BadDocument {
        start: 0,
        refusal: DocumentRefusal::KeyIsNoText,
    };
    read_first_document(alloc, two, b"\x80\x81", document) == Ok(1)
        && document.len() == 0
        && read_first_document(alloc, two, STORED, document) == Ok(20)
        && document.len() == 2
        && read_first_document(alloc, two, &STORED[..19], document) == Err(broken)
        && document.len() == 0
        && read_first_document(alloc, two, b"\x81\0\0\0\0\x0d\x82\x0b", document) == Err(no_text)
}

#[test]
fn bytes_begin_with_a_document(rt: HostRuntime) -> Result<(), Fail> {
    let alloc = rt.alloc();
    let schema = read_schema(alloc, SCHEMA).expect(&rt, "a schema");
    let mut document = TantivyDocument::new(alloc);
    assert!(rt; is_first_printed(alloc, &schema, &mut document));
    assert!(rt; are_read_in_place(alloc, &mut document));
    Ok(())
}

#[test]
fn a_refused_line_is_told_with_its_field(rt: HostRuntime) -> Result<(), Fail> {
    let alloc = rt.alloc();
    let schema = read_schema(alloc, SCHEMA).expect(&rt, "a schema");
    let no_text = Err(BlockError::BadLine(LineRefusal::NotUtf8));
    assert!(rt; refused(alloc, &schema, b"\xff") == no_text);
    let no_object = JsonFault {
        offset: 0,
        kind: JsonFaultKind::NoObject,
    };
    let none = Err(BlockError::BadLine(LineRefusal::InvalidJson(no_object)));
    assert!(rt; refused(alloc, &schema, b"null") == none);
    let no_colon = JsonFault {
        offset: 5,
        kind: JsonFaultKind::Unexpected(JsonExpected::Colon),
    };
    let odd = Err(BlockError::BadLine(LineRefusal::InvalidJson(no_colon)));
    assert!(rt; refused(alloc, &schema, b"{\"s\" 7}") == odd);
    let kind = Err(BlockError::BadLine(LineRefusal::BadValue {
        field: 0,
        refusal: ValueRefusal::WrongType,
    }));
    assert!(rt; refused(alloc, &schema, b"{\"s\":7,\"other\":7}") == kind);
    let float = Err(BlockError::BadLine(LineRefusal::BadValue {
        field: 1,
        refusal: ValueRefusal::FloatNumber,
    }));
    let line = b"{\"s\":7,\"j\":[{},{\"a\":0.5}]}";
    assert!(rt; refused(alloc, &schema, line) == float);
    Ok(())
}

#[test]
fn a_field_that_the_schema_lacks_is_refused(rt: HostRuntime) -> Result<(), Fail> {
    let alloc = rt.alloc();
    let schema = read_schema(alloc, SCHEMA).expect(&rt, "a schema");
    let mut document = TantivyDocument::new(alloc);
    document
        .add_u64(Field::from_field_id(1), 7)
        .expect(&rt, "room");
    document
        .add_u64(Field::from_field_id(3), 7)
        .expect(&rt, "room");
    document
        .add_u64(Field::from_field_id(2), 7)
        .expect(&rt, "room");
    let mut bytes = [KEPT; 8];
    let written = write_document(alloc, &schema, WriteVersion::V2, &document, &mut bytes);
    assert!(rt; written == Err(BlockError::ForeignField { field: 3 }));
    assert!(rt; bytes == [KEPT; 8]);
    Ok(())
}
