//! Calls that are given a schema.

use std::alloc::Global;
use std::test::Fail;
use tv_blocks::status::error_answer;
use tv_blocks::{
    BlockError, FoundField, Imported, LineAnswer, export_block_by, find_field_by, import_lines_by,
    print_schema, read_schema,
};
use tv_doc::parse_buffers::ParseBuffers;
use tv_field::SchemaError;
use tv_schema::{Schema, SchemaKey};
use tv_store::DocStoreVersion;

// A schema of a text and a JSON object.
const SCHEMA: &[u8] = br#"[{"name":"s","type":"text","options":{"stored":true}},
{"name":"j","type":"json_object","options":{"stored":true,"fast":false}}]"#;

// A line that is stored, and one that is no JSON object.
const LINES: &[u8] = b"{\"s\":\"a\"}\nnull\n";

// The text `a` in field 0, and a byte that stays as it was.
const BLOCK: &[u8] = b"\x81\0\0\0\0\0\x81a\xa5";

// The same as a line of JSON, and two bytes that stay as they were.
const PRINTED: &[u8] = b"{\"s\":[\"a\"]}\n\xa5\xa5";

// Where nothing was written.
const KEPT: u8 = 0xa5;

const NO_ANSWER: LineAnswer = LineAnswer {
    status: 99,
    field: 99,
    bytes: 99,
};

// The answers of the lines, and one that stays as it was.
const ANSWERS: [LineAnswer; 3] = [
    LineAnswer {
        status: 0,
        field: 0,
        bytes: 8,
    },
    LineAnswer {
        status: 1,
        field: 3,
        bytes: 0,
    },
    NO_ANSWER,
];

// The schema, printed, and two bytes that stay as they were.
const PRINTED_SCHEMA: &[u8] =
    b"[{\"name\":\"s\",\"options\":{\"fast\":false,\"stored\":true},\"type\":\"text\"},\
{\"name\":\"j\",\"options\":{\"expand_dots_enabled\":false,\"fast\":false,\"indexing\":null,\"stored\":true},\"type\":\"json_object\"}]\xa5\xa5";

// Schemas of one entry, the key of it that is at fault, and the number of that key in an answer.
const FAULTS: [(&[u8], SchemaKey, u32); 26] = [
    (br#"[{"type":"text","options":{}}]"#, SchemaKey::Name, 6),
    (
        br#"[{"name":1,"type":"text","options":{}}]"#,
        SchemaKey::Name,
        6,
    ),
    (br#"[{"name":"a","options":{}}]"#, SchemaKey::Type, 7),
    (
        br#"[{"name":"a","type":"f32","options":{}}]"#,
        SchemaKey::Type,
        7,
    ),
    (br#"[{"name":"a","type":"text"}]"#, SchemaKey::Options, 8),
    (
        br#"[{"name":"a","type":"text","options":null}]"#,
        SchemaKey::Options,
        8,
    ),
    (
        br#"[{"name":"a","type":"u64","options":{"stored":true}}]"#,
        SchemaKey::Indexed,
        9,
    ),
    (
        br#"[{"name":"a","type":"date","options":{"indexed":1}}]"#,
        SchemaKey::Indexed,
        9,
    ),
    (
        br#"[{"name":"a","type":"facet","options":{}}]"#,
        SchemaKey::Stored,
        10,
    ),
    (
        br#"[{"name":"a","type":"text","options":{"stored":null}}]"#,
        SchemaKey::Stored,
        10,
    ),
    (
        br#"[{"name":"a","type":"date","options":{"indexed":true,"stored":true}}]"#,
        SchemaKey::Fieldnorms,
        11,
    ),
    (
        br#"[{"name":"a","type":"i64","options":{"indexed":true,"stored":true,"fieldnorms":1}}]"#,
        SchemaKey::Fieldnorms,
        11,
    ),
    (
        br#"[{"name":"a","type":"ip_addr","options":{}}]"#,
        SchemaKey::Fast,
        12,
    ),
    (
        br#"[{"name":"a","type":"bool","options":{"indexed":true,"stored":true,"fast":null}}]"#,
        SchemaKey::Fast,
        12,
    ),
    (
        br#"[{"name":"a","type":"json_object","options":{"stored":true}}]"#,
        SchemaKey::FastOfText,
        13,
    ),
    (
        br#"[{"name":"a","type":"text","options":{"fast":null}}]"#,
        SchemaKey::FastOfText,
        13,
    ),
    (
        br#"[{"name":"a","type":"text","options":{"coerce":null}}]"#,
        SchemaKey::Coerce,
        14,
    ),
    (
        br#"[{"name":"a","type":"u64","options":{"indexed":true,"stored":true,"coerce":0}}]"#,
        SchemaKey::Coerce,
        14,
    ),
    (
        br#"[{"name":"a","type":"date","options":{"indexed":true,"fieldnorms":true,"stored":true,"precision":"days"}}]"#,
        SchemaKey::Precision,
        15,
    ),
    (
        br#"[{"name":"a","type":"text","options":{"indexing":true}}]"#,
        SchemaKey::Indexing,
        16,
    ),
    (
        br#"[{"name":"a","type":"text","options":{"indexing":{"record":"all"}}}]"#,
        SchemaKey::Record,
        17,
    ),
    (
        br#"[{"name":"a","type":"text","options":{"indexing":{"record":null}}}]"#,
        SchemaKey::Record,
        17,
    ),
    (
        br#"[{"name":"a","type":"text","options":{"indexing":{"fieldnorms":null}}}]"#,
        SchemaKey::IndexingFieldnorms,
        18,
    ),
    (
        br#"[{"name":"a","type":"json_object","options":{"stored":true,"fast":true,"indexing":{"tokenizer":1}}}]"#,
        SchemaKey::Tokenizer,
        19,
    ),
    (
        br#"[{"name":"a","type":"text","options":{"fast":{}}}]"#,
        SchemaKey::WithTokenizer,
        20,
    ),
    (
        br#"[{"name":"a","type":"json_object","options":{"stored":true,"fast":true,"expand_dots_enabled":null}}]"#,
        SchemaKey::ExpandDots,
        21,
    ),
];

// The error of a schema that is refused.
fn refusal(alloc: Global, text: &[u8]) -> Option<BlockError> {
    match read_schema(alloc, text) {
        Ok(_) => None,
        Err(error) => Some(error),
    }
}

// What lines are imported as by a schema, into this block and these answers.
fn imported(
    alloc: Global,
    schema: &Schema,
    block: &mut [u8],
    answers: &mut [LineAnswer],
) -> Result<Imported, BlockError> {
    import_lines_by(
        alloc,
        schema,
        &mut ParseBuffers::new(alloc),
        LINES,
        block,
        answers,
    )
}

// How long the text of the block is by a schema, which is written here.
fn printed(alloc: Global, schema: &Schema, lines: &mut [u8]) -> Result<u64, BlockError> {
    let two = DocStoreVersion::V2;
    export_block_by(alloc, schema, two, b"\x81\0\0\0\0\0\x81a", lines)
}

// Whether lines are imported by a schema, and printed again.
fn are_lines_served(alloc: Global, schema: &Schema) -> bool {
    let mut block = [KEPT; 9];
    let mut answers = [NO_ANSWER; 3];
    let mut lines = [KEPT; 14];
    imported(alloc, schema, &mut block, &mut answers) == Ok(Imported { bytes: 8, lines: 2 })
        && block.as_slice() == BLOCK
        && &answers == &ANSWERS
        && printed(alloc, schema, &mut lines) == Ok(12)
        && lines.as_slice() == PRINTED
}

// Whether paths are found by a schema, and what names none is refused.
fn are_paths_found(schema: &Schema) -> bool {
    find_field_by(schema, b"j.a.b") == Ok(FoundField { field: 1, rest: 2 })
        && find_field_by(schema, b"none") == Err(BlockError::NoField)
        && find_field_by(schema, b"\xff") == Err(BlockError::NotUtf8)
}

#[test]
fn a_schema_serves_many_calls(rt: HostRuntime) -> Result<(), Fail> {
    let alloc = rt.alloc();
    let schema = read_schema(alloc, SCHEMA).expect(&rt, "a schema");
    assert!(rt; are_lines_served(alloc, &schema) && are_paths_found(&schema));
    Ok(())
}

// Whether the size is returned where a block is too small, and nothing is written of the lines.
fn is_import_short(alloc: Global, schema: &Schema) -> bool {
    let mut block = [KEPT; 7];
    let mut answers = [NO_ANSWER; 3];
    let needed = BlockError::TooSmall { bytes: 8, lines: 2 };
    imported(alloc, schema, &mut block, &mut answers) == Err(needed)
        && block == [KEPT; 7]
        && answers == [NO_ANSWER; 3]
}

// Whether the length of the text is returned where a buffer is too small, and nothing is written of it.
fn is_print_short(alloc: Global, schema: &Schema) -> bool {
    let mut lines = [KEPT; 11];
    let needed = BlockError::TooSmall {
        bytes: 12,
        lines: 0,
    };
    printed(alloc, schema, &mut lines) == Err(needed) && lines == [KEPT; 11]
}

#[test]
fn nothing_is_written_where_a_buffer_is_too_small(rt: HostRuntime) -> Result<(), Fail> {
    let alloc = rt.alloc();
    let schema = read_schema(alloc, SCHEMA).expect(&rt, "a schema");
    assert!(rt; is_import_short(alloc, &schema) && is_print_short(alloc, &schema));
    Ok(())
}

#[test]
fn texts_that_describe_no_schema_are_refused(rt: HostRuntime) -> Result<(), Fail> {
    let alloc = rt.alloc();
    let cut = read_schema(alloc, b"[");
    assert!(rt; matches!(cut, Err(BlockError::InvalidJson)));
    let object = read_schema(alloc, b"{}");
    let whole = SchemaError::BadJson { entry: None };
    assert!(rt; matches!(object, Err(BlockError::BadSchema(error)) if error == whole));
    Ok(())
}

// Whether a schema is refused for this key of its first entry, with this number in the answer.
fn is_key_named(alloc: Global, text: &[u8], key: SchemaKey, detail: u32) -> bool {
    let fault = BlockError::BadSchemaKey { entry: 0, key };
    refusal(alloc, text) == Some(fault) && error_answer(fault).detail == detail
}

#[test]
fn a_key_at_fault_is_named(rt: HostRuntime) -> Result<(), Fail> {
    let alloc = rt.alloc();
    for (text, key, number) in &FAULTS {
        assert!(rt; is_key_named(alloc, text, *key, *number));
    }
    let later = br#"[{"name":"a","type":"facet","options":{"stored":true}},{"name":"a"}]"#;
    let second = BlockError::BadSchemaKey {
        entry: 1,
        key: SchemaKey::Type,
    };
    assert!(rt; refusal(alloc, later) == Some(second) && error_answer(second).place == 2);
    Ok(())
}

#[test]
fn no_key_is_named_where_none_is_at_fault(rt: HostRuntime) -> Result<(), Fail> {
    let alloc = rt.alloc();
    let entry = SchemaError::BadJson { entry: Some(0) };
    assert!(rt; refusal(alloc, b"[null]") == Some(BlockError::BadSchema(entry)));
    let float = br#"[{"name":"a","type":"f64"}]"#;
    let unread = SchemaError::FloatField { entry: 0 };
    assert!(rt; refusal(alloc, float) == Some(BlockError::BadSchema(unread)));
    let twice = br#"[{"name":"a","type":"facet","options":{"stored":true}},
{"name":"a","type":"facet","options":{"stored":true}},{}]"#;
    let double = BlockError::BadSchemaEntry {
        entry: 1,
        error: SchemaError::DuplicateName,
    };
    assert!(rt; refusal(alloc, twice) == Some(double));
    assert!(rt; error_answer(double).place == 2);
    assert!(rt; error_answer(double).detail == 2);
    let hyphen = br#"[{"name":"-a","type":"facet","options":{"stored":true}}]"#;
    let name = BlockError::BadSchemaEntry {
        entry: 0,
        error: SchemaError::InvalidName,
    };
    assert!(rt; refusal(alloc, hyphen) == Some(name));
    assert!(rt; error_answer(name).place == 1);
    Ok(())
}

// Whether the schema is printed where it fits, and nothing where it doesn't.
fn prints_schema(alloc: Global, schema: &Schema) -> bool {
    let mut text = [KEPT; 186];
    let mut short = [KEPT; 183];
    let longer = BlockError::TooSmall {
        bytes: 184,
        lines: 0,
    };
    print_schema(alloc, schema, &mut text) == Ok(184)
        && text.as_slice() == PRINTED_SCHEMA
        && print_schema(alloc, schema, &mut short) == Err(longer)
        && short == [KEPT; 183]
}

#[test]
fn a_schema_is_printed(rt: HostRuntime) -> Result<(), Fail> {
    let alloc = rt.alloc();
    let schema = read_schema(alloc, SCHEMA).expect(&rt, "a schema");
    assert!(rt; prints_schema(alloc, &schema));
    Ok(())
}
