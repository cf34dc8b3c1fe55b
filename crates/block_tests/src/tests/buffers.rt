//! Calls over blocks that write into buffers of a caller's: what is written, what is needed, and what stays.

use std::alloc::Global;
use std::test::Fail;
use tantivy_schema::common::Cause;
use tantivy_schema::schema::{JsonExpected, JsonFault, JsonFaultKind};
use tv_blocks::status::{error_answer, import_answer, written_answer, wrong_version};
use tv_blocks::{
    Answer, BlockError, DocumentRefusal, FoundField, Imported, LineAnswer, LineRefusal,
    ValueRefusal, export_block, facet_of_text, find_field, import_lines, migrate_block,
    text_of_facet, text_of_term,
};
use tv_format::WriteVersion;
use tv_store::DocStoreVersion;

// A schema with a field of each type that a line's answer is about.
const SCHEMA: &[u8] = br#"[{"name":"s","type":"text","options":{"stored":true}},
{"name":"u","type":"u64","options":{"indexed":false,"stored":true}},
{"name":"f","type":"facet","options":{"stored":true}},
{"name":"y","type":"bytes","options":{"indexed":false,"fast":false,"stored":true}},
{"name":"j","type":"json_object","options":{"stored":true,"fast":false}}]"#;

// A stored line, the refusals of a line in their order, and a line that is stored in version 3 otherwise than in version 2.
const LINES: &[u8] = b"{\"s\":\"a\"}
null
{\"u\":-1}
{\"u\":\"x\"}
{\"f\":\"x\"}
{\"y\":\"!\"}
{\"j\":{\"a\":0.5}}
{\"j\":{\"a\":\"b\"}}";

// What is stored: the text `a` in field 0, and the object of `a` with `b` in field 4.
const BLOCK: &[u8] = b"\x81\0\0\0\0\0\x81a\x81\x04\0\0\0\x0d\x82\0\x81a\0\x81b";

// The same in version 3.
const LATER: &[u8] = b"\x81\0\0\0\0\0\x81a\x81\x04\0\0\0\x0d\x81\x81a\0\x81b";

// Both as lines of JSON, and two bytes that stay as they were.
const PRINTED: &[u8] = b"{\"s\":[\"a\"]}\n{\"j\":[{\"a\":\"b\"}]}\n\xa5\xa5";

// The statuses of the lines, and how many bytes each stores.
const STATUSES: [u32; 8] = [0, 1, 2, 3, 4, 5, 6, 0];

const SIZES: [u64; 8] = [8, 0, 0, 0, 0, 0, 0, 13];

// Where nothing was written.
const KEPT: u8 = 0xa5;

// The fields whose values are refused, and of the line that is JSON and no object the number of that.
const FIELDS: [u32; 8] = [0, 3, 1, 1, 2, 3, 4, 0];

const NO_ANSWER: LineAnswer = LineAnswer {
    status: 99,
    field: 99,
    bytes: 99,
};

// Whether the answers are those of the lines, and the last one stays as it was.
fn are_answered(answers: &[LineAnswer; 9]) -> bool {
    for place in 0..8 {
        let line = LineAnswer {
            status: STATUSES[place],
            field: FIELDS[place],
            bytes: SIZES[place],
        };
        if answers[place] != line {
            return false;
        }
    }
    answers[8] == NO_ANSWER
}

#[test]
fn lines_are_imported(rt: HostRuntime) -> Result<(), Fail> {
    let mut block = [KEPT; 24];
    let mut answers = [NO_ANSWER; 9];
    let imported = import_lines(rt.alloc(), SCHEMA, LINES, &mut block, &mut answers);
    let count = Imported {
        bytes: 21,
        lines: 8,
    };
    assert!(rt; imported == Ok(count) && are_answered(&answers));
    assert!(rt; block.starts_with(BLOCK) && block.ends_with(&[KEPT; 3]));
    Ok(())
}

// Whether nothing is imported into a block of one byte too few.
fn is_block_short(alloc: Global, needed: BlockError) -> bool {
    let mut block = [KEPT; 20];
    let mut answers = [NO_ANSWER; 8];
    import_lines(alloc, SCHEMA, LINES, &mut block, &mut answers) == Err(needed)
        && block == [KEPT; 20]
        && answers == [NO_ANSWER; 8]
}

// Whether nothing is imported with one answer too few.
fn are_answers_short(alloc: Global, needed: BlockError) -> bool {
    let mut block = [KEPT; 21];
    let mut answers = [NO_ANSWER; 8];
    import_lines(alloc, SCHEMA, LINES, &mut block, &mut answers[..7]) == Err(needed)
        && block == [KEPT; 21]
        && answers == [NO_ANSWER; 8]
}

#[test]
fn nothing_is_imported_where_a_buffer_is_too_small(rt: HostRuntime) -> Result<(), Fail> {
    let alloc = rt.alloc();
    let needed = BlockError::TooSmall {
        bytes: 21,
        lines: 8,
    };
    assert!(rt; is_block_short(alloc, needed) && are_answers_short(alloc, needed));
    let none = import_lines(alloc, b"{", LINES, &mut [KEPT; 21], &mut [NO_ANSWER; 8]);
    assert!(rt; none == Err(BlockError::InvalidJson));
    Ok(())
}

// Whether a block of this version is printed.
fn is_printed(alloc: Global, version: DocStoreVersion, block: &[u8]) -> bool {
    let mut lines = [KEPT; 32];
    export_block(alloc, SCHEMA, version, block, &mut lines) == Ok(30) && lines.as_slice() == PRINTED
}

// Whether nothing is printed where there is too little room, or where the block is cut off.
fn is_not_printed(alloc: Global, version: DocStoreVersion) -> bool {
    let mut short = [KEPT; 29];
    let needed = BlockError::TooSmall {
        bytes: 30,
        lines: 0,
    };
    let broken = BlockError::BadDocument {
        start: 8,
        refusal: DocumentRefusal::Corrupted(Cause::UnexpectedEnd),
    };
    export_block(alloc, SCHEMA, version, BLOCK, &mut short) == Err(needed)
        && short == [KEPT; 29]
        && export_block(alloc, SCHEMA, version, &BLOCK[..20], &mut short) == Err(broken)
}

#[test]
fn a_block_is_printed(rt: HostRuntime) -> Result<(), Fail> {
    let alloc = rt.alloc();
    let (two, three) = (DocStoreVersion::V2, DocStoreVersion::V3);
    assert!(rt; is_printed(alloc, two, BLOCK) && is_printed(alloc, three, LATER));
    assert!(rt; is_not_printed(alloc, two));
    Ok(())
}

// Whether a block is carried over to version 3 and back.
fn is_carried_over(alloc: Global, block: &mut [u8; 21]) -> bool {
    let (two, three) = (DocStoreVersion::V2, DocStoreVersion::V3);
    migrate_block(alloc, two, BLOCK, WriteVersion::V3, block) == Ok(20)
        && &block[..20] == LATER
        && migrate_block(alloc, three, LATER, WriteVersion::V2, block) == Ok(21)
        && block.as_slice() == BLOCK
}

#[test]
fn a_block_is_carried_over(rt: HostRuntime) -> Result<(), Fail> {
    let mut block = [KEPT; 21];
    assert!(rt; is_carried_over(rt.alloc(), &mut block));
    let key = migrate_block(
        rt.alloc(),
        DocStoreVersion::V2,
        b"\x80\x81\0\0\0\0\x0d\x82\x0b",
        WriteVersion::V2,
        &mut block,
    );
    let broken = BlockError::BadDocument {
        start: 1,
        refusal: DocumentRefusal::KeyIsNoText,
    };
    assert!(rt; key == Err(broken) && block.as_slice() == BLOCK);
    Ok(())
}

// Whether paths name these fields, or none.
fn are_fields_found(alloc: Global) -> bool {
    find_field(alloc, SCHEMA, b"j.a.b") == Ok(FoundField { field: 4, rest: 2 })
        && find_field(alloc, SCHEMA, b"u") == Ok(FoundField { field: 1, rest: 1 })
        && find_field(alloc, SCHEMA, b"none") == Err(BlockError::NoField)
        && find_field(alloc, SCHEMA, b"\xff") == Err(BlockError::NotUtf8)
}

#[test]
fn a_path_names_a_field(rt: HostRuntime) -> Result<(), Fail> {
    assert!(rt; are_fields_found(rt.alloc()));
    Ok(())
}

// Whether a facet is encoded and printed, and what is none is refused.
fn are_facets_told(alloc: Global) -> bool {
    let mut bytes = [KEPT; 8];
    facet_of_text(alloc, b"/a/b\\/c", &mut bytes) == Ok(5)
        && &bytes == b"a\0b/c\xa5\xa5\xa5"
        && text_of_facet(alloc, b"a\0b/c", &mut bytes) == Ok(7)
        && &bytes == b"/a/b\\/c\xa5"
        && facet_of_text(alloc, b"a", &mut bytes) == Err(BlockError::NotFacet)
        && text_of_facet(alloc, b"\xff", &mut bytes) == Err(BlockError::NotUtf8)
}

#[test]
fn facets_are_encoded_and_printed(rt: HostRuntime) -> Result<(), Fail> {
    assert!(rt; are_facets_told(rt.alloc()));
    Ok(())
}

// A term of the number 258.
const NUMBER: &[u8] = b"\0\0\0\x01u\0\0\0\0\0\0\x01\x02";

// Whether terms have their texts.
fn have_texts(alloc: Global, bytes: &mut [u8; 8]) -> bool {
    text_of_term(alloc, NUMBER, bytes) == Ok(3)
        && *bytes == *b"258\xa5\xa5\xa5\xa5\xa5"
        && text_of_term(alloc, b"\0\0\0\x04ja\x01b\0sx", bytes) == Ok(1)
        && *bytes == *b"x58\xa5\xa5\xa5\xa5\xa5"
}

// Whether no text is written where there is too little room, or of what is no term.
fn have_no_texts(alloc: Global, bytes: &mut [u8; 8]) -> bool {
    let short = BlockError::TooSmall { bytes: 3, lines: 0 };
    text_of_term(alloc, NUMBER, &mut bytes[..2]) == Err(short)
        && text_of_term(alloc, b"\0\0\0\0s\xff", bytes) == Err(BlockError::NotTerm)
        && text_of_term(alloc, b"", bytes) == Err(BlockError::NotTerm)
        && *bytes == *b"x58\xa5\xa5\xa5\xa5\xa5"
}

#[test]
fn terms_have_texts(rt: HostRuntime) -> Result<(), Fail> {
    let mut bytes = [KEPT; 8];
    assert!(rt; have_texts(rt.alloc(), &mut bytes) && have_no_texts(rt.alloc(), &mut bytes));
    assert!(rt; error_answer(BlockError::NotTerm).status == 17);
    Ok(())
}

#[test]
fn answers_are_numbers(rt: HostRuntime) -> Result<(), Fail> {
    let nothing = Answer {
        status: 0,
        detail: 0,
        place: 0,
        bytes: 0,
        lines: 0,
    };
    assert!(rt;
        written_answer(Ok(7))
            == Answer {
                bytes: 7,
                ..nothing
            }
    );
    let both = Imported { bytes: 7, lines: 2 };
    assert!(rt;
        import_answer(Ok(both))
            == Answer {
                bytes: 7,
                lines: 2,
                ..nothing
            }
    );
    let broken = BlockError::BadDocument {
        start: 3,
        refusal: DocumentRefusal::HeapFull,
    };
    let told = error_answer(broken);
    assert!(rt;
        told == Answer {
            status: 8,
            detail: 13,
            place: 3,
            ..nothing
        }
    );
    assert!(rt;
        wrong_version()
            == Answer {
                status: 9,
                ..nothing
            }
    );
    let refused = BlockError::BadLine(LineRefusal::BadValue {
        field: 4,
        refusal: ValueRefusal::FloatNumber,
    });
    assert!(rt;
        error_answer(refused)
            == Answer {
                status: 11,
                detail: 6,
                place: 4,
                ..nothing
            }
    );
    let no_colon = BlockError::BadLine(LineRefusal::InvalidJson(JsonFault {
        offset: 5,
        kind: JsonFaultKind::EndsEarly(JsonExpected::Colon),
    }));
    assert!(rt;
        error_answer(no_colon)
            == Answer {
                status: 11,
                detail: 1,
                place: 8,
                bytes: 5,
                ..nothing
            }
    );
    assert!(rt;
        error_answer(BlockError::ForeignField { field: 5 })
            == Answer {
                status: 12,
                place: 5,
                ..nothing
            }
    );
    Ok(())
}
