//! Terms and ranges of texts of queries. The expected bytes are worked out by hand: of a term the field's number with its highest byte first, the
//! letter of the type and the value, of a signed number with its highest bit turned.

use std::alloc::Global;
use std::test::Fail;
use tv_blocks::status::error_answer;
use tv_blocks::{
    Answer, BlockError, QueryRefusal, ValueRefusal, ranges_of_text, read_schema, terms_of_text,
};
use tv_schema::Schema;

const SCHEMA: &[u8] = br#"[{"name":"s","type":"text","options":{}},
{"name":"u","type":"u64","options":{"indexed":true,"stored":true}},
{"name":"f","type":"facet","options":{"stored":true}},
{"name":"y","type":"bytes","options":{"indexed":true,"fast":false,"stored":true}},
{"name":"j","type":"json_object","options":{"stored":true,"fast":false,"indexing":{}}}]"#;

// Where nothing was written.
const KEPT: u8 = 0xa5;

// The term of 258 in field 1, after its length.
const NUMBER: &[u8] = b"\x0d\0\0\0\0\0\0\0\0\0\0\x01u\0\0\0\0\0\0\x01\x02";

// Those of 7 below `j.a.b`: of the text, and of the number.
const BELOW: &[u8] =
    b"\x0b\0\0\0\0\0\0\0\0\0\0\x04ja\x01b\0s7\x12\0\0\0\0\0\0\0\0\0\0\x04ja\x01b\0i\x80\0\0\0\0\0\0\x07";

// From 10 on and below 20 in field 1, after the lengths of both.
const RANGE: &[u8] =
    b"\x0d\0\0\0\0\0\0\0\x0d\0\0\0\0\0\0\0\0\0\0\x01u\0\0\0\0\0\0\0\x0a\0\0\0\x01u\0\0\0\0\0\0\0\x14";

// The same of numbers and of texts below `j.a`.
const RANGES: &[u8] =
    b"\x10\0\0\0\0\0\0\0\x10\0\0\0\0\0\0\0\0\0\0\x04ja\0i\x80\0\0\0\0\0\0\x0a\0\0\0\x04ja\0i\x80\0\0\0\0\0\0\x14\
\x0a\0\0\0\0\0\0\0\x0a\0\0\0\0\0\0\0\0\0\0\x04ja\0s10\0\0\0\x04ja\0s20";

// Paths and texts that have no terms, and why.
const REFUSED: [(&[u8], &[u8], QueryRefusal); 6] = [
    (b"s", b"x", QueryRefusal::NotIndexed { field: 0 }),
    (b"j", b"x", QueryRefusal::PathEnds { field: 4 }),
    (b"j.a\0", b"x", QueryRefusal::NulInPath { field: 4 }),
    (
        b"u",
        b"x",
        QueryRefusal::BadText {
            field: 1,
            refusal: ValueRefusal::WrongType,
        },
    ),
    (
        b"f",
        b"x",
        QueryRefusal::BadText {
            field: 2,
            refusal: ValueRefusal::BadText,
        },
    ),
    (
        b"y",
        b"!",
        QueryRefusal::BadText {
            field: 3,
            refusal: ValueRefusal::BadBase64,
        },
    ),
];

// Whether texts have these terms.
fn have_terms(alloc: Global, schema: &Schema) -> bool {
    let mut terms = [KEPT; 48];
    terms_of_text(alloc, schema, b"u", b"258", &mut terms) == Ok(21)
        && terms.starts_with(NUMBER)
        && terms.ends_with(&[KEPT; 27])
        && terms_of_text(alloc, schema, b"j.a.b", b"7", &mut terms) == Ok(45)
        && terms.starts_with(BELOW)
}

// Whether no term is written where there is too little room for it.
fn is_term_refused(alloc: Global, schema: &Schema) -> bool {
    let mut short = [KEPT; 20];
    let needed = BlockError::TooSmall {
        bytes: 21,
        lines: 0,
    };
    terms_of_text(alloc, schema, b"u", b"258", &mut short) == Err(needed) && short == [KEPT; 20]
}

#[test]
fn texts_have_terms(rt: HostRuntime) -> Result<(), Fail> {
    let alloc = rt.alloc();
    let schema = read_schema(alloc, SCHEMA).expect(&rt, "a schema");
    assert!(rt; have_terms(alloc, &schema) && is_term_refused(alloc, &schema));
    Ok(())
}

// Whether texts bound these ranges.
fn bound_ranges(alloc: Global, schema: &Schema) -> bool {
    let mut ranges = [KEPT; 96];
    ranges_of_text(alloc, schema, b"u", b"[10 TO 20}", &mut ranges) == Ok(42)
        && ranges.starts_with(RANGE)
        && ranges.ends_with(&[KEPT; 54])
        && ranges_of_text(alloc, schema, b"j.a", b"[10 TO 20}", &mut ranges) == Ok(84)
        && ranges.starts_with(RANGES)
}

// Whether no range is written where there is too little room for it.
fn is_range_refused(alloc: Global, schema: &Schema) -> bool {
    let mut short = [KEPT; 41];
    let needed = BlockError::TooSmall {
        bytes: 42,
        lines: 0,
    };
    ranges_of_text(alloc, schema, b"u", b"[10 TO 20}", &mut short) == Err(needed)
        && short == [KEPT; 41]
}

#[test]
fn texts_bound_ranges(rt: HostRuntime) -> Result<(), Fail> {
    let alloc = rt.alloc();
    let schema = read_schema(alloc, SCHEMA).expect(&rt, "a schema");
    assert!(rt; bound_ranges(alloc, &schema) && is_range_refused(alloc, &schema));
    Ok(())
}

// Whether a text has no terms, for this reason.
fn has_no_terms(
    alloc: Global,
    schema: &Schema,
    path: &[u8],
    text: &[u8],
    error: BlockError,
) -> bool {
    let mut none = [KEPT; 64];
    terms_of_text(alloc, schema, path, text, &mut none) == Err(error) && none == [KEPT; 64]
}

// Whether a text bounds no ranges, for this reason.
fn has_no_ranges(
    alloc: Global,
    schema: &Schema,
    path: &[u8],
    text: &[u8],
    error: BlockError,
) -> bool {
    let mut none = [KEPT; 64];
    ranges_of_text(alloc, schema, path, text, &mut none) == Err(error) && none == [KEPT; 64]
}

#[test]
fn texts_are_refused(rt: HostRuntime) -> Result<(), Fail> {
    let alloc = rt.alloc();
    let schema = read_schema(alloc, SCHEMA).expect(&rt, "a schema");
    for (path, text, why) in REFUSED {
        assert!(rt; has_no_terms(alloc, &schema, path, text, BlockError::BadQuery(why)));
    }
    let no_range = BlockError::BadQuery(QueryRefusal::NoRange);
    let backwards = BlockError::BadQuery(QueryRefusal::Backwards { field: 1 });
    assert!(rt;
        has_no_ranges(alloc, &schema, b"none", b"10", no_range)
            && has_no_ranges(alloc, &schema, b"u", b"[20 TO 10]", backwards)
            && has_no_terms(alloc, &schema, b"none", b"10", BlockError::NoField)
            && has_no_ranges(alloc, &schema, b"\xff", b"*", BlockError::NotUtf8)
            && has_no_terms(alloc, &schema, b"none", b"\xff", BlockError::NotUtf8)
    );
    Ok(())
}

#[test]
fn refusals_of_queries_are_numbers(rt: HostRuntime) -> Result<(), Fail> {
    let rows = [
        (QueryRefusal::NotIndexed { field: 7 }, 1, 7),
        (QueryRefusal::PathEnds { field: 7 }, 2, 7),
        (QueryRefusal::NulInPath { field: 7 }, 3, 7),
        (QueryRefusal::NoRange, 4, 0),
        (QueryRefusal::Backwards { field: 7 }, 5, 7),
        (
            QueryRefusal::BadText {
                field: 7,
                refusal: ValueRefusal::FloatNumber,
            },
            16,
            7,
        ),
    ];
    for (why, detail, place) in rows {
        let told = Answer {
            status: 13,
            detail,
            place,
            bytes: 0,
            lines: 0,
        };
        assert!(rt; error_answer(BlockError::BadQuery(why)) == told);
    }
    Ok(())
}
