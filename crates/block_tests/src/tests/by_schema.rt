//! Values and terms of a block by a schema. The expected bytes are worked out by hand: of a term the field's number with its highest byte first, the
//! letter of the type and the value, of a signed number with its highest bit turned. A record has of it what it doesn't share with the one before.

use std::alloc::Global;
use std::test::Fail;
use tantivy_schema::common::Cause;
use tv_blocks::status::error_answer;
use tv_blocks::{
    Answer, BlockError, DocumentRefusal, TermsRefusal, read_schema, schema_terms_of_block,
    values_of_block,
};
use tv_schema::Schema;
use tv_store::DocStoreVersion;

const SCHEMA: &[u8] = br#"[{"name":"s","type":"text","options":{"stored":true,"indexing":{}}},
{"name":"u","type":"u64","options":{"indexed":true,"stored":true}},
{"name":"i","type":"i64","options":{"indexed":false,"stored":true}},
{"name":"j","type":"json_object","options":{"stored":true,"fast":false,"indexing":{}}}]"#;

// Where nothing was written.
const KEPT: u8 = 0xa5;

const TWO: DocStoreVersion = DocStoreVersion::V2;

// In version 2: `a` in field 0 and 258 in field 1; nothing; `k` with `v` and `n` with 7 in field 3, and `b` in field 0.
const BLOCK: &[u8] = b"\
\x82\0\0\0\0\0\x81a\x01\0\0\0\x01\x02\x01\0\0\0\0\0\0\
\x80\
\x82\x03\0\0\0\x0d\x84\0\x81k\0\x81v\0\x81n\x01\x07\0\0\0\0\0\0\0\0\0\0\0\0\x81b";

// The values of field 0: the numbers of the documents, 1 for texts, and the lengths.
const TEXTS: &[u8] = b"\
\0\0\0\0\0\0\0\0\x01\0\0\0\0\0\0\0\x01\0\0\0\0\0\0\0a\
\x02\0\0\0\0\0\0\0\x01\0\0\0\0\0\0\0\x01\0\0\0\0\0\0\0b";

// That of field 3, as JSON.
const OBJECT: &[u8] = b"\
\x02\0\0\0\0\0\0\0\x09\0\0\0\0\0\0\0\x0f\0\0\0\0\0\0\0{\"k\":\"v\",\"n\":7}";

// The terms of all fields. Those of fields 0 and 1 share three bytes, those of field 3 five, and the last two three.
const TERMS: &[u8] = b"\
\0\0\0\0\0\0\0\0\0\0\0\0\0\0\0\0\x06\0\0\0\0\0\0\0\0\0\0\0sa\
\0\0\0\0\0\0\0\0\x03\0\0\0\0\0\0\0\x0a\0\0\0\0\0\0\0\x01u\0\0\0\0\0\0\x01\x02\
\x02\0\0\0\0\0\0\0\0\0\0\0\0\0\0\0\x09\0\0\0\0\0\0\0\0\0\0\x03jk\0sv\
\x02\0\0\0\0\0\0\0\x05\0\0\0\0\0\0\0\x0b\0\0\0\0\0\0\0n\0i\x80\0\0\0\0\0\0\x07\
\x02\0\0\0\0\0\0\0\x03\0\0\0\0\0\0\0\x03\0\0\0\0\0\0\0\0sb";

// In version 2: `x` and `y` at `a` and `b` below `p` in field 3; `a` in field 0 and the text `z` in field 1, which is of numbers; `b` in field 0.
const FAULTY: &[u8] = b"\
\x81\x03\0\0\0\x0d\x82\0\x81p\x0d\x84\0\x81a\0\x81x\0\x81b\0\x81y\
\x82\0\0\0\0\0\x81a\x01\0\0\0\0\x81z\
\x81\0\0\0\0\0\x81b";

// Their records: the terms below `p` share seven bytes, document 1 has none for reason 16 in field 1, and the first term of document 2 shares nothing.
const FAULTS: &[u8] = b"\
\0\0\0\0\0\0\0\0\0\0\0\0\0\0\0\0\x0b\0\0\0\0\0\0\0\0\0\0\x03jp\x01a\0sx\
\0\0\0\0\0\0\0\0\x07\0\0\0\0\0\0\0\x04\0\0\0\0\0\0\0b\0sy\
\x01\0\0\0\0\0\0\0\xff\xff\xff\xff\xff\xff\xff\xff\x10\0\0\0\0\0\0\0\x10\0\0\0\0\0\0\0\x01\0\0\0\0\0\0\0\
\x02\0\0\0\0\0\0\0\0\0\0\0\0\0\0\0\x06\0\0\0\0\0\0\0\0\0\0\0sb";

// A document with a value of each kind in field 0, and with `z` in field 1.
const KINDS: &[u8] = b"\
\x8d\
\0\0\0\0\x0b\
\0\0\0\0\0\x81a\
\0\0\0\0\x01\x07\0\0\0\0\0\0\0\
\0\0\0\0\x02\xfe\xff\xff\xff\xff\xff\xff\xff\
\x01\0\0\0\0\x81z\
\0\0\0\0\x09\x01\
\0\0\0\0\x05\xff\xff\xff\xff\xff\xff\xff\xff\
\0\0\0\0\x03\x83a\0b\
\0\0\0\0\x04\x82\0\xff\
\0\0\0\0\x0a\x01\0\0\0\0\0\0\0\0\0\0\0\0\0\0\0\
\0\0\0\0\x07\0\x81x\x80\
\0\0\0\0\x0c\x82\x0b\0\x81y\
\0\0\0\0\x0d\x82\0\x81k\x0b";

// The values of field 0: nothing, `a`, 7, -2, true, a nanosecond before 1970, `/a/b`, bytes, `::1`, a text with tokens, an array, an object.
const EACH_KIND: &[u8] = b"\
\0\0\0\0\0\0\0\0\0\0\0\0\0\0\0\0\0\0\0\0\0\0\0\0\
\0\0\0\0\0\0\0\0\x01\0\0\0\0\0\0\0\x01\0\0\0\0\0\0\0a\
\0\0\0\0\0\0\0\0\x02\0\0\0\0\0\0\0\x08\0\0\0\0\0\0\0\x07\0\0\0\0\0\0\0\
\0\0\0\0\0\0\0\0\x03\0\0\0\0\0\0\0\x08\0\0\0\0\0\0\0\xfe\xff\xff\xff\xff\xff\xff\xff\
\0\0\0\0\0\0\0\0\x04\0\0\0\0\0\0\0\x01\0\0\0\0\0\0\0\x01\
\0\0\0\0\0\0\0\0\x05\0\0\0\0\0\0\0\x08\0\0\0\0\0\0\0\xff\xff\xff\xff\xff\xff\xff\xff\
\0\0\0\0\0\0\0\0\x06\0\0\0\0\0\0\0\x03\0\0\0\0\0\0\0a\0b\
\0\0\0\0\0\0\0\0\x07\0\0\0\0\0\0\0\x02\0\0\0\0\0\0\0\0\xff\
\0\0\0\0\0\0\0\0\x08\0\0\0\0\0\0\0\x10\0\0\0\0\0\0\0\0\0\0\0\0\0\0\0\0\0\0\0\0\0\0\x01\
\0\0\0\0\0\0\0\0\x09\0\0\0\0\0\0\0\x18\0\0\0\0\0\0\0{\"text\":\"x\",\"tokens\":[]}\
\0\0\0\0\0\0\0\0\x09\0\0\0\0\0\0\0\x0a\0\0\0\0\0\0\0[null,\"y\"]\
\0\0\0\0\0\0\0\0\x09\0\0\0\0\0\0\0\x0a\0\0\0\0\0\0\0{\"k\":null}";

// Documents that have no terms, and why: of field 9, of field 1 with a text, and of field 3 with the key U+0000 and with bytes.
const WITHOUT_TERMS: [(&[u8], TermsRefusal); 4] = [
    (b"\x81\x09\0\0\0\0\x81a", TermsRefusal::ForeignField),
    (b"\x81\x01\0\0\0\0\x81a", TermsRefusal::WrongType),
    (
        b"\x81\x03\0\0\0\x0d\x82\0\x81\0\0\x81v",
        TermsRefusal::NulInKey,
    ),
    (b"\x81\x03\0\0\0\x04\x81v", TermsRefusal::NoTerm),
];

// Whether the fields have their values.
fn have_values(alloc: Global, schema: &Schema) -> bool {
    let mut values = [KEPT; 52];
    values_of_block(alloc, schema, b"s", TWO, BLOCK, &mut values) == Ok(50)
        && values.starts_with(TEXTS)
        && values.ends_with(&[KEPT; 2])
        && values_of_block(alloc, schema, b"j", TWO, BLOCK, &mut values) == Ok(39)
        && values.starts_with(OBJECT)
        && values_of_block(alloc, schema, b"i", TWO, BLOCK, &mut values) == Ok(0)
        && values.starts_with(OBJECT)
}

#[test]
fn a_field_has_values(rt: HostRuntime) -> Result<(), Fail> {
    let alloc = rt.alloc();
    let schema = read_schema(alloc, SCHEMA).expect(&rt, "a schema");
    assert!(rt; have_values(alloc, &schema));
    Ok(())
}

// Whether a field has values of each kind where they fit, and none is written where they don't.
fn has_each_kind(alloc: Global, schema: &Schema) -> bool {
    let mut values = [KEPT; 379];
    let mut short = [KEPT; 378];
    let needed = BlockError::TooSmall {
        bytes: 379,
        lines: 0,
    };
    values_of_block(alloc, schema, b"s", TWO, KINDS, &mut values) == Ok(379)
        && values.as_slice() == EACH_KIND
        && values_of_block(alloc, schema, b"s", TWO, KINDS, &mut short) == Err(needed)
        && short == [KEPT; 378]
}

#[test]
fn values_are_of_each_kind(rt: HostRuntime) -> Result<(), Fail> {
    let alloc = rt.alloc();
    let schema = read_schema(alloc, SCHEMA).expect(&rt, "a schema");
    assert!(rt; has_each_kind(alloc, &schema));
    Ok(())
}

// Whether the values of a field are refused for this reason, and none is written.
fn has_no_values(
    alloc: Global,
    schema: &Schema,
    name: &[u8],
    block: &[u8],
    error: BlockError,
) -> bool {
    let mut none = [KEPT; 64];
    values_of_block(alloc, schema, name, TWO, block, &mut none) == Err(error) && none == [KEPT; 64]
}

#[test]
fn values_are_refused(rt: HostRuntime) -> Result<(), Fail> {
    let alloc = rt.alloc();
    let schema = read_schema(alloc, SCHEMA).expect(&rt, "a schema");
    let broken = BlockError::BadDocument {
        start: 22,
        refusal: DocumentRefusal::Corrupted(Cause::UnexpectedEnd),
    };
    assert!(rt;
        has_no_values(alloc, &schema, b"\xff", BLOCK, BlockError::NotUtf8)
            && has_no_values(alloc, &schema, b"", BLOCK, BlockError::NoField)
            && has_no_values(alloc, &schema, b"none", BLOCK, BlockError::NoField)
            && has_no_values(alloc, &schema, b"j.k", BLOCK, BlockError::NoField)
            && has_no_values(alloc, &schema, b"u", &BLOCK[..53], broken)
    );
    Ok(())
}

// Whether documents have these terms where they fit, and none is written where they don't.
fn have_terms(alloc: Global, schema: &Schema, with_faults: bool) -> bool {
    let mut terms = [KEPT; 161];
    let mut short = [KEPT; 158];
    let needed = BlockError::TooSmall {
        bytes: 159,
        lines: 0,
    };
    schema_terms_of_block(alloc, schema, TWO, with_faults, BLOCK, &mut terms) == Ok(159)
        && terms.starts_with(TERMS)
        && terms.ends_with(&[KEPT; 2])
        && schema_terms_of_block(alloc, schema, TWO, with_faults, BLOCK, &mut short) == Err(needed)
        && short == [KEPT; 158]
}

#[test]
fn documents_have_terms_by_a_schema(rt: HostRuntime) -> Result<(), Fail> {
    let alloc = rt.alloc();
    let schema = read_schema(alloc, SCHEMA).expect(&rt, "a schema");
    assert!(rt; have_terms(alloc, &schema, false) && have_terms(alloc, &schema, true));
    Ok(())
}

// Whether no terms of a block are written, for this reason.
fn has_no_terms(
    alloc: Global,
    schema: &Schema,
    with_faults: bool,
    block: &[u8],
    error: BlockError,
) -> bool {
    let mut none = [KEPT; 64];
    schema_terms_of_block(alloc, schema, TWO, with_faults, block, &mut none) == Err(error)
        && none == [KEPT; 64]
}

#[test]
fn documents_have_no_terms(rt: HostRuntime) -> Result<(), Fail> {
    let alloc = rt.alloc();
    let schema = read_schema(alloc, SCHEMA).expect(&rt, "a schema");
    let broken = BlockError::BadDocument {
        start: 22,
        refusal: DocumentRefusal::Corrupted(Cause::UnexpectedEnd),
    };
    assert!(rt;
        has_no_terms(alloc, &schema, false, &BLOCK[..53], broken)
            && has_no_terms(alloc, &schema, true, &BLOCK[..53], broken)
    );
    for (document, refusal) in WITHOUT_TERMS {
        let mut block = Vec::from_slice(alloc, &BLOCK[..22]).expect(&rt, "memory");
        block.extend_from_slice(document).expect(&rt, "memory");
        let error = BlockError::NoTerms { start: 22, refusal };
        assert!(rt; has_no_terms(alloc, &schema, false, block.as_slice(), error));
    }
    Ok(())
}

// Whether a document without terms has a record where faults are wanted, unless a later document can't be read; and whether it is refused where not.
fn has_fault(alloc: Global, schema: &Schema) -> bool {
    let mut terms = [KEPT; 135];
    let refused = BlockError::NoTerms {
        start: 24,
        refusal: TermsRefusal::WrongType,
    };
    let broken = BlockError::BadDocument {
        start: 39,
        refusal: DocumentRefusal::Corrupted(Cause::UnexpectedEnd),
    };
    has_no_terms(alloc, schema, false, FAULTY, refused)
        && has_no_terms(alloc, schema, true, &FAULTY[..46], broken)
        && schema_terms_of_block(alloc, schema, TWO, true, FAULTY, &mut terms) == Ok(133)
        && terms.starts_with(FAULTS)
        && terms.ends_with(&[KEPT; 2])
}

#[test]
fn a_document_without_terms_has_a_record(rt: HostRuntime) -> Result<(), Fail> {
    let alloc = rt.alloc();
    let schema = read_schema(alloc, SCHEMA).expect(&rt, "a schema");
    assert!(rt; has_fault(alloc, &schema));
    Ok(())
}

// The refusal that a record with faults names, and the field.
fn fault_of(alloc: Global, schema: &Schema, document: &[u8]) -> Option<(u8, u8)> {
    let mut terms = [KEPT; 40];
    match schema_terms_of_block(alloc, schema, TWO, true, document, &mut terms) {
        Ok(40) => Some((terms[24], terms[32])),
        _ => None,
    }
}

#[test]
fn records_name_why_a_document_has_no_terms(rt: HostRuntime) -> Result<(), Fail> {
    let alloc = rt.alloc();
    let schema = read_schema(alloc, SCHEMA).expect(&rt, "a schema");
    let faults = [(15, 9), (16, 1), (17, 3), (18, 3)];
    for ((document, _), fault) in WITHOUT_TERMS.into_iter().zip(faults) {
        assert!(rt; fault_of(alloc, &schema, document) == Some(fault));
    }
    Ok(())
}

#[test]
fn refusals_of_terms_are_numbers(rt: HostRuntime) -> Result<(), Fail> {
    let rows = [
        (TermsRefusal::ForeignField, 15),
        (TermsRefusal::WrongType, 16),
        (TermsRefusal::NulInKey, 17),
        (TermsRefusal::NoTerm, 18),
    ];
    for (refusal, detail) in rows {
        let told = Answer {
            status: 8,
            detail,
            place: 7,
            bytes: 0,
            lines: 0,
        };
        assert!(rt; error_answer(BlockError::NoTerms { start: 7, refusal }) == told);
    }
    Ok(())
}
