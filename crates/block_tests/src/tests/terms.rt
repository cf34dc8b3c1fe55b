//! Terms of the values of a block's documents, and the ends of prefixes. The expected bytes are worked out by hand: of a term the field's number
//! with its highest byte first, the letter of the type and the value.

use std::alloc::Global;
use std::test::Fail;
use tv_blocks::{BlockError, LineAnswer, end_of_prefix, import_lines, terms_of_block};
use tv_reader::DocStoreVersion;

const SCHEMA: &[u8] = br#"[{"name":"u","type":"u64","options":{"indexed":true,"stored":true}}]"#;

const LINES: &[u8] = b"{\"u\":[258,1]}\n{}\n{\"u\":3}\n";

// Where nothing was written.
const KEPT: u8 = 0xa5;

// The terms of 258 and 1 of document 0, and of 3 of document 2: the document, the length of the term, and the term.
const TERMS: &[u8] = b"\0\0\0\0\0\0\0\0\x0d\0\0\0\0\0\0\0\0\0\0\0u\0\0\0\0\0\0\x01\x02\
\0\0\0\0\0\0\0\0\x0d\0\0\0\0\0\0\0\0\0\0\0u\0\0\0\0\0\0\0\x01\
\x02\0\0\0\0\0\0\0\x0d\0\0\0\0\0\0\0\0\0\0\0u\0\0\0\0\0\0\0\x03";

#[test]
fn terms_of_a_block_are_written(rt: HostRuntime) -> Result<(), Fail> {
    let alloc = rt.alloc();
    let mut block = [KEPT; 256];
    let none = LineAnswer {
        status: 0,
        field: 0,
        bytes: 0,
    };
    let imported = import_lines(alloc, SCHEMA, LINES, &mut block, &mut [none; 3]).expect(
        &rt, "a block",
    );
    let block = &block[..imported.bytes as usize];
    let mut terms = [KEPT; 100];
    let written = terms_of_block(alloc, 0, DocStoreVersion::V2, block, &mut terms);
    assert!(rt; written == Ok(87) && terms.starts_with(TERMS) && terms.ends_with(&[KEPT; 13]));
    let mut short = [KEPT; 86];
    let refused = terms_of_block(alloc, 0, DocStoreVersion::V2, block, &mut short);
    assert!(rt;
        refused
            == Err(BlockError::TooSmall {
                bytes: 87,
                lines: 0
            })
            && short == [KEPT; 86]
    );
    Ok(())
}

// Whether this is written as the end of the prefix.
fn has_end(alloc: Global, prefix: &[u8], expected: &[u8]) -> bool {
    let mut end = [KEPT; 4];
    match end_of_prefix(alloc, prefix, &mut end) {
        Ok(len) => end.starts_with(expected) && len == expected.len() as u64,
        Err(_) => false,
    }
}

#[test]
fn prefixes_have_ends(rt: HostRuntime) -> Result<(), Fail> {
    let alloc = rt.alloc();
    assert!(rt; has_end(alloc, b"ab", b"ac") && has_end(alloc, b"a\xff\xff", b"b"));
    let mut end = [KEPT; 4];
    assert!(rt;
        end_of_prefix(alloc, b"\xff\xff", &mut end) == Err(BlockError::NoEnd) && end == [KEPT; 4]
    );
    assert!(rt; end_of_prefix(alloc, b"", &mut end) == Err(BlockError::NoEnd));
    Ok(())
}
