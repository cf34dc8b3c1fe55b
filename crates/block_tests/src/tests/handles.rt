//! Schemas and documents that a handle holds. A handle has to be given up on each way out, so what it answers is compared afterwards.

use std::alloc::Global;
use std::test::Fail;
use tantivy_schema::schema::{Field, TantivyDocument};
use tv_blocks::document_handle::DocumentHandle;
use tv_blocks::schema_handle::SchemaHandle;
use tv_blocks::{BlockError, FoundField, find_field_by, read_schema};

const SCHEMA: &[u8] = br#"[{"name":"s","type":"text","options":{"stored":true}}]"#;

const OTHER: &[u8] = br#"[{"name":"t","type":"text","options":{"stored":true}}]"#;

// What the path names by the handle's schema, if there is one.
fn found(
    alloc: Global,
    handle: &mut SchemaHandle,
    path: &[u8],
) -> Option<Result<FoundField, BlockError>> {
    let memory = handle.take(alloc)?;
    let found = find_field_by(&memory.schema, path);
    handle.keep(alloc, memory);
    Some(found)
}

#[test]
fn a_handle_holds_one_schema_at_a_time(rt: HostRuntime) -> Result<(), Fail> {
    let alloc = rt.alloc();
    let schema = read_schema(alloc, SCHEMA).expect(&rt, "a schema");
    let other = read_schema(alloc, OTHER).expect(&rt, "another schema");
    let mut handle = SchemaHandle::closed();
    let closed = found(alloc, &mut handle, b"s");
    let opened = handle.open(alloc, schema);
    let first = found(alloc, &mut handle, b"s");
    let again = found(alloc, &mut handle, b"s");
    let opened_anew = handle.open(alloc, other);
    let gone = found(alloc, &mut handle, b"s");
    let held = found(alloc, &mut handle, b"t");
    handle.close(alloc);
    handle.close(alloc);
    let left = handle.into_box(alloc);
    let field = Some(Ok(FoundField { field: 0, rest: 1 }));
    assert!(rt; closed == None);
    assert!(rt; (opened, opened_anew) == (Ok(()), Ok(())));
    assert!(rt; (first, again) == (field, field));
    assert!(rt; gone == Some(Err(BlockError::NoField)));
    assert!(rt; held == field);
    assert!(rt; left.is_none());
    Ok(())
}

// How many pairs the handle's document has, if there is one.
fn pairs(alloc: Global, handle: &mut DocumentHandle) -> Option<usize> {
    let document = handle.take(alloc)?;
    let count = document.len();
    handle.keep(alloc, document);
    Some(count)
}

#[test]
fn a_handle_holds_one_document_at_a_time(rt: HostRuntime) -> Result<(), Fail> {
    let alloc = rt.alloc();
    let mut document = TantivyDocument::new(alloc);
    document
        .add_u64(Field::from_field_id(0), 7)
        .expect(&rt, "room");
    let first = Box::new(alloc, document).expect(&rt, "memory");
    let second = Box::new(alloc, TantivyDocument::new(alloc)).expect(&rt, "memory");
    let mut handle = DocumentHandle::closed();
    let closed = pairs(alloc, &mut handle);
    handle.keep(alloc, first);
    let once = pairs(alloc, &mut handle);
    let again = pairs(alloc, &mut handle);
    handle.keep(alloc, second);
    let other = pairs(alloc, &mut handle);
    handle.close(alloc);
    handle.close(alloc);
    let left = handle.into_box(alloc);
    assert!(rt; closed == None);
    assert!(rt; (once, again) == (Some(1), Some(1)));
    assert!(rt; other == Some(0));
    assert!(rt; left.is_none());
    Ok(())
}
