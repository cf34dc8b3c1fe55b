//! Documents that are printed by the names of their fields.

use std::alloc::Global;
use std::test::Fail;
use tv_doc::document::CompactDoc;
use tv_doc::document_trait::Document;
use tv_options::STORED;
use tv_schema::Schema;
use tv_value::field::Field;

// A schema of fields of numbers with these names.
fn schema_of(alloc: Global, names: &[&str]) -> Option<Schema> {
    let mut builder = Schema::builder(alloc);
    for name in names {
        builder.add_u64_field(name, STORED).ok()?;
    }
    builder.build().ok()
}

// The JSON of a document, where `push_json` adds the same to a text.
fn json_of(alloc: Global, document: &CompactDoc, schema: &Schema) -> Option<String> {
    let json = document.to_json(alloc, schema).ok()?;
    let mut text = String::from_str(alloc, "> ").ok()?;
    document.push_json(alloc, schema, &mut text).ok()?;
    if text.as_str().strip_prefix("> ") == Some(json.as_str()) {
        Some(json)
    } else {
        None
    }
}

// The JSON of a document with 0, 1, 2 and so on as the values of these fields, by a schema of these names.
fn printed(alloc: Global, names: &[&str], fields: &[u32]) -> Option<String> {
    let schema = schema_of(alloc, names)?;
    let mut document = CompactDoc::new(alloc);
    for (number, field) in fields.iter().enumerate() {
        document
            .add_u64(Field::from_field_id(*field), number as u64)
            .ok()?;
    }
    json_of(alloc, &document, &schema)
}

// Whether that JSON is this text.
fn prints(alloc: Global, names: &[&str], fields: &[u32], text: &str) -> bool {
    match printed(alloc, names, fields) {
        Some(json) => json.as_str() == text,
        None => false,
    }
}

#[test]
fn names_that_rise_are_printed_as_they_stand(rt: HostRuntime) -> Result<(), Fail> {
    let alloc = rt.alloc();
    assert!(rt; prints(alloc, &["a", "b"], &[], "{}"));
    assert!(rt; prints(alloc, &["a", "b"], &[0, 1], r#"{"a":[0],"b":[1]}"#));
    assert!(rt; prints(alloc, &["b", "a"], &[1, 0], r#"{"a":[0],"b":[1]}"#));
    assert!(rt; prints(alloc, &["a", "ab"], &[0, 0, 1], r#"{"a":[0,1],"ab":[2]}"#));
    Ok(())
}

#[test]
fn names_in_no_order_are_sorted(rt: HostRuntime) -> Result<(), Fail> {
    let alloc = rt.alloc();
    assert!(rt; prints(alloc, &["b", "a"], &[0, 1], r#"{"a":[1],"b":[0]}"#));
    assert!(rt; prints(alloc, &["a", "b"], &[0, 1, 0], r#"{"a":[0,2],"b":[1]}"#));
    assert!(rt;
        prints(
            alloc,
            &["b", "a"],
            &[1, 0, 1, 0],
            r#"{"a":[0,2],"b":[1,3]}"#
        )
    );
    Ok(())
}

#[test]
fn fields_without_a_name_are_left_out(rt: HostRuntime) -> Result<(), Fail> {
    let alloc = rt.alloc();
    assert!(rt; prints(alloc, &["a"], &[7], "{}"));
    assert!(rt; prints(alloc, &["a"], &[0, 7], r#"{"a":[0]}"#));
    assert!(rt; prints(alloc, &["b", "a"], &[1, 7, 0], r#"{"a":[0],"b":[2]}"#));
    Ok(())
}
