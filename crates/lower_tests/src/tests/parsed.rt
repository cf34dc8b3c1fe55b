//! Documents that are made of JSON in place of one that is there.

use serde_json::Value;
use std::alloc::{AllocError, Global};
use std::test::Fail;
use tv_doc::document::CompactDoc;
use tv_doc::errors::DocParsingError;
use tv_doc::json_object::text_fault;
use tv_doc::parse_buffers::ParseBuffers;
use tv_field::{SchemaError, ValueParsingError};
use tv_json::json_expected::JsonExpected;
use tv_json::json_fault::JsonFaultKind;
use tv_options::STORED;
use tv_schema::Schema;

// A field of numbers and one of JSON objects.
fn schema(alloc: Global) -> Result<Schema, SchemaError> {
    let mut builder = Schema::builder(alloc);
    builder.add_u64_field("u", STORED)?;
    builder.add_json_field("j", STORED)?;
    Ok(builder.build()?)
}

// Documents of three, of no, and of two pairs. In the last a float stands under a name that no field has.
const TEXTS: [&str; 3] = [
    "{\"u\": [1, 2], \"j\": {\"a\": \"x\\ty\"}}",
    "{}",
    "{\"u\": 3, \"j\": {\"b\": [true, -7]}, \"none\": [0.5, 1e300]}",
];

// Whether a document is the one that is made of the text anew, byte by byte in its heap too.
fn is_made_anew(
    alloc: Global,
    schema: &Schema,
    text: &str,
    document: &CompactDoc,
) -> Result<bool, Fail> {
    let fresh = CompactDoc::parse_json(alloc, schema, text)?;
    Ok(
        document.len() == fresh.len()
            && document.node_data() == fresh.node_data()
            && document.same_as(&fresh)?,
    )
}

#[test]
fn documents_are_parsed_in_place(rt: HostRuntime) -> Result<(), Fail> {
    let alloc = rt.alloc();
    let schema = schema(alloc)?;
    let mut document = CompactDoc::new(alloc);
    let mut buffers = ParseBuffers::new(alloc);
    let mut pairs = 0;
    for text in TEXTS {
        document.parse_json_into(&schema, text, &mut buffers)?;
        assert!(rt; is_made_anew(alloc, &schema, text, &document)?);
        pairs = document.len().max(pairs);
    }
    assert!(rt; pairs == 3 && document.len() == 2);
    Ok(())
}

#[test]
fn an_object_that_was_read_makes_the_same_document(rt: HostRuntime) -> Result<(), Fail> {
    let alloc = rt.alloc();
    let schema = schema(alloc)?;
    for text in TEXTS {
        let Ok(Value::Object(object)) = Value::from_str(alloc, text) else {
            panic!(rt; "no object");
        };
        let document = CompactDoc::from_json_object(alloc, &schema, object)?;
        assert!(rt; is_made_anew(alloc, &schema, text, &document)?);
    }
    Ok(())
}

#[test]
fn a_document_has_no_pairs_after_a_refusal(rt: HostRuntime) -> Result<(), Fail> {
    let alloc = rt.alloc();
    let schema = schema(alloc)?;
    let mut document = CompactDoc::new(alloc);
    let mut buffers = ParseBuffers::new(alloc);
    document.parse_json_into(&schema, TEXTS[0], &mut buffers)?;
    let float = "{\"a\": 1, \"j\": {\"b\": [0.5]}, \"u\": 3}";
    let refused = document.parse_json_into(&schema, float, &mut buffers);
    let is_float = matches!(
        refused,
        Err(DocParsingError::ValueError(_, ValueParsingError::FloatNumber))
    );
    assert!(rt; is_float && document.is_empty() && document.node_data().is_empty());
    document.parse_json_into(&schema, TEXTS[2], &mut buffers)?;
    assert!(rt; document.len() == 2);
    Ok(())
}

// Where and why a text is refused, if it is no JSON object.
fn refused_at(alloc: Global, text: &str) -> Result<Option<(usize, JsonFaultKind)>, AllocError> {
    Ok(text_fault(alloc, text)?.map(|fault| (fault.offset, fault.kind)))
}

#[test]
fn a_place_counts_the_lines_before_it(rt: HostRuntime) -> Result<(), Fail> {
    let alloc = rt.alloc();
    let value = JsonFaultKind::Unexpected(JsonExpected::Value);
    assert!(rt; refused_at(alloc, "{\n\n\"u\": x}")? == Some((8, value)));
    let member = JsonFaultKind::EndsEarly(JsonExpected::CommaOrObjectEnd);
    assert!(rt; refused_at(alloc, "{\n\"u\": 1\n")? == Some((9, member)));
    Ok(())
}

#[test]
fn a_text_is_an_object_or_there_is_a_fault(rt: HostRuntime) -> Result<(), Fail> {
    let alloc = rt.alloc();
    assert!(rt; refused_at(alloc, "[true]")? == Some((0, JsonFaultKind::NoObject)));
    let mut nested = String::from_str(alloc, "{\"j\":")?;
    for _ in 0..127 {
        nested.push('[')?;
    }
    assert!(rt; refused_at(alloc, nested.as_str())? == Some((131, JsonFaultKind::TooDeep)));
    for text in TEXTS {
        assert!(rt; refused_at(alloc, text)?.is_none());
    }
    Ok(())
}
