//! Documents that are built anew, part by part.

use anyhow::{Result, anyhow};
use std::alloc::Global;
use tv_doc::builder::{BuildError, BytesKind, TreeBuilder};
use tv_doc::document::CompactDoc;
use tv_heap::value::CompactDocValue;
use tv_value::leaf::ReferenceValueLeaf;
use tv_value::value::{ReferenceValue, Value};

// A part of a value that is still to come.
#[derive(Clone, Copy)]
enum Part<'a> {
    Key(&'a str),
    Value(CompactDocValue<'a>),
}

// More than the parts of any value.
const MOST_PARTS: usize = 2000;

/// More than the bytes of most texts.
pub const MOST_BYTES: usize = 48;

/// The same document, of parts. Its texts are cut once, at this place.
pub fn rebuilt(alloc: Global, document: &CompactDoc, cut: usize) -> Result<CompactDoc> {
    let mut builder = TreeBuilder::new(CompactDoc::with_capacity(alloc, 100)?);
    for (field, value) in document.field_values() {
        build_value(alloc, &mut builder, value, cut)?;
        builder.finish(field)?;
    }
    Ok(builder.into_doc())
}

// Makes the calls for a value.
fn build_value(
    alloc: Global,
    builder: &mut TreeBuilder,
    value: CompactDocValue<'_>,
    cut: usize,
) -> Result<()> {
    let mut parts = Vec::new(alloc);
    parts.push(Part::Value(value))?;
    for _ in 0..MOST_PARTS {
        match parts.pop() {
            None => return Ok(()),
            Some(Part::Key(key)) => build_bytes(builder, BytesKind::Key, key.as_bytes(), cut)?,
            Some(Part::Value(value)) => build_part(alloc, builder, &mut parts, value, cut)?,
        }
    }
    Err(anyhow!("a value has too many parts"))
}

// Makes the call for a leaf or for a list, whose children are still to come.
fn build_part<'a>(
    alloc: Global,
    builder: &mut TreeBuilder,
    parts: &mut Vec<Part<'a>>,
    value: CompactDocValue<'a>,
    cut: usize,
) -> Result<()> {
    let mut children = children(alloc, builder, value, cut)?;
    for _ in 0..MOST_PARTS {
        let Some(child) = children.pop() else {
            return Ok(());
        };
        parts.push(child)?;
    }
    Err(anyhow!("a list has too many children"))
}

// Makes the call for a leaf or for a list, and gives its children.
fn children<'a>(
    alloc: Global,
    builder: &mut TreeBuilder,
    value: CompactDocValue<'a>,
    cut: usize,
) -> Result<Vec<Part<'a>>> {
    let mut children = Vec::new(alloc);
    match value.as_value() {
        ReferenceValue::Leaf(leaf) => build_leaf(builder, leaf, cut)?,
        ReferenceValue::Array(items) => {
            for item in items {
                children.push(Part::Value(item))?;
            }
            builder.open_array(children.len() as u64)?;
        }
        ReferenceValue::Object(members) => {
            for (key, item) in members {
                children.push(Part::Key(key))?;
                children.push(Part::Value(item))?;
            }
            builder.open_object(children.len() as u64 / 2)?;
        }
    }
    Ok(children)
}

// Makes the calls for a leaf.
fn build_leaf(
    builder: &mut TreeBuilder,
    leaf: ReferenceValueLeaf<'_>,
    cut: usize,
) -> Result<(), BuildError> {
    match leaf {
        ReferenceValueLeaf::Str(text) => {
            build_bytes(builder, BytesKind::Str, text.as_bytes(), cut)
        }
        ReferenceValueLeaf::Facet(text) => {
            build_bytes(builder, BytesKind::Facet, text.as_bytes(), cut)
        }
        ReferenceValueLeaf::Bytes(bytes) => build_bytes(builder, BytesKind::Bytes, bytes, cut),
        other => builder.leaf(other),
    }
}

// Makes the calls for bytes in two chunks.
fn build_bytes(
    builder: &mut TreeBuilder,
    kind: BytesKind,
    bytes: &[u8],
    cut: usize,
) -> Result<(), BuildError> {
    builder.begin_bytes(kind, bytes.len() as u64)?;
    let (first, rest) = bytes.split_at(cut.min(bytes.len()));
    builder.chunk(first)?;
    builder.chunk(rest)?;
    builder.end_bytes()
}
