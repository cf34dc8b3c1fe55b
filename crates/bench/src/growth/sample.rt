//! Documents of many values, members or levels, as JSON or as stored bytes.

use crate::growth::shape::Shape;
use crate::workload::{json_of, stored_bytes};
use anyhow::Result;
use std::alloc::Global;
use tantivy_schema::common::SliceSource;
use tantivy_schema::schema::document::CompactDoc;
use tantivy_schema::schema::{INDEXED, STORED, Schema, TEXT};
use tantivy_schema::store::{DocStoreVersion, WriteVersion, read_document};

/// A schema, and a document of it.
pub struct Sample {
    pub schema: Schema,
    // The schema's JSON, and the document's; the latter is empty where the document nests deeper than JSON is read.
    pub schema_json: String,
    pub json: String,
    pub document: CompactDoc,
    pub stored: Vec<u8>,
    // A path into a field of JSON objects.
    pub path: String,
    // The schema's line, and a line for each document; of other shapes no lines.
    pub lines: Vec<u8>,
    // The stored bytes of documents one after the other; of other shapes none.
    pub block: Vec<u8>,
    // How many there are of what the document or the call has many of.
    pub count: u32,
}

// Written here, so that a sample is dropped by one call.
impl Drop for Sample {
    fn drop(self) {
        let Sample {
            schema: _,
            schema_json: _,
            json: _,
            document: _,
            stored: _,
            path: _,
            lines: _,
            block: _,
            count: _,
        } = self;
    }
}

impl Sample {
    /// A document of this shape and size.
    pub fn new(alloc: Global, shape: Shape, count: u32) -> Result<Sample> {
        let mut sample = Sample::empty(alloc, schema_of(alloc, shape, count)?, count);
        sample.put_document(alloc, shape)?;
        sample.put_inputs(alloc, shape)?;
        Ok(sample)
    }

    // A schema, and a document without values.
    fn empty(alloc: Global, schema: Schema, count: u32) -> Sample {
        Sample {
            schema,
            schema_json: String::new(alloc),
            json: String::new(alloc),
            document: CompactDoc::new(alloc),
            stored: Vec::new(alloc),
            path: String::new(alloc),
            lines: Vec::new(alloc),
            block: Vec::new(alloc),
            count,
        }
    }

    // Makes the document of this shape, with its JSON, if it is made of JSON, and its stored bytes.
    fn put_document(&mut self, alloc: Global, shape: Shape) -> Result<()> {
        if matches!(shape, Shape::Levels) {
            push_levels(&mut self.stored, self.count)?;
            let mut source = SliceSource::new(self.stored.as_slice());
            self.document = read_document(alloc, &mut source, DocStoreVersion::V2)?;
        } else {
            push_json(&mut self.json, shape, self.count)?;
            self.document = CompactDoc::parse_json(alloc, &self.schema, self.json.as_str())?;
            self.stored = stored_bytes(alloc, &self.schema, &self.document, WriteVersion::V2)?;
        }
        Ok(())
    }

    // Makes what the calls start from that take no document.
    fn put_inputs(&mut self, alloc: Global, shape: Shape) -> Result<()> {
        self.schema_json = json_of(alloc, &self.schema)?;
        self.path = path_of(alloc, shape, self.count)?;
        self.lines = lines_of(alloc, self.schema_json.as_str(), shape, self.count)?;
        self.block = block_of(alloc, shape, self.count)?;
        Ok(())
    }
}

// The fields of a shape: many, or one for values and one for objects.
fn schema_of(alloc: Global, shape: Shape, count: u32) -> Result<Schema> {
    let mut builder = Schema::builder(alloc);
    if matches!(shape, Shape::Fields) {
        for number in 0..count {
            let name = format!(in alloc; "field{number}")?;
            let _field = builder.add_text_field(name.as_str(), TEXT | STORED)?;
        }
    } else {
        let _numbers = builder.add_u64_field("numbers", INDEXED | STORED)?;
        let _tree = builder.add_json_field("tree", TEXT | STORED)?;
    }
    Ok(builder.build()?)
}

// One pair of field 1: arrays within arrays, with a null inside, as version 2 stores them.
fn push_levels(stored: &mut Vec<u8>, count: u32) -> Result<()> {
    for byte in [129, 1, 0, 0, 0] {
        stored.push(byte)?;
    }
    for _ in 0..count {
        stored.push(12)?;
        stored.push(129)?;
    }
    stored.push(11)?;
    Ok(())
}

// A path of this many steps; of other shapes of none.
fn path_of(alloc: Global, shape: Shape, count: u32) -> Result<String> {
    let mut path = String::from_str(alloc, "tree")?;
    if matches!(shape, Shape::Steps) {
        for _ in 0..count {
            path.push_str(".a")?;
        }
    }
    Ok(path)
}

// The lines of that shape, one with a number for each document.
fn lines_of(alloc: Global, schema_json: &str, shape: Shape, count: u32) -> Result<Vec<u8>> {
    let mut lines = Vec::new(alloc);
    if matches!(shape, Shape::Lines) {
        lines.extend_from_slice(schema_json.as_bytes())?;
        for _ in 0..count {
            lines.extend_from_slice(b"\n{\"numbers\":[7]}")?;
        }
    }
    Ok(lines)
}

// The stored bytes of that shape, as version 2 has them: documents with a number in field 0 each.
fn block_of(alloc: Global, shape: Shape, count: u32) -> Result<Vec<u8>> {
    let mut block = Vec::new(alloc);
    if matches!(shape, Shape::Documents) {
        for _ in 0..count {
            block.extend_from_slice(&[129, 0, 0, 0, 0, 1, 7, 0, 0, 0, 0, 0, 0, 0])?;
        }
    }
    Ok(block)
}

// The JSON of a document.
fn push_json(json: &mut String, shape: Shape, count: u32) -> Result<()> {
    if shape.is_of_calls() {
        return Ok(json.push_str("{}")?);
    }
    let (start, end) = match shape {
        Shape::Values => ("{\"numbers\":[", "]}"),
        Shape::Items => ("{\"tree\":{\"items\":[", "]}}"),
        Shape::Text => ("{\"tree\":{\"text\":\"", "\"}}"),
        Shape::Fields => ("{", "}"),
        Shape::Keyed => ("{\"tree\":{\"", "]}}"),
        _ => ("{\"tree\":{", "}}"),
    };
    json.push_str(start)?;
    if matches!(shape, Shape::Keyed) {
        push_key(json, count)?;
    }
    for number in 0..count {
        if number > 0 && !matches!(shape, Shape::Text) {
            json.push_str(",")?;
        }
        push_part(json, shape, count, number)?;
    }
    json.push_str(end)?;
    Ok(())
}

// The rest of a key of this many letters, and the beginning of the array below it.
fn push_key(json: &mut String, count: u32) -> Result<()> {
    for _ in 0..count {
        json.push_str("k")?;
    }
    Ok(json.push_str("\":[")?)
}

// One of the many.
fn push_part(json: &mut String, shape: Shape, count: u32, number: u32) -> Result<()> {
    match shape {
        Shape::Text => json.push_str("x")?,
        Shape::Fields => write!(json, "\"field{number}\":\"text\"")?,
        Shape::Rising => write!(json, "\"{number:08}\":{number}")?,
        Shape::Falling => write!(json, "\"{:08}\":{number}", count.saturating_sub(number))?,
        Shape::Equal => write!(json, "\"key\":{number}")?,
        Shape::Mixed => write!(json, "\"{:08}\":{number}", mixed(number, count))?,
        _ => write!(json, "{number}")?,
    }
    Ok(())
}

// A number below half the count, in no order: most come twice.
fn mixed(number: u32, count: u32) -> u64 {
    u64::from(number) * 2_654_435_761 % u64::from((count / 2).max(1))
}
