//! What programs read: the standard input, and files.

use anyhow::Result;
use std::fs;
use std::fs::Files;
use std::io::{BufRead, BufReader, Input};
use tantivy_schema::common::BufferedSource;
use tantivy_schema::schema::document::ParseBuffers;
use tantivy_schema::schema::{Schema, TantivyDocument};
use tantivy_schema::store::{BlockReader, DocStoreVersion};

/// How many documents the lines of the standard input have. The first line that makes none ends it.
pub fn documents_of_input<R: Input + AllocGlobal>(rt: &R, schema: &Schema) -> Result<u64> {
    let alloc = rt.alloc();
    let mut document = TantivyDocument::new(alloc);
    let mut buffers = ParseBuffers::new(alloc);
    let mut count: u64 = 0;
    for line in BufReader::new(alloc, rt.reader())?.lines(alloc) {
        document.parse_json_into(schema, line?.as_str(), &mut buffers)?;
        count = count.saturating_add(1);
    }
    Ok(count)
}

/// How many values the documents of a file have, which is a block.
pub fn values_of_file<R: Files + AllocGlobal>(rt: &R, name: &str) -> Result<usize> {
    let alloc = rt.alloc();
    let mut source = BufferedSource::new(alloc, fs::open(rt, name)?)?;
    let mut reader = BlockReader::new(alloc, DocStoreVersion::V2);
    let mut values: usize = 0;
    for _ in 0..u64::MAX {
        if !reader.advance(&mut source)? {
            break;
        }
        values = values.saturating_add(reader.document().len());
    }
    Ok(values)
}
