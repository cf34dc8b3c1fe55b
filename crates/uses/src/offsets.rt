//! A store of documents, with the place where each begins.

use crate::store::append;
use anyhow::{Result, anyhow};
use std::alloc::Global;
use tantivy_schema::common::{SliceSource, VecSink};
use tantivy_schema::schema::{Schema, TantivyDocument};
use tantivy_schema::store::{DocStoreVersion, read_document};

/// Documents one after the other, and where each begins.
#[derive(Drop)]
pub struct Store {
    block: Vec<u8>,
    starts: Vec<usize>,
}

impl Store {
    /// The store of these documents.
    pub fn new(alloc: Global, schema: &Schema, documents: &[TantivyDocument]) -> Result<Store> {
        let mut sink = VecSink::new(alloc);
        let mut starts = Vec::new(alloc);
        for document in documents {
            starts.push(sink.as_slice().len())?;
            append(&mut sink, schema, document)?;
        }
        Ok(Store {
            block: sink.into_vec(),
            starts,
        })
    }

    /// The document of this number, counted from 0, if there is one.
    pub fn get(&self, alloc: Global, number: usize) -> Result<Option<TantivyDocument>> {
        let Some(start) = self.starts.get(number) else {
            return Ok(None);
        };
        let Some(bytes) = self.block.get(*start..) else {
            return Err(anyhow!("a document begins after the block"));
        };
        let mut source = SliceSource::new(bytes);
        Ok(Some(read_document(alloc, &mut source, DocStoreVersion::V2)?))
    }
}
