//! What is measured: a schema, and documents in each form that a call starts from.

use anyhow::{Context, Result};
use std::alloc::Global;
use tantivy_schema::common::VecSink;
use tantivy_schema::schema::document::{BinaryDocumentSerializer, CompactDoc, OwnedValue};
use tantivy_schema::schema::{Field, Schema};
use tantivy_schema::store::WriteVersion;

/// A pair of a document, with a value of its own.
pub struct Pair {
    pub field: Field,
    pub value: OwnedValue,
}

// Written here, so that a pair is dropped by one call.
impl Drop for Pair {
    fn drop(self) {
        let Pair { field: _, value } = self;
        drop(value);
    }
}

/// A schema, and the documents that it accepts: as JSON, as documents, as lists of pairs, and as stored bytes of
/// version 2 and of version 3; the bytes of version 2 one after the other, as in a block of a store; and the schema's
/// line with a line for each document.
pub struct Workload {
    pub schema: Schema,
    pub lines: Vec<String>,
    pub documents: Vec<CompactDoc>,
    pub pairs: Vec<Vec<Pair>>,
    pub stored: Vec<Vec<u8>>,
    pub stored_v3: Vec<Vec<u8>>,
    pub block: Vec<u8>,
    pub run_input: Vec<u8>,
}

// Written here, so that a workload is dropped by one call.
impl Drop for Workload {
    fn drop(self) {
        let Workload {
            schema: _,
            lines: _,
            documents: _,
            pairs: _,
            stored: _,
            stored_v3: _,
            block: _,
            run_input: _,
        } = self;
    }
}

impl Workload {
    /// The schema of the first line and the documents of the others. A line that is refused is left out.
    ///
    /// Each form is made of all documents before the next one, so that what a call goes over stands in memory one after the
    /// other, as in a block of a document store.
    pub fn of(alloc: Global, lines: Vec<String>) -> Result<Workload> {
        let mut lines = lines.into_iter();
        let first = lines.next().context("a schema on the first line")?;
        let mut workload = Workload::empty(alloc, schema_of(alloc, first.as_str())?);
        for line in lines {
            workload.put_accepted(alloc, line)?;
        }
        workload.fill(alloc)?;
        Ok(workload)
    }

    // A schema without documents.
    fn empty(alloc: Global, schema: Schema) -> Workload {
        Workload {
            schema,
            lines: Vec::new(alloc),
            documents: Vec::new(alloc),
            pairs: Vec::new(alloc),
            stored: Vec::new(alloc),
            stored_v3: Vec::new(alloc),
            block: Vec::new(alloc),
            run_input: Vec::new(alloc),
        }
    }

    // Keeps a line, if it is a document of the schema.
    fn put_accepted(&mut self, alloc: Global, line: String) -> Result<()> {
        let is_accepted = CompactDoc::parse_json(alloc, &self.schema, line.as_str()).is_ok();
        if is_accepted {
            self.lines.push(line)?;
        }
        Ok(())
    }

    // Makes each form of the documents of the lines.
    fn fill(&mut self, alloc: Global) -> Result<()> {
        self.documents = documents_of(alloc, &self.schema, self.lines.as_slice())?;
        for document in &self.documents {
            self.pairs.push(pairs_of(alloc, document)?)?;
        }
        let documents = self.documents.as_slice();
        self.stored = stored_of(alloc, &self.schema, documents, WriteVersion::V2)?;
        self.stored_v3 = stored_of(alloc, &self.schema, documents, WriteVersion::V3)?;
        self.block = block_of(alloc, self.stored.as_slice())?;
        let schema_json = json_of(alloc, &self.schema)?;
        self.run_input = lines_of(alloc, schema_json.as_str(), self.lines.as_slice())?;
        Ok(())
    }

    /// How many bytes of JSON the documents have.
    pub fn json_len(&self) -> usize {
        let mut sum: usize = 0;
        for line in &self.lines {
            sum = sum.saturating_add(line.len());
        }
        sum
    }

    /// How many stored bytes the documents have.
    pub fn stored_len(&self) -> usize {
        let mut sum: usize = 0;
        for bytes in &self.stored {
            sum = sum.saturating_add(bytes.len());
        }
        sum
    }
}

/// The schema of its JSON.
pub fn schema_of(alloc: Global, text: &str) -> Result<Schema> {
    let json = serde_json::Value::from_str(alloc, text)?;
    let schema = Schema::from_json_value(alloc, &json);
    drop(json);
    Ok(schema?)
}

/// The JSON of a schema.
pub fn json_of(alloc: Global, schema: &Schema) -> Result<String> {
    let json = schema.to_json_value()?;
    let text = json.to_string(alloc);
    drop(json);
    Ok(text?)
}

fn documents_of(alloc: Global, schema: &Schema, lines: &[String]) -> Result<Vec<CompactDoc>> {
    let mut documents = Vec::new(alloc);
    for line in lines {
        documents.push(CompactDoc::parse_json(alloc, schema, line.as_str())?)?;
    }
    Ok(documents)
}

fn pairs_of(alloc: Global, document: &CompactDoc) -> Result<Vec<Pair>> {
    let mut pairs = Vec::new(alloc);
    for (field, value) in document.field_values() {
        let value = OwnedValue::from_value(alloc, &value)?;
        pairs.push(Pair { field, value })?;
    }
    Ok(pairs)
}

fn stored_of(
    alloc: Global,
    schema: &Schema,
    documents: &[CompactDoc],
    version: WriteVersion,
) -> Result<Vec<Vec<u8>>> {
    let mut stored = Vec::new(alloc);
    for document in documents {
        stored.push(stored_bytes(alloc, schema, document, version)?)?;
    }
    Ok(stored)
}

fn block_of(alloc: Global, stored: &[Vec<u8>]) -> Result<Vec<u8>> {
    let mut block = Vec::new(alloc);
    for bytes in stored {
        block.extend_from_slice(bytes.as_slice())?;
    }
    Ok(block)
}

fn lines_of(alloc: Global, schema_json: &str, documents: &[String]) -> Result<Vec<u8>> {
    let mut lines = Vec::new(alloc);
    lines.extend_from_slice(schema_json.as_bytes())?;
    for document in documents {
        lines.push(b'\n')?;
        lines.extend_from_slice(document.as_bytes())?;
    }
    Ok(lines)
}

/// The stored bytes of a document whose fields belong to the schema; none of another.
pub fn stored_bytes(
    alloc: Global,
    schema: &Schema,
    document: &CompactDoc,
    version: WriteVersion,
) -> Result<Vec<u8>> {
    let mut sink = VecSink::new(alloc);
    write_stored(&mut sink, schema, document, version)?;
    Ok(sink.into_vec())
}

/// Writes the stored bytes of a document whose fields belong to the schema; nothing of another.
pub fn write_stored(
    sink: &mut VecSink,
    schema: &Schema,
    document: &CompactDoc,
    version: WriteVersion,
) -> Result<()> {
    if document.fits(schema) {
        BinaryDocumentSerializer::with_version(sink, schema, version).serialize_doc(document)?;
    }
    Ok(())
}
