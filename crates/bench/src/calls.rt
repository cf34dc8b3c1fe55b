//! The calls that are measured.

use crate::workload::{Pair, Workload, write_stored};
use anyhow::{Result, anyhow};
use std::alloc::Global;
use tantivy_schema::common::{SliceSource, VecSink};
use tantivy_schema::schema::document::{AddError, CompactDoc, Document, ParseBuffers};
use tantivy_schema::schema::{Field, TermList, term_values};
use tantivy_schema::store::{
    BlockReader, DocStoreVersion, WriteVersion, migrate, read_document, read_document_into,
    read_fields_into, skip_document,
};
use tantivy_schema::{RunEnd, run};

/// A call that is made for each document.
#[derive(Clone, Copy)]
pub enum Call {
    /// From JSON to a document.
    ParseJson,
    /// From JSON to a document, each in the memory of the one before.
    ParseJsonInto,
    /// From a document to stored bytes.
    Serialize,
    /// From stored bytes to a document.
    Deserialize,
    /// From stored bytes to a document, each in the memory of the one before.
    DeserializeInto,
    /// From a document to its JSON.
    ToJson,
    /// From values to a document.
    Add,
    /// From a document to stored bytes of version 3.
    SerializeV3,
    /// From stored bytes of version 3 to a document.
    DeserializeV3,
    /// From stored bytes of version 2 to those of version 3.
    Migrate,
    /// From a block to documents, each in the memory of the one before.
    ReadBlock,
    /// The values of the schema's first field out of the documents of a block, each document in the memory of the one before.
    ReadFields,
    /// The documents of a block, passed over.
    SkipDocument,
    /// From lines of JSON to answers.
    Run,
    /// From documents to the terms of their values in one buffer, which is used again.
    TermValues,
}

/// What a round did: how often the call was made, how often it was refused, and how many bytes the answers
/// have, so that no answer goes unused.
#[derive(Clone, Copy)]
pub struct Round {
    pub calls: u32,
    pub left_out: u32,
    pub bytes: usize,
}

impl Round {
    pub fn new() -> Round {
        Round {
            calls: 0,
            left_out: 0,
            bytes: 0,
        }
    }

    pub fn made(&mut self, bytes: usize) {
        self.calls = self.calls.saturating_add(1);
        self.bytes = self.bytes.saturating_add(bytes);
    }

    pub fn left_out(&mut self) {
        self.left_out = self.left_out.saturating_add(1);
    }
}

impl Call {
    /// The calls, each after the name under which it is printed.
    pub const NAMED: [(&'static str, Call); 15] = [
        ("parse_json", Call::ParseJson),
        ("parse_json_into", Call::ParseJsonInto),
        ("serialize", Call::Serialize),
        ("deserialize", Call::Deserialize),
        ("deserialize_into", Call::DeserializeInto),
        ("to_json", Call::ToJson),
        ("add", Call::Add),
        ("serialize_v3", Call::SerializeV3),
        ("deserialize_v3", Call::DeserializeV3),
        ("migrate", Call::Migrate),
        ("read_block", Call::ReadBlock),
        ("read_fields", Call::ReadFields),
        ("skip_document", Call::SkipDocument),
        ("run", Call::Run),
        ("term_values", Call::TermValues),
    ];

    /// Makes the call for each document.
    pub fn for_each(self, alloc: Global, workload: &Workload) -> Result<Round> {
        match self {
            Call::ParseJson => parse_each(alloc, workload),
            Call::ParseJsonInto => parse_each_into(alloc, workload),
            Call::Serialize => serialize_each(alloc, workload, WriteVersion::V2),
            Call::Deserialize => deserialize_each(alloc, &workload.stored, DocStoreVersion::V2),
            Call::DeserializeInto => deserialize_each_into(alloc, &workload.stored),
            Call::ToJson => print_each(alloc, workload),
            Call::Add => add_each(alloc, workload),
            Call::SerializeV3 => serialize_each(alloc, workload, WriteVersion::V3),
            Call::DeserializeV3 => deserialize_each(
                alloc,
                &workload.stored_v3,
                DocStoreVersion::V3,
            ),
            Call::Migrate => migrate_each(alloc, workload),
            Call::ReadBlock => read_block_each(alloc, workload),
            Call::ReadFields => read_fields_each(alloc, workload),
            Call::SkipDocument => skip_each(alloc, workload),
            Call::Run => run_lines(alloc, workload),
            Call::TermValues => list_terms(alloc, workload),
        }
    }
}

fn parse_each(alloc: Global, workload: &Workload) -> Result<Round> {
    let mut round = Round::new();
    for line in &workload.lines {
        if let Ok(document) = CompactDoc::parse_json(alloc, &workload.schema, line.as_str()) {
            round.made(document.node_data().len());
        }
    }
    Ok(round)
}

// All documents are read into one, one after the other: its memory is used again.
fn parse_each_into(alloc: Global, workload: &Workload) -> Result<Round> {
    let mut round = Round::new();
    let mut document = CompactDoc::new(alloc);
    let mut buffers = ParseBuffers::new(alloc);
    for line in &workload.lines {
        let read = document.parse_json_into(&workload.schema, line.as_str(), &mut buffers);
        if read.is_ok() {
            round.made(document.node_data().len());
        }
    }
    Ok(round)
}

// All documents are written into one sink, one after the other: its memory is used again.
fn serialize_each(alloc: Global, workload: &Workload, version: WriteVersion) -> Result<Round> {
    let mut round = Round::new();
    let mut sink = VecSink::new(alloc);
    for document in &workload.documents {
        sink.clear();
        write_stored(&mut sink, &workload.schema, document, version)?;
        round.made(sink.as_slice().len());
    }
    Ok(round)
}

fn deserialize_each(alloc: Global, stored: &[Vec<u8>], version: DocStoreVersion) -> Result<Round> {
    let mut round = Round::new();
    for bytes in stored {
        let mut source = SliceSource::new(bytes.as_slice());
        match read_document(alloc, &mut source, version) {
            Ok(document) => round.made(document.node_data().len()),
            Err(_) => round.left_out(),
        }
    }
    Ok(round)
}

// All documents are read into one, one after the other: its memory is used again.
fn deserialize_each_into(alloc: Global, stored: &[Vec<u8>]) -> Result<Round> {
    let mut round = Round::new();
    let mut document = CompactDoc::new(alloc);
    for bytes in stored {
        let mut source = SliceSource::new(bytes.as_slice());
        match read_document_into(alloc, &mut document, &mut source, DocStoreVersion::V2) {
            Ok(()) => round.made(document.node_data().len()),
            Err(_) => round.left_out(),
        }
    }
    Ok(round)
}

fn print_each(alloc: Global, workload: &Workload) -> Result<Round> {
    let mut round = Round::new();
    for document in &workload.documents {
        round.made(document.to_json(alloc, &workload.schema)?.len());
    }
    Ok(round)
}

fn add_each(alloc: Global, workload: &Workload) -> Result<Round> {
    let mut round = Round::new();
    for pairs in &workload.pairs {
        round.made(document_of(alloc, pairs.as_slice())?.node_data().len());
    }
    Ok(round)
}

#[inline(never)]
fn document_of(alloc: Global, pairs: &[Pair]) -> Result<CompactDoc, AddError> {
    let mut document = CompactDoc::new(alloc);
    for pair in pairs {
        document.add_field_value(pair.field, &&pair.value)?;
    }
    Ok(document)
}

fn migrate_each(alloc: Global, workload: &Workload) -> Result<Round> {
    let mut round = Round::new();
    let mut sink = VecSink::new(alloc);
    for bytes in &workload.stored {
        sink.clear();
        let mut source = SliceSource::new(bytes.as_slice());
        let (from, to) = (DocStoreVersion::V2, WriteVersion::V3);
        match migrate(alloc, &mut source, from, &mut sink, to) {
            Ok(()) => round.made(sink.as_slice().len()),
            Err(_) => round.left_out(),
        }
    }
    Ok(round)
}

fn read_block_each(alloc: Global, workload: &Workload) -> Result<Round> {
    let mut round = Round::new();
    let mut source = SliceSource::new(workload.block.as_slice());
    let mut reader = BlockReader::new(alloc, DocStoreVersion::V2);
    for _ in &workload.lines {
        if reader.advance(&mut source)? {
            round.made(reader.document().node_data().len());
        }
    }
    Ok(round)
}

fn read_fields_each(alloc: Global, workload: &Workload) -> Result<Round> {
    let mut round = Round::new();
    let mut source = SliceSource::new(workload.block.as_slice());
    let mut document = CompactDoc::new(alloc);
    let (version, fields) = (DocStoreVersion::V2, [Field::from_field_id(0)]);
    for _ in &workload.lines {
        match read_fields_into(alloc, &mut document, &mut source, version, &fields) {
            Ok(()) => round.made(document.node_data().len()),
            Err(_) => round.left_out(),
        }
    }
    Ok(round)
}

// An answer has no bytes.
fn skip_each(alloc: Global, workload: &Workload) -> Result<Round> {
    let mut round = Round::new();
    let mut source = SliceSource::new(workload.block.as_slice());
    for _ in &workload.lines {
        match skip_document(alloc, &mut source, DocStoreVersion::V2) {
            Ok(()) => round.made(0),
            Err(_) => round.left_out(),
        }
    }
    Ok(round)
}

fn run_lines(alloc: Global, workload: &Workload) -> Result<Round> {
    let mut round = Round::new();
    let bytes = answers_len(alloc, workload.run_input.as_slice())?;
    for _ in &workload.lines {
        round.made(0);
    }
    round.bytes = bytes;
    Ok(round)
}

/// How many bytes the answers to these lines of JSON have.
pub fn answers_len(alloc: Global, lines: &[u8]) -> Result<usize> {
    let mut source = SliceSource::new(lines);
    let mut sink = VecSink::new(alloc);
    match run(alloc, &mut source, &mut sink) {
        RunEnd::Done => Ok(sink.as_slice().len()),
        _ => Err(anyhow!("a run that ends early")),
    }
}

fn list_terms(alloc: Global, workload: &Workload) -> Result<Round> {
    let mut round = Round::new();
    let mut terms = TermList::new(alloc);
    for document in &workload.documents {
        terms.clear();
        match term_values(alloc, &workload.schema, document, &mut terms) {
            Ok(()) => round.made(terms.len()),
            Err(_) => round.left_out(),
        }
    }
    Ok(round)
}
