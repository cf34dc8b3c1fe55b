//! The other calls that read documents: chosen fields alone, nothing, within limits, and out of a block.

use crate::over_each::{Ending, Reading, over_each};
use crate::reads::{Form, shown};
use anyhow::{Result, anyhow};
use case_words as words;
use std::alloc::Global;
use tantivy_schema::common::ByteSource;
use tantivy_schema::schema::Field;
use tantivy_schema::store::{
    BlockReader, DocStoreVersion, ReadLimits, read_document_within, read_fields, skip_document,
};

// The field whose values are read where one is chosen.
const CHOSEN: u32 = 1;

// How a document is read.
#[derive(Clone, Copy)]
enum Call {
    // The values of one field alone.
    Fields,
    // Not at all: it is passed over.
    Skip,
    // Within limits, none of which is set.
    Within,
    // As the next one of a block.
    Block,
    // As the next one of a block, where no byte may be taken.
    Unread,
}

// Reads a document by one of these calls.
#[derive(Drop)]
struct CallReading {
    version: DocStoreVersion,
    call: Call,
}

impl Reading for CallReading {
    fn read<S: ByteSource + Drop>(&self, alloc: Global, source: S) -> Result<Ending<S>> {
        let mut source = source;
        let answer = match self.call {
            Call::Fields => fields(alloc, &mut source, self.version)?,
            Call::Skip => skipped(alloc, &mut source, self.version)?,
            Call::Within => within(alloc, &mut source, self.version)?,
            Call::Block => next(alloc, &mut source, self.version)?,
            Call::Unread => unread(alloc, &mut source, self.version)?,
        };
        Ok(Ending {
            answer,
            counted: None,
            source,
        })
    }
}

// The pairs of the field that is chosen.
fn fields<S: ByteSource>(
    alloc: Global,
    source: &mut S,
    version: DocStoreVersion,
) -> Result<String> {
    let chosen = [Field::from_field_id(CHOSEN)];
    shown(
        alloc,
        read_fields(alloc, source, version, &chosen),
        Form::Pairs,
    )
}

// Whether a document is passed over.
fn skipped<S: ByteSource>(
    alloc: Global,
    source: &mut S,
    version: DocStoreVersion,
) -> Result<String> {
    match skip_document(alloc, source, version) {
        Ok(()) => Ok(String::from_str(alloc, "skipped")?),
        Err(error) => words::error(alloc, error),
    }
}

// The size of a document that is read within limits.
fn within<S: ByteSource>(
    alloc: Global,
    source: &mut S,
    version: DocStoreVersion,
) -> Result<String> {
    match read_document_within(alloc, source, version, ReadLimits::default()) {
        Ok(document) => shown(alloc, Ok(document), Form::Size),
        Err(error) => words::error(alloc, error),
    }
}

// The size of the next document of a block.
fn next<S: ByteSource>(alloc: Global, source: &mut S, version: DocStoreVersion) -> Result<String> {
    let mut reader = BlockReader::new(alloc, version);
    match reader.advance(source) {
        Ok(true) => shown(alloc, Ok(reader.into_document()), Form::Size),
        Ok(false) => Ok(String::from_str(alloc, "end")?),
        Err(error) => words::error(alloc, error),
    }
}

// Whether a block has a next document, of which no byte may be taken.
fn unread<S: ByteSource>(
    alloc: Global,
    source: &mut S,
    version: DocStoreVersion,
) -> Result<String> {
    let limits = ReadLimits {
        bytes: Some(0),
        ..ReadLimits::default()
    };
    match BlockReader::new(alloc, version).advance_within(source, limits) {
        Ok(true) => Ok(String::from_str(alloc, "read")?),
        Ok(false) => Ok(String::from_str(alloc, "end")?),
        Err(error) => words::error(alloc, error),
    }
}

/// What the call of this name gives of a document of this version.
pub fn answer(alloc: Global, name: &str, version: DocStoreVersion, bytes: &[u8]) -> Result<String> {
    let call = match name {
        "fields" => Call::Fields,
        "skip" => Call::Skip,
        "within" => Call::Within,
        "block" => Call::Block,
        "unread" => Call::Unread,
        _ => return Err(anyhow!("an unknown call that reads documents")),
    };
    over_each(alloc, bytes, &CallReading { version, call })
}
