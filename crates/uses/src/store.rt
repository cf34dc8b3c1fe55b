//! The store.

use anyhow::{Result, anyhow};
use std::alloc::Global;
use std::collections::BTreeMap;
use std::io::Read;
use tantivy_schema::common::{
    BinarySerializable, BufferedSource, LimitedSource, ReadError, SliceSource, VecSink,
};
use tantivy_schema::schema::document::{BinaryDocumentSerializer, StoreReader};
use tantivy_schema::schema::{Field, Schema, TantivyDocument};
use tantivy_schema::store::{
    BlockReader, DirectDecoder, DocStoreVersion, LimitedReadError, MigrateBlockError, Projection,
    ReadLimits, RefusedDocument, Step, Unwatched, WriteVersion, migrate_block, read_document,
    read_document_into, read_document_within, read_fields, skip_document,
};

/// The bytes of documents, one after the other.
pub fn block(alloc: Global, schema: &Schema, documents: &[TantivyDocument]) -> Result<Vec<u8>> {
    let mut sink = VecSink::new(alloc);
    for document in documents {
        append(&mut sink, schema, document)?;
    }
    Ok(sink.into_vec())
}

/// Appends the stored pairs of a document, whose fields have to be the schema's.
pub fn append(sink: &mut VecSink, schema: &Schema, document: &TantivyDocument) -> Result<()> {
    if !document.fits(schema) {
        return Err(anyhow!("a field is not the schema's"));
    }
    BinaryDocumentSerializer::new(sink, schema).serialize_doc(document)?;
    Ok(())
}

/// The documents of such bytes.
pub fn documents_of(alloc: Global, bytes: &[u8], count: usize) -> Result<Vec<TantivyDocument>> {
    let mut source = SliceSource::new(bytes);
    let mut documents = Vec::new(alloc);
    for _ in 0..count {
        documents.push(read_document(alloc, &mut source, DocStoreVersion::V2)?)?;
    }
    Ok(documents)
}

/// How many values the documents of such bytes have, each read into the memory of the one before.
pub fn values_in(alloc: Global, bytes: &[u8], count: usize) -> Result<usize> {
    let mut source = SliceSource::new(bytes);
    let mut document = TantivyDocument::new(alloc);
    let mut values: usize = 0;
    for _ in 0..count {
        read_document_into(alloc, &mut document, &mut source, DocStoreVersion::V2)?;
        values = values.saturating_add(document.len());
    }
    Ok(values)
}

/// How many values the documents of a block have, whose number isn't known.
pub fn values_of_block(alloc: Global, block: &[u8]) -> Result<usize> {
    let mut source = SliceSource::new(block);
    let mut reader = BlockReader::new(alloc, DocStoreVersion::V2);
    let mut values: usize = 0;
    while reader.advance(&mut source)? {
        values = values.saturating_add(reader.document().len());
    }
    Ok(values)
}

/// The documents of a block in version 3.
pub fn to_version_3(alloc: Global, block: &[u8]) -> Result<Vec<u8>, MigrateBlockError> {
    let mut source = SliceSource::new(block);
    let mut sink = VecSink::new(alloc);
    let (from, to) = (DocStoreVersion::V2, WriteVersion::V3);
    migrate_block(alloc, &mut source, from, &mut sink, to, &mut Unwatched)?;
    Ok(sink.into_vec())
}

/// The document at a place of a block, if the block has that many.
pub fn document_at(alloc: Global, block: &[u8], place: usize) -> Result<Option<TantivyDocument>> {
    let mut source = SliceSource::new(block);
    let mut reader = BlockReader::new(alloc, DocStoreVersion::V2);
    for _ in 0..place {
        if !reader.skip(&mut source)? {
            return Ok(None);
        }
    }
    if reader.advance(&mut source)? {
        Ok(Some(reader.into_document()))
    } else {
        Ok(None)
    }
}

/// The names and the ages of a document of many fields.
pub fn name_and_age(
    alloc: Global,
    bytes: &[u8],
    name: Field,
    age: Field,
) -> Result<TantivyDocument> {
    let mut source = SliceSource::new(bytes);
    let fields = [name, age];
    Ok(read_fields(alloc, &mut source, DocStoreVersion::V2, &fields)?)
}

/// How many values of chosen fields a block has, or which of its documents is refused.
pub fn values_of_fields(
    alloc: Global,
    block: &[u8],
    fields: Vec<Field>,
) -> Result<usize, RefusedDocument> {
    let projection = Projection::Fields(fields);
    let mut source = SliceSource::new(block);
    let mut reader = BlockReader::new(alloc, DocStoreVersion::V2);
    let mut values: usize = 0;
    while reader.advance_by(&mut source, &projection)? {
        values = values.saturating_add(reader.document().len());
    }
    Ok(values)
}

/// The second of two documents.
pub fn second_document(alloc: Global, bytes: &[u8]) -> Result<TantivyDocument> {
    let mut source = SliceSource::new(bytes);
    skip_document(alloc, &mut source, DocStoreVersion::V2)?;
    Ok(read_document(alloc, &mut source, DocStoreVersion::V2)?)
}

/// A document of bytes that others wrote: one that is long, nests deep or takes much memory is refused.
pub fn read_untrusted(alloc: Global, bytes: &[u8]) -> Result<TantivyDocument, LimitedReadError> {
    let limits = ReadLimits {
        bytes: Some(1 << 20),
        heap_bytes: Some(1 << 20),
        depth: Some(32),
    };
    let mut source = SliceSource::new(bytes);
    read_document_within(alloc, &mut source, DocStoreVersion::V2, limits)
}

/// How many values the documents of a block have that others wrote: a document that passes a limit is refused.
pub fn values_of_untrusted(alloc: Global, block: &[u8]) -> Result<usize, LimitedReadError> {
    let limits = ReadLimits {
        bytes: Some(1 << 20),
        heap_bytes: Some(1 << 20),
        depth: Some(32),
    };
    let mut source = SliceSource::new(block);
    let mut reader = BlockReader::new(alloc, DocStoreVersion::V2);
    let mut values: usize = 0;
    while reader.advance_within(&mut source, limits)? {
        values = values.saturating_add(reader.document().len());
    }
    Ok(values)
}

/// A number that a reader gives, a file say.
pub fn number_of<R: Read + Drop>(alloc: Global, reader: R) -> Result<u64, ReadError> {
    let mut source = BufferedSource::new(alloc, reader)?;
    u64::deserialize(alloc, &mut source)
}

/// A number that is encoded by the first bytes.
pub fn number_within(alloc: Global, bytes: &[u8], limit: u64) -> Result<u64, ReadError> {
    let mut source = SliceSource::new(bytes);
    let mut first = LimitedSource::new(&mut source, limit);
    u64::deserialize(alloc, &mut first)
}

/// The first document of such bytes, read in short steps: between two of them the caller may do something else.
pub fn stepwise(alloc: Global, bytes: &[u8]) -> Result<TantivyDocument> {
    let mut source = SliceSource::new(bytes);
    let mut decoder = DirectDecoder::new(alloc, DocStoreVersion::V2);
    for _ in 0..u64::MAX {
        if decoder.step(&mut source)? == Step::Done {
            break;
        }
    }
    Ok(decoder.into_doc())
}

/// An object of numbers, read into a map, without a document.
pub fn scores(alloc: Global, bytes: &[u8]) -> Result<BTreeMap<String, u64>> {
    let mut reader = StoreReader::new(SliceSource::new(bytes), DocStoreVersion::V2);
    Ok(reader.read::<BTreeMap<String, u64>>(alloc)?)
}
