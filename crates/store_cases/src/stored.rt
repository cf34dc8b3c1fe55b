//! Documents and values that are written as bytes of the store.

use crate::reads::{self, Form};
use anyhow::{Result, anyhow};
use case_words as words;
use case_words::schemas::schema;
use std::alloc::Global;
use std::collections::BTreeMap;
use tantivy_schema::common::{SliceSource, VecSink};
use tantivy_schema::schema::document::{
    BinaryArraySerializer, BinaryDocumentSerializer, BinaryObjectSerializer, BinaryValueSerializer,
    Document, StoreReader, ValueDeserialize,
};
use tantivy_schema::schema::{
    Field, JsonObjectOptions, OwnedValue, STORED, Schema, TantivyDocument,
};
use tantivy_schema::store::{
    DocStoreVersion, MigrateBlockError, Unwatched, WriteVersion, migrate, migrate_block,
};

// The bytes that are written of a document.
fn written(alloc: Global, document: &TantivyDocument, schema: &Schema) -> Result<String> {
    if !document.fits(schema) {
        return Err(anyhow!("a field is not the schema's"));
    }
    let mut sink = VecSink::new(alloc);
    BinaryDocumentSerializer::new(&mut sink, schema).serialize_doc(document)?;
    Ok(hex::encode(alloc, sink.as_slice())?)
}

/// The JSON of a document, and the bytes that are written of it.
pub fn written_again(alloc: Global, document: &TantivyDocument, schema: &Schema) -> Result<String> {
    let json = document.to_json(alloc, schema)?;
    let bytes = written(alloc, document, schema)?;
    Ok(format!(in alloc; "{json}, {bytes}")?)
}

// The value that the bytes encode, read into a type.
fn value<V: ValueDeserialize>(alloc: Global, word: &str) -> Result<V> {
    let bytes = reads::bytes(alloc, word)?;
    let mut reader = StoreReader::new(SliceSource::new(&bytes), DocStoreVersion::V2);
    Ok(reader.read::<V>(alloc)?)
}

// A schema of one stored field of JSON objects, and its field.
fn one_field(alloc: Global) -> Result<(Schema, Field)> {
    let mut builder = Schema::builder(alloc);
    let field = builder.add_json_field("j", JsonObjectOptions::from(STORED))?;
    Ok((builder.build()?, field))
}

// What is written of a document with this value.
fn kept(alloc: Global, call: &[&str]) -> Result<String> {
    let word = words::one(call)?;
    let (schema, field) = one_field(alloc)?;
    let mut document = TantivyDocument::new(alloc);
    document.add_field_value(field, &&value::<OwnedValue>(alloc, word)?)?;
    written(alloc, &document, &schema)
}

// What is written of a document with the map of an object's entries.
fn map(alloc: Global, call: &[&str]) -> Result<String> {
    let word = words::one(call)?;
    let (schema, field) = one_field(alloc)?;
    let mut document = TantivyDocument::new(alloc);
    document.add_object(field, &value::<BTreeMap<String, OwnedValue>>(alloc, word)?)?;
    written(alloc, &document, &schema)
}

// What is written of a value alone.
fn alone(alloc: Global, call: &[&str]) -> Result<String> {
    let word = words::one(call)?;
    let mut sink = VecSink::new(alloc);
    BinaryValueSerializer::new(&mut sink).serialize_value(&&value::<OwnedValue>(alloc, word)?)?;
    Ok(hex::encode(alloc, sink.as_slice())?)
}

// What the calls that write an array return, and what is written then.
fn array(alloc: Global, call: &[&str]) -> Result<String> {
    let (announced, values) = words::first(call)?;
    let announced = words::number(announced)?;
    let mut sink = VecSink::new(alloc);
    let mut answers = Vec::new(alloc);
    let mut array = BinaryArraySerializer::begin(announced, &mut sink)?;
    for word in values {
        answers.push(array.serialize_value(&&value::<OwnedValue>(alloc, word)?))?;
    }
    answers.push(array.end())?;
    let bytes = hex::encode(alloc, sink.as_slice())?;
    Ok(format!(in alloc; "{answers:?}, {bytes:?}")?)
}

// What the calls that write an object return, and what is written then.
fn object(alloc: Global, call: &[&str]) -> Result<String> {
    let (announced, entry) = words::first(call)?;
    let announced = words::number(announced)?;
    let mut sink = VecSink::new(alloc);
    let mut answers = Vec::new(alloc);
    match BinaryObjectSerializer::begin(announced, &mut sink) {
        Ok(mut object) => {
            if let [key, word] = entry {
                let key = words::text(alloc, key)?;
                let value = value::<OwnedValue>(alloc, word)?;
                answers.push(object.serialize_entry(key.as_str(), &&value))?;
            }
            answers.push(object.end())?;
        }
        Err(error) => answers.push(Err(error))?,
    }
    let bytes = hex::encode(alloc, sink.as_slice())?;
    Ok(format!(in alloc; "{answers:?}, {bytes:?}")?)
}

// The version with this number, to write in.
fn written_version(number: &str) -> Result<WriteVersion> {
    match number {
        "2" => Ok(WriteVersion::V2),
        "3" => Ok(WriteVersion::V3),
        _ => Err(anyhow!("a version that isn't written")),
    }
}

// What is written of a document that is carried over to another version, or why it isn't, and how many bytes are left.
fn migrated(alloc: Global, call: &[&str]) -> Result<String> {
    let (from, to, word) = words::three(call)?;
    let bytes = reads::bytes(alloc, word)?;
    let mut source = SliceSource::new(&bytes);
    let mut sink = VecSink::new(alloc);
    let from = reads::version(from)?;
    let answer = match migrate(alloc, &mut source, from, &mut sink, written_version(to)?) {
        Ok(()) => hex::encode(alloc, sink.as_slice())?,
        Err(error) => format!(in alloc; "error {error:?}")?,
    };
    let left = source.rest().len();
    Ok(format!(in alloc; "{answer}, {left} left")?)
}

// Why a document of a block isn't migrated, and where it begins.
fn unmigrated(alloc: Global, failed: &MigrateBlockError) -> Result<String> {
    Ok(match failed {
        MigrateBlockError::Read(refused) => {
            format!(in alloc; "error {:?} at {}", refused.error, refused.start)?
        }
        MigrateBlockError::Write { start, error, .. } => {
            format!(in alloc; "error Write({error:?}) at {start}")?
        }
        MigrateBlockError::TooMany => String::from_str(alloc, "error TooMany")?,
    })
}

// What is written of a block that is carried over to another version, after the number of its documents, or after which of them isn't.
fn migrated_block(alloc: Global, call: &[&str]) -> Result<String> {
    let (from, to, word) = words::three(call)?;
    let block = reads::bytes(alloc, word)?;
    let mut source = SliceSource::new(&block);
    let mut sink = VecSink::new(alloc);
    let (from, to) = (reads::version(from)?, written_version(to)?);
    let answer = match migrate_block(alloc, &mut source, from, &mut sink, to, &mut Unwatched) {
        Ok(number) => format!(in alloc; "{number} documents")?,
        Err(failed) => unmigrated(alloc, &failed)?,
    };
    let digits = words::digits(alloc, sink.as_slice())?;
    Ok(format!(in alloc; "{answer}, {digits}")?)
}

/// What a call that writes returns.
pub fn answer(alloc: Global, call: &[&str]) -> Result<String> {
    let (name, call) = words::first(call)?;
    match name {
        "again" => again(alloc, call),
        "migrate" => migrated(alloc, call),
        "block" => migrated_block(alloc, call),
        "number" => version_number(alloc, call),
        "value" => alone(alloc, call),
        "kept" => kept(alloc, call),
        "map" => map(alloc, call),
        "array" => array(alloc, call),
        "object" => object(alloc, call),
        _ => Err(anyhow!("an unknown call that writes")),
    }
}

// What is written of a document that is read.
fn again(alloc: Global, call: &[&str]) -> Result<String> {
    let (description, bytes) = words::two(call)?;
    let schema = schema(alloc, description)?;
    let bytes = reads::bytes(alloc, bytes)?;
    reads::document(alloc, DocStoreVersion::V2, Form::Written(&schema), &bytes)
}

// The number of a version to write in.
fn version_number(alloc: Global, call: &[&str]) -> Result<String> {
    words::plain(alloc, &written_version(words::one(call)?)?.to_u32())
}
