//! Values that are read into types, and the parts that values and documents begin with.

use crate::over_each::{Ending, Reading, over_each, where_it_fails};
use crate::reads::{self, Form};
use anyhow::{Result, anyhow};
use case_words as words;
use embedding::{Figures, Point, Score};
use std::alloc::Global;
use std::collections::{BTreeMap, HashMap};
use std::fmt::Debug;
use std::marker::PhantomData;
use tantivy_schema::common::{BinarySerializable, ByteSource};
use tantivy_schema::schema::document::{
    BinaryDocumentDeserializer, DocumentDeserialize, MAX_DEPTH, StoreReader, ValueDeserialize,
};
use tantivy_schema::schema::{Facet, OwnedValue, TantivyDocument};
use tantivy_schema::store::DocStoreVersion;
use tv_reader::heads::{take_document_head, take_head, take_key_head};
use tv_reader::trees::take_tree;

// Reads a value into a type, and reads once more where it is refused.
#[derive(Drop)]
struct TypedReading<V> {
    version: DocStoreVersion,
    value: PhantomData<V>,
}

impl<V: ValueDeserialize + Debug> Reading for TypedReading<V> {
    fn read<S: ByteSource + Drop>(&self, alloc: Global, source: S) -> Result<Ending<S>> {
        let mut reader = StoreReader::new(source, self.version);
        let mut answer = words::shown(alloc, reader.read::<V>(alloc))?;
        if reader.has_failed() {
            answer.push_str(", then ")?;
            answer.push_str(words::shown(alloc, reader.read::<V>(alloc))?.as_str())?;
        }
        let counted = Some(reader.bytes_read());
        Ok(Ending {
            answer,
            counted,
            source: reader.into_source(),
        })
    }
}

// What reading the bytes into a type gives.
fn typed<V: ValueDeserialize + Debug>(
    alloc: Global,
    version: DocStoreVersion,
    bytes: &[u8],
) -> Result<String> {
    let reading = TypedReading::<V> {
        version,
        value: PhantomData,
    };
    over_each(alloc, bytes, &reading)
}

// What reading the bytes into the type of this name gives.
fn typed_by_name(
    alloc: Global,
    name: &str,
    version: DocStoreVersion,
    bytes: &[u8],
) -> Result<String> {
    match name {
        "value" => typed::<OwnedValue>(alloc, version, bytes),
        "u64" => typed::<u64>(alloc, version, bytes),
        "bytes" => typed::<Vec<u8>>(alloc, version, bytes),
        "list bool" => typed::<Vec<bool>>(alloc, version, bytes),
        "list u64" => typed::<Vec<u64>>(alloc, version, bytes),
        "list list bool" => typed::<Vec<Vec<bool>>>(alloc, version, bytes),
        "list pairs bool" => typed::<Vec<Vec<(String, bool)>>>(alloc, version, bytes),
        "pairs bool" => typed::<Vec<(String, bool)>>(alloc, version, bytes),
        "pairs u64" => typed::<Vec<(String, u64)>>(alloc, version, bytes),
        "pairs i64" => typed::<Vec<(String, i64)>>(alloc, version, bytes),
        "map u64" => typed::<BTreeMap<String, u64>>(alloc, version, bytes),
        "map value" => typed::<BTreeMap<String, OwnedValue>>(alloc, version, bytes),
        "map map i64" => typed::<BTreeMap<String, BTreeMap<String, i64>>>(alloc, version, bytes),
        "hashed u64" => typed::<HashMap<String, u64>>(alloc, version, bytes),
        "hashed i64" => typed::<HashMap<String, i64>>(alloc, version, bytes),
        "score" => typed::<Score>(alloc, version, bytes),
        "point" => typed::<Point>(alloc, version, bytes),
        "figures" => typed::<Figures>(alloc, version, bytes),
        _ => Err(anyhow!("an unknown type")),
    }
}

// What reading the bytes into a type gives.
fn read(alloc: Global, call: &[&str]) -> Result<String> {
    let (name, call) = words::first(call)?;
    let (version, bytes) = reads::version_and_bytes(alloc, call)?;
    typed_by_name(alloc, name, version, &bytes)
}

// Reads a value of any type, without a reader of a store.
#[derive(Drop)]
struct TreeReading(DocStoreVersion);

impl Reading for TreeReading {
    fn read<S: ByteSource + Drop>(&self, alloc: Global, source: S) -> Result<Ending<S>> {
        let mut source = source;
        let mut count = 0;
        let tree = take_tree(alloc, &mut source, &mut count, self.0, MAX_DEPTH);
        Ok(Ending {
            answer: words::shown(alloc, tree)?,
            counted: Some(count),
            source,
        })
    }
}

// What stands at the beginning.
#[derive(Clone, Copy)]
enum Part {
    Value,
    Key,
    Document,
}

// Reads what a value, a key or a document begins with.
#[derive(Drop)]
struct HeadReading {
    part: Part,
    version: DocStoreVersion,
}

impl Reading for HeadReading {
    fn read<S: ByteSource + Drop>(&self, alloc: Global, source: S) -> Result<Ending<S>> {
        let mut source = source;
        let mut count = 0;
        let version = self.version;
        let answer = match self.part {
            Part::Value => words::shown(alloc, take_head(&mut source, &mut count, version))?,
            Part::Key => words::shown(alloc, take_key_head(&mut source, &mut count, version))?,
            Part::Document => words::shown(alloc, take_document_head(&mut source, &mut count))?,
        };
        Ok(Ending {
            answer,
            counted: Some(count),
            source,
        })
    }
}

// Reads a document of the pairs that a reader of a store gives.
#[derive(Drop)]
struct PairsReading(DocStoreVersion);

impl Reading for PairsReading {
    fn read<S: ByteSource + Drop>(&self, alloc: Global, source: S) -> Result<Ending<S>> {
        let mut reader = StoreReader::new(source, self.0);
        let document = match BinaryDocumentDeserializer::from_reader(&mut reader) {
            Ok(mut pairs) => TantivyDocument::deserialize(alloc, &mut pairs),
            Err(error) => Err(error),
        };
        let answer = reads::shown(alloc, document, Form::Pairs)?;
        let counted = Some(reader.bytes_read());
        Ok(Ending {
            answer,
            counted,
            source: reader.into_source(),
        })
    }
}

// Reads a value by a grammar of its own, without a code.
#[derive(Drop)]
struct PlainReading<T> {
    value: PhantomData<T>,
}

impl<T: BinarySerializable + Debug + Drop> Reading for PlainReading<T> {
    fn read<S: ByteSource + Drop>(&self, alloc: Global, source: S) -> Result<Ending<S>> {
        let mut source = source;
        let answer = words::shown(alloc, T::deserialize(alloc, &mut source))?;
        Ok(Ending {
            answer,
            counted: None,
            source,
        })
    }
}

// What reading a value without its code gives.
fn plain(alloc: Global, call: &[&str]) -> Result<String> {
    let (name, word) = words::two(call)?;
    let bytes = reads::bytes(alloc, word)?;
    match name {
        "bytes" => over_each(
            alloc,
            &bytes,
            &PlainReading::<Vec<u8>> { value: PhantomData },
        ),
        "text" => over_each(
            alloc,
            &bytes,
            &PlainReading::<String> { value: PhantomData },
        ),
        "facet" => over_each(alloc, &bytes, &PlainReading::<Facet> { value: PhantomData }),
        _ => Err(anyhow!("an unknown type")),
    }
}

// What reading the beginning of a value, a key or a document gives.
fn head(alloc: Global, call: &[&str]) -> Result<String> {
    let (name, call) = words::first(call)?;
    let (version, bytes) = reads::version_and_bytes(alloc, call)?;
    let part = match name {
        "value" => Part::Value,
        "key" => Part::Key,
        "document" => Part::Document,
        _ => return Err(anyhow!("an unknown part")),
    };
    over_each(alloc, &bytes, &HeadReading { part, version })
}

// What reading the bytes as a value of any type gives.
fn tree(alloc: Global, call: &[&str]) -> Result<String> {
    let (version, bytes) = reads::version_and_bytes(alloc, call)?;
    over_each(alloc, &bytes, &TreeReading(version))
}

// The same where a read fails.
fn failing(alloc: Global, call: &[&str]) -> Result<String> {
    let (kind, call) = words::first(call)?;
    let kind = reads::kind(kind)?;
    let (version, bytes) = reads::version_and_bytes(alloc, call)?;
    where_it_fails(alloc, kind, &bytes, &TreeReading(version))
}

// What reading the bytes as the pairs of a document gives.
fn pairs(alloc: Global, call: &[&str]) -> Result<String> {
    let (version, bytes) = reads::version_and_bytes(alloc, call)?;
    over_each(alloc, &bytes, &PairsReading(version))
}

/// What a call that reads into types returns. The last word has the bytes.
pub fn answer(alloc: Global, call: &[&str]) -> Result<String> {
    let (name, call) = words::first(call)?;
    match name {
        "read" => read(alloc, call),
        "tree" => tree(alloc, call),
        "failing" => failing(alloc, call),
        "head" => head(alloc, call),
        "pairs" => pairs(alloc, call),
        "plain" => plain(alloc, call),
        _ => Err(anyhow!("an unknown call that reads into types")),
    }
}
