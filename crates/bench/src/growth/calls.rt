//! The calls that are made.

use crate::growth::sample::Sample;
use crate::growth::{many, nested};
use crate::workload::{schema_of, stored_bytes};
use anyhow::{Result, anyhow};
use embedding::PacketSource;
use serde_json::Value;
use std::alloc::Global;
use tantivy_schema::common::{SliceSource, VecSink, split_json_path};
use tantivy_schema::schema::document::{CompactDoc, Document};
use tantivy_schema::store::{DocStoreVersion, WriteVersion, migrate, read_document};

/// A call.
#[derive(Clone, Copy)]
pub enum Call {
    /// From JSON to a document.
    Parse,
    /// From stored bytes to a document.
    Read,
    /// The same from bytes that come one at a time.
    ReadSingleBytes,
    /// From a document to stored bytes.
    Serialize,
    /// From stored bytes of version 2 to those of version 3.
    Migrate,
    /// From a document to its JSON.
    Print,
    /// Whether a document has the same values as itself.
    Compare,
    /// From JSON to a schema.
    ReadSchema,
    /// Each field of a schema, by its name.
    FindFields,
    /// The field that a path names.
    FindPath,
    /// The steps of a path.
    SplitPath,
    /// From a document to another one, by additions.
    Add,
    /// The same, by a builder.
    Build,
    /// Whether the values of a document and of its copy are equal.
    Equal,
    /// From stored bytes to a document, part by part.
    Step,
    /// From stored bytes into a document that is there.
    ReadInto,
    /// Stored bytes, passed over.
    Skip,
    /// From stored bytes to the values of one field.
    ReadFields,
    /// From a block to documents, within limits that none passes.
    BlockWithin,
    /// From a document to the terms of its values.
    TermValues,
    /// The same, one after the other.
    VisitTerms,
    /// From stored bytes to a document, within a limit of depth.
    ReadWithin,
    /// From a document to values by the names of their fields.
    Name,
    /// From a value to one that owns what it holds.
    Copy,
    /// From a value to a JSON value.
    JsonValue,
    /// Whether a value is the same as itself, as values of any kind are compared.
    Same,
    /// From stored bytes to a value that owns what it holds.
    ReadOwned,
    /// From a value to stored bytes, as values of any kind are written.
    WriteValue,
    /// From lines of JSON to answers.
    Run,
    /// From a block to documents, each in the memory of the one before.
    ReadBlock,
    /// Terms of numbers, put in order.
    OrderTerms,
    /// How many facets are below one.
    CountFacets,
}

impl Call {
    /// The name under which it is printed.
    pub fn name(self) -> &'static str {
        match self {
            Call::Parse => "parse",
            Call::Read => "read",
            Call::ReadSingleBytes => "read single bytes",
            Call::Serialize => "serialize",
            Call::Migrate => "migrate",
            Call::Print => "print",
            Call::Compare => "compare",
            Call::ReadSchema => "read schema",
            Call::FindFields => "find fields",
            Call::FindPath => "find path",
            Call::SplitPath => "split path",
            Call::Add => "add",
            Call::Build => "build",
            Call::Equal => "equal",
            Call::Step => "step",
            Call::ReadInto => "read into",
            Call::Skip => "skip",
            Call::ReadFields => "read fields",
            Call::BlockWithin => "block within",
            Call::TermValues => "term values",
            Call::VisitTerms => "visit terms",
            Call::ReadWithin => "read within",
            Call::Name => "name",
            Call::Copy => "copy",
            Call::JsonValue => "JSON value",
            Call::Same => "same",
            Call::ReadOwned => "read owned",
            Call::WriteValue => "write value",
            Call::Run => "run",
            Call::ReadBlock => "read block",
            Call::OrderTerms => "order",
            Call::CountFacets => "count",
        }
    }

    /// Makes the call, and says how many bytes, values, fields or steps its answer has; `None` where values that nest in too many lists
    /// are refused.
    pub fn make(self, alloc: Global, sample: &Sample) -> Result<Option<usize>> {
        match self {
            Call::ReadWithin => nested::read_within(alloc, sample),
            Call::Name => nested::name(alloc, sample),
            Call::Copy => nested::copy(alloc, sample),
            Call::JsonValue => nested::json_value(alloc, sample),
            Call::Same => nested::same(sample),
            Call::ReadOwned => nested::read_owned(alloc, sample),
            Call::WriteValue => nested::write_value(alloc, sample),
            other => Ok(Some(other.make_any(alloc, sample)?)),
        }
    }

    // The same of the calls that take values of any depth.
    fn make_any(self, alloc: Global, sample: &Sample) -> Result<usize> {
        match self {
            Call::Parse => parse(alloc, sample),
            Call::Read => read(alloc, sample),
            Call::ReadSingleBytes => read_single_bytes(alloc, sample),
            Call::Serialize => serialize(alloc, sample),
            Call::Migrate => migrated(alloc, sample),
            Call::Print => print(alloc, sample),
            Call::Compare => compare(sample),
            Call::ReadSchema => read_schema(alloc, sample),
            Call::FindFields => find_fields(alloc, sample),
            Call::FindPath => find_path(sample),
            Call::SplitPath => Ok(split_json_path(alloc, sample.path.as_str())?.len()),
            Call::Add => nested::add(alloc, sample),
            Call::Build => nested::build(alloc, sample),
            Call::Equal => nested::equal(alloc, sample),
            Call::Step => nested::step(alloc, sample),
            Call::ReadInto => nested::read_into(alloc, sample),
            Call::Skip => nested::skip(alloc, sample),
            Call::ReadFields => nested::read_chosen(alloc, sample),
            Call::BlockWithin => nested::block_within(alloc, sample),
            Call::TermValues => nested::list_terms(alloc, sample),
            Call::VisitTerms => nested::visit_each_term(alloc, sample),
            Call::Run => many::run_lines(alloc, sample),
            Call::ReadBlock => many::read_block(alloc, sample),
            Call::OrderTerms => many::order_terms(alloc, sample),
            Call::CountFacets => many::count_facets(alloc, sample),
            _ => Err(anyhow!("this call refuses what nests too deep")),
        }
    }
}

fn read(alloc: Global, sample: &Sample) -> Result<usize> {
    let mut source = SliceSource::new(sample.stored.as_slice());
    let read = read_document(alloc, &mut source, DocStoreVersion::V2)?;
    Ok(read.node_data().len())
}

fn read_single_bytes(alloc: Global, sample: &Sample) -> Result<usize> {
    let mut source = PacketSource::new(sample.stored.as_slice(), 1);
    let read = read_document(alloc, &mut source, DocStoreVersion::V2)?;
    Ok(read.node_data().len())
}

fn migrated(alloc: Global, sample: &Sample) -> Result<usize> {
    let mut source = SliceSource::new(sample.stored.as_slice());
    let mut sink = VecSink::new(alloc);
    migrate(
        alloc,
        &mut source,
        DocStoreVersion::V2,
        &mut sink,
        WriteVersion::V3,
    )?;
    Ok(sink.as_slice().len())
}

fn compare(sample: &Sample) -> Result<usize> {
    let document = &sample.document;
    if document.same_as(document)? {
        Ok(document.len())
    } else {
        Err(anyhow!("a document differs from itself"))
    }
}

fn find_path(sample: &Sample) -> Result<usize> {
    match sample.schema.find_field(sample.path.as_str()) {
        Some((_, rest)) => Ok(rest.len()),
        None => Err(anyhow!("a field")),
    }
}

fn parse(alloc: Global, sample: &Sample) -> Result<usize> {
    let parsed = CompactDoc::parse_json(alloc, &sample.schema, sample.json.as_str())?;
    Ok(parsed.node_data().len())
}

fn serialize(alloc: Global, sample: &Sample) -> Result<usize> {
    let written = stored_bytes(alloc, &sample.schema, &sample.document, WriteVersion::V2)?;
    if written.as_slice() != sample.stored.as_slice() {
        return Err(anyhow!("other bytes are written than were read"));
    }
    Ok(written.len())
}

// Prints the document. Where it was made of JSON objects, the JSON library prints its values in the same way.
fn print(alloc: Global, sample: &Sample) -> Result<usize> {
    let printed = sample.document.to_json(alloc, &sample.schema)?;
    if let Ok(json) = Value::from_str(alloc, sample.json.as_str()) {
        let other = text_of_tree(alloc, &json);
        drop(json);
        if other?.is_some_and(|other| printed.as_str() != other.as_str()) {
            return Err(anyhow!("the JSON library prints another text"));
        }
    }
    Ok(printed.len())
}

// The JSON of a document with this object's tree, as the JSON library prints it.
fn text_of_tree(alloc: Global, json: &Value) -> Result<Option<String>> {
    match json.get("tree") {
        Some(tree) => Ok(Some(format!(in alloc; "{{\"tree\":[{}]}}", tree.to_string(alloc)?)?)),
        None => Ok(None),
    }
}

fn read_schema(alloc: Global, sample: &Sample) -> Result<usize> {
    Ok(schema_of(alloc, sample.schema_json.as_str())?.num_fields())
}

fn find_fields(alloc: Global, sample: &Sample) -> Result<usize> {
    let mut found: usize = 0;
    for (_, entry) in sample.schema.fields() {
        let path = format!(in alloc; "{}.step", entry.name())?;
        if sample.schema.find_field(entry.name()).is_some()
            && sample.schema.find_field(path.as_str()).is_some()
        {
            found = found.saturating_add(1);
        }
    }
    Ok(found)
}
