//! `stat`.

use crate::depth::deepest_of;
use crate::ending::{Ending, Failure, escaped};
use crate::files::{Output, create, finish};
use crate::inputs::{limits, schema_given};
use crate::visits::{Visit, visit_block};
use clap::ArgMatches;
use std::alloc::{AllocError, Global};
use tantivy_schema::schema::{Document, Schema, TantivyDocument};
use tantivy_schema::store::Projection;

// What is counted of a block.
struct Counts {
    alloc: Global,
    documents: u64,
    bytes: u64,
    largest: u64,
    values: u64,
    most_values: u64,
    depth: u64,
    by_field: Vec<u64>,
}

impl Drop for Counts {
    fn drop(self) {
        let Counts {
            alloc: _,
            documents: _,
            bytes: _,
            largest: _,
            values: _,
            most_values: _,
            depth: _,
            by_field: _,
        } = self;
    }
}

// Counts the values of a document by their fields.
fn count_values(by_field: &mut [u64], document: &TantivyDocument) {
    for (field, _) in document.field_values() {
        if let Some(count) = by_field.get_mut(field.field_id() as usize) {
            *count = count.saturating_add(1);
        }
    }
}

impl Visit for Counts {
    fn visit(&mut self, document: &TantivyDocument, bytes: u64) -> Result<(), Failure> {
        let values = document.len() as u64;
        self.documents = self.documents.saturating_add(1);
        self.largest = self.largest.max(bytes.saturating_sub(self.bytes));
        self.bytes = bytes;
        self.values = self.values.saturating_add(values);
        self.most_values = self.most_values.max(values);
        count_values(self.by_field.as_mut_slice(), document);
        self.depth = deepest_of(self.alloc, document, self.depth)?;
        Ok(())
    }
}

// Prints a line for a number.
fn print_number(
    alloc: Global,
    output: &mut Output,
    number: u64,
    what: &str,
) -> Result<(), Failure> {
    output.print_line(format!(in alloc; "{number:>12}  {what}")?.as_str())
}

// Prints the counts of a block.
fn print_counts(output: &mut Output, counts: &Counts) -> Result<(), Failure> {
    let alloc = counts.alloc;
    print_number(alloc, output, counts.documents, "documents")?;
    print_number(alloc, output, counts.bytes, "bytes")?;
    print_number(
        alloc,
        output,
        counts.largest,
        "bytes of the largest document",
    )?;
    print_number(alloc, output, counts.values, "values")?;
    print_number(
        alloc,
        output,
        counts.most_values,
        "most values of a document",
    )?;
    print_number(
        alloc,
        output,
        counts.depth,
        "lists and objects around the innermost value",
    )
}

// Prints how many values each field has.
fn print_fields(output: &mut Output, schema: &Schema, counts: &Counts) -> Result<(), Failure> {
    let alloc = counts.alloc;
    for (field, entry) in schema.fields() {
        let number = field.field_id();
        let values = counts.by_field.get(number as usize).copied().unwrap_or(0);
        let kind = entry.field_type().value_type();
        let name = escaped(alloc, entry.name())?;
        let what = format!(in alloc; "values of field {number}, {name} ({kind:?})")?;
        print_number(alloc, output, values, what.as_str())?;
    }
    Ok(())
}

// No counts yet, for a schema of this many fields.
fn begin(alloc: Global, fields: usize) -> Result<Counts, AllocError> {
    Ok(Counts {
        alloc,
        documents: 0,
        bytes: 0,
        largest: 0,
        values: 0,
        most_values: 0,
        depth: 0,
        by_field: vec![in alloc; 0; fields]?,
    })
}

/// Counts the documents, bytes and values of a block.
pub(crate) fn stat(rt: &HostRuntime, given: &ArgMatches<'_>) -> Result<Ending, Failure> {
    let schema = schema_given(rt, given)?;
    let mut counts = begin(rt.alloc(), schema.num_fields())?;
    visit_block(rt, given, &Projection::All(limits(given)), &mut counts)?;
    let mut output = create(rt, "-")?;
    print_counts(&mut output, &counts)?;
    print_fields(&mut output, &schema, &counts)?;
    finish(output)?;
    Ok(Ending::Done)
}
