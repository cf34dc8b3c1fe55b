//! `schema show` and `schema new`.

use crate::ending::{Ending, Failure, escaped, wrong_use};
use crate::files::{create, finish, print_lines};
use crate::inputs::{schema_of, text};
use crate::schema_words::entry_of;
use clap::ArgMatches;
use std::alloc::{AllocError, Global};
use tantivy_schema::schema::{FieldEntry, Schema, SchemaBuilder};

// What a field is: `stored`, `indexed` and `fast`, as far as it is so.
fn options(entry: &FieldEntry) -> [&'static str; 3] {
    [
        if entry.is_stored() { "stored" } else { "" },
        if entry.is_indexed() { "indexed" } else { "" },
        if entry.is_fast() { "fast" } else { "" },
    ]
}

// The line of a field: its number, name, type and options.
fn line(alloc: Global, number: u32, entry: &FieldEntry) -> Result<String, AllocError> {
    let [stored, indexed, fast] = options(entry);
    let (name, kind) = (
        escaped(alloc, entry.name())?,
        entry.field_type().value_type(),
    );
    format!(in alloc; "{number:>5}  {name:<24} {kind:?} {stored} {indexed} {fast}")
}

// Prints a line for each field.
fn show(rt: &HostRuntime, schema: &Schema) -> Result<(), Failure> {
    let mut output = create(rt, "-")?;
    for (field, entry) in schema.fields() {
        let line = line(rt.alloc(), field.field_id(), entry)?;
        output.print_line(line.as_str().trim_end())?;
    }
    finish(output)
}

// Adds the field of a word to a schema.
fn add_field(alloc: Global, builder: &mut SchemaBuilder, word: &str) -> Result<(), Failure> {
    match builder.add_field(entry_of(alloc, word)?) {
        Ok(_) => Ok(()),
        Err(error) => Err(wrong_use(alloc, word, error)),
    }
}

// The schema with the fields that are given.
fn schema_with(alloc: Global, words: &[&str]) -> Result<Schema, Failure> {
    let mut builder = Schema::builder(alloc);
    for word in words {
        add_field(alloc, &mut builder, word)?;
    }
    Ok(builder.build()?)
}

// The JSON of a schema.
fn json_of(alloc: Global, schema: &Schema) -> Result<String, AllocError> {
    schema.to_json_value()?.to_string(alloc)
}

// Prints the JSON of a schema with the fields that are given.
fn make(rt: &HostRuntime, words: &[&str]) -> Result<(), Failure> {
    let alloc = rt.alloc();
    let schema = schema_with(alloc, words)?;
    print_lines(rt, &[json_of(alloc, &schema)?])
}

// Shows a schema, or makes one, as the words below `schema` say.
fn answer(rt: &HostRuntime, name: &str, given: &ArgMatches<'_>) -> Result<(), Failure> {
    if name == "new" {
        return make(rt, given.get_strs("FIELD").unwrap_or(&[]));
    }
    show(rt, &schema_of(rt, text(given, "FILE"))?)
}

/// Shows a schema, or makes one.
pub(crate) fn schema(rt: &HostRuntime, given: &ArgMatches<'_>) -> Result<Ending, Failure> {
    if let Some((name, given)) = given.subcommand() {
        answer(rt, name, given)?;
    }
    Ok(Ending::Done)
}
