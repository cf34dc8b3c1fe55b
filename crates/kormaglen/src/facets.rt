//! `facets`.

use crate::bars::print_table;
use crate::ending::{Ending, Failure, escaped, wrong_use};
use crate::faults::refuse_unstored;
use crate::files::{Output, create, finish};
use crate::inputs::{schema_given, text};
use crate::term_counts::TermCounts;
use crate::visits::{Visit, fields_within, visit_block};
use clap::ArgMatches;
use std::alloc::{AllocError, Global};
use std::io::IsTerminal;
use tantivy_schema::schema::document::Document;
use tantivy_schema::schema::{
    DocumentFacet, Facet, FacetCount, Field, FieldType, Schema, TantivyDocument, Value,
    count_child_documents, greatest_counts,
};

// Counts, for each child of a facet, how many documents have a facet of a field at or below it, by the child's encoded text.
struct Counting {
    alloc: Global,
    field: Field,
    ancestor: Facet,
    counts: TermCounts,
}

impl Drop for Counting {
    fn drop(self) {
        let Counting {
            alloc: _,
            field: _,
            ancestor: _,
            counts: _,
        } = self;
    }
}

impl Counting {
    // The facets of the field of a document.
    fn facets_of<'d>(
        &self,
        document: &'d TantivyDocument,
    ) -> Result<Vec<DocumentFacet<'d>>, Failure> {
        let mut facets = Vec::new(self.alloc);
        for value in document.get_all(self.field) {
            if let Some(encoded) = value.as_facet() {
                let facet = encoded.as_bytes();
                facets.push(DocumentFacet { facet, document: 0 })?;
            }
        }
        Ok(facets)
    }
}

impl Visit for Counting {
    fn visit(&mut self, document: &TantivyDocument, _bytes: u64) -> Result<(), Failure> {
        let facets = self.facets_of(document)?;
        let ancestor = self.ancestor.encoded_str().as_bytes();
        for entry in &count_child_documents(self.alloc, ancestor, &facets)? {
            self.counts.count(entry.child)?;
        }
        Ok(())
    }
}

// The line of a count, as the words ask for it.
fn line_of(
    alloc: Global,
    given: &ArgMatches<'_>,
    count: &FacetCount<'_>,
) -> Result<String, AllocError> {
    let line = format!(in alloc; "{count}")?;
    if given.get_flag("raw") {
        return Ok(line);
    }
    escaped(alloc, line.as_str())
}

// Prints the counts as a table with bars.
fn print_bars(
    rt: &HostRuntime,
    given: &ArgMatches<'_>,
    counts: &[FacetCount<'_>],
    output: &mut Output,
) -> Result<(), Failure> {
    let alloc = rt.alloc();
    let mut lines = Vec::new(alloc);
    for count in counts {
        lines.push((line_of(alloc, given, count)?, count.count))?;
    }
    print_table(alloc, lines.as_slice(), output)
}

// Prints the counts: as a table with bars on a terminal and where the words ask for it, and else a line for each.
fn print_counts(
    rt: &HostRuntime,
    given: &ArgMatches<'_>,
    counts: &[FacetCount<'_>],
) -> Result<(), Failure> {
    let mut output = create(rt, "-")?;
    if given.get_flag("bars") || rt.stdout().is_terminal() {
        print_bars(rt, given, counts, &mut output)?;
    } else {
        for count in counts {
            output.print_line(line_of(rt.alloc(), given, count)?.as_str())?;
        }
    }
    finish(output)
}

// The stored field of facets of a name.
fn field_of(alloc: Global, schema: &Schema, name: &str) -> Result<Field, Failure> {
    let field = match schema.get_field(name) {
        Ok(field) => field,
        Err(error) => return Err(wrong_use(alloc, name, error)),
    };
    let is_of_facets = schema.has_field(field)
        && matches!(
            schema.get_field_entry(field).field_type(),
            FieldType::Facet(_)
        );
    if !is_of_facets {
        return Err(wrong_use(alloc, name, "the field has no facets"));
    }
    refuse_unstored(alloc, schema, &[field])?;
    Ok(field)
}

// What counts the documents by the children of the facet that the words name.
fn begin(rt: &HostRuntime, given: &ArgMatches<'_>, schema: &Schema) -> Result<Counting, Failure> {
    let alloc = rt.alloc();
    let field = field_of(alloc, schema, text(given, "FIELD"))?;
    match Facet::from_text(alloc, text(given, "FACET")) {
        Ok(ancestor) => Ok(Counting {
            alloc,
            field,
            ancestor,
            counts: TermCounts::new(alloc, u64::MAX),
        }),
        Err(error) => Err(wrong_use(alloc, text(given, "FACET"), error)),
    }
}

// The children with their counts.
fn entries<'c>(alloc: Global, counts: &'c TermCounts) -> Result<Vec<FacetCount<'c>>, AllocError> {
    let mut entries = Vec::with_capacity(alloc, counts.as_map().len())?;
    for (child, count) in counts.as_map().iter() {
        let (child, count) = (child.as_slice(), *count);
        entries.push(FacetCount { child, count })?;
    }
    Ok(entries)
}

// Prints the counts that the words ask for: all, or this number of the greatest.
fn print_wanted(
    rt: &HostRuntime,
    given: &ArgMatches<'_>,
    counts: &[FacetCount<'_>],
) -> Result<(), Failure> {
    let Some(top) = given.get_one::<u64>("top") else {
        return print_counts(rt, given, counts);
    };
    let most = usize::try_from(top).unwrap_or(usize::MAX);
    print_counts(rt, given, &greatest_counts(rt.alloc(), counts, most)?)
}

// Prints the children that were counted.
fn print_all(rt: &HostRuntime, given: &ArgMatches<'_>, counts: &TermCounts) -> Result<(), Failure> {
    print_wanted(rt, given, &entries(rt.alloc(), counts)?)
}

/// Counts documents by the children of a facet. Memory is kept for the children that are found, and for one document.
pub(crate) fn facets(rt: &HostRuntime, given: &ArgMatches<'_>) -> Result<Ending, Failure> {
    let mut counting = begin(rt, given, &schema_given(rt, given)?)?;
    let projection = fields_within(rt.alloc(), given, &[counting.field])?;
    visit_block(rt, given, &projection, &mut counting)?;
    print_all(rt, given, &counting.counts)?;
    Ok(Ending::Done)
}
