//! Calls on many lines, terms and facets.

use crate::calls::answers_len;
use crate::growth::sample::Sample;
use anyhow::{Context, Result, anyhow};
use std::alloc::Global;
use tantivy_schema::common::SliceSource;
use tantivy_schema::schema::{Facet, Field, Term};
use tantivy_schema::store::{BlockReader, DocStoreVersion};

/// From lines of JSON to answers; how many bytes these have.
pub fn run_lines(alloc: Global, sample: &Sample) -> Result<usize> {
    answers_len(alloc, sample.lines.as_slice())
}

/// Documents of a block, each in the memory of the one before; how many values they have.
pub fn read_block(alloc: Global, sample: &Sample) -> Result<usize> {
    let mut source = SliceSource::new(sample.block.as_slice());
    let mut reader = BlockReader::new(alloc, DocStoreVersion::V2);
    let mut values: usize = 0;
    for _ in 0..sample.count {
        if !reader.advance(&mut source)? {
            return Err(anyhow!("a block that ends early"));
        }
        values = values.saturating_add(reader.document().len());
    }
    if reader.advance(&mut source)? {
        return Err(anyhow!("a block that goes on"));
    }
    Ok(values)
}

/// Terms of this many numbers, put in order; how many there are.
pub fn order_terms(alloc: Global, sample: &Sample) -> Result<usize> {
    let mut terms = Vec::new(alloc);
    let field = Field::from_field_id(0);
    for number in 0..sample.count {
        let shuffled = u64::from(number) * 2_654_435_761 % u64::from(u32::MAX);
        terms.push(Term::from_field_u64(alloc, field, shuffled)?)?;
    }
    terms.sort()?;
    is_rising(terms.as_slice())?;
    Ok(terms.len())
}

// An error where a term isn't below the next.
fn is_rising(terms: &[Term]) -> Result<()> {
    let mut last = terms.first().context("a term")?;
    for term in terms.iter().skip(1) {
        if *last >= *term {
            return Err(anyhow!("terms out of order"));
        }
        last = term;
    }
    Ok(())
}

/// This many facets; how many are below one of them.
pub fn count_facets(alloc: Global, sample: &Sample) -> Result<usize> {
    let upper = Facet::from_text(alloc, "/3")?;
    let mut below: usize = 0;
    for number in 0..sample.count {
        let text = format!(in alloc; "/{}/{number}", number % 10)?;
        let facet = Facet::from_text(alloc, text.as_str())?;
        if upper.is_prefix_of(&facet) {
            below = below.saturating_add(1);
        }
    }
    Ok(below)
}
