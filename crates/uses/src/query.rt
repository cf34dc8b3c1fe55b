//! A query parser: clauses joined by `AND`, as `price:[10 TO 20] AND attributes.color:red`.

use anyhow::{Result, anyhow};
use std::alloc::Global;
use tantivy_schema::schema::{
    Schema, TermList, TermRange, bounds_of_text, ranges_of_text, terms_of_text,
};

/// What a clause looks for.
#[derive(Debug, Drop)]
pub enum Wanted {
    /// Documents that have one of these terms.
    Terms(TermList),
    /// Documents that have a term in one of these ranges.
    Ranges(Vec<TermRange>),
}

// What a clause looks for: the path of a field, a colon, and a text or a range.
fn clause(alloc: Global, schema: &Schema, clause: &str) -> Result<Wanted> {
    let Some((path, text)) = clause.split_once(":") else {
        return Err(anyhow!("a clause without a colon"));
    };
    if bounds_of_text(text).is_some() {
        return Ok(Wanted::Ranges(ranges_of_text(alloc, schema, path, text)?));
    }
    let mut terms = TermList::new(alloc);
    terms_of_text(alloc, schema, path, text, &mut terms)?;
    Ok(Wanted::Terms(terms))
}

/// What the clauses of a query look for.
pub fn query(alloc: Global, schema: &Schema, text: &str) -> Result<Vec<Wanted>> {
    let mut wanted = Vec::new(alloc);
    for part in text.split(" AND ") {
        wanted.push(clause(alloc, schema, part)?)?;
    }
    Ok(wanted)
}
