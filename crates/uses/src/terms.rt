//! Terms and facets.

use anyhow::{Result, anyhow};
use std::alloc::Global;
use std::fmt::Write;
use tantivy_schema::DateTime;
use tantivy_schema::schema::{
    DocumentFacet, Facet, FacetCount, Field, INDEXED, IndexedField, Schema, TEXT, TantivyDocument,
    Term, TermList, TermRange, TermWriter, count_child_documents, count_child_facets,
    greatest_counts, range_of_text, ranges_of_text, term_values, terms_of_text, text_of_term,
};

/// The term of a text at a path into the objects of a JSON field.
pub fn of_path(alloc: Global, field: Field, path: &str, text: &str) -> Result<Term> {
    let mut term = Term::from_field_json_path(alloc, field, path, false)?;
    term.append_type_and_str(text)?;
    Ok(term)
}

/// The term of a number at a path into the objects of a JSON field.
pub fn of_number(alloc: Global, field: Field, path: &str, number: u64) -> Result<Term> {
    let mut term = Term::from_field_json_path(alloc, field, path, false)?;
    term.append_json_number(number)?;
    Ok(term)
}

/// How many value bytes the longest term of some texts has: each is made in the same buffer.
pub fn longest_term(alloc: Global, field: Field, texts: &[&str]) -> Result<usize> {
    let mut writer = TermWriter::new(alloc);
    let mut longest = 0;
    for text in texts {
        writer.write_text(field, text)?;
        longest = longest.max(writer.term().len_bytes());
    }
    Ok(longest)
}

/// How many terms of a dictionary are numbers from 18 to 65 of a field.
pub fn working_ages(alloc: Global, field: Field, dictionary: &[Term]) -> Result<usize> {
    let range = Term::range_of_values(alloc, field, &(18_u64..=65))?;
    let found = dictionary
        .iter()
        .filter(|term| range.contains(term.serialized_term()));
    Ok(found.count())
}

/// The range of the terms of a field's dates from one date to another, as they are indexed.
pub fn dates_between(
    alloc: Global,
    field: Field,
    first: DateTime,
    last: DateTime,
) -> Result<TermRange> {
    Ok(Term::range_of_dates_for_search(alloc, field, &(first..=last))?)
}

/// The terms of a dictionary, which rise, that are a field's.
pub fn terms_of_field<'t>(alloc: Global, terms: &'t [Term], field: Field) -> Result<&'t [Term]> {
    let range = Term::range_of_field(alloc, field)?;
    Ok(range.within(terms))
}

/// The path of a term with the name of its field, and its value, where that is a text.
pub fn shown(schema: &Schema, term: &Term) -> Result<String> {
    if !schema.has_field(term.field()) {
        return Err(anyhow!("a field is not the schema's"));
    }
    let mut shown = term.get_full_path(schema)?;
    write!(shown, " {:?}", term.typ())?;
    Ok(shown)
}

/// Whether a facet is below another: facets are ordered so that those below one are a range of the order.
pub fn is_within(alloc: Global, upper: &str, lower: &str) -> Result<bool> {
    let (upper, lower) = (
        Facet::from_text(alloc, upper)?,
        Facet::from_text(alloc, lower)?,
    );
    Ok(upper.is_prefix_of(&lower))
}

/// The child of a facet that most of the facets are or lie below.
pub fn most_facets<'a>(
    alloc: Global,
    ancestor: &Facet,
    facets: &[&'a [u8]],
) -> Result<Option<FacetCount<'a>>> {
    let counts = count_child_facets(alloc, ancestor.encoded_str().as_bytes(), facets)?;
    Ok(counts.iter().copied().max_by_key(|entry| entry.count))
}

/// The children of a facet that most documents have a facet at or below, three at most, one a line with the number of documents.
pub fn most_documents(
    alloc: Global,
    ancestor: &Facet,
    facets: &[DocumentFacet<'_>],
) -> Result<String> {
    let counts = count_child_documents(alloc, ancestor.encoded_str().as_bytes(), facets)?;
    let mut lines = String::new(alloc);
    for entry in &greatest_counts(alloc, &counts, 3)? {
        writeln!(lines, "{entry}")?;
    }
    Ok(lines)
}

/// The terms of a document's values, one a line, as their bytes.
pub fn indexed_terms(alloc: Global) -> Result<String> {
    let mut builder = Schema::builder(alloc);
    let name = builder.add_text_field("name", TEXT)?;
    let age = builder.add_u64_field("age", INDEXED)?;
    let schema = builder.build()?;

    let mut document = TantivyDocument::new(alloc);
    document.add_text(name, "Ada")?;
    document.add_u64(age, 36)?;

    let mut terms = TermList::new(alloc);
    term_values(alloc, &schema, &document, &mut terms)?;
    let mut lines = String::new(alloc);
    for term in terms.iter() {
        writeln!(lines, "{term:?}")?;
    }
    Ok(lines)
}

/// The terms that a query's text has in the field `price`.
pub fn terms_of_price(alloc: Global, schema: &Schema) -> Result<TermList> {
    let mut terms = TermList::new(alloc);
    terms_of_text(alloc, schema, "price", "12", &mut terms)?;
    Ok(terms)
}

/// The terms that texts of a query have in the field `price`, whose path is looked up once.
pub fn terms_of_prices(alloc: Global, schema: &Schema, prices: &[&str]) -> Result<TermList> {
    let field = IndexedField::of(alloc, schema, "price")?;
    let mut terms = TermList::new(alloc);
    for price in prices {
        field.terms(alloc, price, &mut terms)?;
    }
    Ok(terms)
}

/// The range of the terms of a facet of the field `category`, as `/lang/fr`, and of the facets below it.
pub fn category_and_below(alloc: Global, schema: &Schema, facet: &str) -> Result<TermRange> {
    let field = IndexedField::of(alloc, schema, "category")?;
    Ok(field.below(alloc, facet)?)
}

/// The texts of the values of terms.
pub fn texts_of_terms(alloc: Global, terms: &TermList) -> Result<Vec<String>> {
    let mut texts = Vec::new(alloc);
    for term in terms.iter() {
        if let Some(text) = text_of_term(alloc, term)? {
            texts.push(text)?;
        }
    }
    Ok(texts)
}

/// The range of the terms that a query's text has in the field `price`: from 10 on, and below 20.
pub fn range_of_prices(alloc: Global, schema: &Schema) -> Result<TermRange> {
    Ok(range_of_text(alloc, schema, "price", "[10 TO 20}")?)
}

/// The ranges of the terms that a query's text has at `size` in the JSON objects of the field `more`: from 10 on.
pub fn ranges_of_size(alloc: Global, schema: &Schema) -> Result<Vec<TermRange>> {
    Ok(ranges_of_text(alloc, schema, "more.size", "[10 TO *]")?)
}

/// The terms of documents as a dictionary has them: in order, and each once.
pub fn dictionary(
    alloc: Global,
    schema: &Schema,
    documents: &[TantivyDocument],
) -> Result<TermList> {
    let mut terms = TermList::new(alloc);
    for document in documents {
        term_values(alloc, schema, document, &mut terms)?;
    }
    terms.sort_dedup();
    Ok(terms)
}
