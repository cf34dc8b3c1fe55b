//! The terms that a clause of a query wants.

ghost use Rattle.std.specs.Prelude.{◌≡◌, ◌↔◌, ◌∷◌, [], IfOk, IsTrue};
ghost use Rattle.std.specs.List.{Any, Contains};
ghost use Rattle.tv_indexing.specs.Tells.{UnlessFirst};
ghost use Rattle.tv_query.specs.Selections.{AnswersClause, AnswersInField, AreOfFirst, HasTermsOfText, IsWanted, TakesMemory, TakesMemoryAt, has_prefixes, is_of_facets, reason_of};
ghost use Rattle.tv_query.specs.Tokens.{of_prefix, of_range, of_text, wanted_text};
ghost use Rattle.tv_query.specs.declared.query_error.QueryReason.TheVariants.{Memory};
ghost use Rattle.tv_term.specs.Range.{IsIn};

use crate::query_error::QueryReason;
use crate::token::Wanted;
use std::alloc::{AllocError, Global};
use tv_field::FieldType;
use tv_indexing::{IndexedField, TermList, TextTermsError};
use tv_schema::Schema;
use tv_term::TermRange;
use tv_value::Field;

/// The terms that a clause of a query wants: some terms of a field, and ranges of them. (Not in tantivy.)
pub struct Selection {
    field: Field,
    exact: TermList,
    ranges: Vec<TermRange>,
}

impl Drop for Selection {
    fn drop(self) {
        let Selection {
            field: _,
            exact: _,
            ranges: _,
        } = self;
    }
}

// The reason for a clause that the schema refuses.
fn refused(error: TextTermsError) -> QueryReason
    ensures { result ≡ reason_of error }
{
    match error {
        TextTermsError::Memory => QueryReason::Memory,
        other => QueryReason::Clause(other),
    }
}

// Whether a field of this type has facets.
fn is_of_facets(field_type: &FieldType) -> bool
    ensures { result ≡ is_of_facets field_type.now }
{
    matches!(field_type, FieldType::Facet(_))
}

// Whether a field of this type has terms that begin with others.
fn has_prefixes(field_type: &FieldType) -> bool
    ensures { result ≡ has_prefixes field_type.now }
{
    matches!(
        field_type,
        FieldType::Str(_) | FieldType::Facet(_) | FieldType::JsonObject(_)
    )
}

// The one range of a list.
fn one_range(alloc: Global, range: TermRange) -> Result<Vec<TermRange>, AllocError>
    ensures { IfOk result (λ ranges. ranges.items ≡ range ∷ []) }
{
    let mut ranges = Vec::new(alloc);
    ranges.push(range)?;
    Ok(ranges)
}

// The terms of a text.
fn exact_terms(
    alloc: Global,
    at: &IndexedField<'_, '_>,
    text: &str,
) -> Result<TermList, QueryReason>
    ensures { UnlessFirst Memory (TakesMemoryAt at.now.type)
        (HasTermsOfText at.now text.now) result }
{
    let mut exact = TermList::new(alloc);
    match at.terms(alloc, text, &mut exact) {
        Ok(()) => Ok(exact),
        Err(error) => Err(refused(error)),
    }
}

// The range of the terms that begin with the first of these.
fn ranges_of_first(alloc: Global, terms: &TermList) -> Result<Vec<TermRange>, AllocError>
    ensures { IfOk result (λ ranges. AreOfFirst terms.now ranges.items) }
{
    match terms.get(0) {
        Some(first) => {
            let range = TermRange::of_prefix(alloc, first)?;
            one_range(alloc, range)
        }
        None => Ok(Vec::new(alloc)),
    }
}

// What a text wants.
fn text_selection(
    alloc: Global,
    at: &IndexedField<'_, '_>,
    text: &str,
) -> Result<Selection, QueryReason>
    ensures { UnlessFirst Memory (TakesMemoryAt at.now.type)
        (AnswersInField at.now (of_text text.now)) result }
{
    let field = at.field();
    if is_of_facets(at.field_type()) {
        return match at.below(alloc, text) {
            Ok(range) => Ok(Selection {
                field,
                exact: TermList::new(alloc),
                ranges: one_range(alloc, range)?,
            }),
            Err(error) => Err(refused(error)),
        };
    }
    match exact_terms(alloc, at, text) {
        Ok(exact) => Ok(Selection {
            field,
            exact,
            ranges: Vec::new(alloc),
        }),
        Err(reason) => Err(reason),
    }
}

// What a prefix wants.
fn prefix_selection(
    alloc: Global,
    at: &IndexedField<'_, '_>,
    text: &str,
) -> Result<Selection, QueryReason>
    ensures { UnlessFirst Memory (TakesMemoryAt at.now.type)
        (AnswersInField at.now (of_prefix text.now)) result }
{
    if !has_prefixes(at.field_type()) {
        return Err(QueryReason::NoPrefix);
    }
    match exact_terms(alloc, at, text) {
        Ok(terms) => Ok(Selection {
            field: at.field(),
            exact: TermList::new(alloc),
            ranges: ranges_of_first(alloc, &terms)?,
        }),
        Err(reason) => Err(reason),
    }
}

// What a range wants.
fn range_selection(
    alloc: Global,
    at: &IndexedField<'_, '_>,
    text: &str,
) -> Result<Selection, QueryReason>
    ensures { UnlessFirst Memory (TakesMemoryAt at.now.type)
        (AnswersInField at.now (of_range text.now)) result }
{
    match at.ranges_of_text(alloc, text) {
        Ok(ranges) => Ok(Selection {
            field: at.field(),
            exact: TermList::new(alloc),
            ranges,
        }),
        Err(error) => Err(refused(error)),
    }
}

impl Selection {
    /// The terms that are wanted at a path of `schema`. The path is looked up once, before what is wanted there is read.
    ///
    /// Errors: `Clause`, where the schema refuses the path or the text; `NoPrefix`, where a prefix is wanted of an indexed field that is neither of
    /// texts nor of facets nor of JSON objects; or `Memory`, which hides only a `Clause` of a path that names no field, of a text that is no value or no
    /// range, or of bounds that run backwards in a field that isn't of JSON objects.
    pub fn of(
        alloc: Global,
        schema: &Schema,
        path: &str,
        wanted: Wanted<'_>,
    ) -> Result<Selection, QueryReason>
        ensures { UnlessFirst Memory (TakesMemory schema.now)
            (AnswersClause schema.now path.now (wanted_text wanted.entry)) result }
    {
        let at = match IndexedField::of(alloc, schema, path) {
            Ok(at) => at,
            Err(error) => return Err(refused(error)),
        };
        match wanted {
            Wanted::Text(text) => text_selection(alloc, &at, text),
            Wanted::Prefix(text) => prefix_selection(alloc, &at, text),
            Wanted::Range(text) => range_selection(alloc, &at, text),
        }
    }

    /// The field that the path names, whose terms are wanted.
    pub fn field(&self) -> Field
        ensures { result ≡ self.now.field }
    {
        self.field
    }

    // Whether this is one of the terms of the text.
    fn has_exact(&self, term: &[u8]) -> bool
        ensures { IsTrue result ↔ Contains self.now.exact term.now }
    {
        for exact in self.exact.iter() {
            if exact == term {
                return true;
            }
        }
        false
    }

    // Whether the term is in one of the ranges.
    fn has_range(&self, term: &[u8]) -> bool
        ensures { IsTrue result ↔ Any (λ range. IsIn range term.now) self.now.ranges.items }
    {
        for range in &self.ranges {
            if range.contains(term) {
                return true;
            }
        }
        false
    }

    /// Whether this term is wanted.
    pub fn contains(&self, term: &[u8]) -> bool
        ensures { IsTrue result ↔ IsWanted self.now term.now }
    {
        self.has_exact(term) || self.has_range(term)
    }
}
