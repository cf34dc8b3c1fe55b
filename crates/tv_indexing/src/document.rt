//! Terms of documents.

ghost use Rattle.std.specs.Prelude.{◌≡◌, ◌≢◌, ◌∷◌, ◌≤◌, [], ℕ, List, length, false, slice_get, Err, IfErr, IfOk, None, OnErr, OnOk, Some};
ghost use Rattle.tv_doc.specs.Document.{document_of};
ghost use Rattle.tv_heap.specs.Value.{tree_of};
ghost use Rattle.tv_indexing.specs.DocumentMemory.{IsBelowKeys, IsFoundLate, is_passed, is_unindexed};
ghost use Rattle.tv_indexing.specs.DocumentTerms.{AppendsOrRefuses, document_terms, fields_terms, is_among, is_wanted, pair_terms, wanted_pair_terms, wanted_terms};
ghost use Rattle.tv_indexing.specs.TermFault.{document_fault};
ghost use Rattle.tv_indexing.specs.Tells.{UnlessFirst};
ghost use Rattle.tv_indexing.specs.Visits.{TakesTerms, TakesAll, TakesOrRefuses, TakesSome};
ghost use Rattle.tv_indexing.specs.declared.document.TermValuesError.{TermValuesError};
ghost use Rattle.tv_indexing.specs.declared.document.TermValuesError.TheVariants.{Memory};

use crate::json::{JsonField, OpenList, visit_json};
use crate::plain::visit_value;
use crate::term_buffer::TermBuffer;
use crate::term_list::TermList;
use std::alloc::{AllocError, Global};
use thiserror::Error;
use tv_doc::CompactDoc;
use tv_field::FieldType;
use tv_heap::value::CompactDocValue;
use tv_schema::Schema;
use tv_value::Field;

/// Takes the terms of a document, one after the other, as `visit_terms` makes them: a list of them, say, or a test whether one is wanted. (Not in
/// tantivy.)
pub trait TermVisitor {
    /// That since it was `start`, the first argument, it has taken these terms, in this order, and is now the second.
    ghost has_taken: { Self → Self → List (List ℕ) → Type 0 };

    /// Takes a term, which has at least five bytes: the number of a field and the code of a type.
    ///
    /// The only error is that memory was refused. After it the term isn't taken.
    fn visit(&mut self, term: &[u8]) -> Result<(), AllocError>
        requires { 5 ≤ length term.now }
        ensures made { OnOk result (TakesTerms has_taken self.old self.new (term.now ∷ [])) }
        ensures untaken { OnErr result (TakesTerms has_taken self.old self.new []) };
}

// Gives the visitor the terms of a value of a field. After an error a beginning of them may be taken.
fn visit_field<'a, V: TermVisitor>(
    visitor: &mut V,
    schema: &Schema,
    buffer: &mut TermBuffer,
    around: &mut Vec<OpenList<'a>>,
    field: Field,
    value: CompactDocValue<'a>,
) -> Result<(), TermValuesError>
    ensures made { OnOk result (TakesAll V.has_taken visitor.old visitor.new
        (pair_terms schema.now (field.id, tree_of value.entry))) }
    ensures refused { IfErr result
        (λ e. e ≢ Memory → pair_terms schema.now (field.id, tree_of value.entry) ≡ Err e) }
    ensures memory { result ≡ Err Memory → (is_unindexed (slice_get schema.now field.id) ≡ false)
        × ((why : TermValuesError)
        → pair_terms schema.now (field.id, tree_of value.entry) ≡ Err why → IsBelowKeys why) }
    ensures kept { OnErr result (TakesSome V.has_taken visitor.old visitor.new) }
{
    if !schema.has_field(field) {
        return Err(TermValuesError::UnknownField(field));
    }
    let field_type = schema.get_field_entry(field).field_type();
    if !field_type.is_indexed() {
        return Ok(());
    }
    match field_type {
        FieldType::JsonObject(options) => {
            let expand_dots = options.is_expand_dots_enabled();
            visit_json(
                visitor,
                JsonField { field, expand_dots },
                buffer,
                around,
                value,
            )
        }
        other => visit_value(visitor, buffer, field, other.value_type(), value),
    }
}

/// Whether a field is among these, by looking through them. (Not in tantivy.)
pub fn is_among(fields: &[Field], field: Field) -> bool
    ensures { result ≡ is_among fields.now field.id }
{
    fields.iter().any(|one| one.field_id() == field.field_id())
}

// Whether a field is among the wanted ones: each is, where none are named.
fn is_wanted(wanted: Option<&[Field]>, field: Field) -> bool
    ensures { result ≡ is_wanted wanted.entry field.id }
{
    match wanted {
        Some(fields) => is_among(fields, field),
        None => true,
    }
}

// Gives the visitor the terms of a value of a field, if that is wanted. After an error a beginning of them may be taken.
fn visit_wanted<'a, V: TermVisitor>(
    visitor: &mut V,
    schema: &Schema,
    wanted: Option<&[Field]>,
    buffer: &mut TermBuffer,
    around: &mut Vec<OpenList<'a>>,
    field: Field,
    value: CompactDocValue<'a>,
) -> Result<(), TermValuesError>
    ensures made { OnOk result (TakesAll V.has_taken visitor.old visitor.new
        (wanted_pair_terms schema.now wanted.entry (field.id, tree_of value.entry))) }
    ensures refused { IfErr result
        (λ e. e ≢ Memory
        → wanted_pair_terms schema.now wanted.entry (field.id, tree_of value.entry) ≡ Err e) }
    ensures memory { result ≡ Err Memory → (is_passed schema.now wanted.entry field.id ≡ false)
        × ((why : TermValuesError)
        → pair_terms schema.now (field.id, tree_of value.entry) ≡ Err why → IsBelowKeys why) }
    ensures kept { OnErr result (TakesSome V.has_taken visitor.old visitor.new) }
{
    if is_wanted(wanted, field) {
        visit_field(visitor, schema, buffer, around, field, value)
    } else {
        Ok(())
    }
}

/// Gives a visitor the terms of a document's values, one after the other in the document's order, as `term_values` appends them; where fields are
/// named, those of the values of these alone, as `term_values_of_fields`. (Not in tantivy.)
///
/// One term is held at a time, and the keys above a value of a field of JSON objects once for all the values below them. So it takes memory in
/// proportion to what the document has, however long its terms are together.
/// No term is passed over for its length, as tantivy's indexer passes over a token of more than 65,530 bytes: that is the visitor's to do.
///
/// Errors: those of `term_values`, of the named fields alone, for the first value that has one; or `Memory`, also where the visitor returns an
/// error. After each the visitor may have taken terms of the document. `Memory` doesn't hide that the first value which is looked at is of no field, or
/// not of its field's type.
pub fn visit_terms<V: TermVisitor>(
    alloc: Global,
    schema: &Schema,
    fields: Option<&[Field]>,
    document: &CompactDoc,
    visitor: &mut V,
) -> Result<(), TermValuesError>
    ensures answers { UnlessFirst Memory
        (IsFoundLate schema.now fields.entry (document_of document.now))
        (TakesOrRefuses V.has_taken visitor.old visitor.new
        (wanted_terms schema.now fields.entry (document_of document.now))) result }
    ensures kept { OnErr result (TakesSome V.has_taken visitor.old visitor.new) }
{
    let mut buffer = TermBuffer::new(alloc);
    let mut around = Vec::new(alloc);
    for (field, value) in document.field_values() {
        visit_wanted(
            visitor,
            schema,
            fields,
            &mut buffer,
            &mut around,
            field,
            value,
        )?;
    }
    Ok(())
}

// Appends the terms of a document's values, of the wanted fields or of all.
fn append_terms(
    alloc: Global,
    schema: &Schema,
    wanted: Option<&[Field]>,
    document: &CompactDoc,
    terms: &mut TermList,
) -> Result<(), TermValuesError>
    ensures answers { UnlessFirst Memory
        (IsFoundLate schema.now wanted.entry (document_of document.now))
        (AppendsOrRefuses terms.old terms.new
        (wanted_terms schema.now wanted.entry (document_of document.now))) result }
    ensures unchanged { OnErr result (terms.new ≡ terms.old) }
{
    let len = terms.len();
    match visit_terms(alloc, schema, wanted, document, terms) {
        Ok(()) => Ok(()),
        Err(error) => {
            terms.truncate(len);
            Err(error)
        }
    }
}

/// Appends the terms of a document's values, in the document's order, as an index has them. (In tantivy they are made where a document is
/// indexed.)
///
/// A text is whole, and one with tokens has the term of its text: to cut texts into words is the caller's. A facet has its own term, and not those of the
/// facets above it. A date is cut to the second. A field that isn't indexed has no terms, whatever its values are.
///
/// A field of JSON objects takes every value. Each value without children in it has a term after the path of the keys above it, which are
/// taken as they stand; where the field's dots are expanded, a dot in a key parts it. Null has none. A number without a sign that fits one
/// with a sign stands as one with a sign.
///
/// Errors, the first that a value in this order has: `UnknownField`, `WrongType`, `NulInPath`, `NoJsonTerm`; or `Memory`, which doesn't hide that the
/// first value of an indexed field is of no field or not of its field's type. After each the list is as it was. However deep a value nests, it takes memory and no more of the machine's stack.
///
/// ```
/// pub fn indexed_terms(alloc: Global) -> Result<String> {
///     let mut builder = Schema::builder(alloc);
///     let name = builder.add_text_field("name", TEXT)?;
///     let age = builder.add_u64_field("age", INDEXED)?;
///     let schema = builder.build()?;
///
///     let mut document = TantivyDocument::new(alloc);
///     document.add_text(name, "Ada")?;
///     document.add_u64(age, 36)?;
///
///     let mut terms = TermList::new(alloc);
///     term_values(alloc, &schema, &document, &mut terms)?;
///     let mut lines = String::new(alloc);
///     for term in terms.iter() {
///         writeln!(lines, "{term:?}")?;
///     }
///     Ok(lines)
/// }
/// ```
pub fn term_values(
    alloc: Global,
    schema: &Schema,
    document: &CompactDoc,
    terms: &mut TermList,
) -> Result<(), TermValuesError>
    ensures answers { UnlessFirst Memory
        (IsFoundLate schema.now None (document_of document.now))
        (AppendsOrRefuses terms.old terms.new
        (document_terms schema.now (document_of document.now))) result }
    ensures unchanged { OnErr result (terms.new ≡ terms.old) }
{
    append_terms(alloc, schema, None, document, terms)
}

/// Appends the terms of those values of a document whose fields are named, in the document's order, as `term_values` appends those of all. A field
/// may be named twice, or be in no document. (Not in tantivy.)
///
/// The values of other fields are passed over, whatever they are. The fields are looked through for each value.
///
/// Errors: those of `term_values`, of the named fields alone. After each the list is as it was.
pub fn term_values_of_fields(
    alloc: Global,
    schema: &Schema,
    fields: &[Field],
    document: &CompactDoc,
    terms: &mut TermList,
) -> Result<(), TermValuesError>
    ensures answers { UnlessFirst Memory
        (IsFoundLate schema.now (Some fields.entry) (document_of document.now))
        (AppendsOrRefuses terms.old terms.new
        (fields_terms schema.now fields.now (document_of document.now))) result }
    ensures unchanged { OnErr result (terms.new ≡ terms.old) }
{
    append_terms(alloc, schema, Some(fields), document, terms)
}

// Keeps nothing of the terms that it takes.
#[derive(Drop)]
struct Passing;

impl TermVisitor for Passing {
    ghost has_taken = { λ _ _ _. Unit {0} };

    fn visit(&mut self, _term: &[u8]) -> Result<(), AllocError> {
        Ok(())
    }
}

/// Why a value of a document has no term, so that the document can't be searched: the error that `term_values` returns for the first such value, and
/// `None` where each value of an indexed field has its terms. Values of a field that isn't indexed have no fault. (Not in tantivy.)
///
/// The only error is that memory was refused: it takes memory for one term, and not for all. However deep a value nests, it takes no more of the
/// machine's stack.
pub fn term_fault(
    alloc: Global,
    schema: &Schema,
    document: &CompactDoc,
) -> Result<Option<TermValuesError>, AllocError>
    ensures { IfOk result
        (λ fault. fault ≡ document_fault schema.now (document_of document.now)) }
{
    match visit_terms(alloc, schema, None, document, &mut Passing) {
        Ok(()) => Ok(None),
        Err(TermValuesError::Memory) => Err(AllocError),
        Err(fault) => Ok(Some(fault)),
    }
}

/// Why a document's values have no terms. (Not in tantivy.)
#[derive(Clone, Copy, Debug, PartialEq, Eq, Error)]
pub enum TermValuesError {
    /// The schema has no such field.
    #[error("the schema has no such field")]
    UnknownField(Field),
    /// A value isn't of its field's type. (A field of JSON objects takes every value.)
    #[error("a value isn't of its field's type")]
    WrongType(Field),
    /// A key in a value of a field of JSON objects has U+0000, which ends the path in a term.
    #[error("a key has U+0000")]
    NulInPath(Field),
    /// In a value of a field of JSON objects stands a facet, bytes, an IP address or a text with tokens. There are no terms for these there.
    /// (tantivy panics.)
    #[error("a value that has no term stands in a JSON value")]
    NoJsonTerm(Field),
    /// Memory was refused.
    #[error("memory was refused")]
    Memory,
}

impl From<AllocError> for TermValuesError {
    ghost use Rattle.tv_indexing.specs.declared.document.TermValuesError.TheVariants.{Memory};

    ghost from_gives = { λ _ error. error ≡ Memory };

    fn from(_: AllocError) -> TermValuesError {
        TermValuesError::Memory
    }
}
