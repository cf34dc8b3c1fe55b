//! Terms of texts of queries, by the types of their fields.

ghost use Rattle.std.specs.Prelude.{◌≡◌, ◌≢◌, [], drop, false, Err, IfErr, IfSome, OnErr, OnOk, option_map, List};
ghost use Rattle.std.specs.List.{AllByRecursion};
ghost use Rattle.tv_base.specs.JsonPath.{joined_path};
ghost use Rattle.tv_date.specs.Rfc3339.{rfc};
ghost use Rattle.tv_field.specs.JsonTable.{truth_in};
ghost use Rattle.tv_format.specs.Tree.{Leaf};
ghost use Rattle.tv_indexing.specs.DocumentTerms.{AreAppended, has_zero, plain_terms};
ghost use Rattle.tv_indexing.specs.JsonWalk.{ExtendsPath};
ghost use Rattle.tv_indexing.specs.LeafTerms.{json_value, leaf_value};
ghost use Rattle.tv_indexing.specs.TakesMemory.{TakesMemory, TakesMemoryIn};
ghost use Rattle.tv_indexing.specs.Tells.{UnlessFirst};
ghost use Rattle.tv_indexing.specs.TextTerms.{TermsBelow, TermOfText, AnswersText, TermsInField, AppendsAnswer, WritesLeaves, WritesNumber, date_written_in};
ghost use Rattle.tv_indexing.specs.TextTerms.{leaves_terms, listed};
ghost use Rattle.tv_indexing.specs.Unless.{Unless};
ghost use Rattle.tv_indexing.specs.declared.document.TermValuesError.TheVariants as values;
ghost use Rattle.tv_indexing.specs.declared.text_terms_error.TextTermsError.TheVariants.{Memory};
ghost use Rattle.tv_term.specs.Key.{Fits};
ghost use Rattle.tv_value.specs.Lent.{leaf_of};

use crate::document::TermValuesError;
use crate::indexed_field::IndexedField;
use crate::json::JsonField;
use crate::json_leaf::visit_json_leaf;
use crate::plain::visit_leaf;
use crate::term_buffer::TermBuffer;
use crate::term_list::TermList;
use crate::text_terms_error::{TextTermsError, wrong_text};
use std::alloc::Global;
use tv_base::push_joined_json_path;
use tv_date::DateTime;
use tv_field::FieldType;
use tv_field::json_value::{JsonRefusal, JsonScratch, lend_text};
use tv_options::Type;
use tv_schema::Schema;
use tv_value::{Field, ReferenceValueLeaf};

// The number that a text writes in a JSON value, if it writes one.
pub(crate) fn number_written(text: &str) -> Option<ReferenceValueLeaf<'static>>
    ensures { WritesNumber text.now (option_map leaf_of result) }
{
    if let Ok(signed) = text.parse::<i64>() {
        return Some(ReferenceValueLeaf::I64(signed));
    }
    match text.parse::<u64>() {
        Ok(unsigned) => Some(ReferenceValueLeaf::U64(unsigned)),
        Err(_) => None,
    }
}

// Appends the term of a value in a JSON value, if there is one, below the keys in the buffer.
fn push_written(
    terms: &mut TermList,
    buffer: &mut TermBuffer,
    field: Field,
    leaf: Option<ReferenceValueLeaf<'_>>,
) -> Result<(), TermValuesError>
    ensures made { OnOk result (AreAppended terms.old terms.new
        (leaves_terms field (drop 1 buffer.old) (listed (option_map leaf_of leaf.entry)))) }
    ensures refused { IfErr result (λ e. e ≢ values.Memory
        → leaves_terms field (drop 1 buffer.old) (listed (option_map leaf_of leaf.entry)) ≡ Err e) }
    ensures keys { OnOk result (buffer.new ≡ buffer.old) }
    ensures fits { IfSome (option_map leaf_of leaf.entry) (λ l. IfSome (json_value l) Fits) }
    ensures unchanged { OnErr result (terms.new ≡ terms.old) }
{
    match leaf {
        Some(leaf) => visit_json_leaf(terms, buffer, field, leaf),
        None => Ok(()),
    }
}

// The truth value that a text writes in a JSON value, if it writes one.
pub(crate) fn truth_written(text: &str) -> Option<ReferenceValueLeaf<'static>>
    ensures { option_map leaf_of result ≡ truth_in text.now }
{
    match text.parse::<bool>() {
        Ok(truth) => Some(ReferenceValueLeaf::Bool(truth)),
        Err(_) => None,
    }
}

// The date that a text writes in a JSON value, if it writes one.
pub(crate) fn date_written(text: &str) -> Option<ReferenceValueLeaf<'static>>
    ensures { option_map leaf_of result ≡ date_written_in (rfc text.now) }
{
    match DateTime::from_rfc3339(text) {
        Ok(date) => Some(ReferenceValueLeaf::Date(date)),
        Err(_) => None,
    }
}

// Appends the terms of the values that a text writes in a JSON value, below the keys in the buffer. After an error a beginning of them may be
// appended.
fn push_all_written(
    terms: &mut TermList,
    buffer: &mut TermBuffer,
    field: Field,
    text: &str,
) -> Result<(), TermValuesError>
    ensures made { OnOk result ((leaves : List Leaf) × WritesLeaves text.now leaves
        × AllByRecursion (λ l. IfSome (json_value l) Fits) leaves
        × AreAppended terms.old terms.new (leaves_terms field (drop 1 buffer.old) leaves)) }
    ensures kept { OnErr result (ExtendsPath terms.old terms.new) }
{
    push_written(terms, buffer, field, Some(ReferenceValueLeaf::Str(text)))?;
    push_written(terms, buffer, field, number_written(text))?;
    push_written(terms, buffer, field, truth_written(text))?;
    push_written(terms, buffer, field, date_written(text))
}

// Appends the terms of a text at a path below a field of JSON objects. After an error a beginning of them may be appended.
fn push_text_below(
    alloc: Global,
    terms: &mut TermList,
    at: JsonField,
    path: &str,
    text: &str,
) -> Result<(), TextTermsError>
    ensures answers { Unless Memory (AppendsAnswer
        (TermsBelow at.field at.expand_dots path.now text.now) terms.old terms.new) result }
    ensures memory { result ≡ Err Memory → (path.now ≢ []) × (has_zero path.now ≡ false) }
    ensures kept { OnErr result (ExtendsPath terms.old terms.new) }
{
    if path.is_empty() {
        return Err(TextTermsError::PathEnds(at.field));
    }
    if path.as_bytes().contains(&0) {
        return Err(TextTermsError::NulInPath(at.field));
    }
    let mut keys = String::new(alloc);
    push_joined_json_path(path, at.expand_dots, &mut keys)?;
    let mut buffer = TermBuffer::new(alloc);
    buffer.push_key(keys.as_str(), false)?;
    match push_all_written(terms, &mut buffer, at.field, text) {
        Ok(()) => Ok(()),
        Err(_) => Err(TextTermsError::Memory),
    }
}

// Appends the term of a value without children of a field of this type.
fn push_leaf(
    alloc: Global,
    terms: &mut TermList,
    field: Field,
    wanted: Type,
    leaf: ReferenceValueLeaf<'_>,
) -> Result<(), TermValuesError>
    ensures made { OnOk result
        (AreAppended terms.old terms.new
        (plain_terms field wanted (leaf_value (leaf_of leaf.entry)))) }
    ensures refused { IfErr result
        (λ e. e ≢ values.Memory
        → plain_terms field wanted (leaf_value (leaf_of leaf.entry)) ≡ Err e) }
    ensures fits { IfSome (leaf_value (leaf_of leaf.entry)) Fits }
    ensures unchanged { OnErr result (terms.new ≡ terms.old) }
{
    let mut buffer = TermBuffer::new(alloc);
    visit_leaf(terms, &mut buffer, field, wanted, leaf)
}

// Appends the term of a text in a field that isn't of JSON objects.
fn push_plain_text(
    alloc: Global,
    terms: &mut TermList,
    field: Field,
    field_type: &FieldType,
    text: &str,
) -> Result<(), TextTermsError>
    ensures answers { Unless Memory (AppendsAnswer
        (TermOfText field field_type.now text.now) terms.old terms.new) result }
    ensures unchanged { OnErr result (terms.new ≡ terms.old) }
{
    let mut scratch = JsonScratch::new(alloc);
    let value_type = field_type.value_type();
    match lend_text(field_type, text, &mut scratch) {
        Ok(leaf) => match push_leaf(alloc, terms, field, value_type, leaf) {
            Ok(()) => Ok(()),
            Err(_) => Err(TextTermsError::Memory),
        },
        Err(JsonRefusal::Memory) => Err(TextTermsError::Memory),
        Err(refusal) => Err(wrong_text(alloc, field, value_type, refusal, text)),
    }
}

impl IndexedField<'_, '_> {
    // Appends the terms of a text. After an error a beginning of them may be appended.
    fn push_text(
        &self,
        alloc: Global,
        text: &str,
        terms: &mut TermList,
    ) -> Result<(), TextTermsError>
        ensures answers { UnlessFirst Memory (TakesMemoryIn self.now.type)
            (AppendsAnswer (TermsInField self.now text.now) terms.old terms.new) result }
        ensures kept { OnErr result (ExtendsPath terms.old terms.new) }
    {
        let field = self.field;
        match self.field_type {
            FieldType::JsonObject(options) => {
                let expand_dots = options.is_expand_dots_enabled();
                push_text_below(
                    alloc,
                    terms,
                    JsonField { field, expand_dots },
                    self.rest,
                    text,
                )
            }
            other => push_plain_text(alloc, terms, field, other, text),
        }
    }

    /// Appends the terms of a text of a query: those of `terms_of_text`.
    ///
    /// Errors: `PathEnds`, `NulInPath`, `WrongText`; or `Memory`, which of these hides `WrongText` alone. After each the list is as it was.
    pub fn terms(
        &self,
        alloc: Global,
        text: &str,
        terms: &mut TermList,
    ) -> Result<(), TextTermsError>
        ensures answers { UnlessFirst Memory (TakesMemoryIn self.now.type)
            (AppendsAnswer (TermsInField self.now text.now) terms.old terms.new) result }
        ensures unchanged { OnErr result (terms.new ≡ terms.old) }
    {
        let len = terms.len();
        match self.push_text(alloc, text, terms) {
            Ok(()) => Ok(()),
            Err(error) => {
                terms.truncate(len);
                Err(error)
            }
        }
    }
}

/// Appends the terms of a text of a query: those that `term_values` gives to a value that the text writes. (Not in tantivy, whose query
/// parser does so.)
///
/// The path names the field, as `Schema::find_field` reads it. In a field that isn't of JSON objects the text is what the same text in JSON
/// is to such a field that coerces, as in a document: a number in decimal, `true` or `false`, a date by RFC 3339, a facet's path, base64, an
/// address, or itself. It has the one term of that value; a text is whole, and a date is cut to the second. In a field of JSON objects, at a path
/// below it, the text writes itself, and also a number, a truth value and a date where it is the text of one: it has the term of each of these.
///
/// Errors: `UnknownPath`, `NotIndexed`, `PathEnds`, `NulInPath`, `WrongText`; or `Memory`, which of these hides `UnknownPath` and `WrongText` alone.
/// After each the list is as it was.
///
/// ```
/// pub fn terms_of_price(alloc: Global, schema: &Schema) -> Result<TermList> {
///     let mut terms = TermList::new(alloc);
///     terms_of_text(alloc, schema, "price", "12", &mut terms)?;
///     Ok(terms)
/// }
/// ```
pub fn terms_of_text(
    alloc: Global,
    schema: &Schema,
    path: &str,
    text: &str,
    terms: &mut TermList,
) -> Result<(), TextTermsError>
    ensures answers { UnlessFirst Memory (TakesMemory schema.now)
        (AppendsAnswer (AnswersText schema.now path.now text.now) terms.old terms.new) result }
    ensures unchanged { OnErr result (terms.new ≡ terms.old) }
{
    match IndexedField::of(alloc, schema, path) {
        Ok(at) => at.terms(alloc, text, terms),
        Err(error) => Err(error),
    }
}
