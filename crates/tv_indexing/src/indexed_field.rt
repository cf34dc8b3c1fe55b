//! The field that a path of a query names, where it is indexed.

ghost use Rattle.std.specs.Prelude.{◌≡◌, Err, None};
ghost use Rattle.tv_indexing.specs.IndexedField.{FindsField};
ghost use Rattle.tv_indexing.specs.Unless.{Unless};
ghost use Rattle.tv_indexing.specs.declared.text_terms_error.TextTermsError.TheVariants.{Memory};
ghost use Rattle.tv_schema.specs.Path.{find_or};

use crate::text_terms_error::{TextTermsError, unknown_path};
use std::alloc::Global;
use std::marker::Model;
use tv_field::FieldType;
use tv_schema::Schema;
use tv_value::Field;

/// A field that is indexed, as a path of a query names it. (Not in tantivy.)
///
/// The path is looked up once, and then each text of a query has its terms and ranges here: those that `terms_of_text` and its like give it at that
/// path. It borrows the schema and the path, and takes no memory.
///
/// ```
/// pub fn terms_of_prices(alloc: Global, schema: &Schema, prices: &[&str]) -> Result<TermList> {
///     let field = IndexedField::of(alloc, schema, "price")?;
///     let mut terms = TermList::new(alloc);
///     for price in prices {
///         field.terms(alloc, price, &mut terms)?;
///     }
///     Ok(terms)
/// }
/// ```
#[derive(Drop)]
pub struct IndexedField<'s, 'p> {
    pub(crate) field: Field,
    pub(crate) field_type: &'s FieldType,
    // The path into the field's JSON objects.
    pub(crate) rest: &'p str,
}

impl<'s, 'p> Model for IndexedField<'s, 'p> {
    ghost use Rattle.tv_indexing.specs.IndexedField.{FoundField};

    ghost Value = { FoundField };

    ghost view = { λ at. record { field = at.field; type = at.field_type.now; rest = at.rest.now } };
}

impl<'s, 'p> IndexedField<'s, 'p> {
    /// The field that `path` names in `schema`, as `Schema::find_field` reads it.
    ///
    /// Errors: `UnknownPath`, where the path names no field; `NotIndexed`; or `Memory`, which comes only in place of `UnknownPath`.
    pub fn of(
        alloc: Global,
        schema: &'s Schema,
        path: &'p str,
    ) -> Result<IndexedField<'s, 'p>, TextTermsError>
        ensures field { Unless Memory (FindsField schema.now path.now) result }
        ensures memory { result ≡ Err Memory → find_or schema.now path.now None ≡ None }
    {
        let Some((field, rest)) = schema.find_field_with_default(path, None) else {
            return Err(unknown_path(alloc, path));
        };
        let field_type = schema.get_field_entry(field).field_type();
        if !field_type.is_indexed() {
            return Err(TextTermsError::NotIndexed(field));
        }
        Ok(IndexedField {
            field,
            field_type,
            rest,
        })
    }

    /// The field that the path names.
    pub fn field(&self) -> Field
        ensures { result ≡ self.now.field }
    {
        self.field
    }

    /// The type of that field.
    pub fn field_type(&self) -> &'s FieldType
        ensures { result.now ≡ self.now.type }
    {
        self.field_type
    }
}
