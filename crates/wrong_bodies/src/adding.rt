//! Documents that grow.

ghost use Rattle.tantivy_schema.specs.Document.{Adds};
ghost use Rattle.tantivy_schema.specs.Tree.{leaf, text};

use tantivy_schema::schema::document::AddError;
use tantivy_schema::schema::{Field, TantivyDocument, Value};

/// A text is added as a pair after the others, which stay as they are. It is refused only for its true reason.
pub fn texts_are_added(
    document: &mut TantivyDocument,
    field: Field,
    content: &str,
) -> Result<(), AddError>
    ensures { Adds document.old document.new field.id (leaf (text content.now)) result }
{
    match document.add_text(field, content) {
        Ok(()) => Ok(()),
        Err(error) => Err(error),
    }
}

/// A value of any kind is added as a pair after the others. Where it is refused, pairs and heap are unchanged.
pub fn values_are_added<'a, V: Value<'a>>(
    document: &mut TantivyDocument,
    field: Field,
    value: &V,
) -> Result<(), AddError>
    ensures { Adds document.old document.new field.id (V.tree value.now) result }
{
    match document.add_field_value(field, value) {
        Ok(added) => Ok(added),
        Err(refusal) => {
            let _ = document.len();
            Err(refusal)
        }
    }
}
