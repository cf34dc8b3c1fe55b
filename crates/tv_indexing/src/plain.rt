//! Terms of values of fields that aren't of JSON objects.

ghost use Rattle.std.specs.Prelude.{◌≡◌, ◌≢◌, ◌++◌, ◌∷◌, [], Err, IfErr, IfSome, OnErr, OnOk};
ghost use Rattle.std.specs.Int.{to_be_bytes, w32};
ghost use Rattle.tv_heap.specs.Value.{tree_of};
ghost use Rattle.tv_indexing.specs.DocumentTerms.{plain_terms};
ghost use Rattle.tv_indexing.specs.LeafTerms.{leaf_value, tree_value};
ghost use Rattle.tv_indexing.specs.Visits.{TakesTerms, TakesAll};
ghost use Rattle.tv_indexing.specs.declared.document.TermValuesError.{TermValuesError};
ghost use Rattle.tv_indexing.specs.declared.document.TermValuesError.TheVariants.{Memory};
ghost use Rattle.tv_term.specs.Key.{Fits};
ghost use Rattle.tv_value.specs.Lent.{leaf_of};

use crate::document::{TermValuesError, TermVisitor};
use crate::leaf::{Payload, payload_of};
use crate::term_buffer::TermBuffer;
use tv_heap::value::CompactDocValue;
use tv_options::Type;
use tv_value::{Field, ReferenceValue, ReferenceValueLeaf, Value};

// The term of what stands for a value in eight bytes.
#[inline(always)]
fn number_term(field: Field, code: u8, number: [u8; 8]) -> [u8; 13]
    ensures { result ≡ to_be_bytes w32 field.id ++ code ∷ number }
{
    let [first, second, third, fourth] = field.field_id().to_be_bytes();
    let [n0, n1, n2, n3, n4, n5, n6, n7] = number;
    [
        first, second, third, fourth, code, n0, n1, n2, n3, n4, n5, n6, n7,
    ]
}

// Gives the visitor the term of a value without children of a field of this type. The keys in the buffer are lost.
#[inline(always)]
pub(crate) fn visit_leaf<V: TermVisitor>(
    visitor: &mut V,
    buffer: &mut TermBuffer,
    field: Field,
    wanted: Type,
    leaf: ReferenceValueLeaf<'_>,
) -> Result<(), TermValuesError>
    ensures made { OnOk result (TakesAll V.has_taken visitor.old visitor.new
        (plain_terms field wanted (leaf_value (leaf_of leaf.entry)))) }
    ensures refused { IfErr result
        (λ e. e ≢ Memory → plain_terms field wanted (leaf_value (leaf_of leaf.entry)) ≡ Err e) }
    ensures memory { result ≡ Err Memory → (why : TermValuesError)
        → plain_terms field wanted (leaf_value (leaf_of leaf.entry)) ≢ Err why }
    ensures fits { IfSome (leaf_value (leaf_of leaf.entry)) Fits }
    ensures untaken { OnErr result (TakesTerms V.has_taken visitor.old visitor.new []) }
{
    let Some((value_type, payload)) = payload_of(leaf) else {
        return Err(TermValuesError::WrongType(field));
    };
    if value_type.to_code() != wanted.to_code() {
        return Err(TermValuesError::WrongType(field));
    }
    if let Payload::Eight(number) = payload {
        visitor.visit(&number_term(field, value_type.to_code(), number))?;
        return Ok(());
    }
    buffer.visit_plain(visitor, field, value_type, payload.as_slice())?;
    Ok(())
}

// Gives the visitor the term of a value of a field of this type, which isn't that of JSON objects. The keys in the buffer are lost.
pub(crate) fn visit_value<V: TermVisitor>(
    visitor: &mut V,
    buffer: &mut TermBuffer,
    field: Field,
    wanted: Type,
    value: CompactDocValue<'_>,
) -> Result<(), TermValuesError>
    ensures made { OnOk result (TakesAll V.has_taken visitor.old visitor.new
        (plain_terms field wanted (tree_value (tree_of value.entry)))) }
    ensures refused { IfErr result
        (λ e. e ≢ Memory → plain_terms field wanted (tree_value (tree_of value.entry)) ≡ Err e) }
    ensures memory { result ≡ Err Memory → (why : TermValuesError)
        → plain_terms field wanted (tree_value (tree_of value.entry)) ≢ Err why }
    ensures untaken { OnErr result (TakesTerms V.has_taken visitor.old visitor.new []) }
{
    match value.as_value() {
        ReferenceValue::Leaf(leaf) => visit_leaf(visitor, buffer, field, wanted, leaf),
        ReferenceValue::Array(_) | ReferenceValue::Object(_) => {
            Err(TermValuesError::WrongType(field))
        }
    }
}
