//! Terms of values without children in values of fields of JSON objects.

ghost use Rattle.std.specs.Prelude.{◌≡◌, ◌≢◌, ◌^◌, ℕ, List, drop, Err, IfErr, IfOk, IfSome, None, OnErr, OnOk, []};
ghost use Rattle.tv_indexing.specs.DocumentTerms.{json_leaf_terms, value_terms};
ghost use Rattle.tv_indexing.specs.LeafTerms.{json_value, leaf_value};
ghost use Rattle.tv_indexing.specs.Visits.{TakesTerms, TakesAll};
ghost use Rattle.tv_indexing.specs.declared.document.TermValuesError.TheVariants.{Memory};
ghost use Rattle.tv_term.specs.Key.{Fits};
ghost use Rattle.tv_value.specs.Lent.{leaf_of};

use crate::document::{TermValuesError, TermVisitor};
use crate::leaf::payload_of;
use crate::term_buffer::TermBuffer;
use tv_value::{Field, ReferenceValueLeaf};

// The least number that fits no signed one of 64 bits.
const SIGNED_END: u64 = 1 << 63;

// The value that the term of a leaf in a JSON value stands for, or `NoJsonTerm`.
fn json_leaf(
    field: Field,
    leaf: ReferenceValueLeaf<'_>,
) -> Result<ReferenceValueLeaf<'_>, TermValuesError>
    ensures stands { IfOk result
        (λ value. (path : List ℕ) → json_leaf_terms field path (leaf_of leaf.entry)
        ≡ value_terms field path (leaf_value (leaf_of value))) }
    ensures value { IfOk result
        (λ value. json_value (leaf_of leaf.entry) ≡ leaf_value (leaf_of value)) }
    ensures no_value { OnErr result (json_value (leaf_of leaf.entry) ≡ None) }
    ensures refused { IfErr result
        (λ e. (path : List ℕ) → json_leaf_terms field path (leaf_of leaf.entry) ≡ Err e) }
{
    match leaf {
        ReferenceValueLeaf::U64(number) if number < SIGNED_END => {
            Ok(ReferenceValueLeaf::I64(number as i64))
        }
        ReferenceValueLeaf::Facet(_)
        | ReferenceValueLeaf::Bytes(_)
        | ReferenceValueLeaf::IpAddr(_)
        | ReferenceValueLeaf::PreTokStr(_) => Err(TermValuesError::NoJsonTerm(field)),
        other => Ok(other),
    }
}

// Gives the visitor the term of a value without children in a JSON value, if it has one, below the keys in the buffer.
pub(crate) fn visit_json_leaf<V: TermVisitor>(
    visitor: &mut V,
    buffer: &mut TermBuffer,
    field: Field,
    leaf: ReferenceValueLeaf<'_>,
) -> Result<(), TermValuesError>
    ensures made { OnOk result (TakesAll V.has_taken visitor.old visitor.new
        (json_leaf_terms field (drop 1 buffer.old) (leaf_of leaf.entry))) }
    ensures keys { OnOk result (buffer.new ≡ buffer.old) }
    ensures refused { IfErr result
        (λ e. e ≢ Memory → json_leaf_terms field (drop 1 buffer.old) (leaf_of leaf.entry) ≡ Err e) }
    ensures fits { IfSome (json_value (leaf_of leaf.entry)) Fits }
    ensures untaken { OnErr result (TakesTerms V.has_taken visitor.old visitor.new []) }
{
    let Some((value_type, payload)) = payload_of(json_leaf(field, leaf)?) else {
        return Ok(());
    };
    buffer.visit_below(visitor, field, value_type, payload.as_slice())?;
    Ok(())
}
