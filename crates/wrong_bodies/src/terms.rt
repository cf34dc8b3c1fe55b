//! Terms.

ghost use Rattle.std.specs.declared.ops.Bound.TheVariants.{Included};
ghost use Rattle.tantivy_schema.specs.CodeTypes.TypeTag.TheVariants.{I64};
ghost use Rattle.tantivy_schema.specs.Key.{Signed};
ghost use Rattle.tantivy_schema.specs.TermMaking.{GivesRange, GivesTerm};
ghost use Rattle.tantivy_schema.specs.TermRange.{IsBetween};

use std::alloc::Global;
use tantivy_schema::schema::{Field, Term, TermError, TermRange};

/// The term of a signed number is its field and the number as a key. The only error is `Memory`. The law
/// `signed_terms_compare_as_numbers` says that such terms are ordered as their numbers.
pub fn signed_numbers_make_terms(
    alloc: Global,
    field: Field,
    number: i64,
) -> Result<Term, TermError>
    ensures { GivesTerm field.id (Signed number) result }
{
    Term::from_field_i64(alloc, field, number.wrapping_add(0))
}

/// Of all terms, of any field and type, the range of a field's signed numbers from one to another has just those whose value is such a
/// number of that field. The only error is `Memory`.
pub fn ranges_have_just_their_terms(
    alloc: Global,
    field: Field,
    least: i64,
    most: i64,
) -> Result<TermRange, TermError>
    ensures { GivesRange (IsBetween field.id I64 (Included (Signed least))
        (Included (Signed most))) result }
{
    Term::range_of_values(alloc, field, &(least..=most))
}
