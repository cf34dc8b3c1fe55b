//! Laws of dates as texts, each the contract of a function that does nothing.

ghost use Rattle.std.specs.Prelude.{◌≡◌, ℤ, List, ℕ, Some, Ok, FitsSigned};
ghost use Rattle.std.specs.Int.{w64};
ghost use Rattle.std.specs.Ordering.{nat_cmp};
ghost use Rattle.tv_date.specs.DateTime.{unit_of};
ghost use Rattle.tv_date.specs.Rfc3339.{fields, rfc};
ghost use Rattle.tv_date.specs.Shape.{HasShape};
ghost use Rattle.tv_date.specs.Printed.{IsPrinted, moment_text};
ghost use Rattle.tv_date.specs.declared.rfc3339.DateFields.{DateFields as Fields};

use crate::date_time::DateTimePrecision;
use std::cmp::Ordering;

/// Precisions rise from seconds to nanoseconds: one is below another exactly where its unit is longer.
pub fn precisions_compare_by_their_units(
    one: DateTimePrecision,
    other: DateTimePrecision,
) -> Ordering
    ensures { result ≡ nat_cmp (unit_of other) (unit_of one) }
{
    one.cmp(&other)
}

/// A text is read exactly where numbers have its shape, and then as those.
pub fn dates_are_read_by_their_shape()
    ensures read { (text : List ℕ) (s : Fields) → fields text ≡ Some s → HasShape text s }
    ensures again { (text : List ℕ) (s : Fields) → HasShape text s → fields text ≡ Some s }
{}

/// A moment is printed as one text.
pub fn dates_have_one_text()
    ensures { (z : ℤ) (a b : List ℕ) → IsPrinted z a → IsPrinted z b → a ≡ b }
{}

/// The text of a date is read as that date.
pub fn printed_dates_are_read()
    ensures { (z : ℤ) → FitsSigned w64 z → rfc (moment_text z) ≡ Ok z }
{}
