//! Values of eight bytes.

ghost use Rattle.std.specs.Prelude.{ℕ, ◌≡◌, ◌<◌, ◌^◌, refl};
ghost use Rattle.std.specs.Ordering.{nat_cmp};
ghost use Rattle.tv_options.specs.declared.types.TypeTag.{TypeTag};
ghost use Rattle.tv_options.specs.declared.types.TypeTag.TheVariants as tag;
ghost use Rattle.tv_term.specs.FastValue.{IsFastType, StandsAs};
ghost use Rattle.tv_term.specs.FastValueLaws.{from_least-order, from_least-fits, signed_at-from_least, truth_number-order, truth_number-fits};
ghost use Rattle.tv_term.specs.FastValueLaws.{is_true-truth_number, date-again};
ghost use Rattle.tv_term.specs.Key.{TermValue, Unsigned, Signed, Truth, Date, Fits, from_least, truth_number};
ghost use Rattle.tv_term.specs.Reading.{signed_at, is_true};

use tv_date::DateTime;
use tv_options::Type;

/// A value that stands in a term as a number of eight bytes, whose order is the order of the values.
///
/// Each implementation proves it: the type is `U64`, `I64`, `Bool` or `Date`, the number is below 2^64, two values compare as
/// their numbers, and `from_u64` gives the value of which `to_u64` gave the number.
pub trait FastValue: Copy + Ord {
    /// The type whose code stands before the number.
    ghost type_tag: { TypeTag };

    /// What the value is in a term.
    ghost as_value: { Self → TermValue };

    /// The number of a value.
    ghost as_number: { Self → ℕ };

    /// The value of a number.
    ghost of_number: { ℕ → Self };

    /// The type whose code stands before the number.
    fn to_type() -> Type
        ensures { result ≡ type_tag };

    /// The number of the value.
    fn to_u64(&self) -> u64
        ensures number { result ≡ as_number self.now }
        ensures fits { Fits (as_value self.now) };

    /// The value of a number. Each number has one.
    fn from_u64(number: u64) -> Self
        ensures value { result ≡ of_number number }
        ensures fits { Fits (as_value result) };

    /// The type is that of values of eight bytes.
    ghost is_fast: { IsFastType type_tag };

    /// The type and the number are those of the value in a term.
    ghost stands: { (x : Self) → StandsAs (as_value x) type_tag (as_number x) };

    /// The number is of eight bytes.
    ghost is_small: { (x : Self) → Fits (as_value x) → as_number x < 2 ^ 64 };

    /// The value is that of its number.
    ghost is_read_back: { (x : Self) → Fits (as_value x) → of_number (as_number x) ≡ x };

    /// Values are ordered as their numbers.
    ghost is_ordered: { (x y : Self) → Fits (as_value x) → Fits (as_value y)
        → Self.cmp x y ≡ nat_cmp (as_number x) (as_number y) };
}

/// The number itself.
impl FastValue for u64 {
    ghost type_tag = { tag.U64 };

    ghost as_value = { Unsigned };

    ghost as_number = { λ n. n };

    ghost of_number = { λ n. n };

    ghost is_fast = { tt };

    ghost stands = { λ n. record { type_is = refl; payload_is = refl } };

    ghost is_small = { λ n fits. fits };

    ghost is_read_back = { λ n fits. refl };

    ghost is_ordered = { λ m n m_fits n_fits. refl };

    fn to_type() -> Type {
        Type::U64
    }

    fn to_u64(&self) -> u64 {
        *self
    }

    fn from_u64(number: u64) -> u64 {
        number
    }
}

/// The number counted from -2^63.
impl FastValue for i64 {
    ghost type_tag = { tag.I64 };

    ghost as_value = { Signed };

    ghost as_number = { from_least };

    ghost of_number = { signed_at };

    ghost is_fast = { tt };

    ghost stands = { λ z. record { type_is = refl; payload_is = refl } };

    ghost is_small = { from_least-fits };

    ghost is_read_back = { signed_at-from_least };

    ghost is_ordered = { from_least-order };

    fn to_type() -> Type {
        Type::I64
    }

    fn to_u64(&self) -> u64 {
        from_least(*self)
    }

    fn from_u64(number: u64) -> i64 {
        signed_at(number)
    }
}

/// 0 for false and 1 for true; each number but 0 is read as true.
impl FastValue for bool {
    ghost type_tag = { tag.Bool };

    ghost as_value = { Truth };

    ghost as_number = { truth_number };

    ghost of_number = { is_true };

    ghost is_fast = { tt };

    ghost stands = { λ b. record { type_is = refl; payload_is = refl } };

    ghost is_small = { λ b fits. truth_number-fits b };

    ghost is_read_back = { λ b fits. is_true-truth_number b };

    ghost is_ordered = { λ a b a_fits b_fits. truth_number-order a b };

    fn to_type() -> Type {
        Type::Bool
    }

    fn to_u64(&self) -> u64 {
        u64::from(*self)
    }

    fn from_u64(number: u64) -> bool {
        number != 0
    }
}

/// The nanoseconds, counted from -2^63.
impl FastValue for DateTime {
    ghost type_tag = { tag.Date };

    ghost as_value = { λ date. Date date.nanoseconds };

    ghost as_number = { λ date. from_least date.nanoseconds };

    ghost of_number = { λ n. record { nanoseconds = signed_at n } };

    ghost is_fast = { tt };

    ghost stands = { λ date. record { type_is = refl; payload_is = refl } };

    ghost is_small = { λ date fits. from_least-fits date.nanoseconds fits };

    ghost is_read_back = { date-again };

    ghost is_ordered = { λ one other one_fits other_fits. from_least-order one.nanoseconds
        other.nanoseconds one_fits other_fits };

    fn to_type() -> Type {
        Type::Date
    }

    fn to_u64(&self) -> u64 {
        from_least(self.into_timestamp_nanos())
    }

    fn from_u64(number: u64) -> DateTime {
        DateTime::from_timestamp_nanos(signed_at(number))
    }
}

// The number counted from the least one, which keeps the order.
fn from_least(value: i64) -> u64
    ensures { result ≡ from_least value }
{
    value.cast_unsigned().wrapping_add(1 << 63)
}

// The number that stands at this place, from the least one on.
fn signed_at(place: u64) -> i64
    ensures { result ≡ signed_at place }
{
    place.wrapping_add(1 << 63).cast_signed()
}
