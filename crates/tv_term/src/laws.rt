//! Laws of terms, each the contract of a function that makes the calls of which it speaks, or of one that does nothing.
//! Where a law has a `Result` and says nothing of errors, its error is `Memory`. One that is given a path into JSON objects
//! returns `NulInPath` exactly where the path has U+0000, and else has that error.

ghost use Rattle.std.specs.Prelude.{◌≡◌, ◌↔◌, ℕ, ℤ, FitsSigned, Bool, List, [], ◌<◌, ◌^◌, ◌++◌, ◌∷◌, Some, IsTrue, IsUtf8, option_map};
ghost use Rattle.std.specs.Int.{to_be_bytes, w64, w128};
ghost use Rattle.std.specs.Net.Addr.{IsIpv6Addr, ipv6_bits, ipv6_segments, segments_of};
ghost use Rattle.std.specs.Option.{option_copied};
ghost use Rattle.std.specs.Ordering.{is_eq, nat_cmp, int_cmp, ordering_then};
ghost use Rattle.std.specs.declared.net.ipv6_addr.Ipv6Addr.{Ipv6Addr};
ghost use Rattle.tv_base.specs.JsonPath.{joined_path};
ghost use Rattle.tv_options.specs.declared.types.TypeTag.TheVariants as tag;
ghost use Rattle.tv_term.specs.FastValue.{IsFastType};
ghost use Rattle.tv_term.specs.Key.{TermValue, Text, Unsigned, Signed, Truth, Date, Facet, Bytes, Address, Json, Fits, HasNoZero, IsTerm, IsJsonTerm};
ghost use Rattle.tv_term.specs.Key.{AppendsCoded, tag_of, coded_value, term, value_cmp};
ghost use Rattle.tv_term.specs.Making.{GivesExactly, GivesAtPath, GivesTermAtPath, GivesTextAtPath};
ghost use Rattle.tv_term.specs.Reading.{unsigned_of, signed_of, truth_of, date_of, bytes_of, address_of, payload_of, json_parts, json_type, json_path};

use crate::fast_value::FastValue;
use crate::term::{Term, TermError};
use crate::value_bytes::ValueBytes;
use std::alloc::Global;
use std::cmp::Ordering;
use std::hash::Hash;
use tv_options::Type;
use tv_value::Field;

/// The type of a fast value is one of values of eight bytes.
pub fn fast_types_are_of_eight_bytes<T: FastValue>() -> Type
    ensures { IsFastType result }
{
    T::to_type()
}

/// The number of a fast value, and the value of that number, which is the same.
pub fn fast_values_are_read_back<T: FastValue>(value: T) -> (u64, T)
    ensures number { result.0 ≡ T.as_number value }
    ensures back { result.1 ≡ T.of_number result.0 }
    ensures equal { result.1 ≡ value }
{
    let number = value.to_u64();
    (number, T::from_u64(number))
}

/// The order of two fast values, and that of their numbers, which is the same.
pub fn fast_values_are_ordered_as_numbers<T: FastValue>(one: T, other: T) -> (Ordering, Ordering)
    ensures values { result.0 ≡ T.cmp one other }
    ensures numbers { result.1 ≡ nat_cmp (T.as_number one) (T.as_number other) }
    ensures equal { result.0 ≡ result.1 }
{
    (one.cmp(&other), one.to_u64().cmp(&other.to_u64()))
}

/// Any two terms that constructors made, those of JSON paths with one appended value each, are ordered by field, then by the
/// code of the type, then by value.
pub fn terms_compare_as_fields_and_values(one: &Term, other: &Term) -> Ordering
    ensures { (f g : ℕ) (a b : TermValue) → IsTerm one.now f a → IsTerm other.now g b →
        result ≡ ordering_then (nat_cmp f g) (value_cmp a b) }
{
    one.cmp(other)
}

/// Two terms of numbers with a sign of one field compare as the numbers.
pub fn signed_terms_compare_as_numbers(
    alloc: Global,
    field: Field,
    one: i64,
    other: i64,
) -> Result<Ordering, TermError>
    ensures { GivesExactly (int_cmp one other) result }
{
    let one = Term::from_field_i64(alloc, field, one)?;
    let other = Term::from_field_i64(alloc, field, other)?;
    Ok(one.cmp(&other))
}

/// A JSON term to which a text was appended is the term of the path and the text.
pub fn appended_texts_make_terms(
    alloc: Global,
    field: Field,
    path: &str,
    expand_dots: bool,
    text: &str,
) -> Result<Term, TermError>
    ensures { GivesTermAtPath field.id expand_dots path.now (Text text.now) result }
{
    let mut term = Term::from_field_json_path(alloc, field, path, expand_dots)?;
    term.append_type_and_str(text)?;
    Ok(term)
}

/// A JSON term to which a fast value was appended is the term of the path and the value.
pub fn appended_fast_values_make_terms<T: FastValue>(
    alloc: Global,
    field: Field,
    path: &str,
    expand_dots: bool,
    value: T,
) -> Result<Term, TermError>
    ensures { GivesTermAtPath field.id expand_dots path.now (T.as_value value) result }
{
    let mut term = Term::from_field_json_path(alloc, field, path, expand_dots)?;
    term.append_type_and_fast_value(value)?;
    Ok(term)
}

/// Fast values after one path compare as the values.
pub fn appended_fast_values_compare_as_values<T: FastValue>(
    alloc: Global,
    field: Field,
    path: &str,
    expand_dots: bool,
    one: T,
    other: T,
) -> Result<Ordering, TermError>
    ensures { GivesAtPath path.now (T.cmp one other) result }
{
    let one = appended_fast_values_make_terms(alloc, field, path, expand_dots, one)?;
    let other = appended_fast_values_make_terms(alloc, field, path, expand_dots, other)?;
    Ok(one.cmp(&other))
}

/// The path of a JSON term with a value is read back.
pub fn json_paths_are_read_back(
    alloc: Global,
    field: Field,
    path: &str,
    expand_dots: bool,
    text: &str,
) -> Result<Option<String>, TermError>
    ensures { GivesTextAtPath path.now (joined_path expand_dots path.now) result }
{
    let mut term = Term::from_field_json_path(alloc, field, path, expand_dots)?;
    term.append_type_and_str(text)?;
    Ok(term.get_json_path()?)
}

/// A text that was appended to a JSON term is read back.
pub fn appended_texts_are_read_back(
    alloc: Global,
    field: Field,
    path: &str,
    expand_dots: bool,
    text: &str,
) -> Result<Option<String>, TermError>
    ensures { GivesTextAtPath path.now text.now result }
{
    let term = appended_texts_make_terms(alloc, field, path, expand_dots, text)?;
    match text_behind_path(&term) {
        Some(found) => Ok(Some(String::from_str(alloc, found)?)),
        None => Ok(None),
    }
}

// The text after the path of a JSON term.
fn text_behind_path(term: &Term) -> Option<&str>
    ensures { (f : ℕ) (path text : List ℕ) → IsUtf8 text → IsTerm term.now f (Json path (Text text))
        → option_copied result ≡ Some text }
{
    value_behind_path(term)?.as_str()
}

// The value after the path of a JSON term.
fn value_behind_path(term: &Term) -> Option<ValueBytes<'_>>
    ensures { (f : ℕ) (path : List ℕ) (value : TermValue) → IsTerm term.now f (Json path value) →
        option_map (λ found. found.serialized.now) result ≡ Some (coded_value value) }
{
    let (_, value) = term.value().as_json()?;
    ValueBytes::wrap(value).ok()
}

/// A number that was appended to a JSON term is read back.
pub fn appended_numbers_are_read_back(
    alloc: Global,
    field: Field,
    path: &str,
    expand_dots: bool,
    number: i64,
) -> Result<Option<i64>, TermError>
    ensures { GivesAtPath path.now (Some number) result }
{
    let term = appended_fast_values_make_terms(alloc, field, path, expand_dots, number)?;
    Ok(number_behind_path(&term))
}

// The number after the path of a JSON term.
fn number_behind_path(term: &Term) -> Option<i64>
    ensures { (f : ℕ) (path : List ℕ) (number : ℤ) → IsTerm term.now f (Json path (Signed number))
        → result ≡ Some number }
{
    value_behind_path(term)?.as_i64()
}

/// Terms are ordered by field, then by the code of the type, then by value: numbers, dates and addresses as numbers, false
/// before true, texts, encoded facets and bytes as bytes. Terms of JSON fields are ordered by path, then by the code of the type
/// of the value there, then by that value.
///
/// What is a value of a term is part of the definition (`Fits`): a number of its type's width, and a path without U+0000, as
/// the constructors make them.
pub fn terms_are_ordered()
    ensures { (f g : ℕ) (a b : TermValue) → f < 2 ^ 32 → g < 2 ^ 32 → Fits a → Fits b →
        ⟦<Term as Ord>⟧.cmp (term f a) (term g b) ≡ ordering_then (nat_cmp f g) (value_cmp a b) }
{}

/// Equal terms are of one field and one value.
pub fn equal_terms_have_equal_keys()
    ensures { (f g : ℕ) (a b : TermValue) → f < 2 ^ 32 → g < 2 ^ 32 → Fits a → Fits b →
        IsTrue (⟦<Term as PartialEq>⟧.eq (term f a) (term g b)) → (f ≡ g) × (a ≡ b) }
{}

/// Terms that the order calls equal have the same bytes, as `==` says, and equal terms hash alike.
pub fn comparisons_of_terms_agree()
    ensures eq { (a b : List ℕ) → IsTrue (⟦<Term as PartialEq>⟧.eq a b) ↔ (a ≡ b) }
    ensures ties { (a b : List ℕ) → IsTrue (is_eq (⟦<Term as Ord>⟧.cmp a b)) ↔ (a ≡ b) }
    ensures hash { (a b : List ℕ) → IsTrue (⟦<Term as PartialEq>⟧.eq a b)
        → ⟦<Term as Hash>⟧.hash_input a ≡ ⟦<Term as Hash>⟧.hash_input b }
{}

/// What a term of a JSON path becomes by an appended value is the term of the path and the value.
pub fn appended_values_complete_json_terms()
    ensures { (old new : List ℕ) (f : ℕ) (path : List ℕ) (value : TermValue) → IsJsonTerm old f path
        → AppendsCoded old new value → IsTerm new f (Json path value) }
{}

/// A path is joined without U+0000 exactly where it has none: no backslash takes one away.
pub fn joined_paths_have_no_zero()
    ensures { (expand_dots : Bool) (path : List ℕ) → (HasNoZero path)
        ↔ (HasNoZero (joined_path expand_dots path)) }
{}

/// What the readers of value bytes return for the bytes of a value of their type is that value. The path of a value of a JSON
/// field has no U+0000 by its definition.
pub fn written_values_are_read()
    ensures unsigned { (n : ℕ) → n < 2 ^ 64 → unsigned_of (coded_value (Unsigned n)) ≡ Some n }
    ensures signed { (z : ℤ) → FitsSigned w64 z → signed_of (coded_value (Signed z)) ≡ Some z }
    ensures truth { (b : Bool) → truth_of (coded_value (Truth b)) ≡ Some b }
    ensures date { (z : ℤ) → FitsSigned w64 z → date_of (coded_value (Date z)) ≡ Some z }
    ensures text { (text : List ℕ) → payload_of tag.Str (coded_value (Text text)) ≡ Some text }
    ensures facet { (encoded : List ℕ)
        → payload_of tag.Facet (coded_value (Facet encoded)) ≡ Some encoded }
    ensures bytes { (bytes : List ℕ) → bytes_of (coded_value (Bytes bytes)) ≡ Some bytes }
    ensures address { (a : Ipv6Addr) → IsIpv6Addr a
        → option_map (λ n. segments_of (to_be_bytes w128 n))
        (address_of (coded_value (Address (ipv6_bits a))))
        ≡ Some (ipv6_segments a) }
    ensures json { (path : List ℕ) (value : TermValue) → HasNoZero path
        → json_parts (coded_value (Json path value)) ≡ Some (path ++ 0 ∷ [], coded_value value) }
    ensures json_type { (path : List ℕ) (value : TermValue) → HasNoZero path
        → json_type (coded_value (Json path value)) ≡ Some (tag_of value) }
    ensures json_path { (path : List ℕ) (value : TermValue) → HasNoZero path
        → json_path (coded_value (Json path value)) ≡ Some path }
{}
