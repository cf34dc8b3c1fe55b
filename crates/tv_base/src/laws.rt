//! Laws of the encodings of numbers and texts, of escapes, and of facets, each the contract of a function that does nothing.

ghost use Rattle.std.specs.Prelude.{◌≡◌, ◌≢◌, ◌↔◌, ℕ, ℤ, FitsSigned, ◌<◌, ◌≤◌, ◌^◌, List, [], ◌∷◌, ◌++◌, ◌==◌, false, length, Some, IsTrue, IsUtf8};
ghost use Rattle.std.specs.Int.{w64};
ghost use Rattle.std.specs.List.{AllByRecursion, join_with_byte, list_any};
ghost use Rattle.std.specs.Ordering.{nat_cmp, is_eq, is_le, is_lt};
ghost use Rattle.std.specs.Cmp.Lexicographic.{slice_cmp};
ghost use Rattle.tv_base.specs.Number.{VNum, vnum, Fixed, one_byte, four_bytes, eight_bytes, sixteen_bytes, Signed, signed_bytes, Truth};
ghost use Rattle.tv_base.specs.Parts.{OneReading, Sized, Text, short_sized};
ghost use Rattle.tv_base.specs.Escapes.{without_escapes};
ghost use Rattle.tv_base.specs.Facet.{parse, path, printed, IsStep, Descends};
ghost use Rattle.tv_base.specs.FacetCounting.{AreChildCounts};
ghost use Rattle.tv_base.specs.DocumentCounting.{AreDocumentCounts};
ghost use Rattle.tv_base.specs.Greatest.{AreGreatest};

use crate::facet::Facet;
use std::hash::Hash;

/// No encoding of a number begins another, and each encodes one number.
pub fn numbers_have_one_reading()
    ensures { OneReading VNum }
{}

/// Each number below 2^64 has a shortest encoding.
pub fn short_numbers_encode()
    ensures { (n : ℕ) → n < 2 ^ 64 → VNum (vnum n) n }
{}

/// No encoding of a number is shorter.
pub fn short_numbers_are_shortest()
    ensures { (n : ℕ) (bytes : List ℕ) → VNum bytes n → length (vnum n) ≤ length bytes }
{}

/// No encoding of a number in this many bytes begins another, and each encodes one number.
pub fn fixed_numbers_have_one_reading()
    ensures { (k : ℕ) → OneReading (Fixed k) }
{}

/// Each number that fits has an encoding in one, four, eight and sixteen bytes.
pub fn fixed_numbers_encode()
    ensures one { (n : ℕ) → n < 2 ^ 8 → Fixed 1 (one_byte n) n }
    ensures four { (n : ℕ) → n < 2 ^ 32 → Fixed 4 (four_bytes n) n }
    ensures eight { (n : ℕ) → n < 2 ^ 64 → Fixed 8 (eight_bytes n) n }
    ensures sixteen { (n : ℕ) → n < 2 ^ 128 → Fixed 16 (sixteen_bytes n) n }
{}

/// No encoding of a signed number begins another, and each encodes one number.
pub fn signed_numbers_have_one_reading()
    ensures { OneReading Signed }
{}

/// Each signed number that fits eight bytes has an encoding.
pub fn signed_numbers_encode()
    ensures { (z : ℤ) → FitsSigned w64 z → Signed (signed_bytes z) z }
{}

/// No encoding of a truth value begins another, and each encodes one truth value.
pub fn truth_values_have_one_reading()
    ensures { OneReading Truth }
{}

/// No encoding of bytes after their length begins another, and each encodes one list of bytes.
pub fn sized_bytes_have_one_reading()
    ensures { OneReading Sized }
{}

/// Each list of less than 2^64 bytes has a shortest encoding.
pub fn short_sized_bytes_encode()
    ensures { (content : List ℕ) → length content < 2 ^ 64 → Sized (short_sized content) content }
{}

/// No encoding of bytes after their length is shorter.
pub fn short_sized_bytes_are_shortest()
    ensures { (content bytes : List ℕ) → Sized bytes content
        → length (short_sized content) ≤ length bytes }
{}

/// No encoding of a text begins another, and each encodes one text.
pub fn texts_have_one_reading()
    ensures { OneReading Text }
{}

/// Each text of less than 2^64 bytes has a shortest encoding.
pub fn short_texts_encode()
    ensures { (text : List ℕ) → IsUtf8 text → length text < 2 ^ 64 → Text (short_sized text) text }
{}

/// No encoding of a text is shorter.
pub fn short_texts_are_shortest()
    ensures { (text bytes : List ℕ) → Text bytes text → length (short_sized text) ≤ length bytes }
{}

/// A text without a backslash has no escape.
pub fn texts_without_backslashes_have_no_escapes()
    ensures { (text : List ℕ) → list_any (λ b. b == 92) text ≡ false → without_escapes text ≡ text }
{}

/// What is printed for a facet is read as that facet.
pub fn printed_facets_are_read()
    ensures { (encoded : List ℕ) → parse (printed encoded) ≡ Some encoded }
{}

/// Texts without U+0000, of which there is at least one, are what the facet with these steps is split into.
pub fn joined_steps_are_split()
    ensures { (texts : List (List ℕ)) → AllByRecursion IsStep texts → texts ≢ []
        → path (join_with_byte 0 texts) ≡ texts }
{}

/// Below the root are all other facets.
pub fn all_facets_descend_from_the_root()
    ensures { (g : List ℕ) → Descends [] g ↔ (g ≢ []) }
{}

/// Below another facet are those from its text with a U+0000 after it to before its text with a U+0001 after it.
pub fn descendants_are_a_range()
    ensures { (f g : List ℕ) → f ≢ []
        → Descends f g
        ↔ (IsTrue (is_le (slice_cmp nat_cmp (f ++ 0 ∷ []) g))
        × IsTrue (is_lt (slice_cmp nat_cmp g (f ++ 1 ∷ [])))) }
{}

/// A facet's children have one list of counts, be it of facets or of documents, and a list of counts has one list of its `most` greatest.
pub fn facets_have_one_count()
    ensures facets { (ancestor : List ℕ) (facets : List (List ℕ)) (counts other : List (List ℕ × ℕ))
        → AreChildCounts ancestor facets counts → AreChildCounts ancestor facets other
        → counts ≡ other }
    ensures documents { (ancestor : List ℕ) (facets counts other : List (List ℕ × ℕ))
        → AreDocumentCounts ancestor facets counts → AreDocumentCounts ancestor facets other
        → counts ≡ other }
    ensures greatest { (counts : List (List ℕ × ℕ)) (most : ℕ)
        (greatest other : List (List ℕ × ℕ)) → AreGreatest counts most greatest
        → AreGreatest counts most other → greatest ≡ other }
{}

/// Facets are ordered as the bytes of their encoded texts. Those that the order calls equal are one facet, as `==` says, and equal
/// facets hash alike.
pub fn comparisons_of_facets_agree()
    ensures order { (f g : List ℕ) → ⟦<Facet as Ord>⟧.cmp f g ≡ slice_cmp nat_cmp f g }
    ensures eq { (f g : List ℕ) → IsTrue (⟦<Facet as PartialEq>⟧.eq f g) ↔ (f ≡ g) }
    ensures ties { (f g : List ℕ) → IsTrue (is_eq (⟦<Facet as Ord>⟧.cmp f g)) ↔ (f ≡ g) }
    ensures hash { (f g : List ℕ) → IsTrue (⟦<Facet as PartialEq>⟧.eq f g)
        → ⟦<Facet as Hash>⟧.hash_input f ≡ ⟦<Facet as Hash>⟧.hash_input g }
{}
