//! Laws of values and of fields, each the contract of a function that does nothing.

ghost use Rattle.std.specs.Prelude.{◌≡◌, ◌↔◌, IsTrue};
ghost use Rattle.std.specs.Ordering.{nat_cmp, is_eq};
ghost use Rattle.tv_format.specs.Short.{IsText, AreTokens};
ghost use Rattle.tv_value.specs.PreTokenized.{text_of, tokens_of};
ghost use Rattle.tv_value.specs.declared.field.Field.{Field};
ghost use Rattle.tv_value.specs.declared.pre_tokenized.PreTokenizedStr.{PreTokenizedStr};

use crate::field::Field;
use std::hash::Hash;

/// A text with its tokens has an encoding, however it is kept.
pub fn pre_tokenized_texts_encode()
    ensures { (s : PreTokenizedStr) → IsText (text_of s) × AreTokens (tokens_of s) }
{}

/// Fields are ordered as their numbers. Those that the order calls equal are one field, as `==` says, and equal fields hash
/// alike.
pub fn comparisons_of_fields_agree()
    ensures order { (a b : Field) → ⟦<Field as Ord>⟧.cmp a b ≡ nat_cmp a.id b.id }
    ensures eq { (a b : Field) → IsTrue (⟦<Field as PartialEq>⟧.eq a b) ↔ (a ≡ b) }
    ensures ties { (a b : Field) → IsTrue (is_eq (⟦<Field as Ord>⟧.cmp a b)) ↔ (a ≡ b) }
    ensures hash { (a b : Field) → IsTrue (⟦<Field as PartialEq>⟧.eq a b)
        → ⟦<Field as Hash>⟧.hash_input a ≡ ⟦<Field as Hash>⟧.hash_input b }
{}
