//! Laws of the terms of texts of queries, each the contract of a function that does nothing.

ghost use Rattle.std.specs.Prelude.{◌≡◌, ◌<◌, ◌^◌, ◌∷◌, [], ℕ, Bool, List, Ok, Option, Result, Some, true};
ghost use Rattle.std.specs.List.{Contains};
ghost use Rattle.std.specs.declared.ops.Bound.{Bound};
ghost use Rattle.tv_field.specs.Entry.{Entry};
ghost use Rattle.tv_field.specs.JsonAnswer.{WritesValue};
ghost use Rattle.tv_field.specs.declared.field_type.FieldType.{FieldType};
ghost use Rattle.tv_format.specs.Tree.{Leaf};
ghost use Rattle.tv_indexing.specs.Agree.{Agree, FindSame, HaveSame, SaySame};
ghost use Rattle.tv_indexing.specs.IndexedField.{FindsField, FoundField};
ghost use Rattle.tv_indexing.specs.JsonRanges.{AnswersBetween, AnswersRanges, RangesAnswer, RangesInField, RangesOfText};
ghost use Rattle.tv_indexing.specs.LeafTerms.{HasTerm, json_value, leaf_value};
ghost use Rattle.tv_indexing.specs.TermText.{IsTermOfField, IsTextOf, leaf_text};
ghost use Rattle.tv_indexing.specs.TextRange.{AnswersBounds, AnswersRange, BelowInField, RangeAnswer, RangeInField};
ghost use Rattle.tv_indexing.specs.TextTerms.{AnswersText, AppendsAnswer, TermOfText, TermsAnswer, TermsInField, WritesLeaves, WritesTerms};
ghost use Rattle.tv_indexing.specs.declared.text_terms_error.TextTermsError.{TextTermsError};
ghost use Rattle.tv_term.specs.Key.{Fits, HasNoZero, Json, TermValue, term};
ghost use Rattle.tv_value.specs.declared.field.Field.{Field};

use tv_base::laws::printed_facets_are_read;
use tv_date::laws::printed_dates_are_read;
use tv_term::laws::{comparisons_of_terms_agree, equal_terms_have_equal_keys};

/// No other value's term is among the terms that a text has: a value whose term is one of them is a value that the text writes, as it is
/// indexed. So what a search for these terms finds has a value that the text writes.
pub fn terms_of_texts_are_of_no_other_value()
    ensures plain { (field : Field) (field_type : FieldType) (text : List ℕ)
        (made : List (List ℕ)) (value : TermValue) → field.id < 2 ^ 32 → Fits value
        → TermOfText field field_type text (Ok made) → Contains made (term field.id value)
        → (l : Leaf) × WritesValue field_type text l × (leaf_value l ≡ Some value) }
    ensures at_path { (field : Field) (path text : List ℕ) (made : List (List ℕ))
        (value : TermValue) → field.id < 2 ^ 32 → HasNoZero path → Fits value
        → WritesTerms field path text (Ok made) → Contains made (term field.id (Json path value))
        → (leaves : List Leaf) × (l : Leaf) × WritesLeaves text leaves × Contains leaves l
        × (json_value l ≡ Some value) }
{
    comparisons_of_terms_agree();
    equal_terms_have_equal_keys();
}

/// A field that isn't of JSON objects or of addresses reads the text of a value of its own as that value. So the text that `text_of_term`
/// returns of a term has this one term, and of a date the term of its second.
pub fn texts_of_values_are_read_back()
    ensures value { (field_type : FieldType) (l : Leaf) → IsTermOfField field_type l
        → WritesValue field_type (leaf_text l) l }
    ensures term { (field : Field) (field_type : FieldType) (l : Leaf) (value : TermValue)
        → IsTermOfField field_type l → leaf_value l ≡ Some value → Fits value
        → TermOfText field field_type (leaf_text l) (Ok (term field.id value ∷ [])) }
{
    printed_facets_are_read();
    printed_dates_are_read();
}

/// A path has one answer: two that `IndexedField::of` may give, of which neither is for want of memory, agree.
pub fn fields_of_paths_are_determined()
    ensures { (schema : List Entry) (path : List ℕ) (one other : Result FoundField TextTermsError)
        → FindsField schema path one → FindsField schema path other
        → Agree SaySame (λ at also. at ≡ also) one other }
{}

/// A text has one answer at a path, and in a field: two that `terms_of_text` may give, or `IndexedField::terms`, of which neither is for want of
/// memory, agree. So do the lists that they leave.
pub fn terms_of_texts_are_determined()
    ensures at_path { (schema : List Entry) (path text : List ℕ) (one other : TermsAnswer)
        → AnswersText schema path text one → AnswersText schema path text other
        → Agree SaySame (λ made also. made ≡ also) one other }
    ensures in_field { (at : FoundField) (text : List ℕ) (one other : TermsAnswer)
        → TermsInField at text one → TermsInField at text other
        → Agree SaySame (λ made also. made ≡ also) one other }
    ensures lists { (schema : List Entry) (path text : List ℕ) (old new also : List (List ℕ))
        (one other : Result (Unit {0}) TextTermsError)
        → AppendsAnswer (AnswersText schema path text) old new one
        → AppendsAnswer (AnswersText schema path text) old also other
        → Agree SaySame (λ done too. new ≡ also) one other }
    ensures lists_in_field { (at : FoundField) (text : List ℕ) (old new also : List (List ℕ))
        (one other : Result (Unit {0}) TextTermsError)
        → AppendsAnswer (TermsInField at text) old new one
        → AppendsAnswer (TermsInField at text) old also other
        → Agree SaySame (λ done too. new ≡ also) one other }
{}

/// A text has one answer as a range, too: two that `ranges_of_text` may give, or `IndexedField::ranges_of_text`, of which neither is for want of
/// memory, agree. Their ranges have the same terms.
pub fn ranges_of_texts_are_determined()
    ensures at_path { (schema : List Entry) (path text : List ℕ) (one other : RangesAnswer)
        → AnswersRanges schema path text one → AnswersRanges schema path text other
        → Agree SaySame FindSame one other }
    ensures in_field { (at : FoundField) (text : List ℕ) (one other : RangesAnswer)
        → RangesOfText at text one → RangesOfText at text other
        → Agree SaySame FindSame one other }
{}

/// Two bounds have one answer: two that `ranges_between_texts` may give, or `IndexedField::ranges`, of which neither is for want of memory, agree.
pub fn ranges_between_texts_are_determined()
    ensures at_path { (schema : List Entry) (path : List ℕ) (start end : Bound (List ℕ))
        (one other : RangesAnswer) → AnswersBetween schema path start end one
        → AnswersBetween schema path start end other → Agree SaySame FindSame one other }
    ensures in_field { (at : FoundField) (start end : Bound (List ℕ)) (one other : RangesAnswer)
        → RangesInField at start end one → RangesInField at start end other
        → Agree SaySame FindSame one other }
{}

/// So they have as one range: two answers of `range_of_text`, `range_between_texts`, `IndexedField::range` or `IndexedField::below`, of which neither is
/// for want of memory, agree. Their ranges have the same terms.
pub fn single_ranges_are_determined()
    ensures of_text { (schema : List Entry) (path text : List ℕ) (one other : RangeAnswer)
        → AnswersRange schema path text one → AnswersRange schema path text other
        → Agree SaySame HaveSame one other }
    ensures at_path { (schema : List Entry) (path : List ℕ) (start end : Bound (List ℕ))
        (one other : RangeAnswer) → AnswersBounds schema path start end one
        → AnswersBounds schema path start end other → Agree SaySame HaveSame one other }
    ensures in_field { (at : FoundField) (start end : Bound (List ℕ)) (one other : RangeAnswer)
        → RangeInField at start end one → RangeInField at start end other
        → Agree SaySame HaveSame one other }
    ensures below { (at : FoundField) (text : List ℕ) (one other : RangeAnswer)
        → BelowInField at text one → BelowInField at text other
        → Agree SaySame HaveSame one other }
{}

/// A value has one term, or none: what `write_leaf` says of it, and the term that the writer has then, are the same at each call.
pub fn leaves_have_one_term()
    ensures { (field : ℕ) (value : Option TermValue) (held also : List ℕ) (one other : Bool)
        → HasTerm field value held one → HasTerm field value also other
        → (one ≡ other) × (one ≡ true → held ≡ also) }
{}

/// A term has one text, or none, and so have bytes that are no term: two that `text_of_term` may return are the same.
pub fn terms_have_one_text()
    ensures { (bytes : List ℕ) (one other : Option (List ℕ)) → IsTextOf bytes one
        → IsTextOf bytes other → one ≡ other }
{}
