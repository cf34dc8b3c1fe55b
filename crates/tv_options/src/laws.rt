//! Laws of options and types, each the contract of a function that does nothing.

ghost use Rattle.std.specs.Prelude.{◌≡◌, ◌≢◌, ◌↔◌, ℕ, IsTrue, List, Some, AllPairs, Contains};
ghost use Rattle.std.specs.Ordering.{nat_cmp, is_eq};
ghost use Rattle.tv_options.specs.declared.facet_options.FacetOptions.{FacetOptions};
ghost use Rattle.tv_options.specs.declared.flag_options.FlagOptions.{FlagOptions};
ghost use Rattle.tv_options.specs.declared.flags.CoerceFlag.{CoerceFlag};
ghost use Rattle.tv_options.specs.declared.flags.FastFlag.{FastFlag};
ghost use Rattle.tv_options.specs.declared.flags.IndexedFlag.{IndexedFlag};
ghost use Rattle.tv_options.specs.declared.flags.SchemaFlagList.{SchemaFlagList};
ghost use Rattle.tv_options.specs.declared.flags.StoredFlag.{StoredFlag};
ghost use Rattle.tv_options.specs.declared.text_options.IndexRecordOption.TheVariants.{Basic};
ghost use Rattle.tv_options.specs.declared.text_options.IndexRecordOption.{IndexRecordOption};
ghost use Rattle.tv_options.specs.declared.text_options.FastFieldTextOptions.{FastFieldTextOptions};
ghost use Rattle.tv_options.specs.declared.text_options.TextFieldIndexing.{TextFieldIndexing};
ghost use Rattle.tv_options.specs.declared.textual_options.TextualOptions.{TextualOptions};
ghost use Rattle.tv_options.specs.declared.types.TypeTag.{TypeTag};
ghost use Rattle.tv_date.specs.declared.date_time.DateTimePrecision.TheVariants.{Seconds};
ghost use Rattle.tv_date.specs.declared.date_time.DateTimePrecision.{DateTimePrecision};
ghost use Rattle.tv_options.specs.FacetOptions.{join as join_facet, none as no_facet_options};
ghost use Rattle.tv_options.specs.FastFieldTextOptions.{join_fast};
ghost use Rattle.tv_options.specs.FlagOptions.{join as join_flags};
ghost use Rattle.tv_options.specs.IndexRecordOption.{rank};
ghost use Rattle.tv_options.specs.TextOptions.{string_options, text_options};
ghost use Rattle.tv_options.specs.TextualOptions.{join as join_textual};
ghost use Rattle.tv_options.specs.Types.{all_types, code, type_of_code};

use crate::facet_options::FacetOptions;
use crate::flag_options::FlagOptions;
use crate::flags::{CoerceFlag, FastFlag, IndexedFlag, SchemaFlagList, StoredFlag};
use crate::own_part::OwnPart;
use crate::text_options::{
    FastFieldTextOptions, IndexRecordOption, STRING, TEXT, TextFieldIndexing, TextOptions,
};
use crate::textual_options::TextualOptions;
use crate::tokenizer_name::TokenizerName;
use crate::types::TypeTag;
use std::hash::Hash;
use tv_date::{DATE_TIME_PRECISION_INDEXED, DateTimePrecision};

/// `|` on options of flags doesn't depend on how it is grouped.
pub fn flag_options_join_associatively<Part: OwnPart>()
    ensures { (a b c : FlagOptions Part)
        → join_flags Part.join (join_flags Part.join a b) c
        ≡ join_flags Part.join a (join_flags Part.join b c) }
{}

/// Options of flags joined with themselves stay as they are.
pub fn flag_options_join_idempotently<Part: OwnPart>()
    ensures { (a : FlagOptions Part) → join_flags Part.join a a ≡ a }
{}

/// `|` on `FacetOptions` doesn't depend on how it is grouped.
pub fn facet_options_join_associatively()
    ensures { (a b c : FacetOptions)
        → join_facet (join_facet a b) c ≡ join_facet a (join_facet b c) }
{}

/// `FacetOptions` joined with themselves stay as they are.
pub fn facet_options_join_idempotently()
    ensures { (a : FacetOptions) → join_facet a a ≡ a }
{}

/// `|` on options of texts, or of JSON objects, doesn't depend on how it is grouped.
pub fn textual_options_join_associatively<Part: OwnPart>()
    ensures { (a b c : TextualOptions Part)
        → join_textual Part.join (join_textual Part.join a b) c
        ≡ join_textual Part.join a (join_textual Part.join b c) }
{}

/// Options of texts, or of JSON objects, joined with themselves stay as they are.
pub fn textual_options_join_idempotently<Part: OwnPart>()
    ensures { (a : TextualOptions Part) → join_textual Part.join a a ≡ a }
{}

/// `|` on `FastFieldTextOptions` doesn't depend on how it is grouped.
pub fn fast_text_options_join_associatively()
    ensures { (a b c : FastFieldTextOptions)
        → join_fast (join_fast a b) c ≡ join_fast a (join_fast b c) }
{}

/// `FastFieldTextOptions` joined with themselves stay as they are.
pub fn fast_text_options_join_idempotently()
    ensures { (a : FastFieldTextOptions) → join_fast a a ≡ a }
{}

/// `==` on options of flags returns whether they are the same.
pub fn comparisons_of_flag_options_agree<Part: OwnPart>()
    ensures { (a b : FlagOptions Part)
        → IsTrue (⟦<FlagOptions<Part> as PartialEq>⟧.eq a b) ↔ (a ≡ b) }
{}

/// `==` on options of texts, or of JSON objects, returns whether they are the same.
pub fn comparisons_of_textual_options_agree<Part: OwnPart>()
    ensures { (a b : TextualOptions Part)
        → IsTrue (⟦<TextualOptions<Part> as PartialEq>⟧.eq a b) ↔ (a ≡ b) }
{}

/// `==` on options of facets returns whether they are the same.
pub fn comparisons_of_facet_options_agree()
    ensures { (a b : FacetOptions) → IsTrue (⟦<FacetOptions as PartialEq>⟧.eq a b) ↔ (a ≡ b) }
{}

/// `==` on what says how texts are indexed returns whether it is the same; names of tokenizers are compared as texts.
pub fn comparisons_of_text_indexing_agree()
    ensures name { (a b : List ℕ) → IsTrue (⟦<TokenizerName as PartialEq>⟧.eq a b) ↔ (a ≡ b) }
    ensures kept { (a b : IndexRecordOption)
        → IsTrue (⟦<IndexRecordOption as PartialEq>⟧.eq a b) ↔ (a ≡ b) }
    ensures indexing { (a b : TextFieldIndexing)
        → IsTrue (⟦<TextFieldIndexing as PartialEq>⟧.eq a b) ↔ (a ≡ b) }
    ensures fast { (a b : FastFieldTextOptions)
        → IsTrue (⟦<FastFieldTextOptions as PartialEq>⟧.eq a b) ↔ (a ≡ b) }
{}

/// `==` on two flags of one kind holds, as there is but one of each.
pub fn comparisons_of_flags_agree()
    ensures stored { (a b : StoredFlag) → IsTrue (⟦<StoredFlag as PartialEq>⟧.eq a b) ↔ (a ≡ b) }
    ensures indexed { (a b : IndexedFlag) → IsTrue (⟦<IndexedFlag as PartialEq>⟧.eq a b) ↔ (a ≡ b) }
    ensures coerce { (a b : CoerceFlag) → IsTrue (⟦<CoerceFlag as PartialEq>⟧.eq a b) ↔ (a ≡ b) }
    ensures fast { (a b : FastFlag) → IsTrue (⟦<FastFlag as PartialEq>⟧.eq a b) ↔ (a ≡ b) }
{}

/// `==` on lists of flags returns whether they are the same, where it does so on their parts.
pub fn comparisons_of_flag_lists_agree<Head: PartialEq, Tail: PartialEq>()
    ensures { ((a b : Head) → IsTrue (Head.eq a b) ↔ (a ≡ b))
        → ((a b : Tail) → IsTrue (Tail.eq a b) ↔ (a ≡ b)) → (a b : SchemaFlagList Head Tail)
        → IsTrue (⟦<SchemaFlagList<Head, Tail> as PartialEq>⟧.eq a b) ↔ (a ≡ b) }
{}

/// By default the least is kept of terms, dates are kept to the second, and facets aren't stored.
pub fn defaults_are_least()
    ensures kept { (kept : IndexRecordOption)
        → ⟦<IndexRecordOption as Default>⟧.is_default kept ↔ (kept ≡ Basic) }
    ensures precision { (precision : DateTimePrecision)
        → ⟦<DateTimePrecision as Default>⟧.is_default precision ↔ (precision ≡ Seconds) }
    ensures facet { (options : FacetOptions)
        → ⟦<FacetOptions as Default>⟧.is_default options ↔ (options ≡ no_facet_options) }
{}

/// The code of a type gives the type, and no other byte does.
pub fn types_and_codes_agree()
    ensures back { (t : TypeTag) → type_of_code (code t) ≡ Some t }
    ensures alone { (t : TypeTag) (byte : ℕ) → type_of_code byte ≡ Some t → byte ≡ code t }
{}

/// The list of the types has each type, and none twice.
pub fn types_are_listed_once()
    ensures each { (t : TypeTag) → Contains all_types t }
    ensures once { AllPairs (λ one other. one ≢ other) all_types }
{}

/// Types are ordered as their codes. Those that the order calls equal are one type, as `==` says, and equal types hash alike.
pub fn comparisons_of_types_agree()
    ensures order { (a b : TypeTag) → ⟦<TypeTag as Ord>⟧.cmp a b ≡ nat_cmp (code a) (code b) }
    ensures eq { (a b : TypeTag) → IsTrue (⟦<TypeTag as PartialEq>⟧.eq a b) ↔ (a ≡ b) }
    ensures ties { (a b : TypeTag) → IsTrue (is_eq (⟦<TypeTag as Ord>⟧.cmp a b)) ↔ (a ≡ b) }
    ensures hash { (a b : TypeTag) → IsTrue (⟦<TypeTag as PartialEq>⟧.eq a b)
        → ⟦<TypeTag as Hash>⟧.hash_input a ≡ ⟦<TypeTag as Hash>⟧.hash_input b }
{}

/// What an index keeps of terms is ordered from the least to the most.
pub fn record_options_are_ordered()
    ensures { (a b : IndexRecordOption)
        → ⟦<IndexRecordOption as Ord>⟧.cmp a b ≡ nat_cmp (rank a) (rank b) }
{}

/// `STRING` is indexed as one token (the tokenizer `raw`), of which the documents alone are kept, with field norms.
pub fn string_is_one_token() -> TextOptions
    ensures { result ≡ string_options }
{
    STRING
}

/// `TEXT` is indexed by the tokenizer `default`, with frequencies, positions and field norms.
pub fn text_is_indexed_by_words() -> TextOptions
    ensures { result ≡ text_options }
{
    TEXT
}

/// Dates are indexed to the second.
pub fn dates_are_indexed_by_seconds() -> DateTimePrecision
    ensures { result ≡ Seconds }
{
    DATE_TIME_PRECISION_INDEXED
}
