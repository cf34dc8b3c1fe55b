//! Laws of what is written of a block, each the contract of a function that does nothing.

ghost use Rattle.std.specs.Prelude.{◌≡◌, ◌≢◌, ◌<◌, ◌^◌, ℕ, Bool, List, IsUtf8, length};
ghost use Rattle.tv_base.specs.Facet.{printed};
ghost use Rattle.tv_base.specs.Source.{AllBytes};
ghost use Rattle.tv_blocks.specs.Alike.{AnswersAlike, BoundSame, HasOneAnswer};
ghost use Rattle.tv_blocks.specs.Blocks.{IsExported, IsPrintedBlock};
ghost use Rattle.tv_blocks.specs.Documents.{IsForeignRefusal, IsStoredDocument, IsUnread, ReadsFirst};
ghost use Rattle.tv_blocks.specs.FacetCounts.{AreFacetCounts, IsCountsRefusal};
ghost use Rattle.tv_blocks.specs.FieldValues.{AreNamedValues, IsNamedValuesRefusal, IsValueList};
ghost use Rattle.tv_blocks.specs.Fields.{FindsInText, IsPathAnswer};
ghost use Rattle.tv_blocks.specs.Query.{AreTextRanges, AreTextTerms, IsRangesRefusal, IsTermsRefusal};
ghost use Rattle.tv_blocks.specs.Refusals.{Breaks, IsBlockRefusal, IsExportRefusal, IsTextRefusal};
ghost use Rattle.tv_blocks.specs.Schemas.{IsRefusedSchema};
ghost use Rattle.tv_blocks.specs.SchemaTerms.{AreSchemaTerms, IsSchemaTermsRefusal};
ghost use Rattle.tv_blocks.specs.Terms.{IsEnd, IsEndRefusal, IsTermList, IsTermRefusal, IsTermText};
ghost use Rattle.tv_blocks.specs.declared.block_error.DocumentRefusal.{DocumentRefusal};
ghost use Rattle.tv_blocks.specs.declared.block_error.DocumentRefusal.TheVariants.{HeapFull};
ghost use Rattle.tv_field.specs.Entry.{Entry};
ghost use Rattle.tv_format.specs.Tree.{Document};
ghost use Rattle.tv_format.specs.Version.{Version};
ghost use Rattle.tv_lines.specs.Answers.{ReadsSchema};
ghost use Rattle.tv_store.specs.BlockMigration.{EncodesBlock, IsMigrated};

use tv_doc::laws::documents_are_listed_in_one_way;
use tv_indexing::laws::{ranges_of_texts_are_determined, terms_of_texts_are_determined};
use tv_store::laws::blocks_have_one_reading;

/// A block has one content of each kind: of lines of JSON, by a schema or by its text, of terms of a field or of all, of values of a field, and of
/// documents in another version. And a text of a schema has one schema.
pub fn blocks_have_one_content()
    ensures schema { (text : List ℕ) (schema other : List Entry) → ReadsSchema text schema
        → ReadsSchema text other → schema ≡ other }
    ensures printed { (entries : List Entry) (version : Version) (block content other : List ℕ)
        → IsPrintedBlock entries version block content
        → IsPrintedBlock entries version block other → content ≡ other }
    ensures exported { (schema : List ℕ) (version : Version) (block content other : List ℕ)
        → IsExported schema version block content → IsExported schema version block other
        → content ≡ other }
    ensures terms { (version : Version) (field : ℕ) (block content other : List ℕ)
        → IsTermList version field block content → IsTermList version field block other
        → content ≡ other }
    ensures values { (version : Version) (field : ℕ) (block content other : List ℕ)
        → IsValueList version field block content → IsValueList version field block other
        → content ≡ other }
    ensures schema_terms { (with_faults : Bool) (schema : List Entry) (version : Version)
        (block content other : List ℕ) → AreSchemaTerms with_faults schema version block content
        → AreSchemaTerms with_faults schema version block other → content ≡ other }
    ensures migrated { (from to : Version) (block content other : List ℕ)
        → IsMigrated from to block content → IsMigrated from to block other → content ≡ other }
{
    documents_are_listed_in_one_way();
    blocks_have_one_reading();
}

/// A block breaks at one document, for one reason, and a block of documents doesn't. Where a document has no room isn't decided, so `HeapFull` is
/// left out.
pub fn blocks_break_at_one_document()
    ensures one { (version : Version) (block : List ℕ) (start other : ℕ)
        (refusal also : DocumentRefusal) → refusal ≢ HeapFull → also ≢ HeapFull
        → Breaks version block start refusal → Breaks version block other also
        → (start ≡ other) × (refusal ≡ also) }
    ensures none { (version : Version) (block : List ℕ) (documents : List Document) (start : ℕ)
        (refusal : DocumentRefusal) → refusal ≢ HeapFull → EncodesBlock version block documents
        → ¬ Breaks version block start refusal }
{}

/// The text of a schema describes one schema, or is refused in one way. So is a path, which else names one field by the text.
pub fn schema_texts_have_one_answer()
    ensures read { (text : List ℕ) → HasOneAnswer (ReadsSchema text) (IsRefusedSchema text) }
    ensures find { (schema path : List ℕ)
        → HasOneAnswer (FindsInText schema path) (IsPathAnswer schema path) }
{}

/// Bytes begin with one document, or are refused in one way. A document is written in one way by a schema, or has one first field that the schema
/// doesn't have.
pub fn documents_have_one_answer()
    ensures read { (version : Version) (bytes : List ℕ) → HasOneAnswer
        (λ (one : Document × ℕ). ReadsFirst version bytes one.0 one.1) (IsUnread version bytes) }
    ensures write { (schema : List Entry) (version : Version) (document : Document) → HasOneAnswer
        (IsStoredDocument schema version document) (IsForeignRefusal schema document) }
{}

/// A block has one answer to each question: its lines by a schema or by the schema's text, its documents in another version, the terms or the values of
/// a field, and the terms by a schema. Or it is refused at one document, for one reason.
pub fn blocks_have_one_answer()
    ensures printed { (schema : List Entry) (version : Version) (block : List ℕ) → HasOneAnswer
        (IsPrintedBlock schema version block) (IsBlockRefusal version block) }
    ensures exported { (schema : List ℕ) (version : Version) (block : List ℕ) → HasOneAnswer
        (IsExported schema version block) (IsExportRefusal schema version block) }
    ensures migrated { (from to : Version) (block : List ℕ) → HasOneAnswer
        (IsMigrated from to block) (IsBlockRefusal from block) }
    ensures terms { (version : Version) (field : ℕ) (block : List ℕ) → HasOneAnswer
        (IsTermList version field block) (IsBlockRefusal version block) }
    ensures values { (schema : List Entry) (name : List ℕ) (version : Version) (block : List ℕ)
        → HasOneAnswer (AreNamedValues schema name version block)
        (IsNamedValuesRefusal schema name version block) }
    ensures schema_terms { (with_faults : Bool) (schema : List Entry) (version : Version)
        (block : List ℕ) → HasOneAnswer (AreSchemaTerms with_faults schema version block)
        (IsSchemaTermsRefusal with_faults schema version block) }
{
    blocks_have_one_content();
}

/// A text of a query has one list of terms, and ranges that have the same terms, or is refused in one way. So have a facet one text, a term one text,
/// and a prefix one end.
pub fn texts_have_one_answer()
    ensures terms { (schema : List Entry) (path text : List ℕ) → HasOneAnswer
        (AreTextTerms schema path text) (IsTermsRefusal schema path text) }
    ensures ranges { (schema : List Entry) (path text : List ℕ) → AnswersAlike BoundSame
        (AreTextRanges schema path text) (IsRangesRefusal schema path text) }
    ensures facet { (encoded : List ℕ) → HasOneAnswer
        (λ (content : List ℕ). IsUtf8 encoded × (content ≡ printed encoded))
        (IsTextRefusal encoded) }
    ensures term { (term : List ℕ) → HasOneAnswer (IsTermText term) (IsTermRefusal term) }
    ensures end { (prefix : List ℕ) → AllBytes prefix → HasOneAnswer
        (λ (content : List ℕ). AllBytes content × IsEnd prefix content) (IsEndRefusal prefix) }
{
    terms_of_texts_are_determined();
    ranges_of_texts_are_determined();
}

/// By the records of documents' facets, the children of a facet have one list of counts, or the call is refused in one way.
pub fn facets_are_counted_in_one_way()
    ensures { (parent pairs : List ℕ) → length pairs < 2 ^ 64 → HasOneAnswer
        (AreFacetCounts parent pairs) (IsCountsRefusal parent pairs) }
{}
