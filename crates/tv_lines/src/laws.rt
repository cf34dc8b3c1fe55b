//! Laws of lines, imports and runs, each the contract of a function that does nothing: what is read of an input is read in one way.

ghost use Rattle.std.specs.Prelude.{◌≡◌, ◌<◌, ◌-◌, ◌^◌, ℕ, Bool, true, List, Ok, Option, Result, length};
ghost use Rattle.tv_base.specs.declared.cause.Cause.TheVariants.{UnexpectedEnd};
ghost use Rattle.tv_base.specs.declared.cause.ReadError.TheVariants.{Corrupted};
ghost use Rattle.tv_doc.specs.Document.{document_of};
ghost use Rattle.tv_doc.specs.declared.document.CompactDoc.{CompactDoc};
ghost use Rattle.tv_field.specs.Entry.{Entry};
ghost use Rattle.tv_format.specs.Version.{Version};
ghost use Rattle.tv_lines.specs.Alike.{AreCountedAlike, ArePrintedAlike, AreSearchedAlike, SaySame, SaySameErrors};
ghost use Rattle.tv_lines.specs.Alike.{IsSearchDecided, IsTestDecided, IsWorkDecided};
ghost use Rattle.tv_lines.specs.Checking.{TestsBlock};
ghost use Rattle.tv_lines.specs.Exporting.{PrintsBlock};
ghost use Rattle.tv_lines.specs.Finding.{SearchesBlock};
ghost use Rattle.tv_lines.specs.Importing.{IsOutcome};
ghost use Rattle.tv_lines.specs.LineDocuments.{IsParsed};
ghost use Rattle.tv_lines.specs.Lines.{FirstLine, Lines};
ghost use Rattle.tv_lines.specs.TermRuns.{IsRun, MergesNext, Pair, RefusesRun};
ghost use Rattle.tv_lines.specs.WholeImports.{Outcomes};
ghost use Rattle.tv_lines.specs.declared.errors.WorkError.{WorkError};
ghost use Rattle.tv_lines.specs.declared.export.JsonLayout.{JsonLayout};
ghost use Rattle.tv_lines.specs.declared.find.FindError.{FindError};
ghost use Rattle.tv_lines.specs.declared.find.Found.{Found};
ghost use Rattle.tv_lines.specs.declared.import.ImportRules.{ImportRules};
ghost use Rattle.tv_lines.specs.declared.import.LineOutcome.{LineOutcome};
ghost use Rattle.tv_lines.specs.declared.line_document.LineError.{LineError};
ghost use Rattle.tv_lines.specs.declared.term_runs.RunReader.{RunReader};
ghost use Rattle.tv_query.specs.Grammar.{QueryTree};
ghost use Rattle.tv_store.specs.declared.block.RefusedDocument.{RefusedDocument};
ghost use Rattle.tv_store.specs.declared.limits.ReadLimits.{ReadLimits};
ghost use Rattle.tv_store.specs.declared.projection.Projection.{Projection};

use crate::report::{DocumentReport, Report};
use tv_base::ByteSource;
use tv_doc::laws::documents_are_listed_in_one_way;

/// An input is cut into lines in one way.
pub fn inputs_have_one_cutting()
    ensures { (input : List ℕ) (lines others : List (List ℕ)) → Lines input lines
        → Lines input others → lines ≡ others }
{}

/// So it has one first line, and one rest after that.
pub fn inputs_have_one_first_line()
    ensures { (input line other rest behind : List ℕ) → FirstLine input line rest
        → FirstLine input other behind → (line ≡ other) × (rest ≡ behind) }
{}

/// A line makes one document by one schema, strictly or not, or it makes none for a reason that says the same.
pub fn lines_make_one_document()
    ensures { (schema : List Entry) (strict : Bool) (line : List ℕ) (made twin : CompactDoc)
        (error other : Option LineError) → IsParsed schema strict line made error
        → IsParsed schema strict line twin other
        → (document_of made ≡ document_of twin) × SaySameErrors error other }
{}

/// A line has one outcome by one schema and the same rules: the same bytes are stored, with the same fault of its terms, or it is refused for a reason
/// that says the same.
pub fn lines_have_one_outcome()
    ensures { (schema : List Entry) (rules : ImportRules) (line text other : List ℕ)
        (said also : LineOutcome) → IsOutcome schema rules line text said
        → IsOutcome schema rules line other also → (text ≡ other) × SaySame said also }
{}

/// So the lines of an input have one block: `block` and `other` are equal. And `said` has as many outcomes of each kind as `also`: of lines that are
/// stored, that can't be searched, and that are refused.
pub fn lines_have_one_block()
    ensures { (schema : List Entry) (rules : ImportRules) (lines : List (List ℕ))
        (block other : List ℕ) (said also : List LineOutcome)
        → Outcomes schema rules lines block said → Outcomes schema rules lines other also
        → (block ≡ other) × AreCountedAlike said also }
{}

/// The bytes of a run are those of one list of pairs.
pub fn runs_have_one_reading()
    ensures { (bytes : List ℕ) (pairs others : List Pair) → IsRun bytes pairs → IsRun bytes others
        → pairs ≡ others }
{}

/// A run isn't refused for its bytes.
pub fn runs_are_not_refused()
    ensures { (bytes : List ℕ) (pairs : List Pair) → IsRun bytes pairs
        → ¬ RefusesRun bytes (Corrupted UnexpectedEnd) }
{}

/// What several runs have left has one next pair, or none is left. What is left after it is the same, too, by `HaveLeft`.
pub fn runs_have_one_next_pair<S: ByteSource>()
    ensures { (readers others : List (RunReader S)) (runs : List (List Pair)) (pair other : Pair)
        (more also : Bool) → MergesNext S.ByteSource readers runs pair (Ok more)
        → MergesNext S.ByteSource others runs other (Ok also)
        → (more ≡ also) × (more ≡ true → pair ≡ other) }
{}

/// A block is tested in one way. Of two tests of the same bytes, which these decide, both return the same number of documents, or both the same
/// refusal, and both leave the same.
pub fn blocks_are_tested_in_one_way()
    ensures { (version : Version) (limits : ReadLimits) (block left other : List ℕ)
        (result twin : Result ℕ RefusedDocument) → length block < 2 ^ 64 - 1
        → IsTestDecided result → IsTestDecided twin → TestsBlock version limits block left result
        → TestsBlock version limits block other twin → (result ≡ twin) × (left ≡ other) }
{}

/// So it is printed in one way, whole or up to the document that is refused.
pub fn blocks_are_printed_in_one_way()
    ensures { (schema : List Entry) (layout : JsonLayout) (version : Version)
        (projection : Projection) (block left other old held second : List ℕ)
        (result twin : Result ℕ WorkError) → length block < 2 ^ 64 - 1 → IsWorkDecided result
        → IsWorkDecided twin
        → PrintsBlock schema layout version projection block left old held result
        → PrintsBlock schema layout version projection block other old second twin
        → ArePrintedAlike left other held second result twin }
{
    documents_are_listed_in_one_way();
}

/// And it is searched in one way: the same lines are appended, and the same is told and returned.
pub fn blocks_are_searched_in_one_way<T: Report<DocumentReport>>()
    ensures { (schema : List Entry) (version : Version) (projection : Projection)
        (tree : QueryTree) (block left other old held second : List ℕ) (report ended finished : T)
        (result twin : Result Found (FindError T.Error)) → length block < 2 ^ 64 - 1
        → IsSearchDecided result → IsSearchDecided twin
        → SearchesBlock schema version projection tree block left old held (T.is_known report)
        (T.told report) (T.told ended) result
        → SearchesBlock schema version projection tree block other old second (T.is_known report)
        (T.told report) (T.told finished) twin
        → AreSearchedAlike left other held second (T.is_known report) (T.told ended)
        (T.told finished) result twin }
{
    documents_are_listed_in_one_way();
}
