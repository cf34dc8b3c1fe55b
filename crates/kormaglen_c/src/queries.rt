//! Calls for C over texts of queries, by a schema that a handle holds.

ghost use Rattle.kormaglen_c.specs.Answers.{AnswersFill};
ghost use Rattle.kormaglen_c.specs.Handles.{IsClosedHandle};
ghost use Rattle.std.specs.Prelude.{◌≡◌, MatchOption};
ghost use Rattle.tv_blocks.specs.Query.{AreTextRanges, AreTextTerms, IsRangesRefusal, IsTermsRefusal};
ghost use Rattle.tv_blocks.specs.Held.{entries_of};

use crate::handles::closed;
use std::alloc::Global;
use tv_blocks::Answer;
use tv_blocks::schema_handle::SchemaHandle;
use tv_blocks::status::written_answer;
use tv_schema::Schema;

// Writes the terms that a text has at a path by a schema.
fn write_terms(alloc: Global, schema: &Schema, path: &[u8], text: &[u8], terms: &mut [u8]) -> Answer
    ensures { AnswersFill (AreTextTerms schema.now path.now text.now)
        (IsTermsRefusal schema.now path.now text.now) terms.old terms.new result }
{
    written_answer(tv_blocks::terms_of_text(alloc, schema, path, text, terms))
}

/// Writes the terms that a text of a query has at a path by the schema that the handle holds, see `tv_blocks::terms_of_text`.
#[unsafe(no_mangle)]
pub extern "C" fn raw_schema_terms_of_text(
    alloc: Global,
    handle: &mut SchemaHandle,
    path: &[u8],
    text: &[u8],
    terms: &mut [u8],
) -> Answer
    ensures handle { entries_of handle.new ≡ entries_of handle.old }
    ensures answer { MatchOption (entries_of handle.old) (IsClosedHandle terms.old terms.new result)
        (λ entries. AnswersFill (AreTextTerms entries path.now text.now)
        (IsTermsRefusal entries path.now text.now) terms.old terms.new result) }
{
    match handle.take(alloc) {
        Some(memory) => {
            let answer = write_terms(alloc, &memory.schema, path, text, terms);
            handle.keep(alloc, memory);
            answer
        }
        None => closed(),
    }
}

// Writes the ranges of terms that a text bounds at a path by a schema.
fn write_ranges(
    alloc: Global,
    schema: &Schema,
    path: &[u8],
    text: &[u8],
    ranges: &mut [u8],
) -> Answer
    ensures { AnswersFill (AreTextRanges schema.now path.now text.now)
        (IsRangesRefusal schema.now path.now text.now) ranges.old ranges.new result }
{
    written_answer(tv_blocks::ranges_of_text(alloc, schema, path, text, ranges))
}

/// Writes the ranges of terms that a text of a query bounds at a path by the schema that the handle holds, see `tv_blocks::ranges_of_text`.
#[unsafe(no_mangle)]
pub extern "C" fn raw_schema_ranges_of_text(
    alloc: Global,
    handle: &mut SchemaHandle,
    path: &[u8],
    text: &[u8],
    ranges: &mut [u8],
) -> Answer
    ensures handle { entries_of handle.new ≡ entries_of handle.old }
    ensures answer { MatchOption (entries_of handle.old) (IsClosedHandle ranges.old ranges.new result)
        (λ entries. AnswersFill (AreTextRanges entries path.now text.now)
        (IsRangesRefusal entries path.now text.now) ranges.old ranges.new result) }
{
    match handle.take(alloc) {
        Some(memory) => {
            let answer = write_ranges(alloc, &memory.schema, path, text, ranges);
            handle.keep(alloc, memory);
            answer
        }
        None => closed(),
    }
}
