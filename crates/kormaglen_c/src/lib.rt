//! Calls for C, over blocks of bytes: each is one of `tv_blocks`, and its contract is said of the numbers that it answers. A slice is a
//! pointer, which is never null, and a length, and what is written overlaps nothing else: `bindings/c/calls.c` tests that, and calls these. Only
//! handles keep something between two calls. A handle is used by one call at a time, on any thread.
#![tactic(auto)]

ghost use Rattle.std.specs.Prelude.{◌≡◌, Some, IsUtf8};
ghost use Rattle.tv_base.specs.Facet.{parse, printed};
ghost use Rattle.tv_blocks.specs.Blocks.{IsExported};
ghost use Rattle.tv_blocks.specs.FacetCounts.{AreFacetCounts, IsCountsRefusal};
ghost use Rattle.tv_blocks.specs.Fields.{FindsInText, IsPathAnswer};
ghost use Rattle.tv_blocks.specs.Imports.{ImportsInto};
ghost use Rattle.tv_blocks.specs.Refusals.{IsBlockRefusal, IsExportRefusal, IsFacetRefusal, IsTextRefusal};
ghost use Rattle.tv_blocks.specs.Terms.{IsEnd, IsEndRefusal, IsTermList, IsTermRefusal, IsTermText, IsTextTerm};
ghost use Rattle.kormaglen_c.specs.Answers.{AnswersFill, AnswersFound, AnswersImport, ByVersion, ByWrittenVersion, TellsField, write_numbered};
ghost use Rattle.tv_store.specs.BlockMigration.{IsMigrated};

pub mod blocks;
pub mod documents;
pub mod handles;
pub mod queries;

use std::alloc::Global;
use tv_blocks::status::{error_answer, import_answer, written_answer, wrong_version};
use tv_blocks::{Answer, BlockError, FoundField, LineAnswer};
use tv_format::WriteVersion;
use tv_store::DocStoreVersion;

// What is found of a path, or nothing.
const NOTHING_FOUND: FoundField = FoundField { field: 0, rest: 0 };

/// Writes the encoded facet that a text names, see `tv_blocks::facet_of_text`.
#[unsafe(no_mangle)]
pub extern "C" fn raw_facet_of_text(alloc: Global, text: &[u8], encoded: &mut [u8]) -> Answer
    ensures { AnswersFill (λ content. IsUtf8 text.now × (parse text.now ≡ Some content))
        (IsFacetRefusal text.now) encoded.old encoded.new result }
{
    written_answer(tv_blocks::facet_of_text(alloc, text, encoded))
}

/// Writes the text that names an encoded facet, see `tv_blocks::text_of_facet`.
#[unsafe(no_mangle)]
pub extern "C" fn raw_text_of_facet(alloc: Global, encoded: &[u8], text: &mut [u8]) -> Answer
    ensures { AnswersFill (λ content. IsUtf8 encoded.now × (content ≡ printed encoded.now))
        (IsTextRefusal encoded.now) text.old text.new result }
{
    written_answer(tv_blocks::text_of_facet(alloc, encoded, text))
}

/// Counts documents by the children of a facet, see `tv_blocks::count_facets`.
#[unsafe(no_mangle)]
pub extern "C" fn raw_count_facets(
    alloc: Global,
    parent: &[u8],
    pairs: &[u8],
    counts: &mut [u8],
) -> Answer
    ensures { AnswersFill (AreFacetCounts parent.now pairs.now)
        (IsCountsRefusal parent.now pairs.now) counts.old counts.new result }
{
    written_answer(tv_blocks::count_facets(alloc, parent, pairs, counts))
}

// Puts what was found into `found`, and answers what a call returned that finds a field.
fn found_answer(answered: Result<FoundField, BlockError>, found: &mut FoundField) -> Answer
    ensures { TellsField answered found.new result }
{
    match answered {
        Ok(field) => {
            *found = field;
            written_answer(Ok(0))
        }
        Err(error) => {
            *found = NOTHING_FOUND;
            error_answer(error)
        }
    }
}

/// Finds the field that a path names, see `tv_blocks::find_field`, and puts it into `found`: 0 and 0 where there is none.
#[unsafe(no_mangle)]
pub extern "C" fn raw_find_field(
    alloc: Global,
    schema: &[u8],
    path: &[u8],
    found: &mut FoundField,
) -> Answer
    ensures { AnswersFound (FindsInText schema.now path.now) (IsPathAnswer schema.now path.now) found.new
        result }
{
    found_answer(tv_blocks::find_field(alloc, schema, path), found)
}

/// Stores documents of lines of JSON and answers each line, see `tv_blocks::import_lines`.
#[unsafe(no_mangle)]
pub extern "C" fn raw_import_lines(
    alloc: Global,
    schema: &[u8],
    lines: &[u8],
    block: &mut [u8],
    answers: &mut [LineAnswer],
) -> Answer
    ensures { AnswersImport (ImportsInto schema.now lines.now block.old block.new answers.old
        answers.new) result }
{
    import_answer(tv_blocks::import_lines(alloc, schema, lines, block, answers))
}

/// Writes the documents of a block as lines of JSON, see `tv_blocks::export_block`. The version is 1, 2 or 3.
#[unsafe(no_mangle)]
pub extern "C" fn raw_export_block(
    alloc: Global,
    schema: &[u8],
    version: u32,
    block: &[u8],
    lines: &mut [u8],
) -> Answer
    ensures { ByVersion version lines.old lines.new result
        (λ known. AnswersFill (IsExported schema.now known block.now)
        (IsExportRefusal schema.now known block.now) lines.old lines.new result) }
{
    match DocStoreVersion::from_u32(version) {
        Ok(version) => written_answer(tv_blocks::export_block(
            alloc, schema, version, block, lines,
        )),
        Err(_) => wrong_version(),
    }
}

// The version of this number, in which documents are written.
pub(crate) fn write_version(number: u32) -> Option<WriteVersion>
    ensures { result ≡ write_numbered number }
{
    match number {
        2 => Some(WriteVersion::V2),
        3 => Some(WriteVersion::V3),
        _ => None,
    }
}

/// Writes the documents of a block in another version, see `tv_blocks::migrate_block`. The versions are 1, 2 or 3, and 2 or 3.
#[unsafe(no_mangle)]
pub extern "C" fn raw_migrate_block(
    alloc: Global,
    from: u32,
    block: &[u8],
    to: u32,
    migrated: &mut [u8],
) -> Answer
    ensures { ByVersion from migrated.old migrated.new result
        (λ known. ByWrittenVersion to migrated.old migrated.new result
        (λ written. AnswersFill (IsMigrated known written block.now)
        (IsBlockRefusal known block.now) migrated.old migrated.new result)) }
{
    match (DocStoreVersion::from_u32(from), write_version(to)) {
        (Ok(from), Some(to)) => {
            written_answer(tv_blocks::migrate_block(alloc, from, block, to, migrated))
        }
        _ => wrong_version(),
    }
}

/// Writes the terms of a field's values in a block, see `tv_blocks::terms_of_block`. The version is 1, 2 or 3.
#[unsafe(no_mangle)]
pub extern "C" fn raw_terms_of_block(
    alloc: Global,
    field: u32,
    version: u32,
    block: &[u8],
    terms: &mut [u8],
) -> Answer
    ensures { ByVersion version terms.old terms.new result
        (λ known. AnswersFill (IsTermList known field block.now)
        (IsBlockRefusal known block.now) terms.old terms.new result) }
{
    match DocStoreVersion::from_u32(version) {
        Ok(version) => written_answer(tv_blocks::terms_of_block(
            alloc, field, version, block, terms,
        )),
        Err(_) => wrong_version(),
    }
}

/// Writes the term of a text, see `tv_blocks::term_of_text`.
#[unsafe(no_mangle)]
pub extern "C" fn raw_term_of_text(
    alloc: Global,
    field: u32,
    text: &[u8],
    term: &mut [u8],
) -> Answer
    ensures { AnswersFill (IsTextTerm field text.now) (IsTextRefusal text.now) term.old term.new
        result }
{
    written_answer(tv_blocks::term_of_text(alloc, field, text, term))
}

/// Writes the text of a term's value, see `tv_blocks::text_of_term`.
#[unsafe(no_mangle)]
pub extern "C" fn raw_text_of_term(alloc: Global, term: &[u8], text: &mut [u8]) -> Answer
    ensures { AnswersFill (IsTermText term.now) (IsTermRefusal term.now) text.old text.new result }
{
    written_answer(tv_blocks::text_of_term(alloc, term, text))
}

/// Writes the least byte string above all that begin with a prefix, see `tv_blocks::end_of_prefix`.
#[unsafe(no_mangle)]
pub extern "C" fn raw_end_of_prefix(alloc: Global, prefix: &[u8], end: &mut [u8]) -> Answer
    ensures { AnswersFill (IsEnd prefix.now) (IsEndRefusal prefix.now) end.old end.new result }
{
    written_answer(tv_blocks::end_of_prefix(alloc, prefix, end))
}
