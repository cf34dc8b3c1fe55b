//! Terms of texts of queries, and the ranges that they bound.

ghost use Rattle.std.specs.Prelude.{◌≡◌, ◌++◌, OnOk};
ghost use Rattle.std.specs.List.{flat_map};
ghost use Rattle.tv_blocks.specs.Buffer.{FillsBuffer};
ghost use Rattle.tv_blocks.specs.Query.{AreTextRanges, AreTextTerms, IsRangesRefusal, IsTermsRefusal, end_bytes, end_length, measured_term, range_record};
ghost use Rattle.tv_blocks.specs.QueryRefusals.{query_error, text_refusal};
ghost use Rattle.tv_blocks.specs.Refusals.{TellsNotUtf8};

use crate::block_error::BlockError;
use crate::buffer::put_whole;
use crate::line_refusal::ValueRefusal;
use crate::query_refusal::QueryRefusal;
use std::alloc::{AllocError, Global};
use tv_field::json_value::JsonRefusal;
use tv_indexing::{TermList, TextTermsError};
use tv_schema::Schema;
use tv_term::TermRange;

// Why the type of a field refuses a text; `None` where memory was refused.
fn text_refusal(refusal: JsonRefusal) -> Option<ValueRefusal>
    ensures { result ≡ text_refusal refusal }
{
    match refusal {
        JsonRefusal::Overflow(_) => Some(ValueRefusal::Overflow),
        JsonRefusal::Mismatch(_) => Some(ValueRefusal::WrongType),
        JsonRefusal::Parse(_) => Some(ValueRefusal::BadText),
        JsonRefusal::InvalidBase64 => Some(ValueRefusal::BadBase64),
        JsonRefusal::FloatNumber => Some(ValueRefusal::FloatNumber),
        JsonRefusal::Memory => None,
    }
}

// What is said of a text that has no terms, or no ranges. Neither call of `tv_indexing` returns `NoRange`.
fn query_error(error: &TextTermsError) -> BlockError
    ensures { result ≡ query_error error.now }
{
    let refusal = match error {
        TextTermsError::UnknownPath(_) => return BlockError::NoField,
        TextTermsError::NotIndexed(field) => QueryRefusal::NotIndexed {
            field: field.field_id(),
        },
        TextTermsError::PathEnds(field) => QueryRefusal::PathEnds {
            field: field.field_id(),
        },
        TextTermsError::NulInPath(field) => QueryRefusal::NulInPath {
            field: field.field_id(),
        },
        TextTermsError::WrongText(field, _, refusal, _) => match text_refusal(*refusal) {
            Some(refusal) => QueryRefusal::BadText {
                field: field.field_id(),
                refusal,
            },
            None => return BlockError::Memory,
        },
        TextTermsError::WrongRange(_) => QueryRefusal::NoRange,
        TextTermsError::Backwards(field) => QueryRefusal::Backwards {
            field: field.field_id(),
        },
        TextTermsError::NoRange(_) | TextTermsError::Memory => return BlockError::Memory,
    };
    BlockError::BadQuery(refusal)
}

// Appends the length of a term and the term.
fn append_term(content: &mut Vec<u8>, term: &[u8]) -> Result<(), AllocError>
    ensures { OnOk result (content.new.items ≡ content.old.items ++ measured_term term.now) }
{
    content.extend_from_slice(&(term.len() as u64).to_le_bytes())?;
    content.extend_from_slice(term)
}

// Appends the records of terms.
fn append_terms(content: &mut Vec<u8>, terms: &TermList) -> Result<(), AllocError>
    ensures { OnOk result
        (content.new.items ≡ content.old.items ++ flat_map measured_term terms.now) }
{
    for term in terms.iter() {
        append_term(content, term)?;
    }
    Ok(())
}

// The length of a range's end, and the end.
fn parts_of_end(range: &TermRange) -> (u64, &[u8])
    ensures length { result.0 ≡ end_length range.now.end }
    ensures bytes { result.1.now ≡ end_bytes range.now.end }
{
    match range.end() {
        Some(end) => (end.len() as u64, end),
        None => (u64::MAX, &[]),
    }
}

// Appends the lengths of a range's start and end, and then both.
fn append_range(content: &mut Vec<u8>, range: &TermRange) -> Result<(), AllocError>
    ensures { OnOk result (content.new.items ≡ content.old.items ++ range_record range.now) }
{
    let start = range.start();
    let (end_len, end) = parts_of_end(range);
    content.extend_from_slice(&(start.len() as u64).to_le_bytes())?;
    content.extend_from_slice(&end_len.to_le_bytes())?;
    content.extend_from_slice(start)?;
    content.extend_from_slice(end)
}

// Appends the records of ranges.
fn append_ranges(content: &mut Vec<u8>, ranges: &[TermRange]) -> Result<(), AllocError>
    ensures { OnOk result
        (content.new.items ≡ content.old.items ++ flat_map range_record ranges.now) }
{
    for range in ranges {
        append_range(content, range)?;
    }
    Ok(())
}

/// Writes the terms that a text of a query has at what the path names by a schema, see `tv_indexing::terms_of_text`, in their order, and returns
/// how many bytes these take. Each stands after its own length in eight bytes, the lowest first.
///
/// Errors: `NotUtf8` where the path or the text isn't UTF-8, else `NoField` where the path names no field, `BadQuery` with `NotIndexed`, `PathEnds`,
/// `NulInPath` or `BadText`, `TooSmall`, `Memory`. The buffer then stays as it is.
pub fn terms_of_text(
    alloc: Global,
    schema: &Schema,
    path: &[u8],
    text: &[u8],
    terms: &mut [u8],
) -> Result<u64, BlockError>
    ensures fills { FillsBuffer (AreTextTerms schema.now path.now text.now)
        (IsTermsRefusal schema.now path.now text.now) terms.old terms.new result }
    ensures path_not_utf8 { TellsNotUtf8 path.now result }
    ensures text_not_utf8 { TellsNotUtf8 text.now result }
{
    let Ok(path) = str::from_utf8(path) else {
        return Err(BlockError::NotUtf8);
    };
    let Ok(text) = str::from_utf8(text) else {
        return Err(BlockError::NotUtf8);
    };
    let mut found = TermList::new(alloc);
    if let Err(error) = tv_indexing::terms_of_text(alloc, schema, path, text, &mut found) {
        return Err(query_error(&error));
    }
    let mut content = Vec::new(alloc);
    append_terms(&mut content, &found)?;
    put_whole(content.as_slice(), terms)
}

/// Writes the ranges of terms that a text of a query bounds at what the path names by a schema, as `[10 TO 20}`, see
/// `tv_indexing::ranges_of_text`, in their order, and returns how many bytes these take. For each range that is the length of its start and the length of
/// its end, both in eight bytes, the lowest first, and then its start and its end. The length of an end that isn't there is 2^64 - 1.
///
/// Errors: `NotUtf8` where the path or the text isn't UTF-8, else `BadQuery` with `NoRange` where the text bounds no range, `NoField` where the
/// path names no field, `BadQuery` with `NotIndexed`, `PathEnds`, `NulInPath`, `BadText` or `Backwards`, `TooSmall`, `Memory`. The buffer then stays
/// as it is.
pub fn ranges_of_text(
    alloc: Global,
    schema: &Schema,
    path: &[u8],
    text: &[u8],
    ranges: &mut [u8],
) -> Result<u64, BlockError>
    ensures fills { FillsBuffer (AreTextRanges schema.now path.now text.now)
        (IsRangesRefusal schema.now path.now text.now) ranges.old ranges.new result }
    ensures path_not_utf8 { TellsNotUtf8 path.now result }
    ensures text_not_utf8 { TellsNotUtf8 text.now result }
{
    let Ok(path) = str::from_utf8(path) else {
        return Err(BlockError::NotUtf8);
    };
    let Ok(text) = str::from_utf8(text) else {
        return Err(BlockError::NotUtf8);
    };
    let found = match tv_indexing::ranges_of_text(alloc, schema, path, text) {
        Ok(found) => found,
        Err(error) => return Err(query_error(&error)),
    };
    let mut content = Vec::new(alloc);
    append_ranges(&mut content, found.as_slice())?;
    put_whole(content.as_slice(), ranges)
}
