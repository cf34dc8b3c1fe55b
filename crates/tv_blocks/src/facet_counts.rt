//! How many documents have a facet at or below each child of a facet.

ghost use Rattle.std.specs.Prelude.{◌≡◌, ◌++◌, map, MatchOption, OnOk};
ghost use Rattle.std.specs.List.{flat_map};
ghost use Rattle.tv_blocks.specs.Buffer.{FillsBuffer};
ghost use Rattle.tv_blocks.specs.FacetCounts.{AreFacetCounts, BeginsWithNoPair, IsCountsRefusal, IsDocumentFacet, ReadsDocumentFacets, facet_record};
ghost use Rattle.tv_blocks.specs.Refusals.{TellsNotUtf8};
ghost use Rattle.tv_base.specs.DocumentCounting.{facet_of};
ghost use Rattle.tv_base.specs.FacetCounting.{entry_of};

use crate::block_error::BlockError;
use crate::buffer::{append_record, put_whole};
use std::alloc::{AllocError, Global};
use tv_base::{DocumentFacet, FacetCount, count_child_documents};

// The pair with whose record the bytes begin, and what follows it.
fn first_pair<'a>(bytes: &'a [u8]) -> Option<(DocumentFacet<'a>, &'a [u8])>
    ensures { MatchOption result (BeginsWithNoPair bytes.now)
        (λ found. IsDocumentFacet (facet_of found.0)
        × (bytes.now ≡ facet_record (facet_of found.0) ++ found.1.now)) }
{
    let (document, behind) = bytes.split_first_chunk::<8>()?;
    let (len, behind) = behind.split_first_chunk::<8>()?;
    let len = u64::from_le_bytes(*len);
    if (behind.len() as u64) < len {
        return None;
    }
    let (facet, rest) = behind.split_at(len as usize);
    if str::from_utf8(facet).is_err() {
        return None;
    }
    let document = u64::from_le_bytes(*document);
    Some((DocumentFacet { facet, document }, rest))
}

// The pairs of the records.
fn read_pairs<'a>(alloc: Global, bytes: &'a [u8]) -> Result<Vec<DocumentFacet<'a>>, BlockError>
    ensures { ReadsDocumentFacets bytes.now result }
{
    let mut pairs = Vec::new(alloc);
    let mut rest = bytes;
    while !rest.is_empty() {
        let start = (bytes.len() - rest.len()) as u64;
        let Some((pair, behind)) = first_pair(rest) else {
            return Err(BlockError::BadPair { start });
        };
        if pairs.push(pair).is_err() {
            return Err(BlockError::Memory);
        }
        rest = behind;
    }
    Ok(pairs)
}

// Appends the records of counts.
fn append_counts(content: &mut Vec<u8>, counts: &[FacetCount<'_>]) -> Result<(), AllocError>
    ensures { OnOk result
        (content.new.items
        ≡ content.old.items ++ flat_map facet_record (map entry_of counts.now)) }
{
    for one in counts {
        append_record(content, one.count, one.child)?;
    }
    Ok(())
}

/// Counts documents by the children of a facet, see `tv_base::count_child_documents`, and returns how many bytes the counts take. The pairs are
/// records in any order: the number of a document and the length of a facet, both in eight bytes, the lowest first, and the encoded facet. What
/// is written is such a record for each child at or below which a document has a facet, in the order of facets: how many documents do, and
/// the encoded child.
///
/// Errors: `NotUtf8` where the parent isn't UTF-8, else `BadPair` for the first record that is cut short or whose facet isn't UTF-8, `TooSmall`,
/// `Memory`. The buffer then stays as it is.
pub fn count_facets(
    alloc: Global,
    parent: &[u8],
    pairs: &[u8],
    counts: &mut [u8],
) -> Result<u64, BlockError>
    ensures fills { FillsBuffer (AreFacetCounts parent.now pairs.now)
        (IsCountsRefusal parent.now pairs.now) counts.old counts.new result }
    ensures not_utf8 { TellsNotUtf8 parent.now result }
{
    if str::from_utf8(parent).is_err() {
        return Err(BlockError::NotUtf8);
    }
    let facets = read_pairs(alloc, pairs)?;
    let found = count_child_documents(alloc, parent, facets.as_slice())?;
    let mut content = Vec::new(alloc);
    append_counts(&mut content, found.as_slice())?;
    put_whole(content.as_slice(), counts)
}
