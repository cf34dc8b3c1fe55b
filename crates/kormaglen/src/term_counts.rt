//! How many documents have each term, as far as memory is given for them.

use crate::ending::Failure;
use std::alloc::Global;
use std::collections::BTreeMap;

// About what the map takes for each term beside the term's bytes: in a node of the tree 24 bytes for the place and the length of the term and 8 for
// its count, of which nodes are half to wholly filled, and some 20 by which the system's allocator rounds the term up and marks it.
const BYTES_PER_TERM: u64 = 80;

/// The terms of documents, with how many documents have each.
pub(crate) struct TermCounts {
    alloc: Global,
    counts: BTreeMap<Vec<u8>, u64>,
    bytes: u64,
    most: u64,
}

impl Drop for TermCounts {
    fn drop(self) {
        let TermCounts {
            alloc: _,
            counts: _,
            bytes: _,
            most: _,
        } = self;
    }
}

impl TermCounts {
    /// No terms, of which more may be counted until they take more than this many bytes.
    pub(crate) fn new(alloc: Global, most: u64) -> TermCounts {
        TermCounts {
            alloc,
            counts: BTreeMap::new(alloc),
            bytes: 0,
            most,
        }
    }

    /// Counts a document that has this term.
    pub(crate) fn count(&mut self, term: &[u8]) -> Result<(), Failure> {
        match self.counts.get_mut(term) {
            Some(count) => *count = count.saturating_add(1),
            None => {
                self.counts.insert(Vec::from_slice(self.alloc, term)?, 1)?;
                let bytes = (term.len() as u64).saturating_add(BYTES_PER_TERM);
                self.bytes = self.bytes.saturating_add(bytes);
            }
        }
        Ok(())
    }

    /// Whether the terms take more bytes than they may.
    pub(crate) fn is_full(&self) -> bool {
        self.bytes > self.most
    }

    /// The terms in their order, each with its count.
    pub(crate) fn as_map(&self) -> &BTreeMap<Vec<u8>, u64> {
        &self.counts
    }

    /// Forgets the terms.
    pub(crate) fn clear(&mut self) {
        self.counts.clear();
        self.bytes = 0;
    }
}
