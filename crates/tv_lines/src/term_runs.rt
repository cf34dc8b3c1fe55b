//! Runs: pairs of a term and a count, the terms rising, written one after the other and read again; and several of them merged. So terms that are
//! too many for memory are sorted in parts.

ghost use Rattle.std.specs.Prelude.{◌≡◌, ◌++◌, [], ◌∷◌, List, false, IfErr, IfOk, OnErr, OnOk, option_copied};
ghost use Rattle.tv_base.specs.Stop.{CountsStop};
ghost use Rattle.tv_base.specs.Take.{TakesBy, read_stop};
ghost use Rattle.tv_base.specs.Writing.{Writes};
ghost use Rattle.tv_lines.specs.Streams.{ReportsReads};
ghost use Rattle.tv_lines.specs.TermRuns.{CountsMerge, HasLeft, HaveLeft, IsAtMost, IsLeastRead, IsLesser, IsRun, MergesNext, Pair, RefusesRun, TakesFrom};
ghost use Rattle.tv_lines.specs.TermRuns.{TakesFromEach, TakesPair, pair_at, pair_bytes, pair_of};

use std::alloc::{AllocError, Global};
use std::cmp::Ordering;
use thiserror::Error;
use tv_base::take::{take_pieces, take_u64};
use tv_base::write::{write_all, write_u64};
use tv_base::{ByteSink, ByteSource, ReadError, WriteError};
use tv_store::next_of;

/// Appends a pair to a run: the length of the term, the term, and how many documents have it; both numbers in 8 bytes, the lowest first. The terms of
/// a run are written in their order, each once. (Not in tantivy.)
///
/// Errors: that of a write that failed. The sink then holds what it held before, and a beginning of the pair.
pub fn write_pair<K: ByteSink>(sink: &mut K, term: &[u8], count: u64) -> Result<(), WriteError>
    ensures { Writes K.ByteSink sink.old sink.new result (pair_bytes (term.now, count)) }
{
    write_u64(sink, term.len() as u64)?;
    write_all(sink, term)?;
    write_u64(sink, count)
}

// Takes the next pair: puts its term in place of what `term` holds, and gives its count.
fn take_pair<S: ByteSource>(
    source: &mut S,
    taken: &mut u64,
    term: &mut Vec<u8>,
) -> Result<u64, ReadError>
    ensures takes { TakesBy S.ByteSource source.old taken.old source.new taken.new
        (λ count. (term.new.items, count)) result pair_at }
{
    let len = take_u64(source, taken)?;
    term.clear();
    take_pieces(source, taken, term, len)?;
    take_u64(source, taken)
}

/// Reads the pairs of a run one after the other, each in place of the one before and in its memory. (Not in tantivy.)
pub struct RunReader<S> {
    source: S,
    term: Vec<u8>,
    count: u64,
    has_pair: bool,
}

impl<S: Drop> Drop for RunReader<S> {
    fn drop(self) {
        let RunReader {
            source: _,
            term: _,
            count: _,
            has_pair: _,
        } = self;
    }
}

impl<S: ByteSource> RunReader<S> {
    /// A reader of the run that this source has left. It reads nothing, and takes no memory.
    pub fn new(alloc: Global, source: S) -> RunReader<S>
        ensures source { result.source ≡ source }
        ensures has_pair { result.has_pair ≡ false }
    {
        RunReader {
            source,
            term: Vec::new(alloc),
            count: 0,
            has_pair: false,
        }
    }

    /// Reads the next pair, and says whether there was one: `false` where the source has nothing left. Room for a term is made only as its bytes
    /// come. The order of the terms isn't tested.
    ///
    /// Errors: `Corrupted(UnexpectedEnd)` where something is left that begins with no pair, `Corrupted(TooLong)` where a pair takes 2^64 - 1 bytes,
    /// `Io` where a read failed, and `Memory`. After an error there is no pair, and what the source has left begins anywhere.
    pub fn advance(&mut self) -> Result<bool, ReadError>
        ensures takes { S.is_known self.old.source
            → TakesPair (S.left self.old.source) (S.left self.new.source) (pair_of self.new) result }
        ensures has_pair { IfOk result (λ more. self.new.has_pair ≡ more) }
        ensures none { OnErr result (self.new.has_pair ≡ false) }
        ensures source { ReportsReads S.ByteSource read_stop self.old.source self.new.source result }
    {
        let mut taken = 0;
        self.has_pair = false;
        let read = take_pair(&mut self.source, &mut taken, &mut self.term);
        match next_of(read, taken)? {
            Some(count) => {
                self.count = count;
                self.has_pair = true;
                Ok(true)
            }
            None => Ok(false),
        }
    }

    /// The bytes of the term that was read last.
    pub fn term(&self) -> &[u8]
        ensures { result.now ≡ self.now.term.items }
    {
        self.term.as_slice()
    }

    /// The count that was read last.
    pub fn count(&self) -> u64
        ensures { result ≡ self.now.count }
    {
        self.count
    }

    // Takes the pair that was read if it has this term, and reads the next. Gives the count of what was taken, or 0.
    fn take(&mut self, term: &[u8]) -> Result<u64, ReadError>
        ensures takes { S.is_known self.old.source → (pairs : List Pair)
            → HasLeft S.ByteSource self.old pairs
            → TakesFrom S.ByteSource term.now self.new pairs result }
        ensures source { ReportsReads S.ByteSource read_stop self.old.source self.new.source result }
    {
        if !self.has_pair || self.term.as_slice() != term {
            return Ok(0);
        }
        let count = self.count;
        self.advance()?;
        Ok(count)
    }
}

/// Why the next term of several runs can't be given.
#[derive(Debug, Drop, Error)]
pub enum MergeError {
    /// The run of this number, counted from 0, can't be read.
    #[error("run {0}: {1}")]
    Read(usize, ReadError),
    /// Memory was refused.
    #[error("memory was refused")]
    Memory,
}

impl From<AllocError> for MergeError {
    ghost use Rattle.tv_lines.specs.declared.term_runs.MergeError.TheVariants.{Memory};

    ghost from_gives = { λ _ error. error ≡ Memory };

    fn from(_error: AllocError) -> MergeError {
        MergeError::Memory
    }
}

// Puts the bytes of a term in place of those that are there.
fn put_term(term: &mut Vec<u8>, bytes: &[u8]) -> Result<(), AllocError>
    ensures { OnOk result (term.new.items ≡ bytes.now) }
{
    term.clear();
    term.extend_from_slice(bytes)
}

// The lesser of a term and another, if there is another.
fn lesser<'t>(other: Option<&'t [u8]>, term: &'t [u8]) -> &'t [u8]
    ensures lesser { IsLesser (option_copied other.entry) term.now result.now }
    ensures at_most { IsAtMost result.now term.now }
{
    let Some(other) = other else {
        return term;
    };
    match other.cmp(&term) {
        Ordering::Greater => term,
        _ => other,
    }
}

// The least of the terms that were read and not yet taken.
fn least_term<S: ByteSource>(readers: &[RunReader<S>]) -> Option<&[u8]>
    ensures { IsLeastRead readers.now (option_copied result) }
{
    let mut least: Option<&[u8]> = None;
    for reader in readers {
        if reader.has_pair {
            least = Some(lesser(least, reader.term.as_slice()));
        }
    }
    least
}

// Takes a term from each reader that has read it, and gives the sum of its counts.
fn take_term<S: ByteSource>(readers: &mut [RunReader<S>], term: &[u8]) -> Result<u64, MergeError>
    ensures takes { (runs : List (List Pair)) → HaveLeft S.ByteSource readers.old runs
        → TakesFromEach S.ByteSource term.now readers.new runs result }
    ensures failures { CountsMerge S.ByteSource readers.old readers.new result }
{
    let mut total: u64 = 0;
    for (run, reader) in readers.iter_mut().enumerate() {
        match reader.take(term) {
            Ok(count) => total = total.saturating_add(count),
            Err(error) => return Err(MergeError::Read(run, error)),
        }
    }
    Ok(total)
}

/// Merges runs: gives each term that one of them has, in the terms' order, with the sum of its counts. It keeps one term of each run. (Not in
/// tantivy.)
pub struct Merge<S> {
    readers: Vec<RunReader<S>>,
    term: Vec<u8>,
    count: u64,
}

impl<S: Drop> Drop for Merge<S> {
    fn drop(self) {
        let Merge {
            readers: _,
            term: _,
            count: _,
        } = self;
    }
}

impl<S: ByteSource + Drop> Merge<S> {
    /// A merge of no runs. It takes no memory.
    pub fn new(alloc: Global) -> Merge<S>
        ensures { result.readers.items ≡ [] }
    {
        Merge {
            readers: Vec::new(alloc),
            term: Vec::new(alloc),
            count: 0,
        }
    }

    /// Adds the run that this source has left, and reads its first pair.
    ///
    /// Errors: that of `RunReader::advance`, or `Memory`. The merge is as it was then, and the source is dropped.
    pub fn add(&mut self, alloc: Global, source: S) -> Result<(), ReadError>
        ensures ok { S.is_known source → (pairs : List Pair) → IsRun (S.left source) pairs
            → (runs : List (List Pair)) → HaveLeft S.ByteSource self.old.readers.items runs
            → OnOk result (HaveLeft S.ByteSource self.new.readers.items (runs ++ pairs ∷ [])) }
        ensures err { OnErr result (self.new.readers.items ≡ self.old.readers.items) }
        ensures errors { S.is_known source → IfErr result (RefusesRun (S.left source)) }
        ensures failed { IfErr result (λ e. (after : S)
            × CountsStop (read_stop e) (S.failures source) (S.failures after)) }
        ensures term { self.new.term ≡ self.old.term }
        ensures count { self.new.count ≡ self.old.count }
    {
        let mut reader = RunReader::new(alloc, source);
        reader.advance()?;
        self.readers.push(reader)?;
        Ok(())
    }

    /// Takes the least of the terms with which the runs begin from each run that begins with it, and says whether there was one. Where the terms of
    /// each run rise, that is the least of all that are left, and what is left then comes after it; the order isn't tested.
    ///
    /// Errors: `Read` for a run that can't be read, and `Memory`. What the runs have left is unspecified then.
    pub fn advance(&mut self) -> Result<bool, MergeError>
        ensures merges { (runs : List (List Pair))
            → HaveLeft S.ByteSource self.old.readers.items runs
            → MergesNext S.ByteSource self.new.readers.items runs (self.new.term.items, self.new.count)
            result }
        ensures failures { CountsMerge S.ByteSource self.old.readers.items self.new.readers.items
            result }
    {
        let Some(least) = least_term(self.readers.as_slice()) else {
            return Ok(false);
        };
        put_term(&mut self.term, least)?;
        self.count = take_term(self.readers.as_mut_slice(), self.term.as_slice())?;
        Ok(true)
    }

    /// The bytes of the term that was taken last.
    pub fn term(&self) -> &[u8]
        ensures { result.now ≡ self.now.term.items }
    {
        self.term.as_slice()
    }

    /// The sum of the counts of the term that was taken last, and 2^64 - 1 where it is more.
    pub fn count(&self) -> u64
        ensures { result ≡ self.now.count }
    {
        self.count
    }
}
