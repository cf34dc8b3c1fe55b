//! Runs of terms in temporary files.

use crate::ending::{Failure, failed, of_file};
use crate::term_counts::TermCounts;
use std::alloc::Global;
use std::fs::{self, File};
use std::io::{self, BufWriter, Seek, SeekFrom};
use tantivy_schema::common::{BufferedSource, WriteSink};
use tv_lines::term_runs::{Merge, MergeError, write_pair};

// This many bytes of a run are read or written at once.
const PIECE: usize = 16384;

// At most this many temporary files are open at once, of which one may be written.
const MOST_FILES: usize = 64;

// This many names are tried for a temporary file.
const MOST_NAMES: u64 = 1 << 20;

/// A run in a file that has no name in its folder any more: so it is gone with the command, however that ends.
#[derive(Drop)]
struct Run {
    file: File,
    name: String,
    // how many merges its pairs have been through
    merges: u32,
}

/// Runs, of which none was merged more often than one before it.
pub(crate) struct Runs {
    folder: String,
    runs: Vec<Run>,
}

impl Drop for Runs {
    fn drop(self) {
        let Runs { folder: _, runs: _ } = self;
    }
}

impl Runs {
    /// No runs; their files will be made in this folder.
    pub(crate) fn new(alloc: Global, folder: String) -> Runs {
        Runs {
            folder,
            runs: Vec::new(alloc),
        }
    }

    /// Whether there are none.
    pub(crate) fn is_empty(&self) -> bool {
        self.runs.is_empty()
    }

    // Adds a run that has been written, whose pairs have been through this many merges.
    fn push(&mut self, alloc: Global, run: RunWriter, merges: u32) -> Result<(), Failure> {
        self.runs.push(run.finish(alloc, merges)?)?;
        Ok(())
    }
}

// A run that is written.
#[derive(Drop)]
struct RunWriter {
    sink: WriteSink<BufWriter<File>>,
    name: String,
}

impl RunWriter {
    // Appends a term and its count.
    fn write(&mut self, alloc: Global, term: &[u8], count: u64) -> Result<(), Failure> {
        match write_pair(&mut self.sink, term, count) {
            Ok(()) => Ok(()),
            Err(error) => Err(failed(alloc, self.name.as_str(), error.0)),
        }
    }

    // Ends the run, to be read from its beginning.
    fn finish(self, alloc: Global, merges: u32) -> Result<Run, Failure> {
        let RunWriter { sink, name } = self;
        let mut writer = sink.into_inner();
        of_file(alloc, name.as_str(), writer.seek(SeekFrom::Start(0)))?;
        let (file, _) = writer.into_parts();
        Ok(Run { file, name, merges })
    }
}

// Makes a file of a name that isn't there.
fn create_file(rt: &HostRuntime, folder: &str) -> Result<(File, String), Failure> {
    let alloc = rt.alloc();
    for number in 0..MOST_NAMES {
        let name = format!(in alloc; "{folder}/kormaglen-{number}.run")?;
        let made = fs::File::create_new(rt, name.as_str());
        if let Err(error) = &made {
            if error.kind() == io::ErrorKind::AlreadyExists {
                continue;
            }
        }
        return Ok((of_file(alloc, name.as_str(), made)?, name));
    }
    Err(failed(alloc, folder, "there is no free name for a temporary file"))
}

// Begins a run in a temporary file.
fn create_run(rt: &HostRuntime, folder: &str) -> Result<RunWriter, Failure> {
    let alloc = rt.alloc();
    let (file, name) = create_file(rt, folder)?;
    of_file(alloc, name.as_str(), fs::remove_file(rt, name.as_str()))?;
    match BufWriter::with_capacity(alloc, PIECE, file) {
        Ok(writer) => Ok(RunWriter {
            sink: WriteSink::new(writer),
            name,
        }),
        Err(_) => Err(Failure::Memory),
    }
}

/// Several runs, read as one.
pub(crate) struct MergedRuns {
    merge: Merge<BufferedSource<File>>,
    names: Vec<String>,
}

impl Drop for MergedRuns {
    fn drop(self) {
        let MergedRuns { merge: _, names: _ } = self;
    }
}

impl MergedRuns {
    // Adds a run.
    fn add(&mut self, alloc: Global, run: Run) -> Result<(), Failure> {
        let Run {
            file,
            name,
            merges: _,
        } = run;
        let source = BufferedSource::with_capacity(alloc, PIECE, file)?;
        if let Err(error) = self.merge.add(alloc, source) {
            return Err(failed(alloc, name.as_str(), error));
        }
        self.names.push(name)?;
        Ok(())
    }

    /// Takes the next term, and says whether there was one.
    pub(crate) fn advance(&mut self, alloc: Global) -> Result<bool, Failure> {
        match self.merge.advance() {
            Ok(more) => Ok(more),
            Err(MergeError::Memory) => Err(Failure::Memory),
            Err(MergeError::Read(run, error)) => match self.names.get(run) {
                Some(name) => Err(failed(alloc, name.as_str(), error)),
                None => Err(failed(alloc, "a temporary file", error)),
            },
        }
    }

    /// The bytes of the term that was taken last.
    pub(crate) fn term(&self) -> &[u8] {
        self.merge.term()
    }

    /// How many documents have it.
    pub(crate) fn count(&self) -> u64 {
        self.merge.count()
    }
}

// Takes this many of the runs, the last first, to be read as one.
fn merged(alloc: Global, runs: &mut Runs, number: usize) -> Result<MergedRuns, Failure> {
    let mut merged = MergedRuns {
        merge: Merge::new(alloc),
        names: Vec::new(alloc),
    };
    for _ in 0..number {
        match runs.runs.pop() {
            Some(run) => merged.add(alloc, run)?,
            None => break,
        }
    }
    Ok(merged)
}

/// Takes all runs, to be read as one.
pub(crate) fn merged_all(alloc: Global, runs: &mut Runs) -> Result<MergedRuns, Failure> {
    let number = runs.runs.len();
    merged(alloc, runs, number)
}

// How many of the last runs are merged next, which is at least two where there are as many, and how many merges the greatest of them has been through:
// those that have been through as many as the last but one, or fewer.
fn to_merge(runs: &[Run]) -> (usize, u32) {
    let mut merges = 0;
    if runs.len() > 1 {
        if let Some(run) = runs.get(runs.len() - 2) {
            merges = run.merges;
        }
    }
    let mut number: usize = 0;
    for run in runs {
        if run.merges <= merges {
            number = number.saturating_add(1);
        }
    }
    (number, merges)
}

// Writes the terms of runs.
fn write_merged(
    alloc: Global,
    merged: &mut MergedRuns,
    writer: &mut RunWriter,
) -> Result<(), Failure> {
    for _ in 0..u64::MAX {
        if !merged.advance(alloc)? {
            break;
        }
        writer.write(alloc, merged.term(), merged.count())?;
    }
    Ok(())
}

// Merges some of the last runs into one.
fn merge_last(rt: &HostRuntime, runs: &mut Runs) -> Result<(), Failure> {
    let alloc = rt.alloc();
    let (number, merges) = to_merge(runs.runs.as_slice());
    let mut merged = merged(alloc, runs, number)?;
    let mut writer = create_run(rt, runs.folder.as_str())?;
    write_merged(alloc, &mut merged, &mut writer)?;
    runs.push(alloc, writer, merges.saturating_add(1))
}

// Writes the terms of counts.
fn write_counts(alloc: Global, counts: &TermCounts, writer: &mut RunWriter) -> Result<(), Failure> {
    for (term, count) in counts.as_map().iter() {
        writer.write(alloc, term.as_slice(), *count)?;
    }
    Ok(())
}

/// Writes the terms that are counted as a run, and forgets them.
pub(crate) fn add_run(
    rt: &HostRuntime,
    runs: &mut Runs,
    counts: &mut TermCounts,
) -> Result<(), Failure> {
    let alloc = rt.alloc();
    if runs.runs.len() >= MOST_FILES - 1 {
        merge_last(rt, runs)?;
    }
    let mut writer = create_run(rt, runs.folder.as_str())?;
    write_counts(alloc, counts, &mut writer)?;
    counts.clear();
    runs.push(alloc, writer, 0)
}
