//! Documents that are read step by step, and what a decoder counts on the way.

use crate::over_each::{Ending, Reading, over_each};
use crate::reads;
use anyhow::{Result, anyhow};
use case_words as words;
use std::alloc::Global;
use tantivy_schema::common::{ByteSource, SliceSource};
use tantivy_schema::schema::TantivyDocument;
use tantivy_schema::schema::document::DeserializeError;
use tantivy_schema::store::{DirectDecoder, DocStoreVersion, Step};

// The counts of a decoder: the bytes that were read, the length of the heap, the finished children, the open lists, and whether a
// legacy object was met.
type DecoderCounts = (u64, usize, usize, usize, bool);

fn counts(decoder: &DirectDecoder) -> DecoderCounts {
    (
        decoder.bytes_read(),
        decoder.heap_len(),
        decoder.pending(),
        decoder.frames(),
        decoder.legacy_seen(),
    )
}

// How a document was read step by step.
#[derive(Drop)]
struct Outcome {
    /// What the last step refused.
    refusal: Option<DeserializeError>,
    /// The counts after the last step.
    counts: DecoderCounts,
    /// The most bytes that a step read.
    largest: u64,
    /// The most lists that were open.
    deepest: usize,
    /// The document of the finished pairs.
    document: TantivyDocument,
}

// Reads a document step by step.
fn read_steps<S: ByteSource>(alloc: Global, source: &mut S, version: DocStoreVersion) -> Outcome {
    let mut decoder = DirectDecoder::new(alloc, version);
    let mut largest = 0;
    let mut deepest = 0;
    let mut refusal = None;
    for _ in 0..u64::MAX {
        let before = decoder.bytes_read();
        let answer = decoder.step(source);
        let taken = decoder.bytes_read().saturating_sub(before);
        largest = taken.max(largest);
        deepest = decoder.frames().max(deepest);
        match answer {
            Ok(Step::More) => {}
            Ok(Step::Done) => break,
            Err(error) => {
                refusal = Some(error);
                break;
            }
        }
    }
    Outcome {
        refusal,
        counts: counts(&decoder),
        largest,
        deepest,
        document: decoder.into_doc(),
    }
}

/// The document that is read step by step, and how many bytes were counted.
pub fn document<S: ByteSource>(
    alloc: Global,
    source: &mut S,
    version: DocStoreVersion,
) -> (Result<TantivyDocument, DeserializeError>, Option<u64>) {
    let Outcome {
        refusal,
        counts,
        largest: _,
        deepest: _,
        document,
    } = read_steps(alloc, source, version);
    let answer = match refusal {
        None => Ok(document),
        Some(error) => Err(error),
    };
    (answer, Some(counts.0))
}

// Tells what was counted.
#[derive(Drop)]
struct CountsReading(DocStoreVersion);

impl Reading for CountsReading {
    fn read<S: ByteSource + Drop>(&self, alloc: Global, source: S) -> Result<Ending<S>> {
        let mut source = source;
        let outcome = read_steps(alloc, &mut source, self.0);
        let (read, heap, pending, frames, _) = outcome.counts;
        let pairs = outcome.document.len();
        let (largest, deepest) = (outcome.largest, outcome.deepest);
        let refusal = outcome.refusal;
        let answer = format!(in alloc;
            "refusal {refusal:?}, pairs {pairs}, heap {heap}, finished {pending}, open {frames}, largest step {largest}, most open {deepest}"
        )?;
        Ok(Ending {
            answer,
            counted: Some(read),
            source,
        })
    }
}

// Shows where the open lists, the finished children and the mark of legacy objects change.
#[derive(Drop)]
struct ChangesReading(DocStoreVersion);

impl Reading for ChangesReading {
    fn read<S: ByteSource + Drop>(&self, alloc: Global, source: S) -> Result<Ending<S>> {
        let mut source = source;
        let mut decoder = DirectDecoder::new(alloc, self.0);
        let mut changes = Vec::new(alloc);
        let mut last = (0, 0, false);
        for _ in 0..u64::MAX {
            let answer = decoder.step(&mut source);
            let (read, _, pending, frames, legacy_seen) = counts(&decoder);
            if (frames, pending, legacy_seen) != last {
                last = (frames, pending, legacy_seen);
                changes.push((read, frames, pending, legacy_seen))?;
            }
            if answer != Ok(Step::More) {
                break;
            }
        }
        let answer = format!(in alloc; "{changes:?}")?;
        let counted = Some(decoder.bytes_read());
        Ok(Ending {
            answer,
            counted,
            source,
        })
    }
}

// The document of the pairs that are finished after some steps, and whether the last step says that there is more.
fn after(alloc: Global, call: &[&str]) -> Result<String> {
    let (steps, call) = words::first(call)?;
    let steps: usize = words::number(steps)?;
    let (version, bytes) = reads::version_and_bytes(alloc, call)?;
    let mut source = SliceSource::new(bytes.as_slice());
    let mut decoder = DirectDecoder::new(alloc, version);
    let mut is_more = true;
    for _ in 0..steps {
        is_more = decoder.step(&mut source) == Ok(Step::More);
    }
    let document = decoder.into_doc();
    let pairs = document.len();
    let heap = hex::encode(alloc, document.node_data())?;
    Ok(format!(in alloc; "heap {heap}, pairs {pairs}, more {is_more}")?)
}

/// What a call that reads step by step returns.
pub fn answer(alloc: Global, call: &[&str]) -> Result<String> {
    let (name, call) = words::first(call)?;
    match name {
        "counts" => counted(alloc, call),
        "changes" => changed(alloc, call),
        "after" => after(alloc, call),
        _ => Err(anyhow!("an unknown call that reads step by step")),
    }
}

// What is counted of a document.
fn counted(alloc: Global, call: &[&str]) -> Result<String> {
    let (version, bytes) = reads::version_and_bytes(alloc, call)?;
    over_each(alloc, &bytes, &CountsReading(version))
}

// Where a decoder's state changes.
fn changed(alloc: Global, call: &[&str]) -> Result<String> {
    let (version, bytes) = reads::version_and_bytes(alloc, call)?;
    over_each(alloc, &bytes, &ChangesReading(version))
}
