//! Measures the calls that a document store makes most, on a schema and documents that it is given, and calls on documents of many values,
//! members or levels.
//!
//! Standard input has two parts, with an empty line between them; each may be missing. The first holds a schema as JSON on its first line,
//! and a document as JSON on each other line. Standard output says how many documents were accepted, how many bytes of JSON these have, and
//! how many stored bytes. With the arguments `time N` standard error says for each call how many nanoseconds a document takes: the mean over N
//! rounds, and that of the best round. `time N CALL` makes that call alone.
//!
//! Each line of the second part has a shape's name and a number, as in `levels 1000000`: what there are many of, and how many. For each call
//! that the shape has, standard output has the line, the call's name and how many bytes or fields its answer has, or that the values nest
//! too deep for it. With arguments as above standard error says how many nanoseconds the call took, which is made once.
#![tactic(auto)]

mod calls;
mod growth;
mod workload;

use crate::calls::{Call, Round};
use crate::growth::answer_rows;
use crate::workload::Workload;
use anyhow::{Context, Result};
use std::env;
use std::io::{BufRead, BufReader};
use std::rt::{Clock, Env};
use std::time::Instant;

fn main(rt: HostRuntime) -> Result<()> {
    let wanted = rounds_wanted(&rt)?;
    let is_timed = wanted.is_some();
    let (documents, rows) = parts(&rt)?;
    if !documents.is_empty() {
        measure_documents(&rt, documents, wanted)?;
    }
    answer_rows(&rt, rows.as_slice(), is_timed)
}

// The lines of standard input before its first empty line, and those after it.
fn parts(rt: &(impl Input + AllocGlobal)) -> Result<(Vec<String>, Vec<String>)> {
    let alloc = rt.alloc();
    let mut before = Vec::new(alloc);
    let mut behind = Vec::new(alloc);
    let mut is_behind = false;
    for line in BufReader::new(alloc, rt.reader())?.lines(alloc) {
        let line = line?;
        if is_behind {
            behind.push(line)?;
        } else if line.is_empty() {
            is_behind = true;
        } else {
            before.push(line)?;
        }
    }
    Ok((before, behind))
}

// Says how many documents a schema on the first line accepts, and measures each call that is wanted on them.
fn measure_documents(
    rt: &(impl Clock + Print + Eprint + AllocGlobal),
    lines: Vec<String>,
    wanted: Option<(u32, String)>,
) -> Result<()> {
    let workload = Workload::of(rt.alloc(), lines)?;
    let documents = workload.documents.len();
    let json_len = workload.json_len();
    let stored_len = workload.stored_len();
    println!(rt;
        "{documents} accepted documents, {json_len} bytes of JSON, {stored_len} stored bytes"
    )?;
    if let Some((rounds, name)) = wanted {
        for (known, call) in Call::NAMED {
            if name.is_empty() || name.as_str() == known {
                measure(rt, &workload, known, call, rounds)?;
            }
        }
    }
    Ok(())
}

// How many rounds the arguments `time N` or `time N CALL` ask for, and the call's name, which is empty where all are meant.
fn rounds_wanted(rt: &(impl Env + AllocGlobal)) -> Result<Option<(u32, String)>> {
    let mut words = env::args(rt)?.skip(1);
    let Some(first) = words.next() else {
        return Ok(None);
    };
    if first.as_str() != "time" {
        return Ok(None);
    }
    let number = words.next().context("how many rounds?")?;
    let rounds = number
        .as_str()
        .parse::<u32>()
        .ok()
        .context("a number of rounds")?;
    let name = words.next().unwrap_or(String::new(rt.alloc()));
    Ok(Some((rounds, name)))
}

// Makes the call of this name for each document, in this many rounds, and says what a document takes.
fn measure(
    rt: &(impl Clock + Eprint + AllocGlobal),
    workload: &Workload,
    name: &str,
    call: Call,
    rounds: u32,
) -> Result<()> {
    let mut total: u128 = 0;
    let mut best = u128::MAX;
    let mut done = Round::new();
    for _ in 0..rounds {
        let start = Instant::now(rt)?;
        done = call.for_each(rt.alloc(), workload)?;
        let nanos = start.elapsed(rt)?.as_nanos();
        total = total.saturating_add(nanos);
        best = best.min(nanos);
    }
    let calls = u128::from(done.calls).max(1);
    let mean = total / u128::from(rounds).max(1) / calls;
    let best = best / calls;
    eprintln!(rt;
        "{name} {mean} ns/doc (best round {best}), {} bytes",
        done.bytes
    )?;
    if done.left_out > 0 {
        eprintln!(rt; "{name} left out {}", done.left_out)?;
    }
    Ok(())
}
