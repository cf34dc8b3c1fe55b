//! Calls on documents of many values, members or levels, and on many lines, terms and facets.

mod calls;
mod many;
mod nested;
mod sample;
mod shape;

use crate::growth::calls::Call;
use crate::growth::sample::Sample;
use crate::growth::shape::Shape;
use anyhow::{Context, Result, anyhow};
use std::rt::Clock;
use std::time::Instant;

/// Makes each call of each row, which has a shape's name and a number, as in `levels 1000000`, and prints what it answers.
pub fn answer_rows(
    rt: &(impl Clock + Print + Eprint + AllocGlobal),
    rows: &[String],
    is_timed: bool,
) -> Result<()> {
    for row in rows {
        answer_row(rt, row.as_str(), is_timed)?;
    }
    Ok(())
}

// Makes each call that the shape of this row has.
fn answer_row(
    rt: &(impl Clock + Print + Eprint + AllocGlobal),
    row: &str,
    is_timed: bool,
) -> Result<()> {
    let Some((name, number)) = row.split_once(' ') else {
        return Err(anyhow!("a shape and a number"));
    };
    let shape = Shape::named(name).context("a shape")?;
    let count = number.parse::<u32>().ok().context("a number")?;
    let sample = Sample::new(rt.alloc(), shape, count)?;
    for call in shape.calls() {
        make_call(rt, row, &sample, *call, is_timed)?;
    }
    Ok(())
}

// Makes a call, and prints its answer and, on standard error, how long it took.
fn make_call(
    rt: &(impl Clock + Print + Eprint + AllocGlobal),
    row: &str,
    sample: &Sample,
    call: Call,
    is_timed: bool,
) -> Result<()> {
    let start = Instant::now(rt)?;
    let answer = call.make(rt.alloc(), sample)?;
    let nanos = start.elapsed(rt)?.as_nanos();
    match answer {
        Some(len) => println!(rt; "{row} {}: {len}", call.name())?,
        None => println!(rt; "{row} {}: too deep", call.name())?,
    }
    if is_timed {
        eprintln!(rt; "{row} {}: {nanos} ns", call.name())?;
    }
    Ok(())
}
