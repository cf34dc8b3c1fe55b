//! The rows of a suite: lines of input, each of which is answered by a line of output.

use anyhow::{Result, anyhow};
use std::alloc::Global;
use std::io::Read;

/// A conformance suite in plain text.
pub trait Suite {
    /// What a row's call returns. The row's first word is its topic, and the other ones are the call.
    fn answer(alloc: Global, topic: &str, call: &[&str]) -> Result<String>;
}

/// Answers each row of the input. An empty line and a comment are written as they are.
pub fn answer_rows<S: Suite>(rt: &(impl Input + Print + AllocGlobal)) -> Result<()> {
    let alloc = rt.alloc();
    let mut input = String::new(alloc);
    rt.reader().read_to_string(&mut input)?;
    for line in input.as_str().lines() {
        if line.is_empty() || line.starts_with('#') {
            println!(rt; "{line}")?;
        } else {
            let answer = answer::<S>(alloc, line)?;
            println!(rt; "{answer}")?;
        }
    }
    Ok(())
}

// What the call of a row returns.
fn answer<S: Suite>(alloc: Global, line: &str) -> Result<String> {
    let words: Vec<&str> = line.split('\t').collect(alloc)?;
    match words.as_slice() {
        [topic, call @ ..] => S::answer(alloc, topic, call),
        [] => Err(anyhow!("an empty line")),
    }
}
