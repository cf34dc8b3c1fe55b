//! The conformance suite of the store and of lines of JSON in plain text, in the form of the program `cases`: each line of the input
//! names a call and has its arguments, and is answered by one line that says what the call returns. The answers are compared with those
//! that the format, the standards and the original give.
#![tactic(auto)]

mod calls;
mod lines;
mod over_each;
mod reads;
mod sources;
mod steps;
mod stored;
mod typed;

use anyhow::{Result, anyhow};
use case_words::suite::{Suite, answer_rows};
use std::alloc::Global;

struct StoreCases;

impl Suite for StoreCases {
    fn answer(alloc: Global, topic: &str, call: &[&str]) -> Result<String> {
        match topic {
            "read" => reads::answer(alloc, call),
            "steps" => steps::answer(alloc, call),
            "stored" => stored::answer(alloc, call),
            "typed" => typed::answer(alloc, call),
            "lines" => lines::answer(alloc, call),
            _ => Err(anyhow!("an unknown topic: {topic}")),
        }
    }
}

fn main(rt: HostRuntime) -> Result<()> {
    answer_rows::<StoreCases>(&rt)
}
