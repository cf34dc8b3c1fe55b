//! The conformance suite of documents and of what they are made of in plain text, in the form of the program `cases`: each line of the input
//! names a call and has its arguments, and is answered by one line that says what the call returns. The answers are compared with those
//! that the format, the standards and the original give.
#![tactic(auto)]

mod builder;
mod documents;
mod heap;
mod json_values;
mod parts;
mod repeated;
mod rows;
mod terms;
mod tokens;

use anyhow::{Result, anyhow};
use case_words::suite::{Suite, answer_rows};
use std::alloc::Global;

struct DocumentCases;

impl Suite for DocumentCases {
    fn answer(alloc: Global, topic: &str, call: &[&str]) -> Result<String> {
        match topic {
            "tokens" => tokens::answer(alloc, call),
            "json" => json_values::answer(alloc, call),
            "document" => documents::answer(alloc, call),
            "builder" => builder::answer(alloc, call),
            "heap" => heap::answer(alloc, call),
            "terms" => terms::answer(alloc, call),
            "row" => rows::answer(alloc, call),
            _ => Err(anyhow!("an unknown topic: {topic}")),
        }
    }
}

fn main(rt: HostRuntime) -> Result<()> {
    answer_rows::<DocumentCases>(&rt)
}
