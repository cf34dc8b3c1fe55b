//! A conformance suite in plain text: each line of the input names a call and has its arguments, and is answered by one line that
//! says what the call returns. The answers are compared with those that the format, the standards and the original give.
#![tactic(auto)]

mod dates;
mod facets;
mod numbers;
mod options;
mod paths;
mod ranges;
mod rows;
mod schemas;
mod shared;
mod terms;
mod values;

use anyhow::{Result, anyhow};
use case_words::suite::{Suite, answer_rows};
use std::alloc::Global;

struct Cases;

impl Suite for Cases {
    fn answer(alloc: Global, topic: &str, call: &[&str]) -> Result<String> {
        match topic {
            "number" => numbers::answer(alloc, call),
            "facet" => facets::answer(alloc, call),
            "path" => paths::answer(alloc, call),
            "date" => dates::answer(alloc, call),
            "option" => options::answer(alloc, call),
            "type" => options::answer_types(alloc, call),
            "value" => values::answer(alloc, call),
            "term" => terms::answer(alloc, call),
            "schema" => schemas::answer(alloc, call),
            "row" => rows::answer(alloc, call),
            _ => Err(anyhow!("an unknown topic: {topic}")),
        }
    }
}

fn main(rt: HostRuntime) -> Result<()> {
    answer_rows::<Cases>(&rt)
}
