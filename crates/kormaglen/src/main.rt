//! The command `kormaglen`: its words, its files, and what it prints. `kormaglen --help` says what it does, and the work is that of `tv_lines`.
#![tactic(auto)]

mod arguments;
mod bars;
mod blocks;
mod depth;
mod ending;
mod facets;
mod faults;
mod files;
mod find;
mod get;
mod imports;
mod inputs;
mod migrations;
mod names;
mod parts;
mod progress;
mod runs;
mod schema_words;
mod schemas;
mod standard;
mod starts;
mod stat;
mod term_counts;
mod terms;
mod visits;

use crate::ending::{refuse_words, run};
use crate::standard::held_streams;
use std::process::ExitCode;
use std::{env, io};

// The words of the command line, under the command's own name.
fn words(rt: &HostRuntime) -> io::Result<Vec<String>> {
    let mut words = Vec::new(rt.alloc());
    words.push(String::from_str(rt.alloc(), "kormaglen")?)?;
    for word in env::args(rt)?.skip(1) {
        words.push(word)?;
    }
    Ok(words)
}

fn main(rt: HostRuntime) -> ExitCode {
    let _held = held_streams(&rt);
    let status = match words(&rt) {
        Ok(words) => run(&rt, words.as_slice()),
        Err(error) => refuse_words(&rt, error.kind()),
    };
    ExitCode::from(status)
}
