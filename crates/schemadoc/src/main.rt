//! Answers the lines of its input: the first is a schema's JSON, and each other one a document's. Each document is answered by a
//! line of its stored bytes in hexadecimal and of its text of JSON, and what is refused by `error` and the names of the refusal.
//!
//! It ends with 0 where each line was answered, with 1 where the schema was refused, and with 2 where a read or a write failed, or
//! there was no memory for a line.
#![tactic(auto)]

use std::io;
use std::process::ExitCode;
use tantivy_schema::answer_lines;

fn main(rt: HostRuntime) -> ExitCode {
    ExitCode::from(answer_lines(rt.alloc(), rt.reader(), io::writer(&rt)))
}
