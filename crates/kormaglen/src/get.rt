//! `get`.

use crate::blocks::layout;
use crate::ending::{Ending, Failure, failed, of_file, say};
use crate::files::{Output, create, finish};
use crate::inputs::{BlockSource, limits, schema_given, source, source_at, text, version};
use crate::starts::Offsets;
use clap::ArgMatches;
use std::alloc::Global;
use std::collections::BTreeMap;
use std::fs::{self, File};
use tantivy_schema::schema::{Document, Schema};
use tantivy_schema::store::{BlockReader, Projection, RefusedDocument};
use tv_lines::export::{JsonLayout, push_pretty};

// A document that is asked for: how often it is still to be printed, and its JSON once it was read.
#[derive(Drop)]
struct Asked {
    times: u64,
    json: Option<String>,
}

// The answers to numbers, in the order in which they are asked for.
struct Answers {
    rt: HostRuntime,
    layout: JsonLayout,
    output: Output,
    numbers: Vec<u64>,
    // How many of the numbers are answered.
    answered: usize,
    asked: BTreeMap<u64, Asked>,
    // The numbers of which there is no document.
    missing: Vec<u64>,
}

impl Drop for Answers {
    fn drop(self) {
        let Answers {
            rt: _,
            layout: _,
            output: _,
            numbers: _,
            answered: _,
            asked: _,
            missing: _,
        } = self;
    }
}

// The documents that numbers ask for.
fn asked_by(alloc: Global, numbers: &[u64]) -> Result<BTreeMap<u64, Asked>, Failure> {
    let mut all = BTreeMap::new(alloc);
    for number in numbers {
        let times = match all.remove(number) {
            Some(Asked { times, json: _ }) => times,
            None => 0,
        };
        let times = times.saturating_add(1);
        all.insert(*number, Asked { times, json: None })?;
    }
    Ok(all)
}

// The numbers of the words.
fn numbers_given(alloc: Global, given: &ArgMatches<'_>) -> Result<Vec<u64>, Failure> {
    let mut numbers = Vec::new(alloc);
    for number in given.get_strs("NUMBER").unwrap_or(&[]) {
        numbers.push(number.parse::<u64>().unwrap_or(0))?;
    }
    Ok(numbers)
}

impl Answers {
    // None of the numbers of the words is answered yet.
    fn begin(rt: &HostRuntime, given: &ArgMatches<'_>) -> Result<Answers, Failure> {
        let alloc = rt.alloc();
        let numbers = numbers_given(alloc, given)?;
        let asked = asked_by(alloc, numbers.as_slice())?;
        Ok(Answers {
            rt: *rt,
            layout: layout(given),
            output: create(rt, "-")?,
            numbers,
            answered: 0,
            asked,
            missing: Vec::new(alloc),
        })
    }

    // The number that is answered next.
    fn next_number(&self) -> Option<u64> {
        self.numbers.get(self.answered).copied()
    }

    // Prints a document, as its JSON stands or over several lines.
    fn print(&mut self, json: &str) -> Result<(), Failure> {
        if self.layout == JsonLayout::Compact {
            return self.output.print_line(json);
        }
        let alloc = self.rt.alloc();
        let mut text = String::new(alloc);
        push_pretty(alloc, json, &mut text)?;
        self.output.print_line(text.as_str())
    }

    // Whether the document of this number was read.
    fn is_read(&self, number: u64) -> bool {
        match self.asked.get(&number) {
            Some(asked) => asked.json.is_some(),
            None => false,
        }
    }

    // Prints the document of the number that comes next, which isn't kept after the last time that it is asked for.
    fn answer(&mut self, number: u64) -> Result<(), Failure> {
        self.answered = self.answered.saturating_add(1);
        let Some(asked) = self.asked.remove(&number) else {
            return Ok(());
        };
        if let Some(json) = &asked.json {
            self.print(json.as_str())?;
        }
        let Asked { times, json } = asked;
        if times > 1 {
            let times = times - 1;
            self.asked.insert(number, Asked { times, json })?;
        }
        Ok(())
    }

    // Prints the documents that come next and were read.
    fn answer_next(&mut self) -> Result<(), Failure> {
        for _ in 0..self.numbers.len() {
            match self.next_number() {
                Some(number) if self.is_read(number) => self.answer(number)?,
                _ => break,
            }
        }
        Ok(())
    }

    // Prints the others that were read, and notes the numbers of which there is no document.
    fn answer_rest(&mut self) -> Result<(), Failure> {
        for _ in 0..self.numbers.len() {
            let Some(number) = self.next_number() else {
                break;
            };
            if !self.is_read(number) {
                self.missing.push(number)?;
            }
            self.answer(number)?;
        }
        Ok(())
    }

    // Takes a document that was read.
    fn take(&mut self, number: u64, json: String) -> Result<(), Failure> {
        if let Some(asked) = self.asked.get_mut(&number) {
            asked.json = Some(json);
        }
        self.answer_next()
    }

    // Ends the output, and says of which numbers there is no document.
    fn end(self, block: &str) -> Result<Ending, Failure> {
        let Answers {
            rt,
            layout: _,
            output,
            numbers: _,
            answered: _,
            asked: _,
            missing,
        } = self;
        finish(output)?;
        for number in &missing {
            say(
                &rt,
                format!(in rt.alloc(); "{block}: there is no document {number}")?.as_str(),
            );
        }
        Ok(if missing.is_empty() {
            Ending::Done
        } else {
            Ending::Refused
        })
    }
}

// Passes over this many documents, and says whether there were as many.
fn pass(
    reader: &mut BlockReader,
    source: &mut BlockSource,
    projection: &Projection,
    documents: u64,
) -> Result<bool, RefusedDocument> {
    for _ in 0..documents {
        if !reader.pass_by(source, projection)? {
            return Ok(false);
        }
    }
    Ok(true)
}

// Reads the document after this many others, and says whether there is one.
fn read_after(
    reader: &mut BlockReader,
    source: &mut BlockSource,
    projection: &Projection,
    documents: u64,
) -> Result<bool, RefusedDocument> {
    match pass(reader, source, projection, documents) {
        Ok(true) => reader.advance_by(source, projection),
        other => other,
    }
}

// A reader of the documents of the block that the words name, from this one on, which begins at this byte.
fn reader_at(alloc: Global, given: &ArgMatches<'_>, documents: u64, byte: u64) -> BlockReader {
    BlockReader::starting_at(alloc, version(given, "version"), documents, byte)
}

// Reads the documents of these numbers, of which none is below the one before, by one pass over the block.
fn read_in_order(
    answers: &mut Answers,
    given: &ArgMatches<'_>,
    schema: &Schema,
    numbers: &[u64],
) -> Result<(), Failure> {
    let (rt, block) = (answers.rt, text(given, "BLOCK"));
    let alloc = rt.alloc();
    let mut source = source(&rt, block)?;
    let mut reader = reader_at(alloc, given, 0, 0);
    let projection = Projection::All(limits(given));
    let mut read: u64 = 0;
    for number in numbers {
        if *number < read {
            continue;
        }
        match read_after(&mut reader, &mut source, &projection, *number - read) {
            Ok(true) => answers.take(*number, reader.document().to_json(alloc, schema)?)?,
            Ok(false) => break,
            Err(error) => return Err(failed(alloc, block, error)),
        }
        read = number.saturating_add(1);
    }
    Ok(())
}

// Answers the numbers by one pass over the block, in which no document after the greatest of them is read. Memory is kept for the documents that
// others are asked for before.
fn get_by_pass(
    mut answers: Answers,
    given: &ArgMatches<'_>,
    schema: &Schema,
) -> Result<Ending, Failure> {
    let mut numbers = answers.numbers.clone()?;
    numbers.as_mut_slice().sort_unstable();
    read_in_order(&mut answers, given, schema, numbers.as_slice())?;
    answers.answer_rest()?;
    answers.end(text(given, "BLOCK"))
}

// The JSON of the document of this number, which begins at this byte of a file.
fn json_at(
    alloc: Global,
    given: &ArgMatches<'_>,
    schema: &Schema,
    file: &File,
    number: u64,
    byte: u64,
) -> Result<Option<String>, Failure> {
    let block = text(given, "BLOCK");
    let mut source = source_at(alloc, block, file, byte)?;
    let mut reader = reader_at(alloc, given, number, byte);
    match reader.advance_by(&mut source, &Projection::All(limits(given))) {
        Ok(true) => Ok(Some(reader.document().to_json(alloc, schema)?)),
        Ok(false) => Ok(None),
        Err(error) => Err(failed(alloc, block, error)),
    }
}

// Answers the numbers by a file of offsets: no other document of the block is read.
fn get_by_offsets(
    mut answers: Answers,
    given: &ArgMatches<'_>,
    schema: &Schema,
    mut offsets: Offsets,
) -> Result<Ending, Failure> {
    let (rt, block) = (answers.rt, text(given, "BLOCK"));
    let alloc = rt.alloc();
    let file = of_file(alloc, block, fs::open(&rt, block))?;
    for _ in 0..answers.numbers.len() {
        let Some(number) = answers.next_number() else {
            break;
        };
        if let Some(byte) = offsets.offset(alloc, number)? {
            if let Some(json) = json_at(alloc, given, schema, &file, number, byte)? {
                answers.take(number, json)?;
                continue;
            }
        }
        answers.missing.push(number)?;
        answers.answer(number)?;
    }
    answers.end(block)
}

// Whether a block of this name is a file, in which any document can be read.
fn is_file(rt: &HostRuntime, block: &str) -> bool {
    match fs::metadata(rt, block) {
        Ok(found) => block != "-" && found.is_file(),
        Err(_) => false,
    }
}

/// Prints documents by their numbers, in the order of these. A block that is no file is read from its first document on, also where there are offsets.
pub(crate) fn get(rt: &HostRuntime, given: &ArgMatches<'_>) -> Result<Ending, Failure> {
    let schema = schema_given(rt, given)?;
    let answers = Answers::begin(rt, given)?;
    match given.get_str("offsets") {
        Some(name) if is_file(rt, text(given, "BLOCK")) => {
            get_by_offsets(answers, given, &schema, Offsets::open(rt, name)?)
        }
        _ => get_by_pass(answers, given, &schema),
    }
}
