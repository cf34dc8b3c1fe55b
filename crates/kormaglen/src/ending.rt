//! How the command ends.

use crate::arguments::command;
use crate::files::{create, finish};
use crate::names::refuse_twice;
use crate::{blocks, facets, find, get, imports, migrations, schemas, stat, terms};
use clap::ArgMatches;
use std::alloc::{AllocError, AllocFailed, Global};
use std::fmt::Display;
use std::io::{self, Eprint};

/// How a command that didn't break off ended.
#[derive(Clone, Copy)]
pub(crate) enum Ending {
    /// All was done.
    Done,
    /// Something was refused, and has been reported.
    Refused,
    /// The words were wrong, and that has been reported.
    WrongUse,
}

/// Why a command broke off.
#[derive(Drop)]
pub(crate) enum Failure {
    /// What reads the standard output has closed it.
    Closed,
    /// What went wrong, with the name of the file.
    Said(String),
    /// What is wrong with the words.
    Use(String),
    /// Memory was refused.
    Memory,
}

impl From<AllocError> for Failure {
    fn from(_error: AllocError) -> Failure {
        Failure::Memory
    }
}

impl<T: Drop> From<AllocFailed<T>> for Failure {
    fn from(_error: AllocFailed<T>) -> Failure {
        Failure::Memory
    }
}

/// What went wrong with a file, in words.
pub(crate) fn failed<T: Display + Drop>(alloc: Global, name: &str, what: T) -> Failure {
    match format!(in alloc; "{name}: {what}") {
        Ok(text) => Failure::Said(text),
        Err(_) => Failure::Memory,
    }
}

/// What a call on a file of this name answered, with its error in words.
pub(crate) fn of_file<T: Drop>(
    alloc: Global,
    name: &str,
    call: io::Result<T>,
) -> Result<T, Failure> {
    match call {
        Ok(value) => Ok(value),
        Err(error) => Err(failed(alloc, name, error)),
    }
}

/// A word that can't stand where it stands, and why.
pub(crate) fn wrong_use<T: Display + Drop>(alloc: Global, word: &str, what: T) -> Failure {
    match failed(alloc, word, what) {
        Failure::Said(text) => Failure::Use(text),
        other => other,
    }
}

/// A write that failed. A standard output whose reader has closed it ends the command without a word; one that isn't open at all is told.
pub(crate) fn write_failed(alloc: Global, name: &str, kind: io::ErrorKind) -> Failure {
    if name == "-" && kind == io::ErrorKind::BrokenPipe {
        return Failure::Closed;
    }
    if name == "-" && kind == io::ErrorKind::NotConnected {
        return failed(alloc, name, "the standard output is closed");
    }
    failed(alloc, name, kind)
}

/// Says a text on the standard error, in one line.
pub(crate) fn say(rt: &HostRuntime, text: &str) {
    let _ = match escaped(rt.alloc(), text) {
        Ok(text) => eprintln!(rt; "kormaglen: {text}"),
        Err(_) => eprintln!(rt; "kormaglen: memory was refused"),
    };
}

// Calls the command of this name.
fn call(rt: &HostRuntime, name: &str, given: &ArgMatches<'_>) -> Result<Ending, Failure> {
    refuse_twice(rt, name, given)?;
    match name {
        "import" => imports::import(rt, given),
        "export" => blocks::export(rt, given),
        "get" => get::get(rt, given),
        "check" => blocks::check(rt, given),
        "stat" => stat::stat(rt, given),
        "migrate" => migrations::migrate(rt, given),
        "terms" => terms::terms(rt, given),
        "find" => find::find(rt, given),
        "facets" => facets::facets(rt, given),
        _ => schemas::schema(rt, given),
    }
}

// The exit status. What broke the command off is said.
fn status(rt: &HostRuntime, ended: Result<Ending, Failure>) -> u8 {
    let (status, text) = match ended {
        Ok(Ending::Done) | Err(Failure::Closed) => return 0,
        Ok(Ending::Refused) => return 1,
        Ok(Ending::WrongUse) => return 2,
        Err(Failure::Use(text)) => (2, text),
        Err(Failure::Said(text)) => (3, text),
        Err(Failure::Memory) => {
            say(rt, "memory was refused");
            return 3;
        }
    };
    say(rt, text.as_str());
    status
}

// Prints a text that the words ask for.
fn print_text(rt: &HostRuntime, text: &str) -> Result<Ending, Failure> {
    let mut output = create(rt, "-")?;
    output.append(text.as_bytes())?;
    finish(output)?;
    Ok(Ending::Done)
}

// Says the lines of a text on the standard error.
fn say_lines(rt: &HostRuntime, text: &str) -> Result<Ending, Failure> {
    for line in text.lines() {
        let line = escaped(rt.alloc(), line)?;
        let _ = eprintln!(rt; "{line}");
    }
    Ok(Ending::WrongUse)
}

// Says why the words are wrong, or prints the help that they ask for.
fn answer_wrong(rt: &HostRuntime, error: &clap::Error) -> Result<Ending, Failure> {
    let text = format!(in rt.alloc(); "{error}")?;
    if error.use_stderr() {
        return say_lines(rt, text.as_str());
    }
    print_text(rt, text.as_str())
}

// Calls the command that the words name, as they were read.
fn answer_words(rt: &HostRuntime, words: &ArgMatches<'_>) -> Result<Ending, Failure> {
    match words.subcommand() {
        Some((name, given)) => call(rt, name, given),
        None => Ok(Ending::WrongUse),
    }
}

// Reads the words and calls the command that they name.
fn answer(rt: &HostRuntime, words: &[String]) -> Result<Ending, Failure> {
    match command(rt.alloc())?.try_get_matches_from(words) {
        Ok(matches) => answer_words(rt, &matches),
        Err(error) => answer_wrong(rt, &error),
    }
}

/// Does what the words of a command line say, and gives the exit status: 0 where all was done, 1 where something was refused, 2 for a wrong use, and 3 where
/// the command broke off, with the reason on the standard error.
pub(crate) fn run(rt: &HostRuntime, words: &[String]) -> u8 {
    status(rt, answer(rt, words))
}

/// Says why the words of the command line can't be read, and gives the exit status.
pub(crate) fn refuse_words(rt: &HostRuntime, kind: io::ErrorKind) -> u8 {
    if kind == io::ErrorKind::InvalidData {
        say(rt, "a word of the command line is no UTF-8");
        return 2;
    }
    status(rt, Err(Failure::Memory))
}

/// A text in which each control character is written as an escape, as `\n` or `\u{1b}`. All other characters stay as they are, a backslash too.
pub(crate) fn escaped(alloc: Global, text: &str) -> Result<String, AllocError> {
    let mut escaped = String::with_capacity(alloc, text.len())?;
    for character in text.chars() {
        if character.is_control() {
            for part in character.escape_debug() {
                escaped.push(part)?;
            }
        } else {
            escaped.push(character)?;
        }
    }
    Ok(escaped)
}
