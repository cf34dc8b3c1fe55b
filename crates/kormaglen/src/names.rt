//! The names of files in the words: none is read twice that can be read once, and no output is written twice.

use crate::ending::{Failure, wrong_use};
use crate::inputs::text;
use crate::parts::file_behind;
use clap::ArgMatches;
use std::alloc::{AllocError, Global};
use std::collections::BTreeMap;
use std::fs::{self, Metadata};
use std::os::unix::fs::{FileTypeExt, MetadataExt};
use std::path::Path;

// What the standard streams are, whatever they lead to.
const STANDARD_INPUT: &str = "/proc/self/fd/0";

const STANDARD_OUTPUT: &str = "/proc/self/fd/1";

// The device of a file and its number there, which it shares with no other.
type Node = (u64, u64);

fn node_of(found: &Metadata) -> Node {
    (found.dev(), found.ino())
}

// The names of the inputs of a command.
fn inputs<'a>(
    alloc: Global,
    command: &str,
    given: &ArgMatches<'a>,
) -> Result<Vec<&'a str>, AllocError> {
    let mut names = Vec::new(alloc);
    for key in ["schema", "BLOCK"] {
        if let Some(name) = given.get_str(key) {
            names.push(name)?;
        }
    }
    match command {
        "import" => {
            let files = given.get_strs("FILE").unwrap_or(&[]);
            if files.is_empty() {
                names.push("-")?;
            }
            for name in files {
                names.push(*name)?;
            }
        }
        "get" => {
            if let Some(name) = given.get_str("offsets") {
                names.push(name)?;
            }
        }
        _ => {}
    }
    Ok(names)
}

// What a pipe of this name is: what was read from it once is gone.
fn pipe(rt: &HostRuntime, name: &str) -> Option<Node> {
    let name = if name == "-" { STANDARD_INPUT } else { name };
    let found = fs::metadata(rt, name).ok()?;
    if found.file_type().is_fifo() {
        return Some(node_of(&found));
    }
    None
}

// Refuses names of which two are the standard input or the same pipe.
fn refuse_inputs(rt: &HostRuntime, names: &[&str]) -> Result<(), Failure> {
    let alloc = rt.alloc();
    let mut pipes = BTreeMap::new(alloc);
    let mut is_standard_read = false;
    for name in names {
        if *name == "-" && is_standard_read {
            return Err(wrong_use(alloc, name, "the standard input is read once"));
        }
        is_standard_read = is_standard_read || *name == "-";
        if let Some(node) = pipe(rt, name) {
            if pipes.insert(node, true)?.is_some() {
                return Err(wrong_use(alloc, name, "a pipe is read once"));
            }
        }
    }
    Ok(())
}

// What an output of this name is, if it is there.
fn output(rt: &HostRuntime, name: &str) -> Option<Metadata> {
    let name = if name == "-" { STANDARD_OUTPUT } else { name };
    fs::metadata(rt, name).ok()
}

// Whether two outputs that are there are one. A device may be written twice, as /dev/null is.
fn is_one(one: &Metadata, other: &Metadata) -> bool {
    !one.file_type().is_char_device() && node_of(one) == node_of(other)
}

// The path of a file that isn't there, from the root on. `None` where its folder isn't there.
fn path_from_root(rt: &HostRuntime, name: &str) -> Result<Option<String>, Failure> {
    let path = file_behind(rt, name)?;
    let path = Path::new(path.as_str());
    let folder = match path.parent() {
        Some(folder) if !folder.as_str().is_empty() => folder.as_str(),
        _ => ".",
    };
    match (fs::canonicalize(rt, folder), path.file_name()) {
        (Ok(folder), Some(name)) => {
            let whole = folder.as_path().join(rt.alloc(), name)?;
            Ok(Some(whole.into_string()))
        }
        _ => Ok(None),
    }
}

// Whether files of these names that aren't there will be one.
fn will_be_one(rt: &HostRuntime, one: &str, other: &str) -> Result<bool, Failure> {
    match (path_from_root(rt, one)?, path_from_root(rt, other)?) {
        (Some(one), Some(other)) => Ok(one.as_str() == other.as_str()),
        _ => Ok(false),
    }
}

// Refuses two outputs that are one.
fn refuse_outputs(rt: &HostRuntime, one: &str, other: &str) -> Result<(), Failure> {
    if one.is_empty() || other.is_empty() {
        return Ok(());
    }
    let is_one = match (output(rt, one), output(rt, other)) {
        (Some(one), Some(other)) => is_one(&one, &other),
        (None, None) => will_be_one(rt, one, other)?,
        _ => false,
    };
    if is_one || (one == "-" && other == "-") {
        return Err(wrong_use(rt.alloc(), other, "it is written once"));
    }
    Ok(())
}

/// Refuses words that name an output twice, or an input twice that can be read once.
pub(crate) fn refuse_twice(
    rt: &HostRuntime,
    command: &str,
    given: &ArgMatches<'_>,
) -> Result<(), Failure> {
    refuse_inputs(rt, inputs(rt.alloc(), command, given)?.as_slice())?;
    if command != "import" {
        return Ok(());
    }
    let block = text(given, "output");
    let (offsets, errors) = (text(given, "offsets"), text(given, "errors"));
    refuse_outputs(rt, block, offsets)?;
    refuse_outputs(rt, block, errors)?;
    refuse_outputs(rt, offsets, errors)
}
