//! What a command reads: files, the standard input, and schemas.

use crate::ending::{Failure, failed, of_file};
use clap::ArgMatches;
use either::Either;
use std::alloc::Global;
use std::fs::{self, File};
use std::io::{Input, Read, Seek, SeekFrom};
use tantivy_schema::common::BufferedSource;
use tantivy_schema::schema::Schema;
use tantivy_schema::store::{DocStoreVersion, ReadLimits, WriteVersion};

/// A file, or the standard input.
pub(crate) type Origin = Either<File, <HostRuntime as Input>::Reader>;

/// A source of the bytes of a block.
pub(crate) type BlockSource = BufferedSource<Origin>;

// This many bytes are read at once.
const PIECE: usize = 65536;

// A schema's JSON has at most this many bytes.
const MOST_TEXT: u64 = 16 << 20;

/// Opens a file to be read; `-` is the standard input.
pub(crate) fn open(rt: &HostRuntime, name: &str) -> Result<Origin, Failure> {
    if name == "-" {
        // reads no byte, which fails where the standard input is closed
        of_file(rt.alloc(), name, rt.stdin().read(&mut []))?;
        return Ok(Either::Right(rt.reader()));
    }
    Ok(Either::Left(of_file(rt.alloc(), name, fs::open(rt, name))?))
}

/// A source of the bytes of a file.
pub(crate) fn source(rt: &HostRuntime, name: &str) -> Result<BlockSource, Failure> {
    let origin = open(rt, name)?;
    Ok(BufferedSource::with_capacity(rt.alloc(), PIECE, origin)?)
}

/// A source of the bytes of an open file from this byte on, which moves the file. A file that has no byte there is refused, unless that is its first.
pub(crate) fn source_at(
    alloc: Global,
    name: &str,
    file: &File,
    start: u64,
) -> Result<BlockSource, Failure> {
    let mut file = of_file(alloc, name, file.try_clone())?;
    let length = of_file(alloc, name, file.seek(SeekFrom::End(0)))?;
    if start >= length && start > 0 {
        let what = format!(in alloc; "it has {length} bytes, and none at {start}")?;
        return Err(failed(alloc, name, what));
    }
    of_file(alloc, name, file.seek(SeekFrom::Start(start)))?;
    Ok(BufferedSource::with_capacity(alloc, PIECE, Either::Left(file))?)
}

// The text that a reader gives, which has at most 16 MiB.
fn text_in<F: Read + Drop>(alloc: Global, name: &str, reader: F) -> Result<String, Failure> {
    let mut text = String::new(alloc);
    let read = reader.take(MOST_TEXT + 1).read_to_string(&mut text);
    if of_file(alloc, name, read)? as u64 > MOST_TEXT {
        return Err(failed(alloc, name, "it is longer than 16 MiB"));
    }
    Ok(text)
}

/// The schema of a file.
pub(crate) fn schema_of(rt: &HostRuntime, name: &str) -> Result<Schema, Failure> {
    let alloc = rt.alloc();
    let text = text_in(alloc, name, open(rt, name)?)?;
    let json = match serde_json::Value::from_str(alloc, text.as_str()) {
        Ok(json) => json,
        Err(error) => return Err(failed(alloc, name, error)),
    };
    match Schema::from_json_value_by_key(alloc, &json) {
        Ok(schema) => Ok(schema),
        Err(error) => Err(failed(alloc, name, error)),
    }
}

/// The schema that the words name.
pub(crate) fn schema_given(rt: &HostRuntime, given: &ArgMatches<'_>) -> Result<Schema, Failure> {
    schema_of(rt, text(given, "schema"))
}

/// The text of an option or an argument, or an empty one.
pub(crate) fn text<'a>(given: &ArgMatches<'a>, name: &str) -> &'a str {
    given.get_str(name).unwrap_or("")
}

/// The version that an option names: 2 where it names none.
pub(crate) fn version(given: &ArgMatches<'_>, name: &str) -> DocStoreVersion {
    match text(given, name) {
        "1" => DocStoreVersion::V1,
        "3" => DocStoreVersion::V3,
        _ => DocStoreVersion::V2,
    }
}

/// The version that an option names to be written: 2 where it names none.
pub(crate) fn written_version(given: &ArgMatches<'_>, name: &str) -> WriteVersion {
    match text(given, name) {
        "3" => WriteVersion::V3,
        _ => WriteVersion::V2,
    }
}

/// The limits that the words set on one document.
pub(crate) fn limits(given: &ArgMatches<'_>) -> ReadLimits {
    ReadLimits {
        bytes: given.get_one::<u64>("limit-bytes"),
        heap_bytes: None,
        depth: match given.get_one::<u64>("limit-depth") {
            Some(depth) => Some(u32::try_from(depth).unwrap_or(u32::MAX)),
            None => None,
        },
    }
}
