//! What a command writes: to the standard output, or to files that are there only once all of them are whole.

use crate::ending::{Failure, of_file, write_failed, wrong_use};
use crate::parts::{Part, begin_part, file_behind, settle_all};
use crate::standard::StandardOutput;
use either::Either;
use std::fs::{self, File};
use std::io::{BufWriter, Write};
use tantivy_schema::common::WriteSink;
use tv_base::write::write_all;

/// A file, or the standard output.
pub(crate) type Target = Either<File, StandardOutput>;

// This many bytes are written at once.
const PIECE: usize = 65536;

/// Where results are appended.
pub(crate) type OutputSink = WriteSink<BufWriter<Target>>;

/// An output that is written: a new file beside the one that is named, or the standard output, a device or a pipe. Where it is dropped, the new file is gone.
#[derive(Drop)]
pub(crate) struct Output {
    rt: HostRuntime,
    name: String,
    sink: OutputSink,
    part: Option<Part>,
}

impl Output {
    /// Where results are appended.
    pub(crate) fn sink(&mut self) -> &mut OutputSink {
        &mut self.sink
    }

    /// Appends bytes.
    pub(crate) fn append(&mut self, bytes: &[u8]) -> Result<(), Failure> {
        match write_all(&mut self.sink, bytes) {
            Ok(()) => Ok(()),
            Err(error) => Err(write_failed(self.rt.alloc(), self.name.as_str(), error.0)),
        }
    }

    /// Appends a text and a line feed.
    pub(crate) fn print_line(&mut self, line: &str) -> Result<(), Failure> {
        self.append(line.as_bytes())?;
        self.append(b"\n")
    }

    // Writes what is buffered, to last. Gives the file, if that is a new one.
    fn flushed(self) -> Result<Option<Part>, Failure> {
        let Output {
            rt,
            name,
            sink,
            part,
        } = self;
        let (alloc, name) = (rt.alloc(), name.as_str());
        let flushed = sink.into_inner().flush();
        match &part {
            Some(part) => {
                of_file(alloc, name, flushed)?;
                of_file(alloc, name, part.sync())?;
            }
            None => {
                if let Err(error) = flushed {
                    return Err(write_failed(alloc, name, error.kind()));
                }
            }
        }
        Ok(part)
    }
}

// A sink over this target.
fn sink_of(rt: &HostRuntime, target: Target) -> Result<OutputSink, Failure> {
    match BufWriter::with_capacity(rt.alloc(), PIECE, target) {
        Ok(writer) => Ok(WriteSink::new(writer)),
        Err(_) => Err(Failure::Memory),
    }
}

// Whether something stands there that is no file, as a device or a pipe.
fn is_special(rt: &HostRuntime, name: &str) -> bool {
    match fs::metadata(rt, name) {
        Ok(found) => !found.is_file(),
        Err(_) => false,
    }
}

// The standard output, or what is no file: both are written as they stand.
fn standing(rt: &HostRuntime, name: &str) -> Result<Target, Failure> {
    if name == "-" {
        return Ok(Either::Right(StandardOutput(*rt)));
    }
    let opened = fs::OpenOptions::new().write(true).open(rt, name);
    Ok(Either::Left(of_file(rt.alloc(), name, opened)?))
}

// Begins a new file beside the one that the name stands for.
fn part_of(rt: &HostRuntime, name: &str) -> Result<Part, Failure> {
    let path = file_behind(rt, name)?;
    if path.as_str().ends_with(".part") {
        return Err(wrong_use(
            rt.alloc(),
            name,
            "files that are still written have names that end so",
        ));
    }
    begin_part(rt, path)
}

// An output of this name over a target.
fn output_over(
    rt: &HostRuntime,
    name: &str,
    target: Target,
    part: Option<Part>,
) -> Result<Output, Failure> {
    let sink = sink_of(rt, target)?;
    let name = String::from_str(rt.alloc(), name)?;
    Ok(Output {
        rt: *rt,
        name,
        sink,
        part,
    })
}

/// Begins an output. A file of this name stays as it is until the output is finished; a device or a pipe is written as it stands.
pub(crate) fn create(rt: &HostRuntime, name: &str) -> Result<Output, Failure> {
    if name == "-" || is_special(rt, name) {
        return output_over(rt, name, standing(rt, name)?, None);
    }
    let part = part_of(rt, name)?;
    let file = of_file(rt.alloc(), name, part.writer())?;
    output_over(rt, name, Either::Left(file), Some(part))
}

/// Begins an output, if its name is given.
pub(crate) fn create_optional(
    rt: &HostRuntime,
    name: Option<&str>,
) -> Result<Option<Output>, Failure> {
    match name {
        Some(name) => Ok(Some(create(rt, name)?)),
        None => Ok(None),
    }
}

/// Ends the outputs of a command, of which the first is what the others are about: what is buffered is written to last,
/// and then the files have their names. Where one of them can't be written, all files are as they were.
pub(crate) fn finish_all(rt: &HostRuntime, outputs: Vec<Output>) -> Result<(), Failure> {
    let mut parts = Vec::new(rt.alloc());
    for output in outputs {
        if let Some(part) = output.flushed()? {
            parts.push(part)?;
        }
    }
    settle_all(parts.as_mut_slice())
}

/// Prints lines on the standard output.
pub(crate) fn print_lines(rt: &HostRuntime, lines: &[String]) -> Result<(), Failure> {
    let mut output = create(rt, "-")?;
    for line in lines {
        output.print_line(line.as_str())?;
    }
    finish(output)
}

/// Ends the only output of a command.
pub(crate) fn finish(output: Output) -> Result<(), Failure> {
    let rt = output.rt;
    let mut outputs = Vec::new(rt.alloc());
    outputs.push(output)?;
    finish_all(&rt, outputs)
}
