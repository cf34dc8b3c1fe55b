//! How far the work on the inputs has come, on the standard error.

use crate::bars::push_times;
use crate::inputs::text;
use clap::ArgMatches;
use std::alloc::{AllocError, Global};
use std::fs;
use std::io::{Eprint, IsTerminal};
use std::time::{Duration, Instant};
use tantivy_schema::store::Watch;

// Nothing is shown before this many milliseconds have passed.
const WAITING: u64 = 500;

// A line is shown this many milliseconds at least.
const STANDING: u64 = 200;

// The clock is looked at after this many documents at most.
const MOST_STEP: u64 = 1024;

/// What erases the line where code that doesn't hold the `Progress` writes something else to the standard error. The line comes back as the work goes on.
pub(crate) const ERASING: &str =
    "\r                                                                               \r";

// How far the work has come.
#[derive(Clone, Copy)]
struct Work {
    // How many bytes the inputs have in all, where that is known.
    total: Option<u64>,
    // How many bytes were taken of the inputs before this one.
    before: u64,
    // How many bytes were taken of this input.
    taken: u64,
    documents: u64,
}

// Appends a number with a comma between each three digits.
fn write_grouped(line: &mut String, digits: &str) -> Result<(), AllocError> {
    let mut left = digits.len();
    for digit in digits.as_bytes() {
        if left < digits.len() && left % 3 == 0 {
            line.push(',')?;
        }
        line.push(*digit as char)?;
        left = left.saturating_sub(1);
    }
    Ok(())
}

// A time of this many milliseconds in its greatest unit alone, rounded up.
fn in_units(millis: u64) -> (u64, &'static str) {
    let seconds = millis.div_ceil(1000);
    let minutes = seconds.div_ceil(60);
    if seconds < 100 {
        (seconds, "s")
    } else if minutes < 100 {
        (minutes, "min")
    } else {
        (minutes.div_ceil(60), "h")
    }
}

// Megabytes, and tenths of them.
fn megabytes(bytes: u64) -> (u64, u64) {
    (bytes / 1_000_000, bytes / 100_000 % 10)
}

impl Work {
    fn bytes(&self) -> u64 {
        self.before.saturating_add(self.taken)
    }

    // How many milliseconds the rest takes at this many bytes a millisecond, where that can be told.
    fn left(&self, rate: u64) -> Option<u64> {
        let left = self.total?.saturating_sub(self.bytes());
        left.checked_div(rate)
    }

    // Appends the line after this many milliseconds. The digits are those of the number of documents.
    fn write(&self, line: &mut String, digits: &str, millis: u64) -> Result<(), AllocError> {
        let rate = self.bytes() / millis.max(1);
        let (done, tenths) = megabytes(self.bytes());
        write!(line, "{done:>4}.{tenths}")?;
        if let Some(total) = self.total {
            let (total, tenths) = megabytes(total);
            write!(line, " of {total}.{tenths}")?;
        }
        line.push_str(" MB, ")?;
        write_grouped(line, digits)?;
        let (speed, tenths) = megabytes(rate.saturating_mul(1000));
        write!(line, " documents, {speed}.{tenths} MB/s")?;
        if let Some(left) = self.left(rate) {
            let (number, unit) = in_units(left);
            write!(line, ", {number} {unit} left")?;
        }
        Ok(())
    }

    // The line after this many milliseconds.
    fn line(&self, alloc: Global, millis: u64) -> Result<String, AllocError> {
        let digits = format!(in alloc; "{}", self.documents)?;
        let mut line = String::new(alloc);
        self.write(&mut line, digits.as_str(), millis)?;
        Ok(line)
    }
}

/// Shows on the standard error how far the work on some inputs has come: bytes, documents, rate, and the time that is left. It is one line, which
/// is written over the last one. The first comes after half a second, and then at most five come in a second.
///
/// It is advanced after each document or line as a `Watch`. It has to be ended before results are printed after the work, and the line is erased before
/// anything else goes to the standard error.
#[derive(Drop)]
pub(crate) struct Progress {
    rt: HostRuntime,
    // When the work began. `None` where nothing is shown.
    begun: Option<Instant>,
    work: Work,
    // The clock is looked at again when this many documents are done.
    next_look: u64,
    // How many documents were to be done between the last two looks.
    step: u64,
    // When the clock was looked at last, and when a line was written, in milliseconds from the beginning on.
    looked: u64,
    written: u64,
    // How many characters the line has that stands there.
    width: usize,
}

// How many bytes these inputs have in all. `None` where one of them is no file, and where none is named.
fn size_of(rt: &HostRuntime, names: &[&str]) -> Option<u64> {
    if names.is_empty() {
        return None;
    }
    let mut total: u64 = 0;
    for name in names {
        if *name == "-" {
            return None;
        }
        match fs::metadata(rt, *name) {
            Ok(found) if found.is_file() => total = total.saturating_add(found.len()),
            _ => return None,
        }
    }
    Some(total)
}

// Whether progress is shown: where the words say so, and else where the standard error is a terminal, unless results go to a terminal at the same time.
fn is_shown(rt: &HostRuntime, given: &ArgMatches<'_>, is_printing: bool) -> bool {
    if given.get_flag("progress") {
        return true;
    }
    !given.get_flag("quiet")
        && rt.stderr().is_terminal()
        && !(is_printing && rt.stdout().is_terminal())
}

// How many documents are to be done until the next look at the clock, where these took this many milliseconds: a look costs nothing beside them, and
// none comes much too late.
fn next_step(step: u64, millis: u64) -> u64 {
    if millis < 5 {
        return step.saturating_mul(2).min(MOST_STEP);
    }
    if millis < 50 { step } else { (step / 2).max(1) }
}

// Whole milliseconds.
fn millis_of(time: Duration) -> u64 {
    u64::try_from(time.as_millis()).unwrap_or(u64::MAX)
}

impl Progress {
    /// Begins to show the work on the inputs of these names, as the words ask for it. `-` is the standard input. The command's results are those of its
    /// `--output`, or are printed after the work.
    pub(crate) fn of(rt: &HostRuntime, given: &ArgMatches<'_>, names: &[&str]) -> Progress {
        Progress::beside(rt, given, names, text(given, "output") == "-")
    }

    /// The same, for a command that says itself whether it prints results on the standard output during the work.
    pub(crate) fn beside(
        rt: &HostRuntime,
        given: &ArgMatches<'_>,
        names: &[&str],
        is_printing: bool,
    ) -> Progress {
        let begun = if is_shown(rt, given, is_printing) {
            Instant::now(rt).ok()
        } else {
            None
        };
        let total = if begun.is_some() {
            size_of(rt, names)
        } else {
            None
        };
        Progress {
            rt: *rt,
            begun,
            work: Work {
                total,
                before: 0,
                taken: 0,
                documents: 0,
            },
            next_look: if begun.is_some() { 1 } else { u64::MAX },
            step: 1,
            looked: 0,
            written: 0,
            width: 0,
        }
    }

    /// Whether anything is shown.
    pub(crate) fn is_shown(&self) -> bool {
        self.begun.is_some()
    }

    /// Begins the next input: the bytes given to `advance` from here on are counted from its beginning. It may be called before the first input too.
    pub(crate) fn begin_input(&mut self) {
        self.work.before = self.work.bytes();
        self.work.taken = 0;
    }

    /// Erases the line, if one stands there, so that something else can be written to the standard error. The line comes back as the work goes on.
    pub(crate) fn erase(&mut self) {
        if self.width == 0 {
            return;
        }
        let mut spaces = String::new(self.rt.alloc());
        if push_times(&mut spaces, ' ', self.width).is_ok() {
            let _ = eprint!(self.rt; "\r{spaces}\r");
            self.width = 0;
        }
    }

    /// Ends the work: the line is erased.
    pub(crate) fn end(mut self) {
        self.erase();
    }

    // Writes the line over the last one. Without memory it is left out.
    fn write(&mut self, millis: u64) -> Result<(), AllocError> {
        let mut line = self.work.line(self.rt.alloc(), millis)?;
        let width = line.len();
        push_times(&mut line, ' ', self.width.saturating_sub(width))?;
        let _ = eprint!(self.rt; "\r{line}");
        self.width = width;
        Ok(())
    }

    // Looks at the clock, and writes the line if it is time.
    fn look(&mut self, begun: Instant) {
        let Ok(elapsed) = begun.elapsed(&self.rt) else {
            self.begun = None;
            return;
        };
        let millis = millis_of(elapsed);
        self.step = next_step(self.step, millis.saturating_sub(self.looked));
        self.next_look = self.work.documents.saturating_add(self.step);
        self.looked = millis;
        if millis >= WAITING && millis.saturating_sub(self.written) >= STANDING {
            self.written = millis;
            let _ = self.write(millis);
        }
    }
}

impl Watch for Progress {
    fn advance(&mut self, bytes: u64) {
        self.work.taken = bytes;
        self.work.documents = self.work.documents.saturating_add(1);
        if self.work.documents < self.next_look {
            return;
        }
        if let Some(begun) = self.begun {
            self.look(begun);
        }
    }
}
