//! The standard streams.

use std::fs::{self, File};
use std::io::{self, Print, Write};
use std::os::fd::AsRawFd;

// What the system answers to a write to a file that isn't open to be written.
const NOT_OPEN: i32 = 9;

// The null device, opened to be written or else to be read, where that gives it a number up to this one: the stream of the number was closed.
fn in_place_of(rt: &HostRuntime, most: i32, is_written: bool) -> Option<File> {
    let opened = fs::OpenOptions::new()
        .read(!is_written)
        .write(is_written)
        .open(rt, "/dev/null");
    match opened {
        Ok(file) if file.as_raw_fd() <= most => Some(file),
        _ => None,
    }
}

/// Opens the null device in place of each standard stream that is closed, so that no other file gets its number. The standard input is opened to be written
/// and the others to be read: so reading or writing them fails, and nothing is lost in silence. They have to be held as long as other files are opened.
pub(crate) fn held_streams(rt: &HostRuntime) -> [Option<File>; 3] {
    let input = in_place_of(rt, 0, true);
    let output = in_place_of(rt, 1, false);
    let errors = in_place_of(rt, 2, false);
    [input, output, errors]
}

/// The standard output, as a writer. One that is closed or can't be written answers `NotConnected`.
#[derive(Drop)]
pub(crate) struct StandardOutput(pub(crate) HostRuntime);

impl Write for StandardOutput {
    fn write(&mut self, buf: &[u8]) -> io::Result<usize> {
        match self.0.write_some(buf) {
            Err(error) if error.raw_os_error() == Some(NOT_OPEN) => {
                Err(io::Error::from(io::ErrorKind::NotConnected))
            }
            written => written,
        }
    }

    fn flush(&mut self) -> io::Result<()> {
        Ok(())
    }
}
