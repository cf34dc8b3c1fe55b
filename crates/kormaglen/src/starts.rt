//! Where the documents of a block begin, by a file of offsets.

use crate::ending::{Failure, failed, of_file};
use std::alloc::Global;
use std::fs::{self, File};
use std::io::{Read, Seek, SeekFrom};

/// A file of the places at which documents begin, eight bytes for each.
#[derive(Drop)]
pub(crate) struct Offsets {
    name: String,
    file: File,
}

impl Offsets {
    /// Opens the file of this name.
    pub(crate) fn open(rt: &HostRuntime, name: &str) -> Result<Offsets, Failure> {
        let alloc = rt.alloc();
        if name == "-" {
            return Err(failed(alloc, name, "offsets are read from a file"));
        }
        let file = of_file(alloc, name, fs::open(rt, name))?;
        let name = String::from_str(alloc, name)?;
        Ok(Offsets { name, file })
    }

    /// The byte at which the document of this number begins, if the file has as many.
    pub(crate) fn offset(&mut self, alloc: Global, number: u64) -> Result<Option<u64>, Failure> {
        let name = self.name.as_str();
        let length = of_file(alloc, name, self.file.seek(SeekFrom::End(0)))?;
        if length % 8 != 0 {
            return Err(failed(alloc, name, "its length is no multiple of 8"));
        }
        if number >= length / 8 {
            return Ok(None);
        }
        let mut bytes = [0u8; 8];
        of_file(alloc, name, self.file.seek(SeekFrom::Start(number * 8)))?;
        of_file(alloc, name, self.file.read_exact(&mut bytes))?;
        Ok(Some(u64::from_le_bytes(bytes)))
    }
}
