//! Files that are written beside those that they will replace.

use crate::ending::{Failure, failed, of_file};
use std::alloc::{AllocError, Global};
use std::fs::{self, File, Metadata, Permissions, TryLockError};
use std::os::unix::fs::{MetadataExt, OpenOptionsExt, PermissionsExt, fchown};
use std::path::Path;
use std::time::Duration;
use std::{io, thread};

// This many names are tried for a part.
const MOST_NAMES: u64 = 1 << 20;

// This many links are followed from a name to its file.
const MOST_LINKS: usize = 40;

// A folder is waited for so many times, for so many milliseconds each time.
const MOST_WAITS: u64 = 1000;

const WAIT: u64 = 5;

// The bits of a mode that say who may read, write and run a file, and all that can be set.
const ACCESS: u32 = 0o777;

const ALL_BITS: u32 = 0o7777;

/// A file that is written beside the one that it will replace. It is locked as long as it is open, which tells it from one that a command left
/// that was killed. Where it is dropped before it has the name of the other, it is gone, and that file is where it was.
pub(crate) struct Part {
    rt: HostRuntime,
    // The file that it will replace, and what was known of that when this one was begun.
    path: String,
    replaced: Option<Metadata>,
    // The name that it has until then, and the name under which the other file is put aside.
    name: String,
    aside: String,
    is_aside: bool,
    is_named: bool,
    file: File,
}

impl Drop for Part {
    fn drop(self) {
        let Part {
            rt,
            path,
            replaced: _,
            name,
            aside,
            is_aside,
            is_named,
            file: _file,
        } = self;
        if is_aside {
            let _ = fs::rename(&rt, aside.as_str(), path.as_str());
        }
        if !is_named {
            let _ = fs::remove_file(&rt, name.as_str());
        }
    }
}

// Whether this name is that of the file, and no link to it.
fn is_name_of(rt: &HostRuntime, name: &str, file: &File) -> bool {
    match (fs::symlink_metadata(rt, name), file.metadata()) {
        (Ok(named), Ok(opened)) => named.dev() == opened.dev() && named.ino() == opened.ino(),
        _ => false,
    }
}

// Removes a part that nobody writes any more.
fn remove_leftover(rt: &HostRuntime, name: &str) {
    match fs::symlink_metadata(rt, name) {
        Ok(found) if found.is_file() => {}
        _ => return,
    }
    let opened = fs::OpenOptions::new().read(true).write(true).open(rt, name);
    if let Ok(file) = opened {
        if file.try_lock().is_ok() && is_name_of(rt, name, &file) {
            let _ = fs::remove_file(rt, name);
        }
    }
}

// Whether a file that was just made is locked now and still has its name. Where files can't be locked, none is taken for a leftover.
fn is_held(rt: &HostRuntime, name: &str, file: &File) -> bool {
    match file.try_lock() {
        Ok(()) => is_name_of(rt, name, file),
        Err(TryLockError::WouldBlock) => false,
        Err(TryLockError::Error(_)) => true,
    }
}

// Makes a file of this name and locks it. `None` where the name is taken.
fn new_file(rt: &HostRuntime, name: &str, mode: u32) -> io::Result<Option<File>> {
    remove_leftover(rt, name);
    let made = fs::OpenOptions::new()
        .read(true)
        .write(true)
        .create_new(true)
        .mode(mode)
        .open(rt, name);
    match made {
        Ok(file) => Ok(if is_held(rt, name, &file) {
            Some(file)
        } else {
            None
        }),
        Err(error) if error.kind() == io::ErrorKind::AlreadyExists => Ok(None),
        Err(error) => Err(error),
    }
}

// The name of a part of this number.
fn part_name(alloc: Global, path: &str, number: u64) -> Result<String, AllocError> {
    if number == 0 {
        return format!(in alloc; "{path}.part");
    }
    format!(in alloc; "{path}.{number}.part")
}

/// The file that a name stands for: a link is followed, also to a file that isn't there.
pub(crate) fn file_behind(rt: &HostRuntime, name: &str) -> Result<String, Failure> {
    let alloc = rt.alloc();
    let mut path = String::from_str(alloc, name)?;
    for _ in 0..MOST_LINKS {
        match fs::symlink_metadata(rt, path.as_str()) {
            Ok(found) if found.is_symlink() => {}
            _ => return Ok(path),
        }
        let target = of_file(alloc, path.as_str(), fs::read_link(rt, path.as_str()))?;
        path = match Path::new(path.as_str()).parent() {
            Some(folder) => folder.join(alloc, target.as_str())?.into_string(),
            None => target.into_string(),
        };
    }
    Err(failed(alloc, name, "it leads through too many links"))
}

/// Begins a part beside the file of this path, under a name that no other command holds. Where the file is there, nobody else may read the part.
pub(crate) fn begin_part(rt: &HostRuntime, path: String) -> Result<Part, Failure> {
    let alloc = rt.alloc();
    let replaced = fs::metadata(rt, path.as_str()).ok();
    let mode = if replaced.is_some() { 0o600 } else { 0o666 };
    for number in 0..MOST_NAMES {
        let name = part_name(alloc, path.as_str(), number)?;
        let made = new_file(rt, name.as_str(), mode);
        if let Some(file) = of_file(alloc, name.as_str(), made)? {
            let aside = format!(in alloc; "{name}.old")?;
            return Ok(Part {
                rt: *rt,
                path,
                replaced,
                name,
                aside,
                is_aside: false,
                is_named: false,
                file,
            });
        }
    }
    Err(failed(alloc, path.as_str(), "there is no free name for its part"))
}

// Gives a file the group and the owner of another, as far as that is allowed, and says whether it has both.
fn keep_owner(file: &File, replaced: &Metadata) -> bool {
    let group = fchown(file, None, Some(replaced.gid()));
    let owner = fchown(file, Some(replaced.uid()), None);
    group.is_ok() && owner.is_ok()
}

impl Part {
    /// Another handle of the file, to write it.
    pub(crate) fn writer(&self) -> io::Result<File> {
        self.file.try_clone()
    }

    /// Makes what was written last, with the owner and the mode of the file that it replaces.
    pub(crate) fn sync(&self) -> io::Result<()> {
        if let Some(replaced) = &self.replaced {
            let bits = if keep_owner(&self.file, replaced) {
                ALL_BITS
            } else {
                ACCESS
            };
            let mode = replaced.mode() & bits;
            let _ = self.file.set_permissions(Permissions::from_mode(mode));
        }
        self.file.sync_all()
    }

    // Puts the file aside that it will replace, if there is one.
    fn put_aside(&mut self) -> Result<(), Failure> {
        match fs::rename(&self.rt, self.path.as_str(), self.aside.as_str()) {
            Ok(()) => self.is_aside = true,
            Err(error) if error.kind() == io::ErrorKind::NotFound => {}
            Err(error) => return Err(failed(self.rt.alloc(), self.path.as_str(), error)),
        }
        Ok(())
    }

    // Gives it the name of the file that it replaces. That file is gone then, also where it was put aside.
    fn settle(&mut self) -> Result<(), Failure> {
        self.is_aside = false;
        let named = fs::rename(&self.rt, self.name.as_str(), self.path.as_str());
        of_file(self.rt.alloc(), self.path.as_str(), named)?;
        self.is_named = true;
        // also one that a command left that was killed
        let _ = fs::remove_file(&self.rt, self.aside.as_str());
        Ok(())
    }

    // The folder of the file, once no other command holds it. `None` where it can't be held.
    fn held_folder(&self) -> Option<File> {
        let folder = match Path::new(self.path.as_str()).parent() {
            Some(folder) if !folder.as_str().is_empty() => folder.as_str(),
            _ => ".",
        };
        let file = fs::open(&self.rt, folder).ok()?;
        for _ in 0..MOST_WAITS {
            match file.try_lock() {
                Err(TryLockError::WouldBlock) => {
                    thread::sleep(&self.rt, Duration::from_millis(WAIT));
                }
                _ => return Some(file),
            }
        }
        None
    }
}

/// Gives parts the names of the files that they replace. The files of all but the first are put aside before that and are named after it, so that none of
/// them ever stands beside another first file than its own. Another command that names files in the folder of the first is waited for. Where the first
/// can't be named, all files are as they were.
pub(crate) fn settle_all(parts: &mut [Part]) -> Result<(), Failure> {
    let Some((first, others)) = parts.split_first_mut() else {
        return Ok(());
    };
    if others.is_empty() {
        return first.settle();
    }
    let _held = first.held_folder();
    for other in others.iter_mut() {
        other.put_aside()?;
    }
    first.settle()?;
    for other in others.iter_mut() {
        other.settle()?;
    }
    Ok(())
}
