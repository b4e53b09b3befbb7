// Writing a file whole or not at all.

use crate::place::split;
use std::fs::{Metadata, OpenFile, OpenOptions};
use std::io::{Error, ErrorKind, Write};
use std::rt::Files;
use std::{fs, io};

/// How many names are tried for a fresh file.
const MOST_TRIES: u32 = 100;

/// The system's number for what is a folder where a file is asked for.
const IS_FOLDER: i32 = 21;

/// A fresh file in a folder, and its path.
#[derive(Drop)]
struct Fresh<F> {
    file: F,
    path: String,
}

/// Where what is written to a path comes to stand.
#[derive(Drop)]
enum Target {
    /// In what is there and is no regular file: a device or a pipe.
    Special,
    /// In the place of this regular file.
    Old { path: String, now: Metadata },
    /// In a file that isn't there yet.
    New,
}

/// Fails where `write_whole` would, as far as that can be seen before: no such folder, a folder, no permission. It leaves nothing behind.
pub fn try_output<R: Files + AllocGlobal>(rt: &R, path: &str) -> io::Result<()> {
    match target_of(rt, path)? {
        Target::Special => Ok(()),
        Target::Old { path: old, now: _ } => {
            OpenOptions::new().write(true).open(rt, old.as_str())?;
            try_folder(rt, old.as_str())
        }
        Target::New => try_folder(rt, path),
    }
}

/// Writes a file: what stood there stays as it was, unless all is written. The bytes are written to a fresh file beside it, which then takes
/// its name, and is removed where that fails; to a device or a pipe they are written straight on. A link stays a link, to the new file.
pub fn write_whole<R: Files + AllocGlobal>(rt: &R, path: &str, bytes: &[u8]) -> io::Result<()> {
    match target_of(rt, path)? {
        Target::Special => {
            let mut file = OpenOptions::new().write(true).open(rt, path)?;
            file.write_all(bytes)
        }
        Target::Old { path: old, now } => {
            let fresh = fresh_beside(rt, old.as_str())?;
            let permissions = now.permissions();
            // What the system refuses here is no loss: the file is then as any new one.
            let _ = fresh.file.set_permissions(permissions);
            replace(rt, fresh, bytes, old.as_str())
        }
        Target::New => replace(rt, fresh_beside(rt, path)?, bytes, path),
    }
}

/// Looks at what a path leads to.
fn target_of<R: Files + AllocGlobal>(rt: &R, path: &str) -> io::Result<Target> {
    match fs::metadata(rt, path) {
        Ok(found) if found.is_dir() => Err(Error::from_raw_os_error(IS_FOLDER)),
        Ok(found) if found.is_file() => {
            let old = fs::canonicalize(rt, path)?;
            let path = String::from_str(rt.alloc(), old.as_str())?;
            Ok(Target::Old { path, now: found })
        }
        Ok(_) => Ok(Target::Special),
        Err(error) if error.kind() == ErrorKind::NotFound => new_target(rt, path, error),
        Err(error) => Err(error),
    }
}

/// A name of no file yet: no link that leads nowhere, and no empty one.
fn new_target<R: Files>(rt: &R, path: &str, error: Error) -> io::Result<Target> {
    let (_, name) = split(path);
    if name.is_empty() {
        return Err(error);
    }
    if fs::symlink_metadata(rt, path).is_ok() {
        let message = "it is a link to a file that is not there";
        return Err(Error::new(ErrorKind::NotFound, message));
    }
    Ok(Target::New)
}

/// Makes a fresh file in the folder of a path.
fn fresh_beside<R: Files + AllocGlobal>(rt: &R, path: &str) -> io::Result<Fresh<R::File>> {
    let (folder, _) = split(path);
    for number in 1..=MOST_TRIES {
        let path = format!(in rt.alloc(); "{folder}/.raysim-{number}.tmp")?;
        let made = OpenOptions::new()
            .write(true)
            .create_new(true)
            .open(rt, path.as_str());
        match made {
            Ok(file) => return Ok(Fresh { file, path }),
            Err(error) if error.kind() == ErrorKind::AlreadyExists => {}
            Err(error) => return Err(error),
        }
    }
    Err(Error::from(ErrorKind::AlreadyExists))
}

/// Makes a fresh file in the folder of a path, and removes it.
fn try_folder<R: Files + AllocGlobal>(rt: &R, path: &str) -> io::Result<()> {
    let fresh = fresh_beside(rt, path)?;
    fs::remove_file(rt, fresh.path.as_str())
}

/// Writes the bytes to the fresh file, and gives it the name; where either fails, it is removed.
fn replace<R: Files>(rt: &R, fresh: Fresh<R::File>, bytes: &[u8], path: &str) -> io::Result<()> {
    let Fresh { file, path: beside } = fresh;
    let mut done = fill(file, bytes);
    if done.is_ok() {
        done = fs::rename(rt, beside.as_str(), path);
    }
    if done.is_err() {
        let _ = fs::remove_file(rt, beside.as_str());
    }
    done
}

/// Writes the bytes, down to the disk, which may be full only there. Some file systems have no call for the last part.
fn fill<F: Write + OpenFile + Drop>(mut file: F, bytes: &[u8]) -> io::Result<()> {
    file.write_all(bytes)?;
    match file.sync_all() {
        Err(error) if error.kind() == ErrorKind::InvalidInput => Ok(()),
        Err(error) if error.kind() == ErrorKind::Unsupported => Ok(()),
        done => done,
    }
}
