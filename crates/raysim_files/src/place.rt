// What a path stands for, as far as a write would lose it, and when two are one file.

ghost use Rattle.std.specs.Prelude.{◌↔◌, IsTrue};
ghost use Rattle.raysim_files.specs.Clashes.{IsOneFile};
ghost use Rattle.raysim_files.specs.Paths.{IsSplit};

use std::fs;
use std::io::ErrorKind;
use std::os::unix::fs::MetadataExt;
use std::rt::Files;

/// What a name stands for, as far as a write would lose it. A file has one node, whatever names and links lead to it.
#[derive(Clone, Copy)]
pub enum FilePlace<'a> {
    /// Nothing that a write would lose: a device, a pipe, a folder, or what can't be looked at.
    Other,
    /// A regular file.
    File {
        device: u64,
        node: u64,
    },
    /// A name in this folder, of which there is no file yet.
    New {
        device: u64,
        node: u64,
        name: &'a str,
    },
}

/// Whether two names stand for one file.
pub(crate) fn is_one_file(one: &FilePlace<'_>, other: &FilePlace<'_>) -> bool
    ensures { IsTrue result ↔ IsOneFile one.now other.now }
{
    match (*one, *other) {
        (FilePlace::File { device, node }, FilePlace::File { device: d, node: n }) => {
            device == d && node == n
        }
        (
            FilePlace::New { device, node, name },
            FilePlace::New {
                device: d,
                node: n,
                name: other_name,
            },
        ) => device == d && node == n && name == other_name,
        _ => false,
    }
}

/// The folder of a path, and the name in it, which may be empty.
pub(crate) fn split(path: &str) -> (&str, &str)
    ensures { IsSplit path.now result.0.now result.1.now }
{
    match path.rsplit_once('/') {
        Some(("", name)) => ("/", name),
        Some((folder, name)) => (folder, name),
        None => (".", path),
    }
}

/// What a path stands for, through all links.
pub fn place_of<'a, R: Files>(rt: &R, path: &'a str) -> FilePlace<'a> {
    match fs::metadata(rt, path) {
        Ok(found) if found.is_file() => FilePlace::File {
            device: found.dev(),
            node: found.ino(),
        },
        Err(error) if error.kind() == ErrorKind::NotFound => new_place(rt, path),
        _ => FilePlace::Other,
    }
}

fn new_place<'a, R: Files>(rt: &R, path: &'a str) -> FilePlace<'a> {
    let (folder, name) = split(path);
    match fs::metadata(rt, folder) {
        Ok(found) => FilePlace::New {
            device: found.dev(),
            node: found.ino(),
            name,
        },
        Err(_) => FilePlace::Other,
    }
}
