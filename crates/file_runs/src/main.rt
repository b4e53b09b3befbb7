//! Tries on real files what `raysim_files` does, in the folder that it is run in: which names stand for one file, which outputs can't be written, and
//! what stands there after a write. The gate compares what it prints.
#![tactic(auto)]

use raysim_files::{first_clash, place_of, try_output, write_whole};
use std::os::unix::fs::symlink;
use std::rt::Files;
use std::{fs, io};

fn main(rt: HostRuntime) -> io::Result<()> {
    make(&rt)?;
    tell_names(&rt)?;
    tell_outputs(&rt)?;
    tell_writes(&rt)
}

/// Makes folders and links beside the files `script` and `old`; nothing where these aren't there.
fn make<R: Files>(rt: &R) -> io::Result<()> {
    fs::hard_link(rt, "script", "twin")?;
    fs::create_dir(rt, "in")?;
    symlink(rt, "in", "to_in")?;
    symlink(rt, "script", "to_script")?;
    symlink(rt, "not/there", "nowhere")
}

/// Tells whether what is to be written to the second name would be written over the first.
fn tell_pair<R: Files + Print>(rt: &R, one: &str, other: &str) -> io::Result<()> {
    let places = [place_of(rt, one), place_of(rt, other)];
    match first_clash(&places, 1) {
        Some(_) => println!(rt; "{one} and {other}: one file"),
        None => println!(rt; "{one} and {other}: nothing would be lost"),
    }
}

fn tell_names<R: Files + Print>(rt: &R) -> io::Result<()> {
    tell_pair(rt, "script", "script")?;
    tell_pair(rt, "script", "./in/../script")?;
    tell_pair(rt, "script", "to_script")?;
    tell_pair(rt, "to_script", "twin")?;
    tell_pair(rt, "script", "old")?;
    tell_pair(rt, "script", "new")?;
    tell_pair(rt, "new", "./new")?;
    tell_pair(rt, "in/new", "to_in/new")?;
    tell_pair(rt, "new", "in/new")?;
    tell_pair(rt, "new", "newer")?;
    tell_pair(rt, "/dev/null", "/dev/null")?;
    tell_pair(rt, "in", "to_in")
}

/// Tells whether an output can be written, or why not.
fn tell_output<R: Files + Print + AllocGlobal>(rt: &R, path: &str) -> io::Result<()> {
    match try_output(rt, path) {
        Ok(()) => println!(rt; "{path}: can be written"),
        Err(error) => println!(rt; "{path}: {error}"),
    }
}

fn tell_outputs<R: Files + Print + AllocGlobal>(rt: &R) -> io::Result<()> {
    tell_output(rt, "old")?;
    tell_output(rt, "to_script")?;
    tell_output(rt, "new")?;
    tell_output(rt, "to_in/new")?;
    tell_output(rt, "/dev/null")?;
    tell_output(rt, "in")?;
    tell_output(rt, "in/")?;
    tell_output(rt, "new/")?;
    tell_output(rt, "not/there")?;
    tell_output(rt, "old/new")?;
    tell_output(rt, "nowhere")?;
    tell_output(rt, "")
}

/// Writes a text to a file, and tells why not where it can't.
fn tell_write<R: Files + Print + AllocGlobal>(rt: &R, path: &str, text: &str) -> io::Result<()> {
    match write_whole(rt, path, text.as_bytes()) {
        Ok(()) => println!(rt; "{path}: written")?,
        Err(error) => println!(rt; "{path}: {error}")?,
    }
    if fs::exists(rt, ".raysim-1.tmp")? {
        println!(rt; "a fresh file is left")?;
    }
    Ok(())
}

/// Tells what stands in a file.
fn tell_text<R: Files + Print + AllocGlobal>(rt: &R, path: &str) -> io::Result<()> {
    match fs::read_to_string(rt, path) {
        Ok(text) => print!(rt; "{path} has: {text}"),
        Err(error) => println!(rt; "{path}: {error}"),
    }
}

fn tell_writes<R: Files + Print + AllocGlobal>(rt: &R) -> io::Result<()> {
    tell_text(rt, "new")?;
    tell_write(rt, "new", "first\n")?;
    tell_text(rt, "new")?;
    tell_write(rt, "./in/../new", "second\n")?;
    tell_text(rt, "new")?;
    tell_write(rt, "to_script", "third\n")?;
    tell_text(rt, "script")?;
    tell_text(rt, "twin")?;
    tell_text(rt, "to_script")?;
    tell_write(rt, "/dev/full", "fourth\n")?;
    tell_write(rt, "in", "fifth\n")?;
    tell_text(rt, "old")
}
