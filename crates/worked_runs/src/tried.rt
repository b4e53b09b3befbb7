// Files of cases, case by case.

use crate::case::Case;
use crate::compared::{are_same, tell_difference};
use crate::file::{Read, Reading};
use crate::outcome::outcome_of;
use std::rt::{Clock, Files};
use std::sync::Wait;
use std::thread::Threads;
use std::{fs, io};

/// How many files were tried, how many cases, and how many of these differ.
#[derive(Drop)]
pub struct Tally {
    files: u64,
    cases: u64,
    differ: u64,
}

impl Tally {
    /// No file was tried yet.
    pub fn new() -> Tally {
        Tally {
            files: 0,
            cases: 0,
            differ: 0,
        }
    }

    /// Tells the counts, if a file was tried, and says whether no case differs.
    pub fn tell<R: Print>(&self, rt: &R) -> io::Result<bool> {
        let (cases, differ) = (self.cases, self.differ);
        if self.files > 0 {
            println!(rt; "{cases} cases, {differ} differ")?;
        }
        Ok(differ == 0)
    }

    fn count(&mut self, differs: bool) {
        self.cases = self.cases.saturating_add(1);
        if differs {
            self.differ = self.differ.saturating_add(1);
        }
    }
}

fn tell_name<R: Print>(rt: &R, path: &str, case: &Case) -> io::Result<()> {
    let command = case.command.as_str();
    let point = case.point.as_str();
    let line = case.line;
    println!(rt; "{path} line {line}, {command}: {point}")
}

fn try_case<R: Print + AllocGlobal + Threads + Wait + Clock + Sync>(
    rt: &R,
    path: &str,
    case: &Case,
    tally: &mut Tally,
) -> io::Result<()> {
    let Some(got) = outcome_of(rt, case)? else {
        tally.count(true);
        tell_name(rt, path, case)?;
        return println!(rt; "  there is no such command");
    };
    if are_same(&case.wanted, &got) {
        tally.count(false);
        return Ok(());
    }
    tally.count(true);
    tell_name(rt, path, case)?;
    tell_difference(rt, &case.wanted, &got)
}

fn tell_bad_line<R: Print>(rt: &R, path: &str, line: &str, tally: &mut Tally) -> io::Result<()> {
    tally.count(true);
    println!(rt; "{path}: no line of a case: {line}")
}

/// Tries the cases of a file, and names those that differ.
pub fn try_file<R: Files + Print + AllocGlobal + Threads + Wait + Clock + Sync>(
    rt: &R,
    path: &str,
    tally: &mut Tally,
) -> io::Result<()> {
    tally.files = tally.files.saturating_add(1);
    let text = fs::read_to_string(rt, path)?;
    let mut reading = Reading::new(rt.alloc());
    for line in text.as_str().lines() {
        match reading.read(rt.alloc(), line)? {
            Read::Whole(case) => try_case(rt, path, &case, tally)?,
            Read::GoesOn => {}
            Read::BadLine => tell_bad_line(rt, path, line, tally)?,
        }
    }
    match reading.last() {
        Some(case) => try_case(rt, path, &case, tally),
        None => Ok(()),
    }
}
