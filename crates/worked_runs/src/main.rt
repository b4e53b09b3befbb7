//! What is tried by running it: a program of several parts, which its words name, since each program over the whole runtime costs the gate minutes.
//!
//! Cases: a word that is none of the others names a file of worked runs (docs/worked-runs.md has its form). What each says is done through the program's
//! commands, and each is named of which something else comes than it wants; behind the files they are counted.
//!
//! Faults: a word that ends in `.faults` names a file of rows, each of which is tried with a fault at every place (docs/faults.md). `--reports` asks that each
//! list is told with its report, so that another implementation can be compared.
//!
//! Streams: behind `--streams` stand a script and its events by two words each, which are read and written by streams that fail (docs/hostile.md).
//!
//! `--checks` does what no case shows (`src/checks`), and `--library` the example of docs/library.md. The status is 1 where something isn't as it must be.
#![tactic(auto)]

mod case;
mod checks;
mod compared;
mod faults;
mod file;
mod line;
mod outcome;
mod parts;
mod streams;
mod threaded;
mod tried;

use std::process::ExitCode;
use std::{env, io};

fn main(rt: HostRuntime) -> io::Result<ExitCode> {
    let words: Vec<String> = env::args(&rt)?.collect(rt.alloc())?;
    let good = parts::try_parts(&rt, words.as_slice())?;
    Ok(if good {
        ExitCode::SUCCESS
    } else {
        ExitCode::FAILURE
    })
}
