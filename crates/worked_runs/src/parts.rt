// What the program's words ask for, part by part.

use crate::tried::{Tally, try_file};
use crate::{checks, faults, streams};
use library_example::tell_run;
use std::io;
use std::process::ExitCode;
use std::rt::{Clock, Files};
use std::sync::Wait;
use std::thread::Threads;

/// Whether a word stands among others.
fn stands_in(words: &[String], wanted: &str) -> bool {
    for word in words {
        if word.as_str() == wanted {
            return true;
        }
    }
    false
}

/// The words in front of `--streams`, and those behind it.
fn split(words: &[String]) -> (&[String], &[String]) {
    for place in 0..words.len() {
        if words[place].as_str() == "--streams" {
            return (&words[..place], &words[place + 1..]);
        }
    }
    (words, &[])
}

/// Does what one word asks for, and says whether all is as it must; cases are counted instead.
fn try_word<R: Files + Print + Eprint + AllocGlobal + Threads + Wait + Clock + Sync>(
    rt: &R,
    word: &str,
    tells: bool,
    tally: &mut Tally,
) -> io::Result<bool> {
    match word {
        "--library" => Ok(tell_run(rt)? == ExitCode::SUCCESS),
        "--checks" => checks::try_all(rt),
        "--reports" => Ok(true),
        path if path.ends_with(".faults") => faults::try_file(rt, path, tells),
        path => {
            try_file(rt, path, tally)?;
            Ok(true)
        }
    }
}

/// Does what the words ask for, one after the other, and then tells how many cases there were.
fn try_words<R: Files + Print + Eprint + AllocGlobal + Threads + Wait + Clock + Sync>(
    rt: &R,
    words: &[String],
) -> io::Result<bool> {
    let tells = stands_in(words, "--reports");
    let mut tally = Tally::new();
    let mut good = true;
    for word in words {
        if !try_word(rt, word.as_str(), tells, &mut tally)? {
            good = false;
        }
    }
    Ok(tally.tell(rt)? && good)
}

/// Does what the words ask for, the first of which is the program's own name, and says whether all is as it must.
pub fn try_parts<R: Files + Print + Eprint + AllocGlobal + Threads + Wait + Clock + Sync>(
    rt: &R,
    words: &[String],
) -> io::Result<bool> {
    let (words, pairs) = match words {
        [_, asked @ ..] if !asked.is_empty() => split(asked),
        _ => {
            println!(rt; "no word says what is tried")?;
            return Ok(false);
        }
    };
    let good = try_words(rt, words)?;
    Ok(streams::try_pairs(rt, pairs)? && good)
}
