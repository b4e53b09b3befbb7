//! A benchmark of the parser: generates a script of 64 functions with as many statements each as the first word says, parses
//! it as often as the second word says, and prints the script's length and how many functions were read. Time it from outside.
#![tactic(auto)]

use script_syntax::parse;
use std::alloc::{AllocError, Global};
use std::process::ExitCode;
use std::{env, io};

/// A script of 64 functions, each of which has that many statements between its first and its last.
fn generated(alloc: Global, statements: u16) -> Result<String, AllocError> {
    let mut text = String::new(alloc);
    for function in 0..64u8 {
        let head = format!(in alloc; "fn f{function}(x: int) -> int {{ let a = x;")?;
        text.push_str(head.as_str())?;
        for _ in 0..statements {
            text.push_str(" set a = a * 3 + (x - 7);")?;
        }
        text.push_str(" return a; }\n")?;
    }
    Ok(text)
}

/// How many functions were read in that many turns.
fn parsed(alloc: Global, text: &str, turns: u32) -> u64 {
    let mut functions = 0u64;
    for _ in 0..turns {
        if let Ok(program) = parse(alloc, text.as_bytes()) {
            functions = functions.wrapping_add(program.functions.len() as u64);
        }
    }
    functions
}

/// The number that a word writes, or 1.
fn number_at(words: &[String], place: usize) -> u32 {
    match words.get(place) {
        Some(word) => word.as_str().parse::<u32>().unwrap_or(1),
        None => 1,
    }
}

fn main(rt: HostRuntime) -> io::Result<ExitCode> {
    let alloc = rt.alloc();
    let words: Vec<String> = env::args(&rt)?.collect(alloc)?;
    let statements = u16::try_from(number_at(words.as_slice(), 1)).unwrap_or(1);
    let turns = number_at(words.as_slice(), 2);
    let text = generated(alloc, statements)?;
    let functions = parsed(alloc, text.as_str(), turns);
    let length = text.len();
    println!(rt; "{length} bytes, {functions} functions")?;
    Ok(ExitCode::from(0))
}
