// A log in words: a line for each entry, told as the log goes on.

ghost use Rattle.std.specs.Prelude.{◌≡◌, ◌++◌, IfOk, OnOk, string_bytes};
ghost use Rattle.log_words.specs.Index.{IsIndexOf};
ghost use Rattle.log_text.specs.Text.{log_text};

use crate::entries::write_line;
use log_entries::Entry;
use log_words::{BirthIndex, Contents, Told, is_refusal_at};
use std::alloc::{AllocError, Global};

fn write_lines(
    alloc: Global,
    text: &mut String,
    contents: Contents,
    index: &BirthIndex,
    log: &[Entry],
) -> Result<(), AllocError>
    requires { IsIndexOf index.now log.now }
    ensures { OnOk result (string_bytes text.new ≡ string_bytes text.old ++ log_text contents log.now) }
{
    let mut told = Told::new(alloc);
    for (place, entry) in log.iter().enumerate() {
        let is_refused = is_refusal_at(log, place + 1);
        write_line(text, contents, index, log, &told, entry, is_refused)?;
        told.note(entry, is_refused)?;
    }
    Ok(())
}

/// The log in words: a line for each entry, each with a line feed, in the order of the log. Events are numbered from 1, and
/// what came of an event stands below it, with four spaces in front; see docs/reading-a-log.md for what each line says.
///
/// It is made of any log, a legal one or not: of several births of an object the first counts, an attempt of an object
/// without a birth has no function beside it, and a commit of a job that was never given out names no worker.
pub fn log_text(alloc: Global, contents: Contents, log: &[Entry]) -> Result<String, AllocError>
    ensures { IfOk result (λ text. string_bytes text ≡ log_text contents log.now) }
{
    let mut text = String::new(alloc);
    let index = BirthIndex::of(alloc, log)?;
    let written = write_lines(alloc, &mut text, contents, &index, log);
    drop(index);
    written?;
    Ok(text)
}
