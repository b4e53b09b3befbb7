// Event files of format 1, read whole and written.

ghost use Rattle.std.specs.Prelude.{◌≡◌, ◌++◌, IfOk, IfErr, OnOk, string_bytes};
ghost use Rattle.event_files.specs.Lines.{IsLine, line_text};
ghost use Rattle.event_files.specs.Files.{IsFile, IsRefusal};
ghost use Rattle.event_files.specs.Printing.{events_text};

use crate::error::EventError;
use crate::line::{Line, read_line};
use crate::parts::parted;
use crate::passing::is_passed;
use log_entries::Event;
use sequence::Seq;
use std::alloc::{AllocError, Global};

/// The events that a file may stand for, those of a settle counted; whoever applies one more refuses it as too long.
pub const MOST_EVENTS: usize = 100_000;

/// Reads an event file: lines that each end with a line feed and are an event, as `claim 2` or `lose 1 o1.3`, or `settle`, or
/// `settle but 2 3`. Numbers are written in decimal, with no leading zeros and within their types, and one space stands between two
/// words. Empty lines and lines that begin with `#` are passed over.
///
/// Answers `BadLine` with the number of the first line, counted from 1, that is none of these; bytes behind the last line feed are
/// such a line.
pub fn parse_events(alloc: Global, text: &[u8]) -> Result<Seq<Line>, EventError>
    ensures read { IfOk result (λ lines. IsFile IsLine line_text text.now lines) }
    ensures refused { IfErr result (λ e. IsRefusal IsLine line_text text.now e) }
{
    let mut lines = Seq::new(alloc);
    let mut rest = text;
    let mut number = 0;
    while let Some((line, after)) = parted(rest, b'\n') {
        number += 1;
        if !is_passed(line) {
            let Some(said) = read_line(alloc, line)? else {
                return Err(EventError::BadLine(number));
            };
            lines.push(said)?;
        }
        rest = after;
    }
    if !rest.is_empty() {
        return Err(EventError::BadLine(number + 1));
    }
    Ok(lines)
}

/// Writes events as an event file, one line each.
pub fn print_events(alloc: Global, events: &[Event]) -> Result<String, AllocError>
    ensures { IfOk result (λ text. string_bytes text ≡ events_text events.now) }
{
    let mut text = String::new(alloc);
    for event in events {
        writeln!(text, "{event}")?;
    }
    Ok(text)
}
