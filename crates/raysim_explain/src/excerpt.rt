// A place of a script, for people.

ghost use Rattle.std.specs.Prelude.{◌≤◌};

use crate::hint::Hint;
use crate::place::{line_at, place_of};
use std::fmt;

/// A span of a script's text: its text is the file with the line and the column, both from 1, then that line of the script,
/// and carets below the bytes of the span; then the name at fault, where the span of this refusal is a name; then how it is said, where
/// it looks like something that another language has (`Hint`). Each stands on a line of its own. Bytes that are no letter or sign of ASCII
/// show as `?`.
#[derive(Clone, Copy, Debug)]
pub struct Excerpt<'a> {
    /// The script's file, as it is told.
    pub file: &'a str,
    /// The refusal's number, by which the name at fault and the hint are chosen.
    pub code: u16,
    /// The whole script.
    pub text: &'a [u8],
    /// Where the span begins in it, in bytes from 0.
    pub start: usize,
    /// The place behind the span's last byte.
    pub end: usize,
}

impl Excerpt<'_> {
    /// How many carets stand below the line: at least one, and none past the line's end but that.
    fn carets(&self, column: usize) -> usize
        ensures { 1 ≤ result }
    {
        let line = line_at(self.text, self.start);
        let room = (line.len() + 1).saturating_sub(column);
        self.end.saturating_sub(self.start).min(room).max(1)
    }
}

/// Whether the span of the refusals with this number is a name: one that is not in scope (10), the function of a call with a wrong
/// number of arguments (12), a function with no return at its end (15), or a name that is given twice (17).
fn is_of_name(code: u16) -> bool {
    code == 10 || code == 12 || code == 15 || code == 17
}

/// A byte as it is shown.
fn letter(byte: u8) -> char {
    if (32..127).contains(&byte) {
        char::from(byte)
    } else if byte == b'\t' {
        ' '
    } else {
        '?'
    }
}

fn repeat<W: fmt::Write>(f: &mut fmt::Formatter<W>, sign: char, count: usize) -> fmt::Result {
    for _turn in 0..count {
        f.write_char(sign)?;
    }
    Ok(())
}

impl fmt::Display for Excerpt<'_> {
    fn fmt<W: fmt::Write>(&self, f: &mut fmt::Formatter<W>) -> fmt::Result {
        let place = place_of(self.text, self.start);
        let file = self.file;
        let line = place.line;
        let column = place.column;
        write!(f, "{file}:{line}:{column}\n    ")?;
        for byte in line_at(self.text, self.start) {
            f.write_char(letter(*byte))?;
        }
        f.write_str("\n    ")?;
        repeat(f, ' ', column - 1)?;
        repeat(f, '^', self.carets(column))?;
        if is_of_name(self.code) && self.start <= self.end && self.end <= self.text.len() {
            f.write_str("\n    name: ")?;
            for byte in &self.text[self.start..self.end] {
                f.write_char(letter(*byte))?;
            }
        }
        match Hint::of(self.code, self.text, self.start, self.end) {
            Some(hint) => write!(f, "\n    hint: {hint}"),
            None => Ok(()),
        }
    }
}
