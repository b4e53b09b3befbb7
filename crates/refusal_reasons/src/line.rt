// Why a line of a list of events or of a plan is none of its format. docs/event-files.md has the formats.

ghost use Rattle.std.specs.Prelude.{◌<◌, IfSome, length};

use crate::events::{EventForm, Lines, form_of, is_of_the_run};
use crate::line_words::LineReason;
use crate::numbers::{
    Counted, digits_reason, field_reason, has_leading_zero, is_of_digits, number_reason,
};
use ids::read_number;

/// Which file has the line.
#[derive(Clone, Copy, Debug, PartialEq, Eq)]
pub enum ListKind {
    /// A list of events, of either format.
    Events,
    /// A list of events of format 1, since it is migrated.
    FirstFormat,
    /// A plan for a run on threads.
    Plan,
}

/// A line that is refused, with no line feed, and why it is, where that is sure.
#[derive(Clone, Copy, Debug)]
pub struct Refused<'a> {
    /// The line's bytes.
    pub line: &'a [u8],
    /// Why it is none of its format, where that is sure.
    pub reason: Option<LineReason<'a>>,
}

/// A line, and whether a line feed stands behind it.
#[derive(Clone, Copy)]
struct Piece<'a> {
    line: &'a [u8],
    is_ended: bool,
}

/// The line of that number, counted from 1.
fn piece_at(text: &[u8], number: u64) -> Option<Piece<'_>> {
    let mut start = 0;
    let mut at = 1;
    for i in 0..text.len() {
        if text[i] == b'\n' {
            if at == number {
                return Some(Piece {
                    line: &text[start..i],
                    is_ended: true,
                });
            }
            at += 1;
            start = i + 1;
        }
    }
    if at != number {
        return None;
    }
    Some(Piece {
        line: &text[start..],
        is_ended: false,
    })
}

/// The first word of a text, and what stands behind the space after it.
fn first_word(text: &[u8]) -> (&[u8], Option<&[u8]>)
    ensures { IfSome result.1 (λ rest. length rest.now < length text.now) }
{
    for i in 0..text.len() {
        if text[i] == b' ' {
            return (&text[..i], Some(&text[i + 1..]));
        }
    }
    (text, None)
}

fn is_at_front(front: &[u8], text: &[u8]) -> bool {
    text.len() >= front.len() && &text[..front.len()] == front
}

fn has(text: &[u8], wanted: u8) -> bool {
    for byte in text {
        if *byte == wanted {
            return true;
        }
    }
    false
}

/// The first byte that is no letter, digit or sign of ASCII, and no space.
fn unprintable(text: &[u8]) -> Option<u8> {
    for byte in text {
        if *byte < 32 || *byte > 126 {
            return Some(*byte);
        }
    }
    None
}

fn is_blank(text: &[u8]) -> bool {
    for byte in text {
        if *byte != b' ' {
            return false;
        }
    }
    true
}

fn has_two_spaces(text: &[u8]) -> bool {
    let mut before = b'x';
    for byte in text {
        if *byte == b' ' && before == b' ' {
            return true;
        }
        before = *byte;
    }
    false
}

/// What is wrong with the spaces of a line, or with a byte of it.
fn spacing(line: &[u8]) -> Option<LineReason<'_>> {
    if has(line, b'\r') {
        return Some(LineReason::CarriageReturn);
    }
    if has(line, b'#') {
        return Some(LineReason::CommentInside);
    }
    if has(line, b'\t') {
        return Some(LineReason::Tab);
    }
    if let Some(byte) = unprintable(line) {
        return Some(LineReason::Unprintable(byte));
    }
    if is_blank(line) {
        return Some(LineReason::Blank);
    }
    match line {
        [b' ', ..] => return Some(LineReason::SpaceInFront),
        [.., b' '] => return Some(LineReason::SpaceAtEnd),
        _ => {}
    }
    if has_two_spaces(line) {
        return Some(LineReason::TwoSpaces);
    }
    None
}

/// Why the words aren't workers.
fn workers_reason(text: &[u8]) -> Option<LineReason<'_>> {
    let (word, rest) = first_word(text);
    if let Some(reason) = number_reason(Counted::Worker, word) {
        return Some(reason);
    }
    match rest {
        Some(more) => workers_reason(more),
        None => None,
    }
}

/// Why a settle line is none.
fn settle_reason(rest: Option<&[u8]>) -> Option<LineReason<'_>> {
    let wrong = Some(LineReason::WrongForm("settle, or settle but W W .."));
    let Some(text) = rest else {
        return None;
    };
    let (word, workers) = first_word(text);
    match workers {
        Some(workers) if word == b"but".as_slice() => workers_reason(workers),
        _ => wrong,
    }
}

/// Why what stands behind the name of an event isn't what its form has there.
fn places_reason(form: EventForm, rest: Option<&[u8]>) -> Option<LineReason<'_>> {
    let wrong = Some(LineReason::WrongForm(form.text));
    let Some(first) = form.first else {
        return match rest {
            Some(_) => wrong,
            None => None,
        };
    };
    let Some(text) = rest else {
        return wrong;
    };
    let (word, rest) = first_word(text);
    if let Some(reason) = field_reason(first, word) {
        return Some(reason);
    }
    let Some(second) = form.second else {
        return match rest {
            Some(_) => wrong,
            None => None,
        };
    };
    match rest {
        Some(word) if !has(word, b' ') => field_reason(second, word),
        _ => wrong,
    }
}

/// Why a text is no event.
fn event_reason(text: &[u8], lines: Lines) -> Option<LineReason<'_>> {
    let (word, rest) = first_word(text);
    if lines == Lines::Planned && is_of_the_run(word) {
        return Some(LineReason::OfTheRun(word));
    }
    if word == b"settle".as_slice() {
        return match lines {
            Lines::First => settle_reason(rest),
            _ => Some(LineReason::SettleInHistory),
        };
    }
    match form_of(word, lines) {
        Some(form) => places_reason(form, rest),
        None => Some(LineReason::Unknown(word, lines.near_name(word), lines)),
    }
}

/// Why a line is none of a list of format 1.
fn first_reason(line: &[u8]) -> Option<LineReason<'_>> {
    if line == b"raysim 2".as_slice() {
        return Some(LineReason::LateFormat);
    }
    let (word, rest) = first_word(line);
    if word == b"raysim".as_slice() {
        return Some(LineReason::OtherFormat);
    }
    if rest.is_some() && is_of_digits(word) {
        return Some(LineReason::NumberInFront(word));
    }
    event_reason(line, Lines::First)
}

/// Why a word is no seat.
fn seat_reason(word: &[u8]) -> Option<LineReason<'_>> {
    if has_leading_zero(word) {
        return Some(LineReason::LeadingZero(word));
    }
    match read_number(word) {
        Some(number) if number < 9 => None,
        _ => Some(LineReason::NoSeat(word)),
    }
}

/// Why a word is no number of commits.
fn commits_reason(word: &[u8]) -> Option<LineReason<'_>> {
    if is_of_digits(word) {
        return digits_reason(Counted::Commits, word);
    }
    Some(LineReason::NoCommits(word))
}

/// Why a line is none of a list of format 2.
fn second_reason(line: &[u8]) -> Option<LineReason<'_>> {
    let (seat, rest) = first_word(line);
    if let Some(reason) = seat_reason(seat) {
        return Some(reason);
    }
    match rest {
        Some(text) => event_reason(text, Lines::Second),
        None => Some(LineReason::NoEvent(seat)),
    }
}

/// Why a line is none of a plan.
fn planned_reason(line: &[u8]) -> Option<LineReason<'_>> {
    let (commits, rest) = first_word(line);
    if let Some(reason) = commits_reason(commits) {
        return Some(reason);
    }
    match rest {
        Some(text) => event_reason(text, Lines::Planned),
        None => Some(LineReason::NoEvent(commits)),
    }
}

/// The line of that number, counted from 1, of a file in which it is refused 40, and why it is.
pub fn refused_line(kind: ListKind, text: &[u8], number: u64) -> Option<Refused<'_>> {
    let Some(piece) = piece_at(text, number) else {
        return None;
    };
    let line = piece.line;
    let is_second = is_at_front(b"raysim 2\n", text);
    let reason = if !piece.is_ended {
        Some(LineReason::NoLineFeed)
    } else if kind == ListKind::FirstFormat && is_second && number == 1 {
        Some(LineReason::SecondFormat)
    } else if let Some(reason) = spacing(line) {
        Some(reason)
    } else {
        match kind {
            ListKind::Plan => planned_reason(line),
            ListKind::Events if is_second => second_reason(line),
            _ => first_reason(line),
        }
    };
    Some(Refused { line, reason })
}
