// How it is told why a line is none of its format.

use crate::events::Lines;
use crate::letters::Letters;
use crate::numbers::Counted;
use std::fmt;

/// What stands in a place of an event.
#[derive(Clone, Copy, Debug, PartialEq, Eq)]
pub enum Field {
    Number(Counted),
    /// An object, as `o1.3`.
    Object,
}

/// Why a line is none of its format. Its text says it in a sentence without an end.
#[derive(Clone, Copy, Debug)]
pub enum LineReason<'a> {
    /// It is the last line, and no line feed ends it.
    NoLineFeed,
    /// A carriage return stands in it.
    CarriageReturn,
    /// A `#` stands in it, but not in front.
    CommentInside,
    Tab,
    /// Another byte that no line has, which is this one.
    Unprintable(u8),
    /// Spaces alone.
    Blank,
    SpaceInFront,
    SpaceAtEnd,
    TwoSpaces,
    /// A file of format 2 where one of format 1 is wanted.
    SecondFormat,
    /// The first line of a file of format 2, but not in the first line.
    LateFormat,
    /// The first word is `raysim`.
    OtherFormat,
    /// The first word is a number, in a file of format 1.
    NumberInFront(&'a [u8]),
    /// The first word is no seat.
    NoSeat(&'a [u8]),
    /// The first word is no number of commits.
    NoCommits(&'a [u8]),
    /// The line is a number alone.
    NoEvent(&'a [u8]),
    /// The name of no event, and the name that is near of one that such lines may have, if there is one.
    Unknown(&'a [u8], Option<&'static str>, Lines),
    /// An event that is the run's own, in a plan.
    OfTheRun(&'a [u8]),
    /// A settle line in a file of format 2.
    SettleInHistory,
    /// How the event is written.
    WrongForm(&'static str),
    /// A number with a leading zero.
    LeadingZero(&'a [u8]),
    /// A number that is greater than such ones are.
    TooLarge(Counted, &'a [u8]),
    /// A letter with digits behind it, where such a number is wanted.
    LetterInFront(Counted, &'a [u8]),
    /// Neither digits alone nor that, where such a number is wanted.
    NoNumber(Counted, &'a [u8]),
    /// What stands in the place of an object, and is none.
    NoObject(&'a [u8]),
}

/// Tells that a number is too large.
fn tell_too_large<W: fmt::Write>(
    f: &mut fmt::Formatter<W>,
    counted: Counted,
    word: &[u8],
) -> fmt::Result {
    let (name, most) = (counted.name(), counted.most());
    let word = Letters(word);
    match counted {
        Counted::Owner | Counted::Serial => {
            write!(f, "{word} is too large: {name} is at most {most}")
        }
        _ => write!(
            f,
            "{word} is too large: the number of {name} is at most {most}"
        ),
    }
}

/// Tells that a word is no number of such a one, with what that is written by.
fn tell_no_number<W: fmt::Write>(
    f: &mut fmt::Formatter<W>,
    counted: Counted,
    word: &[u8],
    by: &str,
) -> fmt::Result {
    let name = counted.name();
    let word = Letters(word);
    write!(f, "{word} is no number: {name} is written by {by}")
}

/// Tells that a word is the name of no event.
fn tell_unknown<W: fmt::Write>(
    f: &mut fmt::Formatter<W>,
    word: &[u8],
    near: Option<&'static str>,
    lines: Lines,
) -> fmt::Result {
    let word = Letters(word);
    write!(f, "there is no event {word}")?;
    if let Some(name) = near {
        write!(f, ", but {name}")?;
    }
    let names = lines.names();
    write!(f, "; there are {names}")
}

impl fmt::Display for LineReason<'_> {
    fn fmt<W: fmt::Write>(&self, f: &mut fmt::Formatter<W>) -> fmt::Result {
        match self {
            LineReason::NoLineFeed => f.write_str("no line feed stands at its end"),
            LineReason::CarriageReturn => {
                f.write_str("a carriage return stands in it: lines end with a line feed alone")
            }
            LineReason::CommentInside => f.write_str(
                "# stands in it: a comment is a line of its own, which begins with #",
            ),
            LineReason::Tab => f.write_str(
                "a tab stands in it: one space stands between two words",
            ),
            LineReason::Unprintable(byte) => {
                write!(
                    f,
                    "the byte {byte} stands in it, which is no letter, digit or sign of ASCII"
                )
            }
            LineReason::Blank => {
                f.write_str(
                    "it has spaces alone: an empty line is passed over, or one that begins with #",
                )
            }
            LineReason::SpaceInFront => f.write_str("a space stands in front"),
            LineReason::SpaceAtEnd => f.write_str("a space stands at its end"),
            LineReason::TwoSpaces => {
                f.write_str("two spaces stand beside one another: one stands between two words")
            }
            LineReason::SecondFormat => f.write_str("the file is of format 2 already"),
            LineReason::LateFormat => f.write_str("raysim 2 stands in the first line alone"),
            LineReason::OtherFormat => {
                f.write_str(
                    "raysim begins only the first line of a file of format 2, which is raysim 2",
                )
            }
            LineReason::NumberInFront(word) => {
                let word = Letters(*word);
                write!(
                    f,
                    "{word} stands in front of the event: so it does in a plan, and in a file whose first line is raysim 2"
                )
            }
            LineReason::NoSeat(word) => {
                let word = Letters(*word);
                write!(
                    f,
                    "{word} is no seat: a line of a file of format 2 begins with one, from 0 to 8"
                )
            }
            LineReason::NoCommits(word) => {
                let word = Letters(*word);
                write!(
                    f,
                    "{word} is no number of commits, with which a line of a plan begins"
                )
            }
            LineReason::NoEvent(word) => {
                let word = Letters(*word);
                write!(f, "no event stands behind {word}")
            }
            LineReason::Unknown(word, near, lines) => tell_unknown(f, *word, *near, *lines),
            LineReason::OfTheRun(word) => {
                let word = Letters(*word);
                let names = Lines::Planned.names();
                write!(
                    f,
                    "{word} stands in no plan: the run does that by itself; there are {names}"
                )
            }
            LineReason::SettleInHistory => {
                f.write_str(
                    "a file of format 2 has no settle lines: all of its events are written out",
                )
            }
            LineReason::WrongForm(form) => write!(f, "it is written {form}"),
            LineReason::LeadingZero(word) => {
                let word = Letters(*word);
                write!(f, "{word} is no number: it has a leading zero")
            }
            LineReason::TooLarge(counted, word) => tell_too_large(f, *counted, *word),
            LineReason::LetterInFront(counted, word) => {
                tell_no_number(f, *counted, *word, "its number alone")
            }
            LineReason::NoNumber(counted, word) => {
                tell_no_number(f, *counted, *word, "its number")
            }
            LineReason::NoObject(word) => {
                let word = Letters(*word);
                write!(f, "{word} is no object: one is written as o1.2")
            }
        }
    }
}
