// Why a word is no number, or no object, of a line.

use crate::line_words::{Field, LineReason};
use ids::{ObjectId, read_number};

/// A number that stands in a line.
#[derive(Clone, Copy, Debug, PartialEq, Eq)]
pub enum Counted {
    /// How many commits a line of a plan waits for.
    Commits,
    Worker,
    Node,
    Job,
    Message,
    /// Of an object, the worker that owns it.
    Owner,
    /// Of an object, the number that its owner gave it.
    Serial,
}

impl Counted {
    /// The greatest such number.
    pub(crate) fn most(self) -> u64 {
        match self {
            Counted::Worker | Counted::Node | Counted::Owner => 4_294_967_295,
            _ => u64::MAX,
        }
    }

    /// What has such a number, or is one.
    pub(crate) fn name(self) -> &'static str {
        match self {
            Counted::Commits => "commits",
            Counted::Worker => "a worker",
            Counted::Node => "a node",
            Counted::Job => "a job",
            Counted::Message => "a message",
            Counted::Owner => "an object's owner",
            Counted::Serial => "an object's serial",
        }
    }
}

fn are_digits(text: &[u8]) -> bool {
    for byte in text {
        if *byte < b'0' || *byte > b'9' {
            return false;
        }
    }
    true
}

/// Whether a word is of digits alone.
pub(crate) fn is_of_digits(word: &[u8]) -> bool {
    !word.is_empty() && are_digits(word)
}

/// Whether a word is of digits alone, and begins with a zero behind which others stand.
pub(crate) fn has_leading_zero(word: &[u8]) -> bool {
    match word {
        [b'0', rest @ ..] => is_of_digits(rest),
        _ => false,
    }
}

/// Why a word of digits alone is no such number.
pub(crate) fn digits_reason(counted: Counted, word: &[u8]) -> Option<LineReason<'_>> {
    if !is_of_digits(word) {
        return None;
    }
    if has_leading_zero(word) {
        return Some(LineReason::LeadingZero(word));
    }
    match read_number(word) {
        Some(number) if number <= counted.most() => None,
        _ => Some(LineReason::TooLarge(counted, word)),
    }
}

/// Why a word is no such number.
pub(crate) fn number_reason(counted: Counted, word: &[u8]) -> Option<LineReason<'_>> {
    if is_of_digits(word) {
        return digits_reason(counted, word);
    }
    match word {
        [b'a'..=b'z', digits @ ..] if is_of_digits(digits) => {
            Some(LineReason::LetterInFront(counted, word))
        }
        _ => Some(LineReason::NoNumber(counted, word)),
    }
}

/// What stands in front of the first dot, and what behind it.
fn at_dot(text: &[u8]) -> Option<(&[u8], &[u8])> {
    for dot in 0..text.len() {
        if text[dot] == b'.' {
            return Some((&text[..dot], &text[dot + 1..]));
        }
    }
    None
}

/// What is wrong with a number of an object, where the word is written as one.
fn object_number_reason(word: &[u8]) -> Option<LineReason<'_>> {
    let [b'o', rest @ ..] = word else {
        return None;
    };
    let Some((owner, serial)) = at_dot(rest) else {
        return None;
    };
    if !is_of_digits(owner) || !is_of_digits(serial) {
        return None;
    }
    if let Some(reason) = digits_reason(Counted::Owner, owner) {
        return Some(reason);
    }
    digits_reason(Counted::Serial, serial)
}

/// Why a word is no object.
fn object_reason(word: &[u8]) -> Option<LineReason<'_>> {
    if ObjectId::read(word).is_some() {
        return None;
    }
    match object_number_reason(word) {
        Some(reason) => Some(reason),
        None => Some(LineReason::NoObject(word)),
    }
}

/// Why a word doesn't stand for what is wanted there.
pub(crate) fn field_reason(field: Field, word: &[u8]) -> Option<LineReason<'_>> {
    match field {
        Field::Number(counted) => number_reason(counted, word),
        Field::Object => object_reason(word),
    }
}
