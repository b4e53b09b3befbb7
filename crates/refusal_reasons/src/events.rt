// The events that the lines of a file may have, and how they are written.

use crate::line_words::Field;
use crate::near::{Nearness, how_near};
use crate::numbers::Counted;

/// What the lines of a file are.
#[derive(Clone, Copy, Debug, PartialEq, Eq)]
pub enum Lines {
    /// Those of a list of format 1.
    First,
    /// Those of a list of format 2.
    Second,
    /// Those of a plan.
    Planned,
}

impl Lines {
    /// The events that such lines may have.
    pub(crate) fn names(self) -> &'static str {
        match self {
            Lines::First => {
                "claim, commit, deliver, tick, notice, notice-node, evict, lose, kill, kill-node, join and settle"
            }
            Lines::Second => {
                "claim, commit, deliver, tick, notice, notice-node, evict, lose, kill, kill-node and join"
            }
            Lines::Planned => "tick, notice, notice-node, evict, lose, kill, kill-node and join",
        }
    }

    /// Whether such a line may have the event of that name.
    fn may_have(self, name: &[u8]) -> bool {
        match self {
            Lines::First => true,
            Lines::Second => name != b"settle".as_slice(),
            Lines::Planned => !is_of_the_run(name),
        }
    }

    /// The name that is near of an event that such a line may have.
    pub(crate) fn near_name(self, word: &[u8]) -> Option<&'static str> {
        let names = NAMES;
        let mut found = None;
        for name in names {
            if self.may_have(name.as_bytes()) {
                match how_near(name.as_bytes(), word) {
                    Some(Nearness::OneEdit) => return Some(name),
                    Some(Nearness::TwoEdits) => found = Some(name),
                    None => {}
                }
            }
        }
        found
    }
}

/// The names of the events.
const NAMES: [&str; 12] = [
    "claim",
    "commit",
    "deliver",
    "tick",
    "notice",
    "notice-node",
    "evict",
    "lose",
    "kill",
    "kill-node",
    "join",
    "settle",
];

/// Whether the event is the run's own, so that it stands in no plan.
pub(crate) fn is_of_the_run(word: &[u8]) -> bool {
    match word {
        b"claim" | b"commit" | b"deliver" | b"settle" => true,
        _ => false,
    }
}

/// How an event is written, and what stands in its places.
#[derive(Clone, Copy)]
pub(crate) struct EventForm {
    pub(crate) text: &'static str,
    pub(crate) first: Option<Field>,
    pub(crate) second: Option<Field>,
}

fn form(text: &'static str, first: Option<Field>, second: Option<Field>) -> Option<EventForm> {
    Some(EventForm {
        text,
        first,
        second,
    })
}

/// The form of an event whose name is that word.
pub(crate) fn form_of(word: &[u8], lines: Lines) -> Option<EventForm> {
    let worker = Some(Field::Number(Counted::Worker));
    let node = Some(Field::Number(Counted::Node));
    let job = Some(Field::Number(Counted::Job));
    let object = Some(Field::Object);
    match word {
        b"claim" if lines == Lines::Second => form("claim W J", worker, job),
        b"claim" => form("claim W", worker, None),
        b"commit" => form("commit J", job, None),
        b"deliver" => form("deliver K", Some(Field::Number(Counted::Message)), None),
        b"tick" => form("tick W", worker, None),
        b"notice" => form("notice W V", worker, worker),
        b"notice-node" => form("notice-node W N", worker, node),
        b"evict" => form("evict N O", node, object),
        b"lose" => form("lose N O", node, object),
        b"kill" => form("kill W", worker, None),
        b"kill-node" => form("kill-node N", node, None),
        b"join" => form("join", None, None),
        _ => None,
    }
}
