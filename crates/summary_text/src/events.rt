// The summary's lines of events: of each kind that came how many did, and how many were refused.

ghost use Rattle.std.specs.Prelude.{◌≡◌, ◌++◌, OnOk, string_bytes};
ghost use Rattle.summary_text.specs.Events.{came_count, counted_note, counted_words, event_word};
ghost use Rattle.summary_text.specs.Events.{events_text, fault_words, is_named, is_refused_event, refused_count};
ghost use Rattle.summary_text.specs.Events.{run_words, word_line};

use log_entries::{Entry, Event};
use log_words::is_refusal_at;
use std::alloc::AllocError;

/// The word with which an event's line begins.
fn event_word(event: &Event) -> &'static str
    ensures { result.now ≡ event_word event.now }
{
    match event {
        Event::Claim(_) => "claim",
        Event::Commit(_) => "commit",
        Event::Deliver(_) => "deliver",
        Event::Tick(_) => "tick",
        Event::Notice { .. } => "notice",
        Event::NoticeNode { .. } => "notice-node",
        Event::Evict { .. } => "evict",
        Event::Lose { .. } => "lose",
        Event::Kill(_) => "kill",
        Event::KillNode(_) => "kill-node",
        Event::Join => "join",
    }
}

/// Whether the entry is an event with that word.
fn is_named(word: &str, entry: &Entry) -> bool
    ensures { result ≡ is_named word.now entry.now }
{
    match entry {
        Entry::In { event, .. } => event_word(event) == word,
        _ => false,
    }
}

/// How many events with that word came.
fn came_count(log: &[Entry], word: &str) -> usize
    ensures { result ≡ came_count word.now log.now }
{
    let mut count = 0;
    for entry in log {
        if is_named(word, entry) {
            count += 1;
        }
    }
    count
}

fn is_refused_event(word: &str, entry: &Entry, is_refused: bool) -> bool
    ensures { result ≡ is_refused_event word.now entry.now is_refused }
{
    if !is_refused {
        return false;
    }
    is_named(word, entry)
}

/// How many of them were refused.
fn refused_count(log: &[Entry], word: &str) -> usize
    ensures { result ≡ refused_count word.now log.now }
{
    let mut count = 0;
    for (place, entry) in log.iter().enumerate() {
        let is_refused = is_refusal_at(log, place + 1);
        if is_refused_event(word, entry, is_refused) {
            count += 1;
        }
    }
    count
}

#[tactic(auto, unfolding(crate::specs::Events::counted_words))]
fn write_counted(
    text: &mut String,
    word: &str,
    came: usize,
    refused: usize,
) -> Result<(), AllocError>
    ensures { OnOk result (string_bytes text.new ≡ string_bytes text.old ++ counted_words word.now came refused) }
{
    write!(text, "event {word}: {came} came, {refused} refused\n")
}

fn write_note(text: &mut String, word: &str, came: usize, refused: usize) -> Result<(), AllocError>
    ensures { OnOk result (string_bytes text.new ≡ string_bytes text.old ++ counted_note word.now came refused) }
{
    if came == 0 {
        return Ok(());
    }
    write_counted(text, word, came, refused)
}

/// Writes how many events with that word came and were refused, if any came.
#[tactic(auto, unfolding(crate::specs::Events::word_line))]
fn write_word(text: &mut String, log: &[Entry], word: &str) -> Result<(), AllocError>
    ensures { OnOk result (string_bytes text.new ≡ string_bytes text.old ++ word_line log.now word.now) }
{
    let came = came_count(log, word);
    let refused = refused_count(log, word);
    write_note(text, word, came, refused)
}

fn write_run_words(text: &mut String, log: &[Entry]) -> Result<(), AllocError>
    ensures { OnOk result (string_bytes text.new ≡ string_bytes text.old ++ run_words log.now) }
{
    write_word(text, log, "claim")?;
    write_word(text, log, "commit")?;
    write_word(text, log, "deliver")?;
    write_word(text, log, "tick")?;
    write_word(text, log, "notice")?;
    write_word(text, log, "notice-node")
}

fn write_fault_words(text: &mut String, log: &[Entry]) -> Result<(), AllocError>
    ensures { OnOk result (string_bytes text.new ≡ string_bytes text.old ++ fault_words log.now) }
{
    write_word(text, log, "evict")?;
    write_word(text, log, "lose")?;
    write_word(text, log, "kill")?;
    write_word(text, log, "kill-node")?;
    write_word(text, log, "join")
}

/// Writes a line for each kind of events that came.
#[tactic(auto, unfolding(crate::specs::Events::events_text))]
pub fn write_events(text: &mut String, log: &[Entry]) -> Result<(), AllocError>
    ensures { OnOk result (string_bytes text.new ≡ string_bytes text.old ++ events_text log.now) }
{
    write_run_words(text, log)?;
    write_fault_words(text, log)
}
