// How main ended, by a log.

ghost use Rattle.std.specs.Prelude.{◌≡◌, ◌+◌, ◌≤◌, ◌||◌, drop};
ghost use Rattle.std.specs.Option.{option_map};
ghost use Rattle.event_log.specs.Entries.{main_attempt};
ghost use Rattle.event_log.specs.Words.{same_attempt};
ghost use Rattle.fault_lists.specs.Ends.{attempts_in, begun_by, end_of, kills_main, main_is_killed};

use crate::log_events::is_refused_at;
use log_entries::{Entry, Event};
use report_text::main_end::{is_main, main_end, main_fault};
use values::Fault;

/// How main ended in a run.
#[derive(Clone, Copy, PartialEq, Eq, Debug)]
pub enum RunEnd {
    /// With a value or a trap: with what the serial run ends with, as every run does that ends so.
    AsSerial,
    /// It didn't end: one of its gets was answered with this fault.
    Faulted(Fault),
    /// It didn't end, although its worker lives.
    Open,
    /// Its worker was killed before it ended.
    Killed,
    /// The run was stopped before an event more than it may have.
    Stopped,
}

/// Whether the event is the death of main's worker, worker 1 at node 1.
fn kills_main(event: Event) -> bool
    ensures { result ≡ kills_main event }
{
    match event {
        Event::Kill(worker) => worker.0 == 1,
        Event::KillNode(node) => node.0 == 1,
        _ => false,
    }
}

/// Whether main's worker was killed.
fn main_is_killed(log: &[Entry]) -> bool
    ensures { result ≡ main_is_killed log.now }
{
    for place in 0..log.len() {
        if let Entry::In { event, .. } = &log[place] {
            if !is_refused_at(log, place + 1) && kills_main(*event) {
                return true;
            }
        }
    }
    false
}

/// How main ended by the log of a run.
pub fn end_of(log: &[Entry]) -> RunEnd
    ensures { result ≡ end_of log.now }
{
    if main_end(log).is_some() {
        return RunEnd::AsSerial;
    }
    if let Some(fault) = main_fault(log) {
        return RunEnd::Faulted(fault);
    }
    if main_is_killed(log) {
        return RunEnd::Killed;
    }
    RunEnd::Open
}

/// Whether the entry is the beginning of an attempt other than main's.
#[tactic(auto, unfolding(ids::specs::Attempts::same_attempt, meaning::specs::Births::same_id))]
fn is_begun(entry: &Entry) -> bool
    ensures { result ≡ begun_by entry.now }
{
    match entry {
        Entry::Begun { attempt, .. } => !is_main(*attempt),
        _ => false,
    }
}

/// How many attempts were begun, without main's.
pub fn attempts_in(log: &[Entry]) -> usize
    ensures { result ≡ attempts_in log.now }
{
    let mut count = 0;
    for entry in log {
        if is_begun(entry) {
            count += 1;
        }
    }
    count
}
