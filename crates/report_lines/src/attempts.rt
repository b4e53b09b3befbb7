// The report's section of attempts: of each its worker, and whether it was accepted, ended, faulted or open.

ghost use Rattle.std.specs.Prelude.{◌≡◌, ◌++◌, ◌||◌, List, [], OnOk, IfOk, codes, string_bytes};
ghost use Rattle.std.specs.Fmt.{decimal};
ghost use Rattle.ids.specs.Attempts.{Attempt};
ghost use Rattle.event_log.specs.Entries as logged;
ghost use Rattle.event_log.specs.Words.{accepted_in, ended_in, faulted_in};
ghost use Rattle.report_lines.specs.Attempts.{any, attempt_in, attempt_line, state_of, AreStatesOf};
ghost use Rattle.report_lines.specs.Sets.{has};
ghost use Rattle.report_lines.specs.Texts.{attempt_text};

use crate::attempt_set::AttemptSet;
use crate::main_end::is_main;
use crate::numbers::write_number;
use ids::{AttemptId, WorkerId};
use log_entries::Entry;
use std::alloc::{AllocError, Global};

/// Which attempts were accepted, which ended, and which met a fault.
#[derive(Drop)]
pub struct AttemptStates {
    accepted: AttemptSet,
    ended: AttemptSet,
    faulted: AttemptSet,
}

impl AttemptStates {
    /// The states of a log with no entries.
    pub(crate) fn new(alloc: Global) -> AttemptStates
        ensures { AreStatesOf result [] }
    {
        AttemptStates {
            accepted: AttemptSet::new(alloc),
            ended: AttemptSet::new(alloc),
            faulted: AttemptSet::new(alloc),
        }
    }

    /// Notes what the entry says of an attempt.
    pub(crate) fn note(&mut self, entry: &Entry) -> Result<(), AllocError>
        ensures accepted { OnOk result ((a : Attempt) →
            has self.new.accepted a ≡ (has self.old.accepted a || any (accepted_in a entry.now))) }
        ensures ended { OnOk result ((a : Attempt) →
            has self.new.ended a ≡ (has self.old.ended a || any (ended_in a entry.now))) }
        ensures faulted { OnOk result ((a : Attempt) →
            has self.new.faulted a ≡ (has self.old.faulted a || any (faulted_in a entry.now))) }
    {
        match entry {
            Entry::Accepted(attempt) => self.accepted.add(*attempt),
            Entry::Ended { attempt, .. } => self.ended.add(*attempt),
            Entry::Faulted { attempt, .. } => self.faulted.add(*attempt),
            _ => Ok(()),
        }
    }

    /// The states of a log's attempts.
    pub fn of(alloc: Global, log: &[Entry]) -> Result<AttemptStates, AllocError>
        ensures { IfOk result (λ states. AreStatesOf states log.now) }
    {
        let mut states = AttemptStates::new(alloc);
        for entry in log {
            states.note(entry)?;
        }
        Ok(states)
    }

    /// The word for an attempt's state.
    pub fn name(&self, attempt: AttemptId) -> &'static str
        ensures { (log : List logged.Entry) → AreStatesOf self.now log → result.now ≡ state_of log attempt }
    {
        if self.accepted.has(attempt) {
            return "accepted";
        }
        if self.ended.has(attempt) {
            return "ended";
        }
        if self.faulted.has(attempt) {
            return "faulted";
        }
        "open"
    }

    /// The word for an attempt's state, as the end of its line.
    fn line_end(&self, attempt: AttemptId) -> &'static str
        ensures { (log : List logged.Entry) → AreStatesOf self.now log → result.now ≡ codes " " ++ (state_of log attempt ++ codes "\n") }
    {
        if self.accepted.has(attempt) {
            return " accepted\n";
        }
        if self.ended.has(attempt) {
            return " ended\n";
        }
        if self.faulted.has(attempt) {
            return " faulted\n";
        }
        " open\n"
    }
}

/// Writes `attempt a1.1#0`.
fn write_head(text: &mut String, attempt: AttemptId) -> Result<(), AllocError>
    ensures { OnOk result (string_bytes text.new ≡ string_bytes text.old ++ (codes "attempt " ++ attempt_text attempt)) }
{
    text.push_str("attempt a")?;
    write_number(text, u64::from(attempt.object.owner.0))?;
    text.push('.')?;
    write_number(text, attempt.object.serial)?;
    text.push('#')?;
    write_number(text, u64::from(attempt.number))
}

/// Writes ` w2`, and the end of the line.
fn write_tail(text: &mut String, worker: WorkerId, end: &str) -> Result<(), AllocError>
    ensures { OnOk result (string_bytes text.new ≡ string_bytes text.old ++ (codes " w" ++ (decimal worker ++ end.now))) }
{
    text.push_str(" w")?;
    write_number(text, u64::from(worker.0))?;
    text.push_str(end)
}

/// Writes `attempt a1.1#0 w2 accepted`, with that end of the line. Its pieces are written one by one: a format costs twice as much.
fn write_line(
    text: &mut String,
    attempt: AttemptId,
    worker: WorkerId,
    end: &str,
) -> Result<(), AllocError>
    ensures { (log : List logged.Entry) → end.now ≡ codes " " ++ (state_of log attempt ++ codes "\n") → OnOk result
        (string_bytes text.new ≡ string_bytes text.old ++ attempt_line log attempt worker) }
{
    write_head(text, attempt)?;
    write_tail(text, worker, end)
}

/// Writes a line where the entry begins another attempt than main's.
pub fn write_attempt(
    text: &mut String,
    states: &AttemptStates,
    entry: &Entry,
) -> Result<(), AllocError>
    ensures { (log : List logged.Entry) → AreStatesOf states.now log → OnOk result
        (string_bytes text.new ≡ string_bytes text.old ++ attempt_in log entry.now) }
{
    let Entry::Begun { attempt, worker } = entry else {
        return Ok(());
    };
    if is_main(*attempt) {
        return Ok(());
    }
    write_line(text, *attempt, *worker, states.line_end(*attempt))
}
