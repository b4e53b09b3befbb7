// How main ended, by a log: its content, its fault or neither, as a line and as a status.

ghost use Rattle.std.specs.Prelude.{◌≡◌, ◌++◌, [], OnErr, OnOk, option_copied, string_bytes};
ghost use Rattle.std.specs.Option.{option_map};
ghost use Rattle.event_log.specs.Entries.{main_attempt};
ghost use Rattle.event_log.specs.Words.{same_attempt, faulted_in};
ghost use Rattle.report_lines.specs.Main.{first, main_ends_in, main_end, main_fault, main_line, unended_line, status_of};

use crate::faults::write_fault;
use held::SharedContent;
use ids::AttemptId;
use log_entries::Entry;
use report::{or_no_text, write_main_lines};
use std::alloc::AllocError;
use values::Fault;

/// Whether the attempt is main's.
#[tactic(auto, unfolding(ids::specs::Attempts::same_attempt, meaning::specs::Births::same_id))]
pub fn is_main(attempt: AttemptId) -> bool
    ensures { result ≡ same_attempt attempt main_attempt }
{
    attempt.object.owner.0 == 1 && attempt.object.serial == 0 && attempt.number == 0
}

/// The content of main's one result, where it ends at an entry.
fn end_in(entry: &Entry) -> Option<&SharedContent>
    ensures { option_copied result ≡ first (main_ends_in entry.now) }
{
    let Entry::Ended { attempt, contents } = entry else {
        return None;
    };
    if is_main(*attempt) {
        return contents.as_slice().first();
    }
    None
}

/// The content with which main ended first.
pub fn main_end(log: &[Entry]) -> Option<&SharedContent>
    ensures { option_copied result ≡ main_end log.now }
{
    for entry in log {
        if let Some(content) = end_in(entry) {
            return Some(content);
        }
    }
    None
}

/// The fault that a get of main is answered with at an entry.
fn fault_in(entry: &Entry) -> Option<Fault>
    ensures { result ≡ option_map (λ x. x.fault) (first (faulted_in main_attempt entry.now)) }
{
    let Entry::Faulted { attempt, fault, .. } = entry else {
        return None;
    };
    if is_main(*attempt) {
        return Some(*fault);
    }
    None
}

/// The fault that a get of main was answered with first.
pub fn main_fault(log: &[Entry]) -> Option<Fault>
    ensures { result ≡ main_fault log.now }
{
    for entry in log {
        if let Some(fault) = fault_in(entry) {
            return Some(fault);
        }
    }
    None
}

/// Writes the line of a main that didn't end: of its fault, or `main open`.
fn write_unended(text: &mut String, fault: Option<Fault>) -> Result<(), AllocError>
    ensures { OnOk result (string_bytes text.new ≡ string_bytes text.old ++ unended_line fault) }
{
    let Some(fault) = fault else {
        return text.push_str("main open\n");
    };
    text.push_str("main fault ")?;
    write_fault(text, fault)?;
    text.push_str("\n")
}

/// Writes the line of main's end: `main value 0`, `main trap DivZero`, or that it has a fault or is open. An error is want of memory, and then
/// nothing is left of the text.
pub fn write_main(text: &mut String, log: &[Entry]) -> Result<(), AllocError>
    ensures done { OnOk result
        (string_bytes text.new ≡ string_bytes text.old ++ main_line (main_end log.now) (main_fault log.now)) }
    ensures err { OnErr result (string_bytes text.new ≡ []) }
{
    match main_end(log) {
        // The prints are written before.
        Some(content) => write_main_lines(text, &[], &content.inner),
        None => or_no_text(write_unended(text, main_fault(log)), text),
    }
}

/// The status of a run by its log: 0 where main ended with a value, 1 where it ended with a trap, and 2 where it has a
/// fault or is open. Of several ends of main, which no legal log has, the first counts. Takes no memory.
pub fn status_of(log: &[Entry]) -> u8
    ensures { result ≡ status_of log.now }
{
    let Some(content) = main_end(log) else {
        return 2;
    };
    match &*content.inner {
        values::Content::Value(_) => 0,
        values::Content::Trap(_) => 1,
    }
}
