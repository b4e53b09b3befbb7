// Where a trap comes from.

ghost use Rattle.std.specs.Prelude.{◌≡◌, ◌≤◌, ◌++◌, [], OnErr, OnOk, string_bytes};
ghost use Rattle.std.specs.List.{flat_map};
ghost use Rattle.std.specs.Option.{option_map};
ghost use Rattle.values.specs.Values.{content_of, trap_of};
ghost use Rattle.event_log.specs.Words.{births};
ghost use Rattle.report_text.specs.of_report_lines.Main.{first};
ghost use Rattle.log_words.specs.Index.{IsIndexOf};
ghost use Rattle.why_text.specs.Again.{runner_of};
ghost use Rattle.main_text.specs.Traps.{answer_count, behind_text, count_in, operators, own_text, run_text, runner_note};
ghost use Rattle.main_text.specs.Traps.{trap_ended, trap_in, trap_in_outcome, trap_note, trap_text, traps_text};

use crate::attempts::write_made;
use crate::endpoints::write_worker;
use crate::happenings::{Happening, write_when_last};
use held::{SharedContent, SmallList};
use ids::{AttemptId, ObjectId, WorkerId};
use log_entries::Entry;
use log_text::write_named;
use log_words::{BirthIndex, Contents};
use protocol_data::ClusterState;
use report::{or_no_text, trap_name};
use std::alloc::AllocError;
use trap_sources::{trap_got, trapped_of};
use values::{Content, Trap};
use why_text::runner_of;

fn count_in(attempt: AttemptId, entry: &Entry) -> usize
    ensures count { result ≡ count_in attempt entry.now }
    ensures few { result ≤ 1 }
{
    match entry {
        Entry::Got {
            attempt: answered,
            ..
        } => {
            if answered.is(attempt) {
                return 1;
            }
            0
        }
        _ => 0,
    }
}

/// How many answers the attempt got.
fn answer_count(log: &[Entry], attempt: AttemptId) -> usize
    ensures { result ≡ answer_count attempt log.now }
{
    let mut count = 0;
    for entry in log {
        count += count_in(attempt, entry);
    }
    count
}

fn write_runner(text: &mut String, worker: Option<WorkerId>) -> Result<(), AllocError>
    ensures { OnOk result (string_bytes text.new ≡ string_bytes text.old ++ runner_note worker) }
{
    let Some(worker) = worker else {
        return Ok(());
    };
    text.push_str(" on ")?;
    write_worker(text, worker)
}

fn write_runner_of(text: &mut String, log: &[Entry], attempt: AttemptId) -> Result<(), AllocError>
    ensures { OnOk result (string_bytes text.new ≡ string_bytes text.old ++ runner_note (runner_of log.now attempt)) }
{
    let runner = runner_of(log, attempt);
    write_runner(text, runner)
}

/// Writes where the attempt began, and when it ended.
#[tactic(auto, unfolding(crate::specs::Traps::run_text))]
fn write_run(
    text: &mut String,
    index: &BirthIndex,
    whole: &ClusterState,
    log: &[Entry],
    lines: &[usize],
    attempt: AttemptId,
) -> Result<(), AllocError>
    ensures { IsIndexOf index.now log.now → OnOk result
        (string_bytes text.new ≡ string_bytes text.old ++ run_text whole.now.jobs log.now lines.now attempt) }
{
    write_named(text, index, log, attempt)?;
    text.push_str(" began")?;
    write_runner_of(text, log, attempt)?;
    write_when_last(text, whole, lines, log, &Happening::Begins(attempt))?;
    text.push_str(", and ended with the trap")?;
    write_when_last(text, whole, lines, log, &Happening::Stops(attempt))?;
    text.push_str(".\n")?;
    Ok(())
}

fn write_behind(text: &mut String, count: usize) -> Result<(), AllocError>
    ensures { OnOk result (string_bytes text.new ≡ string_bytes text.old ++ behind_text count) }
{
    if count == 0 {
        return text.push_str("before any answer");
    }
    write!(text, "after answer {count}")
}

fn write_behind_of(text: &mut String, log: &[Entry], attempt: AttemptId) -> Result<(), AllocError>
    ensures { OnOk result (string_bytes text.new ≡ string_bytes text.old ++ behind_text (answer_count attempt log.now)) }
{
    let count = answer_count(log, attempt);
    write_behind(text, count)
}

fn trap_in_content(content: &Content) -> Option<Trap>
    ensures { option_map trap_of result ≡ first (trap_in_outcome (content_of content.now)) }
{
    match content {
        Content::Value(_) => None,
        Content::Trap(trap) => Some(*trap),
    }
}

/// The first trap in the contents of an attempt's results.
fn trap_among(contents: &SmallList<SharedContent>) -> Option<Trap>
    ensures { option_map trap_of result ≡ first (flat_map trap_in_outcome contents.now) }
{
    for content in contents.as_slice() {
        if let Some(trap) = trap_in_content(&content.inner) {
            return Some(trap);
        }
    }
    None
}

fn trap_in(attempt: AttemptId, entry: &Entry) -> Option<Trap>
    ensures { option_map trap_of result ≡ first (trap_in attempt entry.now) }
{
    let Entry::Ended {
        attempt: ended,
        contents,
    } = entry
    else {
        return None;
    };
    if !ended.is(attempt) {
        return None;
    }
    trap_among(contents)
}

/// The trap with which the attempt ended first, if it ended with one.
fn trap_ended(log: &[Entry], attempt: AttemptId) -> Option<Trap>
    ensures { option_map trap_of result ≡ trap_ended log.now attempt }
{
    for entry in log {
        if let Some(trap) = trap_in(attempt, entry) {
            return Some(trap);
        }
    }
    None
}

/// What such a trap can come of.
fn operators(trap: Trap) -> &'static str
    ensures { result.now ≡ operators (trap_of trap) }
{
    match trap {
        Trap::Overflow => "+, -, *, / or %",
        Trap::DivZero => "/ or %",
        Trap::Index => "[ ]",
        Trap::TooLong => "push",
        Trap::Loop => "for",
        Trap::TooDeep => "a call",
    }
}

fn write_trap_note(text: &mut String, trap: Option<Trap>) -> Result<(), AllocError>
    ensures { OnOk result (string_bytes text.new ≡ string_bytes text.old ++ trap_note (option_map trap_of trap)) }
{
    let Some(trap) = trap else {
        return Ok(());
    };
    text.push_str(": ")?;
    text.push_str(trap_name(trap))?;
    text.push_str(", by ")?;
    text.push_str(operators(trap))
}

fn write_trap_of(text: &mut String, log: &[Entry], attempt: AttemptId) -> Result<(), AllocError>
    ensures { OnOk result (string_bytes text.new ≡ string_bytes text.old ++ trap_note (trap_ended log.now attempt)) }
{
    let trap = trap_ended(log, attempt);
    write_trap_note(text, trap)
}

#[tactic(auto, unfolding(crate::specs::Traps::own_text))]
fn add_own(
    text: &mut String,
    index: &BirthIndex,
    log: &[Entry],
    attempt: AttemptId,
) -> Result<(), AllocError>
    ensures { IsIndexOf index.now log.now → OnOk result (string_bytes text.new ≡ string_bytes text.old ++ own_text log.now attempt) }
{
    write_named(text, index, log, attempt)?;
    text.push_str(" trapped in its own code, ")?;
    write_behind_of(text, log, attempt)?;
    write_trap_of(text, log, attempt)?;
    text.push_str(".\n")?;
    Ok(())
}

/// Writes that the attempt's own code trapped, behind which answer, and what such a trap can come of. An error is want of memory, and then nothing
/// is left of the text.
pub fn write_own(
    text: &mut String,
    index: &BirthIndex,
    log: &[Entry],
    attempt: AttemptId,
) -> Result<(), AllocError>
    ensures done { IsIndexOf index.now log.now → OnOk result (string_bytes text.new ≡ string_bytes text.old ++ own_text log.now attempt) }
    ensures err { OnErr result (string_bytes text.new ≡ []) }
{
    or_no_text(add_own(text, index, log, attempt), text)
}

/// Writes whose trap the attempt got.
#[tactic(auto, unfolding(crate::specs::Traps::trap_text))]
fn write_trap(
    text: &mut String,
    contents: Contents,
    index: &BirthIndex,
    whole: &ClusterState,
    log: &[Entry],
    lines: &[usize],
    attempt: AttemptId,
    object: ObjectId,
) -> Result<(), AllocError>
    ensures { IsIndexOf index.now log.now → OnOk result
        (string_bytes text.new ≡ string_bytes text.old ++ trap_text contents whole.now.jobs log.now lines.now attempt object) }
{
    write_named(text, index, log, attempt)?;
    text.push_str(" got a trap")?;
    write_when_last(text, whole, lines, log, &Happening::Gets(attempt))?;
    text.push_str(", that of ")?;
    write_made(text, contents, index, log, object)?;
    text.push_str(".\n")?;
    Ok(())
}

/// Writes whose trap it was, from that attempt to the first one whose own code trapped, so many at most.
pub fn write_traps(
    text: &mut String,
    contents: Contents,
    index: &BirthIndex,
    whole: &ClusterState,
    log: &[Entry],
    lines: &[usize],
    most: usize,
    first: AttemptId,
) -> Result<(), AllocError>
    requires { IsIndexOf index.now log.now }
    ensures { OnOk result
        (string_bytes text.new ≡ string_bytes text.old ++ traps_text contents whole.now.jobs log.now lines.now most first) }
{
    let mut attempt = first;
    let mut left = most;
    while left > 0 {
        let Some(object) = trap_got(log, attempt) else {
            write_own(text, index, log, attempt)?;
            return Ok(());
        };
        write_trap(text, contents, index, whole, log, lines, attempt, object)?;
        let Some(next) = trapped_of(log, object) else {
            return Ok(());
        };
        write_run(text, index, whole, log, lines, next)?;
        attempt = next;
        left -= 1;
    }
    Ok(())
}
