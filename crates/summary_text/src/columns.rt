// What is counted of a function.

ghost use Rattle.std.specs.Prelude.{◌≡◌, ◌&&◌, ◌-◌, ◌==◌, List, option_copied};
ghost use Rattle.std.specs.Option.{option_map};
ghost use Rattle.task_spec.specs.Births.{birth_of};
ghost use Rattle.event_log.specs.Entries.{Entry as Logged};
ghost use Rattle.event_log.specs.Words.{attempt as attempt_of, births};
ghost use Rattle.report_text.specs.of_report_lines.Attempts.{AreStatesOf};
ghost use Rattle.log_words.specs.Index.{IsIndexOf};
ghost use Rattle.summary_text.specs.Columns.{begins, begins_after, born_in, column_count, ends, faults, is_born_of, is_counted};
ghost use Rattle.summary_text.specs.Columns.{is_behind, is_further, is_made_by, is_of, is_result_of, source_of, resolves, same_truth, was_accepted};

use ids::{AttemptId, ObjectId};
use log_entries::Entry;
use log_words::{BirthIndex, task_of};
use report_text::AttemptStates;
use task_spec::Birth;

/// What is counted of a function.
#[derive(Clone, Copy)]
pub enum Column {
    /// The tasks that were made.
    Tasks,
    /// The attempts that began.
    Attempts,
    /// Those that began since the one before broke: its worker died.
    AfterDeaths,
    /// Those that began since the result of the one before, which was accepted, was lost.
    AfterLosses,
    /// The attempts that ended with a content.
    Results,
    /// The attempts that ended with a fault.
    Faults,
    /// The results of its tasks that were given up.
    GivenUp,
}

/// Whether what was born so is a task of the function.
fn is_of(birth: Option<&Birth>, function: &str) -> bool
    ensures { result ≡ is_of function.now (option_map birth_of (option_copied birth.entry)) }
{
    match birth {
        Some(Birth::Task { function: name, .. }) => name.as_str() == function,
        _ => false,
    }
}

/// Whether the birth is that of a task of the function.
pub fn is_born_of(birth: &Birth, function: &str) -> bool
    ensures { result ≡ is_born_of function.now (birth_of birth.now) }
{
    match birth {
        Birth::Task { function: name, .. } => name.as_str() == function,
        Birth::Put(_) => false,
    }
}

/// Whether a task of the function has this first object.
fn is_made_by(index: &BirthIndex, log: &[Entry], object: ObjectId, function: &str) -> bool
    ensures { IsIndexOf index.now log.now → result ≡ is_made_by log.now function.now object }
{
    is_of(index.birth(log, object), function)
}

/// What makes the object: what was born with it first, else the task of which it is a further result.
fn source_of<'a>(index: &'a BirthIndex, log: &'a [Entry], object: ObjectId) -> Option<&'a Birth>
    ensures { IsIndexOf index.now log.now →
        option_map birth_of (option_copied result) ≡ source_of (births log.now) object }
{
    let Some(birth) = index.birth(log, object) else {
        return index.birth(log, task_of(log, object));
    };
    Some(birth)
}

/// Whether a task of the function has the object as a result.
fn is_result_of(index: &BirthIndex, log: &[Entry], object: ObjectId, function: &str) -> bool
    ensures { IsIndexOf index.now log.now → result ≡ is_result_of log.now function.now object }
{
    is_of(source_of(index, log, object), function)
}

/// Whether the attempt's owner learned that it ended.
fn was_accepted(states: &AttemptStates, attempt: AttemptId) -> bool
    ensures { (log : List Logged) → AreStatesOf states.now log → result ≡ was_accepted log attempt }
{
    states.name(attempt) == "accepted"
}

/// Whether both are true, or neither.
fn is_as(one: bool, other: bool) -> bool
    ensures { result ≡ same_truth one other }
{
    one == other
}

fn is_first(attempt: AttemptId) -> bool
    ensures { result ≡ (attempt.number == 0) }
{
    attempt.number == 0
}

/// The attempt before that one, where it isn't the first.
fn before(attempt: AttemptId) -> AttemptId
    ensures { result ≡ attempt_of attempt.object (attempt.number - 1) }
{
    AttemptId {
        object: attempt.object,
        number: attempt.number.saturating_sub(1),
    }
}

/// Whether the attempt comes behind another of its task that was accepted, or wasn't.
fn is_behind(states: &AttemptStates, attempt: AttemptId, accepted: bool) -> bool
    ensures { (log : List Logged) → AreStatesOf states.now log → result ≡ is_behind log attempt accepted }
{
    if is_first(attempt) {
        return false;
    }
    let earlier = before(attempt);
    is_as(was_accepted(states, earlier), accepted)
}

fn is_born(entry: &Entry, function: &str) -> bool
    ensures { result ≡ born_in function.now entry.now }
{
    match entry {
        Entry::Born { birth, .. } => is_born_of(&birth.inner, function),
        _ => false,
    }
}

fn begins(index: &BirthIndex, log: &[Entry], entry: &Entry, function: &str) -> bool
    ensures { IsIndexOf index.now log.now → result ≡ begins log.now function.now entry.now }
{
    match entry {
        Entry::Begun { attempt, .. } => is_made_by(index, log, attempt.object, function),
        _ => false,
    }
}

/// Whether the attempt is of a task of the function.
fn is_attempt_of(index: &BirthIndex, log: &[Entry], attempt: AttemptId, function: &str) -> bool
    ensures { IsIndexOf index.now log.now → result ≡ is_made_by log.now function.now attempt.object }
{
    is_made_by(index, log, attempt.object, function)
}

fn both(first: bool, second: bool) -> bool
    ensures { result ≡ (first && second) }
{
    first && second
}

/// Whether the attempt is of the function, and comes behind another that was accepted, or wasn't.
fn is_further(
    index: &BirthIndex,
    states: &AttemptStates,
    log: &[Entry],
    attempt: AttemptId,
    function: &str,
    accepted: bool,
) -> bool
    ensures { IsIndexOf index.now log.now → AreStatesOf states.now log.now → result ≡ is_further log.now function.now accepted attempt }
{
    let behind = is_behind(states, attempt, accepted);
    let made = is_attempt_of(index, log, attempt, function);
    both(behind, made)
}

fn begins_after(
    index: &BirthIndex,
    states: &AttemptStates,
    log: &[Entry],
    entry: &Entry,
    function: &str,
    accepted: bool,
) -> bool
    ensures { IsIndexOf index.now log.now → AreStatesOf states.now log.now → result ≡ begins_after log.now function.now accepted entry.now }
{
    match entry {
        Entry::Begun { attempt, .. } => is_further(
            index, states, log, *attempt, function, accepted,
        ),
        _ => false,
    }
}

fn ends(index: &BirthIndex, log: &[Entry], entry: &Entry, function: &str) -> bool
    ensures { IsIndexOf index.now log.now → result ≡ ends log.now function.now entry.now }
{
    match entry {
        Entry::Ended { attempt, .. } => is_made_by(index, log, attempt.object, function),
        _ => false,
    }
}

fn faults(index: &BirthIndex, log: &[Entry], entry: &Entry, function: &str) -> bool
    ensures { IsIndexOf index.now log.now → result ≡ faults log.now function.now entry.now }
{
    match entry {
        Entry::Faulted { attempt, .. } => is_made_by(index, log, attempt.object, function),
        _ => false,
    }
}

fn resolves(index: &BirthIndex, log: &[Entry], entry: &Entry, function: &str) -> bool
    ensures { IsIndexOf index.now log.now → result ≡ resolves log.now function.now entry.now }
{
    match entry {
        Entry::Resolved { object, .. } => is_result_of(index, log, *object, function),
        _ => false,
    }
}

/// Whether the entry counts for the function.
fn is_counted(
    index: &BirthIndex,
    states: &AttemptStates,
    log: &[Entry],
    column: Column,
    function: &str,
    entry: &Entry,
) -> bool
    ensures { IsIndexOf index.now log.now → AreStatesOf states.now log.now → result ≡ is_counted log.now column function.now entry.now }
{
    match column {
        Column::Tasks => is_born(entry, function),
        Column::Attempts => begins(index, log, entry, function),
        Column::AfterDeaths => begins_after(index, states, log, entry, function, false),
        Column::AfterLosses => begins_after(index, states, log, entry, function, true),
        Column::Results => ends(index, log, entry, function),
        Column::Faults => faults(index, log, entry, function),
        Column::GivenUp => resolves(index, log, entry, function),
    }
}

/// How many entries count for the function.
pub fn column_count(
    index: &BirthIndex,
    states: &AttemptStates,
    log: &[Entry],
    column: Column,
    function: &str,
) -> usize
    ensures { IsIndexOf index.now log.now → AreStatesOf states.now log.now → result ≡ column_count log.now column function.now log.now }
{
    let mut count = 0;
    for entry in log {
        if is_counted(index, states, log, column, function, entry) {
            count += 1;
        }
    }
    count
}
