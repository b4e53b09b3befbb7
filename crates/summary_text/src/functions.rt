// The summary's lines of functions: of each how many tasks, attempts and results, and what was given up.

ghost use Rattle.std.specs.Prelude.{◌≡◌, ◌<◌, ◌++◌, OnOk, length, string_bytes, take};
ghost use Rattle.std.specs.List.{list_any};
ghost use Rattle.task_spec.specs.Births.{birth_of};
ghost use Rattle.report_text.specs.of_report_lines.Attempts.{AreStatesOf};
ghost use Rattle.log_words.specs.Index.{IsIndexOf};
ghost use Rattle.summary_text.specs.Columns.{born_in};
ghost use Rattle.summary_text.specs.Functions.{attempts_words, birth_line, born_line, ends_words, function_at, function_line, functions_text};
ghost use Rattle.summary_text.specs.Functions.{is_known, others_text, tasks_words};

use crate::columns::{Column, column_count, is_born_of};
use crate::counted::noun;
use log_entries::Entry;
use log_words::BirthIndex;
use report_text::AttemptStates;
use std::alloc::AllocError;
use task_spec::Birth;

/// Writes how many tasks there were.
#[tactic(auto, unfolding(crate::specs::Functions::tasks_words))]
fn write_tasks(text: &mut String, function: &str, tasks: usize) -> Result<(), AllocError>
    ensures { OnOk result (string_bytes text.new ≡ string_bytes text.old ++ tasks_words function.now tasks) }
{
    let word = noun(tasks, "task", "tasks");
    write!(text, "function {function}: {tasks} {word}")
}

/// Writes how many attempts there were, and how many of them were needed because of deaths and of losses.
#[tactic(auto, unfolding(crate::specs::Functions::attempts_words))]
fn write_attempts(
    text: &mut String,
    attempts: usize,
    deaths: usize,
    losses: usize,
) -> Result<(), AllocError>
    ensures { OnOk result (string_bytes text.new ≡ string_bytes text.old ++ attempts_words attempts deaths losses) }
{
    let word = noun(attempts, "attempt", "attempts");
    write!(
        text,
        ", {attempts} {word}, {deaths} for deaths, {losses} for losses"
    )
}

/// Writes how attempts ended, and how many tasks were given up.
#[tactic(auto, unfolding(crate::specs::Functions::ends_words))]
fn write_ends(
    text: &mut String,
    results: usize,
    faults: usize,
    given_up: usize,
) -> Result<(), AllocError>
    ensures { OnOk result (string_bytes text.new ≡ string_bytes text.old ++ ends_words results faults given_up) }
{
    let of_results = noun(results, "result", "results");
    let of_faults = noun(faults, "fault", "faults");
    write!(
        text,
        ", {results} {of_results}, {faults} {of_faults}, {given_up} given up\n"
    )
}

fn write_function(
    text: &mut String,
    index: &BirthIndex,
    states: &AttemptStates,
    log: &[Entry],
    function: &str,
    tasks: usize,
) -> Result<(), AllocError>
    ensures { IsIndexOf index.now log.now → AreStatesOf states.now log.now → OnOk result
        (string_bytes text.new ≡ string_bytes text.old ++ function_line log.now function.now tasks) }
{
    let attempts = column_count(index, states, log, Column::Attempts, function);
    let deaths = column_count(index, states, log, Column::AfterDeaths, function);
    let losses = column_count(index, states, log, Column::AfterLosses, function);
    let results = column_count(index, states, log, Column::Results, function);
    let faults = column_count(index, states, log, Column::Faults, function);
    let given_up = column_count(index, states, log, Column::GivenUp, function);
    write_tasks(text, function, tasks)?;
    write_attempts(text, attempts, deaths, losses)?;
    write_ends(text, results, faults, given_up)?;
    Ok(())
}

/// Writes the line of a function of tasks that were born.
fn write_born_function(
    text: &mut String,
    index: &BirthIndex,
    states: &AttemptStates,
    log: &[Entry],
    function: &str,
) -> Result<(), AllocError>
    ensures { IsIndexOf index.now log.now → AreStatesOf states.now log.now → OnOk result
        (string_bytes text.new ≡ string_bytes text.old ++ born_line log.now function.now) }
{
    let tasks = column_count(index, states, log, Column::Tasks, function);
    write_function(text, index, states, log, function, tasks)?;
    Ok(())
}

fn is_named_in(entry: &Entry, function: &str) -> bool
    ensures { result ≡ born_in function.now entry.now }
{
    match entry {
        Entry::Born { birth, .. } => is_born_of(&birth.inner, function),
        _ => false,
    }
}

fn is_named_among(entries: &[Entry], function: &str) -> bool
    ensures { result ≡ list_any (born_in function.now) entries.now }
{
    for entry in entries {
        if is_named_in(entry, function) {
            return true;
        }
    }
    false
}

/// Whether the function is main, or one of a task that was born before the place.
#[tactic(auto, unfolding(crate::specs::Functions::is_known))]
fn is_known(log: &[Entry], place: usize, function: &str) -> bool
    requires { place < length log.now }
    ensures { result ≡ is_known (take place log.now) function.now }
{
    if function == "main" {
        return true;
    }
    is_named_among(&log[..place], function)
}

/// Writes the line of the function of a birth, unless it stands already.
fn write_born(
    text: &mut String,
    index: &BirthIndex,
    states: &AttemptStates,
    log: &[Entry],
    place: usize,
    birth: &Birth,
) -> Result<(), AllocError>
    requires { place < length log.now }
    ensures { IsIndexOf index.now log.now → AreStatesOf states.now log.now → OnOk result
        (string_bytes text.new ≡ string_bytes text.old ++ birth_line log.now (take place log.now) (birth_of birth.now)) }
{
    let Birth::Task { function, .. } = birth else {
        return Ok(());
    };
    let function = function.as_str();
    if is_known(log, place, function) {
        return Ok(());
    }
    write_born_function(text, index, states, log, function)
}

#[tactic(auto, unfolding(crate::specs::Functions::function_at))]
fn write_entry(
    text: &mut String,
    index: &BirthIndex,
    states: &AttemptStates,
    log: &[Entry],
    place: usize,
) -> Result<(), AllocError>
    requires { place < length log.now }
    ensures { IsIndexOf index.now log.now → AreStatesOf states.now log.now → OnOk result
        (string_bytes text.new ≡ string_bytes text.old ++ function_at log.now place) }
{
    match &log[place] {
        Entry::Born { birth, .. } => { write_born(text, index, states, log, place, &birth.inner) }
        _ => Ok(()),
    }
}

fn write_others(
    text: &mut String,
    index: &BirthIndex,
    states: &AttemptStates,
    log: &[Entry],
) -> Result<(), AllocError>
    ensures { IsIndexOf index.now log.now → AreStatesOf states.now log.now → OnOk result
        (string_bytes text.new ≡ string_bytes text.old ++ others_text log.now) }
{
    for place in 0..log.len() {
        write_entry(text, index, states, log, place)?;
    }
    Ok(())
}

/// Writes a line for each function: main, then the others in the order in which their first tasks were born.
pub fn write_functions(
    text: &mut String,
    index: &BirthIndex,
    states: &AttemptStates,
    log: &[Entry],
) -> Result<(), AllocError>
    ensures { IsIndexOf index.now log.now → AreStatesOf states.now log.now → OnOk result
        (string_bytes text.new ≡ string_bytes text.old ++ functions_text log.now) }
{
    write_function(text, index, states, log, "main", 1)?;
    write_others(text, index, states, log)?;
    Ok(())
}
