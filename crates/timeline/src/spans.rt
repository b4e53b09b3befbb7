// The spans in a worker's row: the attempts that it runs, and the gets for which they wait.

ghost use Rattle.std.specs.Prelude.{◌≡◌, ◌++◌, IfOk, OnOk, map, option_copied, string_bytes};
ghost use Rattle.std.specs.Option.{option_map};
ghost use Rattle.serde_json.specs.View.{view};
ghost use Rattle.task_spec.specs.Births.{birth_of};
ghost use Rattle.event_log.specs.Words.{births};
ghost use Rattle.report_text.specs.of_report_lines.Texts.{attempt_text};
ghost use Rattle.log_words.specs.Index.{IsIndexOf};
ghost use Rattle.timeline.specs.Spans.{args_data, attempt_spans, called, span_data, wait_spans};

use crate::rows::Row;
use ids::AttemptId;
use log_entries::Entry;
use log_words::{BirthIndex, Contents, write_call};
use serde_json::{Value, json};
use std::alloc::{AllocError, Global};
use task_spec::Birth;

fn attempt_name(alloc: Global, attempt: AttemptId) -> Result<String, AllocError>
    ensures { IfOk result (λ s. string_bytes s ≡ attempt_text attempt) }
{
    format!(in alloc; "{attempt}")
}

fn args_json(alloc: Global, attempt: AttemptId, ending: &str) -> Result<Value, AllocError>
    ensures { IfOk result (λ v. view v ≡ args_data attempt ending.now) }
{
    let attempt = attempt_name(alloc, attempt)?;
    json!(in alloc; {"attempt": attempt, "end": ending})
}

/// A span from an event to another, in the row of a worker.
fn span_json(
    alloc: Global,
    name: &str,
    category: &str,
    args: Value,
    since: usize,
    row: &Row,
    clock: usize,
) -> Result<Value, AllocError>
    ensures { IfOk result (λ v. view v ≡ span_data name.now category.now (view args) since row.now clock) }
{
    let duration = clock.saturating_sub(since) as u64;
    let start = since as u64;
    json!(in alloc; {
        "args": args,
        "cat": category,
        "dur": duration,
        "name": name,
        "ph": "X",
        "pid": row.node.0,
        "tid": row.worker.0,
        "ts": start
    })
}

/// The call that an attempt runs.
fn called(
    alloc: Global,
    contents: Contents,
    attempt: AttemptId,
    birth: Option<&Birth>,
) -> Result<String, AllocError>
    ensures { IfOk result (λ s. string_bytes s ≡ called contents attempt (option_map birth_of (option_copied birth.entry))) }
{
    let Some(
        Birth::Task {
            function,
            arguments,
            ..
        },
    ) = birth
    else {
        return attempt_name(alloc, attempt);
    };
    let mut text = String::new(alloc);
    write_call(&mut text, contents, function.as_str(), arguments.as_slice())?;
    Ok(text)
}

/// Adds the attempt that the row's worker runs, up to this event.
pub fn add_attempt(
    alloc: Global,
    all: &mut Vec<Value>,
    contents: Contents,
    index: &BirthIndex,
    log: &[Entry],
    clock: usize,
    ending: &str,
    row: &Row,
) -> Result<(), AllocError>
    ensures { IsIndexOf index.now log.now → OnOk result
        (map view all.new.items ≡ map view all.old.items ++ attempt_spans contents (births log.now) clock ending.now row.now) }
{
    let Some(running) = &row.running else {
        return Ok(());
    };
    let attempt = running.attempt;
    let name = called(alloc, contents, attempt, index.birth(log, attempt.object))?;
    let args = args_json(alloc, attempt, ending)?;
    all.push(span_json(
        alloc,
        name.as_str(),
        "attempt",
        args,
        running.since,
        row,
        clock,
    )?)?;
    Ok(())
}

/// Adds the get for which the attempt waits that the row's worker runs, up to this event.
pub fn add_wait(
    alloc: Global,
    all: &mut Vec<Value>,
    clock: usize,
    name: &str,
    ending: &str,
    row: &Row,
) -> Result<(), AllocError>
    ensures { OnOk result (map view all.new.items ≡ map view all.old.items ++ wait_spans clock name.now ending.now row.now) }
{
    let Some(running) = &row.running else {
        return Ok(());
    };
    let Some(since) = running.waits else {
        return Ok(());
    };
    if since == clock {
        return Ok(());
    }
    let args = args_json(alloc, running.attempt, ending)?;
    all.push(span_json(alloc, name, "get", args, since, row, clock)?)?;
    Ok(())
}
