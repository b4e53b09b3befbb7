// The attempts of a report as JSON: of each its name, its state and its worker.

ghost use Rattle.std.specs.Prelude.{◌≡◌, ◌++◌, List, IfOk, OnOk, map, string_bytes};
ghost use Rattle.serde_json.specs.Data.{array};
ghost use Rattle.serde_json.specs.View.{view, items_of};
ghost use Rattle.std.specs.List.{flat_map};
ghost use Rattle.event_log.specs.Entries as logged;
ghost use Rattle.report_text.specs.of_report_lines.Attempts.{AreStatesOf};
ghost use Rattle.report_text.specs.of_report_lines.Texts.{attempt_text};
ghost use Rattle.report_json.specs.Attempts.{attempt_data, attempt_in};

use crate::value::array_of;
use ids::{AttemptId, WorkerId};
use log_entries::Entry;
use report_text::AttemptStates;
use report_text::main_end::is_main;
use serde_json::{Value, json};
use std::alloc::{AllocError, Global};

fn attempt_name(alloc: Global, attempt: AttemptId) -> Result<String, AllocError>
    ensures { IfOk result (λ s. string_bytes s ≡ attempt_text attempt) }
{
    format!(in alloc; "{attempt}")
}

fn attempt_json(
    alloc: Global,
    states: &AttemptStates,
    attempt: AttemptId,
    worker: WorkerId,
) -> Result<Value, AllocError>
    ensures { (log : List logged.Entry) → AreStatesOf states.now log → IfOk result (λ v. view v ≡ attempt_data log attempt worker) }
{
    let text = attempt_name(alloc, attempt)?;
    let state = states.name(attempt);
    json!(in alloc; {"attempt": text, "state": state, "worker": worker.0})
}

/// Adds the attempt that the entry begins, unless it is main's.
fn add_attempt(
    alloc: Global,
    all: &mut Vec<Value>,
    states: &AttemptStates,
    entry: &Entry,
) -> Result<(), AllocError>
    ensures { (log : List logged.Entry) → AreStatesOf states.now log → OnOk result
        (map view all.new.items ≡ map view all.old.items ++ attempt_in log entry.now) }
{
    let Entry::Begun { attempt, worker } = entry else {
        return Ok(());
    };
    if is_main(*attempt) {
        return Ok(());
    }
    all.push(attempt_json(alloc, states, *attempt, *worker)?)?;
    Ok(())
}

fn add_attempts(
    alloc: Global,
    all: &mut Vec<Value>,
    states: &AttemptStates,
    log: &[Entry],
) -> Result<(), AllocError>
    requires { AreStatesOf states.now log.now }
    ensures { OnOk result (map view all.new.items ≡ map view all.old.items ++ flat_map (attempt_in log.now) log.now) }
{
    for entry in log {
        add_attempt(alloc, all, states, entry)?;
    }
    Ok(())
}

fn attempt_values(alloc: Global, log: &[Entry]) -> Result<Vec<Value>, AllocError>
    ensures { IfOk result (λ all. map view all.items ≡ flat_map (attempt_in log.now) log.now) }
{
    let states = AttemptStates::of(alloc, log)?;
    let mut all = Vec::new(alloc);
    let added = add_attempts(alloc, &mut all, &states, log);
    drop(states);
    if let Err(failed) = added {
        drop(all);
        return Err(failed);
    }
    Ok(all)
}

/// The attempts but main's, in the order of their beginnings.
pub fn attempts_json(alloc: Global, log: &[Entry]) -> Result<Value, AllocError>
    ensures { IfOk result (λ v. view v ≡ array (items_of (flat_map (attempt_in log.now) log.now))) }
{
    let all = attempt_values(alloc, log)?;
    Ok(array_of(all))
}
