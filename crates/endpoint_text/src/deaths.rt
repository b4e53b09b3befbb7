// What is said of an opening and of a death.

ghost use Rattle.std.specs.Prelude.{◌≡◌, ◌++◌, IfOk, OnOk, string_bytes};
ghost use Rattle.std.specs.List.{flat_map};
ghost use Rattle.event_log.specs.Words.{births};
ghost use Rattle.report_text.specs.of_report_lines.Main.{first};
ghost use Rattle.log_words.specs.Index.{IsIndexOf};
ghost use Rattle.why_text.specs.Moments.{moment_of};
ghost use Rattle.endpoint_text.specs.Deaths.{broke_if, broke_text, broken_text, death_text, death_with_text, first_given, for_note};
ghost use Rattle.endpoint_text.specs.Deaths.{given_by, given_in, opened_head, opened_text, ran_in, ran_on, with_node};

use ids::{AttemptId, NodeId, WorkerId};
use log_entries::Entry;
use log_text::write_named;
use log_words::BirthIndex;
use main_text::write_worker;
use protocol_data::{Envelope, Message};
use std::alloc::{AllocError, Global};
use why_text::{Moment, has_ended, write_when};

fn given_by(worker: WorkerId, message: &Message) -> Option<AttemptId>
    ensures { result ≡ first (given_by worker message.now) }
{
    match message {
        Message::Give(attempt, _, given) => {
            if given.is(worker) {
                return Some(*attempt);
            }
            None
        }
        _ => None,
    }
}

fn given_in(worker: WorkerId, envelope: &Envelope) -> Option<AttemptId>
    ensures { result ≡ first (given_in worker envelope.now) }
{
    given_by(worker, &envelope.message)
}

/// The attempt to which a node gave the worker first.
fn first_given(envelopes: &[Envelope], worker: WorkerId) -> Option<AttemptId>
    ensures { result ≡ first_given envelopes.now worker }
{
    for envelope in envelopes {
        if let Some(attempt) = given_in(worker, envelope) {
            return Some(attempt);
        }
    }
    None
}

fn write_for(
    text: &mut String,
    index: &BirthIndex,
    log: &[Entry],
    given: Option<AttemptId>,
) -> Result<(), AllocError>
    ensures { IsIndexOf index.now log.now → OnOk result
        (string_bytes text.new ≡ string_bytes text.old ++ for_note (births log.now) given) }
{
    let Some(attempt) = given else {
        return Ok(());
    };
    text.push_str(", for ")?;
    write_named(text, index, log, attempt)
}

#[tactic(auto, unfolding(crate::specs::Deaths::opened_head))]
fn write_opened_head(text: &mut String, worker: WorkerId, node: NodeId) -> Result<(), AllocError>
    ensures { OnOk result (string_bytes text.new ≡ string_bytes text.old ++ opened_head worker node) }
{
    write!(text, "{worker} was opened on {node}")
}

/// Writes where a worker was opened, when, and for which attempt.
pub fn write_opened(
    text: &mut String,
    index: &BirthIndex,
    log: &[Entry],
    envelopes: &[Envelope],
    moment: &Moment,
    worker: WorkerId,
    node: NodeId,
) -> Result<(), AllocError>
    ensures { IsIndexOf index.now log.now → OnOk result
        (string_bytes text.new ≡ string_bytes text.old ++ opened_text log.now envelopes.now (moment_of moment.now) worker node) }
{
    write_opened_head(text, worker, node)?;
    write_when(text, moment)?;
    write_for(text, index, log, first_given(envelopes, worker))?;
    text.push_str(".\n")
}

fn add_run(runs: &mut Vec<AttemptId>, worker: WorkerId, entry: &Entry) -> Result<(), AllocError>
    ensures { OnOk result (runs.new.items ≡ runs.old.items ++ ran_in worker entry.now) }
{
    let Entry::Begun {
        attempt,
        worker: runner,
    } = entry
    else {
        return Ok(());
    };
    if runner.is(worker) {
        return Ok(runs.push(*attempt)?);
    }
    Ok(())
}

/// The attempts that the worker ran, in the order in which they were begun.
pub fn ran_on(alloc: Global, log: &[Entry], worker: WorkerId) -> Result<Vec<AttemptId>, AllocError>
    ensures { IfOk result (λ runs. runs.items ≡ ran_on log.now worker) }
{
    let mut runs = Vec::new(alloc);
    for entry in log {
        add_run(&mut runs, worker, entry)?;
    }
    Ok(runs)
}

#[tactic(auto, unfolding(crate::specs::Deaths::broke_text))]
fn write_broke(
    text: &mut String,
    index: &BirthIndex,
    log: &[Entry],
    attempt: AttemptId,
) -> Result<(), AllocError>
    ensures { IsIndexOf index.now log.now → OnOk result
        (string_bytes text.new ≡ string_bytes text.old ++ broke_text (births log.now) attempt) }
{
    text.push_str(", and ")?;
    write_named(text, index, log, attempt)?;
    text.push_str(" broke")
}

fn write_broke_if(
    text: &mut String,
    index: &BirthIndex,
    log: &[Entry],
    attempt: AttemptId,
) -> Result<(), AllocError>
    ensures { IsIndexOf index.now log.now → OnOk result
        (string_bytes text.new ≡ string_bytes text.old ++ broke_if log.now attempt) }
{
    if has_ended(log, attempt) {
        return Ok(());
    }
    write_broke(text, index, log, attempt)
}

/// Writes which of the attempts broke.
fn write_broken(
    text: &mut String,
    index: &BirthIndex,
    log: &[Entry],
    attempts: &[AttemptId],
) -> Result<(), AllocError>
    ensures { IsIndexOf index.now log.now → OnOk result
        (string_bytes text.new ≡ string_bytes text.old ++ broken_text log.now attempts.now) }
{
    for attempt in attempts {
        write_broke_if(text, index, log, *attempt)?;
    }
    Ok(())
}

/// Writes that the worker died, and which of the attempts that it ran broke.
pub fn write_death(
    text: &mut String,
    index: &BirthIndex,
    log: &[Entry],
    moment: &Moment,
    worker: WorkerId,
    attempts: &[AttemptId],
) -> Result<(), AllocError>
    ensures { IsIndexOf index.now log.now → OnOk result
        (string_bytes text.new ≡ string_bytes text.old ++ death_text log.now (moment_of moment.now) worker attempts.now) }
{
    write_worker(text, worker)?;
    text.push_str(" died")?;
    write_when(text, moment)?;
    write_broken(text, index, log, attempts)?;
    text.push_str(".\n")
}

#[tactic(auto, unfolding(crate::specs::Deaths::with_node))]
fn write_with_node(text: &mut String, worker: WorkerId, node: NodeId) -> Result<(), AllocError>
    ensures { OnOk result (string_bytes text.new ≡ string_bytes text.old ++ with_node worker node) }
{
    write!(text, "{worker} died with {node}")
}

/// Writes that the worker died with its node, and which of the attempts that it ran broke.
pub fn write_death_with(
    text: &mut String,
    index: &BirthIndex,
    log: &[Entry],
    moment: &Moment,
    worker: WorkerId,
    node: NodeId,
    attempts: &[AttemptId],
) -> Result<(), AllocError>
    ensures { IsIndexOf index.now log.now → OnOk result
        (string_bytes text.new ≡ string_bytes text.old ++ death_with_text log.now (moment_of moment.now) worker node attempts.now) }
{
    write_with_node(text, worker, node)?;
    write_when(text, moment)?;
    write_broken(text, index, log, attempts)?;
    text.push_str(".\n")
}
