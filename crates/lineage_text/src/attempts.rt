// The node of an attempt, joined to the objects of its task.

ghost use Rattle.std.specs.Prelude.{◌≡◌, ◌++◌, IfOk, List, OnOk, Some, string_bytes};
ghost use Rattle.std.specs.List.{flat_map};
ghost use Rattle.values.specs.Values.{content_of};
ghost use Rattle.event_log.specs.Entries.{Entry as Logged};
ghost use Rattle.report_text.specs.of_report_lines.Attempts.{AreStatesOf};
ghost use Rattle.log_words.specs.Index.{IsIndexOf};
ghost use Rattle.lineage_text.specs.Attempts.{attempt_edge, attempt_node, begun_text, content_edges, ended_text, fate_head, fate_tail, fault_edge, fault_tail, faulted_text};
ghost use Rattle.lineage_text.specs.Attempts.{named_edges, result_edges, task_objects};

use crate::edges::write_named_edges;
use held::{SharedContent, SmallList};
use ids::{AttemptId, ObjectId, WorkerId};
use log_entries::Entry;
use log_words::{BirthIndex, Contents, objects_at, write_content};
use report_text::{AttemptStates, kind_name};
use std::alloc::{AllocError, Global};
use values::{Content, Fault, FaultKind, ids_in};

#[tactic(auto, unfolding(crate::specs::Attempts::attempt_node))]
fn write_attempt_node(
    text: &mut String,
    states: &AttemptStates,
    attempt: AttemptId,
    worker: WorkerId,
) -> Result<(), AllocError>
    ensures { (log : List Logged) → AreStatesOf states.now log → OnOk result
        (string_bytes text.new ≡ string_bytes text.old ++ attempt_node log attempt worker) }
{
    let state = states.name(attempt);
    writeln!(
        text,
        "    \"{attempt}\" [label=\"{attempt} on {worker}: {state}\", shape=plaintext];"
    )
}

/// The objects of the attempt's task, by the log of which that is the index.
fn task_objects(
    alloc: Global,
    index: &BirthIndex,
    log: &[Entry],
    attempt: AttemptId,
) -> Result<Vec<ObjectId>, AllocError>
    ensures { IsIndexOf index.now log.now → IfOk result (λ objects. objects.items ≡ task_objects log.now attempt) }
{
    objects_at(alloc, index, log, attempt.object)
}

#[tactic(auto, unfolding(crate::specs::Attempts::attempt_edge))]
fn write_attempt_edge(
    text: &mut String,
    attempt: AttemptId,
    object: ObjectId,
) -> Result<(), AllocError>
    ensures { OnOk result (string_bytes text.new ≡ string_bytes text.old ++ attempt_edge attempt object) }
{
    writeln!(
        text,
        "    \"{object}\" -> \"{attempt}\" [style=dotted, arrowhead=none];"
    )
}

fn write_attempt_edges(
    text: &mut String,
    attempt: AttemptId,
    objects: &[ObjectId],
) -> Result<(), AllocError>
    ensures { OnOk result (string_bytes text.new ≡ string_bytes text.old ++ flat_map (attempt_edge attempt) objects.now) }
{
    for object in objects {
        write_attempt_edge(text, attempt, *object)?;
    }
    Ok(())
}

/// Writes the node of an attempt, with its worker and its state, and the edges from the objects of its task.
pub fn write_begun(
    alloc: Global,
    text: &mut String,
    states: &AttemptStates,
    index: &BirthIndex,
    log: &[Entry],
    attempt: AttemptId,
    worker: WorkerId,
) -> Result<(), AllocError>
    ensures { AreStatesOf states.now log.now → IsIndexOf index.now log.now → OnOk result
        (string_bytes text.new ≡ string_bytes text.old ++ begun_text log.now attempt worker) }
{
    let objects = task_objects(alloc, index, log, attempt)?;
    write_attempt_node(text, states, attempt, worker)?;
    write_attempt_edges(text, attempt, &objects)
}

#[tactic(auto, unfolding(crate::specs::Attempts::fate_head))]
fn write_fate_head(
    text: &mut String,
    attempt: AttemptId,
    object: ObjectId,
) -> Result<(), AllocError>
    ensures { OnOk result (string_bytes text.new ≡ string_bytes text.old ++ fate_head attempt object) }
{
    write!(text, "    \"{object}\" -> \"{attempt}\" [label=\"")
}

#[tactic(auto, unfolding(crate::specs::Attempts::fate_tail))]
fn write_fate_tail(text: &mut String) -> Result<(), AllocError>
    ensures { OnOk result (string_bytes text.new ≡ string_bytes text.old ++ fate_tail) }
{
    text.push_str("\"];\n")
}

/// Writes the edges from an object to what a content of it names.
fn write_named(
    alloc: Global,
    text: &mut String,
    object: ObjectId,
    content: &Content,
) -> Result<(), AllocError>
    ensures { OnOk result (string_bytes text.new ≡ string_bytes text.old ++ named_edges object (content_of content.now)) }
{
    let named = ids_in(content, alloc)?;
    write_named_edges(text, object, &named)
}

/// Writes the edge from an object to an attempt with its content, and the edges to what that names.
fn write_content_edges(
    alloc: Global,
    text: &mut String,
    contents: Contents,
    attempt: AttemptId,
    object: ObjectId,
    content: &Content,
) -> Result<(), AllocError>
    ensures { OnOk result (string_bytes text.new ≡ string_bytes text.old
        ++ content_edges contents attempt object (Some (content_of content.now))) }
{
    write_fate_head(text, attempt, object)?;
    write_content(text, contents, content)?;
    write_fate_tail(text)?;
    write_named(alloc, text, object, content)
}

/// Writes the content in the object's place.
#[tactic(auto, unfolding(crate::specs::Attempts::result_edges))]
fn write_result(
    alloc: Global,
    text: &mut String,
    contents: Contents,
    attempt: AttemptId,
    results: &SmallList<SharedContent>,
    object: ObjectId,
) -> Result<(), AllocError>
    ensures { OnOk result (string_bytes text.new ≡ string_bytes text.old ++ result_edges contents attempt results.now object) }
{
    let place = object.serial.saturating_sub(attempt.object.serial) as usize;
    let Some(content) = results.as_slice().get(place) else {
        return Ok(());
    };
    write_content_edges(alloc, text, contents, attempt, object, &content.inner)
}

fn write_results(
    alloc: Global,
    text: &mut String,
    contents: Contents,
    attempt: AttemptId,
    results: &SmallList<SharedContent>,
    objects: &[ObjectId],
) -> Result<(), AllocError>
    ensures { OnOk result (string_bytes text.new ≡ string_bytes text.old ++ flat_map (result_edges contents attempt results.now) objects.now) }
{
    for object in objects {
        write_result(alloc, text, contents, attempt, results, *object)?;
    }
    Ok(())
}

/// Writes the contents with which an attempt ended, each at its object, and the edges to what they name.
pub fn write_ended(
    alloc: Global,
    text: &mut String,
    contents: Contents,
    index: &BirthIndex,
    log: &[Entry],
    attempt: AttemptId,
    results: &SmallList<SharedContent>,
) -> Result<(), AllocError>
    ensures { IsIndexOf index.now log.now → OnOk result
        (string_bytes text.new ≡ string_bytes text.old ++ ended_text contents log.now attempt results.now) }
{
    let objects = task_objects(alloc, index, log, attempt)?;
    write_results(alloc, text, contents, attempt, results, &objects)
}

#[tactic(auto, unfolding(crate::specs::Attempts::fault_tail))]
fn write_tail_of(text: &mut String, kind: FaultKind, object: ObjectId) -> Result<(), AllocError>
    ensures { OnOk result (string_bytes text.new ≡ string_bytes text.old ++ fault_tail (record { kind = kind; object = object })) }
{
    let kind = kind_name(kind);
    writeln!(text, "{kind} {object}\", color=red];")
}

/// Writes the end of a red label that is a fault.
pub fn write_fault_tail(text: &mut String, fault: Fault) -> Result<(), AllocError>
    ensures { OnOk result (string_bytes text.new ≡ string_bytes text.old ++ fault_tail fault) }
{
    write_tail_of(text, fault.kind, fault.object)
}

fn write_fault_edge(
    text: &mut String,
    attempt: AttemptId,
    fault: Fault,
    object: ObjectId,
) -> Result<(), AllocError>
    ensures { OnOk result (string_bytes text.new ≡ string_bytes text.old ++ fault_edge attempt fault object) }
{
    write_fate_head(text, attempt, object)?;
    write_fault_tail(text, fault)
}

fn write_fault_edges(
    text: &mut String,
    attempt: AttemptId,
    fault: Fault,
    objects: &[ObjectId],
) -> Result<(), AllocError>
    ensures { OnOk result (string_bytes text.new ≡ string_bytes text.old ++ flat_map (fault_edge attempt fault) objects.now) }
{
    for object in objects {
        write_fault_edge(text, attempt, fault, *object)?;
    }
    Ok(())
}

/// Writes the fault with which an attempt ended, at each object of its task.
pub fn write_faulted(
    alloc: Global,
    text: &mut String,
    index: &BirthIndex,
    log: &[Entry],
    attempt: AttemptId,
    fault: Fault,
) -> Result<(), AllocError>
    ensures { IsIndexOf index.now log.now → OnOk result
        (string_bytes text.new ≡ string_bytes text.old ++ faulted_text log.now attempt fault) }
{
    let objects = task_objects(alloc, index, log, attempt)?;
    write_fault_edges(text, attempt, fault, &objects)
}
