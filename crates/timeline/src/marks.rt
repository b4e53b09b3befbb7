// The names of rows, and what happens in a moment.

ghost use Rattle.std.specs.Prelude.{◌≡◌, ◌++◌, ◌∷◌, [], IfOk, OnOk, codes, map, string_bytes};
ghost use Rattle.serde_json.specs.View.{view};
ghost use Rattle.ids.specs.Texts.{worker_text};
ghost use Rattle.report.specs.ValueTexts.{id_text};
ghost use Rattle.timeline.specs.Marks.{entry_marks, event_marks, mark_data, name_data};

use ids::{NodeId, ObjectId, WorkerId};
use log_entries::{Entry, Event};
use serde_json::{Value, json};
use std::alloc::{AllocError, Global};

/// The name of a node, or of a row.
pub fn name_json(
    alloc: Global,
    name: &str,
    kind: &str,
    node: u32,
    worker: u32,
) -> Result<Value, AllocError>
    ensures { IfOk result (λ v. view v ≡ name_data name.now kind.now node worker) }
{
    json!(in alloc; {
        "args": {"name": name},
        "name": kind,
        "ph": "M",
        "pid": node,
        "tid": worker
    })
}

/// A death or a loss.
pub fn mark_json(
    alloc: Global,
    name: &str,
    scope: &str,
    node: NodeId,
    worker: u32,
    clock: usize,
) -> Result<Value, AllocError>
    ensures { IfOk result (λ v. view v ≡ mark_data name.now scope.now node worker clock) }
{
    let time = clock as u64;
    json!(in alloc; {
        "cat": "failure",
        "name": name,
        "ph": "i",
        "pid": node.0,
        "s": scope,
        "tid": worker,
        "ts": time
    })
}

fn worker_name(alloc: Global, worker: WorkerId) -> Result<String, AllocError>
    ensures { IfOk result (λ s. string_bytes s ≡ worker_text worker) }
{
    format!(in alloc; "{worker}")
}

fn loss_name(alloc: Global, object: ObjectId) -> Result<String, AllocError>
    ensures { IfOk result (λ s. string_bytes s ≡ codes "loses " ++ id_text object) }
{
    format!(in alloc; "loses {object}")
}

fn add_event_marks(
    alloc: Global,
    all: &mut Vec<Value>,
    clock: usize,
    event: &Event,
) -> Result<(), AllocError>
    ensures { OnOk result (map view all.new.items ≡ map view all.old.items ++ event_marks clock event.now) }
{
    match event {
        Event::Lose { node, object } => {
            let name = loss_name(alloc, *object)?;
            Ok(all.push(mark_json(alloc, name.as_str(), "p", *node, 0, clock)?)?)
        }
        Event::KillNode(node) => Ok(all.push(mark_json(alloc, "dies", "p", *node, 0, clock)?)?),
        _ => Ok(()),
    }
}

fn add_name(
    alloc: Global,
    all: &mut Vec<Value>,
    worker: WorkerId,
    node: NodeId,
) -> Result<(), AllocError>
    ensures { OnOk result (map view all.new.items ≡ map view all.old.items
        ++ (name_data (worker_text worker) (codes "thread_name") node worker ∷ [])) }
{
    let name = worker_name(alloc, worker)?;
    let name = name_json(alloc, name.as_str(), "thread_name", node.0, worker.0)?;
    all.push(name)?;
    Ok(())
}

/// Adds what an entry adds in no worker's row.
pub fn add_marks(
    alloc: Global,
    all: &mut Vec<Value>,
    clock: usize,
    entry: &Entry,
    is_refused: bool,
) -> Result<(), AllocError>
    ensures { OnOk result (map view all.new.items ≡ map view all.old.items ++ entry_marks clock entry.now is_refused) }
{
    match entry {
        Entry::Opened { worker, node } => add_name(alloc, all, *worker, *node),
        Entry::In { event, .. } => {
            if is_refused {
                return Ok(());
            }
            add_event_marks(alloc, all, clock, event)
        }
        _ => Ok(()),
    }
}
