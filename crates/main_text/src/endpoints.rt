// How workers, nodes and owners are written in an answer: `w2`, `n1`.

ghost use Rattle.std.specs.Prelude.{◌≡◌, ◌++◌, [], OnErr, OnOk, string_bytes};
ghost use Rattle.std.specs.List.{flat_map};
ghost use Rattle.main_text.specs.Links.{node_text, other_text};
ghost use Rattle.main_text.specs.Links.{endpoint_name};
ghost use Rattle.main_text.specs.Links.{worker_text, workers_text};

use ids::{AttemptId, NodeId, ObjectId, WorkerId};
use protocol_data::Endpoint;
use report::or_no_text;
use std::alloc::AllocError;

/// Writes a worker, such as `w2`. An error is want of memory, and then nothing is left of the text.
#[tactic(auto, unfolding(crate::specs::Links::worker_text))]
pub fn write_worker(text: &mut String, worker: WorkerId) -> Result<(), AllocError>
    ensures done { OnOk result (string_bytes text.new ≡ string_bytes text.old ++ worker_text worker) }
    ensures err { OnErr result (string_bytes text.new ≡ []) }
{
    let number = worker.0;
    or_no_text(write!(text, "w{number}"), text)
}

/// Writes a node, such as `n1`. An error is want of memory, and then nothing is left of the text.
#[tactic(auto, unfolding(crate::specs::Links::node_text))]
pub fn write_node(text: &mut String, node: NodeId) -> Result<(), AllocError>
    ensures done { OnOk result (string_bytes text.new ≡ string_bytes text.old ++ node_text node) }
    ensures err { OnErr result (string_bytes text.new ≡ []) }
{
    let number = node.0;
    or_no_text(write!(text, "n{number}"), text)
}

/// Writes the worker that owns the object.
pub fn write_owner(text: &mut String, object: ObjectId) -> Result<(), AllocError>
    ensures { OnOk result (string_bytes text.new ≡ string_bytes text.old ++ worker_text object.owner) }
{
    let owner = object.owner;
    write_worker(text, owner)
}

/// Writes the worker that owns the attempt's object.
pub fn write_owner_of(text: &mut String, attempt: AttemptId) -> Result<(), AllocError>
    ensures { OnOk result (string_bytes text.new ≡ string_bytes text.old ++ worker_text attempt.object.owner) }
{
    write_worker(text, attempt.owner())
}

fn write_others(text: &mut String, workers: &[WorkerId]) -> Result<(), AllocError>
    ensures { OnOk result (string_bytes text.new ≡ string_bytes text.old ++ flat_map other_text workers.now) }
{
    for worker in workers {
        text.push_str(", ")?;
        write_worker(text, *worker)?;
    }
    Ok(())
}

/// Writes the workers, such as `w2, w4`. An error is want of memory, and then nothing is left of the text.
pub fn write_workers(text: &mut String, workers: &[WorkerId]) -> Result<(), AllocError>
    ensures done { OnOk result (string_bytes text.new ≡ string_bytes text.old ++ workers_text workers.now) }
    ensures err { OnErr result (string_bytes text.new ≡ []) }
{
    let [first, others @ ..] = workers else {
        return or_no_text(text.push_str("nobody"), text);
    };
    write_worker(text, *first)?;
    or_no_text(write_others(text, others), text)
}

/// Writes a worker or a node.
pub fn write_endpoint(text: &mut String, endpoint: Endpoint) -> Result<(), AllocError>
    ensures { OnOk result (string_bytes text.new ≡ string_bytes text.old ++ endpoint_name endpoint) }
{
    match endpoint {
        Endpoint::TheWorker(worker) => write_worker(text, worker),
        Endpoint::TheNode(node) => write_node(text, node),
    }
}
