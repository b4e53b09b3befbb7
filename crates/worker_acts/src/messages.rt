// What a worker does with each message that reaches it.

ghost use Rattle.std.specs.Prelude.{◌≡◌, OnErr, OnOk, Some, None, true};
ghost use Rattle.worker_steps.specs.of_contexts.Emptied.{nothing_here};
ghost use Rattle.protocol.specs.Deliveries.{reached, reached_from_node, reached_from_worker};
ghost use Rattle.worker_acts.specs.Concerned.{concerns, concerns_by_node, concerns_by_worker};

use commit_steps::owner_steps::{
    elsewhere_reached, failed_reached, finished_reached, given_reached, missing_reached,
    where_reached,
};
use ids::{NodeId, WorkerId};
use protocol_data::{Endpoint, Message, WorkerContext};
use std::alloc::{AllocError, Global};
use worker_steps::{
    at_reached, copy_reached, finished_ack_reached, gone_reached, hold_ack_reached, hold_reached,
    push_reached, unhold_reached,
};

/// A worker's message reaches the worker.
fn reached_from_worker(
    alloc: Global,
    here: &mut WorkerContext,
    worker: WorkerId,
    message: &Message,
) -> Result<(), AllocError>
    ensures done { OnOk result (here.new ≡ reached_from_worker here.old worker message.now) }
    ensures err { OnErr result (here.new ≡ nothing_here) }
    ensures asked { OnErr result (concerns_by_worker here.old worker message.now ≡ true) }
{
    match message {
        Message::Push(attempt, spec) => push_reached(alloc, here, *attempt, spec),
        Message::Finished(attempt, node, results) => {
            finished_reached(alloc, here, worker, *attempt, *node, results)
        }
        Message::FinishedAck(attempt) => finished_ack_reached(here, *attempt),
        Message::Failed(attempt, why) => failed_reached(alloc, here, worker, *attempt, *why),
        Message::Where(object) => where_reached(alloc, here, worker, *object),
        Message::At(object, number, nodes, kept) => {
            at_reached(alloc, here, *object, *number, nodes, kept)
        }
        Message::Gone(object, why) => gone_reached(alloc, here, *object, *why),
        Message::Missing(object, number, node) => {
            missing_reached(
                alloc,
                here,
                &Endpoint::TheWorker(worker),
                *object,
                *number,
                *node,
            )
        }
        Message::Hold(holder, object) => hold_reached(here, worker, *holder, *object),
        Message::HoldAck(holder, object) => hold_ack_reached(alloc, here, *holder, *object),
        Message::Unhold(holder, object, why) => unhold_reached(here, *holder, *object, *why),
        _ => Ok(()),
    }
}

/// A node's message reaches the worker.
fn reached_from_node(
    alloc: Global,
    here: &mut WorkerContext,
    node: NodeId,
    message: &Message,
) -> Result<(), AllocError>
    ensures done { OnOk result (here.new ≡ reached_from_node here.old node message.now) }
    ensures err { OnErr result (here.new ≡ nothing_here) }
    ensures asked { OnErr result (concerns_by_node here.old node message.now ≡ true) }
{
    match message {
        Message::Give(attempt, t, worker) => {
            given_reached(alloc, here, node, *attempt, *t, *worker)
        }
        Message::Elsewhere(attempt, t, next) => elsewhere_reached(here, *attempt, *t, *next),
        Message::CopyOf(object, number, content) => {
            copy_reached(alloc, here, *object, *number, content)
        }
        Message::Missing(object, number, place) => {
            missing_reached(
                alloc,
                here,
                &Endpoint::TheNode(node),
                *object,
                *number,
                *place,
            )
        }
        _ => Ok(()),
    }
}

/// A message reaches the worker; what no rule names is passed over.
pub fn reached(
    alloc: Global,
    here: &mut WorkerContext,
    sender: &Endpoint,
    message: &Message,
) -> Result<(), AllocError>
    ensures done { OnOk result (here.new ≡ reached here.old sender.now message.now) }
    ensures err { OnErr result (here.new ≡ nothing_here) }
    ensures asked { OnErr result (concerns here.old sender.now message.now ≡ true) }
{
    match sender {
        Endpoint::TheWorker(worker) => reached_from_worker(alloc, here, *worker, message),
        Endpoint::TheNode(node) => reached_from_node(alloc, here, *node, message),
    }
}
