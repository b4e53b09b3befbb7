// What is counted, and how many workers a node would open, read off before anything is changed.

ghost use Rattle.std.specs.Prelude.{◌≡◌, ◌+◌, IfOk, length, nat_lt};
ghost use Rattle.protocol.specs.Sets.{without_number};
ghost use Rattle.protocol.specs.Cluster.{moved, node_at};
ghost use Rattle.step_laws.specs.Limits.{entries_within};
ghost use Rattle.cluster_events.specs.Told.{if_taken};
ghost use Rattle.step_laws.specs.Opens.{asked_opens, death_opens, fits, opened_at, opened_by_death, reached_opens};

use cluster_steps::log_nothing;
use ids::{NodeId, WorkerId};
use lease::{has_free_slot, reply_to};
use number_lists::{has_worker, item_at_number, remove_worker};
use protocol_data::{AskKey, ClusterState, Endpoint, Message, NodeContext, Scheduler};
use sequence::Seq;
use std::alloc::{AllocError, Global};

/// An ask reaches the node.
fn asked_opens(scheduler: &Scheduler, key: &AskKey) -> bool
    ensures { result ≡ asked_opens scheduler.now key.now }
{
    match reply_to(scheduler, key) {
        Some(_) => false,
        None => has_free_slot(scheduler) && scheduler.idle.rows().is_empty(),
    }
}

/// A message reaches the node.
fn reached_opens(scheduler: &Scheduler, sender: &Endpoint, message: &Message) -> bool
    ensures { result ≡ reached_opens scheduler.now sender.now message.now }
{
    match sender {
        Endpoint::TheNode(_) => false,
        Endpoint::TheWorker(_) => match message {
            Message::Ask(attempt, t) => {
                let attempt = *attempt;
                asked_opens(scheduler, &AskKey { attempt, hops: *t })
            }
            _ => false,
        },
    }
}

/// How many workers the node opens, as the message reaches it.
pub fn opened_at(whole: &ClusterState, node: NodeId, sender: &Endpoint, message: &Message) -> u64
    ensures { result ≡ opened_at (node_at whole.now node) sender.now message.now }
{
    let Some(found) = item_at_number(&whole.nodes, u64::from(node.0)) else {
        return 0;
    };
    if reached_opens(&found.scheduler, sender, message) {
        return 1;
    }
    0
}

/// These workers but for one.
fn without(
    alloc: Global,
    workers: &Seq<WorkerId>,
    worker: WorkerId,
) -> Result<Seq<WorkerId>, AllocError>
    ensures { IfOk result (λ others. others ≡ without_number workers.now worker) }
{
    let mut others = workers.copy(alloc)?;
    remove_worker(&mut others, worker);
    Ok(others)
}

/// A worker of the node dies.
fn death_opens(alloc: Global, scheduler: &Scheduler, worker: WorkerId) -> Result<bool, AllocError>
    ensures { IfOk result (λ opens. opens ≡ death_opens scheduler.now worker) }
{
    if !has_worker(&scheduler.slot_holders, worker) {
        return Ok(false);
    }
    let slot_holders = without(alloc, &scheduler.slot_holders, worker)?;
    let answered = without(alloc, &scheduler.answered, worker)?;
    let idle = without(alloc, scheduler.idle.rows(), worker)?;
    let is_free = (slot_holders.len() as u64) < u64::from(scheduler.slots);
    let is_queued = !scheduler.queue.as_slice().is_empty();
    Ok(is_free && answered.items.is_empty() && is_queued && idle.items.is_empty())
}

/// How many workers the node opens, as one of its workers dies.
pub fn opened_by_death(
    alloc: Global,
    whole: &ClusterState,
    node: NodeId,
    worker: WorkerId,
) -> Result<u64, AllocError>
    ensures { IfOk result (λ opened. opened ≡ opened_by_death (node_at whole.now node) worker) }
{
    let Some(found) = item_at_number(&whole.nodes, u64::from(node.0)) else {
        return Ok(0);
    };
    if death_opens(alloc, &found.scheduler, worker)? {
        return Ok(1);
    }
    Ok(0)
}

/// Whether so many workers are within the limit.
fn workers_fit(before: u64, opened: u64) -> bool
    ensures { result ≡ nat_lt (before + opened) 1025 }
{
    before < 1025 && opened < 1025 - before
}

/// Whether the whole is within the limits, with so many workers more, and so many objects.
pub fn fits(whole: &ClusterState, opened: u64, made: u64) -> bool
    ensures { result ≡ fits (length whole.now.nodes) (length whole.now.workers + opened) made }
{
    (whole.nodes.len() as u64) < 65
        && workers_fit(whole.workers.len() as u64, opened)
        && made < 1000001
}

/// Nothing happens, and nothing is logged. It is told whether that is within the limits.
pub fn nothing(whole: &ClusterState, context: &mut NodeContext, made: u64) -> bool
    ensures { if_taken result context.new.out.entries ≡ entries_within made (moved whole.now) }
{
    log_nothing(context);
    fits(whole, 0, made)
}
