// What a worker does in an event.

ghost use Rattle.std.specs.Prelude.{◌≡◌, OnErr, OnOk, true};
ghost use Rattle.worker_steps.specs.of_contexts.Emptied.{nothing_here};
ghost use Rattle.protocol.specs.Releases.{release_step};
ghost use Rattle.protocol.specs.Numbered.{item_at};
ghost use Rattle.worker_acts.specs.Acts.{act_step, received};
ghost use Rattle.worker_acts.specs.Concerned.{AsksFor, concerns_act, concerns_envelope};

use crate::messages::reached;
use crate::ticks::tick_step;
use boxed_value::Boxed;
use commit_steps::{claim_step, commit_step};
use death_steps::{notice_node_step, notice_step};
use ids::{NodeId, WorkerId};
use number_lists::item_at_number;
use protocol_data::{Envelope, Outcomes, WorkerContext};
use sequence::Seq;
use std::alloc::{AllocError, Global};
use worker_steps::release_all;

/// What a worker does in an event.
#[derive(Drop)]
pub enum Act {
    /// Its attempt is given out as the job of that number.
    Claim(u64),
    /// What was done on its attempt's job is committed.
    Commit(Boxed<Outcomes>),
    /// The message of that number reaches it, if one was sent that has it.
    Receive(u64),
    /// It sends again what it waits for.
    Tick,
    /// It is told that this worker is dead.
    LearnWorkerDied(WorkerId),
    /// It is told that this node is dead.
    LearnNodeDied(NodeId),
}

/// The message of that number, if there is one, reaches the worker.
fn receive(
    alloc: Global,
    here: &mut WorkerContext,
    sent: &Seq<Envelope>,
    number: u64,
) -> Result<(), AllocError>
    ensures done { OnOk result (here.new ≡ received here.old (item_at sent.now number)) }
    ensures err { OnErr result (here.new ≡ nothing_here) }
    ensures asked { OnErr result (concerns_envelope here.old (item_at sent.now number) ≡ true) }
{
    let Some(envelope) = item_at_number(sent, number) else {
        return Ok(());
    };
    reached(alloc, here, &envelope.sender, &envelope.message)
}

/// The worker's step alone, where these messages were sent so far.
#[inline(always)]
fn step(
    alloc: Global,
    here: &mut WorkerContext,
    sent: &Seq<Envelope>,
    act: &mut Act,
) -> Result<(), AllocError>
    ensures done { OnOk result (here.new ≡ act_step sent.now act.old here.old) }
    ensures err { OnErr result (here.new ≡ nothing_here) }
    ensures asked { OnErr result (concerns_act sent.now act.old here.old ≡ true) }
{
    match act {
        Act::Claim(job) => {
            claim_step(here, *job);
            Ok(())
        }
        Act::Commit(outcomes) => commit_step(alloc, here, outcomes),
        Act::Receive(number) => receive(alloc, here, sent, *number),
        Act::Tick => tick_step(alloc, here),
        Act::LearnWorkerDied(worker) => notice_step(alloc, here, *worker),
        Act::LearnNodeDied(node) => notice_node_step(alloc, here, *node),
    }
}

/// The worker does its step, where these messages were sent so far, and then releases what no one can reach any more. A message is read where it stands.
/// Where it finds no memory, nothing is left of the worker and its node.
#[inline(always)]
pub fn take_part(
    alloc: Global,
    here: &mut WorkerContext,
    sent: &Seq<Envelope>,
    act: &mut Act,
) -> Result<(), AllocError>
    ensures done { OnOk result (here.new ≡ release_step (act_step sent.now act.old here.old)) }
    ensures err { OnErr result (here.new ≡ nothing_here) }
    ensures asked { OnErr result (AsksFor sent.now act.old here.old) }
{
    step(alloc, here, sent, act)?;
    release_all(alloc, here)
}
