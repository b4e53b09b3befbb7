// One event, where nothing refuses it beforehand.

ghost use Rattle.std.specs.Prelude.{◌≡◌, IfOk, OnErr, OnOk};
ghost use Rattle.worker_steps.specs.of_contexts.Emptied.{nothing_here, nothing_left};
ghost use Rattle.step_laws.specs.Limits.{entries_limited, whole_limited};
ghost use Rattle.cluster_events.specs.Told.{if_taken};
ghost use Rattle.protocol.specs.Cluster.{worker_does};
ghost use Rattle.protocol.specs.Events.{happens};
ghost use Rattle.protocol.specs.Notices.{notice_node_step, notice_step};
ghost use Rattle.protocol.specs.Ticks.{tick_step};

use crate::deaths::{join, kill, kill_node};
use crate::deliveries::deliver;
use crate::jobs::{claim, commit};
use crate::stores::{Loss, lose_at};
use crate::within_limits::let_worker_act;
use cluster_steps::or_nothing_left;
use ids::{NodeId, WorkerId};
use log_entries::Event;
use protocol_data::{ClusterState, CommitInput, WorkerContext};
use std::alloc::{AllocError, Global};
use worker_acts::Act;

// Each of these is a function of its own, so that an event doesn't set up what others need.

/// The worker sends again what it waits for.
#[inline(never)]
fn tick(
    alloc: Global,
    whole: &mut ClusterState,
    here: &mut WorkerContext,
    worker: WorkerId,
) -> Result<bool, AllocError>
    ensures whole { OnOk result (whole.new ≡ whole_limited whole.old (worker_does whole.old worker tick_step)) }
    ensures entries { IfOk result (λ taken. if_taken taken here.new.there.out.entries ≡ entries_limited (worker_does whole.old worker tick_step)) }
{
    let_worker_act(alloc, whole, here, worker, &mut Act::Tick)
}

/// The worker is told that the other is dead.
#[inline(never)]
fn notice(
    alloc: Global,
    whole: &mut ClusterState,
    here: &mut WorkerContext,
    worker: WorkerId,
    dead: WorkerId,
) -> Result<bool, AllocError>
    ensures whole { OnOk result (whole.new ≡ whole_limited whole.old (worker_does whole.old worker (λ h. notice_step h dead))) }
    ensures entries { IfOk result (λ taken. if_taken taken here.new.there.out.entries
        ≡ entries_limited (worker_does whole.old worker (λ h. notice_step h dead))) }
{
    let_worker_act(alloc, whole, here, worker, &mut Act::LearnWorkerDied(dead))
}

/// The worker is told that the node is dead.
#[inline(never)]
fn notice_node(
    alloc: Global,
    whole: &mut ClusterState,
    here: &mut WorkerContext,
    worker: WorkerId,
    dead: NodeId,
) -> Result<bool, AllocError>
    ensures whole { OnOk result (whole.new ≡ whole_limited whole.old (worker_does whole.old worker (λ h. notice_node_step h dead))) }
    ensures entries { IfOk result (λ taken. if_taken taken here.new.there.out.entries
        ≡ entries_limited (worker_does whole.old worker (λ h. notice_node_step h dead))) }
{
    let_worker_act(alloc, whole, here, worker, &mut Act::LearnNodeDied(dead))
}

/// What the event makes of the whole, with what is handed in: it is told whether it is taken.
#[inline(always)]
fn try_event(
    alloc: Global,
    whole: &mut ClusterState,
    here: &mut WorkerContext,
    event: &Event,
    handed: &mut CommitInput,
) -> Result<bool, AllocError>
    ensures whole { OnOk result (whole.new ≡ whole_limited whole.old (happens whole.old event.now handed.old)) }
    ensures entries { IfOk result (λ taken. if_taken taken here.new.there.out.entries ≡ entries_limited (happens whole.old event.now handed.old)) }
{
    match event {
        Event::Claim(worker) => claim(alloc, whole, here, *worker),
        Event::Commit(job) => commit(alloc, whole, here, *job, handed),
        Event::Deliver(message) => deliver(alloc, whole, here, *message),
        Event::Tick(worker) => tick(alloc, whole, here, *worker),
        Event::Notice { worker, dead } => notice(alloc, whole, here, *worker, *dead),
        Event::NoticeNode { worker, dead } => notice_node(alloc, whole, here, *worker, *dead),
        Event::Evict { node, object } => {
            Ok(lose_at(whole, &mut here.there, *node, *object, Loss::Evicted))
        },
        Event::Lose { node, object } => Ok(lose_at(
            whole,
            &mut here.there,
            *node,
            *object,
            Loss::Lost,
        )),
        Event::Kill(worker) => kill(alloc, whole, &mut here.there, *worker),
        Event::KillNode(node) => kill_node(alloc, whole, &mut here.there, *node),
        Event::Join => join(alloc, whole, &mut here.there),
    }
}

/// What the event makes of the whole, with what is handed in: it is told whether it is taken. The entries that it adds behind its own are left in the
/// context then; where a limit would be passed it isn't taken, and nothing is changed. Where it finds no memory, nothing is left of the run, nor of the
/// context.
pub fn happen(
    alloc: Global,
    whole: &mut ClusterState,
    here: &mut WorkerContext,
    event: &Event,
    handed: &mut CommitInput,
) -> Result<bool, AllocError>
    ensures whole { OnOk result (whole.new ≡ whole_limited whole.old (happens whole.old event.now handed.old)) }
    ensures entries { IfOk result (λ taken. if_taken taken here.new.there.out.entries ≡ entries_limited (happens whole.old event.now handed.old)) }
    ensures err { OnErr result ((whole.new ≡ nothing_left) × (here.new ≡ nothing_here)) }
{
    let came = try_event(alloc, whole, here, event, handed);
    or_nothing_left(came, whole, here)
}
