// Events of workers, which are refused where they would pass a limit.

ghost use Rattle.std.specs.Prelude.{◌≡◌, IfOk, OnOk};
ghost use Rattle.step_laws.specs.Limits.{entries_limited, entries_within, whole_limited, whole_within};
ghost use Rattle.protocol.specs.Cluster.{worker_does};
ghost use Rattle.worker_acts.specs.Acts.{act_step};
ghost use Rattle.cluster_events.specs.Told.{if_taken};

use crate::acting::{act, act_or_restore};
use crate::counting::fits;
use ids::WorkerId;
use protocol_data::{ClusterState, WorkerContext};
use std::alloc::{AllocError, Global};
use worker_acts::Act;

/// The worker of that number does its part in an event, after which there are so many objects, and the entries that this adds are left in the context;
/// or it is told that a limit would be passed, and nothing is changed. An event opens one worker at most: with room for that one, nothing need be kept.
pub fn let_act(
    alloc: Global,
    whole: &mut ClusterState,
    here: &mut WorkerContext,
    number: WorkerId,
    what: &mut Act,
    made: u64,
) -> Result<bool, AllocError>
    ensures whole { OnOk result (whole.new ≡ whole_within made whole.old (worker_does whole.old number (act_step whole.old.network what.old))) }
    ensures entries { IfOk result (λ taken. if_taken taken here.new.there.out.entries
        ≡ entries_within made (worker_does whole.old number (act_step whole.old.network what.old))) }
{
    if !fits(whole, 0, made) {
        return Ok(false);
    }
    if whole.workers.len() < 1024 {
        act(alloc, whole, here, number, what)?;
        return Ok(true);
    }
    act_or_restore(alloc, whole, here, number, what, made)
}

/// The worker of that number does its part in an event that bears nothing.
#[inline(never)]
pub fn let_worker_act(
    alloc: Global,
    whole: &mut ClusterState,
    here: &mut WorkerContext,
    number: WorkerId,
    what: &mut Act,
) -> Result<bool, AllocError>
    ensures whole { OnOk result (whole.new ≡ whole_limited whole.old (worker_does whole.old number (act_step whole.old.network what.old))) }
    ensures entries { IfOk result (λ taken. if_taken taken here.new.there.out.entries
        ≡ entries_limited (worker_does whole.old number (act_step whole.old.network what.old))) }
{
    let made = whole.made;
    let_act(alloc, whole, here, number, what, made)
}
