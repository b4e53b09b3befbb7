// What a node's scheduler promises its callers.

ghost use Rattle.std.specs.Prelude.{◌≡◌, OnErr, OnOk, Some, None};
ghost use Rattle.number_lists.specs.of_protocol.Nodes.{AskReply};
ghost use Rattle.number_lists.specs.of_protocol.Slots.{asked, asks_slot, forgets, frees, is_back, replies, reply_to};
ghost use Rattle.lease.specs.Promises.{ComesIdle, ComesToAsk, IsWithinSlots, PassesOn};

use crate::asks::asked;
use crate::grants::{ask_slot, forget, free, note_back};
use ids::{AttemptId, WorkerId};
use protocol_data::{AskKey, NodeContext};
use std::alloc::{AllocError, Global};

/// An ask for a worker. With a free slot it gets the idle worker of least number, or a new one; without one it is sent on to the next node,
/// and after as many asks as there are nodes it waits. A repeated ask gets the answer that stands.
#[tactic(auto, using(crate::proofs::Within::asked_within))]
pub fn ask(alloc: Global, there: &mut NodeContext, key: &AskKey) -> Result<(), AllocError>
    ensures step { OnOk result (there.new ≡ asked there.old key.now) }
    ensures err { OnErr result (there.new ≡ there.old) }
    ensures again { (x : AskReply) → reply_to there.old.node.scheduler key.now ≡ Some x → OnOk result (there.new ≡ replies there.old key.now x) }
    ensures slots { IsWithinSlots there.old → OnOk result (IsWithinSlots there.new) }
{
    let _ = alloc;
    asked(there, key)?;
    Ok(())
}

/// The worker has run its attempt: it may be given again, if this was its latest lease and that is over.
#[tactic(auto, using(crate::proofs::Within::back_within))]
pub fn back(there: &mut NodeContext, worker: WorkerId, attempt: AttemptId) -> Result<(), AllocError>
    ensures step { OnOk result (there.new ≡ is_back there.old worker attempt) }
    ensures err { OnErr result (there.new ≡ there.old) }
    ensures grows { OnErr result (ComesIdle there.old worker attempt) }
    ensures slots { IsWithinSlots there.old → OnOk result (IsWithinSlots there.new) }
{
    note_back(there, worker, attempt)?;
    Ok(())
}

/// The worker's attempt waits or has stopped: its slot, if it has one, goes to whom one is due next.
pub fn blocked(alloc: Global, there: &mut NodeContext, worker: WorkerId) -> Result<(), AllocError>
    ensures step { OnOk result (there.new ≡ frees there.old worker) }
    ensures err { OnErr result (there.new ≡ there.old) }
    ensures grows { OnErr result (PassesOn there.old worker) }
    ensures slots { IsWithinSlots there.old → OnOk result (IsWithinSlots there.new) }
{
    free(alloc, there, worker)?;
    Ok(())
}

/// The worker's attempt was answered: it gets a slot, before any ask, as soon as one is free.
#[tactic(auto, using(crate::proofs::Within::slot_within))]
pub fn unblocked(alloc: Global, there: &mut NodeContext, worker: WorkerId) -> Result<(), AllocError>
    ensures step { OnOk result (there.new ≡ asks_slot there.old worker) }
    ensures err { OnErr result (there.new ≡ there.old) }
    ensures grows { OnErr result (ComesToAsk there.old worker) }
    ensures slots { IsWithinSlots there.old → OnOk result (IsWithinSlots there.new) }
{
    let _ = alloc;
    ask_slot(there, worker)?;
    Ok(())
}

/// The worker is dead: its slot is free, and it is never given again.
pub fn killed(alloc: Global, there: &mut NodeContext, worker: WorkerId) -> Result<(), AllocError>
    ensures step { OnOk result (there.new ≡ forgets there.old worker) }
    ensures err { OnErr result (there.new ≡ there.old) }
    ensures grows { OnErr result (PassesOn there.old worker) }
    ensures slots { IsWithinSlots there.old → OnOk result (IsWithinSlots there.new) }
{
    forget(alloc, there, worker)?;
    Ok(())
}
