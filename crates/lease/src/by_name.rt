// A node's scheduler as a type's own calls.

ghost use Rattle.std.specs.Prelude.{◌≡◌, OnErr, OnOk, Some};
ghost use Rattle.number_lists.specs.of_protocol.Nodes.{AskReply};
ghost use Rattle.number_lists.specs.of_protocol.Slots.{asked, asks_slot, forgets, frees, is_back, replies, reply_to};
ghost use Rattle.lease.specs.Promises.{ComesIdle, ComesToAsk, IsWithinSlots, PassesOn};

use crate::scheduler::{ask, back, blocked, killed, unblocked};
use ids::{AttemptId, WorkerId};
use protocol_data::{AskKey, NodeContext};
use std::alloc::{AllocError, Global};

/// What gives workers and slots to attempts at a node, in an event. On an error nothing is changed: it is want of memory, or a new worker would have
/// a number past 2^32 - 1, where no run comes.
pub trait Scheduling {
    /// An ask for a worker. With a free slot it gets the idle worker of least number, or a new one; without one it is sent on to the next node,
    /// and after as many asks as there are nodes it waits. A repeated ask gets the answer that stands.
    fn ask(&mut self, alloc: Global, key: &AskKey) -> Result<(), AllocError>;

    /// The worker has run its attempt: it may be given again, if this was its latest lease and that is over.
    fn back(&mut self, worker: WorkerId, attempt: AttemptId) -> Result<(), AllocError>;

    /// The worker's attempt waits or has stopped: its slot, if it has one, goes to whom one is due next.
    fn blocked(&mut self, alloc: Global, worker: WorkerId) -> Result<(), AllocError>;

    /// The worker's attempt was answered: it gets a slot, before any ask, as soon as one is free.
    fn unblocked(&mut self, alloc: Global, worker: WorkerId) -> Result<(), AllocError>;

    /// The worker is dead: its slot is free, and it is never given again.
    fn killed(&mut self, alloc: Global, worker: WorkerId) -> Result<(), AllocError>;
}

impl Scheduling for NodeContext {
    fn ask(&mut self, alloc: Global, key: &AskKey) -> Result<(), AllocError>
        ensures step { OnOk result (self.new ≡ asked self.old key.now) }
        ensures err { OnErr result (self.new ≡ self.old) }
        ensures again { (x : AskReply) → reply_to self.old.node.scheduler key.now ≡ Some x → OnOk result (self.new ≡ replies self.old key.now x) }
        ensures slots { IsWithinSlots self.old → OnOk result (IsWithinSlots self.new) }
    {
        ask(alloc, self, key)
    }

    fn back(&mut self, worker: WorkerId, attempt: AttemptId) -> Result<(), AllocError>
        ensures step { OnOk result (self.new ≡ is_back self.old worker attempt) }
        ensures err { OnErr result (self.new ≡ self.old) }
        ensures grows { OnErr result (ComesIdle self.old worker attempt) }
        ensures slots { IsWithinSlots self.old → OnOk result (IsWithinSlots self.new) }
    {
        back(self, worker, attempt)
    }

    fn blocked(&mut self, alloc: Global, worker: WorkerId) -> Result<(), AllocError>
        ensures step { OnOk result (self.new ≡ frees self.old worker) }
        ensures err { OnErr result (self.new ≡ self.old) }
        ensures grows { OnErr result (PassesOn self.old worker) }
        ensures slots { IsWithinSlots self.old → OnOk result (IsWithinSlots self.new) }
    {
        blocked(alloc, self, worker)
    }

    fn unblocked(&mut self, alloc: Global, worker: WorkerId) -> Result<(), AllocError>
        ensures step { OnOk result (self.new ≡ asks_slot self.old worker) }
        ensures err { OnErr result (self.new ≡ self.old) }
        ensures grows { OnErr result (ComesToAsk self.old worker) }
        ensures slots { IsWithinSlots self.old → OnOk result (IsWithinSlots self.new) }
    {
        unblocked(alloc, self, worker)
    }

    fn killed(&mut self, alloc: Global, worker: WorkerId) -> Result<(), AllocError>
        ensures step { OnOk result (self.new ≡ forgets self.old worker) }
        ensures err { OnErr result (self.new ≡ self.old) }
        ensures grows { OnErr result (PassesOn self.old worker) }
        ensures slots { IsWithinSlots self.old → OnOk result (IsWithinSlots self.new) }
    {
        killed(alloc, self, worker)
    }
}
