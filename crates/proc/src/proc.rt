// The steps of a worker as a trait, with the pure step that each equals.

ghost use Rattle.std.specs.Prelude.{◌≡◌, OnErr, OnOk, false, is_some, true};
ghost use Rattle.worker_acts.specs.of_contexts.Emptied.{nothing_here};
ghost use Rattle.protocol.specs.Commits.{claim_step, commit_step};
ghost use Rattle.protocol.specs.Deliveries.{reached};
ghost use Rattle.protocol.specs.Notices.{notice_node_step, notice_step};
ghost use Rattle.protocol.specs.Releases.{release_step};
ghost use Rattle.protocol.specs.Sets.{has};
ghost use Rattle.protocol.specs.Tables.{knows_dead};
ghost use Rattle.protocol.specs.Ticks.{tick_step};
ghost use Rattle.worker_acts.specs.Acts.{act_step};
ghost use Rattle.worker_acts.specs.Concerned.{AsksFor, concerns, has_to_send};

use commit_steps::{claim_step, commit_step};
use ids::{NodeId, WorkerId};
use protocol_data::{Endpoint, Envelope, Message, Outcomes, WorkerContext};
use sequence::Seq;
use std::alloc::{AllocError, Global};
use worker_acts::{Act, notice_node_step, notice_step, reached, take_part, tick_step};

/// A worker's step in an event, before what nobody can reach any more is released. An error is want of memory; then nothing is left of the
/// worker and its node, since the step may have been half done. A step that is about nothing that the worker has does nothing,
/// asks for no memory, and answers no error.
pub trait Proc {
    /// A message of that sender reaches the worker; what no rule names is passed over.
    fn deliver(
        &mut self,
        alloc: Global,
        sender: &Endpoint,
        message: &Message,
    ) -> Result<(), AllocError>;

    /// It sends again what it waits for.
    fn tick(&mut self, alloc: Global) -> Result<(), AllocError>;

    /// It is told that the other worker is dead.
    fn notice(&mut self, alloc: Global, worker: WorkerId) -> Result<(), AllocError>;

    /// It is told that the node is dead.
    fn notice_node(&mut self, alloc: Global, node: NodeId) -> Result<(), AllocError>;

    /// Its attempt is given out as the job of that number. It takes no memory.
    fn claim(&mut self, job: u64);

    /// What was done on its attempt's job is committed.
    fn commit(&mut self, alloc: Global, outcomes: &mut Outcomes) -> Result<(), AllocError>;

    /// Any of these, where these messages were sent so far, and then what nobody can reach any more is released.
    fn act(&mut self, alloc: Global, sent: &Seq<Envelope>, act: &mut Act) -> Result<(), AllocError>;
}

impl Proc for WorkerContext {
    fn deliver(
        &mut self,
        alloc: Global,
        sender: &Endpoint,
        message: &Message,
    ) -> Result<(), AllocError>
        ensures done { OnOk result (self.new ≡ reached self.old sender.now message.now) }
        ensures err { OnErr result (self.new ≡ nothing_here) }
        ensures asked { OnErr result (concerns self.old sender.now message.now ≡ true) }
    {
        reached(alloc, self, sender, message)
    }

    fn tick(&mut self, alloc: Global) -> Result<(), AllocError>
        ensures done { OnOk result (self.new ≡ tick_step self.old) }
        ensures err { OnErr result (self.new ≡ nothing_here) }
        ensures asked { OnErr result (has_to_send self.old ≡ true) }
    {
        tick_step(alloc, self)
    }

    fn notice(&mut self, alloc: Global, worker: WorkerId) -> Result<(), AllocError>
        ensures done { OnOk result (self.new ≡ notice_step self.old worker) }
        ensures err { OnErr result (self.new ≡ nothing_here) }
        ensures asked { OnErr result (knows_dead self.old.worker worker ≡ false) }
    {
        notice_step(alloc, self, worker)
    }

    fn notice_node(&mut self, alloc: Global, node: NodeId) -> Result<(), AllocError>
        ensures done { OnOk result (self.new ≡ notice_node_step self.old node) }
        ensures err { OnErr result (self.new ≡ nothing_here) }
        ensures asked { OnErr result (has self.old.worker.dead_nodes node ≡ false) }
    {
        notice_node_step(alloc, self, node)
    }

    fn claim(&mut self, job: u64)
        ensures { self.new ≡ claim_step self.old job }
    {
        claim_step(self, job);
    }

    fn commit(&mut self, alloc: Global, outcomes: &mut Outcomes) -> Result<(), AllocError>
        ensures done { OnOk result (self.new ≡ commit_step self.old outcomes.old) }
        ensures err { OnErr result (self.new ≡ nothing_here) }
        ensures asked { OnErr result (is_some self.old.worker.run ≡ true) }
    {
        commit_step(alloc, self, outcomes)
    }

    fn act(&mut self, alloc: Global, sent: &Seq<Envelope>, act: &mut Act) -> Result<(), AllocError>
        ensures done { OnOk result (self.new ≡ release_step (act_step sent.now act.old self.old)) }
        ensures err { OnErr result (self.new ≡ nothing_here) }
        ensures asked { OnErr result (AsksFor sent.now act.old self.old) }
    {
        take_part(alloc, self, sent, act)
    }
}
