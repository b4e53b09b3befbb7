// What may happen to a worker's own objects.

ghost use Rattle.std.specs.Prelude.{◌≡◌, OnErr, OnOk, false, true};
ghost use Rattle.worker_steps.specs.of_contexts.Emptied.{nothing_here};
ghost use Rattle.protocol.specs.Asking.{given_reached};
ghost use Rattle.protocol.specs.Commits.{bears_all};
ghost use Rattle.protocol.specs.Ends.{failed_reached, finished_reached};
ghost use Rattle.protocol.specs.Notices.{notice_node_step, notice_step};
ghost use Rattle.protocol.specs.Locations.{adds_locations, missing_reached, where_reached};
ghost use Rattle.protocol.specs.Releases.{release_step};
ghost use Rattle.protocol.specs.Sets.{has, is_empty};
ghost use Rattle.protocol.specs.Steps.{object_at};
ghost use Rattle.protocol.specs.Tables.{knows_dead, task_of};
ghost use Rattle.worker_steps.specs.Concerned.{is_asked_by, is_missed, may_locate};
ghost use Rattle.worker_steps.specs.Looking.{SomeGoes};
ghost use Rattle.commit_steps.specs.of_owner_steps.Asked.{has_ask};

use commit_steps::bear_all;
use commit_steps::owner_steps::{
    failed_reached, finished_reached, given_reached, missing_reached, where_reached,
};
use held::SharedBirth;
use ids::{AttemptId, NodeId, ObjectId, WorkerId};
use protocol_data::{EndedResult, Endpoint, SmallList, WorkerContext};
use sequence::Seq;
use std::alloc::{AllocError, Global};
use values::Fault;
use worker_acts::{notice_node_step, notice_step};
use worker_steps::{add_locations_of, release_all};

/// A worker's own objects in an event: what is told of them, and what is done then. An error is want of memory; then nothing is left of
/// the worker and its node, since the step may have been half done. Where what is told is about nothing in the table, the step does nothing, asks
/// for no memory, and answers no error; that an attempt has ended is answered in any case.
pub trait OwnerTable {
    /// The attempt bears what these births make: each object enters the table and holds the ids in its birth; a put value is stored, and of
    /// a task, which may make several objects, the first attempt is asked for.
    fn born(
        &mut self,
        alloc: Global,
        bearer: AttemptId,
        births: &Seq<SharedBirth>,
    ) -> Result<(), AllocError>;

    /// The node has given the worker to ask `t` of the attempt: where that ask stands the attempt begins.
    fn begun(
        &mut self,
        alloc: Global,
        node: NodeId,
        attempt: AttemptId,
        t: u32,
        worker: WorkerId,
    ) -> Result<(), AllocError>;

    /// The attempt has ended at the node, with this for each result of its task: it is accepted if it is the present one.
    fn accepted(
        &mut self,
        alloc: Global,
        worker: WorkerId,
        attempt: AttemptId,
        node: NodeId,
        results: &SmallList<EndedResult>,
    ) -> Result<(), AllocError>;

    /// The attempt has ended by a fault: if it is the present one, the objects of its task are resolved to that fault, but those that have one.
    fn failed(
        &mut self,
        alloc: Global,
        worker: WorkerId,
        attempt: AttemptId,
        why: Fault,
    ) -> Result<(), AllocError>;

    /// Copies of the object's content of that number are at these nodes.
    fn located(
        &mut self,
        alloc: Global,
        object: ObjectId,
        number: u32,
        nodes: &Seq<NodeId>,
    ) -> Result<(), AllocError>;

    /// There is no copy of the content of that number at the node: that place is taken out, and a lost object is made again for who asks.
    fn missing(
        &mut self,
        alloc: Global,
        sender: &Endpoint,
        object: ObjectId,
        number: u32,
        node: NodeId,
    ) -> Result<(), AllocError>;

    /// The node is dead: its attempts are broken, and its places are lost.
    fn node_dead(&mut self, alloc: Global, node: NodeId) -> Result<(), AllocError>;

    /// The worker is dead: its attempts are broken, its holds end, and what only the dead held is collected.
    fn worker_dead(&mut self, alloc: Global, worker: WorkerId) -> Result<(), AllocError>;

    /// The worker asks where the object is: it is told the places, the content or the fault, or it waits.
    fn answer_where(
        &mut self,
        alloc: Global,
        worker: WorkerId,
        object: ObjectId,
    ) -> Result<(), AllocError>;

    /// What nobody can reach any more is released.
    fn release(&mut self, alloc: Global) -> Result<(), AllocError>;
}

impl OwnerTable for WorkerContext {
    fn born(
        &mut self,
        alloc: Global,
        bearer: AttemptId,
        births: &Seq<SharedBirth>,
    ) -> Result<(), AllocError>
        ensures done { OnOk result (self.new ≡ bears_all self.old bearer births.now) }
        ensures err { OnErr result (self.new ≡ nothing_here) }
        ensures asked { OnErr result (is_empty births.now ≡ false) }
    {
        bear_all(alloc, self, bearer, births)
    }

    fn begun(
        &mut self,
        alloc: Global,
        node: NodeId,
        attempt: AttemptId,
        t: u32,
        worker: WorkerId,
    ) -> Result<(), AllocError>
        ensures done { OnOk result (self.new ≡ given_reached self.old node attempt t worker) }
        ensures err { OnErr result (self.new ≡ nothing_here) }
        ensures asked { OnErr result (has_ask t attempt (task_of (object_at self.old attempt.object)) ≡ true) }
    {
        given_reached(alloc, self, node, attempt, t, worker)
    }

    fn accepted(
        &mut self,
        alloc: Global,
        worker: WorkerId,
        attempt: AttemptId,
        node: NodeId,
        results: &SmallList<EndedResult>,
    ) -> Result<(), AllocError>
        ensures done { OnOk result (self.new ≡ finished_reached self.old worker attempt node results.now) }
        ensures err { OnErr result (self.new ≡ nothing_here) }
    {
        finished_reached(alloc, self, worker, attempt, node, results)
    }

    fn failed(
        &mut self,
        alloc: Global,
        worker: WorkerId,
        attempt: AttemptId,
        why: Fault,
    ) -> Result<(), AllocError>
        ensures done { OnOk result (self.new ≡ failed_reached self.old worker attempt why) }
        ensures err { OnErr result (self.new ≡ nothing_here) }
    {
        failed_reached(alloc, self, worker, attempt, why)
    }

    fn located(
        &mut self,
        alloc: Global,
        object: ObjectId,
        number: u32,
        nodes: &Seq<NodeId>,
    ) -> Result<(), AllocError>
        ensures done { OnOk result (self.new ≡ adds_locations self.old object number nodes.now) }
        ensures err { OnErr result (self.new ≡ nothing_here) }
        ensures asked { OnErr result (may_locate self.old object number ≡ true) }
    {
        add_locations_of(self, object, number, nodes)
    }

    fn missing(
        &mut self,
        alloc: Global,
        sender: &Endpoint,
        object: ObjectId,
        number: u32,
        node: NodeId,
    ) -> Result<(), AllocError>
        ensures done { OnOk result (self.new ≡ missing_reached self.old sender.now object number node) }
        ensures err { OnErr result (self.new ≡ nothing_here) }
        ensures asked { OnErr result (is_missed self.old sender.now object ≡ true) }
    {
        missing_reached(alloc, self, sender, object, number, node)
    }

    fn node_dead(&mut self, alloc: Global, node: NodeId) -> Result<(), AllocError>
        ensures done { OnOk result (self.new ≡ notice_node_step self.old node) }
        ensures err { OnErr result (self.new ≡ nothing_here) }
        ensures asked { OnErr result (has self.old.worker.dead_nodes node ≡ false) }
    {
        notice_node_step(alloc, self, node)
    }

    fn worker_dead(&mut self, alloc: Global, worker: WorkerId) -> Result<(), AllocError>
        ensures done { OnOk result (self.new ≡ notice_step self.old worker) }
        ensures err { OnErr result (self.new ≡ nothing_here) }
        ensures asked { OnErr result (knows_dead self.old.worker worker ≡ false) }
    {
        notice_step(alloc, self, worker)
    }

    fn answer_where(
        &mut self,
        alloc: Global,
        worker: WorkerId,
        object: ObjectId,
    ) -> Result<(), AllocError>
        ensures done { OnOk result (self.new ≡ where_reached self.old worker object) }
        ensures err { OnErr result (self.new ≡ nothing_here) }
        ensures asked { OnErr result (is_asked_by self.old worker object ≡ true) }
    {
        where_reached(alloc, self, worker, object)
    }

    fn release(&mut self, alloc: Global) -> Result<(), AllocError>
        ensures done { OnOk result (self.new ≡ release_step self.old) }
        ensures err { OnErr result (self.new ≡ nothing_here) }
        ensures asked { OnErr result (SomeGoes self.old.worker) }
    {
        release_all(alloc, self)
    }
}
