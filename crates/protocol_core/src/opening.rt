// The whole as a run begins.

ghost use Rattle.std.specs.Prelude.{◌≡◌, ◌<◌, ◌∷◌, [], IfOk, OnOk, length};
ghost use Rattle.meaning.specs.Values.{main_birth};
ghost use Rattle.protocol.specs.Cluster.{driver, first_whole, main_run, with_driver};
ghost use Rattle.protocol_core.specs.Opening.{new_nodes};

use boxed_value::Boxed;
use cluster_steps::new_node;
use held::{Answers, Births, Prints, SharedBirth};
use ids::{NodeId, ObjectId, WorkerId};
use protocol_data::{
    Attempts, ClusterState, Execution, Node, Objects, Phase, SmallList, Worker, Workers,
};
use sequence::Seq;
use std::alloc::{AllocError, Global};
use std::sync::Arc;
use task_spec::Birth;
use worker_steps::main_attempt;

/// How many messages a run has room for from its start: as many as make a list that isn't copied where it grows, as the log's entries do.
const MESSAGES: usize = 2048;

/// How many jobs a run has room for from its start, for the same reason.
const JOBS: usize = 2048;

/// How many objects main's worker has room for from its start, for the same reason.
const OBJECTS: usize = 1024;

/// So many nodes with so many slots each.
fn first_nodes(alloc: Global, nodes: u8, slots: u32) -> Result<Seq<Boxed<Node>>, AllocError>
    ensures { IfOk result (λ all. all ≡ new_nodes nodes slots) }
{
    let mut all = Seq::new(alloc);
    for turn in 0..nodes {
        let _ = turn;
        all.push(Boxed::new(alloc, new_node(alloc, slots))?)?;
    }
    Ok(all)
}

/// The first of these nodes has given the driver a slot.
fn give_driver_a_slot(alloc: Global, nodes: &mut Seq<Boxed<Node>>) -> Result<(), AllocError>
    requires { 0 < length nodes.old }
    ensures { OnOk result (nodes.new ≡ with_driver nodes.old) }
{
    let mut slot_holders = Seq::new(alloc);
    slot_holders.push(WorkerId(1))?;
    let node = &mut nodes.items[0];
    node.scheduler.slot_holders = slot_holders;
    Ok(())
}

/// Main as a task: with no arguments, at depth 0, and run once.
fn main_task(alloc: Global) -> Result<SharedBirth, AllocError>
    ensures { IfOk result (λ spec. spec ≡ main_birth) }
{
    let function = Arc::new(alloc, String::from_str(alloc, "main")?)?;
    let birth = Birth::Task {
        function,
        arguments: SmallList::new(alloc),
        depth: 0,
        retries: 0,
        others: 0,
    };
    SharedBirth::new(alloc, birth)
}

/// Main's attempt as it begins.
fn main_run(alloc: Global) -> Result<Execution, AllocError>
    ensures { IfOk result (λ run. run ≡ main_run) }
{
    let spec = main_task(alloc)?;
    let answers = Answers::new();
    let owner = WorkerId(1);
    Ok(Execution {
        attempt: main_attempt(),
        spec,
        base: ObjectId { owner, serial: 1 },
        births: Births::new(),
        prints: Prints::new(),
        answers,
        phase: Phase::Ready,
        holds: SmallList::new(alloc),
        is_over: false,
        is_acknowledged: false,
    })
}

/// The worker on node 1 that runs main.
fn driver(alloc: Global) -> Result<Worker, AllocError>
    ensures { IfOk result (λ worker. worker ≡ driver) }
{
    let mut began = Attempts::new(alloc);
    began.push(main_attempt())?;
    let run = main_run(alloc)?;
    let mut objects = Objects::new(alloc);
    objects.reserve(OBJECTS)?;
    Ok(Worker {
        node: NodeId(1),
        is_live: true,
        objects,
        run: Some(run),
        began,
        passed_on: Seq::new(alloc),
        dead_workers: Seq::new(alloc),
        dead_nodes: Seq::new(alloc),
    })
}

/// So many nodes with so many slots each, as a run begins.
pub fn first_whole(alloc: Global, nodes: u8, slots: u8) -> Result<ClusterState, AllocError>
    requires { 0 < nodes }
    ensures { IfOk result (λ whole. whole ≡ first_whole nodes slots) }
{
    let slots = u32::from(slots);
    let mut all = first_nodes(alloc, nodes, slots)?;
    give_driver_a_slot(alloc, &mut all)?;
    let mut workers = Workers::new(alloc);
    workers.push(Boxed::new(alloc, driver(alloc)?)?)?;
    let mut network = Seq::new(alloc);
    network.items.reserve(MESSAGES)?;
    let mut delivered = Seq::new(alloc);
    delivered.items.reserve(MESSAGES)?;
    let mut jobs = Seq::new(alloc);
    jobs.items.reserve(JOBS)?;
    Ok(ClusterState {
        slots,
        nodes: all,
        workers,
        made: 1,
        network,
        delivered,
        jobs,
    })
}
