// Workers and nodes as they begin, and a context with nothing in it.

ghost use Rattle.std.specs.Prelude.{◌≡◌, [], IfOk};
ghost use Rattle.protocol.specs.Nodes.{new_node, no_out};
ghost use Rattle.protocol.specs.Tables.{new_worker};
ghost use Rattle.contexts.specs.Emptied.{nothing_here};

use boxed_value::Boxed;
use ids::{NodeId, WorkerId};
use protocol_data::{
    Asks, Attempts, Copies, IdleWorkers, Leases, Node, NodeContext, Objects, Outbox, Queue,
    Scheduler, Secondaries, Store, Worker, WorkerContext,
};
use sequence::Seq;
use std::alloc::{AllocError, Global};

/// Nothing was made yet.
pub fn no_out(alloc: Global) -> Outbox
    ensures { result ≡ no_out }
{
    Outbox {
        entries: Seq::new(alloc),
        envelopes: Seq::new(alloc),
    }
}

/// A live node with so many slots, no copies, and nobody who has or wants a slot.
pub fn new_node(alloc: Global, slots: u32) -> Node
    ensures { result ≡ new_node slots }
{
    Node {
        is_live: true,
        store: Store {
            primaries: Copies::new(alloc),
            secondaries: Secondaries::new(),
        },
        scheduler: Scheduler {
            slots,
            slot_holders: Seq::new(alloc),
            answered: Seq::new(alloc),
            queue: Queue::new(alloc),
            asks: Asks::new(alloc),
            idle: IdleWorkers::new(alloc),
            leases: Leases::new(alloc),
        },
    }
}

/// A live worker on the node that owns nothing, has begun no attempt and was told of no death.
pub fn new_worker(alloc: Global, node: NodeId) -> Worker
    ensures { result ≡ new_worker node }
{
    Worker {
        node,
        is_live: true,
        objects: Objects::new(alloc),
        run: None,
        began: Attempts::new(alloc),
        passed_on: Seq::new(alloc),
        dead_workers: Seq::new(alloc),
        dead_nodes: Seq::new(alloc),
    }
}

/// How many messages the context has room for from its start. A list that grows is copied, up to the size from which on the C library moves its pages
/// instead, of which it has none before they are written. This one is that large.
const MESSAGES: usize = 2048;

/// A context with nothing in it, in which workers and their nodes come into events.
pub fn blank_context(alloc: Global) -> Result<WorkerContext, AllocError>
    ensures { IfOk result (λ here. here ≡ nothing_here) }
{
    let mut out = no_out(alloc);
    out.envelopes.items.reserve(MESSAGES)?;
    Ok(WorkerContext {
        me: WorkerId(0),
        worker: Boxed::new(alloc, new_worker(alloc, NodeId(0)))?,
        there: NodeContext {
            number: NodeId(0),
            nodes: 0,
            workers: 0,
            opened: 0,
            node: Boxed::new(alloc, new_node(alloc, 0))?,
            out,
        },
    })
}
