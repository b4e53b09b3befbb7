// What a worker logs and says.

ghost use Rattle.std.specs.Prelude.{◌≡◌, OnErr, OnOk, ◌==◌};
ghost use Rattle.contexts.specs.Emptied.{nothing_here};
ghost use Rattle.event_log.specs.Entries.{main_attempt};
ghost use Rattle.contexts.specs.of_protocol.Tables.{has_stopped, knows_dead};
ghost use Rattle.contexts.specs.of_protocol.Steps.{is_own, logs, says, says_to_node};
ghost use Rattle.contexts.specs.of_protocol.Runs.{asks_for_slot, gives_slot_back};

use contexts::or_nothing;
use contexts::protocol_data::{Endpoint, Envelope, Message, Phase, Worker, WorkerContext};
use ids::{AttemptId, NodeId, ObjectId, WorkerId};
use lease::{blocked, log_there, post, unblocked};
use log_entries::Entry;
use number_lists::has_worker;
use std::alloc::{AllocError, Global};

/// One more entry.
#[inline(always)]
pub fn log(here: &mut WorkerContext, entry: Entry) -> Result<(), AllocError>
    ensures done { OnOk result (here.new ≡ logs here.old entry) }
    ensures err { OnErr result (here.new ≡ nothing_here) }
{
    or_nothing(log_there(&mut here.there, entry), here)
}

/// The worker sends a message to a worker.
#[inline(always)]
pub fn say(here: &mut WorkerContext, worker: WorkerId, message: Message) -> Result<(), AllocError>
    ensures done { OnOk result (here.new ≡ says here.old worker message) }
    ensures err { OnErr result (here.new ≡ nothing_here) }
{
    let sender = Endpoint::TheWorker(here.me);
    let receiver = Endpoint::TheWorker(worker);
    let envelope = Envelope {
        sender,
        receiver,
        message,
    };
    or_nothing(post(&mut here.there, envelope), here)
}

/// The worker sends a message to a node.
#[inline(always)]
pub fn say_to_node(
    here: &mut WorkerContext,
    node: NodeId,
    message: Message,
) -> Result<(), AllocError>
    ensures done { OnOk result (here.new ≡ says_to_node here.old node message) }
    ensures err { OnErr result (here.new ≡ nothing_here) }
{
    let sender = Endpoint::TheWorker(here.me);
    let receiver = Endpoint::TheNode(node);
    let envelope = Envelope {
        sender,
        receiver,
        message,
    };
    or_nothing(post(&mut here.there, envelope), here)
}

/// The worker's slot is given back.
pub fn give_slot_back(alloc: Global, here: &mut WorkerContext) -> Result<(), AllocError>
    ensures done { OnOk result (here.new ≡ gives_slot_back here.old) }
    ensures err { OnErr result (here.new ≡ nothing_here) }
{
    let me = here.me;
    or_nothing(blocked(alloc, &mut here.there, me), here)
}

/// The worker's answered attempt asks for its slot.
pub fn ask_for_slot(alloc: Global, here: &mut WorkerContext) -> Result<(), AllocError>
    ensures done { OnOk result (here.new ≡ asks_for_slot here.old) }
    ensures err { OnErr result (here.new ≡ nothing_here) }
{
    let me = here.me;
    or_nothing(unblocked(alloc, &mut here.there, me), here)
}

/// Whether the worker owns the object.
pub fn is_own(here: &WorkerContext, object: ObjectId) -> bool
    ensures { result ≡ is_own here.now object }
{
    object.owned_by(here.me)
}

/// Whether the worker was told that the other is dead.
pub fn knows_dead(worker: &Worker, other: WorkerId) -> bool
    ensures { result ≡ knows_dead worker.now other }
{
    has_worker(&worker.dead_workers, other)
}

/// Whether the attempt has ended, by contents or by a fault.
pub fn has_stopped(phase: &Phase) -> bool
    ensures { result ≡ has_stopped phase.now }
{
    match phase {
        Phase::HasEnded(_) => true,
        Phase::HasFaulted(_) => true,
        Phase::Ready => false,
        Phase::Out(_) => false,
        Phase::Waits(..) => false,
    }
}

/// Main's attempt, `a1.0#0`: it has no other.
pub fn main_attempt() -> AttemptId
    ensures { result ≡ main_attempt }
{
    AttemptId {
        object: ObjectId {
            owner: WorkerId(1),
            serial: 0,
        },
        number: 0,
    }
}
