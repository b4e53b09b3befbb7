// The owner answers who waits for an object.

ghost use Rattle.std.specs.Prelude.{◌≡◌, OnErr, OnOk, [], ◌∷◌, Some, None};
ghost use Rattle.worker_steps.specs.of_contexts.Emptied.{nothing_here};
ghost use Rattle.protocol.specs.Tables.{settled_number};
ghost use Rattle.protocol.specs.Locations.{answers_settled, tells_locations};
ghost use Rattle.protocol_data.specs.declared.tables.Object.{Object};

use crate::faulted::clear_askers;
use crate::needs::{need_own_if_waiting, settled_number};
use held::SharedContent;
use ids::{NodeId, ObjectId, WorkerId};
use protocol_data::{Message, SmallList, WorkerContext, copy_of};
use sequence::Seq;
use std::alloc::{AllocError, Global};
use worker_steps::{object_at, or_nothing, say};

/// A worker is told where the content is.
fn tell_location(
    alloc: Global,
    here: &mut WorkerContext,
    worker: WorkerId,
    object: ObjectId,
    number: u32,
    locations: &Seq<NodeId>,
    kept: &Option<SharedContent>,
) -> Result<(), AllocError>
    ensures done { (x : Object) → settled_number x ≡ number → x.locations ≡ locations.now → x.kept ≡ kept.now
        → OnOk result (here.new ≡ tells_locations here.old (worker ∷ []) object x) }
    ensures err { OnErr result (here.new ≡ nothing_here) }
{
    let locations = or_nothing(locations.copy(alloc), here)?;
    let kept = or_nothing(copy_of(kept, alloc), here)?;
    say(here, worker, Message::At(object, number, locations, kept))
}

/// Each of the workers is told where the content is.
fn tell_locations(
    alloc: Global,
    here: &mut WorkerContext,
    workers: &SmallList<WorkerId>,
    object: ObjectId,
    number: u32,
    locations: &Seq<NodeId>,
    kept: &Option<SharedContent>,
) -> Result<(), AllocError>
    ensures done { (x : Object) → settled_number x ≡ number → x.locations ≡ locations.now → x.kept ≡ kept.now
        → OnOk result (here.new ≡ tells_locations here.old workers.now object x) }
    ensures err { OnErr result (here.new ≡ nothing_here) }
{
    for worker in workers.as_slice() {
        tell_location(alloc, here, *worker, object, number, locations, kept)?;
    }
    Ok(())
}

/// Whoever waits for the own object, whose content is there now, is answered: each asker is told the locations or the kept content, in order of
/// asking, and none of them waits any more; the own attempt, if it waits for the object, looks for it.
pub fn answer_settled(
    alloc: Global,
    here: &mut WorkerContext,
    object: ObjectId,
) -> Result<(), AllocError>
    ensures done { OnOk result (here.new ≡ answers_settled here.old object) }
    ensures err { OnErr result (here.new ≡ nothing_here) }
{
    let Some(found) = object_at(here, object) else {
        return Ok(());
    };
    // Most objects are got by their owner's attempt alone, or by none.
    if found.askers.as_slice().is_empty() {
        return need_own_if_waiting(alloc, here, object);
    }
    let number = settled_number(found);
    let askers = found.askers.copy(alloc);
    let locations = found.locations.copy(alloc);
    let kept = copy_of(&found.kept, alloc);
    let askers = or_nothing(askers, here)?;
    let locations = or_nothing(locations, here)?;
    let kept = or_nothing(kept, here)?;
    clear_askers(alloc, here, object);
    tell_locations(alloc, here, &askers, object, number, &locations, &kept)?;
    need_own_if_waiting(alloc, here, object)
}
