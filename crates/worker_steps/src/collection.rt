// What objects of the dead held.

ghost use Rattle.std.specs.Prelude.{◌≡◌, ◌++◌, ◌==◌, OnErr, OnOk, map, not};
ghost use Rattle.worker_tables.specs.of_contexts.Emptied.{nothing_here};
ghost use Rattle.std.specs.List.{filter};
ghost use Rattle.protocol.specs.Tables.{holders_of};
ghost use Rattle.protocol.specs.Steps.{own_id, own_object};
ghost use Rattle.protocol.specs.Holders.{collects, drops_dead, drops_dead_by, drops_holders, first_born, first_born_first, holding, lets_go_of_dead, passes_on};

use crate::own::drop_dead_holder;
use ids::{ObjectId, WorkerId};
use number_lists::object_at_number;
use protocol_data::{Holding, Message, Reason, WorkerContext};
use sequence::Seq;
use std::alloc::{AllocError, Global};
use worker_tables::{holders_of, or_nothing, say};

/// The id of the least serial, of the first and these.
fn first_born(first: ObjectId, others: &Seq<ObjectId>) -> ObjectId
    ensures { result ≡ first_born first others.now }
{
    let mut least = first;
    for other in &others.items {
        if other.serial < least.serial {
            least = *other;
        }
    }
    least
}

/// The holders, whose owners are dead, hold the own object no longer.
fn drop_holders(
    here: &mut WorkerContext,
    object: ObjectId,
    holders: &Seq<ObjectId>,
) -> Result<(), AllocError>
    ensures done { OnOk result (here.new ≡ drops_holders here.old object holders.now) }
    ensures err { OnErr result (here.new ≡ nothing_here) }
{
    for holder in &holders.items {
        drop_dead_holder(here, object, *holder)?;
    }
    Ok(())
}

/// The same, the first-born before all: it is the one that is kept, whatever order they came in.
#[tactic(auto, using(crate::proofs::FirstBorn::again))]
fn drop_first_born_first(
    here: &mut WorkerContext,
    object: ObjectId,
    holders: &Seq<ObjectId>,
) -> Result<(), AllocError>
    ensures done { OnOk result (here.new ≡ drops_holders here.old object (first_born_first holders.now)) }
    ensures err { OnErr result (here.new ≡ nothing_here) }
{
    let Some(first) = holders.items.first() else {
        return Ok(());
    };
    drop_dead_holder(here, object, first_born(*first, holders))?;
    drop_holders(here, object, holders)
}

/// What the worker owns holds the own object of that serial no longer.
fn drop_dead_by(
    alloc: Global,
    here: &mut WorkerContext,
    worker: WorkerId,
    serial: u64,
) -> Result<(), AllocError>
    ensures done { OnOk result (here.new ≡ drops_dead_by here.old worker (own_id here.old serial) (own_object here.old serial)) }
    ensures err { OnErr result (here.new ≡ nothing_here) }
{
    let Some(found) = object_at_number(&here.worker.objects, serial) else {
        return Ok(());
    };
    let holders = or_nothing(holders_of(alloc, found, worker), here)?;
    let owner = here.me;
    drop_first_born_first(here, ObjectId { owner, serial }, &holders)
}

/// What the worker owns holds no own object any longer.
#[tactic(auto, using(crate::proofs::EachLaws::each_step, crate::proofs::EachLaws::each_last))]
fn drop_dead(alloc: Global, here: &mut WorkerContext, worker: WorkerId) -> Result<(), AllocError>
    ensures done { OnOk result (here.new ≡ drops_dead here.old worker) }
    ensures err { OnErr result (here.new ≡ nothing_here) }
{
    let count = here.worker.objects.len() as u64;
    for place in 0..count {
        drop_dead_by(alloc, here, worker, place + 1)?;
    }
    Ok(())
}

/// The owners of these are told that what the worker owns holds them no longer.
fn let_go_of_dead(
    here: &mut WorkerContext,
    worker: WorkerId,
    passed: &Seq<Holding>,
) -> Result<(), AllocError>
    ensures done { OnOk result (here.new ≡ lets_go_of_dead here.old worker passed.now) }
    ensures err { OnErr result (here.new ≡ nothing_here) }
{
    for hold in &passed.items {
        if hold.holder.owned_by(worker) {
            let reason = Reason::OwnerIsDead;
            say(
                here,
                hold.object.owner,
                Message::Unhold(hold.holder, hold.object, reason),
            )?;
        }
    }
    Ok(())
}

/// What the worker owns, which is dead, holds nothing any longer: no own object, and nothing that was passed on from here.
pub fn collect(alloc: Global, here: &mut WorkerContext, worker: WorkerId) -> Result<(), AllocError>
    ensures done { OnOk result (here.new ≡ collects here.old worker) }
    ensures err { OnErr result (here.new ≡ nothing_here) }
{
    let passed = or_nothing(here.worker.passed_on.copy(alloc), here)?;
    drop_dead(alloc, here, worker)?;
    let_go_of_dead(here, worker, &passed)
}

/// Adds the ids of other owners to what was passed on.
fn add_passed(
    passed: &mut Seq<Holding>,
    me: WorkerId,
    holder: ObjectId,
    ids: &Seq<ObjectId>,
) -> Result<(), AllocError>
    ensures { OnOk result (passed.new ≡ passed.old ++ map (holding holder) (filter (λ o. not (o.owner == me)) ids.now)) }
{
    for id in &ids.items {
        if !id.owned_by(me) {
            let object = *id;
            passed.push(Holding { holder, object })?;
        }
    }
    Ok(())
}

/// A content of the holder, with these ids, came from here.
pub fn pass_on(
    here: &mut WorkerContext,
    holder: ObjectId,
    ids: &Seq<ObjectId>,
) -> Result<(), AllocError>
    ensures done { OnOk result (here.new ≡ passes_on here.old holder ids.now) }
    ensures err { OnErr result (here.new ≡ nothing_here) }
{
    let me = here.me;
    or_nothing(
        add_passed(&mut here.worker.passed_on, me, holder, ids),
        here,
    )
}
