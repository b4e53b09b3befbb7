// Which objects are made again with a lost one.

ghost use Rattle.std.specs.Prelude.{◌≡◌, IfOk, OnOk, Some, None, if◌then◌else◌};
ghost use Rattle.protocol.specs.Sets.{has};
ghost use Rattle.protocol.specs.Recovery.{first_stop, made_from, members, members_below, stop_at, with_lost};
ghost use Rattle.lineage.specs.Plans.{IsPlanned, IsRightPlan};

use crate::arguments::{made_from, task_for};
use crate::recovery::{Plan, Stop};
use crate::serials::{add_serial, has_serial, in_order};
use crate::tables::{is_lost_here, may_try_again};
use ids::ObjectId;
use protocol_data::WorkerContext;
use sequence::Seq;
use std::alloc::{AllocError, Global};
use values::{Fault, FaultKind};

/// Adds the serials of those that are lost.
fn add_lost(
    here: &WorkerContext,
    objects: &Seq<ObjectId>,
    serials: &mut Seq<u64>,
) -> Result<(), AllocError>
    ensures { OnOk result (serials.new ≡ with_lost here.now objects.now serials.old) }
{
    for object in &objects.items {
        if is_lost_here(here, *object) {
            add_serial(serials, object.serial)?;
        }
    }
    Ok(())
}

/// Of a member, adds what it is made from and is lost.
fn add_arguments(
    alloc: Global,
    here: &WorkerContext,
    serial: u64,
    serials: &mut Seq<u64>,
) -> Result<(), AllocError>
    ensures { OnOk result (serials.new ≡ (if has serials.old serial then with_lost here.now (made_from here.now serial) serials.old else serials.old)) }
{
    if !has_serial(serials, serial) {
        return Ok(());
    }
    let objects = made_from(alloc, here, serial)?;
    add_lost(here, &objects, serials)
}

/// From the youngest down, since what an object is made from is older.
#[tactic(auto, using(crate::proofs::Counting::down_step, crate::proofs::Counting::down_last))]
fn add_members_below(
    alloc: Global,
    here: &WorkerContext,
    serial: u64,
    serials: &mut Seq<u64>,
) -> Result<(), AllocError>
    ensures { OnOk result (serials.new ≡ members_below here.now serial serials.old) }
{
    for back in 0..serial {
        add_arguments(alloc, here, serial - back, serials)?;
    }
    Ok(())
}

/// The serials of the objects to make again, in birth order.
fn members(alloc: Global, here: &WorkerContext, serial: u64) -> Result<Seq<u64>, AllocError>
    ensures { IfOk result (λ all. all ≡ members here.now serial) }
{
    let mut found = Seq::new(alloc);
    found.push(serial)?;
    add_members_below(alloc, here, serial, &mut found)?;
    in_order(alloc, &found, serial)
}

/// Why the object of that serial can't be made again.
fn stop_at(here: &WorkerContext, serial: u64) -> Option<Fault>
    ensures { result ≡ stop_at here.now serial }
{
    let owner = here.me;
    let object = ObjectId { owner, serial };
    let Some(task) = task_for(here, serial) else {
        let kind = FaultKind::PutLost;
        return Some(Fault { kind, object });
    };
    if may_try_again(task) {
        return None;
    }
    let kind = FaultKind::RetriesUsed;
    Some(Fault { kind, object })
}

/// Why one of these can't be made again, the first that can't.
fn first_stop(here: &WorkerContext, serials: &Seq<u64>) -> Option<Fault>
    ensures { result ≡ first_stop here.now serials.now }
{
    for serial in &serials.items {
        if let Some(stop) = stop_at(here, *serial) {
            return Some(stop);
        }
    }
    None
}

/// What is decided about the own object of that serial.
fn decide(alloc: Global, here: &WorkerContext, serial: u64) -> Result<Plan, Stop>
    ensures { IsPlanned here.now serial result }
{
    let serials = members(alloc, here, serial)?;
    if let Some(why) = first_stop(here, &serials) {
        return Err(Stop::CannotBeRemade(why));
    }
    Ok(Plan { serials })
}

/// The plan for a lost object of this owner, of which the serial alone is looked at: the least set with it and, of each in the set, the
/// dereferenced arguments that are the owner's own and lost too, in birth order. `CannotBeRemade` tells, of those in the set that can't be made
/// again, the first in birth order. The tables stay as they are.
///
/// That the set is the least is promised where the object's serial is 1 or more and what an object is made from is older than it. In a run
/// both hold: an owner's objects are numbered from 1 on as they are born (serial 0 is main's own, which is never asked for again), and a task's
/// arguments are references that its caller had when the task was born. Tables that were put together by hand needn't be so; of them the same
/// steps are promised (`decision`), and no more.
#[tactic(auto, using(crate::proofs::Least::is_right_plan))]
pub fn plan(alloc: Global, here: &WorkerContext, object: ObjectId) -> Result<Plan, Stop>
    ensures decision { IsPlanned here.now object.serial result }
    ensures right { IsRightPlan here.now object.serial result }
{
    decide(alloc, here, object.serial)
}
