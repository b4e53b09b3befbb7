// What is done with each object of a task.

ghost use Rattle.std.specs.Prelude.{◌≡◌, ◌≤◌, ◌+◌, ◌^◌, IfOk, OnOk, OnErr};
ghost use Rattle.worker_steps.specs.of_contexts.Emptied.{nothing_here};
ghost use Rattle.meaning.specs.Runs.{past};
ghost use Rattle.protocol.specs.Asking.{answers_faulted, resolves_used};
ghost use Rattle.protocol.specs.Ends.{resolves_open};
ghost use Rattle.protocol.specs.Holders.{holds_ids};
ghost use Rattle.protocol.specs.Locations.{answers_settled};
ghost use Rattle.protocol.specs.Steps.{own_id};
ghost use Rattle.owner_steps.specs.Each.{each_own};

use crate::answers::answer_settled;
use crate::faulted::answer_faulted;
use ids::ObjectId;
use lineage::is_wanted;
use protocol_data::WorkerContext;
use sequence::{Seq, refused_growth};
use std::alloc::{AllocError, Global};
use values::{Fault, FaultKind};
use worker_steps::{hold_ids, object_at, resolve};

/// The id of the worker's object of that serial.
pub fn own_id(here: &WorkerContext, serial: u64) -> ObjectId
    ensures { result ≡ own_id here.now serial }
{
    let owner = here.me;
    ObjectId { owner, serial }
}

/// The id so many behind that one. There is none past serial 2^64 - 1, where no object comes: an owner has at most 2^63.
pub fn id_behind(alloc: Global, object: ObjectId, count: u64) -> Result<ObjectId, AllocError>
    ensures object { IfOk result (λ o. o ≡ past object count) }
    ensures refused { OnErr result (2 ^ 64 ≤ object.serial + count) }
{
    let owner = object.owner;
    match object.serial.checked_add(count) {
        Some(serial) => Ok(ObjectId { owner, serial }),
        None => Err(refused_growth(alloc)),
    }
}

/// The own object is resolved by RetriesUsed of itself, if it has no copy and no fault.
fn resolve_used(here: &mut WorkerContext, serial: u64) -> Result<(), AllocError>
    ensures done { OnOk result (here.new ≡ resolves_used here.old (own_id here.old serial)) }
    ensures err { OnErr result (here.new ≡ nothing_here) }
{
    let object = own_id(here, serial);
    let Some(found) = object_at(here, object) else {
        return Ok(());
    };
    if !is_wanted(found) {
        return Ok(());
    }
    let kind = FaultKind::RetriesUsed;
    resolve(here, object, Fault { kind, object })
}

/// So is each from the one serial to before the other.
#[tactic(auto, using(worker_steps::proofs::EachLaws::each_step, worker_steps::proofs::EachLaws::each_done))]
pub fn resolve_all_used(here: &mut WorkerContext, from: u64, end: u64) -> Result<(), AllocError>
    ensures done { OnOk result (here.new ≡ each_own resolves_used here.old from end) }
    ensures err { OnErr result (here.new ≡ nothing_here) }
{
    for serial in from..end {
        resolve_used(here, serial)?;
    }
    Ok(())
}

/// The own object is resolved to the fault, if it has none.
fn resolve_open(here: &mut WorkerContext, serial: u64, why: Fault) -> Result<(), AllocError>
    ensures done { OnOk result (here.new ≡ resolves_open why here.old (own_id here.old serial)) }
    ensures err { OnErr result (here.new ≡ nothing_here) }
{
    let object = own_id(here, serial);
    let Some(found) = object_at(here, object) else {
        return Ok(());
    };
    if found.fault.is_some() {
        return Ok(());
    }
    resolve(here, object, why)
}

/// So is each from the one serial to before the other.
#[tactic(auto, using(worker_steps::proofs::EachLaws::each_step, worker_steps::proofs::EachLaws::each_done))]
pub fn resolve_all_open(
    here: &mut WorkerContext,
    from: u64,
    end: u64,
    why: Fault,
) -> Result<(), AllocError>
    ensures done { OnOk result (here.new ≡ each_own (resolves_open why) here.old from end) }
    ensures err { OnErr result (here.new ≡ nothing_here) }
{
    for serial in from..end {
        resolve_open(here, serial, why)?;
    }
    Ok(())
}

/// Whoever waits for the own object, which has a content now, is answered.
fn answer_settled_own(
    alloc: Global,
    here: &mut WorkerContext,
    serial: u64,
) -> Result<(), AllocError>
    ensures done { OnOk result (here.new ≡ answers_settled here.old (own_id here.old serial)) }
    ensures err { OnErr result (here.new ≡ nothing_here) }
{
    let object = own_id(here, serial);
    answer_settled(alloc, here, object)
}

/// So is whoever waits for one of these, from the one serial to before the other.
#[tactic(auto, using(worker_steps::proofs::EachLaws::each_step, worker_steps::proofs::EachLaws::each_done))]
pub fn answer_all_settled(
    alloc: Global,
    here: &mut WorkerContext,
    from: u64,
    end: u64,
) -> Result<(), AllocError>
    ensures done { OnOk result (here.new ≡ each_own answers_settled here.old from end) }
    ensures err { OnErr result (here.new ≡ nothing_here) }
{
    for serial in from..end {
        answer_settled_own(alloc, here, serial)?;
    }
    Ok(())
}

/// Whoever waits for the own object, if that is resolved, is answered.
fn answer_faulted_own(
    alloc: Global,
    here: &mut WorkerContext,
    serial: u64,
) -> Result<(), AllocError>
    ensures done { OnOk result (here.new ≡ answers_faulted here.old (own_id here.old serial)) }
    ensures err { OnErr result (here.new ≡ nothing_here) }
{
    let object = own_id(here, serial);
    answer_faulted(alloc, here, object)
}

/// So is whoever waits for one of these, from the one serial to before the other.
#[tactic(auto, using(worker_steps::proofs::EachLaws::each_step, worker_steps::proofs::EachLaws::each_done))]
pub fn answer_all_faulted(
    alloc: Global,
    here: &mut WorkerContext,
    from: u64,
    end: u64,
) -> Result<(), AllocError>
    ensures done { OnOk result (here.new ≡ each_own answers_faulted here.old from end) }
    ensures err { OnErr result (here.new ≡ nothing_here) }
{
    for serial in from..end {
        answer_faulted_own(alloc, here, serial)?;
    }
    Ok(())
}

/// Each of these holds those ids.
#[tactic(auto, using(worker_steps::proofs::EachLaws::each_step, worker_steps::proofs::EachLaws::each_done))]
pub fn hold_all(
    here: &mut WorkerContext,
    from: u64,
    end: u64,
    ids: &Seq<ObjectId>,
) -> Result<(), AllocError>
    ensures done { OnOk result (here.new ≡ each_own (λ g e. holds_ids g e ids.now) here.old from end) }
    ensures err { OnErr result (here.new ≡ nothing_here) }
{
    for serial in from..end {
        let object = own_id(here, serial);
        hold_ids(here, object, ids)?;
    }
    Ok(())
}
