// The worker's own attempt needs an own object.

ghost use Rattle.std.specs.Prelude.{◌≡◌, OnErr, OnOk, [], Some, None, true};
ghost use Rattle.worker_steps.specs.of_contexts.Emptied.{nothing_here};
ghost use Rattle.std.specs.Option.{unwrap_or};
ghost use Rattle.protocol.specs.Numbered.{changed_at};
ghost use Rattle.protocol.specs.Stores.{copy_in};
ghost use Rattle.protocol.specs.Tables.{is_waiting_for, settled_number, without_location, without_locations};
ghost use Rattle.protocol.specs.Steps.{changes, object_at};
ghost use Rattle.protocol.specs.Locations.{looks_at_locations, looks_elsewhere, looks_for_by, looks_here_by};
ghost use Rattle.protocol.specs.Locations.{needs_own, needs_own_if_waiting, needs_released, needs_unresolved};
ghost use Rattle.protocol_data.specs.declared.tables.Object.{Object};

use crate::recovery::{recover, recover_if_lost};
use held::SharedContent;
use ids::{NodeId, ObjectId};
use lineage::{has_content, is_lost};
use number_lists::{has_node, remove_node, row_of};
use object_store::get as get_copy;
use protocol_data::{Object, Objects, Worker, WorkerContext, copy_of};
use sequence::Seq;
use std::alloc::{AllocError, Global};
use values::{Fault, FaultKind};
use worker_steps::{
    fault, fetch, get, is_waiting_for, live_location, object_at, or_nothing, set_fetching,
};

/// The number of the attempt whose content it has, 0 for what was put.
pub fn settled_number(object: &Object) -> u32
    ensures { result ≡ settled_number object.now }
{
    object.settled.unwrap_or(0)
}

/// The location is taken out of the object of that serial.
fn remove_location_at(objects: &mut Objects, serial: u64, node: NodeId)
    ensures { objects.new ≡ changed_at objects.old serial (without_location node) }
{
    let Some(place) = row_of(objects, serial) else {
        return;
    };
    let object = objects.row_mut(place);
    remove_node(&mut object.locations, node);
}

/// The location is taken out of the own object's.
pub fn remove_location(here: &mut WorkerContext, object: ObjectId, node: NodeId)
    ensures { here.new ≡ changes here.old object (without_location node) }
{
    remove_location_at(&mut here.worker.objects, object.serial, node);
}

/// The object of that serial has no location.
fn clear_locations_at(alloc: Global, objects: &mut Objects, serial: u64)
    ensures { objects.new ≡ changed_at objects.old serial without_locations }
{
    let Some(place) = row_of(objects, serial) else {
        return;
    };
    let object = objects.row_mut(place);
    object.locations = Seq::new(alloc);
}

/// The own object has no location.
fn clear_locations(alloc: Global, here: &mut WorkerContext, object: ObjectId)
    ensures { here.new ≡ changes here.old object without_locations }
{
    clear_locations_at(alloc, &mut here.worker.objects, object.serial);
}

/// The first location that isn't known dead; where there is none, the content is lost, and made again unless an attempt is under way.
fn look_elsewhere(
    alloc: Global,
    here: &mut WorkerContext,
    object: ObjectId,
    number: u32,
    locations: &Seq<NodeId>,
) -> Result<(), AllocError>
    ensures done { (x : Object) → settled_number x ≡ number → x.locations ≡ locations.now → OnOk result (here.new ≡ looks_elsewhere here.old object x) }
    ensures err { OnErr result (here.new ≡ nothing_here) }
{
    if let Some(node) = live_location(&here.worker, locations) {
        return fetch(here, object, number, node);
    }
    clear_locations(alloc, here, object);
    recover_if_lost(alloc, here, object)
}

/// The own node turns out to have no copy.
fn look_past(
    alloc: Global,
    here: &mut WorkerContext,
    object: ObjectId,
    number: u32,
    locations: &Seq<NodeId>,
) -> Result<(), AllocError>
    ensures done { (x : Object) → settled_number x ≡ number → x.locations ≡ locations.now → OnOk result (here.new ≡ looks_here_by here.old object x None) }
    ensures err { OnErr result (here.new ≡ nothing_here) }
{
    let node = here.worker.node;
    remove_location(here, object, node);
    let mut others = or_nothing(locations.copy(alloc), here)?;
    remove_node(&mut others, node);
    look_elsewhere(alloc, here, object, number, &others)
}

/// The attempt looks at its own node, of which a copy is known.
fn look_here(
    alloc: Global,
    here: &mut WorkerContext,
    object: ObjectId,
    number: u32,
    locations: &Seq<NodeId>,
) -> Result<(), AllocError>
    ensures done { (x : Object) → settled_number x ≡ number → x.locations ≡ locations.now
        → OnOk result (here.new ≡ looks_here_by here.old object x (copy_in here.old.there.node.store object (settled_number x))) }
    ensures err { OnErr result (here.new ≡ nothing_here) }
{
    let found = get_copy(alloc, &mut here.there.node.store, object, number);
    let Some(content) = or_nothing(found, here)? else {
        return look_past(alloc, here, object, number, locations);
    };
    get(alloc, here, &content)
}

/// The attempt looks for a copy of the content of an own object.
fn look_at_locations(
    alloc: Global,
    here: &mut WorkerContext,
    object: ObjectId,
    number: u32,
    locations: &Seq<NodeId>,
) -> Result<(), AllocError>
    ensures done { (x : Object) → settled_number x ≡ number → x.locations ≡ locations.now → OnOk result (here.new ≡ looks_at_locations here.old object x) }
    ensures err { OnErr result (here.new ≡ nothing_here) }
{
    if has_node(locations, here.worker.node) {
        return look_here(alloc, here, object, number, locations);
    }
    look_elsewhere(alloc, here, object, number, locations)
}

/// The content that the owner keeps answers, else a copy is looked for.
fn look_for(
    alloc: Global,
    here: &mut WorkerContext,
    object: ObjectId,
    number: u32,
    locations: &Seq<NodeId>,
    kept: &Option<SharedContent>,
) -> Result<(), AllocError>
    ensures done { (x : Object) → settled_number x ≡ number → x.locations ≡ locations.now → OnOk result (here.new ≡ looks_for_by here.old object x kept.now) }
    ensures err { OnErr result (here.new ≡ nothing_here) }
{
    match kept {
        None => look_at_locations(alloc, here, object, number, locations),
        Some(content) => get(alloc, here, content),
    }
}

/// The attempt needs a released object: where an object of the dead held it, that is its fault, and else nothing happens.
fn need_released(
    alloc: Global,
    here: &mut WorkerContext,
    dead_holder: Option<ObjectId>,
) -> Result<(), AllocError>
    ensures done { OnOk result (here.new ≡ needs_released here.old dead_holder) }
    ensures err { OnErr result (here.new ≡ nothing_here) }
{
    let Some(object) = dead_holder else {
        return Ok(());
    };
    let kind = FaultKind::OwnerDied;
    fault(alloc, here, Fault { kind, object })
}

/// The worker's attempt needs an own object. A resolved one answers with its fault; what the owner keeps and a copy on the own node answer at
/// once; else it is fetched from the first location that isn't known dead. Where no location is left the object is made again. One that was released
/// answers with a fault where an object of the dead held it. For a pending one the attempt waits.
pub fn need_own(alloc: Global, here: &mut WorkerContext, object: ObjectId) -> Result<(), AllocError>
    ensures done { OnOk result (here.new ≡ needs_own here.old object) }
    ensures err { OnErr result (here.new ≡ nothing_here) }
{
    set_fetching(here, None);
    let Some(found) = object_at(here, object) else {
        return Ok(());
    };
    if let Some(why) = found.fault {
        return fault(alloc, here, why);
    }
    if has_content(found) {
        let number = settled_number(found);
        let locations = found.locations.copy(alloc);
        let kept = copy_of(&found.kept, alloc);
        let locations = or_nothing(locations, here)?;
        let kept = or_nothing(kept, here)?;
        return look_for(alloc, here, object, number, &locations, &kept);
    }
    if is_lost(&here.worker.objects, found) {
        return recover(alloc, here, object);
    }
    if found.is_released {
        let dead_holder = found.dead_holder;
        return need_released(alloc, here, dead_holder);
    }
    Ok(())
}

/// The same, if it waits for the object.
pub fn need_own_if_waiting(
    alloc: Global,
    here: &mut WorkerContext,
    object: ObjectId,
) -> Result<(), AllocError>
    ensures done { OnOk result (here.new ≡ needs_own_if_waiting here.old object) }
    ensures err { OnErr result (here.new ≡ nothing_here) }
    ensures asked { OnErr result (is_waiting_for here.old.worker object ≡ true) }
{
    if is_waiting_for(&here.worker, object) {
        return need_own(alloc, here, object);
    }
    Ok(())
}
