// The objects that a birth makes, as values of code.

ghost use Rattle.std.specs.Prelude.{◌≡◌, ◌≤◌, ◌+◌, ◌^◌, ◌++◌, IfOk, OnOk, OnErr, []};
ghost use Rattle.meaning.specs.Values.{others_of};
ghost use Rattle.meaning.specs.Births.{is_made_by};
ghost use Rattle.meaning.specs.Runs.{ids_from, past};
ghost use Rattle.task_spec.specs.Births.{birth_of};
ghost use Rattle.made_objects.specs.Made.{objects_made};

use sequence::refused_growth;
use std::alloc::{AllocError, Global};
use task_spec::Birth;
use task_spec::ids::ObjectId;

/// How many objects the birth makes beside the first.
fn others_of(birth: &Birth) -> u8
    ensures { result ≡ others_of (birth_of birth.now) }
{
    match birth {
        Birth::Put(_) => 0,
        Birth::Task { others, .. } => *others,
    }
}

/// Whether the birth whose first object is that one makes the object.
#[tactic(auto, unfolding(meaning::specs::Births::is_made_by))]
pub fn is_made_by(object: ObjectId, first: ObjectId, birth: &Birth) -> bool
    ensures { result ≡ is_made_by (record { object = first; birth = birth_of birth.now }) object }
{
    let others = u64::from(others_of(birth));
    first.owner.0 == object.owner.0
        && object.serial >= first.serial
        && object.serial - first.serial <= others
}

/// The object so many behind that one. None has a serial past 2^64 - 1, where no task comes.
fn object_behind(alloc: Global, object: ObjectId, count: u64) -> Result<ObjectId, AllocError>
    ensures object { IfOk result (λ o. o ≡ past object count) }
    ensures refused { OnErr result (2 ^ 64 ≤ object.serial + count) }
{
    let owner = object.owner;
    match object.serial.checked_add(count) {
        Some(serial) => Ok(ObjectId { owner, serial }),
        None => Err(refused_growth(alloc)),
    }
}

/// Adds so many objects of one owner, whose serials follow one another from that object's on.
fn add_from(objects: &mut Vec<ObjectId>, first: ObjectId, count: u64) -> Result<(), AllocError>
    ensures { OnOk result (objects.new.items ≡ objects.old.items ++ ids_from first count) }
{
    let alloc = *objects.allocator();
    for place in 0..count {
        objects.push(object_behind(alloc, first, place)?)?;
    }
    Ok(())
}

/// Adds the objects of the birth whose first object is this, in order. An error is want of memory, and then none is left.
#[tactic(auto, unfolding(crate::specs::Made::objects_made))]
pub fn add_objects(
    objects: &mut Vec<ObjectId>,
    object: ObjectId,
    birth: &Birth,
) -> Result<(), AllocError>
    ensures done { OnOk result (objects.new.items ≡ objects.old.items ++ objects_made object (birth_of birth.now)) }
    ensures err { OnErr result (objects.new.items ≡ []) }
{
    let others = u64::from(others_of(birth));
    let came = add_from(objects, object, others + 1);
    if came.is_err() {
        objects.clear();
    }
    came
}
