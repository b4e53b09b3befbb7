// How an object gains and loses the objects that hold it, and whether any holder is left.

ghost use Rattle.std.specs.Prelude.{◌≡◌, ◌↔◌, ◌&&◌, ◌||◌, None, OnErr, OnOk, Some, false, not, true};
ghost use Rattle.meaning.specs.Births.{same_id};
ghost use Rattle.meaning.specs.Values.{Id};
ghost use Rattle.protocol.specs.Sets.{has_id};
ghost use Rattle.protocol.specs.Tables.{id_or, is_held, with_dead_holder, with_holder, without_holder};
ghost use Rattle.borrow.specs.Held.{holds};

use ids::ObjectId;
use number_lists::{add_object, has_object};
use protocol_data::Object;
use std::alloc::AllocError;

/// Adds a holder. One that was removed before doesn't come to hold the object again. An error is want of memory for a holder that was never added, and
/// the object is as it was then.
pub fn add(object: &mut Object, holder: ObjectId) -> Result<(), AllocError>
    ensures step { OnOk result (object.new ≡ with_holder holder object.old) }
    ensures err { OnErr result (object.new ≡ object.old) }
    ensures grows { OnErr result (has_id object.old.added holder ≡ false) }
    ensures added { (e : Id) → OnOk result (holds object.new e ≡ ((has_id object.old.added e || same_id holder e) && not (has_id object.old.removed e))) }
    ensures late { has_id object.old.removed holder ≡ true → (e : Id) → OnOk result (holds object.new e ≡ holds object.old e) }
{
    add_object(&mut object.added, holder)?;
    Ok(())
}

/// Removes a holder, and no other. An error is want of memory for a holder that was never removed, and the object is as it was then.
pub fn remove(object: &mut Object, holder: ObjectId) -> Result<(), AllocError>
    ensures step { OnOk result (object.new ≡ without_holder holder object.old) }
    ensures err { OnErr result (object.new ≡ object.old) }
    ensures grows { OnErr result (has_id object.old.removed holder ≡ false) }
    ensures removed { (e : Id) → OnOk result (holds object.new e ≡ (holds object.old e && not (same_id holder e))) }
{
    add_object(&mut object.removed, holder)?;
    Ok(())
}

/// The one that is kept already, else the holder.
fn first_dead(kept: Option<ObjectId>, holder: ObjectId) -> ObjectId
    ensures { result ≡ id_or kept holder }
{
    match kept {
        None => holder,
        Some(first) => first,
    }
}

/// Removes a holder whose owner is dead, and no other, and keeps it as the dead holder, unless another one is kept. An error is want of memory for a
/// holder that was never removed, and the object is as it was then.
pub fn remove_dead(object: &mut Object, holder: ObjectId) -> Result<(), AllocError>
    ensures step { OnOk result (object.new ≡ with_dead_holder holder object.old) }
    ensures err { OnErr result (object.new ≡ object.old) }
    ensures grows { OnErr result (has_id object.old.removed holder ≡ false) }
    ensures removed { (e : Id) → OnOk result (holds object.new e ≡ (holds object.old e && not (same_id holder e))) }
    ensures kept { object.old.dead_holder ≡ None → OnOk result (object.new.dead_holder ≡ Some holder) }
    ensures first { (d : Id) → object.old.dead_holder ≡ Some d → OnOk result (object.new.dead_holder ≡ Some d) }
{
    remove(object, holder)?;
    object.dead_holder = Some(first_dead(object.dead_holder, holder));
    Ok(())
}

/// Whether one of those that were added is left.
fn is_one_left(object: &Object) -> bool
    ensures { result ≡ is_held object.now }
{
    object
        .added
        .as_slice()
        .iter()
        .any(|e| !has_object(&object.removed, *e))
}

/// Whether anyone holds it. It takes no memory.
pub fn is_held(object: &Object) -> bool
    ensures step { result ≡ is_held object.now }
    ensures someone { (result ≡ true) ↔ ((e : Id) × (holds object.now e ≡ true)) }
{
    is_one_left(object)
}
