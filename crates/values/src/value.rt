// The values of a run, and the ids that stand in one.

ghost use Rattle.std.specs.Prelude.{◌≡◌, IfOk, OnErr, OnOk, ◌&&◌, ◌==◌, [], ◌∷◌};
ghost use Rattle.std.specs.List.{list_any};
ghost use Rattle.values.specs.Values.{value_of};
ghost use Rattle.values.specs.Listed.{ids_listed, adding};

use ids::ObjectId;
use std::alloc::{AllocError, Global};

/// A value of a run: a number, a list, or a reference as the id of its object.
#[derive(Drop)]
pub enum RunValue {
    /// A 64-bit signed integer.
    Int(i64),
    /// At most 4,096 values, where a script made it.
    List(Vec<RunValue>),
    /// A reference, as the id of its object.
    Id(ObjectId),
}

impl RunValue {
    /// An equal value.
    pub fn copy(&self, alloc: Global) -> Result<RunValue, AllocError>
        ensures { IfOk result (λ r. value_of r ≡ value_of self.now) }
    {
        match self {
            RunValue::Int(n) => Ok(RunValue::Int(*n)),
            RunValue::Id(o) => Ok(RunValue::Id(*o)),
            RunValue::List(items) => {
                let mut copies = Vec::new(alloc);
                for item in items {
                    copies.push(item.copy(alloc)?)?;
                }
                Ok(RunValue::List(copies))
            }
        }
    }
}

/// Whether the object is one of these.
fn is_among(objects: &[ObjectId], object: ObjectId) -> bool
    ensures { result ≡ list_any (λ o. (o.owner == object.owner) && (o.serial == object.serial)) objects.now }
{
    objects.iter().any(|o| o.owner.0 == object.owner.0 && o.serial == object.serial)
}

/// Adds the object at the end, unless it is there already. On an error none is left.
fn add(found: &mut Vec<ObjectId>, object: ObjectId) -> Result<(), AllocError>
    ensures done { OnOk result (found.new.items ≡ adding found.old.items (object ∷ [])) }
    ensures err { OnErr result (found.new.items ≡ []) }
{
    if is_among(found.as_slice(), object) {
        return Ok(());
    }
    match found.push(object) {
        Ok(()) => Ok(()),
        Err(error) => {
            found.clear();
            Err(error.into())
        }
    }
}

/// Adds the ids that stand in a value, in order of first place, but for those that are there already. An error is want of memory, and then
/// none is left.
pub fn add_ids(value: &RunValue, found: &mut Vec<ObjectId>) -> Result<(), AllocError>
    ensures done { OnOk result (found.new.items ≡ adding found.old.items (ids_listed (value_of value.now))) }
    ensures err { OnErr result (found.new.items ≡ []) }
{
    match value {
        RunValue::Int(_) => Ok(()),
        RunValue::Id(object) => add(found, *object),
        RunValue::List(items) => {
            for item in items {
                add_ids(item, found)?;
            }
            Ok(())
        }
    }
}
