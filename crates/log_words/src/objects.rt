// The objects that stand in a value, in order of first place.

ghost use Rattle.std.specs.Prelude.{◌≡◌, IfOk};
ghost use Rattle.values.specs.Values.{value_of};
ghost use Rattle.log_words.specs.Ids.{ids_of};

use ids::ObjectId;
use std::alloc::{AllocError, Global};
use values::{RunValue, add_ids};

/// The objects that stand in a value, in order of first place.
pub fn ids_of(alloc: Global, value: &RunValue) -> Result<Vec<ObjectId>, AllocError>
    ensures { IfOk result (λ ids. ids.items ≡ ids_of (value_of value.now)) }
{
    let mut found = Vec::new(alloc);
    add_ids(value, &mut found)?;
    Ok(found)
}
