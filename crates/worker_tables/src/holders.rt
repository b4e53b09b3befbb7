// Which holders of an object a worker owns.

ghost use Rattle.std.specs.Prelude.{◌≡◌, ◌==◌, IfOk};
ghost use Rattle.contexts.specs.of_protocol.Tables.{holders_of};

use contexts::protocol_data::Object;
use ids::{ObjectId, WorkerId};
use number_lists::has_object;
use sequence::Seq;
use std::alloc::{AllocError, Global};

/// The holders of the object that the worker owns.
pub fn holders_of(
    alloc: Global,
    object: &Object,
    worker: WorkerId,
) -> Result<Seq<ObjectId>, AllocError>
    ensures { IfOk result (λ holders. holders ≡ holders_of worker object.now) }
{
    let mut holders = Seq::new(alloc);
    for holder in object.added.as_slice() {
        if holder.owned_by(worker) && !has_object(&object.removed, *holder) {
            holders.push(*holder)?;
        }
    }
    Ok(holders)
}
