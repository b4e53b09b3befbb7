// The order of ids.

use crate::checks::failed::{Checked, wants};
use ids::{AttemptId, ObjectId, WorkerId};

fn object(owner: u32, serial: u64) -> ObjectId {
    ObjectId {
        owner: WorkerId(owner),
        serial,
    }
}

fn attempt(owner: u32, serial: u64, number: u32) -> AttemptId {
    AttemptId {
        object: object(owner, serial),
        number,
    }
}

/// Ids are ordered by their fields, in the order in which these are declared.
pub fn ids_are_ordered_by_their_fields() -> Checked {
    wants(object(2, 1) < object(3, 0), "objects by their owners")?;
    wants(object(3, 1) < object(3, 2), "objects of one owner")?;
    wants(
        attempt(1, 2, 9) < attempt(1, 3, 0) && attempt(1, 3, 0) < attempt(1, 3, 1),
        "attempts by their objects, and then by their numbers",
    )
}
