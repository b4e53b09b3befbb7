// The ids in a content.

use crate::checks::failed::{Checked, wants};
use ids::{ObjectId, WorkerId};
use std::alloc::Global;
use values::{Content, RunValue, Trap, ids_in};

fn object(owner: u32, serial: u64) -> ObjectId {
    ObjectId {
        owner: WorkerId(owner),
        serial,
    }
}

/// The ids of a content come in the order of their first places, each once.
pub fn ids_come_in_order_each_once(alloc: Global) -> Checked {
    let inner = vec![in alloc; RunValue::Id(object(2, 1)), RunValue::Id(object(1, 3))]?;
    let items = vec![in alloc;
        RunValue::Id(object(1, 3)),
        RunValue::Int(5),
        RunValue::List(inner),
        RunValue::Id(object(1, 2)),
        RunValue::Id(object(2, 1)),
    ]?;
    let content = Content::Value(RunValue::List(items));
    let copied = content.copy(alloc)?;
    let found = ids_in(&copied, alloc)?;
    wants(
        found.as_slice() == [object(1, 3), object(2, 1), object(1, 2)].as_slice(),
        "the ids of a list in a list",
    )?;
    let none = ids_in(&Content::Trap(Trap::Loop), alloc)?;
    wants(none.is_empty(), "a trap has ids")
}
