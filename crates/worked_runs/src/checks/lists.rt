// Lists that contracts see as lists.

use crate::checks::failed::{Checked, wants};
use sequence::Seq;
use std::alloc::Global;

/// Items are pushed, set, appended and copied, and stay in order.
pub fn items_are_kept_in_order(alloc: Global) -> Checked {
    let mut numbers = Seq::new(alloc);
    wants(numbers.is_empty(), "a new list isn't empty")?;
    numbers.push(5u32)?;
    numbers.push(7)?;
    let mut more = Seq::new(alloc);
    more.push(9)?;
    more.set(0, 8);
    numbers.append(&mut more)?;
    let copied = numbers.copy(alloc)?;
    wants(copied.len() == 3 && *copied.get(1) == 7, "the copy's items")?;
    wants(
        copied.as_slice() == [5, 7, 8].as_slice(),
        "the copy as a slice",
    )
}
