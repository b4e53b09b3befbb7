// Of a place that isn't at fault, or of a line that isn't there, nothing is told below a refusal: the program asks for no such place.

use crate::checks::failed::{Checked, wants};
use refusal_reasons::{ListKind, refused_line, script_reason};
use std::alloc::Global;

/// Whether nothing is told of these bytes of a text whose bytes 26 to 31 are of another type than its place asks for.
fn is_untold(alloc: Global, code: u16, start: usize, end: usize) -> bool {
    let text = b"fn main() -> int { return put 1; }".as_slice();
    script_reason(alloc, text, code, start, end).is_none()
}

/// Nothing is told of places at no fault.
pub fn nothing_is_told_of_other_places(alloc: Global) -> Checked {
    wants(is_untold(alloc, 11, 26, 30), "a place that ends too early")?;
    wants(is_untold(alloc, 12, 26, 31), "a number of another fault")?;
    wants(is_untold(alloc, 3, 26, 29), "a number of the grammar")?;
    wants(
        refused_line(ListKind::Plan, b"1 join\n", 9).is_none(),
        "a line behind the last",
    )
}
