// Lists with a number for each event.

ghost use Rattle.std.specs.Prelude.{◌≡◌, []};

use sequence::Seq;
use std::alloc::Global;

/// For how many events there is room from the start. A list that grows is copied, up to the size from which on the C library moves its pages instead, of
/// which it has none before they are written. This one is that large.
const EVENTS: usize = 16384;

/// The empty list, for a number of each event of a run. There is room for those of 16,384 events where there is memory for it.
pub fn no_numbers(alloc: Global) -> Seq<usize>
    ensures { result ≡ [] }
{
    let mut numbers = Seq::new(alloc);
    let _ = numbers.items.reserve(EVENTS);
    numbers
}
