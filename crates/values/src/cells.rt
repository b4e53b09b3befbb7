// How many cells a content takes. A small one is put in no store: its owner keeps it.

ghost use Rattle.std.specs.Prelude.{◌≡◌, ◌+◌, ◌<◌, IfNone, IfSome};
ghost use Rattle.values.specs.Values.{content_of, value_of};
ghost use Rattle.values.specs.Cells.{cells, is_small};

use crate::content::Content;
use crate::value::RunValue;

/// A content of at most so many cells is small.
const MOST_SMALL: u32 = 8;

/// Of so many cells, those that are left behind one.
fn one_less(room: u32) -> Option<u32>
    ensures some { IfSome result (λ left. 1 + left ≡ room) }
    ensures none { IfNone result (room < 1) }
{
    if room == 0 {
        return None;
    }
    Some(room - 1)
}

/// Of so many cells, those that are left behind the value, or none where it takes more.
fn room_left(value: &RunValue, room: u32) -> Option<u32>
    ensures some { IfSome result (λ left. cells (value_of value.now) + left ≡ room) }
    ensures none { IfNone result (room < cells (value_of value.now)) }
{
    match value {
        RunValue::Int(_) => one_less(room),
        RunValue::Id(_) => one_less(room),
        RunValue::List(items) => {
            let Some(left) = one_less(room) else {
                return None;
            };
            let mut left = left;
            for item in items {
                let Some(behind) = room_left(item, left) else {
                    return None;
                };
                left = behind;
            }
            Some(left)
        }
    }
}

impl Content {
    /// Whether the content is small: at most 8 cells, of which an integer, an id and a trap take one each, a list one and those of its items.
    pub fn is_small(&self) -> bool
        ensures { result ≡ is_small (content_of self.now) }
    {
        match self {
            Content::Trap(_) => true,
            Content::Value(value) => room_left(value, MOST_SMALL).is_some(),
        }
    }
}
