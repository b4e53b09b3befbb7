// Whether a write would lose a file.

ghost use Rattle.std.specs.Prelude.{◌<◌, length, MatchOption};
ghost use Rattle.raysim_files.specs.Clashes.{AreOne, IsFirstClash, NoneBefore, NoneClashes};

use crate::place::{FilePlace, is_one_file};

/// Two names of one file, by their places in a list of names, counted from 0: the later one is to be written to.
#[derive(Clone, Copy, Debug, PartialEq, Eq)]
pub struct Clash {
    /// The first name that stands for the file.
    pub earlier: usize,
    /// The name that is to be written to, which would lose what the earlier one has.
    pub later: usize,
}

/// The first name that stands for the same file as the one at `later`, if it stands before it.
fn earlier_name(places: &[FilePlace<'_>], later: usize) -> Option<usize>
    requires { later < length places.now }
    ensures { MatchOption result (NoneBefore places.now later later)
        (λ earlier. (earlier < later) × AreOne places.now earlier later × NoneBefore places.now earlier later) }
{
    for earlier in 0..later {
        if is_one_file(&places[earlier], &places[later]) {
            return Some(earlier);
        }
    }
    None
}

/// The first name that is to be written to although an earlier name stands for the same file, with the first such earlier name. The first `kept`
/// names are none that are to be written to.
pub fn first_clash(places: &[FilePlace<'_>], kept: usize) -> Option<Clash>
    ensures { MatchOption result (NoneClashes places.now kept (length places.now)) (IsFirstClash places.now kept) }
{
    for later in kept..places.len() {
        if let Some(earlier) = earlier_name(places, later) {
            return Some(Clash { earlier, later });
        }
    }
    None
}
