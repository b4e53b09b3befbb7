// Flags in blocks, of which those with a flag up are marked.

ghost use Rattle.std.specs.Prelude.{ℕ, Bool, List, ◌≡◌, ◌<◌, ◌≤◌, ◌∷◌, ◌++◌, [], OnErr, OnOk, Some, false, true, length, slice_get, slice_set};
ghost use Rattle.flags.specs.Blocks.{AreDown, IsSummedUp, NoneIsUp};

use sequence::Seq;
use std::alloc::{AllocError, Global};
use std::marker::Model;

/// So many flags are a block.
const FLAGS_OF_A_BLOCK: usize = 16;

/// Flags by place, which contracts see as a list of truth values.
///
/// Beside them stands which blocks of 16 are marked. A block with a flag up is; so a search for the next flag passes over any other in one look.
#[derive(Drop)]
pub(crate) struct Blocks {
    flags: Seq<bool>,
    blocks: Seq<bool>,
}

impl Model for Blocks {
    ghost use Rattle.std.specs.Prelude.{Bool, List};
    ghost use Rattle.flags.specs.Blocks.{IsSummedUp};

    ghost Value = { List Bool };

    ghost view = { λ f. f.flags };

    ghost invariant = { λ f. IsSummedUp f.flags f.blocks };
}

fn take_last(flags: &mut Seq<bool>)
    ensures taken { (xs : List Bool) (b : Bool) → flags.old ≡ xs ++ b ∷ [] → flags.new ≡ xs }
    ensures kept { (i : ℕ) (b : Bool) → slice_get flags.new i ≡ Some b → slice_get flags.old i ≡ Some b }
    ensures shorter { length flags.new ≤ length flags.old }
{
    let _ = flags.items.pop();
}

/// Whether a flag is up in the block in which the place is.
fn is_any_up(flags: &Seq<bool>, place: usize) -> bool
    ensures { result ≡ false → NoneIsUp flags.now place }
{
    let first = place - place % FLAGS_OF_A_BLOCK;
    let end = flags.len().min(first.saturating_add(FLAGS_OF_A_BLOCK));
    for other in first..end {
        if *flags.get(other) {
            return true;
        }
    }
    false
}

/// The first place from that one on to before `count` whose flag is up, where the blocks are marked; or `count`, or that place if it is more.
fn next_up(flags: &Seq<bool>, blocks: &Seq<bool>, from: usize, count: usize) -> usize
    requires marked { IsSummedUp flags.now blocks.now }
    requires count { count ≤ length flags.now }
    ensures on { from ≤ result }
    ensures down { AreDown flags.now from result }
    ensures up { result < count → slice_get flags.now result ≡ Some true }
{
    let mut place = from;
    for turn in from..count {
        let _ = turn;
        if place >= count {
            return place;
        }
        if *blocks.get(place / FLAGS_OF_A_BLOCK) {
            if *flags.get(place) {
                return place;
            }
            place = place + 1;
            continue;
        }
        let first = place - place % FLAGS_OF_A_BLOCK;
        if count - first <= FLAGS_OF_A_BLOCK {
            return count;
        }
        place = first + FLAGS_OF_A_BLOCK;
    }
    place
}

impl Blocks {
    /// None yet.
    pub fn new(alloc: Global) -> Blocks
        ensures { result ≡ [] }
    {
        Blocks {
            flags: Seq::new(alloc),
            blocks: Seq::new(alloc),
        }
    }

    /// How many flags there are.
    pub fn len(&self) -> usize
        ensures { result ≡ length self.now }
    {
        self.flags.len()
    }

    /// Adds a flag at the end, which is down. On an error, which is want of memory, they are as they were.
    pub fn push(&mut self) -> Result<(), AllocError>
        ensures ok { OnOk result (self.new ≡ self.old ++ false ∷ []) }
        ensures err { OnErr result (self.new ≡ self.old) }
    {
        let count = self.flags.len();
        self.flags.items.reserve(1)?;
        if self.blocks.len() <= count / FLAGS_OF_A_BLOCK {
            self.blocks.push(false)?;
        }
        self.flags.items.push_reserved(false);
        Ok(())
    }

    /// Takes the last flag out again. Its block may stay.
    pub fn remove_last(&mut self)
        ensures kept { (i : ℕ) (b : Bool) → slice_get self.new i ≡ Some b → slice_get self.old i ≡ Some b }
        ensures taken { (xs : List Bool) (b : Bool) → self.old ≡ xs ++ b ∷ [] → self.new ≡ xs }
    {
        take_last(&mut self.flags);
    }

    /// Whether the flag at the place is up.
    pub fn is_up(&self, place: usize) -> bool
        requires { place < length self.now }
        ensures { slice_get self.now place ≡ Some result }
    {
        *self.flags.get(place)
    }

    /// Raises or lowers the flag at the place. A block stays marked as its flag is lowered: see `sum_up`.
    pub fn set(&mut self, place: usize, is_up: bool)
        requires { place < length self.old }
        ensures { self.new ≡ slice_set self.old place is_up }
    {
        if is_up {
            self.blocks.set(place / FLAGS_OF_A_BLOCK, true);
        }
        self.flags.set(place, is_up);
    }

    /// Takes the mark from the block in which the place is, where none of its flags is up.
    pub fn sum_up(&mut self, place: usize)
        ensures { self.new ≡ self.old }
    {
        let block = place / FLAGS_OF_A_BLOCK;
        if block < self.blocks.len() && *self.blocks.get(block) && !is_any_up(&self.flags, place) {
            self.blocks.set(block, false);
        }
    }

    /// The first place from that one on to before `count` whose flag is up; where there is none, `count`, or that place if it is more.
    pub fn next(&self, from: usize, count: usize) -> usize
        requires { count ≤ length self.now }
        ensures on { from ≤ result }
        ensures down { AreDown self.now from result }
        ensures up { result < count → slice_get self.now result ≡ Some true }
    {
        next_up(&self.flags, &self.blocks, from, count)
    }
}
