//! Flags by place, and the next one that is up.
#![tactic(auto)]

mod blocks;

ghost use Rattle.std.specs.Prelude.{Bool, List, ◌≡◌, ◌≤◌, ◌<◌, ◌∷◌, ◌++◌, [], OnErr, OnOk, Some, length, slice_get, slice_set, true};
ghost use Rattle.flags.specs.Blocks.{AreDown, AreWithin};

use crate::blocks::Blocks;
use std::alloc::{AllocError, Global};
use std::marker::Model;

/// Flags by place, counted from 0, which contracts see as a list of truth values.
///
/// A search for the next one looks at no block of 16 in which none is up, and at no place before the first that may be up or behind the last: where one
/// is up at a time, it is found at once.
#[derive(Drop)]
pub struct Flags {
    blocks: Blocks,
    /// No flag before this place is up.
    first: usize,
    /// No flag from this place on is up.
    end: usize,
}

impl Model for Flags {
    ghost use Rattle.std.specs.Prelude.{Bool, List};
    ghost use Rattle.flags.specs.Blocks.{AreWithin};

    ghost Value = { List Bool };

    ghost view = { λ f. f.blocks };

    ghost invariant = { λ f. AreWithin f.blocks f.first f.end };
}

impl Flags {
    /// None yet.
    pub fn new(alloc: Global) -> Flags
        ensures { result ≡ [] }
    {
        Flags {
            blocks: Blocks::new(alloc),
            first: 0,
            end: 0,
        }
    }

    /// How many flags there are.
    pub fn len(&self) -> usize
        ensures { result ≡ length self.now }
    {
        self.blocks.len()
    }

    /// Adds a flag at the end. On an error, which is want of memory, they are as they were.
    #[tactic(auto, using(crate::proofs::Windows::added_down, crate::proofs::Windows::one_longer, crate::proofs::Windows::set_added))]
    pub fn push(&mut self, is_up: bool) -> Result<(), AllocError>
        ensures ok { OnOk result (self.new ≡ self.old ++ is_up ∷ []) }
        ensures err { OnErr result (self.new ≡ self.old) }
    {
        let count = self.blocks.len();
        self.blocks.push()?;
        if is_up {
            self.set(count, true);
        }
        Ok(())
    }

    /// Takes the last flag out again.
    pub fn remove_last(&mut self)
        ensures { (xs : List Bool) (b : Bool) → self.old ≡ xs ++ b ∷ [] → self.new ≡ xs }
    {
        self.blocks.remove_last();
    }

    /// Raises or lowers the flag at the place. A block stays marked as its flag is lowered: see `sum_up`.
    #[tactic(auto, using(crate::proofs::Windows::set_as_is))]
    pub fn set(&mut self, place: usize, is_up: bool)
        requires { place < length self.old }
        ensures { self.new ≡ slice_set self.old place is_up }
    {
        if self.blocks.is_up(place) == is_up {
            return;
        }
        let behind = self.blocks.len().min(place + 1);
        self.blocks.set(place, is_up);
        if is_up {
            if self.first >= self.end {
                self.first = place;
                self.end = behind;
            } else if place < self.first {
                self.first = place;
            } else if place >= self.end {
                self.end = behind;
            }
        } else if place == self.first {
            self.first = behind;
        } else if behind == self.end {
            self.end = place;
        }
    }

    /// Takes the mark from the block in which the place is, where none of its flags is up.
    pub fn sum_up(&mut self, place: usize)
        ensures { self.new ≡ self.old }
    {
        self.blocks.sum_up(place);
    }

    /// The first place from that one on whose flag is up; where there is none, how many flags there are, or that place if it is more.
    pub fn next(&self, from: usize) -> usize
        ensures on { from ≤ result }
        ensures down { AreDown self.now from result }
        ensures up { result < length self.now → slice_get self.now result ≡ Some true }
    {
        let count = self.blocks.len();
        let last = self.end.min(count);
        let place = self.blocks.next(from.max(self.first), last);
        if place < last {
            return place;
        }
        from.max(count)
    }
}
