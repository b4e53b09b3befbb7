//! A list that contracts see as a list, whatever its capacity.
#![tactic(auto)]

ghost use Rattle.std.specs.Prelude.{◌≡◌, ◌<◌, ◌↔◌, IsTrue, IfOk, OnOk, OnErr, Some, [], ◌∷◌, ◌++◌, length, slice_get, slice_set};

use std::alloc::{AllocError, Global};
use std::marker::Model;

/// A `Vec` that a contract sees as the list of its items: two with equal items are equal, whatever their capacities.
#[derive(Drop, Debug)]
pub struct Seq<T> {
    /// The items in order, with whatever capacity.
    pub items: Vec<T>,
}

impl<T> Model for Seq<T> {
    ghost use Rattle.std.specs.Prelude.{List};

    ghost Value = { List T };

    ghost view = { λ s. s.items.items };
}

/// The error of a growth that is refused, since no memory has room for so many bytes. It is answered where a number runs out that only a longer list
/// than memory holds could reach, so that want of memory is told of growths alone.
pub fn refused_growth(alloc: Global) -> AllocError {
    let mut bytes: Vec<u8> = Vec::new(alloc);
    match bytes.reserve(usize::MAX) {
        Ok(()) => unreachable!(),
        Err(error) => error,
    }
}

impl<T> Seq<T> {
    /// The empty list.
    pub fn new(alloc: Global) -> Self
        ensures { result ≡ [] }
    {
        Seq {
            items: Vec::new(alloc),
        }
    }

    /// How many items there are.
    pub fn len(&self) -> usize
        ensures { result ≡ length self.now }
    {
        self.items.len()
    }

    /// Whether there are no items.
    pub fn is_empty(&self) -> bool
        ensures { IsTrue result ↔ (self.now ≡ []) }
    {
        self.items.is_empty()
    }

    /// The item at a place, counted from 0.
    pub fn get(&self, place: usize) -> &T
        requires { place < length self.now }
        ensures { slice_get self.now place ≡ Some result.now }
    {
        &self.items[place]
    }

    /// The items as a slice, in order.
    pub fn as_slice(&self) -> &[T]
        ensures { result.now ≡ self.now }
    {
        self.items.as_slice()
    }
}

impl<T: Drop> Seq<T> {
    /// Adds an item at the end. On an error the list is as it was, and the item is gone.
    ///
    /// Where there is room the item is written there at once, with no call to which it would be handed.
    #[inline(always)]
    pub fn push(&mut self, item: T) -> Result<(), AllocError>
        ensures ok { OnOk result (self.new ≡ self.old ++ item ∷ []) }
        ensures err { OnErr result (self.new ≡ self.old) }
    {
        if self.items.len() < self.items.capacity() {
            self.items.push_reserved(item);
            return Ok(());
        }
        self.push_grown(item)
    }

    /// Adds an item at the end of a list that has no room for it.
    #[inline(never)]
    fn push_grown(&mut self, item: T) -> Result<(), AllocError>
        ensures ok { OnOk result (self.new ≡ self.old ++ item ∷ []) }
        ensures err { OnErr result (self.new ≡ self.old) }
    {
        self.items.reserve(1)?;
        self.items.push_reserved(item);
        Ok(())
    }

    /// Moves the other's items to the end; what room the other has it keeps. On an error both are as they were.
    pub fn append(&mut self, other: &mut Self) -> Result<(), AllocError>
        ensures ok { OnOk result (self.new ≡ self.old ++ other.old) }
        ensures emptied { OnOk result (other.new ≡ []) }
        ensures err { OnErr result ((self.new ≡ self.old) × (other.new ≡ other.old)) }
    {
        if other.items.len() == 1 && self.items.len() < self.items.capacity() {
            // One item is moved with no call.
            if let Some(item) = other.items.pop() {
                self.items.push_reserved(item);
            }
            return Ok(());
        }
        self.items.append(&mut other.items)?;
        Ok(())
    }

    /// Puts an item in the place of the one that stands there.
    pub fn set(&mut self, place: usize, item: T)
        requires { place < length self.old }
        ensures { self.new ≡ slice_set self.old place item }
    {
        self.items[place] = item;
    }
}

impl<T: Copy + Drop> Seq<T> {
    /// An equal list.
    pub fn copy(&self, alloc: Global) -> Result<Self, AllocError>
        ensures { IfOk result (λ other. other ≡ self.now) }
    {
        let mut other = Seq::new(alloc);
        for item in &self.items {
            other.push(*item)?;
        }
        Ok(other)
    }
}
