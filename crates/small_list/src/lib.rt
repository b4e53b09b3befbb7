//! A list that contracts see as a list, and that needs no memory of its own while it has one item at most.
#![tactic(auto)]

ghost use Rattle.std.specs.Prelude.{◌≡◌, ◌<◌, ◌∷◌, ◌++◌, [], IfOk, OnOk, OnErr, Some, length, slice_get, slice_set, take};
ghost use Rattle.std.specs.Mem.{FitsInMemory};

use std::alloc::{AllocError, Global};
use std::marker::Model;
use std::{mem, slice};

/// The one item, or the items in a piece of memory of their own.
#[derive(Drop, Debug)]
enum Items<T> {
    One(T, Global),
    Many(Vec<T>),
}

/// A list that contracts see as the list of its items. Of most lists in a worker's tables the items are one or none: that one stands in the list itself.
#[derive(Drop, Debug)]
pub struct SmallList<T> {
    items: Items<T>,
}

impl<T> Model for SmallList<T> {
    ghost use Rattle.std.specs.Prelude.{List};
    ghost use Rattle.small_list.specs.Items.{items_of};

    ghost Value = { List T };

    ghost view = { λ l. items_of l.items };
}

impl<T> SmallList<T> {
    /// The empty list.
    pub fn new(alloc: Global) -> Self
        ensures { result ≡ [] }
    {
        SmallList {
            items: Items::Many(Vec::new(alloc)),
        }
    }

    /// The list of that item.
    pub fn one(alloc: Global, item: T) -> Self
        ensures { result ≡ item ∷ [] }
    {
        SmallList {
            items: Items::One(item, alloc),
        }
    }

    /// The list of these items, which stay where they are.
    pub fn from_vec(items: Vec<T>) -> Self
        ensures { result ≡ items.items }
    {
        SmallList {
            items: Items::Many(items),
        }
    }

    /// How many items there are.
    pub fn len(&self) -> usize
        ensures { result ≡ length self.now }
    {
        match &self.items {
            Items::One(..) => 1,
            Items::Many(items) => items.len(),
        }
    }

    /// The item at a place, counted from 0.
    pub fn get(&self, place: usize) -> &T
        requires { place < length self.now }
        ensures { slice_get self.now place ≡ Some result.now }
    {
        match &self.items {
            Items::One(item, _) => item,
            Items::Many(items) => &items[place],
        }
    }

    /// The items, in order.
    pub fn as_slice(&self) -> &[T]
        requires { FitsInMemory T.row }
        ensures { result.now ≡ self.now }
    {
        match &self.items {
            Items::One(item, _) => slice::from_ref(item),
            Items::Many(items) => items.as_slice(),
        }
    }
}

impl<T: Drop> SmallList<T> {
    /// Adds an item at the end. On an error, which is want of memory, the list is as it was, and the item is gone.
    pub fn push(&mut self, item: T) -> Result<(), AllocError>
        ensures ok { OnOk result (self.new ≡ self.old ++ item ∷ []) }
        ensures err { OnErr result (self.new ≡ self.old) }
    {
        match &mut self.items {
            Items::One(_, alloc) => {
                let alloc = *alloc;
                let mut items = Vec::new(alloc);
                items.reserve(2)?;
                let first = mem::replace(&mut self.items, Items::Many(Vec::new(alloc)));
                match first {
                    Items::One(first, _) => items.push_reserved(first),
                    Items::Many(_) => unreachable!(),
                }
                items.push_reserved(item);
                self.items = Items::Many(items);
                Ok(())
            }
            Items::Many(items) => {
                if items.capacity() == 0 {
                    let alloc = *items.allocator();
                    self.items = Items::One(item, alloc);
                    return Ok(());
                }
                items.reserve(1)?;
                items.push_reserved(item);
                Ok(())
            }
        }
    }

    /// Puts an item in the place of the one that stands there.
    pub fn set(&mut self, place: usize, item: T)
        requires { place < length self.old }
        ensures { self.new ≡ slice_set self.old place item }
    {
        match &mut self.items {
            Items::One(only, _) => *only = item,
            Items::Many(items) => items[place] = item,
        }
    }
}

impl<T: Copy + Drop> SmallList<T> {
    /// The list of these items. An error is want of memory.
    pub fn of(alloc: Global, items: &[T]) -> Result<Self, AllocError>
        ensures { IfOk result (λ l. l ≡ items.now) }
    {
        if items.len() == 1 {
            return Ok(SmallList {
                items: Items::One(items[0], alloc),
            });
        }
        let mut copies = Vec::new(alloc);
        copies.reserve(items.len())?;
        for item in items {
            copies.push(*item)?;
        }
        Ok(SmallList {
            items: Items::Many(copies),
        })
    }

    /// Leaves the first items, so many or as many as there are.
    pub fn truncate(&mut self, count: usize)
        ensures { self.new ≡ take count self.old }
    {
        match &mut self.items {
            Items::One(_, alloc) => {
                if count == 0 {
                    let alloc = *alloc;
                    self.items = Items::Many(Vec::new(alloc));
                }
            }
            Items::Many(items) => items.truncate(count),
        }
    }

    /// An equal list. An error is want of memory.
    pub fn copy(&self, alloc: Global) -> Result<Self, AllocError>
        ensures { IfOk result (λ l. l ≡ self.now) }
    {
        match &self.items {
            Items::One(item, _) => Ok(SmallList {
                items: Items::One(*item, alloc),
            }),
            Items::Many(items) => SmallList::of(alloc, items.as_slice()),
        }
    }
}
