// The primary copies at a node, on shelves, so that a search passes over the shelves that surely have none of the object.

ghost use Rattle.std.specs.Prelude.{◌≡◌, ◌<◌, ◌+◌, ◌++◌, ◌∷◌, [], IfErr, IfOk, OnErr, OnOk, MatchOption, Some, None, length, nat_lt, ℕ};
ghost use Rattle.std.specs.List.{find};
ghost use Rattle.protocol_data.specs.Shelves.{AreShelved, AreWithin, HaveNoneBefore, copies_on, is_sought, without};

use crate::spans::{Span, is_outside, no_span, widened};
use crate::store::Copy;
use ids::ObjectId;
use sequence::Seq;
use std::alloc::{AllocError, AllocFailed, Global};
use std::marker::Model;
use std::mem;

/// So many copies stand on a shelf at most.
const MOST_ON_A_SHELF: usize = 128;

/// Copies, with bounds of the objects that they are of.
#[derive(Drop)]
pub struct Shelf {
    /// The copies, in order.
    pub rows: Seq<Copy>,
    /// Bounds of the objects that they are of.
    pub span: Span,
}

/// Whether it is a copy of the object, and of the attempt of that number where one is named.
fn is_sought(copy: &Copy, object: ObjectId, number: Option<u32>) -> bool
    ensures { result ≡ is_sought object number copy.now }
{
    match number {
        None => copy.object.is(object),
        Some(n) => copy.object.is(object) && copy.number == n,
    }
}

fn find_row(copies: &Seq<Copy>, object: ObjectId, number: Option<u32>) -> Option<&Copy>
    ensures { MatchOption result (find (is_sought object number) copies.now ≡ None) (λ x. find (is_sought object number) copies.now ≡ Some x.now) }
{
    for copy in &copies.items {
        if is_sought(copy, object, number) {
            return Some(copy);
        }
    }
    None
}

fn find_here(shelf: &Shelf, object: ObjectId, number: Option<u32>) -> Option<&Copy>
    requires { AreWithin shelf.now.span shelf.now.rows }
    ensures { MatchOption result (find (is_sought object number) shelf.now.rows ≡ None) (λ x. find (is_sought object number) shelf.now.rows ≡ Some x.now) }
{
    if is_outside(&shelf.span, object) {
        return None;
    }
    find_row(&shelf.rows, object, number)
}

fn find_on(shelves: &Seq<Shelf>, object: ObjectId, number: Option<u32>) -> Option<&Copy>
    requires { AreShelved shelves.now }
    ensures { MatchOption result
        (find (is_sought object number) (copies_on shelves.now) ≡ None)
        (λ x. find (is_sought object number) (copies_on shelves.now) ≡ Some x.now) }
{
    for shelf in &shelves.items {
        if let Some(copy) = find_here(shelf, object, number) {
            return Some(copy);
        }
    }
    None
}

fn take_rows(copies: &mut Seq<Copy>, object: ObjectId, number: Option<u32>)
    ensures { copies.new ≡ without object number copies.old }
{
    copies.items.retain(|x| !is_sought(x, object, number));
}

fn take_here(shelf: &mut Shelf, object: ObjectId, number: Option<u32>)
    ensures rows { AreWithin shelf.old.span shelf.old.rows → shelf.new.rows ≡ without object number shelf.old.rows }
    ensures span { shelf.new.span ≡ shelf.old.span }
{
    if is_outside(&shelf.span, object) {
        return;
    }
    take_rows(&mut shelf.rows, object, number);
}

/// Takes them out of the shelf at the place.
fn take_at(shelves: &mut Seq<Shelf>, place: usize, object: ObjectId, number: Option<u32>)
    requires place_in { place < length shelves.old }
    requires shelved { AreShelved shelves.old }
    ensures shelved { AreShelved shelves.new }
    ensures length { length shelves.new ≡ length shelves.old }
    ensures none { (n : ℕ) → n ≡ place → HaveNoneBefore object number n shelves.old → HaveNoneBefore object number (n + 1) shelves.new }
    ensures others { without object number (copies_on shelves.new) ≡ without object number (copies_on shelves.old) }
{
    let shelf = &mut shelves.items[place];
    take_here(shelf, object, number);
}

fn take_on(shelves: &mut Seq<Shelf>, object: ObjectId, number: Option<u32>)
    requires { AreShelved shelves.old }
    ensures rows { copies_on shelves.new ≡ without object number (copies_on shelves.old) }
    ensures shelved { AreShelved shelves.new }
{
    for place in 0..shelves.len() {
        take_at(shelves, place, object, number);
    }
}

fn empty_shelf(alloc: Global) -> Shelf
    ensures { result.rows ≡ [] }
{
    Shelf {
        rows: Seq::new(alloc),
        span: no_span(),
    }
}

fn has_rows(shelf: &Shelf) -> bool
    ensures { result ≡ nat_lt 0 (length shelf.now.rows) }
{
    shelf.rows.len() > 0
}

/// The shelves that have copies stay.
fn drop_empty(shelves: &mut Seq<Shelf>)
    ensures rows { copies_on shelves.new ≡ copies_on shelves.old }
    ensures shelved { AreShelved shelves.old → AreShelved shelves.new }
{
    shelves.items.retain(|s| has_rows(s));
}

/// Puts the shelf behind the others. Where memory lacks for it, it comes back.
fn push_shelf(shelves: &mut Seq<Shelf>, shelf: Shelf) -> Result<(), AllocFailed<Shelf>>
    ensures ok { OnOk result (shelves.new ≡ shelves.old ++ shelf ∷ []) }
    ensures err { OnErr result (shelves.new ≡ shelves.old) }
    ensures back { IfErr result (λ failed. failed.value ≡ shelf) }
{
    shelves.items.push(shelf)
}

/// Where the last shelf is full it stands behind the others, and an empty one is the last. The copies stay.
fn make_room(shelves: &mut Seq<Shelf>, last: &mut Shelf) -> Result<(), AllocError>
    ensures rows { copies_on shelves.new ++ last.new.rows ≡ copies_on shelves.old ++ last.old.rows }
    ensures shelved { AreShelved shelves.old → AreWithin last.old.span last.old.rows → AreShelved shelves.new × AreWithin last.new.span last.new.rows }
{
    if last.rows.len() < MOST_ON_A_SHELF {
        return Ok(());
    }
    let empty = empty_shelf(*last.rows.items.allocator());
    let full = mem::replace(last, empty);
    drop_empty(shelves);
    match push_shelf(shelves, full) {
        Ok(()) => Ok(()),
        Err(failed) => {
            *last = failed.value;
            Err(AllocError)
        }
    }
}

fn put_here(shelf: &mut Shelf, copy: Copy) -> Result<(), AllocError>
    ensures ok { OnOk result (shelf.new.rows ≡ shelf.old.rows ++ copy ∷ []) }
    ensures err { OnErr result (shelf.new.rows ≡ shelf.old.rows) }
    ensures within { AreWithin shelf.old.span shelf.old.rows → AreWithin shelf.new.span shelf.new.rows }
{
    shelf.span = widened(&shelf.span, copy.object);
    shelf.rows.push(copy)?;
    Ok(())
}

/// Adds an equal copy at the end, unless it is sought.
fn push_other(
    alloc: Global,
    others: &mut Seq<Copy>,
    copy: &Copy,
    object: ObjectId,
    number: Option<u32>,
) -> Result<(), AllocError>
    ensures { OnOk result (others.new ≡ others.old ++ without object number (copy.now ∷ [])) }
{
    if is_sought(copy, object, number) {
        return Ok(());
    }
    others.push(copy.again(alloc)?)?;
    Ok(())
}

/// Equal copies of those that are not sought.
fn copy_others(
    copies: &Seq<Copy>,
    object: ObjectId,
    number: Option<u32>,
) -> Result<Seq<Copy>, AllocError>
    ensures { IfOk result (λ xs. xs ≡ without object number copies.now) }
{
    let alloc = *copies.items.allocator();
    let mut others = Seq::new(alloc);
    for copy in &copies.items {
        push_other(alloc, &mut others, copy, object, number)?;
    }
    Ok(others)
}

/// Puts the copy at the end, in place of those of the same object and number.
fn put_last(shelf: &mut Shelf, copy: Copy) -> Result<(), AllocError>
    requires { AreWithin shelf.old.span shelf.old.rows }
    ensures ok { OnOk result (shelf.new.rows ≡ without copy.object (Some copy.number) shelf.old.rows ++ copy ∷ []) }
    ensures err { OnErr result (shelf.new.rows ≡ shelf.old.rows) }
    ensures within { AreWithin shelf.new.span shelf.new.rows }
{
    let Some(_) = find_here(shelf, copy.object, Some(copy.number)) else {
        put_here(shelf, copy)?;
        return Ok(());
    };
    let span = widened(&shelf.span, copy.object);
    // Nothing is taken out before all that wants memory is done.
    let mut rows = copy_others(&shelf.rows, copy.object, Some(copy.number))?;
    rows.push(copy)?;
    shelf.rows = rows;
    shelf.span = span;
    Ok(())
}

fn copy_rows(alloc: Global, copies: &Seq<Copy>) -> Result<Seq<Copy>, AllocError>
    ensures { IfOk result (λ xs. xs ≡ copies.now) }
{
    let mut again = Seq::new(alloc);
    for copy in &copies.items {
        again.push(copy.again(alloc)?)?;
    }
    Ok(again)
}

fn copy_shelf(alloc: Global, shelf: &Shelf) -> Result<Shelf, AllocError>
    ensures { IfOk result (λ s. s ≡ shelf.now) }
{
    let rows = copy_rows(alloc, &shelf.rows)?;
    Ok(Shelf {
        rows,
        span: shelf.span,
    })
}

fn copy_shelves(alloc: Global, shelves: &Seq<Shelf>) -> Result<Seq<Shelf>, AllocError>
    ensures { IfOk result (λ xs. xs ≡ shelves.now) }
{
    let mut again = Seq::new(alloc);
    for shelf in &shelves.items {
        again.push(copy_shelf(alloc, shelf)?)?;
    }
    Ok(again)
}

/// Copies, in order. Contracts see the list.
///
/// They stand on shelves, each with bounds of the objects that its copies are of: a search passes over the shelves that surely have none.
#[derive(Drop)]
pub struct Copies {
    shelves: Seq<Shelf>,
    last: Shelf,
}

impl Model for Copies {
    ghost use Rattle.std.specs.Prelude.{List, ◌++◌};
    ghost use Rattle.std.specs.Coded.{codes};
    ghost use Rattle.ids.specs.Codes.{id_code};
    ghost use Rattle.log_entries.specs.of_held.Codes.{outcome_code};
    ghost use Rattle.protocol_data.specs.declared.store.Copy.{Copy};

    ghost Value = { List Copy };

    ghost coded = { Prim.hlevel (codes, outcome_code, id_code) };

    ghost use Rattle.protocol_data.specs.Shelves.{AreShelved, AreWithin, copies_on};

    ghost view = { λ c. copies_on c.shelves ++ c.last.rows };

    ghost invariant = { λ c. AreShelved c.shelves × AreWithin c.last.span c.last.rows };
}

impl Copies {
    /// No copies.
    pub fn new(alloc: Global) -> Self
        ensures { result ≡ [] }
    {
        Copies {
            shelves: Seq::new(alloc),
            last: empty_shelf(alloc),
        }
    }

    /// The first copy of the object, and of the attempt of that number where one is named.
    pub fn find(&self, object: ObjectId, number: Option<u32>) -> Option<&Copy>
        ensures { MatchOption result (find (is_sought object number) self.now ≡ None) (λ x. find (is_sought object number) self.now ≡ Some x.now) }
    {
        if let Some(copy) = find_on(&self.shelves, object, number) {
            return Some(copy);
        }
        find_here(&self.last, object, number)
    }

    /// Takes out the copies of the object, and of the attempt of that number where one is named.
    pub fn take_out(&mut self, object: ObjectId, number: Option<u32>)
        ensures { self.new ≡ without object number self.old }
    {
        take_on(&mut self.shelves, object, number);
        take_here(&mut self.last, object, number);
    }

    /// Puts a copy at the end, in place of those of the same object and number. An error is want of memory, and leaves the copies as they were.
    pub fn put(&mut self, copy: Copy) -> Result<(), AllocError>
        ensures ok { OnOk result (self.new ≡ without copy.object (Some copy.number) self.old ++ copy ∷ []) }
        ensures err { OnErr result (self.new ≡ self.old) }
    {
        let (object, number) = (copy.object, copy.number);
        make_room(&mut self.shelves, &mut self.last)?;
        put_last(&mut self.last, copy)?;
        take_on(&mut self.shelves, object, Some(number));
        Ok(())
    }

    /// An equal list. An error is want of memory.
    pub fn copy(&self, alloc: Global) -> Result<Copies, AllocError>
        ensures { IfOk result (λ c. c ≡ self.now) }
    {
        let shelves = copy_shelves(alloc, &self.shelves)?;
        let last = copy_shelf(alloc, &self.last)?;
        Ok(Copies { shelves, last })
    }
}
