// A set of attempts. Most are the first of an object that has a low serial of a low owner: tables tell of those.

ghost use Rattle.std.specs.Prelude.{◌≡◌, ◌<◌, ◌==◌, ◌&&◌, ◌||◌, ◌+◌, ◌*◌, ℕ, OnErr, OnOk, false, length, true};
ghost use Rattle.std.specs.List.{list_any};
ghost use Rattle.ids.specs.Attempts.{Attempt, same_attempt};
ghost use Rattle.meaning.specs.Births.{same_id};
ghost use Rattle.meaning.specs.Values.{Id};
ghost use Rattle.report_lines.specs.Sets.{can_be_marked, has, is_low, is_low_marked, is_marked, is_set, low_place, row_of};

use ids::{AttemptId, ObjectId};
use indexmap::IndexSet;
use sequence::Seq;
use std::alloc::{AllocError, Global};

/// Objects of higher owners have no mark in a table.
const MOST_OWNERS: u32 = 4096;
/// Those of higher serials have none.
const MOST_SERIALS: u64 = 16_777_216;
/// A row is lengthened by so many marks at most for one attempt, so that few attempts don't take much memory.
const MOST_ADDED: usize = 256;

/// Of each owner so many objects, those of the lowest serials, are marked in one table for all: a row for each owner would want memory of its own.
const LOW_SERIALS: u64 = 8;
/// For how many marks of such objects there is room from the start.
const LOW_MARKS: usize = 512;

/// A set of attempts.
#[derive(Drop)]
pub struct AttemptSet {
    /// By owner, eight places for each, and serial below eight: whether the object's attempt 0 was added there.
    lows: Seq<bool>,
    /// By owner and serial: whether the object's attempt 0 was added there.
    firsts: Seq<Seq<bool>>,
    /// The attempts that were not added there.
    others: IndexSet<AttemptId>,
}

fn is_set(row: &Seq<bool>, place: usize) -> bool
    ensures { result ≡ is_set row.now place }
{
    if place >= row.len() {
        return false;
    }
    *row.get(place)
}

fn is_marked(rows: &Seq<Seq<bool>>, object: ObjectId) -> bool
    ensures { result ≡ is_marked rows.now object }
{
    let owner = object.owner.0 as usize;
    if owner >= rows.len() {
        return false;
    }
    is_set(rows.get(owner), object.serial as usize)
}

fn can_be_marked(object: ObjectId) -> bool
    ensures { result ≡ can_be_marked object }
{
    object.owner.0 < MOST_OWNERS && object.serial < MOST_SERIALS
}

/// Whether the object is one of its owner's lowest, and the owner low enough for the table of those.
fn is_low(object: ObjectId) -> bool
    ensures { result ≡ is_low object }
{
    object.owner.0 < MOST_OWNERS && object.serial < LOW_SERIALS
}

/// The place in their table of an object with so low a serial.
fn low_place(object: ObjectId) -> usize
    requires { object.serial < 8 }
    ensures { result ≡ low_place object }
{
    object.owner.0 as usize * LOW_SERIALS as usize + object.serial as usize
}

fn is_low_marked(lows: &Seq<bool>, object: ObjectId) -> bool
    ensures { result ≡ is_low_marked lows.now object }
{
    if object.serial >= LOW_SERIALS {
        return false;
    }
    is_set(lows, low_place(object))
}

/// How long the owner's row is.
fn row_len(rows: &Seq<Seq<bool>>, owner: usize) -> usize {
    if owner >= rows.len() {
        return 0;
    }
    rows.get(owner).len()
}

/// Whether the object is to be marked in the table: its row has its place, or comes close to it.
fn is_near(rows: &Seq<Seq<bool>>, object: ObjectId) -> bool
    ensures { result ≡ true → can_be_marked object ≡ true }
{
    if !can_be_marked(object) {
        return false;
    }
    let len = row_len(rows, object.owner.0 as usize);
    let serial = object.serial as usize;
    serial < len || serial - len < MOST_ADDED
}

/// The row goes up to that place. On an error it may be longer than it was, and nothing more is set in it.
fn lengthen_row(row: &mut Seq<bool>, place: usize) -> Result<(), AllocError>
    requires { place < 16777216 }
    ensures long { OnOk result (place < length row.new) }
    ensures kept { (n : ℕ) → is_set row.new n ≡ is_set row.old n }
{
    let len = row.len();
    for at in len..place + 1 {
        let _ = at;
        row.push(false)?;
    }
    Ok(())
}

/// There is a row for each owner up to that one.
fn lengthen(rows: &mut Seq<Seq<bool>>, owner: usize) -> Result<(), AllocError>
    requires { owner < 4096 }
    ensures long { OnOk result (owner < length rows.new) }
    ensures kept { (i : ℕ) → row_of rows.new i ≡ row_of rows.old i }
{
    let alloc = *rows.items.allocator();
    let len = rows.len();
    for at in len..owner + 1 {
        let _ = at;
        rows.push(Seq::new(alloc))?;
    }
    Ok(())
}

fn set_in(row: &mut Seq<bool>, place: usize) -> Result<(), AllocError>
    requires { place < 16777216 }
    ensures done { OnOk result ((n : ℕ) → is_set row.new n ≡ (is_set row.old n || (n == place))) }
    ensures err { OnErr result ((n : ℕ) → is_set row.new n ≡ is_set row.old n) }
{
    lengthen_row(row, place)?;
    row.set(place, true);
    Ok(())
}

fn mark_at(rows: &mut Seq<Seq<bool>>, owner: usize, serial: usize) -> Result<(), AllocError>
    requires owner { owner < length rows.old }
    requires serial { serial < 16777216 }
    ensures done { OnOk result ((i n : ℕ) → is_set (row_of rows.new i) n ≡ (is_set (row_of rows.old i) n || ((i == owner) && (n == serial)))) }
    ensures err { OnErr result ((i n : ℕ) → is_set (row_of rows.new i) n ≡ is_set (row_of rows.old i) n) }
{
    let row = &mut rows.items[owner];
    set_in(row, serial)
}

#[tactic(auto, unfolding(meaning::specs::Births::same_id))]
fn mark(rows: &mut Seq<Seq<bool>>, object: ObjectId) -> Result<(), AllocError>
    requires { can_be_marked object ≡ true }
    ensures done { OnOk result ((o : Id) → is_marked rows.new o ≡ (is_marked rows.old o || same_id o object)) }
    ensures err { OnErr result ((o : Id) → is_marked rows.new o ≡ is_marked rows.old o) }
{
    let owner = object.owner.0 as usize;
    lengthen(rows, owner)?;
    mark_at(rows, owner, object.serial as usize)
}

fn mark_low(lows: &mut Seq<bool>, object: ObjectId) -> Result<(), AllocError>
    requires { is_low object ≡ true }
    ensures done { OnOk result ((o : Id) → is_low_marked lows.new o ≡ (is_low_marked lows.old o || same_id o object)) }
    ensures err { OnErr result ((o : Id) → is_low_marked lows.new o ≡ is_low_marked lows.old o) }
{
    set_in(lows, low_place(object))
}

/// Whether the attempt is the first of an object that one of the tables has.
fn is_first_marked(lows: &Seq<bool>, rows: &Seq<Seq<bool>>, attempt: AttemptId) -> bool
    ensures { result ≡ ((attempt.number == 0) && (is_low_marked lows.now attempt.object || is_marked rows.now attempt.object)) }
{
    attempt.number == 0 && (is_low_marked(lows, attempt.object) || is_marked(rows, attempt.object))
}

#[tactic(auto, unfolding(ids::specs::Attempts::same_attempt, meaning::specs::Births::same_id))]
fn is_among(attempts: &IndexSet<AttemptId>, attempt: AttemptId) -> bool
    ensures { result ≡ list_any (λ a. same_attempt attempt a) attempts.now.keys }
{
    attempts.contains(&attempt)
}

impl AttemptSet {
    /// The empty set.
    pub fn new(alloc: Global) -> AttemptSet
        ensures { (a : Attempt) → has result a ≡ false }
    {
        let mut lows = Seq::new(alloc);
        let _ = lows.items.reserve(LOW_MARKS);
        AttemptSet {
            lows,
            firsts: Seq::new(alloc),
            others: IndexSet::new(alloc),
        }
    }

    /// Adds an attempt. An error is want of memory, and then the set is what it was.
    #[tactic(auto, unfolding(ids::specs::Attempts::same_attempt, meaning::specs::Births::same_id))]
    pub fn add(&mut self, attempt: AttemptId) -> Result<(), AllocError>
        ensures done { OnOk result ((a : Attempt) → has self.new a ≡ (has self.old a || same_attempt a attempt)) }
        ensures err { OnErr result ((a : Attempt) → has self.new a ≡ has self.old a) }
    {
        if attempt.number == 0 && is_low(attempt.object) {
            return mark_low(&mut self.lows, attempt.object);
        }
        if attempt.number == 0 && is_near(&self.firsts, attempt.object) {
            return mark(&mut self.firsts, attempt.object);
        }
        self.others.insert(attempt)?;
        Ok(())
    }

    /// Whether the attempt is in the set.
    pub fn has(&self, attempt: AttemptId) -> bool
        ensures { result ≡ has self.now attempt }
    {
        if is_first_marked(&self.lows, &self.firsts, attempt) {
            return true;
        }
        is_among(&self.others, attempt)
    }
}
