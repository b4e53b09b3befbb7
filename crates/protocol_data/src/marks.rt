// Marks of objects, by owner and serial: 0 is none, and any other is one more than a place.

ghost use Rattle.std.specs.Prelude.{◌≡◌, ◌<◌, ◌||◌, ℕ, IfOk, OnOk, length, nat_lt, not, slice_get, true};
ghost use Rattle.meaning.specs.Values.{Id};
ghost use Rattle.protocol_data.specs.Noted.{serial_or};
ghost use Rattle.protocol_data.specs.Marked.{can_be_marked, has_mark, marks_or, may_be_marked};

use ids::ObjectId;
use sequence::Seq;
use std::alloc::{AllocError, Global};

/// Owners of higher numbers have no marks.
const MOST_OWNERS: u32 = 4096;
/// Objects of higher serials have none.
const MOST_SERIALS: u64 = 16_777_216;

fn can_be_marked(object: ObjectId) -> bool
    ensures { result ≡ can_be_marked object }
{
    object.owner.0 < MOST_OWNERS && object.serial < MOST_SERIALS
}

fn mark_at(row: &Seq<u32>, place: usize) -> u32
    ensures { result ≡ serial_or (slice_get row.now place) }
{
    if place >= row.len() {
        return 0;
    }
    *row.get(place)
}

/// The object's mark.
pub fn mark_of(marks: &Seq<Seq<u32>>, object: ObjectId) -> u32
    ensures { result ≡ serial_or (slice_get (marks_or (slice_get marks.now object.owner)) object.serial) }
{
    let owner = object.owner.0 as usize;
    if owner >= marks.len() {
        return 0;
    }
    mark_at(marks.get(owner), object.serial as usize)
}

/// Whether the object, which has that mark, may have been marked.
pub fn may_be_marked(object: ObjectId, mark: u32) -> bool
    ensures { result ≡ (not (can_be_marked object) || nat_lt 0 mark) }
{
    !can_be_marked(object) || mark > 0
}

/// The row goes up to that place.
fn lengthen_row(row: &mut Seq<u32>, place: usize) -> Result<(), AllocError>
    requires { place < 16777216 }
    ensures long { OnOk result (place < length row.new) }
    ensures kept { (i : ℕ) → serial_or (slice_get row.new i) ≡ serial_or (slice_get row.old i) }
{
    let len = row.len();
    for at in len..place + 1 {
        let _ = at;
        row.push(0)?;
    }
    Ok(())
}

/// There is a row for each owner up to that one.
fn lengthen(marks: &mut Seq<Seq<u32>>, owner: usize) -> Result<(), AllocError>
    requires { owner < 4096 }
    ensures long { OnOk result (owner < length marks.new) }
    ensures kept { (i : ℕ) → marks_or (slice_get marks.new i) ≡ marks_or (slice_get marks.old i) }
{
    let alloc = *marks.items.allocator();
    let len = marks.len();
    for at in len..owner + 1 {
        let _ = at;
        marks.push(Seq::new(alloc))?;
    }
    Ok(())
}

/// The mark that names the place.
fn naming(place: usize) -> u32
    ensures { nat_lt 0 result ≡ true }
{
    if place < u32::MAX as usize {
        return place as u32 + 1;
    }
    u32::MAX
}

fn mark_in(row: &mut Seq<u32>, serial: usize, place: usize) -> Result<(), AllocError>
    requires { serial < 16777216 }
    ensures marked { OnOk result (has_mark row.new serial ≡ true) }
    ensures kept { (i : ℕ) → has_mark row.old i ≡ true → has_mark row.new i ≡ true }
{
    lengthen_row(row, serial)?;
    row.set(serial, naming(place));
    Ok(())
}

fn mark_at_owner(
    marks: &mut Seq<Seq<u32>>,
    object: ObjectId,
    place: usize,
) -> Result<(), AllocError>
    requires owner { object.owner < length marks.old }
    requires serial { object.serial < 16777216 }
    ensures marked { OnOk result (has_mark (marks_or (slice_get marks.new object.owner)) object.serial ≡ true) }
    ensures kept { (i n : ℕ) → has_mark (marks_or (slice_get marks.old i)) n ≡ true → has_mark (marks_or (slice_get marks.new i)) n ≡ true }
{
    let row = &mut marks.items[object.owner.0 as usize];
    mark_in(row, object.serial as usize, place)
}

/// Notes that the object may be found at the place; objects marked before stay so. An object that can't be marked changes nothing.
pub fn mark(marks: &mut Seq<Seq<u32>>, object: ObjectId, place: usize) -> Result<(), AllocError>
    ensures marked { OnOk result (may_be_marked marks.new object ≡ true) }
    ensures kept { (o : Id) → may_be_marked marks.old o ≡ true → may_be_marked marks.new o ≡ true }
{
    if !can_be_marked(object) {
        return Ok(());
    }
    lengthen(marks, object.owner.0 as usize)?;
    mark_at_owner(marks, object, place)
}

/// The same marks, in memory of their own. The one error is want of memory.
pub fn copy_marks(alloc: Global, marks: &Seq<Seq<u32>>) -> Result<Seq<Seq<u32>>, AllocError>
    ensures { IfOk result (λ again. again ≡ marks.now) }
{
    let mut again = Seq::new(alloc);
    for row in &marks.items {
        again.push(row.copy(alloc)?)?;
    }
    Ok(again)
}
