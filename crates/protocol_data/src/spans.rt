// Bounds of objects, which tell what surely isn't among some.

ghost use Rattle.std.specs.Prelude.{◌≤◌, IsTrue};
ghost use Rattle.meaning.specs.Values.{Id};
ghost use Rattle.protocol_data.specs.Shelves.{IsWithin};

use ids::ObjectId;

/// Bounds of objects' owners and serials.
#[derive(Clone, Copy)]
pub struct Span {
    /// No object has a lesser owner.
    pub first_owner: u32,
    /// No object has a greater owner.
    pub last_owner: u32,
    /// No object has a lesser serial, whoever owns it.
    pub first_serial: u64,
    /// No object has a greater serial, whoever owns it.
    pub last_serial: u64,
}

/// Bounds that no object is within, so that those of one more are its own.
pub fn no_span() -> Span {
    Span {
        first_owner: u32::MAX,
        last_owner: 0,
        first_serial: u64::MAX,
        last_serial: 0,
    }
}

/// Whether the object is surely not within the bounds.
pub fn is_outside(span: &Span, object: ObjectId) -> bool
    ensures { IsTrue result → IsWithin span.now object → ⊥ }
{
    if object.serial < span.first_serial {
        return true;
    }
    if span.last_serial < object.serial {
        return true;
    }
    if object.owner.0 < span.first_owner {
        return true;
    }
    span.last_owner < object.owner.0
}

/// Bounds that have the object too.
pub fn widened(span: &Span, object: ObjectId) -> Span
    ensures has { IsWithin result object }
    ensures kept { (o : Id) → IsWithin span.now o → IsWithin result o }
{
    let (first_owner, last_owner) = wide_owners(span.first_owner, span.last_owner, object.owner.0);
    let (first_serial, last_serial) = wide_serials(
        span.first_serial,
        span.last_serial,
        object.serial,
    );
    Span {
        first_owner,
        last_owner,
        first_serial,
        last_serial,
    }
}

fn wide_owners(first: u32, last: u32, owner: u32) -> (u32, u32)
    ensures first { (result.0 ≤ first) × (result.0 ≤ owner) }
    ensures last { (last ≤ result.1) × (owner ≤ result.1) }
{
    let low = if owner < first { owner } else { first };
    let high = if last < owner { owner } else { last };
    (low, high)
}

fn wide_serials(first: u64, last: u64, serial: u64) -> (u64, u64)
    ensures first { (result.0 ≤ first) × (result.0 ≤ serial) }
    ensures last { (last ≤ result.1) × (serial ≤ result.1) }
{
    let low = if serial < first { serial } else { first };
    let high = if last < serial { serial } else { last };
    (low, high)
}
