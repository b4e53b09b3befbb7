// The attempts that a worker ever began, with an index that tells what it surely never began.

ghost use Rattle.std.specs.Prelude.{◌≡◌, ◌&&◌, ◌==◌, ◌++◌, ◌∷◌, [], IfOk, OnErr, OnOk, nat_lt, true};
ghost use Rattle.std.specs.List.{list_any};
ghost use Rattle.event_log.specs.Words.{same_attempt};
ghost use Rattle.meaning.specs.Values.{Id};
ghost use Rattle.protocol_data.specs.Noted.{AreBounded, bounds, may_be_noted};

use ids::{AttemptId, ObjectId};
use log_entries::SmallList;
use std::alloc::{AllocError, Global};
use std::marker::Model;

/// Whether the object is of the bound's owner, and doesn't come behind it.
fn bounds(bound: ObjectId, object: ObjectId) -> bool
    ensures { result ≡ bounds object bound }
{
    bound.owner.0 == object.owner.0 && bound.serial >= object.serial
}

/// Whether the object may have been noted.
fn may_be_noted(all: &SmallList<ObjectId>, object: ObjectId) -> bool
    ensures { result ≡ may_be_noted all.now object }
{
    all.as_slice().iter().any(|b| bounds(*b, object))
}

/// Whether the object is of the bound's owner, and comes behind it.
fn is_behind(bound: ObjectId, object: ObjectId) -> bool
    ensures { result ≡ ((bound.owner == object.owner) && nat_lt bound.serial object.serial) }
{
    bound.owner.0 == object.owner.0 && bound.serial < object.serial
}

/// Raises the bound of the object's owner, so that the object is one of those that may have been noted; those noted before stay so.
#[tactic(auto, using(crate::proofs::Bounds::noted_at, crate::proofs::Bounds::kept_at, crate::proofs::Bounds::noted_last, crate::proofs::Bounds::kept_last))]
fn note(all: &mut SmallList<ObjectId>, object: ObjectId) -> Result<(), AllocError>
    ensures noted { OnOk result (may_be_noted all.new object ≡ true) }
    ensures kept { (o : Id) → may_be_noted all.old o ≡ true → may_be_noted all.new o ≡ true }
{
    for place in 0..all.len() {
        let bound = *all.get(place);
        if bounds(bound, object) {
            return Ok(());
        }
        if is_behind(bound, object) {
            all.set(place, object);
            return Ok(());
        }
    }
    all.push(object)
}

fn made_object(attempt: AttemptId) -> ObjectId
    ensures { result ≡ attempt.object }
{
    attempt.object
}

fn has_attempt(rows: &SmallList<AttemptId>, attempt: AttemptId) -> bool
    ensures { result ≡ list_any (λ b. same_attempt b attempt) rows.now }
{
    rows.as_slice().iter().any(|b| b.is(attempt))
}

/// Whether the attempt is one of them.
fn has_bounded(rows: &SmallList<AttemptId>, all: &SmallList<ObjectId>, attempt: AttemptId) -> bool
    requires { AreBounded all.now rows.now }
    ensures { result ≡ list_any (λ b. same_attempt b attempt) rows.now }
{
    let object = made_object(attempt);
    if !may_be_noted(all, object) {
        return false;
    }
    has_attempt(rows, attempt)
}

/// Attempts, in order. Contracts see the list. Beside it stands of each owner the object of highest serial among them, by which an attempt that is new, as
/// most are, is known to be.
#[derive(Drop, Debug)]
pub struct Attempts {
    rows: SmallList<AttemptId>,
    bounds: SmallList<ObjectId>,
}

impl Model for Attempts {
    ghost use Rattle.std.specs.Prelude.{List};
    ghost use Rattle.std.specs.Coded.{codes};
    ghost use Rattle.ids.specs.Codes.{id_code};
    ghost use Rattle.ids.specs.Codes.{attempt_code};
    ghost use Rattle.event_log.specs.Entries.{Attempt};

    ghost Value = { List Attempt };

    ghost coded = { Prim.hlevel (codes, id_code, attempt_code) };

    ghost use Rattle.protocol_data.specs.Noted.{AreBounded};

    ghost view = { λ a. a.rows };

    ghost invariant = { λ a. AreBounded a.bounds a.rows };
}

impl Attempts {
    /// No attempt was noted yet.
    pub fn new(alloc: Global) -> Self
        ensures { result ≡ [] }
    {
        Attempts {
            rows: SmallList::new(alloc),
            bounds: SmallList::new(alloc),
        }
    }

    /// Whether the attempt is one of them.
    pub fn has(&self, attempt: AttemptId) -> bool
        ensures { result ≡ list_any (λ b. same_attempt b attempt) self.now }
    {
        has_bounded(&self.rows, &self.bounds, attempt)
    }

    /// Adds the attempt at the end. On an error, which is want of memory, the list is as it was.
    pub fn push(&mut self, attempt: AttemptId) -> Result<(), AllocError>
        ensures ok { OnOk result (self.new ≡ self.old ++ attempt ∷ []) }
        ensures err { OnErr result (self.new ≡ self.old) }
    {
        let object = made_object(attempt);
        note(&mut self.bounds, object)?;
        self.rows.push(attempt)?;
        Ok(())
    }

    /// An equal list. An error is want of memory.
    pub fn copy(&self, alloc: Global) -> Result<Attempts, AllocError>
        ensures { IfOk result (λ a. a ≡ self.now) }
    {
        let rows = self.rows.copy(alloc)?;
        let bounds = self.bounds.copy(alloc)?;
        Ok(Attempts { rows, bounds })
    }
}
