// The workers of a node that may be given again, with marks of those that may be among them.

ghost use Rattle.std.specs.Prelude.{◌≡◌, ◌<◌, ◌||◌, ◌==◌, ◌∷◌, ◌++◌, [], ℕ, IfOk, OnErr, OnOk, false, if◌then◌else◌, length, nat_lt, not, slice_get, true};
ghost use Rattle.std.specs.List.{filter, list_any};
ghost use Rattle.protocol_data.specs.Idle.{AreNoted, is_up, may_be_listed};

use ids::WorkerId;
use sequence::Seq;
use std::alloc::{AllocError, Global};
use std::marker::Model;

/// Workers of higher numbers have no mark.
const MOST_WORKERS: u32 = 4096;

/// Whether the worker may be idle.
fn may_be_listed(marks: &Seq<bool>, worker: WorkerId) -> bool
    ensures { result ≡ may_be_listed marks.now worker }
{
    if worker.0 >= MOST_WORKERS {
        return true;
    }
    let place = worker.0 as usize;
    if place >= marks.len() {
        return false;
    }
    *marks.get(place)
}

/// There is a mark for each worker up to that one.
fn lengthen(marks: &mut Seq<bool>, worker: usize) -> Result<(), AllocError>
    requires { worker < 4096 }
    ensures long { OnOk result (worker < length marks.new) }
    ensures kept { (i : ℕ) → is_up (slice_get marks.new i) ≡ is_up (slice_get marks.old i) }
{
    let len = marks.len();
    for at in len..worker + 1 {
        let _ = at;
        marks.push(false)?;
    }
    Ok(())
}

/// The worker is marked; those marked before stay so.
#[tactic(auto, using(crate::proofs::Idle::marked_there, crate::proofs::Idle::kept_there))]
fn mark(marks: &mut Seq<bool>, worker: WorkerId) -> Result<(), AllocError>
    ensures marked { OnOk result (may_be_listed marks.new worker ≡ true) }
    ensures kept { (v : ℕ) → may_be_listed marks.old v ≡ true → may_be_listed marks.new v ≡ true }
{
    if worker.0 >= MOST_WORKERS {
        return Ok(());
    }
    let place = worker.0 as usize;
    lengthen(marks, place)?;
    marks.set(place, true);
    Ok(())
}

/// The worker is marked no more; any other that was stays so.
#[tactic(auto, using(crate::proofs::Idle::others_kept))]
fn unmark(marks: &mut Seq<bool>, worker: WorkerId)
    ensures { (v : ℕ) → (v == worker) ≡ false → may_be_listed marks.old v ≡ true → may_be_listed marks.new v ≡ true }
{
    let place = worker.0 as usize;
    if place < marks.len() {
        marks.set(place, false);
    }
}

/// Workers, each once, in the order in which they came, which contracts see as the list of them.
///
/// Beside them stand marks of all that are among them, so that a worker that isn't, as most that are asked for aren't, is known without a look at the list.
#[derive(Drop, Debug)]
pub struct IdleWorkers {
    rows: Seq<WorkerId>,
    marks: Seq<bool>,
}

impl Model for IdleWorkers {
    ghost use Rattle.std.specs.Prelude.{List, ℕ};
    ghost use Rattle.protocol_data.specs.Idle.{AreNoted};

    ghost Value = { List ℕ };

    ghost view = { λ w. w.rows };

    ghost invariant = { λ w. AreNoted w.marks w.rows };
}

/// Whether the worker is one of these.
fn is_among(rows: &Seq<WorkerId>, worker: WorkerId) -> bool
    ensures { result ≡ list_any (λ v. v == worker) rows.now }
{
    rows.items.iter().any(|v| v.is(worker))
}

/// The same, by the marks first.
fn is_listed(marks: &Seq<bool>, rows: &Seq<WorkerId>, worker: WorkerId) -> bool
    requires { AreNoted marks.now rows.now }
    ensures { result ≡ list_any (λ v. v == worker) rows.now }
{
    if !may_be_listed(marks, worker) {
        return false;
    }
    is_among(rows, worker)
}

/// Takes the worker out.
fn take_out(rows: &mut Seq<WorkerId>, worker: WorkerId)
    ensures { rows.new ≡ filter (λ v. not (v == worker)) rows.old }
{
    rows.items.retain(|v| !v.is(worker));
}

impl IdleWorkers {
    /// None yet.
    pub fn new(alloc: Global) -> IdleWorkers
        ensures { result ≡ [] }
    {
        IdleWorkers {
            rows: Seq::new(alloc),
            marks: Seq::new(alloc),
        }
    }

    /// The workers, in order.
    pub fn rows(&self) -> &Seq<WorkerId>
        ensures { result.now ≡ self.now }
    {
        &self.rows
    }

    /// Adds the worker, unless it is there. An error is want of memory for a worker that isn't there yet, and nothing is added then.
    pub fn add(&mut self, worker: WorkerId) -> Result<(), AllocError>
        ensures ok { OnOk result (self.new ≡ (if list_any (λ v. v == worker) self.old then self.old else self.old ++ worker ∷ [])) }
        ensures err { OnErr result (self.new ≡ self.old) }
        ensures grows { OnErr result (list_any (λ v. v == worker) self.old ≡ false) }
    {
        if is_listed(&self.marks, &self.rows, worker) {
            return Ok(());
        }
        mark(&mut self.marks, worker)?;
        self.rows.push(worker)?;
        Ok(())
    }

    /// Takes the worker out.
    pub fn remove(&mut self, worker: WorkerId)
        ensures { self.new ≡ filter (λ v. not (v == worker)) self.old }
    {
        if !may_be_listed(&self.marks, worker) {
            return;
        }
        unmark(&mut self.marks, worker);
        take_out(&mut self.rows, worker);
    }

    /// The same workers, in memory of their own. An error is want of memory.
    pub fn copy(&self, alloc: Global) -> Result<IdleWorkers, AllocError>
        ensures { IfOk result (λ w. w ≡ self.now) }
    {
        let rows = self.rows.copy(alloc)?;
        let marks = self.marks.copy(alloc)?;
        Ok(IdleWorkers { rows, marks })
    }
}
