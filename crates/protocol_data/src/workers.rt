// The workers of a run, with an index of those that may have something to claim or to commit.

ghost use Rattle.std.specs.Prelude.{ℕ, ◌≡◌, ◌++◌, ◌∷◌, [], ◌<◌, ◌≤◌, OnErr, OnOk, Some, false, length, slice_get, slice_set, true};
ghost use Rattle.protocol_data.specs.Going.{AreAtRest, AreMarked, HaveNoneOut, has_going, has_out, is_going, is_out, may_commit, may_go};
ghost use Rattle.protocol_data.specs.declared.tables.Worker.{Worker};

use crate::tables::{Execution, Phase, Worker};
use boxed_value::Boxed;
use flags::Flags;
use sequence::Seq;
use std::alloc::{AllocError, Global};
use std::marker::Model;
use std::mem;

/// Whether the attempt may be given out, or its job is out.
fn is_going(phase: &Phase) -> bool
    ensures { result ≡ is_going phase.now }
{
    match phase {
        Phase::Ready => true,
        Phase::Out(_) => true,
        Phase::Waits(..) => false,
        Phase::HasEnded(_) => false,
        Phase::HasFaulted(_) => false,
    }
}

fn has_going(run: &Option<Execution>) -> bool
    ensures { result ≡ has_going run.now }
{
    match run {
        None => false,
        Some(run) => is_going(&run.phase),
    }
}

/// Whether the attempt's job is out.
fn is_out(phase: &Phase) -> bool
    ensures { result ≡ is_out phase.now }
{
    match phase {
        Phase::Out(_) => true,
        Phase::Ready => false,
        Phase::Waits(..) => false,
        Phase::HasEnded(_) => false,
        Phase::HasFaulted(_) => false,
    }
}

fn has_out(run: &Option<Execution>) -> bool
    ensures { result ≡ has_out run.now }
{
    match run {
        None => false,
        Some(run) => is_out(&run.phase),
    }
}

/// Whether the worker lives and its job is out.
fn may_commit(worker: &Worker) -> bool
    ensures { result ≡ may_commit worker.now }
{
    worker.is_live && has_out(&worker.run)
}

/// Whether the worker lives and may have something to claim or to commit.
fn may_go(worker: &Worker) -> bool
    ensures { result ≡ may_go worker.now }
{
    worker.is_live && has_going(&worker.run)
}

/// The worker changes places with the one that stands at that place.
fn exchange(rows: &mut Seq<Boxed<Worker>>, place: usize, worker: &mut Boxed<Worker>)
    requires { place < length rows.old }
    ensures taken { slice_get rows.old place ≡ Some worker.new }
    ensures put { rows.new ≡ slice_set rows.old place worker.old }
{
    mem::swap(&mut rows.items[place], worker);
}

/// The worker at the place doesn't live any more.
fn kill(rows: &mut Seq<Boxed<Worker>>, place: usize)
    requires { place < length rows.old }
    ensures { (x : Worker) → slice_get rows.old place ≡ Some x → rows.new ≡ slice_set rows.old place (record x { is_live = false }) }
{
    let worker = &mut rows.items[place];
    worker.is_live = false;
}

/// Marks the place where the worker that comes to it is so.
fn mark(marks: &mut Flags, place: usize, is_so: bool)
    requires { place < length marks.old }
    ensures marked { is_so ≡ true → slice_get marks.new place ≡ Some true }
    ensures kept { (i : ℕ) → slice_get marks.old i ≡ Some true → slice_get marks.new i ≡ Some true }
    ensures len { length marks.new ≡ length marks.old }
{
    if is_so {
        marks.set(place, true);
    }
}

/// The first place from that one on whose worker may have something to claim or to commit; or how many workers there are, or that place if it is more.
/// The marks say which may: those of others are passed over.
fn next_going(rows: &Seq<Boxed<Worker>>, marks: &Flags, from: usize) -> usize
    requires { AreMarked may_go marks.now rows.now }
    ensures on { from ≤ result }
    ensures rest { AreAtRest rows.now from result }
    ensures goes { (x : Worker) → slice_get rows.now result ≡ Some x → may_go x ≡ true }
{
    let mut place = marks.next(from);
    for turn in from..rows.len() {
        let _ = turn;
        if place >= rows.len() {
            return place;
        }
        if may_go(rows.get(place)) {
            return place;
        }
        place = marks.next(place + 1);
    }
    place
}

/// The same of the workers whose job is out.
fn next_out(rows: &Seq<Boxed<Worker>>, marks: &Flags, from: usize) -> usize
    requires { AreMarked may_commit marks.now rows.now }
    ensures on { from ≤ result }
    ensures rest { HaveNoneOut rows.now from result }
    ensures goes { (x : Worker) → slice_get rows.now result ≡ Some x → may_commit x ≡ true }
{
    let mut place = marks.next(from);
    for turn in from..rows.len() {
        let _ = turn;
        if place >= rows.len() {
            return place;
        }
        if may_commit(rows.get(place)) {
            return place;
        }
        place = marks.next(place + 1);
    }
    place
}

/// Workers by number, from 1 on, dead ones too, which contracts see as the list of them.
///
/// Beside them stand marks: whoever may have something to claim or to commit has one, and so has whose job is out, so that the choice of the next event
/// looks at no other. A worker that isn't so any more keeps its mark until it is settled.
#[derive(Drop)]
pub struct Workers {
    rows: Seq<Boxed<Worker>>,
    going: Flags,
    out: Flags,
}

impl Model for Workers {
    ghost use Rattle.std.specs.Prelude.{List};
    ghost use Rattle.std.specs.Coded.{codes};
    ghost use Rattle.ids.specs.Codes.{id_code};
    ghost use Rattle.log_entries.specs.of_held.Codes.{value_code, outcome_code, birth_code};
    ghost use Rattle.ids.specs.Codes.{attempt_code};
    ghost use Rattle.log_entries.specs.of_values.FaultCodes.{fault_code};
    ghost use Rattle.protocol_data.specs.declared.tables.Worker.{Worker};
    ghost use Rattle.protocol_data.specs.Going.{AreMarked, may_commit, may_go};

    ghost Value = { List Worker };

    ghost coded = { Prim.hlevel (codes, value_code, outcome_code, birth_code, id_code, attempt_code, fault_code) };

    ghost view = { λ w. w.rows };

    ghost invariant = { λ w. AreMarked may_go w.going w.rows × AreMarked may_commit w.out w.rows };
}

impl Workers {
    /// None yet.
    pub fn new(alloc: Global) -> Workers
        ensures { result ≡ [] }
    {
        Workers {
            rows: Seq::new(alloc),
            going: Flags::new(alloc),
            out: Flags::new(alloc),
        }
    }

    /// How many workers there are, dead ones too.
    pub fn len(&self) -> usize
        ensures { result ≡ length self.now }
    {
        self.rows.len()
    }

    /// The worker at the place, counted from 0.
    pub fn get(&self, place: usize) -> &Boxed<Worker>
        requires { place < length self.now }
        ensures { slice_get self.now place ≡ Some result.now }
    {
        self.rows.get(place)
    }

    /// The workers, in order.
    pub fn rows(&self) -> &Seq<Boxed<Worker>>
        ensures { result.now ≡ self.now }
    {
        &self.rows
    }

    /// The workers, in order, with no index.
    pub fn into_rows(self) -> Seq<Boxed<Worker>>
        ensures { result ≡ self }
    {
        self.rows
    }

    /// The first place from that one on whose worker may have something to claim or to commit; where there is none, how many workers there are, or that
    /// place if it is more.
    pub fn next(&self, from: usize) -> usize
        ensures on { from ≤ result }
        ensures rest { AreAtRest self.now from result }
        ensures goes { (x : Worker) → slice_get self.now result ≡ Some x → may_go x ≡ true }
    {
        next_going(&self.rows, &self.going, from)
    }

    /// The first place from that one on whose worker's job is out; where there is none, how many workers there are, or that place if it is more.
    pub fn next_out(&self, from: usize) -> usize
        ensures on { from ≤ result }
        ensures rest { HaveNoneOut self.now from result }
        ensures goes { (x : Worker) → slice_get self.now result ≡ Some x → may_commit x ≡ true }
    {
        next_out(&self.rows, &self.out, from)
    }

    /// Adds a worker with the next number. On an error, which is want of memory, the workers are as they were.
    pub fn push(&mut self, worker: Boxed<Worker>) -> Result<(), AllocError>
        ensures ok { OnOk result (self.new ≡ self.old ++ worker ∷ []) }
        ensures err { OnErr result (self.new ≡ self.old) }
    {
        self.rows.items.reserve(1)?;
        self.going.push(may_go(&worker))?;
        if let Err(error) = self.out.push(may_commit(&worker)) {
            self.going.remove_last();
            return Err(error);
        }
        self.rows.items.push_reserved(worker);
        Ok(())
    }

    /// The worker changes places with the one that stands at that place.
    #[inline(always)]
    pub fn exchange(&mut self, place: usize, worker: &mut Boxed<Worker>)
        requires { place < length self.old }
        ensures taken { slice_get self.old place ≡ Some worker.new }
        ensures put { self.new ≡ slice_set self.old place worker.old }
    {
        mark(&mut self.going, place, may_go(worker));
        mark(&mut self.out, place, may_commit(worker));
        exchange(&mut self.rows, place, worker);
    }

    /// The worker at the place is looked at, so that where it has nothing to claim or to commit the next search passes over it.
    #[inline(always)]
    pub fn settle(&mut self, place: usize)
        ensures { self.new ≡ self.old }
    {
        if place >= self.rows.len() {
            return;
        }
        let worker = self.rows.get(place);
        // Whose job is out has both marks.
        if may_commit(worker) {
            return;
        }
        let goes = may_go(worker);
        self.going.set(place, goes);
        self.out.set(place, false);
        self.going.sum_up(place);
    }

    /// Puts a worker in the place of the one that stands there.
    pub fn set(&mut self, place: usize, worker: Boxed<Worker>)
        requires { place < length self.old }
        ensures { self.new ≡ slice_set self.old place worker }
    {
        mark(&mut self.going, place, may_go(&worker));
        mark(&mut self.out, place, may_commit(&worker));
        self.rows.set(place, worker);
    }

    /// The worker at the place doesn't live any more.
    pub fn kill(&mut self, place: usize)
        requires { place < length self.old }
        ensures { (x : Worker) → slice_get self.old place ≡ Some x → self.new ≡ slice_set self.old place (record x { is_live = false }) }
    {
        self.going.set(place, false);
        self.out.set(place, false);
        kill(&mut self.rows, place);
    }
}
