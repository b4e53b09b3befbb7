// Where the frames of attempts that wait are kept, one for each worker at most, and handed to their next jobs.

ghost use Rattle.std.specs.Prelude.{◌≡◌, ◌%◌, [], IfOk, IfSome};
ghost use Rattle.script_check.specs.Trees.{script_of};
ghost use Rattle.segment.specs.Jobs.{IsTrueOf};
ghost use Rattle.kept_frames.specs.Known.{AllAgree, IsNext, KeepsOnly, KeepsOr, KeepsWith};
ghost use Rattle.kept_frames.specs.Views.{data_of};

use crate::known::{Known, known_after};
use crate::waiting::{Ready, Waiting};
use ids::ObjectId;
use segment::{Compiled, Done, Job, NoMemory, ScriptName};
use std::alloc::Global;
use std::marker::Model;
use std::mem;

/// How many frames are kept at most: as many as a run has workers.
const PLACES: u32 = 1024;
/// For how many of them there is room from the start: a list that grows is copied.
const ROOM: usize = 64;

/// Frames of attempts of the script `S` that wait for an answer, at most 1,024. An attempt's place is its worker's number by 1,024; the last
/// frame of a place stays. A worker runs one attempt at a time, so an attempt that goes on keeps its frame.
#[derive(Drop)]
pub struct Frames<S: ScriptName> {
    waiting: Vec<Option<Waiting<S>>>,
}

impl<S: ScriptName> Model for Frames<S> {
    ghost use Rattle.std.specs.Prelude.{List, Option};
    ghost use Rattle.std.specs.Coded.{codes};
    ghost use Rattle.held.specs.Codes.{birth_code, outcome_code};
    ghost use Rattle.kept_frames.specs.Known.{KnownData};

    ghost Value = { List (Option KnownData) };

    ghost coded = { Prim.hlevel (codes, birth_code, outcome_code) };

    ghost view = { λ f. f.waiting.items };
}

/// The place of an attempt by the id of its first own birth, whose owner is its worker.
fn place_of(base: ObjectId) -> usize
    ensures { result ≡ base.owner % 1024 }
{
    (base.owner.0 % PLACES) as usize
}

impl<S: ScriptName> Frames<S> {
    /// None yet. There is room for those of the first 64 workers where there is memory for it.
    pub fn new(alloc: Global) -> Frames<S>
        ensures { result ≡ [] }
    {
        let mut waiting = Vec::new(alloc);
        let _ = waiting.reserve(ROOM);
        Frames { waiting }
    }

    /// Hands the job the frame of its attempt, if that is kept.
    fn hand(&mut self, job: Job<S>) -> Ready<S>
        requires { AllAgree self.old job }
        ensures job { result.job ≡ job }
        ensures known { IfSome result.known (λ known. IsNext (data_of known.value) job) }
        ensures kept { KeepsWith job self.old self.new }
    {
        let place = place_of(job.base());
        if place >= self.waiting.len() {
            return Ready { job, known: None };
        }
        match self.waiting[place].take() {
            Some(waiting) => waiting.hand(job),
            None => Ready { job, known: None },
        }
    }

    /// Makes room for the place, where there is memory for it.
    fn make_room(&mut self, place: usize)
        ensures { KeepsOnly self.old self.new }
    {
        for _ in 0..PLACES {
            if self.waiting.len() > place {
                break;
            }
            if self.waiting.push(None).is_err() {
                return;
            }
        }
    }

    /// Keeps the attempt at its place, if there is room, and gives back what isn't kept any more.
    #[tactic(auto, using(crate::proofs::Places::put_so))]
    fn fill(&mut self, place: usize, waiting: Waiting<S>) -> Option<Waiting<S>>
        ensures { KeepsOr waiting self.old self.new }
    {
        if place >= self.waiting.len() {
            return Some(waiting);
        }
        mem::replace(&mut self.waiting[place], Some(waiting))
    }

    /// Keeps the attempt at its place. Where there is no memory for it, it isn't kept.
    fn put(&mut self, place: usize, waiting: Waiting<S>)
        ensures { KeepsOr waiting self.old self.new }
    {
        self.make_room(place);
        let _ = self.fill(place, waiting);
    }

    /// Keeps the frame of what was done, if it has one.
    #[tactic(auto, using(crate::proofs::Fitting::waits_after))]
    fn keep(&mut self, alloc: Global, known: Option<Box<Known>>, done: &mut Done<S>)
        requires { IfSome known (λ known. IsNext (data_of known.value) done.old.job) }
        ensures done { done.new ≡ done.old }
        ensures kept { KeepsWith done.old.job self.old self.new }
    {
        let Some(frame) = done.take_frame() else {
            return;
        };
        let place = place_of(done.job().base());
        if let Some(known) = known_after(alloc, known, done) {
            self.put(place, Waiting::new(known, frame));
        }
    }

    /// Runs the job, from where its attempt waits if that is known, and keeps where it waits next. Takes no lock. On `NoMemory` the job is
    /// given up. Its answers go on from those that are known of its attempt, as they do if job and frames are of one run: they aren't read, and the
    /// cost doesn't grow with them.
    pub fn run(
        &mut self,
        alloc: Global,
        script: &Compiled,
        job: Job<S>,
    ) -> Result<Done<S>, NoMemory>
        requires script { script_of script.now ≡ S.script }
        requires own { AllAgree self.old job }
        ensures own { IfOk result (λ d. d.job ≡ job) }
        ensures is_true { IfOk result (λ d. IsTrueOf S.script d) }
        ensures kept { KeepsWith job self.old self.new }
    {
        let Ready { job, known } = self.hand(job);
        let mut done = job.run(alloc, script)?;
        self.keep(alloc, known, &mut done);
        Ok(done)
    }
}
