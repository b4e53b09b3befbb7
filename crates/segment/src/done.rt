// Jobs that were run, with what was done on them, and what is true of that.

ghost use Rattle.std.specs.Prelude.{◌≡◌, IfSome};
ghost use Rattle.evaluation.specs.Pieces.{piece_of};
ghost use Rattle.segment.specs.Jobs.{IsTrueOf, HasStepsOf};
ghost use Rattle.segment.specs.Frames.{WaitsAfter};
ghost use Rattle.segment.specs.Pieces.{done_of, outcomes_in};

use crate::job::Job;
use crate::script_name::ScriptName;
use boxed_value::Boxed;
use evaluation::{Frame, Piece};
use held::{Outcomes, Printed, SharedBirth, Stopped};
use std::marker::Model;

/// A job that was run, and the plain parts of what was done on it.
#[derive(Drop)]
pub struct DoneParts<S: ScriptName> {
    /// The job as it was given out.
    pub job: Job<S>,
    /// What the attempt bore and printed beyond what the job had, and where it stopped: at a get that has no answer yet, or at the task's end.
    pub outcomes: Boxed<Outcomes>,
}

/// A job of the script `S` that was run, and what was done on it. It is true of its job: the job's births and prints
/// with these after them, and the stop, are what the job's task does on the job's answers. Its frame, if it has one, is where the task
/// waits for its next answer. What was done stands behind a pointer, so that it is handed on at the cost of a few words.
#[derive(Drop)]
pub struct Done<S: ScriptName> {
    job: Job<S>,
    piece: Piece,
}

impl<S: ScriptName> Model for Done<S> {
    ghost use Rattle.std.specs.Coded.{codes};
    ghost use Rattle.held.specs.Codes.{birth_code, outcome_code, value_code};
    ghost use Rattle.std.specs.Prelude.{IfSome};
    ghost use Rattle.segment.specs.Jobs.{Done, IsTrueOf, HasStepsOf};
    ghost use Rattle.segment.specs.Frames.{WaitsAfter};
    ghost use Rattle.segment.specs.Pieces.{done_of, outcomes_in};

    ghost Value = { Done };

    ghost coded = { Prim.hlevel (codes, birth_code, value_code, outcome_code) };

    ghost view = { λ d. done_of d.job d.piece };

    ghost invariant = { λ d. IsTrueOf S.script (done_of d.job d.piece)
        × IfSome d.piece.frame (λ f. WaitsAfter S.script (done_of d.job d.piece) f.value) × HasStepsOf S.script d.job d.piece.steps };
}

impl<S: ScriptName> Done<S> {
    /// The job with what was done on it.
    pub(crate) fn new(job: Job<S>, piece: Piece) -> Done<S>
        requires is_true { IsTrueOf S.script (done_of job piece) }
        requires waits { IfSome piece.frame (λ f. WaitsAfter S.script (done_of job piece) f.value) }
        requires counts { HasStepsOf S.script job piece.steps }
        ensures { result ≡ done_of job piece }
    {
        Done { job, piece }
    }

    /// The job that was run.
    pub fn job(&self) -> &Job<S>
        ensures value { result.now ≡ self.now.job }
        ensures is_true { IsTrueOf S.script self.now }
    {
        &self.job
    }

    /// What the attempt bore beyond what the job had.
    pub fn births(&self) -> &[SharedBirth]
        ensures { result.now ≡ self.now.births }
    {
        self.piece.outcomes.births.as_slice()
    }

    /// What the attempt printed beyond what the job had.
    pub fn prints(&self) -> &[Printed]
        ensures { result.now ≡ self.now.prints }
    {
        self.piece.outcomes.prints.as_slice()
    }

    /// Where the job stopped: at a get of an object for which there was no answer left, or at the task's end.
    pub fn stop(&self) -> &Stopped
        ensures { result.now ≡ self.now.stop }
    {
        &self.piece.outcomes.stop
    }

    /// How many steps the attempt began since its last stop: statements, and expressions but for parentheses, each when it begins. The last stop
    /// was at the get of the last of the job's answers; where it has none, all are counted. At 2^64 - 1 the count stays. Takes no memory.
    pub fn steps(&self) -> u64
        ensures { HasStepsOf S.script self.now.job result }
    {
        self.piece.steps
    }

    /// Takes the frame from which the task goes on, if there is one, and leaves the rest as it is.
    pub fn take_frame(&mut self) -> Option<Box<Frame>>
        ensures waits { IfSome result (λ f. WaitsAfter S.script self.old f.value) }
        ensures same { self.new ≡ self.old }
    {
        self.piece.frame.take()
    }

    /// The job, and what was done on it.
    pub fn into_parts(self) -> DoneParts<S>
        ensures job { result.job ≡ self.job }
        ensures outcomes { result.outcomes ≡ outcomes_in self }
        ensures is_true { IsTrueOf S.script self }
    {
        let Done { job, piece } = self;
        let Piece {
            outcomes,
            frame: _,
            steps: _,
        } = piece;
        DoneParts { job, outcomes }
    }
}
