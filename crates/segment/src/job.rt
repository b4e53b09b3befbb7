// Jobs that are given out: an attempt with its answers so far, and the frame from which it goes on.

ghost use Rattle.std.specs.Prelude.{◌≡◌, IfOk};
ghost use Rattle.evaluation.specs.of_script_check.Trees.{script_of};
ghost use Rattle.segment.specs.Jobs.{IsBegun, IsTrueOf};
ghost use Rattle.segment.specs.Frames.{Fits};

use crate::done::Done;
use crate::runs::run_on;
use crate::script_name::ScriptName;
use evaluation::{Compiled, Frame, NoMemory, PieceError};
use held::{Answers, Births, JobParts, Prints, SharedBirth};
use ids::{AttemptId, ObjectId};
use script_laws::law::checked_scripts_are_safe;
use std::alloc::Global;
use std::marker::{Model, PhantomData};

/// An attempt of a task of the script `S`, to be run up to the next answer that it needs. Its births and prints so far
/// begin what its task does on its answers so far, and arguments and answers are of the kinds that the script asks for. Its frame, if it
/// has one, is where its own task waits for the last of its answers. Both stand behind pointers, so that a job is handed on at the cost of
/// a few words.
#[derive(Drop)]
pub struct Job<S: ScriptName> {
    parts: Box<JobParts>,
    frame: Option<Box<Frame>>,
    script: PhantomData<S>,
}

impl<S: ScriptName> Model for Job<S> {
    ghost use Rattle.std.specs.Coded.{codes};
    ghost use Rattle.held.specs.Codes.{birth_code, outcome_code, value_code};
    ghost use Rattle.std.specs.Prelude.{IfSome};
    ghost use Rattle.segment.specs.Jobs.{JobParts, IsBegun};
    ghost use Rattle.segment.specs.Frames.{Fits};

    ghost Value = { JobParts };

    ghost coded = { Prim.hlevel (codes, birth_code, value_code, outcome_code) };

    ghost view = { λ j. j.parts.value };

    ghost invariant = { λ j. IsBegun S.script j.parts.value × IfSome j.frame (λ f. Fits S.script j.parts.value f.value) };
}

impl<S: ScriptName> Job<S> {
    /// The job with these parts.
    pub fn new(parts: Box<JobParts>) -> Job<S>
        requires { IsBegun S.script parts.value }
        ensures { result ≡ parts.value }
    {
        Job {
            parts,
            frame: None,
            script: PhantomData,
        }
    }

    /// The job, with the frame from which it is run.
    pub fn with_frame(self, frame: Box<Frame>) -> Job<S>
        requires { Fits S.script self frame.value }
        ensures { result ≡ self }
    {
        let Job {
            parts,
            frame: _,
            script: _,
        } = self;
        Job {
            parts,
            frame: Some(frame),
            script: PhantomData,
        }
    }

    /// The job's number, counted from 1.
    pub fn number(&self) -> u64
        ensures { result ≡ self.now.number }
    {
        self.parts.number
    }

    /// The attempt that the job carries on.
    pub fn attempt(&self) -> AttemptId
        ensures { result ≡ self.now.attempt }
    {
        self.parts.attempt
    }

    /// The attempt's task.
    pub fn spec(&self) -> &SharedBirth
        ensures { result.now ≡ self.now.spec }
    {
        &self.parts.spec
    }

    /// The id of the attempt's first own birth.
    pub fn base(&self) -> ObjectId
        ensures { result ≡ self.now.base }
    {
        self.parts.base
    }

    /// What the attempt bore so far.
    pub fn births(&self) -> &Births
        ensures { result.now ≡ self.now.births }
    {
        &self.parts.births
    }

    /// What the attempt printed so far.
    pub fn printed(&self) -> &Prints
        ensures { result.now ≡ self.now.prints }
    {
        &self.parts.prints
    }

    /// The contents that the attempt was answered so far, those of its dereferenced arguments first.
    pub fn answers(&self) -> &Answers
        ensures { result.now ≡ self.now.answers }
    {
        &self.parts.answers
    }

    fn parts(&self) -> &JobParts
        ensures { IsBegun S.script self.now }
    {
        &self.parts
    }

    /// Tells what is kept of each job, and does nothing.
    pub fn attest(&self)
        ensures { IsBegun S.script self.now }
    {
        let _ = self.parts();
    }

    /// The job's parts.
    pub fn into_parts(self) -> JobParts
        ensures value { result ≡ self }
        ensures begun { IsBegun S.script self }
    {
        let Job {
            parts,
            frame: _,
            script: _,
        } = self;
        Box::into_inner(parts)
    }

    /// Runs the job: the task goes on from the job's frame, or is run again from its start on the answers, up to the next answer that it
    /// needs or to its end. Takes no lock. On `NoMemory` the job is given up.
    pub fn run(self, alloc: Global, script: &Compiled) -> Result<Done<S>, NoMemory>
        requires { script_of script.now ≡ S.script }
        ensures own { IfOk result (λ d. d.job ≡ self) }
        ensures is_true { IfOk result (λ d. IsTrueOf S.script d) }
    {
        checked_scripts_are_safe();
        let _ = script.script().functions();
        let Job {
            parts,
            frame,
            script: name,
        } = self;
        let piece = match run_on(alloc, script, &parts, frame) {
            Ok(piece) => piece,
            Err(PieceError::Broken) => unreachable!(),
            Err(PieceError::NoMemory) => return Err(NoMemory),
        };
        let job = Job {
            parts,
            frame: None,
            script: name,
        };
        Ok(Done::new(job, piece))
    }
}
