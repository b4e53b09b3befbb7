// An attempt that waits for an answer.

ghost use Rattle.std.specs.Prelude.{◌≡◌, true, IfSome, map};
ghost use Rattle.values.specs.Values.{content_of};
ghost use Rattle.kept_frames.specs.Known.{Agrees, IsNext, IsShaped, WaitsFor};
ghost use Rattle.kept_frames.specs.Views.{data_of};

use crate::known::Known;
use segment::{Frame, Job, ScriptName};
use std::marker::{Model, PhantomData};
use values::Content;

/// An attempt of the script `S` that waits for its next answer, with its frame. Both stand behind pointers, so that they are handed on at the
/// cost of a few words.
#[derive(Drop)]
pub(crate) struct Waiting<S: ScriptName> {
    known: Box<Known>,
    frame: Box<Frame>,
    script: PhantomData<S>,
}

impl<S: ScriptName> Model for Waiting<S> {
    ghost use Rattle.std.specs.Coded.{codes};
    ghost use Rattle.held.specs.Codes.{birth_code, outcome_code};
    ghost use Rattle.kept_frames.specs.Known.{KnownData, WaitsFor};
    ghost use Rattle.kept_frames.specs.Views.{data_of};

    ghost Value = { KnownData };

    ghost coded = { Prim.hlevel (codes, birth_code, outcome_code) };

    ghost view = { λ w. data_of w.known.value };

    ghost invariant = { λ w. WaitsFor S.script (data_of w.known.value) w.frame.value };
}

/// A job, and what was known of its attempt before its last answer, if it has the attempt's frame.
#[derive(Drop)]
pub(crate) struct Ready<S: ScriptName> {
    pub job: Job<S>,
    /// What was known of it before its last answer; none where the job has no frame.
    pub known: Option<Box<Known>>,
}

/// Whether the job's attempt is the known one, as far as one sees without reading the answers.
fn is_shaped<S: ScriptName>(known: &Known, job: &Job<S>, earlier: &[Content]) -> bool
    ensures { result ≡ true → IsShaped (data_of known.now) job.now (map content_of earlier.now) }
{
    known.attempt == job.attempt()
        && known.base == job.base()
        && known.births == job.births().len()
        && known.prints == job.printed().len()
        && known.answers.len() == earlier.len()
        && known.spec.inner.is_same(&job.spec().inner)
}

/// Whether the job's attempt is the known one, with one answer more. With the same answers, as many births and prints are the same.
fn is_next<S: ScriptName>(known: &Known, job: &Job<S>) -> bool
    requires { Agrees (data_of known.now) job.now }
    ensures { result ≡ true → IsNext (data_of known.now) job.now }
{
    let Some((_, earlier)) = job.answers().as_slice().split_last() else {
        return false;
    };
    is_shaped(known, job, earlier)
}

impl<S: ScriptName> Waiting<S> {
    /// The attempt, with the frame in which it waits: by the contract the frame is one in which this attempt waits for its next answer.
    pub(crate) fn new(known: Box<Known>, frame: Box<Frame>) -> Waiting<S>
        requires { WaitsFor S.script (data_of known.value) frame.value }
        ensures { result ≡ data_of known.value }
    {
        Waiting {
            known,
            frame,
            script: PhantomData,
        }
    }

    /// Hands the frame to the job, if it is one of this attempt, with one answer more.
    pub(crate) fn hand(self, job: Job<S>) -> Ready<S>
        requires { Agrees self job }
        ensures job { result.job ≡ job }
        ensures known { IfSome result.known (λ known. IsNext (data_of known.value) job) }
    {
        let Waiting {
            known,
            frame,
            script: _,
        } = self;
        if !is_next(&known, &job) {
            return Ready { job, known: None };
        }
        job.attest();
        let job = job.with_frame(frame);
        Ready {
            job,
            known: Some(known),
        }
    }
}
