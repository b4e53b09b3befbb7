// How a job is run: from its frame, or again from its task's beginning.

ghost use Rattle.std.specs.Prelude.{◌≡◌, IfOk, IfErr, IfSome, OnOk, drop};
ghost use Rattle.meaning.specs.Values.{others_of};
ghost use Rattle.evaluation.specs.of_script_check.Trees.{script_of};
ghost use Rattle.evaluation.specs.Pieces.{IsBrokenStop, piece_of};
ghost use Rattle.evaluation.specs.TaskValues.{IsTaskBirth};
ghost use Rattle.segment.specs.Jobs.{replay_of, beyond, HasStepsOf, IsBegun, IsTrueOf};
ghost use Rattle.segment.specs.Frames.{Fits, WaitsAfter};
ghost use Rattle.segment.specs.Pieces.{done_of};

use evaluation::{Compiled, Frame, Piece, PieceError, go_on, run_piece};
use held::{JobParts, SharedBirth};
use sequence::Seq;
use std::alloc::{AllocError, Global};
use task_spec::Birth;

/// Leaves the items after the first `count`.
fn leave_after<T: Drop>(all: &mut Seq<T>, count: usize) -> Result<(), AllocError>
    ensures { OnOk result (all.new ≡ drop count all.old) }
{
    if count == 0 {
        return Ok(());
    }
    let at = count.min(all.items.len());
    let rest = all.items.split_off(at)?;
    all.items = rest;
    Ok(())
}

/// Runs the task from its start on the answers, and gives what it bears and prints beyond what it bore and printed before. What the
/// run makes again is dropped.
fn run_again(alloc: Global, script: &Compiled, job: &JobParts) -> Result<Piece, PieceError>
    ensures beyond { IfOk result (λ p. piece_of p ≡ beyond job.now (replay_of (script_of script.now) job.now)) }
    ensures broken { IfErr result (λ e. e ≡ PieceError.Broken → IsBrokenStop (replay_of (script_of script.now) job.now).stop) }
    ensures waits { IfOk result (λ p. IsTrueOf (script_of script.now) (done_of job.now p) →
        IfSome p.frame (λ f. WaitsAfter (script_of script.now) (done_of job.now p) f.value)) }
    ensures counts { IfOk result (λ p. HasStepsOf (script_of script.now) job.now p.steps) }
{
    let mut piece = run_piece(
        alloc,
        script,
        &job.spec.inner,
        job.base,
        job.answers.as_slice(),
    )?;
    leave_after(&mut piece.outcomes.births, job.births.len())?;
    leave_after(&mut piece.outcomes.prints, job.prints.len())?;
    Ok(piece)
}

/// Tells that no value of a task has an outcome in it, and does nothing.
fn attest_spec(spec: &SharedBirth)
    ensures { IsTaskBirth spec.now }
{
    let _ = &spec.inner;
}

/// How many results a job's task has beside the first.
fn others(spec: &SharedBirth) -> u8
    ensures { result ≡ others_of spec.now }
{
    match &*spec.inner {
        Birth::Put(_) => 0,
        Birth::Task {
            function: _,
            arguments: _,
            depth: _,
            retries: _,
            others,
        } => *others,
    }
}

/// Goes on from where the task waits for the last of the answers; with no frame it is run again from its start.
pub(crate) fn run_on(
    alloc: Global,
    script: &Compiled,
    job: &JobParts,
    frame: Option<Box<Frame>>,
) -> Result<Piece, PieceError>
    requires begun { IsBegun (script_of script.now) job.now }
    requires fits { IfSome frame (λ f. Fits (script_of script.now) job.now f.value) }
    ensures whole { IfOk result (λ p. IsTrueOf (script_of script.now) (done_of job.now p)) }
    ensures broken { IfErr result (λ e. e ≡ PieceError.Broken → IsBrokenStop (replay_of (script_of script.now) job.now).stop) }
    ensures waits { IfOk result (λ p. IfSome p.frame (λ f. WaitsAfter (script_of script.now) (done_of job.now p) f.value)) }
    ensures counts { IfOk result (λ p. HasStepsOf (script_of script.now) job.now p.steps) }
{
    let Some(frame) = frame else {
        return run_again(alloc, script, job);
    };
    attest_spec(&job.spec);
    let Some((answer, _)) = job.answers.as_slice().split_last() else {
        return run_again(alloc, script, job);
    };
    go_on(
        alloc,
        script,
        Box::into_inner(frame),
        others(&job.spec),
        answer,
    )
}
