// The jobs that were given out and not handed in yet.

ghost use Rattle.std.specs.Prelude.{◌≡◌, ◌≢◌, [], true, false, IfOk, OnOk, OnErr, IfErr};
ghost use Rattle.script_check.specs.Trees.{script_of};
ghost use Rattle.protocol_core.specs.Steps.{reply_of};
ghost use Rattle.protocol_board.specs.Own.{JobAgrees, KeepsWithJob};
ghost use Rattle.protocol_board.specs.Replays.{IsDoneOn, found_no_memory, given_by, handed_in, is_no_memory, job_at, job_for, left_by, with_given};
ghost use Rattle.protocol_board.specs.declared.stopped.ReplayStop.TheVariants.{NoMemory};

use crate::stopped::ReplayStop;
use kept_frames::Frames;
use log_entries::{Event, Refusal};
use number_lists::place_of;
use protocol_core::Reply;
use segment::{Compiled, Done, Job, ScriptName};
use sequence::Seq;
use std::alloc::Global;

/// For how many jobs there is room from the start: a list that grows is copied, up to the size from which on the C library moves its pages instead.
const JOBS: usize = 8192;

/// No jobs. There is room for 8,192 of them where there is memory for it.
pub fn no_jobs<S: ScriptName>(alloc: Global) -> Seq<Option<Job<S>>>
    ensures { result ≡ [] }
{
    let mut jobs = Seq::new(alloc);
    let _ = jobs.items.reserve(JOBS);
    jobs
}

/// Takes out the job of that number, if it was given out and not handed in yet.
#[tactic(auto, using(crate::proofs::Jobs::job_there, crate::proofs::Jobs::no_job, crate::proofs::Jobs::taken_out, crate::proofs::Jobs::none_out))]
fn take_job<S: ScriptName>(jobs: &mut Seq<Option<Job<S>>>, number: u64) -> Option<Job<S>>
    ensures job { result ≡ job_at jobs.old number }
    ensures rest { jobs.new ≡ handed_in jobs.old number }
{
    let Some(place) = place_of(number, jobs.len()) else {
        return None;
    };
    let job = &mut jobs.items[place];
    job.take()
}

/// Takes out the job that the event hands in.
pub fn hand_in<S: ScriptName>(jobs: &mut Seq<Option<Job<S>>>, event: &Event) -> Option<Job<S>>
    ensures job { result ≡ job_for event.now jobs.old }
    ensures rest { jobs.new ≡ left_by event.now jobs.old }
{
    match event {
        Event::Commit(number) => take_job(jobs, *number),
        _ => None,
    }
}

/// Runs the job, if there is one, from its frame where that is kept. The job goes on from what is known of its attempt.
pub fn run_job<S: ScriptName>(
    alloc: Global,
    script: &Compiled,
    frames: &mut Frames<S>,
    job: Option<Job<S>>,
) -> Result<Option<Done<S>>, ReplayStop>
    requires script { script_of script.now ≡ S.script }
    requires own { JobAgrees job frames.old }
    ensures done { IfOk result (λ done. IsDoneOn S.script job done) }
    ensures kept { KeepsWithJob job frames.old frames.new }
    ensures stopped { IfErr result (λ stopped. stopped ≡ NoMemory) }
{
    let Some(job) = job else {
        return Ok(None);
    };
    match frames.run(alloc, script, job) {
        Ok(done) => Ok(Some(done)),
        Err(_) => Err(ReplayStop::NoMemory),
    }
}

/// Whether it is want of memory.
pub fn is_no_memory(refusal: Refusal) -> bool
    ensures { result ≡ is_no_memory refusal }
{
    matches!(refusal, Refusal::NoMemory)
}

/// Keeps the job that is given out; it fails where the event or the job finds no memory.
pub fn keep<S: ScriptName>(jobs: &mut Seq<Option<Job<S>>>, told: Reply<S>) -> Result<(), ReplayStop>
    ensures jobs { OnOk result (jobs.new ≡ with_given (reply_of told) jobs.old) }
    ensures goes_on { OnOk result (found_no_memory (reply_of told) ≡ false) }
    ensures same { OnErr result (jobs.new ≡ jobs.old) }
    ensures stopped { IfErr result (λ stopped. stopped ≡ NoMemory) }
{
    match told {
        Reply::Job(job) => {
            jobs.push(Some(job))?;
            Ok(())
        }
        Reply::Ok => Ok(()),
        Reply::Refused(refusal) => {
            if is_no_memory(refusal) {
                return Err(ReplayStop::NoMemory);
            }
            Ok(())
        }
    }
}

/// The number of the job that a claim gave, 0 where it was refused; of another event none.
pub fn given_by<S: ScriptName>(event: &Event, told: &Reply<S>) -> Option<u64>
    ensures { result ≡ given_by event.now (reply_of told.now) }
{
    match (event, told) {
        (Event::Claim(_), Reply::Job(job)) => Some(job.number()),
        (Event::Claim(_), _) => Some(0),
        _ => None,
    }
}

/// Whether a claim gave the job that a history says, or neither names a job.
pub fn is_same(given: Option<u64>, said: Option<u64>) -> bool
    ensures same { result ≡ true → given ≡ said }
    ensures other { result ≡ false → given ≢ said }
{
    match (given, said) {
        (Some(job), Some(other)) => job == other,
        (None, None) => true,
        _ => false,
    }
}
