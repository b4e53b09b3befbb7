// Which jobs are out, kept up to date behind each event.

ghost use Rattle.std.specs.Prelude.{◌≡◌, IfOk, OnOk, OnErr};
ghost use Rattle.run_paths.specs.of_protocol_board.Cores.{reply_of};
ghost use Rattle.seats.specs.Turns.{KeepsOut, busy, given_up_by, or_first, out_behind, without};

use ids::WorkerId;
use log_entries::{Event, Refusal};
use run_paths::Reply;
use segment::ScriptName;
use sequence::Seq;
use std::alloc::{AllocError, Global};

/// A job that was given out and isn't handed in, and the worker that claimed it.
#[derive(Clone, Copy, PartialEq, Eq, Debug)]
pub struct JobOut {
    /// The job's number, counted from 1.
    pub job: u64,
    /// The worker that claimed it.
    pub worker: WorkerId,
}

fn take_out(out: &mut Seq<JobOut>, job: u64)
    ensures { out.new ≡ without job out.old }
{
    out.items.retain(|x| x.job != job);
}

/// The workers that claimed them.
pub fn busy(alloc: Global, out: &Seq<JobOut>) -> Result<Seq<WorkerId>, AllocError>
    ensures { IfOk result (λ workers. workers ≡ busy out.now) }
{
    let mut workers = Seq::new(alloc);
    for x in &out.items {
        workers.push(x.worker)?;
    }
    Ok(workers)
}

/// Keeps the jobs that are out, behind an event with its answer. A commit that is refused since its worker is dead hands its job in too.
fn keep<S: ScriptName>(
    out: &mut Seq<JobOut>,
    event: &Event,
    told: &Reply<S>,
) -> Result<(), AllocError>
    ensures ok { OnOk result (out.new ≡ out_behind event.now (reply_of told.now) out.old) }
    ensures err { OnErr result (out.new ≡ out.old) }
{
    match (event, told) {
        (Event::Claim(worker), Reply::Job(job)) => out.push(JobOut {
            job: job.number(),
            worker: *worker,
        }),
        (Event::Commit(job), Reply::Ok | Reply::Refused(Refusal::Stale)) => {
            take_out(out, *job);
            Ok(())
        }
        _ => Ok(()),
    }
}

/// The refusal for which a run is given up: the first stands.
pub fn first_refusal(given_up: Option<Refusal>, refusal: Refusal) -> Option<Refusal>
    ensures { result ≡ or_first given_up refusal }
{
    match given_up {
        Some(first) => Some(first),
        None => Some(refusal),
    }
}

/// Why the run is given up behind an answer: an event that is refused 37, 38 or 39 gives it up.
fn given_up_by<S: ScriptName>(told: &Reply<S>, given_up: Option<Refusal>) -> Option<Refusal>
    ensures { result ≡ given_up_by (reply_of told.now) given_up }
{
    let Reply::Refused(refusal) = told else {
        return given_up;
    };
    match refusal {
        Refusal::Limit | Refusal::Halted | Refusal::NoMemory => first_refusal(given_up, *refusal),
        _ => given_up,
    }
}

/// Keeps the jobs that are out, behind an event with its answer, and why the run is given up: for the answer, or where there is no memory to keep
/// that a job is out.
pub fn keep_or_give_up<S: ScriptName>(
    out: &mut Seq<JobOut>,
    given_up: &mut Option<Refusal>,
    event: &Event,
    told: &Reply<S>,
)
    ensures { KeepsOut event.now (reply_of told.now) out.old given_up.old out.new given_up.new }
{
    *given_up = given_up_by(told, *given_up);
    if keep(out, event, told).is_err() {
        *given_up = first_refusal(*given_up, Refusal::NoMemory);
    }
}
