// Why a commit is refused: which jobs are out, and whether what is handed in was done on the job.

ghost use Rattle.std.specs.Prelude.{◌≡◌};
ghost use Rattle.protocol.specs.Numbered.{item_at};
ghost use Rattle.protocol.specs.Refusals.{commit_refusal, is_of_job, is_out_by, job_in_run, job_out};
ghost use Rattle.protocol.specs.Cluster.{worker_at};

use crate::living::is_live_worker;
use ids::WorkerId;
use log_entries::Refusal;
use number_lists::item_at_number;
use protocol_data::{ClusterState, CommitInput, Execution, Phase, Worker};

/// The attempt's job that is out.
fn job_in_run(run: &Option<Execution>) -> Option<u64>
    ensures { result ≡ job_in_run run.now }
{
    let Some(run) = run else {
        return None;
    };
    match &run.phase {
        Phase::Out(job) => Some(*job),
        _ => None,
    }
}

/// The job that is out, of a live worker.
pub fn job_out(worker: &Worker) -> Option<u64>
    ensures { result ≡ job_out worker.now }
{
    if !worker.is_live {
        return None;
    }
    job_in_run(&worker.run)
}

/// Whether the worker's attempt waits for that job to be handed in.
fn is_out_by(whole: &ClusterState, number: WorkerId, job: u64) -> bool
    ensures { result ≡ is_out_by (worker_at whole.now number) job }
{
    let Some(worker) = item_at_number(whole.workers.rows(), u64::from(number.0)) else {
        return false;
    };
    match job_in_run(&worker.run) {
        Some(out) => out == job,
        None => false,
    }
}

/// Whether what is handed in was done on the job.
fn is_of_job(handed: &CommitInput) -> bool
    ensures { result ≡ is_of_job handed.now }
{
    matches!(handed, CommitInput::OfJob(_))
}

/// Why a commit is refused: there is no such job, or its worker is dead.
pub fn commit_refusal(whole: &ClusterState, job: u64, handed: &CommitInput) -> Option<Refusal>
    ensures { result ≡ commit_refusal whole.now job handed.now (item_at whole.now.jobs job) }
{
    let Some(given) = item_at_number(&whole.jobs, job) else {
        return Some(Refusal::NoJob);
    };
    if given.is_committed {
        return Some(Refusal::NoJob);
    }
    if !is_of_job(handed) {
        return Some(Refusal::NoJob);
    }
    if !is_out_by(whole, given.worker, job) {
        return Some(Refusal::NoJob);
    }
    if !is_live_worker(whole, given.worker) {
        return Some(Refusal::Stale);
    }
    None
}
