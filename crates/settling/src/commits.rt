// The least worker whose job is out.

ghost use Rattle.std.specs.Prelude.{◌≡◌, None, if◌then◌else◌};
ghost use Rattle.protocol.specs.Sets.{has};
ghost use Rattle.protocol.specs.Refusals.{job_out};
ghost use Rattle.protocol.specs.Settling.{first_job};

use ids::WorkerId;
use protocol_data::{Worker, Workers};
use refusals::job_out;
use sequence::Seq;

/// Whether the number is one of these workers.
pub fn has_number(workers: &Seq<WorkerId>, number: u64) -> bool
    ensures { result ≡ has workers.now number }
{
    for worker in &workers.items {
        if u64::from(worker.0) == number {
            return true;
        }
    }
    false
}

/// The job of the worker that is out, unless the worker is left out.
fn job_of(worker: &Worker, but: &Seq<WorkerId>, number: u64) -> Option<u64>
    ensures { result ≡ (if has but.now number then None else job_out worker.now) }
{
    if has_number(but, number) {
        return None;
    }
    job_out(worker)
}

/// The job of the least live worker whose job is out, but for these workers.
#[tactic(auto, using(crate::proofs::Places::no_job_further))]
pub fn first_job(workers: &Workers, but: &Seq<WorkerId>) -> Option<u64>
    ensures { result ≡ first_job but.now 1 workers.now }
{
    let count = workers.len();
    let mut place = 0;
    for turn in 0..count {
        let _ = turn;
        let next = workers.next_out(place);
        if next >= count {
            return None;
        }
        if let Some(job) = job_of(workers.get(next), but, next as u64 + 1) {
            return Some(job);
        }
        place = next + 1;
    }
    None
}
