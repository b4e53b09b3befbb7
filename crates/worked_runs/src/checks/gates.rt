// Two jobs run at once, and the history replays.

use crate::checks::failed::{Checked, Failed};
use raysim_commands::{Cluster, Form, Gate, RunMemory, Tracked, run_threaded, sim};
use std::alloc::Global;
use std::rt::Clock;
use std::sync::Wait;
use std::sync::atomic::{AtomicU64, Ordering};
use std::thread::Threads;

/// Holds job 2 until job 3 has entered, and says whether it has.
#[derive(Drop)]
struct Holds {
    third: AtomicU64,
    met: AtomicU64,
}

impl Gate for Holds {
    fn enter(&self, job: u64) {
        if job == 3 {
            self.third.store(1, Ordering::SeqCst);
        }
        if job == 2 {
            for _ in 0..1_000_000u64 {
                if self.third.load(Ordering::SeqCst) == 1 {
                    self.met.store(1, Ordering::SeqCst);
                    return;
                }
                std::thread::yield_now();
            }
        }
    }
}

const SCRIPT: &str =
    "fn sq(x: int) -> int { return x * x; }\nfn main() -> int { let a = remote sq(2); let b = remote sq(3); return get a + get b; }\n";

const REPORT: &str =
    "main value 13\nattempt a1.1#0 w2 accepted\nattempt a1.2#0 w3 accepted\nreleased o1.1\nreleased o1.2\n";

/// Whether the script's run on two threads ends with status 0; what comes of it is added to the lists.
fn runs<R: AllocGlobal + Threads + Wait + Clock + Sync>(
    rt: &R,
    cluster: Cluster,
    gate: &Holds,
    history: &mut Vec<u8>,
    report: &mut Vec<u8>,
) -> bool {
    let done = run_threaded(
        rt,
        rt.alloc(),
        &mut Tracked::reader(SCRIPT.as_bytes()),
        &mut Tracked::reader(b"".as_slice()),
        cluster,
        Form::Text,
        2,
        gate,
        &mut Tracked::writer(history),
        &mut Tracked::writer(report),
    );
    done == Ok(0)
}

/// Whether the history replays with status 0; the report is added to the list.
fn replays(alloc: Global, cluster: Cluster, history: &[u8], report: &mut Vec<u8>) -> bool {
    let done = sim(
        alloc,
        &mut Tracked::reader(SCRIPT.as_bytes()),
        &mut Tracked::reader(history),
        cluster,
        Form::Text,
        RunMemory::GivenBack,
        &mut Tracked::writer(report),
    );
    done == Ok(0)
}

/// A job that waits for another to begin goes on, so both run at once; and the history replays to the same report.
pub fn two_jobs_run_at_once<R: AllocGlobal + Threads + Wait + Clock + Sync>(rt: &R) -> Checked {
    let alloc = rt.alloc();
    let gate = Holds {
        third: AtomicU64::new(0),
        met: AtomicU64::new(0),
    };
    let Some(cluster) = Cluster::new(1, 4) else {
        return Err(Failed("there is no such cluster"));
    };
    let mut history = Vec::new(alloc);
    let mut report = Vec::new(alloc);
    let ran = runs(rt, cluster, &gate, &mut history, &mut report);
    let mut again = Vec::new(alloc);
    let replayed = replays(alloc, cluster, history.as_slice(), &mut again);
    let met = gate.met.load(Ordering::SeqCst) == 1;
    let words = if !ran {
        "the run's status"
    } else if !met {
        "job 3 didn't begin while job 2 ran"
    } else if report.as_slice() != REPORT.as_bytes() {
        "the report"
    } else if !replayed {
        "the replay's status"
    } else if again.as_slice() != REPORT.as_bytes() {
        "the replay's report"
    } else {
        return Ok(());
    };
    Err(Failed(words))
}
