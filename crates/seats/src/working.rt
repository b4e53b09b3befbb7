// What each thread of a run does: takes turns, runs its job outside the lock, and waits where it must.

ghost use Rattle.std.specs.Prelude.{◌≡◌, IfOk};
ghost use Rattle.script_check.specs.Trees.{script_of};
ghost use Rattle.event_log.specs.Entries.{Commit};
ghost use Rattle.run_paths.specs.of_protocol_board.Cores.{reply_of};
ghost use Rattle.seat_books.specs.Seats.{with_more};
ghost use Rattle.seats.specs.Counted.{counted};

use crate::gate::Gate;
use crate::run_name::RunName;
use crate::seen_job::{SeenFrames, SeenJob};
use crate::shared::Shared;
use crate::turn::Turn;
use run_paths::Reply;
use seat_books::Seat;
use segment::{Compiled, NoMemory, ScriptName};
use std::alloc::Global;
use std::sync::ledger::Ledger;
use std::sync::{Condvar, Wait};
use std::time::Duration;

/// How many milliseconds a thread that must wait for another's job sleeps at most before it asks again.
const PAUSE: u64 = 10;

/// Shows the log, if that is asked for.
fn show<
    S: ScriptName,
    P: RunName,
    E: Ledger,
    G: Ledger,
    C: Ledger,
    J: Ledger,
    V: Ledger,
    H: Ledger,
    D: Ledger,
    M: Ledger,
    K: Gate,
    R: Wait,
>(rt: &R, shared: &Shared<S, P, E, G, C, J, V, H, D, M>, gate: &K) {
    if gate.is_watching() {
        shared.show(rt, gate);
    }
}

/// Runs the job outside the lock, from the frame of its attempt if this thread kept it, and hands in what was done on it, whether its worker lives or
/// not: the seat's book counts that commit by its answer. It fails where the job finds no memory.
fn run_job<
    S: ScriptName,
    P: RunName,
    E: Ledger,
    G: Ledger,
    C: Ledger,
    J: Ledger,
    V: Ledger,
    H: Ledger,
    D: Ledger,
    M: Ledger,
    K: Gate,
    R: Wait,
>(
    rt: &R,
    alloc: Global,
    shared: &Shared<S, P, E, G, C, J, V, H, D, M>,
    seat: &mut Seat<P, E, G, C, J, V, H, D, M>,
    script: &Compiled,
    frames: &mut SeenFrames<S, P>,
    gate: &K,
    job: SeenJob<S, P>,
) -> Result<Reply<S>, NoMemory>
    requires { script_of script.now ≡ S.script }
    ensures handed_in { IfOk result (λ told. seat.new ≡ with_more (counted (Commit job.number) (reply_of told)) seat.old) }
    ensures number { seat.new.number ≡ seat.old.number }
{
    gate.enter(job.number());
    let done = frames.run(alloc, script, job)?;
    let told = shared.commit_own(rt, alloc, seat, done);
    show(rt, shared, gate);
    Ok(told)
}

/// Does a job that the seat was given, or gives the run up.
fn do_job<
    S: ScriptName,
    P: RunName,
    E: Ledger,
    G: Ledger,
    C: Ledger,
    J: Ledger,
    V: Ledger,
    H: Ledger,
    D: Ledger,
    M: Ledger,
    K: Gate,
    R: Wait,
>(
    rt: &R,
    alloc: Global,
    shared: &Shared<S, P, E, G, C, J, V, H, D, M>,
    seat: &mut Seat<P, E, G, C, J, V, H, D, M>,
    script: &Compiled,
    frames: &mut SeenFrames<S, P>,
    gate: &K,
    job: SeenJob<S, P>,
)
    requires { script_of script.now ≡ S.script }
    ensures { seat.new.number ≡ seat.old.number }
{
    if run_job(rt, alloc, shared, seat, script, frames, gate, job).is_err() {
        shared.give_up(rt);
    }
}

/// One thread's loop, over the turns of its seat: given a job, it tells the gate, runs the job outside the lock and commits it. Where it must
/// wait for another's job it sleeps, until a thread that is given a job leaves turns to be taken, or for a hundredth of a second, and asks again. So a
/// thread that does one short job after the other, with nothing beside them, is left alone with them, and with the frames that it keeps. The loop ends
/// with the run, which it gives up where a job finds no memory.
pub fn work<
    S: ScriptName,
    P: RunName,
    E: Ledger,
    G: Ledger,
    C: Ledger,
    J: Ledger,
    V: Ledger,
    H: Ledger,
    D: Ledger,
    M: Ledger,
    K: Gate,
    R: Wait,
>(
    rt: &R,
    alloc: Global,
    shared: &Shared<S, P, E, G, C, J, V, H, D, M>,
    bell: &Condvar,
    seat: Seat<P, E, G, C, J, V, H, D, M>,
    script: &Compiled,
    gate: &K,
) -> Seat<P, E, G, C, J, V, H, D, M>
    requires { script_of script.now ≡ S.script }
    ensures { result.number ≡ seat.number }
{
    let mut seat = seat;
    let mut frames = SeenFrames::new(alloc, shared.seen(rt));
    for _ in rt.forever() {
        // Whoever rings from here on is heard.
        let heard = bell.notifications();
        match shared.turn(rt, alloc, &mut seat) {
            Turn::Job(job) => {
                if shared.has_turn(rt, alloc) {
                    bell.notify_one();
                }
                do_job(rt, alloc, shared, &mut seat, script, &mut frames, gate, job);
            }
            Turn::Did | Turn::Refused(_) => {}
            Turn::Again => bell.sleep(rt, heard, Duration::from_millis(PAUSE)),
            Turn::End => break,
        }
    }
    bell.notify_all();
    seat
}
