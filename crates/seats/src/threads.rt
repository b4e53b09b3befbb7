// A run on threads from its first seat to its last, and what becomes of its books.

ghost use Rattle.std.specs.Prelude.{◌≡◌, ◌≤◌, IfOk};
ghost use Rattle.script_check.specs.Trees.{script_of};
ghost use Rattle.seats.specs.Ends.{IsEnd, IsEndAt, size_of};
ghost use Rattle.seats.specs.Counted.{IsFresh};
ghost use Rattle.seat_books.specs.Holdings.{SameParts};
ghost use Rattle.seat_books.specs.Seats.{AreParts};

use crate::end::Ended;
use crate::gate::Gate;
use crate::run_name::RunName;
use crate::shared::Shared;
use crate::working::work;
use event_files::RunPlan;
use job_tickets::OpenedTickets;
use run_paths::Board;
use seat_books::{Blanks, Seat};
use segment::{Compiled, Job, ScriptName};
use shared_log::OpenedLog;
use std::alloc::{AllocError, Global};
use std::marker::Brand;
use std::sync::ledger::Ledger;
use std::sync::{Condvar, Wait};
use std::thread;
use std::thread::Threads;

/// Each seat on a thread of its own, until its loop ends.
fn sit<
    S: ScriptName + Send + Sync,
    P: RunName + Send + Sync,
    E: Ledger + Send + Sync,
    G: Ledger + Send + Sync,
    C: Ledger + Send + Sync,
    J: Ledger + Send + Sync,
    V: Ledger + Send + Sync,
    H: Ledger + Send + Sync,
    D: Ledger + Send + Sync,
    M: Ledger + Send + Sync,
    K: Gate + Sync,
    R: Threads + Wait + Sync,
>(
    rt: &R,
    alloc: Global,
    shared: &Shared<S, P, E, G, C, J, V, H, D, M>,
    seats: Vec<Seat<P, E, G, C, J, V, H, D, M>>,
    script: &Compiled,
    gate: &K,
) -> Result<Vec<Seat<P, E, G, C, J, V, H, D, M>>, AllocError>
    requires { script_of script.now ≡ S.script }
{
    let bell = Condvar::new();
    thread::map_vec(
        rt,
        seats,
        &|seat| -> Seat<P, E, G, C, J, V, H, D, M>
            requires { script_of script.now ≡ S.script }
        { work(rt, alloc, shared, &bell, seat, script, gate) },
    )
}

/// A run is over once no seat finds anything to do; where one left before, all sit down again.
fn run_shared<
    S: ScriptName + Send + Sync,
    P: RunName + Send + Sync,
    E: Ledger + Send + Sync,
    G: Ledger + Send + Sync,
    C: Ledger + Send + Sync,
    J: Ledger + Send + Sync,
    V: Ledger + Send + Sync,
    H: Ledger + Send + Sync,
    D: Ledger + Send + Sync,
    M: Ledger + Send + Sync,
    K: Gate + Sync,
    R: Threads + Wait + Sync,
>(
    rt: &R,
    alloc: Global,
    blanks: Blanks,
    further: Blanks,
    opened: OpenedLog,
    tickets: OpenedTickets<Job<S>>,
    board: Board<S>,
    plan: RunPlan,
    n: u8,
    script: &Compiled,
    gate: &K,
) -> Result<Ended<S>, AllocError>
    requires some { (1 ≤ n) × (n ≤ 8) }
    requires log { opened.seen.book ≡ P.book }
    requires tickets { tickets.keeper.table_id ≡ P.table }
    requires fresh { IsFresh board }
    requires named { (plan.lines ≡ P.plan) × (size_of board ≡ P.size) }
    requires script { script_of script.now ≡ S.script }
    requires seats { n ≡ P.seats }
    requires watched { P.watched ≡ 1 }
    requires parts { AreParts n E.parts × SameParts E.parts G.parts C.parts J.parts }
    requires further_parts { (V.parts ≡ 1) × SameParts V.parts H.parts D.parts M.parts }
    requires events { (blanks.events.name ≡ E.name) × (blanks.events.parts ≡ E.parts) }
    requires given { (blanks.given.name ≡ G.name) × (blanks.given.parts ≡ G.parts) }
    requires commits { (blanks.commits.name ≡ C.name) × (blanks.commits.parts ≡ C.parts) }
    requires committed { (blanks.committed.name ≡ J.name) × (blanks.committed.parts ≡ J.parts) }
    requires further_events { (further.events.name ≡ V.name) × (further.events.parts ≡ V.parts) }
    requires further_given { (further.given.name ≡ H.name) × (further.given.parts ≡ H.parts) }
    requires further_commits { (further.commits.name ≡ D.name) × (further.commits.parts ≡ D.parts) }
    requires further_committed { (further.committed.name ≡ M.name) × (further.committed.parts ≡ M.parts) }
    ensures { IfOk result (IsEndAt S.script P.is_open n P.plan P.size) }
{
    let (mut shared, mut seats) = Shared::<S, P, E, G, C, J, V, H, D, M>::new(
        alloc, blanks, further, opened, tickets, board, plan, n, 1,
    )?;
    for _ in rt.forever() {
        let back = match sit(rt, alloc, &shared, seats, script, gate) {
            Ok(back) => back,
            Err(error) => {
                drop(shared);
                return Err(error);
            }
        };
        match shared.end(alloc, back) {
            Ok(end) => return Ok(end),
            Err((again, left)) => {
                shared = again;
                seats = left;
            }
        }
    }
    unreachable!()
}

/// Runs a script on `n` threads, 1 to 8, beside a plan: each has a seat, takes its turns and runs the jobs that it is given side by side with
/// the others. What the books come to is said by whoever has the seats: see `Shared::close`. Where a thread can't be made, another takes its seat after
/// its own. On want of memory for the seats or the threads the run is dropped.
pub fn run_on_threads<S: ScriptName + Send + Sync, K: Gate + Sync, R: Threads + Wait + Sync>(
    rt: &R,
    alloc: Global,
    board: Board<S>,
    plan: RunPlan,
    n: u8,
    script: &Compiled,
    gate: &K,
) -> Result<Ended<S>, AllocError>
    requires some { (1 ≤ n) × (n ≤ 8) }
    requires fresh { IsFresh board }
    requires script { script_of script.now ≡ S.script }
    ensures { IfOk result (IsEnd S.script n plan.lines (size_of board)) }
{
    let tickets = match OpenedTickets::new(alloc) {
        Ok(tickets) => tickets,
        Err(error) => {
            drop(board);
            return Err(error);
        }
    };
    let blanks = Blanks::new(2 * u64::from(n) - 1);
    let further = Blanks::new(1);
    run_shared::<S, Brand, Brand, Brand, Brand, Brand, Brand, Brand, Brand, Brand, K, R>(
        rt,
        alloc,
        blanks,
        further,
        OpenedLog::new(),
        tickets,
        board,
        plan,
        n,
        script,
        gate,
    )
}
