// A run whose events come from two seats, one by one.

ghost use Rattle.std.specs.Prelude.{◌≡◌, [], true};
ghost use Rattle.script_check.specs.Trees.{script_of};
ghost use Rattle.seat_books.specs.Holdings.{SameParts};
ghost use Rattle.seat_books.specs.Seats.{AreParts};
ghost use Rattle.raysim_commands.specs.of_seats.Counted.{IsFresh};

use crate::checks::failed::{Checked, Failed, wants};
use crate::checks::scripts::script;
use event_files::RunPlan;
use ids::WorkerId;
use job_tickets::OpenedTickets;
use log_entries::Event;
use raysim_commands::{Board, Cluster, Core, Reply, RunName, Shared};
use seat_books::{Blanks, Seat};
use segment::{Compiled, Job, ScriptName};
use sequence::Seq;
use shared_log::OpenedLog;
use std::alloc::Global;
use std::marker::Brand;
use std::sync::Wait;
use std::sync::ledger::Ledger;

/// Main's first job, claimed and committed; whether that was accepted.
fn begin<
    S: ScriptName,
    P: RunName,
    E: Ledger,
    G: Ledger,
    C: Ledger,
    J: Ledger,
    V: Ledger,
    H: Ledger,
    D: Ledger,
    M: Ledger,
    R: Wait,
>(
    rt: &R,
    alloc: Global,
    script: &Compiled,
    shared: &Shared<S, P, E, G, C, J, V, H, D, M>,
    seat: &mut Seat<P, E, G, C, J, V, H, D, M>,
) -> bool
    requires script { script_of script.now ≡ S.script }
    requires open { P.is_open ≡ true }
{
    let Reply::Job(job) = shared.claim(rt, alloc, seat, WorkerId(1)) else {
        return false;
    };
    let Ok(done) = job.run(alloc, script) else {
        return false;
    };
    matches!(shared.commit(rt, alloc, seat, done), Reply::Ok)
}

/// The events with which nothing is handed in; whether all were accepted.
fn go_on<
    S: ScriptName,
    P: RunName,
    E: Ledger,
    G: Ledger,
    C: Ledger,
    J: Ledger,
    V: Ledger,
    H: Ledger,
    D: Ledger,
    M: Ledger,
    R: Wait,
>(
    rt: &R,
    alloc: Global,
    shared: &Shared<S, P, E, G, C, J, V, H, D, M>,
    seat: &mut Seat<P, E, G, C, J, V, H, D, M>,
) -> bool
    requires { P.is_open ≡ true }
{
    let events = [
        Event::Deliver(1),
        Event::Deliver(2),
        Event::Deliver(3),
        Event::Kill(WorkerId(2)),
        Event::Notice {
            worker: WorkerId(1),
            dead: WorkerId(2),
        },
    ];
    let mut accepted = true;
    for event in events {
        if !matches!(shared.step(rt, alloc, seat, event), Reply::Ok) {
            accepted = false;
        }
    }
    accepted
}

/// The report of a run of the script, with the events of two seats.
fn report_of<
    S: ScriptName,
    P: RunName,
    E: Ledger,
    G: Ledger,
    C: Ledger,
    J: Ledger,
    V: Ledger,
    H: Ledger,
    D: Ledger,
    M: Ledger,
    R: Wait,
>(
    rt: &R,
    alloc: Global,
    script: &Compiled,
    blanks: Blanks,
    further: Blanks,
    opened: OpenedLog,
    tickets: OpenedTickets<Job<S>>,
) -> Result<String, Failed>
    requires script { script_of script.now ≡ S.script }
    requires log { opened.seen.book ≡ P.book }
    requires tickets { tickets.keeper.table_id ≡ P.table }
    requires named { (P.plan ≡ []) × (P.size ≡ record { nodes = 1; slots = 4 }) × (P.is_open ≡ true) }
    requires seats { P.seats ≡ 2 }
    requires watched { P.watched ≡ 2 }
    requires parts { AreParts 2 E.parts × SameParts E.parts G.parts C.parts J.parts }
    requires further_parts { (V.parts ≡ 1) × SameParts V.parts H.parts D.parts M.parts }
    requires events { (blanks.events.name ≡ E.name) × (blanks.events.parts ≡ E.parts) }
    requires given { (blanks.given.name ≡ G.name) × (blanks.given.parts ≡ G.parts) }
    requires commits { (blanks.commits.name ≡ C.name) × (blanks.commits.parts ≡ C.parts) }
    requires committed { (blanks.committed.name ≡ J.name) × (blanks.committed.parts ≡ J.parts) }
    requires further_events { (further.events.name ≡ V.name) × (further.events.parts ≡ V.parts) }
    requires further_given { (further.given.name ≡ H.name) × (further.given.parts ≡ H.parts) }
    requires further_commits { (further.commits.name ≡ D.name) × (further.commits.parts ≡ D.parts) }
    requires further_committed { (further.committed.name ≡ M.name) × (further.committed.parts ≡ M.parts) }
{
    let Some(cluster) = Cluster::new(1, 4) else {
        return Err(Failed("there is no such cluster"));
    };
    let board = Board::new(Core::<S>::new(alloc, script.script(), cluster)?);
    let plan = RunPlan {
        lines: Seq::new(alloc),
    };
    let (shared, mut seats) = Shared::<S, P, E, G, C, J, V, H, D, M>::new(
        alloc, blanks, further, opened, tickets, board, plan, 2, 2,
    )?;
    let begun = begin(rt, alloc, script, &shared, &mut seats[0]);
    let went_on = go_on(rt, alloc, &shared, &mut seats[1]);
    let Ok(board) = shared.close(seats) else {
        return Err(Failed("not all seats are back"));
    };
    let report = board.report(alloc);
    drop(board);
    if begun && went_on {
        return Ok(report?);
    }
    Err(Failed("an event was refused"))
}

/// The same, with new books, a new log and new tickets.
fn report_in<S: ScriptName, R: Wait>(
    rt: &R,
    alloc: Global,
    script: &Compiled,
) -> Result<String, Failed>
    requires { script_of script.now ≡ S.script }
{
    report_of::<S, Brand, Brand, Brand, Brand, Brand, Brand, Brand, Brand, Brand, R>(
        rt,
        alloc,
        script,
        Blanks::new(3),
        Blanks::new(1),
        OpenedLog::new(),
        OpenedTickets::new(alloc)?,
    )
}

/// The report of a run with the events of two seats, one of which kills a worker.
pub fn a_run_by_claim_commit_and_step<R: AllocGlobal + Wait>(rt: &R) -> Checked {
    let alloc = rt.alloc();
    let text = "fn one() -> int { return 1; }\nfn main() -> int { return get remote(0) one(); }\n";
    let script = script(alloc, text)?;
    let report = report_in::<Brand, R>(rt, alloc, &script)?;
    let wanted =
        "main fault RetriesUsed o1.1\nattempt a1.1#0 w2 open\nresolved o1.1 RetriesUsed o1.1\nreleased o1.1\n";
    wants(report.as_str() == wanted, "the report")
}
