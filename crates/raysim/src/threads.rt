// The command `run` on threads: what it reads, runs in memory and then writes.

ghost use Rattle.raysim_options.specs.Reads.{AreThreads};

use crate::heads::tell_length;
use crate::inputs;
use crate::inputs::{read_script_file, shown_bytes};
use crate::life::{Asked, SharedLife};
use crate::reasons::{Course, Known, List};
use crate::replays::{Texts, are_written};
use crate::told::{Stop, print_bytes, stopped, tell, tell_beside};
use crate::views::{in_memory, write_done};
use raysim_calls::{ReplayCall, ThreadsCall};
use raysim_commands::{CommandRefusal, Tracked, run_threaded};
use refusal_reasons::ListKind;
use run_heads::headed;
use std::process::ExitCode;
use std::rt::{Clock, Files};
use std::sync::Wait;
use std::thread::Threads;

/// What a run on threads gives, before anything is out.
#[derive(Drop)]
struct Unwritten {
    history: Vec<u8>,
    report: Vec<u8>,
    status: u8,
}

/// Runs a script on threads, beside a plan if there is one, and writes its history where that is asked for, its report, and other views behind
/// it, each also where another could not be written; why it stops, where it does, is told. Where the run is given up, nothing is written.
pub fn over_threads<R: Files + Print + Eprint + AllocGlobal + Threads + Wait + Clock + Sync>(
    rt: &R,
    run: &ThreadsCall<'_>,
    asked: Asked,
) -> ExitCode
    requires { AreThreads run.now.threads }
{
    let script = match read_script_file(rt, run.drive.script) {
        Ok(script) => script,
        Err(stop) => {
            tell(rt, stop, &known_of(run, b"", b""));
            return ExitCode::FAILURE;
        }
    };
    let plan = match read_plan(rt, run, script.as_slice()) {
        Ok(plan) => plan,
        Err(stop) => {
            let shown = shown_bytes(rt, run.plan, run.drive.explain);
            tell(
                rt,
                stop,
                &known_of(run, script.as_slice(), shown.as_slice()),
            );
            return ExitCode::FAILURE;
        }
    };
    match run_in_memory(rt, run, script.as_slice(), plan.as_slice(), asked) {
        Ok(unwritten) => write_all(rt, run, script, unwritten),
        Err(stop) => {
            let known = known_of(run, script.as_slice(), plan.as_slice());
            tell(rt, stop, &known);
            ExitCode::FAILURE
        }
    }
}

/// What is known of a run that stops.
fn known_of<'a, 'b>(run: &ThreadsCall<'a>, text: &'b [u8], plan: &'b [u8]) -> Known<'a, 'b> {
    let list = match run.plan {
        Some(file) => Some(List {
            kind: ListKind::Plan,
            file,
            text: plan,
        }),
        None => None,
    };
    Known {
        explain: run.drive.explain,
        script: run.drive.script,
        text,
        list,
        course: Some(Course::OnThreads),
    }
}

/// The plan's bytes, none where there is no plan. Where they can't be read, the script's refusal counts, if it has one.
fn read_plan<'a, R: Files + AllocGlobal>(
    rt: &R,
    run: &ThreadsCall<'a>,
    script: &[u8],
) -> Result<Vec<u8>, Stop<'a>> {
    match run.plan {
        Some(path) => inputs::read_plan(rt, script, path),
        None => Ok(Vec::new(rt.alloc())),
    }
}

/// Runs the script, in memory.
fn run_in_memory<'a, R: Eprint + AllocGlobal + Threads + Wait + Clock + Sync>(
    rt: &R,
    run: &ThreadsCall<'a>,
    script: &[u8],
    plan: &[u8],
    asked: Asked,
) -> Result<Unwritten, Stop<'a>>
    requires { AreThreads run.now.threads }
{
    let mut history = Vec::new(rt.alloc());
    let mut report = Vec::new(rt.alloc());
    let life = SharedLife::new(rt, asked);
    let done = run_threaded(
        rt,
        rt.alloc(),
        &mut Tracked::reader(script),
        &mut Tracked::reader(plan),
        run.drive.cluster,
        run.drive.form,
        run.threads,
        &life,
        &mut Tracked::writer(&mut history),
        &mut Tracked::writer(&mut report),
    );
    life.close();
    match done {
        Ok(status) => Ok(Unwritten {
            history,
            report,
            status,
        }),
        Err(refusal) => Err(Stop::Refused(in_memory(refusal))),
    }
}

/// Writes history, report and views, and says with which status the program ends.
fn write_all<R: Files + Print + Eprint + AllocGlobal>(
    rt: &R,
    run: &ThreadsCall<'_>,
    script: Vec<u8>,
    unwritten: Unwritten,
) -> ExitCode {
    let events = unwritten.history;
    let history = keep_history(rt, run, script.as_slice(), events.as_slice());
    let printed = print_bytes(rt, unwritten.report.as_slice(), Ok(unwritten.status));
    if let Some(stop) = printed.stop() {
        stopped(rt, stop);
    }
    match (history, run.history) {
        (Ok(()), Some(path)) => tell_length(rt, path, events.as_slice()),
        (Ok(()), None) => {}
        (Err(stop), path) => {
            let path = path.unwrap_or("");
            tell_beside(rt, stop, &Known::nothing(), path, &printed.done);
        }
    }
    let replayed = ReplayCall {
        script: run.drive.script,
        events: "its history",
        cluster: run.drive.cluster,
        explain: false,
    };
    let texts = Texts {
        script,
        events,
        front: Vec::new(rt.alloc()),
    };
    if are_written(rt, &replayed, &texts, &run.drive.views, &printed.done) && history.is_ok() {
        return printed.ending();
    }
    ExitCode::FAILURE
}

/// Writes the history with the lines that say of which run it is, if that is asked for.
fn keep_history<'a, R: Files + AllocGlobal>(
    rt: &R,
    run: &ThreadsCall<'a>,
    script: &[u8],
    history: &[u8],
) -> Result<(), Stop<'a>> {
    let Some(path) = run.history else {
        return Ok(());
    };
    let (nodes, slots) = (run.drive.cluster.nodes(), run.drive.cluster.slots());
    match headed(rt.alloc(), nodes, slots, run.threads, script, history) {
        Ok(whole) => write_done(rt, path, Ok(0), whole.as_slice()),
        Err(_) => Err(Stop::Refused(CommandRefusal::NoMemory)),
    }
}
