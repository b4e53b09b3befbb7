// From the words to what is done.

ghost use Rattle.raysim_calls.specs.Calls.{HasThreads};
ghost use Rattle.raysim_options.specs.Reads.{AreThreads};

use crate::faults::over_each_place;
use crate::life::{Asked, ErrorsGo};
use crate::outputs::{Paths, are_fit};
use crate::replays::{migrate_events, over_events, state_at};
use crate::scripts::{Command, over_script};
use crate::threads::over_threads;
use crate::told::{NO_NAME, explain, fault, no_memory};
use clap::error::ErrorKind;
use raysim_calls::{Call, CallFault, DriveCall, ReplayCall, ThreadsCall, Views, call_of};
use raysim_commands::Form;
use raysim_options::{ScriptOptions, options};
use std::process::ExitCode;
use std::rt::{Clock, Files};
use std::sync::Wait;
use std::thread::Threads;

/// Does what the words ask, and says with which status the program ends.
pub fn answer<R: Files + Print + Eprint + AllocGlobal + Threads + Wait + Clock + Sync>(
    rt: &R,
    words: &[String],
    errors: ErrorsGo,
) -> ExitCode {
    let request = match options(rt.alloc(), words) {
        Ok(request) => request,
        Err(error) if error.kind() == ErrorKind::OutOfMemory => return no_memory(rt),
        Err(error) => {
            let _ = eprint!(rt; "{error}");
            return ExitCode::FAILURE;
        }
    };
    match call_of(&request) {
        Ok(call) => make(rt, &call, errors),
        Err(at_fault) => tell_fault(rt, at_fault),
    }
}

/// Says which word of a request is at fault.
fn tell_fault<R: Eprint>(rt: &R, at_fault: CallFault<'_>) -> ExitCode {
    match at_fault {
        CallFault::NoEngine(word) => fault(rt, word, "is no engine: there are dask and ray"),
        CallFault::NoName(word) => fault(rt, word, NO_NAME),
        CallFault::NoNumber(word) => fault(rt, word, "is no number of an event"),
        CallFault::NoKind(name) => no_kind(rt, name),
        CallFault::NoCount(word) => fault(rt, word, "is no number of lists"),
        CallFault::SoFarOnThreads => fault(
            rt,
            "--so-far",
            "can't be given with --threads, --plan or --history",
        ),
    }
}

/// Tells that a name is none of a fault.
fn no_kind<R: Eprint>(rt: &R, name: &str) -> ExitCode {
    let name = if name.is_empty() {
        "an empty word"
    } else {
        name
    };
    fault(
        rt,
        name,
        "is no kind of fault: kill, notice, kill-node, lose and evict are, with commas between them",
    )
}

/// Makes a call, and says with which status the program ends.
fn make<R: Files + Print + Eprint + AllocGlobal + Threads + Wait + Clock + Sync>(
    rt: &R,
    call: &Call<'_>,
    errors: ErrorsGo,
) -> ExitCode
    requires { HasThreads call.now }
{
    match call {
        Call::Check(options) => over_script(rt, &Command::Check, options, &Views::none()),
        Call::Serial(options) => over_script(rt, &Command::Serial, options, &Views::none()),
        Call::Export(engine, options) => {
            over_script(rt, &Command::Export(*engine), options, &Views::none())
        }
        Call::Drive(run) => drive(rt, run, errors),
        Call::OnThreads(run) => run_on_threads(rt, run, errors),
        Call::Replay(replayed, form, views) => replay(rt, replayed, *form, views),
        Call::Migrate(replayed) => migrate_events(rt, replayed),
        Call::StateAt(replayed, at) => state_at(rt, replayed, *at),
        Call::Faults(trial) => {
            over_each_place(rt, trial, Asked::of(errors, trial.progress, false))
        }
        Call::Explain(what) => explain(rt, what),
    }
}

fn drive<R: Files + Print + Eprint + AllocGlobal + Clock>(
    rt: &R,
    run: &DriveCall<'_>,
    errors: ErrorsGo,
) -> ExitCode {
    let paths = Paths {
        script: run.script,
        beside: None,
        beside_name: "the event file",
        history: None,
        views: run.views,
    };
    if !are_fit(rt, &paths) {
        return ExitCode::FAILURE;
    }
    let asked = Asked::of(errors, run.progress, run.stream);
    let script = ScriptOptions {
        script: run.script,
        explain: run.explain,
    };
    let command = Command::Run(run.cluster, run.form, asked);
    over_script(rt, &command, &script, &run.views)
}

fn run_on_threads<R: Files + Print + Eprint + AllocGlobal + Threads + Wait + Clock + Sync>(
    rt: &R,
    run: &ThreadsCall<'_>,
    errors: ErrorsGo,
) -> ExitCode
    requires { AreThreads run.now.threads }
{
    let paths = Paths {
        script: run.drive.script,
        beside: run.plan,
        beside_name: "the plan",
        history: run.history,
        views: run.drive.views,
    };
    if !are_fit(rt, &paths) {
        return ExitCode::FAILURE;
    }
    over_threads(
        rt,
        run,
        Asked::of(errors, run.drive.progress, run.drive.stream),
    )
}

fn replay<'a, R: Files + Print + Eprint + AllocGlobal>(
    rt: &R,
    replayed: &ReplayCall<'a>,
    form: Form,
    views: &Views<'a>,
) -> ExitCode {
    let paths = Paths {
        script: replayed.script,
        beside: Some(replayed.events),
        beside_name: "the event file",
        history: None,
        views: *views,
    };
    if !are_fit(rt, &paths) {
        return ExitCode::FAILURE;
    }
    over_events(rt, replayed, form, views)
}
