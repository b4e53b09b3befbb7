// What comes of a case. The program's commands are called here alone.

use crate::case::{Case, Outcome};
use crate::threaded::{ran_on_threads, threads_asked};
use ids::{NodeId, ObjectId, WorkerId, read_number};
use raysim_commands::{
    Cluster, CommandRefusal, Contents, Engine, FaultChoice, Form, RunMemory, SoFar, Tracked,
    TrapAsked, Unwatched, check, export, faults, migrate, put_all, run, run_so_far, run_trap,
    serial, sim, sim_so_far, sim_trap, state, trap_asked,
};
use script_syntax::{parse, print_program};
use std::alloc::{AllocError, Global};
use std::rt::Clock;
use std::sync::Wait;
use std::thread::Threads;

/// Replays the case's events on a run of its script, and writes what is asked for.
fn replay_written(
    alloc: Global,
    case: &Case,
    cluster: Cluster,
    form: &Form,
    written: &mut Vec<u8>,
) -> Result<u8, CommandRefusal> {
    let mut reader = Tracked::reader(case.script.as_bytes());
    let mut events = Tracked::reader(case.events.as_bytes());
    let mut writer = Tracked::writer(written);
    sim(
        alloc,
        &mut reader,
        &mut events,
        cluster,
        *form,
        RunMemory::GivenBack,
        &mut writer,
    )
}

/// Replays the case's events on a run of its script; below what `why` tells stands where a trap comes about.
fn replayed(
    alloc: Global,
    case: &Case,
    form: Form,
    written: &mut Vec<u8>,
) -> Option<Result<u8, CommandRefusal>> {
    let cluster = Cluster::new(case.nodes, case.slots)?;
    let status = match replay_written(alloc, case, cluster, &form, written) {
        Ok(status) => status,
        Err(refusal) => return Some(Err(refusal)),
    };
    let Some(asked) = asked_below(&form) else {
        return Some(Ok(status));
    };
    let (text, events) = (case.script.as_bytes(), case.events.as_bytes());
    let told = sim_trap(alloc, text, events, cluster, asked);
    Some(put_below(status, told, written))
}

/// Of whose trap it is told below what is written in that form, if it is.
fn asked_below(form: &Form) -> Option<TrapAsked> {
    trap_asked(*form)
}

/// Writes what is told below what was written.
fn put_below(
    status: u8,
    told: Result<String, CommandRefusal>,
    written: &mut Vec<u8>,
) -> Result<u8, CommandRefusal> {
    let text = told?;
    put_all(&mut Tracked::writer(written), text.as_bytes())?;
    Ok(status)
}

/// Writes the case's events as a file of format 2.
fn migrated(
    alloc: Global,
    case: &Case,
    written: &mut Vec<u8>,
) -> Option<Result<u8, CommandRefusal>> {
    let cluster = Cluster::new(case.nodes, case.slots)?;
    let mut reader = Tracked::reader(case.script.as_bytes());
    let mut events = Tracked::reader(case.events.as_bytes());
    let mut writer = Tracked::writer(written);
    Some(migrate(alloc, &mut reader, &mut events, cluster, &mut writer))
}

/// Tells what is alive behind the event of that number.
fn told_state(
    alloc: Global,
    case: &Case,
    at: usize,
    written: &mut Vec<u8>,
) -> Option<Result<u8, CommandRefusal>> {
    let cluster = Cluster::new(case.nodes, case.slots)?;
    let mut reader = Tracked::reader(case.script.as_bytes());
    let mut events = Tracked::reader(case.events.as_bytes());
    let mut writer = Tracked::writer(written);
    Some(state(alloc, &mut reader, &mut events, cluster, at, &mut writer))
}

/// Behind which event a command tells the state, if it does.
fn event_asked(command: &str) -> Option<usize> {
    match command.strip_prefix("state --at ")?.parse::<usize>() {
        Ok(at) => Some(at),
        Err(_) => None,
    }
}

/// The faults that are tried where a case names none.
const USUAL: &str = "kill,notice,kill-node,lose";

/// The choice with the faults of that name too, if there are such.
fn with_kind(choice: FaultChoice, name: &str) -> Option<FaultChoice> {
    let mut more = choice;
    match name {
        "kill" => more.kill = true,
        "notice" => more.told_kill = true,
        "kill-node" => more.kill_node = true,
        "lose" => more.lose = true,
        "evict" => more.evict = true,
        _ => return None,
    }
    Some(more)
}

/// The faults with these names, with commas between them.
fn choice_of(names: &str) -> Option<FaultChoice> {
    let mut choice = FaultChoice {
        kill: false,
        told_kill: false,
        kill_node: false,
        lose: false,
        evict: false,
    };
    for name in names.split(',') {
        choice = with_kind(choice, name)?;
    }
    Some(choice)
}

/// Which faults a command tries, if it tries any.
fn faults_asked(command: &str) -> Option<FaultChoice> {
    if command == "faults" {
        return choice_of(USUAL);
    }
    choice_of(command.strip_prefix("faults ")?)
}

/// Tries a fault at every place of the run by the case's events.
fn tried(
    alloc: Global,
    case: &Case,
    choice: FaultChoice,
    written: &mut Vec<u8>,
) -> Option<Result<u8, CommandRefusal>> {
    let cluster = Cluster::new(case.nodes, case.slots)?;
    let mut reader = Tracked::reader(case.script.as_bytes());
    let mut events = Tracked::reader(case.events.as_bytes());
    let mut writer = Tracked::writer(written);
    let most = usize::MAX;
    let done = faults(
        alloc,
        &mut reader,
        &mut events,
        cluster,
        choice,
        most,
        &mut writer,
        &mut Unwatched,
    );
    match done {
        Ok(faults) => Some(Ok(faults.status)),
        Err(refusal) => Some(Err(refusal)),
    }
}

/// Runs the case's script on its cluster, and writes what is asked for.
fn run_written(
    alloc: Global,
    case: &Case,
    cluster: Cluster,
    form: &Form,
    written: &mut Vec<u8>,
) -> Result<u8, CommandRefusal> {
    let mut reader = Tracked::reader(case.script.as_bytes());
    let mut writer = Tracked::writer(written);
    run(
        alloc,
        &mut reader,
        cluster,
        *form,
        RunMemory::GivenBack,
        &mut writer,
        &mut Unwatched,
    )
}

/// Runs the case's script on its cluster; below what `why` tells stands where a trap comes about.
fn ran(
    alloc: Global,
    case: &Case,
    form: Form,
    written: &mut Vec<u8>,
) -> Option<Result<u8, CommandRefusal>> {
    let cluster = Cluster::new(case.nodes, case.slots)?;
    let status = match run_written(alloc, case, cluster, &form, written) {
        Ok(status) => status,
        Err(refusal) => return Some(Err(refusal)),
    };
    let Some(asked) = asked_below(&form) else {
        return Some(Ok(status));
    };
    let told = run_trap(alloc, case.script.as_bytes(), cluster, asked);
    Some(put_below(status, told, written))
}

/// What stands before the name of a command where a case wants the script's own part of an exported program.
const SCRIPT_OF: &str = "script of ";

/// The engine that a command names, if it exports a script.
fn engine_of(command: &str) -> Option<Engine> {
    match command {
        "export --to dask" => Some(Engine::Dask),
        "export --to ray" => Some(Engine::Ray),
        _ => None,
    }
}

/// Writes a script as a program for an engine.
fn exported(
    alloc: Global,
    engine: Engine,
    script: &[u8],
    written: &mut Vec<u8>,
) -> Result<u8, CommandRefusal> {
    let mut reader = Tracked::reader(script);
    let mut writer = Tracked::writer(written);
    export(alloc, &mut reader, engine, &mut writer)
}

/// Does what a command over a script alone says.
fn done_with_script(
    alloc: Global,
    command: &str,
    script: &[u8],
    written: &mut Vec<u8>,
) -> Option<Result<u8, CommandRefusal>> {
    if let Some(engine) = engine_of(command.strip_prefix(SCRIPT_OF).unwrap_or(command)) {
        return Some(exported(alloc, engine, script, written));
    }
    let mut reader = Tracked::reader(script);
    let mut writer = Tracked::writer(written);
    if command == "check" {
        return Some(check(alloc, &mut reader, &mut writer));
    }
    if command == "serial" {
        return Some(serial(alloc, &mut reader, &mut writer));
    }
    None
}

/// What a command over a script and a list of events writes, if that has no lists that may be cut.
fn report_form(command: &str) -> Option<Form> {
    match command {
        "sim" => Some(Form::Text),
        "sim --json" => Some(Form::Json),
        "sim --books" => Some(Form::TextWithBooks),
        "sim --summary" => Some(Form::TextWithSummary),
        "state" => Some(Form::State),
        _ => None,
    }
}

/// What a command over a script and a list of events tells, with long lists so.
fn told_form(command: &str, contents: Contents) -> Option<Form> {
    match command {
        "sim --timeline" => Some(Form::Timeline(contents)),
        "sim --lineage" => Some(Form::Lineage(contents)),
        "log" => Some(Form::Log(contents)),
        "log --messages" => Some(Form::LogWithMessages(contents)),
        "why" => Some(Form::WhyMain(contents)),
        _ => why_form(command.strip_prefix("why ")?, contents),
    }
}

/// What is told of an object, a worker or a node.
fn why_form(name: &str, contents: Contents) -> Option<Form> {
    match name.as_bytes() {
        [b'w', number @ ..] => {
            let worker = u32::try_from(read_number(number)?).ok()?;
            Some(Form::WhyWorker(contents, WorkerId(worker)))
        }
        [b'n', number @ ..] => {
            let node = u32::try_from(read_number(number)?).ok()?;
            Some(Form::WhyNode(contents, NodeId(node)))
        }
        object => Some(Form::Why(contents, ObjectId::read(object)?)),
    }
}

/// What a command over a script and a list of events writes; behind ` --full` lists are whole.
fn form_of(command: &str) -> Option<Form> {
    if let Some(form) = report_form(command) {
        return Some(form);
    }
    match command.strip_suffix(" --full") {
        Some(command) => told_form(command, Contents::Whole),
        None => told_form(command, Contents::Cut),
    }
}

/// What a command over a run that goes on to its end by itself writes.
fn form_of_run(command: &str) -> Option<Form> {
    match command {
        "run" => Some(Form::Text),
        "run --json" => Some(Form::Json),
        "run --summary" => Some(Form::TextWithSummary),
        "run --timeline" => Some(Form::Timeline(Contents::Cut)),
        "run --lineage" => Some(Form::Lineage(Contents::Cut)),
        "run --lineage --full" => Some(Form::Lineage(Contents::Whole)),
        "log of a run" => Some(Form::Log(Contents::Cut)),
        "log --messages of a run" => Some(Form::LogWithMessages(Contents::Cut)),
        "log --full of a run" => Some(Form::Log(Contents::Whole)),
        "why of a run" => Some(Form::WhyMain(Contents::Cut)),
        _ => why_form(
            command.strip_prefix("why ")?.strip_suffix(" of a run")?,
            Contents::Cut,
        ),
    }
}

/// What is written of a run up to where it stops.
fn form_so_far(command: &str) -> Option<Form> {
    match command {
        "sim --so-far" | "run --so-far" => Some(Form::Text),
        "limit" | "limit of a run" => Some(Form::Limit),
        _ => None,
    }
}

/// Drives the case's script, or replays its events on it, up to where that stops.
fn told_so_far(
    alloc: Global,
    case: &Case,
    form: Form,
    written: &mut Vec<u8>,
) -> Option<Result<u8, CommandRefusal>> {
    let cluster = Cluster::new(case.nodes, case.slots)?;
    let text = case.script.as_bytes();
    let done = match case.command.as_str() {
        "run --so-far" | "limit of a run" => run_so_far(alloc, text, cluster, form),
        _ => sim_so_far(alloc, text, case.events.as_bytes(), cluster, form),
    };
    match done {
        Ok(so_far) => Some(put_so_far(&so_far, written)),
        Err(refusal) => Some(Err(refusal)),
    }
}

fn put_so_far(so_far: &SoFar, written: &mut Vec<u8>) -> Result<u8, CommandRefusal> {
    put_all(&mut Tracked::writer(written), so_far.text.as_bytes())?;
    Ok(so_far.status)
}

/// Does what a command of the program says, over readers and a writer in memory. None where there is no such command or cluster.
fn done<R: Threads + Wait + Clock + AllocGlobal + Sync>(
    rt: &R,
    case: &Case,
    written: &mut Vec<u8>,
) -> Option<Result<u8, CommandRefusal>> {
    let alloc = rt.alloc();
    let command = case.command.as_str();
    if let Some(form) = form_so_far(command) {
        return told_so_far(alloc, case, form, written);
    }
    if let Some(form) = form_of_run(command) {
        return ran(alloc, case, form, written);
    }
    if let Some(form) = form_of(command) {
        return replayed(alloc, case, form, written);
    }
    if command == "migrate" {
        return migrated(alloc, case, written);
    }
    if let Some(at) = event_asked(command) {
        return told_state(alloc, case, at, written);
    }
    if let Some(choice) = faults_asked(command) {
        return tried(alloc, case, choice, written);
    }
    if let Some(asked) = threads_asked(command) {
        return ran_on_threads(rt, case, asked, written);
    }
    done_with_script(alloc, command, case.script.as_bytes(), written)
}

/// What a case compares of what was written: the script's own part of an exported program, where the command says so.
fn wanted<'a>(command: &str, text: &'a str) -> &'a str {
    if !command.starts_with(SCRIPT_OF) {
        return text;
    }
    match text.split_once("# The script.\n") {
        Some((_, part)) => part,
        None => text,
    }
}

/// What a command of the program comes to: a refusal is one line, with status 1.
fn outcome_of_command<R: Threads + Wait + Clock + AllocGlobal + Sync>(
    rt: &R,
    case: &Case,
) -> Result<Option<Outcome>, AllocError> {
    let alloc = rt.alloc();
    let mut bytes = Vec::new(alloc);
    let Some(answer) = done(rt, case, &mut bytes) else {
        return Ok(None);
    };
    let mut outcome = Outcome::new(alloc);
    match str::from_utf8(bytes.as_slice()) {
        Ok(text) => outcome
            .written
            .push_str(wanted(case.command.as_str(), text))?,
        Err(_) => outcome.written.push_str("no text")?,
    }
    match answer {
        Ok(status) => outcome.status = status,
        Err(refusal) => {
            outcome.status = 1;
            outcome.refusal = format!(in alloc; "{refusal}")?;
        }
    }
    Ok(Some(outcome))
}

/// The program of a text as it is printed, read again and printed once more. Nothing is written where a text is no program.
fn outcome_of_print(alloc: Global, case: &Case) -> Result<Outcome, AllocError> {
    let mut outcome = Outcome::new(alloc);
    let Ok(program) = parse(alloc, case.script.as_bytes()) else {
        return Ok(outcome);
    };
    let printed = print_program(alloc, &program)?;
    if let Ok(again) = parse(alloc, printed.as_bytes()) {
        outcome.written = print_program(alloc, &again)?;
    }
    Ok(outcome)
}

/// What comes of a case, or None where its command is none.
pub fn outcome_of<R: Threads + Wait + Clock + AllocGlobal + Sync>(
    rt: &R,
    case: &Case,
) -> Result<Option<Outcome>, AllocError> {
    if case.command.as_str() == "print" {
        return Ok(Some(outcome_of_print(rt.alloc(), case)?));
    }
    outcome_of_command(rt, case)
}
