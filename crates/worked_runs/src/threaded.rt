// Worked runs on threads: run, compared with what the case wants, and replayed from their history.

ghost use Rattle.std.specs.Prelude.{◌≤◌, IfSome};

use crate::case::Case;
use raysim_commands::{
    Cluster, CommandRefusal, Form, OpenGate, RunMemory, Tracked, run_threaded, sim,
};
use std::alloc::{AllocError, Global};
use std::rt::Clock;
use std::sync::Wait;
use std::thread::Threads;

/// What a case wants to see of a run on threads.
#[derive(Clone, Copy, PartialEq, Eq)]
enum Shown {
    Report,
    /// The history in front of the report.
    HistoryToo,
    /// The books of the seats behind the report.
    BooksToo,
}

/// What a case asks of a run on threads: how many there are, and what is written.
#[derive(Clone, Copy)]
pub struct Threaded {
    /// From 1 to 8.
    pub threads: u8,
    shown: Shown,
}

/// What a run on threads wrote, the report with the books of its seats, and its status.
#[derive(Drop)]
struct Ran {
    history: Vec<u8>,
    report: Vec<u8>,
    status: u8,
}

/// What stands in front of the option at the words' end, and what the option shows.
fn shown_by(words: &str) -> (&str, Shown) {
    if let Some(front) = words.strip_suffix(" --history") {
        return (front, Shown::HistoryToo);
    }
    if let Some(front) = words.strip_suffix(" --books") {
        return (front, Shown::BooksToo);
    }
    (words, Shown::Report)
}

/// `run --threads N`, with `--history` or `--books` behind it or without.
pub fn threads_asked(command: &str) -> Option<Threaded>
    ensures { IfSome result (λ asked. (1 ≤ asked.threads) × (asked.threads ≤ 8)) }
{
    let (number, shown) = shown_by(command.strip_prefix("run --threads ")?);
    match number.parse::<u8>() {
        Ok(threads) if threads >= 1 && threads <= 8 => Some(Threaded { threads, shown }),
        _ => None,
    }
}

/// Runs the case's script on threads, beside its events as a plan.
fn run_case<R: Threads + Wait + Clock + AllocGlobal + Sync>(
    rt: &R,
    case: &Case,
    cluster: Cluster,
    threads: u8,
) -> Result<Ran, CommandRefusal>
    requires { (1 ≤ threads) × (threads ≤ 8) }
{
    let mut history = Vec::new(rt.alloc());
    let mut report = Vec::new(rt.alloc());
    let status = run_threaded(
        rt,
        rt.alloc(),
        &mut Tracked::reader(case.script.as_bytes()),
        &mut Tracked::reader(case.events.as_bytes()),
        cluster,
        Form::TextWithBooks,
        threads,
        &OpenGate,
        &mut Tracked::writer(&mut history),
        &mut Tracked::writer(&mut report),
    )?;
    Ok(Ran {
        history,
        report,
        status,
    })
}

/// Whether the history, replayed, gives the same report, the same books of the seats, and the same status.
fn replays(alloc: Global, case: &Case, cluster: Cluster, ran: &Ran) -> bool {
    let mut again = Vec::new(alloc);
    let mut reader = Tracked::reader(case.script.as_bytes());
    let mut events = Tracked::reader(ran.history.as_slice());
    let mut writer = Tracked::writer(&mut again);
    match sim(
        alloc,
        &mut reader,
        &mut events,
        cluster,
        Form::TextWithBooks,
        RunMemory::GivenBack,
        &mut writer,
    ) {
        Ok(status) => status == ran.status && again.as_slice() == ran.report.as_slice(),
        Err(_) => false,
    }
}

/// Adds a history. Of several threads it is left open which takes which turn, so that an S stands in place of each seat's number.
fn add_history(written: &mut Vec<u8>, threads: u8, history: &str) -> Result<(), AllocError> {
    for line in history.lines() {
        match line.split_once(' ') {
            Some((seat, event)) if threads > 1 && seat != "raysim" => {
                written.extend_from_slice(b"S ")?;
                written.extend_from_slice(event.as_bytes())?;
            }
            _ => written.extend_from_slice(line.as_bytes())?,
        }
        written.push(b'\n')?;
    }
    Ok(())
}

/// Adds a report, and the books behind it if they are asked for.
fn add_report(written: &mut Vec<u8>, books: bool, report: &str) -> Result<(), AllocError> {
    for line in report.lines() {
        if books || !line.starts_with("book ") {
            written.extend_from_slice(line.as_bytes())?;
            written.push(b'\n')?;
        }
    }
    Ok(())
}

/// Adds what a run wrote, as far as the case asks for it.
fn add_written(
    written: &mut Vec<u8>,
    asked: Threaded,
    same: bool,
    ran: &Ran,
) -> Result<(), AllocError> {
    if asked.shown == Shown::HistoryToo {
        let history = str::from_utf8(ran.history.as_slice()).unwrap_or("no text");
        add_history(written, asked.threads, history)?;
    }
    let report = str::from_utf8(ran.report.as_slice()).unwrap_or("no text");
    add_report(written, asked.shown == Shown::BooksToo, report)?;
    if !same {
        written.extend_from_slice(b"the history replays to another report\n")?;
    }
    Ok(())
}

/// Runs the case's script on threads, and replays the history. None where there is no such cluster.
pub fn ran_on_threads<R: Threads + Wait + Clock + AllocGlobal + Sync>(
    rt: &R,
    case: &Case,
    asked: Threaded,
    written: &mut Vec<u8>,
) -> Option<Result<u8, CommandRefusal>>
    requires { (1 ≤ asked.threads) × (asked.threads ≤ 8) }
{
    let cluster = Cluster::new(case.nodes, case.slots)?;
    let ran = match run_case(rt, case, cluster, asked.threads) {
        Ok(ran) => ran,
        Err(refusal) => return Some(Err(refusal)),
    };
    let same = replays(rt.alloc(), case, cluster, &ran);
    match add_written(written, asked, same, &ran) {
        Ok(()) => Some(Ok(ran.status)),
        Err(_) => Some(Err(CommandRefusal::NoMemory)),
    }
}
