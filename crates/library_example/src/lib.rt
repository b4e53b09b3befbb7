//! The runtime as a library (docs/library.md): a script is read and checked, run event by event on two nodes, and its log is read.
#![tactic(auto)]

ghost use Rattle.std.specs.Prelude.{◌≡◌};
ghost use Rattle.script_check.specs.Trees.{script_of};

use log_entries::{Entry, Event, Refusal};
use protocol_board::{Board, Cluster, Core, Reply};
use script_check::{CheckError, check};
use script_syntax::{SyntaxError, parse};
use segment::{Compiled, Job, NoMemory, ScriptName};
use sequence::Seq;
use std::alloc::{AllocError, Global};
use std::io;
use std::marker::Brand;
use std::process::ExitCode;
use thiserror::Error;

const SCRIPT: &str = "fn sq(x: int) -> int { return x * x; }
fn main() -> int { let r = remote sq(7); print get r; return 0; }
";

/// Why there is no report.
#[derive(Debug, Drop, Error)]
enum Failure {
    #[error("{0}")]
    Syntax(#[from] SyntaxError),
    #[error("{0}")]
    Check(#[from] CheckError),
    #[error("{0}")]
    Refused(#[from] Refusal),
    #[error("{0}")]
    Job(#[from] NoMemory),
    #[error("no memory")]
    Memory(#[from] AllocError),
    #[error("a cluster has 1 to 64 nodes, each of 1 to 64 slots")]
    Cluster,
}

/// The script, checked and compiled.
fn compiled(alloc: Global, text: &str) -> Result<Compiled, Failure> {
    let program = parse(alloc, text.as_bytes())?;
    let script = check(alloc, program)?;
    Ok(Compiled::new(alloc, script)?)
}

/// Applies event by event to the run, until nothing is left to do or a thousand events have come. Each job is run when its commit is due.
fn play<S: ScriptName>(
    alloc: Global,
    script: &Compiled,
    board: &mut Board<S>,
) -> Result<(), Failure>
    requires { script_of script.now ≡ S.script }
{
    let nobody = Seq::new(alloc);
    let mut given: Option<Job<S>> = None;
    for _ in 0..1000 {
        let Some(event) = board.next(&nobody) else {
            break;
        };
        let done = match (event, given.take()) {
            (Event::Commit(_), Some(job)) => Some(job.run(alloc, script)?),
            _ => None,
        };
        match board.apply(alloc, event, 0, done) {
            Reply::Job(job) => given = Some(job),
            Reply::Ok => {}
            Reply::Refused(refusal) => return Err(Failure::Refused(refusal)),
        }
    }
    Ok(())
}

/// The events of the run's log, a line for each, and the report behind them.
fn told<S: ScriptName>(alloc: Global, board: &Board<S>) -> Result<String, Failure> {
    let mut text = String::new(alloc);
    for entry in board.log() {
        if let Entry::In { event, .. } = entry {
            text.push_str(format!(in alloc; "{event}\n")?.as_str())?;
        }
    }
    text.push_str(board.report(alloc)?.as_str())?;
    Ok(text)
}

/// What is told of a run of the script on two nodes. The run is let go of by a call: that is proved once, and not on each way out.
fn run<S: ScriptName>(alloc: Global, script: &Compiled) -> Result<String, Failure>
    requires { script_of script.now ≡ S.script }
{
    let cluster = Cluster::new(2, 1).ok_or(Failure::Cluster)?;
    let mut board = Board::new(Core::<S>::new(alloc, script.script(), cluster)?);
    let text = match play(alloc, script, &mut board) {
        Ok(()) => told(alloc, &board),
        Err(failure) => Err(failure),
    };
    drop(board);
    text
}

/// What there is to tell.
fn answer(alloc: Global) -> Result<String, Failure> {
    let script = compiled(alloc, SCRIPT)?;
    run::<Brand>(alloc, &script)
}

/// Writes the events and the report of the example's run, with status 0, or tells why there is none, with status 1.
pub fn tell_run<R: Print + Eprint + AllocGlobal>(rt: &R) -> io::Result<ExitCode> {
    match answer(rt.alloc()) {
        Ok(text) => {
            print!(rt; "{text}")?;
            Ok(ExitCode::from(0))
        }
        Err(failure) => {
            eprintln!(rt; "{failure}")?;
            Ok(ExitCode::from(1))
        }
    }
}
