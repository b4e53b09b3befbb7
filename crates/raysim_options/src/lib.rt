//! The words of the command line, read with `clap`.
#![tactic(auto)]

ghost use Rattle.std.specs.Prelude.{◌≡◌, IfErr, IfOk, map, string_bytes};
ghost use Rattle.clap.specs.Words.{kind_of, subcommand_of};
ghost use Rattle.clap.specs.declared.error.kind.ErrorKind.TheVariants.{ArgumentConflict};
ghost use Rattle.raysim_options.specs.App.{raysim_app};
ghost use Rattle.raysim_options.specs.Reads.{Asks, FailsSo, HasCluster, IsOneForm, Refuses, asks_for_both, two_of};

mod commands;
mod read;
mod subcommands;

use clap::error::ErrorKind;
use clap::{Command, Error};
use std::alloc::{AllocError, Global};
pub use subcommands::{MOST_NODES, MOST_SLOTS, MOST_THREADS};

/// What the program was asked to do. Texts are paths of files, as the words have them.
#[derive(Drop)]
pub enum Request<'a> {
    /// Check whether a text is a script that the rules allow.
    Check(ScriptOptions<'a>),
    /// Run a script with each remote call as a plain call.
    Serial(ScriptOptions<'a>),
    /// Run a script by a list of events.
    Sim(SimOptions<'a>),
    /// Run a script until nothing is left to do, on threads or not.
    Run(RunOptions<'a>),
    /// Tell what happened in a run.
    Log(LogOptions<'a>),
    /// Tell why an object, a worker or a node of a run, or main, is as it is.
    Why(WhyOptions<'a>),
    /// Try a fault at every place of a run.
    Faults(FaultsOptions<'a>),
    /// Write a list of events as one of format 2.
    Migrate(MigrateOptions<'a>),
    /// Tell what this number or name means.
    Explain(&'a str),
    /// Write a script as a program for an engine.
    Export(ExportOptions<'a>),
    /// Tell what is alive in a run.
    State(StateOptions<'a>),
}

/// What `check` and `serial` are given.
#[derive(Drop)]
pub struct ScriptOptions<'a> {
    /// The script's file.
    pub script: &'a str,
    /// Whether a refusal's place is shown.
    pub explain: bool,
}

/// What `sim` is given. The report is JSON, or has the books of the seats or a summary behind it, and only one of these.
#[derive(Drop)]
pub struct SimOptions<'a> {
    /// The script's file.
    pub script: &'a str,
    /// The file with the list of events.
    pub events: &'a str,
    /// How many nodes there are at first, from 1 to 64, by default 1.
    pub nodes: u8,
    /// How many slots each node has, from 1 to 64, by default 4.
    pub slots: u8,
    /// Whether the report is one line of JSON.
    pub json: bool,
    /// The file to which the run's timeline is written, if it is.
    pub timeline: Option<&'a str>,
    /// The file to which the run's lineage is written, if it is.
    pub lineage: Option<&'a str>,
    /// The file to which the run's page is written, if it is.
    pub page: Option<&'a str>,
    /// Whether the books of the seats are written behind the report.
    pub books: bool,
    /// Whether timeline, lineage and page have all items of long lists, of which else three are written.
    pub full: bool,
    /// Whether a refusal's place is shown.
    pub explain: bool,
    /// Whether a summary is written behind the report.
    pub summary: bool,
    /// Whether the report is written as far as it goes where the run is stopped.
    pub so_far: bool,
}

/// What `migrate` is given. Nodes and slots are as for `sim`.
#[derive(Drop)]
pub struct MigrateOptions<'a> {
    /// The script's file.
    pub script: &'a str,
    /// The file with the list of events, of format 1.
    pub events: &'a str,
    pub nodes: u8,
    pub slots: u8,
    /// Whether a refusal's place is shown.
    pub explain: bool,
}

/// What `faults` is given. Nodes and slots are as for `sim`.
#[derive(Drop)]
pub struct FaultsOptions<'a> {
    /// The script's file.
    pub script: &'a str,
    /// The file with the list of events; with none the run goes on to its end by itself.
    pub events: Option<&'a str>,
    pub nodes: u8,
    pub slots: u8,
    /// Which kinds of faults are tried, as the words have them; not yet read.
    pub of: Option<&'a str>,
    /// How many lists are tried at most, as the words have it; not yet read as a number.
    pub most: Option<&'a str>,
    /// The folder in which the first list for each different end is written, if it is.
    pub out: Option<&'a str>,
    /// Whether a refusal's place is shown.
    pub explain: bool,
    /// Whether it is told how many lists were tried while it goes on.
    pub progress: bool,
}

/// What `run` is given. Nodes and slots are as for `sim`; a report that is JSON has no summary.
#[derive(Drop)]
pub struct RunOptions<'a> {
    /// The script's file.
    pub script: &'a str,
    /// Whether it is run on threads, which it is where a number of threads, a plan or a history is asked for.
    pub on_threads: bool,
    /// How many threads there are, from 1 to 8, by default 2.
    pub threads: u8,
    pub nodes: u8,
    pub slots: u8,
    /// The file with a plan of events to apply, if there is one.
    pub plan: Option<&'a str>,
    /// The file in which the events that were applied are recorded, if they are.
    pub history: Option<&'a str>,
    /// Whether the report is one line of JSON.
    pub json: bool,
    /// The file to which the run's timeline is written, if it is.
    pub timeline: Option<&'a str>,
    /// The file to which the run's lineage is written, if it is.
    pub lineage: Option<&'a str>,
    /// The file to which the run's page is written, if it is.
    pub page: Option<&'a str>,
    /// Whether a refusal's place is shown.
    pub explain: bool,
    /// Whether timeline, lineage and page have all items of long lists, of which else three are written.
    pub full: bool,
    /// Whether a summary is written behind the report.
    pub summary: bool,
    /// Whether the report is written as far as it goes where the run is stopped.
    pub so_far: bool,
    /// Whether it is told how far the run is while it goes on.
    pub progress: bool,
    /// Whether it is told what main prints while the run goes on.
    pub stream: bool,
}

/// What `log` is given. Nodes and slots are as for `sim`.
#[derive(Drop)]
pub struct LogOptions<'a> {
    /// The script's file.
    pub script: &'a str,
    /// The file with the list of events; with none the run is driven.
    pub events: Option<&'a str>,
    pub nodes: u8,
    pub slots: u8,
    /// Whether the messages are told too.
    pub messages: bool,
    /// Whether all items of long lists are told, of which else three are.
    pub full: bool,
    /// Whether a refusal's place is shown.
    pub explain: bool,
    /// The file to which the run's page is written, if it is.
    pub page: Option<&'a str>,
}

/// What `why` is given. Nodes and slots are as for `sim`.
#[derive(Drop)]
pub struct WhyOptions<'a> {
    /// The script's file.
    pub script: &'a str,
    /// The file with the list of events; with none the run is driven.
    pub events: Option<&'a str>,
    /// The object, worker or node that is asked about, as the words have it; with none main is.
    pub object: Option<&'a str>,
    pub nodes: u8,
    pub slots: u8,
    /// Whether all items of long lists are told, of which else three are.
    pub full: bool,
    /// Whether a refusal's place is shown.
    pub explain: bool,
}

/// What `export` is given.
#[derive(Drop)]
pub struct ExportOptions<'a> {
    /// The script's file.
    pub script: &'a str,
    /// The name of an engine as the words have it; whether there is such an engine isn't looked at yet.
    pub to: &'a str,
    /// Whether a refusal's place is shown.
    pub explain: bool,
}

/// What `state` is given. Nodes and slots are as for `sim`.
#[derive(Drop)]
pub struct StateOptions<'a> {
    /// The script's file.
    pub script: &'a str,
    /// The file with the list of events.
    pub events: &'a str,
    pub nodes: u8,
    pub slots: u8,
    /// Whether a refusal's place is shown.
    pub explain: bool,
    /// The number of the event behind which the state is told, as the words have it; with none it is that at the list's end.
    pub at: Option<&'a str>,
}

/// Whether two of the three are so, or all.
fn two_of(first: bool, second: bool, third: bool) -> bool
    ensures { result ≡ two_of first second third }
{
    if first {
        return second || third;
    }
    second && third
}

/// Whether two of these are asked for: JSON, the books of the seats, and a summary.
fn asks_for_both(request: &Request<'_>) -> bool
    ensures { result ≡ asks_for_both request.now }
{
    match request {
        Request::Sim(options) => two_of(options.json, options.books, options.summary),
        Request::Run(options) => options.json && options.summary,
        _ => false,
    }
}

/// Which of them they are.
fn conflict_words(request: &Request<'_>) -> &'static str {
    match request {
        Request::Sim(options) if !options.summary => {
            "the argument '--books' cannot be used with '--json'"
        }
        Request::Sim(options) if !options.json => {
            "the argument '--summary' cannot be used with '--books'"
        }
        _ => "the argument '--summary' cannot be used with '--json'",
    }
}

/// The command whose words ask for them.
fn conflicting(alloc: Global, request: &Request<'_>) -> Result<Command<'static>, AllocError> {
    match request {
        Request::Run(_) => commands::run(alloc)?.bin_name("raysim run"),
        _ => commands::sim(alloc)?.bin_name("raysim sim"),
    }
}

/// What is said of words that ask for two of them.
fn conflict(alloc: Global, request: &Request<'_>) -> Result<Error, AllocError>
    ensures { IfOk result (λ e. kind_of e ≡ ArgumentConflict) }
{
    let mut command = conflicting(alloc, request)?;
    let error = command.error(ErrorKind::ArgumentConflict, conflict_words(request));
    drop(command);
    error
}

/// Reads the words of the command line, of which the first is the program's name. Where the words are at fault, ask for help or the
/// version, or memory runs out, the error displays the text for standard error.
pub fn options<'a>(alloc: Global, words: &'a [String]) -> Result<Request<'a>, Error>
    // The request is the one that the words name, with the values that they give; what they leave out has its default.
    ensures asked { IfOk result (Asks (subcommand_of raysim_app (map string_bytes words.entry.now))) }
    // A run that is asked for has from 1 to 64 nodes, with from 1 to 64 slots each, and on threads from 1 to 8 of them.
    ensures cluster { IfOk result HasCluster }
    // A report is JSON, or has the books of the seats behind it, or a summary, and only one of them.
    ensures form { IfOk result IsOneForm }
    // Words that the command takes are refused for want of memory, or where they ask for two of JSON, books and a summary.
    ensures refused { IfErr result (Refuses (map string_bytes words.entry.now)) }
    // An error says what is at fault first in the words, that they ask for two of them, or that memory ran out, and words at fault are refused.
    ensures kinds { FailsSo (map string_bytes words.entry.now) result }
{
    let command = commands::raysim(alloc)?;
    let matches = command.try_get_matches_from(words)?;
    match matches.subcommand() {
        Some((name, found)) => {
            let request = read::read(name, found);
            if asks_for_both(&request) {
                return Err(conflict(alloc, &request)?);
            }
            Ok(request)
        }
        None => unreachable!(),
    }
}
