// What the matches of a subcommand say.

ghost use Rattle.std.specs.Prelude.{◌≡◌, ◌≤◌, Some, codes, is_some, option_map};
ghost use Rattle.clap.specs.Words.{first_of, found_of, rows_of};
ghost use Rattle.raysim_options.specs.App.{faults_app, log_app, raysim_app, run_app, sim_app, state_app, why_app, migrate_app};
ghost use Rattle.raysim_options.specs.Meets.{HasText, IsWithin, MeetsAll, MeetsOne};
ghost use Rattle.raysim_options.specs.Reads.{IsFaultsOptions, IsFlag, IsLogOptions, IsNumber, IsRequest, IsRunOptions, IsScriptOptions, IsSimOptions, IsWhyOptions, IsMigrateOptions};
ghost use Rattle.raysim_options.specs.Reads.{IsStateOptions, asks_for_threads};
ghost use Rattle.raysim_options.specs.App.{export_app};
ghost use Rattle.raysim_options.specs.Reads.{IsExportOptions};

use crate::subcommands::{MOST_NODES, MOST_SLOTS, MOST_THREADS};
use crate::{
    ExportOptions, FaultsOptions, LogOptions, MigrateOptions, Request, RunOptions, ScriptOptions,
    SimOptions, StateOptions, WhyOptions,
};
use clap::ArgMatches;

/// A number from 1 to `most`, or the default where the words leave it out.
fn number(matches: &ArgMatches<'_>, id: &str, most: u8, default: u8) -> u8
    requires default { (1 ≤ default) × (default ≤ most) }
    requires within { IsWithin (rows_of (found_of matches.now)) id.now 1 most }
    ensures { IsNumber (rows_of (found_of matches.now)) id.now most default result }
{
    matches.get_one::<u8>(id).unwrap_or(default)
}

/// A text, where the words have it.
fn text<'a>(matches: &ArgMatches<'a>, id: &str) -> Option<&'a str>
    ensures { option_map (λ s. s.now) result ≡ first_of id.now (rows_of (found_of matches.now)) }
{
    matches.get_str(id)
}

/// A text that the words have.
fn needed<'a>(matches: &ArgMatches<'a>, id: &str) -> &'a str
    requires { HasText (rows_of (found_of matches.now)) id.now }
    ensures { first_of id.now (rows_of (found_of matches.now)) ≡ Some result.now }
{
    match text(matches, id) {
        Some(text) => text,
        None => unreachable!(),
    }
}

/// Whether the words give the option a text.
fn is_given(matches: &ArgMatches<'_>, id: &str) -> bool
    ensures { result ≡ is_some (first_of id.now (rows_of (found_of matches.now))) }
{
    text(matches, id).is_some()
}

/// Whether the words give a number of threads, a plan or a history.
fn asks_for_threads(matches: &ArgMatches<'_>) -> bool
    ensures { result ≡ asks_for_threads (rows_of (found_of matches.now)) }
{
    if is_given(matches, "threads") {
        return true;
    }
    if is_given(matches, "plan") {
        return true;
    }
    is_given(matches, "history")
}

/// Whether the words have a flag.
fn flag(matches: &ArgMatches<'_>, id: &str) -> bool
    ensures { IsFlag (rows_of (found_of matches.now)) id.now result }
{
    matches.get_flag(id)
}

fn script<'a>(matches: &ArgMatches<'a>) -> ScriptOptions<'a>
    requires { HasText (rows_of (found_of matches.now)) (codes "script") }
    ensures { IsScriptOptions (rows_of (found_of matches.now)) result }
{
    ScriptOptions {
        script: needed(matches, "script"),
        explain: flag(matches, "explain"),
    }
}

fn sim<'a>(matches: &ArgMatches<'a>) -> SimOptions<'a>
    requires { MeetsAll sim_app.top.rules (rows_of (found_of matches.now)) }
    ensures { IsSimOptions (rows_of (found_of matches.now)) result }
{
    SimOptions {
        script: needed(matches, "script"),
        events: needed(matches, "events"),
        nodes: number(matches, "nodes", MOST_NODES, 1),
        slots: number(matches, "slots", MOST_SLOTS, 4),
        json: flag(matches, "json"),
        timeline: text(matches, "timeline"),
        lineage: text(matches, "lineage"),
        page: text(matches, "page"),
        books: flag(matches, "books"),
        full: flag(matches, "full"),
        explain: flag(matches, "explain"),
        summary: flag(matches, "summary"),
        so_far: flag(matches, "so-far"),
    }
}

fn migrate<'a>(matches: &ArgMatches<'a>) -> MigrateOptions<'a>
    requires { MeetsAll migrate_app.top.rules (rows_of (found_of matches.now)) }
    ensures { IsMigrateOptions (rows_of (found_of matches.now)) result }
{
    MigrateOptions {
        script: needed(matches, "script"),
        events: needed(matches, "events"),
        nodes: number(matches, "nodes", MOST_NODES, 1),
        slots: number(matches, "slots", MOST_SLOTS, 4),
        explain: flag(matches, "explain"),
    }
}

fn run<'a>(matches: &ArgMatches<'a>) -> RunOptions<'a>
    requires { MeetsAll run_app.top.rules (rows_of (found_of matches.now)) }
    ensures { IsRunOptions (rows_of (found_of matches.now)) result }
{
    RunOptions {
        script: needed(matches, "script"),
        on_threads: asks_for_threads(matches),
        threads: number(matches, "threads", MOST_THREADS, 2),
        nodes: number(matches, "nodes", MOST_NODES, 1),
        slots: number(matches, "slots", MOST_SLOTS, 4),
        plan: text(matches, "plan"),
        history: text(matches, "history"),
        json: flag(matches, "json"),
        timeline: text(matches, "timeline"),
        lineage: text(matches, "lineage"),
        page: text(matches, "page"),
        explain: flag(matches, "explain"),
        full: flag(matches, "full"),
        summary: flag(matches, "summary"),
        so_far: flag(matches, "so-far"),
        progress: flag(matches, "progress"),
        stream: flag(matches, "stream"),
    }
}

fn log<'a>(matches: &ArgMatches<'a>) -> LogOptions<'a>
    requires { MeetsAll log_app.top.rules (rows_of (found_of matches.now)) }
    ensures { IsLogOptions (rows_of (found_of matches.now)) result }
{
    LogOptions {
        script: needed(matches, "script"),
        events: text(matches, "events"),
        nodes: number(matches, "nodes", MOST_NODES, 1),
        slots: number(matches, "slots", MOST_SLOTS, 4),
        messages: flag(matches, "messages"),
        full: flag(matches, "full"),
        explain: flag(matches, "explain"),
        page: text(matches, "page"),
    }
}

fn why<'a>(matches: &ArgMatches<'a>) -> WhyOptions<'a>
    requires { MeetsAll why_app.top.rules (rows_of (found_of matches.now)) }
    ensures { IsWhyOptions (rows_of (found_of matches.now)) result }
{
    WhyOptions {
        script: needed(matches, "script"),
        events: text(matches, "events"),
        object: text(matches, "what"),
        nodes: number(matches, "nodes", MOST_NODES, 1),
        slots: number(matches, "slots", MOST_SLOTS, 4),
        full: flag(matches, "full"),
        explain: flag(matches, "explain"),
    }
}

fn faults<'a>(matches: &ArgMatches<'a>) -> FaultsOptions<'a>
    requires { MeetsAll faults_app.top.rules (rows_of (found_of matches.now)) }
    ensures { IsFaultsOptions (rows_of (found_of matches.now)) result }
{
    FaultsOptions {
        script: needed(matches, "script"),
        events: text(matches, "events"),
        nodes: number(matches, "nodes", MOST_NODES, 1),
        slots: number(matches, "slots", MOST_SLOTS, 4),
        of: text(matches, "of"),
        most: text(matches, "most"),
        out: text(matches, "out"),
        explain: flag(matches, "explain"),
        progress: flag(matches, "progress"),
    }
}

fn export<'a>(matches: &ArgMatches<'a>) -> ExportOptions<'a>
    requires { MeetsAll export_app.top.rules (rows_of (found_of matches.now)) }
    ensures { IsExportOptions (rows_of (found_of matches.now)) result }
{
    ExportOptions {
        script: needed(matches, "script"),
        to: needed(matches, "to"),
        explain: flag(matches, "explain"),
    }
}

fn state<'a>(matches: &ArgMatches<'a>) -> StateOptions<'a>
    requires { MeetsAll state_app.top.rules (rows_of (found_of matches.now)) }
    ensures { IsStateOptions (rows_of (found_of matches.now)) result }
{
    StateOptions {
        script: needed(matches, "script"),
        events: needed(matches, "events"),
        nodes: number(matches, "nodes", MOST_NODES, 1),
        slots: number(matches, "slots", MOST_SLOTS, 4),
        explain: flag(matches, "explain"),
        at: text(matches, "at"),
    }
}

/// Reads the options of the subcommand `name`.
pub(crate) fn read<'a>(name: &str, matches: &ArgMatches<'a>) -> Request<'a>
    requires { MeetsOne raysim_app.subs name.now (rows_of (found_of matches.now)) }
    ensures { IsRequest name.now (rows_of (found_of matches.now)) result }
{
    match name {
        "check" => Request::Check(script(matches)),
        "serial" => Request::Serial(script(matches)),
        "sim" => Request::Sim(sim(matches)),
        "run" => Request::Run(run(matches)),
        "log" => Request::Log(log(matches)),
        "why" => Request::Why(why(matches)),
        "faults" => Request::Faults(faults(matches)),
        "migrate" => Request::Migrate(migrate(matches)),
        "explain" => Request::Explain(needed(matches, "what")),
        "export" => Request::Export(export(matches)),
        "state" => Request::State(state(matches)),
        _ => unreachable!(),
    }
}
