// A row, tried with each fault.

ghost use Rattle.std.specs.Prelude.{◌≡◌};
ghost use Rattle.script_check.specs.Trees.{script_of};

use crate::faults::causes::all_have_causes;
use crate::faults::compared::reads_as_serial;
use crate::faults::fault_row::Row;
use event_files::{Line, parse_events};
use fault_lists::{
    FaultChoice, FaultList, RunEnd, end_of, event_lines, event_list, events_in, fault_lists,
};
use fault_runs::{Replayed, replay_lines};
use log_entries::{Entry, Event};
use raysim_commands::{Cluster, Tracked, compiled_script, serial};
use segment::{Compiled, ScriptName};
use sequence::Seq;
use std::alloc::{AllocError, Global};
use std::io;
use std::marker::Brand;
use values::FaultKind;

/// Deaths with a notice and without, and losses.
const CHOICE: FaultChoice = FaultChoice {
    kill: true,
    told_kill: true,
    kill_node: false,
    lose: true,
    evict: false,
};

/// How many lists were tried, in how many main ended in each way, and how many differ from what is promised.
#[derive(Clone, Copy, PartialEq, Eq, Debug)]
pub struct Tally {
    /// How many lists were tried.
    pub lists: u64,
    /// In how many main ended as the serial run does.
    pub serial: u64,
    /// In how many main had the fault `OwnerDied`; so `PutLost` and `RetriesUsed`.
    pub owner_died: u64,
    pub put_lost: u64,
    pub retries_used: u64,
    /// In how many nothing was left to do, and main had no end.
    pub open: u64,
    /// In how many main's own worker died.
    pub killed: u64,
    /// How many runs were stopped.
    pub stopped: u64,
    /// How many weren't what is promised: 0 in a row that passes.
    pub differ: u64,
}

impl Tally {
    /// Nothing was tried yet.
    pub fn new() -> Tally {
        Tally {
            lists: 0,
            serial: 0,
            owner_died: 0,
            put_lost: 0,
            retries_used: 0,
            open: 0,
            killed: 0,
            stopped: 0,
            differ: 0,
        }
    }

    fn count_fault(&mut self, kind: FaultKind) {
        match kind {
            FaultKind::OwnerDied => self.owner_died = self.owner_died.saturating_add(1),
            FaultKind::PutLost => self.put_lost = self.put_lost.saturating_add(1),
            FaultKind::RetriesUsed => self.retries_used = self.retries_used.saturating_add(1),
        }
    }

    fn count(&mut self, end: RunEnd, differs: bool) {
        self.lists = self.lists.saturating_add(1);
        match end {
            RunEnd::AsSerial => self.serial = self.serial.saturating_add(1),
            RunEnd::Faulted(fault) => self.count_fault(fault.kind),
            RunEnd::Open => self.open = self.open.saturating_add(1),
            RunEnd::Killed => self.killed = self.killed.saturating_add(1),
            RunEnd::Stopped => self.stopped = self.stopped.saturating_add(1),
        }
        if differs {
            self.differ = self.differ.saturating_add(1);
        }
    }
}

/// What a row is tried on: its cluster, what the serial run writes, and whether each list is told with its report.
#[derive(Drop)]
pub struct Ground {
    pub cluster: Cluster,
    /// What the serial run of the script writes.
    pub serial: String,
    /// Whether each list is told with its report.
    pub tells: bool,
}

/// What the serial run of the script writes.
fn serial_text(alloc: Global, script: &[u8]) -> Result<String, AllocError> {
    let mut bytes = Vec::new(alloc);
    let mut writer = Tracked::writer(&mut bytes);
    if serial(alloc, &mut Tracked::reader(script), &mut writer).is_err() {
        return Ok(String::new(alloc));
    }
    String::from_str(alloc, str::from_utf8(bytes.as_slice()).unwrap_or("no text"))
}

fn end_in<S: ScriptName>(run: &Replayed<S>, log: &[Entry]) -> RunEnd {
    if run.is_stopped {
        return RunEnd::Stopped;
    }
    end_of(log)
}

/// Whether the log is as it is promised: main as in the serial run, as far as it came, and a cause before each fault.
fn is_as_promised(
    alloc: Global,
    log: &[Entry],
    report: &str,
    serial: &str,
) -> Result<bool, AllocError> {
    Ok(reads_as_serial(report, serial) && all_have_causes(alloc, log)?)
}

/// Writes a list's fault, what main's worker is told behind it, and where they stand.
fn tell_list<R: Print>(rt: &R, list: &FaultList) -> io::Result<()> {
    let (fault, place) = (list.fault, list.place);
    match list.notice {
        Some(notice) => println!(rt; "{fault} and {notice} behind event {place}"),
        None => println!(rt; "{fault} behind event {place}"),
    }
}

/// Counts the replay of a list, and tells it where something differs or all is told.
fn count_replay<S: ScriptName, R: Print + AllocGlobal>(
    rt: &R,
    run: &Replayed<S>,
    ground: &Ground,
    list: &FaultList,
    tally: &mut Tally,
) -> io::Result<()> {
    let alloc = rt.alloc();
    let board = run.replay.board();
    let report = board.report(alloc)?;
    let (text, serial) = (report.as_str(), ground.serial.as_str());
    let differs = !is_as_promised(alloc, board.log(), text, serial)?;
    tally.count(end_in(run, board.log()), differs);
    if differs || ground.tells {
        tell_list(rt, list)?;
        print!(rt; "{text}")?;
    }
    Ok(())
}

/// Tries one list, counts it, and names it where it differs from what is promised. Its report is written where the ground asks for it.
fn try_list<S: ScriptName, R: Print + AllocGlobal>(
    rt: &R,
    script: &Compiled,
    ground: &Ground,
    events: &[Event],
    list: &FaultList,
    tally: &mut Tally,
) -> io::Result<()>
    requires { script_of script.now ≡ S.script }
{
    let alloc = rt.alloc();
    let all = event_list(alloc, events, list)?;
    let lines = event_lines(alloc, all.as_slice())?;
    let Ok(run) = replay_lines::<S>(alloc, script, ground.cluster, &lines) else {
        return println!(rt; "no memory");
    };
    let counted = count_replay(rt, &run, ground, list, tally);
    drop(run);
    counted
}

/// Tries each list that is the log's history with one fault more.
fn try_each<S: ScriptName, R: Print + AllocGlobal>(
    rt: &R,
    script: &Compiled,
    ground: &Ground,
    log: &[Entry],
    tally: &mut Tally,
) -> io::Result<()>
    requires { script_of script.now ≡ S.script }
{
    let alloc = rt.alloc();
    let events = events_in(alloc, log)?;
    let nodes = u32::from(ground.cluster.nodes());
    let lists = fault_lists(alloc, log, nodes, CHOICE, usize::MAX)?;
    for list in lists.first.as_slice() {
        try_list::<S, R>(rt, script, ground, events.as_slice(), list, tally)?;
    }
    Ok(())
}

/// Tries each list of the history of these lines with one fault more.
fn try_script<S: ScriptName, R: Print + AllocGlobal>(
    rt: &R,
    script: &Compiled,
    ground: &Ground,
    lines: &Seq<Line>,
) -> io::Result<Tally>
    requires { script_of script.now ≡ S.script }
{
    let alloc = rt.alloc();
    let mut tally = Tally::new();
    let Ok(run) = replay_lines::<S>(alloc, script, ground.cluster, lines) else {
        return Ok(tally);
    };
    let log = run.replay.board().log();
    let tried = try_each::<S, R>(rt, script, ground, log, &mut tally);
    drop(run);
    tried?;
    Ok(tally)
}

/// Tries a row, and tells each list with its report where that is asked for, else those alone that differ from what is promised. None where the row isn't a
/// script with events on a cluster.
pub fn try_row<R: Print + AllocGlobal>(
    rt: &R,
    row: &Row,
    tells: bool,
) -> io::Result<Option<Tally>> {
    let alloc = rt.alloc();
    let Some(cluster) = Cluster::new(row.nodes, row.slots) else {
        return Ok(None);
    };
    let Ok(script) = compiled_script(alloc, row.script.as_bytes()) else {
        return Ok(None);
    };
    let Ok(lines) = parse_events(alloc, row.events.as_bytes()) else {
        return Ok(None);
    };
    let serial = serial_text(alloc, row.script.as_bytes())?;
    let ground = Ground {
        cluster,
        serial,
        tells,
    };
    Ok(Some(try_script::<Brand, R>(rt, &script, &ground, &lines)?))
}
