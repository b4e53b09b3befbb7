// The orders of a run's deliveries.

ghost use Rattle.std.specs.Prelude.{◌≡◌};
ghost use Rattle.script_check.specs.Trees.{script_of};

use crate::faults::compared::begin_alike;
use crate::faults::fault_row::Row;
use event_files::{Line, parse_events};
use fault_lists::event_lines;
use fault_runs::replay_lines;
use ids::WorkerId;
use log_entries::Event;
use raysim_commands::{Cluster, compiled_script};
use segment::{Compiled, ScriptName};
use sequence::Seq;
use std::alloc::{AllocError, Global};
use std::io;
use std::marker::Brand;

/// How many orders of six numbers there are.
const ORDERS: usize = 720;

/// Order number `k` of the numbers 1 to 6, where numbers begin with 0.
fn order_of(alloc: Global, k: usize) -> Result<Vec<u64>, AllocError> {
    let mut left = Vec::new(alloc);
    for number in 1u64..7 {
        left.push(number)?;
    }
    let mut order = Vec::new(alloc);
    let mut rest = k;
    for _ in 0..6 {
        let count = left.len();
        if count > 0 {
            let place = rest % count;
            rest /= count;
            order.push(left.remove(place))?;
        }
    }
    Ok(order)
}

/// The message is delivered, and then both workers go on where they can.
fn add_delivery(events: &mut Vec<Event>, message: u64) -> Result<(), AllocError> {
    events.push(Event::Deliver(message))?;
    events.push(Event::Claim(WorkerId(2)))?;
    events.push(Event::Commit(2))?;
    events.push(Event::Claim(WorkerId(1)))?;
    events.push(Event::Commit(3))?;
    Ok(())
}

/// The events in which main's first job is done and then the messages come in this order, six times over.
fn events_of(alloc: Global, order: &[u64]) -> Result<Vec<Event>, AllocError> {
    let mut events = Vec::new(alloc);
    events.push(Event::Claim(WorkerId(1)))?;
    events.push(Event::Commit(1))?;
    for _ in 0..6 {
        for message in order {
            add_delivery(&mut events, *message)?;
        }
    }
    Ok(events)
}

/// The report of the run by these lines, or None where there is no memory.
fn report_of<S: ScriptName>(
    alloc: Global,
    script: &Compiled,
    cluster: Cluster,
    lines: &Seq<Line>,
) -> Result<Option<String>, AllocError>
    requires { script_of script.now ≡ S.script }
{
    let Ok(run) = replay_lines::<S>(alloc, script, cluster, lines) else {
        return Ok(None);
    };
    let report = run.replay.board().report(alloc);
    drop(run);
    Ok(Some(report?))
}

/// Whether the report of the run in this order begins with the four lines.
fn is_alike<S: ScriptName>(
    alloc: Global,
    script: &Compiled,
    cluster: Cluster,
    k: usize,
    wanted: &str,
) -> Result<bool, AllocError>
    requires { script_of script.now ≡ S.script }
{
    let order = order_of(alloc, k)?;
    let events = events_of(alloc, order.as_slice())?;
    let lines = event_lines(alloc, events.as_slice())?;
    let Some(report) = report_of::<S>(alloc, script, cluster, &lines)? else {
        return Ok(false);
    };
    Ok(begin_alike(report.as_str(), wanted))
}

/// How many orders of the messages 1 to 6 give a report that begins with four lines as that of the row's own events.
fn count_alike<S: ScriptName>(
    alloc: Global,
    script: &Compiled,
    cluster: Cluster,
    lines: &Seq<Line>,
) -> Result<usize, AllocError>
    requires { script_of script.now ≡ S.script }
{
    let Some(wanted) = report_of::<S>(alloc, script, cluster, lines)? else {
        return Ok(0);
    };
    let mut alike = 0usize;
    for k in 0..ORDERS {
        if is_alike::<S>(alloc, script, cluster, k, wanted.as_str())? {
            alike = alike.saturating_add(1);
        }
    }
    Ok(alike)
}

/// Tries all orders of a row's six messages, and says whether all reports begin with the same four lines.
pub fn try_orders<R: Print + AllocGlobal>(rt: &R, row: &Row) -> io::Result<bool> {
    let alloc = rt.alloc();
    let Some(cluster) = Cluster::new(row.nodes, row.slots) else {
        return Ok(false);
    };
    let Ok(script) = compiled_script(alloc, row.script.as_bytes()) else {
        return Ok(false);
    };
    let Ok(lines) = parse_events(alloc, row.events.as_bytes()) else {
        return Ok(false);
    };
    let alike = count_alike::<Brand>(alloc, &script, cluster, &lines)?;
    let name = row.name.as_str();
    let differ = ORDERS.saturating_sub(alike);
    println!(rt; "{name}: {ORDERS} orders of deliveries, {differ} differ")?;
    Ok(differ == 0)
}
