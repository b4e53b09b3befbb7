// Which limit a run met, in which event, and what to do.

ghost use Rattle.std.specs.Prelude.{◌≡◌, ◌++◌, false, IfOk, OnOk, string_bytes};
ghost use Rattle.why_text.specs.Moments.{first_moment, moment_of, when_text};
ghost use Rattle.limit_text.specs.Text.{ends_at_limit, is_limit, limit_text, met_text, moment_behind, nodes_head, nodes_remedy, nodes_text};
ghost use Rattle.limit_text.specs.Text.{objects_head, objects_remedy, objects_text, others_text, step_text, stop_text};
ghost use Rattle.limit_text.specs.Text.{workers_head, workers_remedy, workers_text};

use log_entries::{Entry, Event, Refusal};
use log_text::opened;
use std::alloc::{AllocError, Global};
use why_text::{Moment, write_when};

fn is_limit(entry: &Entry) -> bool
    ensures { result ≡ is_limit entry.now }
{
    match entry {
        Entry::Refused(Refusal::Limit) => true,
        _ => false,
    }
}

/// Whether the log's last entry refuses an event for a limit.
fn ends_at_limit(log: &[Entry]) -> bool
    ensures { result ≡ ends_at_limit false log.now }
{
    let mut limited = false;
    for entry in log {
        limited = is_limit(entry);
    }
    limited
}

/// The log's last event, with how many came.
fn moment_behind(log: &[Entry], lines: &[usize]) -> Moment
    ensures { moment_of result ≡ moment_behind lines.now first_moment log.now }
{
    let mut moment = Moment::first();
    for entry in log {
        moment = moment.after(lines, entry);
    }
    moment
}

/// Writes what stands before a moment, the moment, and what stands behind it.
fn write_around(
    text: &mut String,
    before: &str,
    moment: &Moment,
    behind: &str,
) -> Result<(), AllocError>
    ensures { OnOk result (string_bytes text.new ≡ string_bytes text.old ++ (before.now ++ (when_text (moment_of moment.now) ++ behind.now))) }
{
    text.push_str(before)?;
    write_when(text, moment)?;
    text.push_str(behind)?;
    Ok(())
}

#[tactic(auto, unfolding(crate::specs::Text::nodes_head, crate::specs::Text::nodes_remedy))]
fn write_nodes(text: &mut String, moment: &Moment) -> Result<(), AllocError>
    ensures { OnOk result (string_bytes text.new ≡ string_bytes text.old ++ nodes_text (moment_of moment.now)) }
{
    let limit = "limit: 64 nodes in all, dead ones too: one more would have joined";
    write_around(text, limit, moment, "\nwhat to do: let fewer nodes join\n")
}

#[tactic(auto, unfolding(crate::specs::Text::workers_head, crate::specs::Text::workers_remedy))]
fn write_workers(text: &mut String, moment: &Moment) -> Result<(), AllocError>
    ensures { OnOk result (string_bytes text.new ≡ string_bytes text.old ++ workers_text (moment_of moment.now)) }
{
    let limit = "limit: 1,024 workers in all, dead ones too: one more would have been opened";
    let remedy =
        "\nwhat to do: get some results before the next tasks are begun, or give each task more to do\n";
    write_around(text, limit, moment, remedy)
}

#[tactic(auto, unfolding(crate::specs::Text::objects_head, crate::specs::Text::objects_remedy))]
fn write_objects(text: &mut String, moment: &Moment) -> Result<(), AllocError>
    ensures { OnOk result (string_bytes text.new ≡ string_bytes text.old ++ objects_text (moment_of moment.now)) }
{
    let limit = "limit: 1,000,000 objects in all, released ones too: more would have been made";
    let remedy =
        "\nwhat to do: give each task more to do, so that there are fewer, and put fewer values\n";
    write_around(text, limit, moment, remedy)
}

fn write_others(text: &mut String, moment: &Moment, workers: usize) -> Result<(), AllocError>
    ensures { OnOk result (string_bytes text.new ≡ string_bytes text.old ++ others_text (moment_of moment.now) workers) }
{
    if workers == 1024 {
        return write_workers(text, moment);
    }
    write_objects(text, moment)
}

/// Writes which limit the event would have passed.
fn write_met(
    text: &mut String,
    moment: &Moment,
    workers: usize,
    event: Option<Event>,
) -> Result<(), AllocError>
    ensures { OnOk result (string_bytes text.new ≡ string_bytes text.old ++ met_text (moment_of moment.now) workers event) }
{
    let Some(event) = event else {
        return Ok(());
    };
    match event {
        Event::Join => write_nodes(text, moment),
        _ => write_others(text, moment, workers),
    }
}

#[tactic(auto, unfolding(crate::specs::Text::step_text))]
fn write_step(text: &mut String, moment: &Moment) -> Result<(), AllocError>
    ensures { OnOk result (string_bytes text.new ≡ string_bytes text.old ++ step_text (moment_of moment.now)) }
{
    text.push_str("the last step was")?;
    write_when(text, moment)?;
    text.push_str("\n")
}

fn write_stop(
    text: &mut String,
    moment: &Moment,
    workers: usize,
    is_limited: bool,
) -> Result<(), AllocError>
    ensures { OnOk result (string_bytes text.new ≡ string_bytes text.old ++ stop_text (moment_of moment.now) workers is_limited) }
{
    if is_limited {
        return write_met(text, moment, workers, moment.event);
    }
    write_step(text, moment)
}

#[tactic(auto, unfolding(crate::specs::Text::limit_text))]
fn write_limit(
    alloc: Global,
    text: &mut String,
    log: &[Entry],
    lines: &[usize],
) -> Result<(), AllocError>
    ensures { OnOk result (string_bytes text.new ≡ string_bytes text.old ++ limit_text log.now lines.now) }
{
    let nodes = opened(alloc, log)?;
    let moment = moment_behind(log, lines);
    let is_limited = ends_at_limit(log);
    write_stop(text, &moment, nodes.len(), is_limited)
}

/// Where a run stopped. If its last event was refused 37, which limit that is: of nodes for a join, of workers where there are 1,024, else of objects,
/// and in which event, with the line of the event file, that would have been passed; and what to do. Else which event was the last. `lines` are the
/// lines of the event file from which the events came, in their order; an event behind the last has no line.
pub fn limit_text(alloc: Global, log: &[Entry], lines: &[usize]) -> Result<String, AllocError>
    ensures { IfOk result (λ text. string_bytes text ≡ limit_text log.now lines.now) }
{
    let mut text = String::new(alloc);
    write_limit(alloc, &mut text, log, lines)?;
    Ok(text)
}
