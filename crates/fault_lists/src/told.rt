// A list that was tried, told.

ghost use Rattle.std.specs.Prelude.{◌≡◌, ◌++◌, [], IfOk, OnErr, OnOk, string_bytes};
ghost use Rattle.fault_lists.specs.Tables.{end_text, fault_list_text, list_file, list_text, place_text};

use crate::ending::RunEnd;
use crate::tried::Tried;
use event_files::print_events;
use faulted_history::{FaultList, event_list};
use log_entries::Event;
use report::or_no_text;
use report_text::kind_name;
use std::alloc::{AllocError, Global};

/// Writes where a fault stands.
fn write_place(text: &mut String, place: usize) -> Result<(), AllocError>
    ensures { OnOk result (string_bytes text.new ≡ string_bytes text.old ++ place_text place) }
{
    if place == 0 {
        return text.push_str(" before event 1");
    }
    write!(text, " behind event {place}")
}

/// Writes the fault of a list, the notice behind it, and where they stand.
fn write_fault(text: &mut String, list: &FaultList) -> Result<(), AllocError>
    ensures { OnOk result (string_bytes text.new ≡ string_bytes text.old ++ fault_list_text list.now) }
{
    let fault = list.fault;
    write!(text, "{fault}")?;
    if let Some(notice) = list.notice {
        write!(text, " and {notice}")?;
    }
    write_place(text, list.place)
}

/// Writes how main ended.
fn write_end(text: &mut String, end: RunEnd) -> Result<(), AllocError>
    ensures { OnOk result (string_bytes text.new ≡ string_bytes text.old ++ end_text end) }
{
    match end {
        RunEnd::AsSerial => text.push_str("main as serial"),
        RunEnd::Faulted(fault) => {
            let kind = kind_name(fault.kind);
            let object = fault.object;
            write!(text, "main fault {kind} {object}")
        }
        RunEnd::Open => text.push_str("main open"),
        RunEnd::Killed => text.push_str("main killed"),
        RunEnd::Stopped => text.push_str("refused 41"),
    }
}

/// Writes `kill 2 and notice 1 2 behind event 7: main fault RetriesUsed o1.1`: the fault, its place, and how main ended. An error is want of
/// memory, and then nothing is left of the text.
pub fn list_text(text: &mut String, tried: &Tried) -> Result<(), AllocError>
    ensures done { OnOk result (string_bytes text.new ≡ string_bytes text.old ++ list_text tried.now) }
    ensures err { OnErr result (string_bytes text.new ≡ []) }
{
    or_no_text(write_fault(text, &tried.list), text)?;
    or_no_text(text.push_str(": "), text)?;
    or_no_text(write_end(text, tried.end), text)
}

/// The events of the history with the fault in its place, and a settle line behind them, as an event file of format 1 whose first line is a comment that
/// tells what comes of them.
pub fn list_file(alloc: Global, events: &[Event], tried: &Tried) -> Result<String, AllocError>
    ensures { IfOk result (λ text. string_bytes text ≡ list_file events.now tried.now) }
{
    let all = event_list(alloc, events, &tried.list)?;
    let lines = print_events(alloc, all.as_slice())?;
    let mut text = String::new(alloc);
    text.push_str("# ")?;
    list_text(&mut text, tried)?;
    text.push_str("\n")?;
    text.push_str(lines.as_str())?;
    text.push_str("settle\n")?;
    Ok(text)
}
