// The table of what comes of all lists.

ghost use Rattle.std.specs.Prelude.{◌≡◌, ◌++◌, IfOk, OnOk, string_bytes};
ghost use Rattle.fault_lists.specs.Tables.{attempts_line, count_line, count_lines, fault_lines, kind_words, lists_line, other_lines, table_text, told_line, told_lines};

use crate::told::list_text;
use crate::tried::{EndKind, Tried, all_attempts, count_of, first_of, most_attempts};
use report_text::kind_name;
use std::alloc::{AllocError, Global};
use values::FaultKind;

/// Writes how many lists were tried, of how many.
fn write_lists(text: &mut String, tried: usize, all: usize) -> Result<(), AllocError>
    ensures { OnOk result (string_bytes text.new ≡ string_bytes text.old ++ lists_line tried all) }
{
    if tried == all {
        return writeln!(text, "lists {tried}");
    }
    writeln!(text, "lists {tried} of {all}")
}

/// Writes the words for an end.
fn write_kind(text: &mut String, kind: EndKind) -> Result<(), AllocError>
    ensures { OnOk result (string_bytes text.new ≡ string_bytes text.old ++ kind_words kind) }
{
    match kind {
        EndKind::AsSerial => text.push_str("as serial"),
        EndKind::Faulted(fault) => {
            let name = kind_name(fault);
            write!(text, "fault {name}")
        }
        EndKind::Open => text.push_str("open"),
        EndKind::Killed => text.push_str("main killed"),
        EndKind::Stopped => text.push_str("stopped"),
    }
}

/// Writes the table's line of that kind of end: its words, and in how many lists main ended so.
#[tactic(auto, unfolding(crate::specs::Tables::count_line))]
fn write_count(text: &mut String, kind: EndKind, tried: &[Tried]) -> Result<(), AllocError>
    ensures { OnOk result (string_bytes text.new ≡ string_bytes text.old ++ count_line kind tried.now) }
{
    let count = count_of(kind, tried);
    write_kind(text, kind)?;
    writeln!(text, " {count}")
}

/// Writes how many ended with each fault.
fn write_faults(text: &mut String, tried: &[Tried]) -> Result<(), AllocError>
    ensures { OnOk result (string_bytes text.new ≡ string_bytes text.old ++ fault_lines tried.now) }
{
    write_count(text, EndKind::Faulted(FaultKind::OwnerDied), tried)?;
    write_count(text, EndKind::Faulted(FaultKind::PutLost), tried)?;
    write_count(text, EndKind::Faulted(FaultKind::RetriesUsed), tried)
}

/// Writes how many didn't end.
fn write_others(text: &mut String, tried: &[Tried]) -> Result<(), AllocError>
    ensures { OnOk result (string_bytes text.new ≡ string_bytes text.old ++ other_lines tried.now) }
{
    write_count(text, EndKind::Open, tried)?;
    write_count(text, EndKind::Killed, tried)?;
    write_count(text, EndKind::Stopped, tried)
}

/// Writes how many ended in each way.
fn write_counts(text: &mut String, tried: &[Tried]) -> Result<(), AllocError>
    ensures { OnOk result (string_bytes text.new ≡ string_bytes text.old ++ count_lines tried.now) }
{
    write_count(text, EndKind::AsSerial, tried)?;
    write_faults(text, tried)?;
    write_others(text, tried)
}

/// Writes how many attempts there were.
fn write_attempts(text: &mut String, before: usize, tried: &[Tried]) -> Result<(), AllocError>
    ensures { OnOk result (string_bytes text.new ≡ string_bytes text.old ++ attempts_line before tried.now) }
{
    let most = most_attempts(tried);
    let sum = all_attempts(tried);
    writeln!(
        text,
        "attempts {before} without a fault, {most} at most, {sum} in all"
    )
}

/// Writes the first list that ended so.
fn write_first(text: &mut String, kind: EndKind, tried: &[Tried]) -> Result<(), AllocError>
    ensures { OnOk result (string_bytes text.new ≡ string_bytes text.old ++ told_line kind tried.now) }
{
    let Some(first) = first_of(kind, tried) else {
        return Ok(());
    };
    list_text(text, &first)?;
    text.push_str("\n")
}

/// Writes the first list of each end but that of the serial run.
fn write_firsts(text: &mut String, tried: &[Tried]) -> Result<(), AllocError>
    ensures { OnOk result (string_bytes text.new ≡ string_bytes text.old ++ told_lines tried.now) }
{
    write_first(text, EndKind::Faulted(FaultKind::OwnerDied), tried)?;
    write_first(text, EndKind::Faulted(FaultKind::PutLost), tried)?;
    write_first(text, EndKind::Faulted(FaultKind::RetriesUsed), tried)?;
    write_first(text, EndKind::Open, tried)?;
    write_first(text, EndKind::Killed, tried)?;
    write_first(text, EndKind::Stopped, tried)
}

/// The table of the lists that were tried, of `all` that there are, beside `before` attempts of the run without a fault: how many lists, how many in
/// which main ended in each way, how many attempts there were, and then the first list for each end but that of the serial run.
pub fn table_text(
    alloc: Global,
    all: usize,
    before: usize,
    tried: &[Tried],
) -> Result<String, AllocError>
    ensures { IfOk result (λ text. string_bytes text ≡ table_text all before tried.now) }
{
    let mut text = String::new(alloc);
    write_lists(&mut text, tried.len(), all)?;
    write_counts(&mut text, tried)?;
    write_attempts(&mut text, before, tried)?;
    write_firsts(&mut text, tried)?;
    Ok(text)
}
