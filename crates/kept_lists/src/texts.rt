// What was kept of event files and plans, as texts.

ghost use Rattle.std.specs.Prelude.{◌≡◌, ◌++◌, ◌∷◌, [], ℕ, List, IfOk, OnOk, string_bytes};
ghost use Rattle.std.specs.List.{flat_map};
ghost use Rattle.event_files.specs.Files.{IsFile};
ghost use Rattle.event_files.specs.Lines.{line_text, settle_text, workers_text};
ghost use Rattle.event_files.specs.Plans.{IsPlanLine, plan_line_text};
ghost use Rattle.event_files.specs.Recorded.{given_text, recorded_text};
ghost use Rattle.event_reading.specs.Files.{AreEventsKept, AreLinesKept};
ghost use Rattle.kept_lists.specs.Texts.{SaysKept, SaysLines, feeds, file_text, numbered_text, plan_line};

use event_files::laws::{events_are_numbered, lines_are_numbered};
use event_files::{EventFile, Line, PlanLine, RecordedEvent, RunPlan};
use event_reading::{Kept, KeptEvents};
use ids::WorkerId;
use std::alloc::{AllocError, Global};

/// Goes on to the line of that number, from the end of the line `last`.
fn go_on(text: &mut String, last: usize, number: usize) -> Result<(), AllocError>
    ensures { OnOk result (string_bytes text.new ≡ string_bytes text.old ++ feeds last number) }
{
    let mut left = number.saturating_sub(last).saturating_sub(1);
    while left > 0 {
        text.push_str("\n")?;
        left -= 1;
    }
    Ok(())
}

fn write_workers(text: &mut String, workers: &[WorkerId]) -> Result<(), AllocError>
    ensures { OnOk result (string_bytes text.new ≡ string_bytes text.old ++ workers_text workers.now) }
{
    let mut rest = workers;
    while let [worker, more @ ..] = rest {
        let number = worker.0;
        write!(text, " {number}")?;
        rest = more;
    }
    Ok(())
}

fn write_settle(text: &mut String, workers: &[WorkerId]) -> Result<(), AllocError>
    ensures { OnOk result (string_bytes text.new ≡ string_bytes text.old ++ settle_text workers.now) }
{
    if workers.is_empty() {
        return text.push_str("settle");
    }
    text.push_str("settle but")?;
    write_workers(text, workers)
}

fn write_line(text: &mut String, line: &Line) -> Result<(), AllocError>
    ensures { OnOk result (string_bytes text.new ≡ string_bytes text.old ++ line_text line.now) }
{
    match line {
        Line::Event(event) => write!(text, "{event}"),
        Line::Settle(workers) => write_settle(text, workers.as_slice()),
    }
}

fn write_given(text: &mut String, given: Option<u64>) -> Result<(), AllocError>
    ensures { OnOk result (string_bytes text.new ≡ string_bytes text.old ++ given_text given) }
{
    match given {
        Some(job) => write!(text, " {job}"),
        None => Ok(()),
    }
}

fn write_recorded(text: &mut String, said: &RecordedEvent) -> Result<(), AllocError>
    ensures { OnOk result (string_bytes text.new ≡ string_bytes text.old ++ recorded_text said.now) }
{
    write!(text, "{} {}", said.seat, said.event)?;
    write_given(text, said.given)
}

/// Writes a line in the line of its number, behind the line `last`.
fn write_line_at(
    text: &mut String,
    last: usize,
    line: &Line,
    number: usize,
) -> Result<(), AllocError>
    ensures { OnOk result (string_bytes text.new ≡ string_bytes text.old ++ (feeds last number ++ (line_text line.now ++ 10 ∷ []))) }
{
    go_on(text, last, number)?;
    write_line(text, line)?;
    text.push_str("\n")
}

/// The same of an event of format 2.
fn write_recorded_at(
    text: &mut String,
    last: usize,
    said: &RecordedEvent,
    number: usize,
) -> Result<(), AllocError>
    ensures { OnOk result (string_bytes text.new ≡ string_bytes text.old ++ (feeds last number ++ (recorded_text said.now ++ 10 ∷ []))) }
{
    go_on(text, last, number)?;
    write_recorded(text, said)?;
    text.push_str("\n")
}

/// Writes each line in the line of its number, as far as there are numbers.
fn write_lines(text: &mut String, lines: &[Line], numbers: &[usize]) -> Result<(), AllocError>
    ensures { OnOk result (string_bytes text.new ≡ string_bytes text.old ++ numbered_text line_text 0 lines.now numbers.now) }
{
    let mut last = 0;
    let mut rest = lines;
    let mut left = numbers;
    while let [line, more @ ..] = rest {
        let [number, others @ ..] = left else {
            return Ok(());
        };
        write_line_at(text, last, line, *number)?;
        last = *number;
        rest = more;
        left = others;
    }
    Ok(())
}

/// The same of events of format 2, whose first line tells the format.
fn write_events(
    text: &mut String,
    events: &[RecordedEvent],
    numbers: &[usize],
) -> Result<(), AllocError>
    ensures { OnOk result (string_bytes text.new ≡ string_bytes text.old ++ numbered_text recorded_text 1 events.now numbers.now) }
{
    let mut last = 1;
    let mut rest = events;
    let mut left = numbers;
    while let [said, more @ ..] = rest {
        let [number, others @ ..] = left else {
            return Ok(());
        };
        write_recorded_at(text, last, said, *number)?;
        last = *number;
        rest = more;
        left = others;
    }
    Ok(())
}

fn write_file(text: &mut String, says: &EventFile, numbers: &[usize]) -> Result<(), AllocError>
    ensures { OnOk result (string_bytes text.new ≡ string_bytes text.old ++ file_text says.now numbers.now) }
{
    match says {
        EventFile::Lines(lines) => write_lines(text, lines.as_slice(), numbers),
        EventFile::Recorded(events) => {
            text.push_str("raysim 2\n")?;
            write_events(text, events.as_slice(), numbers)
        }
    }
}

/// What was kept of an event file, as a text of its format, each line in the line of its number; between them stand empty lines. Where it was kept of
/// some file's bytes, the text is a file that says it, in lines of the same numbers. The only error is want of memory.
pub(crate) fn events_text(alloc: Global, kept: &KeptEvents) -> Result<String, AllocError>
    ensures { IfOk result (λ text. (bytes : List ℕ) → AreEventsKept bytes kept.now → SaysKept kept.now (string_bytes text)) }
{
    lines_are_numbered();
    events_are_numbered();
    let mut text = String::new(alloc);
    write_file(&mut text, &kept.says, kept.numbers.as_slice())?;
    Ok(text)
}

/// The same of a file of format 1.
pub(crate) fn lines_text(alloc: Global, kept: &Kept<Line>) -> Result<String, AllocError>
    ensures { IfOk result (λ text. (bytes : List ℕ) → AreLinesKept bytes kept.now → SaysLines kept.now (string_bytes text)) }
{
    lines_are_numbered();
    let mut text = String::new(alloc);
    write_lines(&mut text, kept.says.as_slice(), kept.numbers.as_slice())?;
    Ok(text)
}

fn write_plan_line(text: &mut String, line: &PlanLine) -> Result<(), AllocError>
    ensures { OnOk result (string_bytes text.new ≡ string_bytes text.old ++ plan_line line.now) }
{
    writeln!(text, "{} {}", line.commits, line.event)
}

fn write_plan(text: &mut String, lines: &[PlanLine]) -> Result<(), AllocError>
    ensures { OnOk result (string_bytes text.new ≡ string_bytes text.old ++ flat_map plan_line lines.now) }
{
    for line in lines {
        write_plan_line(text, line)?;
    }
    Ok(())
}

/// A plan as a text, a line for each that says something. Where it was read of some file's bytes, the text is a plan that says the same. The only
/// error is want of memory.
pub(crate) fn plan_text(alloc: Global, plan: &RunPlan) -> Result<String, AllocError>
    ensures { IfOk result (λ text. (bytes : List ℕ) → IsFile IsPlanLine plan_line_text bytes plan.now.lines →
        IsFile IsPlanLine plan_line_text (string_bytes text) plan.now.lines) }
{
    let mut text = String::new(alloc);
    write_plan(&mut text, plan.lines.as_slice())?;
    Ok(text)
}
