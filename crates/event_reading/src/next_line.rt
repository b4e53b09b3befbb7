// What the next line of each format says.

ghost use Rattle.std.specs.Prelude.{◌≡◌, ◌+◌, ℕ, List, IfOk, OnOk, IfErr};
ghost use Rattle.event_files.specs.Lines.{IsLine, line_text};
ghost use Rattle.event_files.specs.Plans.{IsPlanLine, plan_line_in, plan_line_text};
ghost use Rattle.event_files.specs.Reading.{line_in};
ghost use Rattle.event_files.specs.Recorded.{IsRecorded, recorded_in, recorded_text};
ghost use Rattle.event_reading.specs.Known.{IfKnown, IsReadRefusal, left_of};
ghost use Rattle.event_reading.specs.Rows.{GoesOnLong, IsCut, IsLineRefusal, IsLongSettle, IsNextLine, IsSaidBy, IsSettleRefusal, settled_by};

use crate::row::{LineEnd, Row, next_row, read_on};
use event_files::{
    Line, PlanLine, RecordedEvent, behind, read_line, read_plan_line, read_recorded,
};
use raysim_streams::{CommandRefusal, Source};
use std::alloc::Global;

/// How many bytes a line may have, without its line feed, that says something and is no settle: those of a plan's longest line.
pub const LONGEST: usize = 70;

/// What the next line says.
#[derive(Drop)]
pub enum Next<T> {
    /// There is no line.
    End,
    /// Nothing: it is passed over.
    Passed,
    /// What a line of the format says.
    Said(T),
    /// It is none of the format.
    Bad,
}

/// What a line of format 1 says. Of a settle as many bytes are taken from `room`, and 41 is answered where there are not so many.
fn said_line(alloc: Global, line: &[u8], room: &mut usize) -> Result<Next<Line>, CommandRefusal>
    ensures said { IfOk result (λ next. IsSaidBy line_in next line.now) }
    ensures taken { IfOk result (λ next. room.old ≡ room.new + settled_by next) }
    ensures refused { IfErr result (IsSettleRefusal room.old line.now) }
{
    match read_line(alloc, line)? {
        Some(Line::Settle(workers)) => {
            if line.len() > *room {
                return Err(CommandRefusal::Stopped { code: 41 });
            }
            *room -= line.len();
            Ok(Next::Said(Line::Settle(workers)))
        }
        Some(said) => Ok(Next::Said(said)),
        None => Ok(Next::Bad),
    }
}

fn said_plan_line(line: &[u8]) -> Next<PlanLine>
    ensures { IsSaidBy plan_line_in result line.now }
{
    match read_plan_line(line) {
        Some(said) => Next::Said(said),
        None => Next::Bad,
    }
}

fn said_recorded(line: &[u8]) -> Next<RecordedEvent>
    ensures { IsSaidBy recorded_in result line.now }
{
    match read_recorded(line) {
        Some(said) => Next::Said(said),
        None => Next::Bad,
    }
}

/// What the next line of a plan says. Of the reader no more is taken than that line and what was read ahead of it.
pub fn next_plan_line<R: Source>(
    alloc: Global,
    reader: &mut R,
    ahead: &mut Vec<u8>,
) -> Result<Next<PlanLine>, CommandRefusal>
    ensures next { IfOk result (λ next. IfKnown (left_of ahead.old.items (R.left reader.old)) (left_of ahead.new.items (R.left reader.new))
        (IsNextLine IsPlanLine plan_line_text plan_line_in next)) }
    ensures refused { IfErr result (IsReadRefusal (R.failures reader.old, R.failures reader.new)) }
    ensures unfailed { OnOk result (R.failures reader.new ≡ R.failures reader.old) }
{
    match next_row(alloc, reader, ahead, LONGEST)? {
        Row::End => Ok(Next::End),
        Row::Passed => Ok(Next::Passed),
        Row::Whole(line) => Ok(said_plan_line(line.as_slice())),
        Row::Unended => Ok(Next::Bad),
        Row::Long(_begun) => Ok(Next::Bad),
    }
}

/// The next line behind the first of a file of format 2.
pub fn next_recorded<R: Source>(
    alloc: Global,
    reader: &mut R,
    ahead: &mut Vec<u8>,
) -> Result<Next<RecordedEvent>, CommandRefusal>
    ensures next { IfOk result (λ next. IfKnown (left_of ahead.old.items (R.left reader.old)) (left_of ahead.new.items (R.left reader.new))
        (IsNextLine IsRecorded recorded_text recorded_in next)) }
    ensures refused { IfErr result (IsReadRefusal (R.failures reader.old, R.failures reader.new)) }
    ensures unfailed { OnOk result (R.failures reader.new ≡ R.failures reader.old) }
{
    match next_row(alloc, reader, ahead, LONGEST)? {
        Row::End => Ok(Next::End),
        Row::Passed => Ok(Next::Passed),
        Row::Whole(line) => Ok(said_recorded(line.as_slice())),
        Row::Unended => Ok(Next::Bad),
        Row::Long(_begun) => Ok(Next::Bad),
    }
}

/// A line of format 1 that goes on behind these bytes: a settle, if any.
fn long_line<R: Source>(
    alloc: Global,
    reader: &mut R,
    ahead: &mut Vec<u8>,
    begun: Vec<u8>,
    room: &mut usize,
) -> Result<Next<Line>, CommandRefusal>
    ensures next { IfOk result (λ next. IfKnown (left_of ahead.old.items (R.left reader.old)) (left_of ahead.new.items (R.left reader.new))
        (λ b r. (whole : List ℕ) → IsCut 70 begun.items whole b → IsNextLine IsLine line_text line_in next whole r)) }
    ensures taken { IfOk result (λ next. room.old ≡ room.new + settled_by next) }
    ensures refused { IfErr result (IsLineRefusal (GoesOnLong room.old begun.items) (left_of ahead.old.items (R.left reader.old))
        (R.failures reader.old, R.failures reader.new)) }
    ensures unfailed { OnOk result (R.failures reader.new ≡ R.failures reader.old) }
{
    let Some(_workers) = behind(b"settle but ", begun.as_slice()) else {
        return Ok(Next::Bad);
    };
    let mut line = begun;
    match read_on(reader, ahead, &mut line, *room)? {
        LineEnd::Feed => {
            let next = said_line(alloc, line.as_slice(), room)?;
            Ok(next)
        }
        LineEnd::Nothing => Ok(Next::Bad),
        LineEnd::Cut => Err(CommandRefusal::Stopped { code: 41 }),
    }
}

/// The next line of a file of format 1. Settles take their bytes from `room`, and 41 is answered where there are not so many.
pub fn next_line<R: Source>(
    alloc: Global,
    reader: &mut R,
    ahead: &mut Vec<u8>,
    room: &mut usize,
) -> Result<Next<Line>, CommandRefusal>
    ensures next { IfOk result (λ next. IfKnown (left_of ahead.old.items (R.left reader.old)) (left_of ahead.new.items (R.left reader.new))
        (IsNextLine IsLine line_text line_in next)) }
    ensures taken { IfOk result (λ next. room.old ≡ room.new + settled_by next) }
    ensures refused { IfErr result (IsLineRefusal (IsLongSettle room.old) (left_of ahead.old.items (R.left reader.old))
        (R.failures reader.old, R.failures reader.new)) }
    ensures unfailed { OnOk result (R.failures reader.new ≡ R.failures reader.old) }
{
    match next_row(alloc, reader, ahead, LONGEST)? {
        Row::End => Ok(Next::End),
        Row::Passed => Ok(Next::Passed),
        Row::Whole(line) => {
            let next = said_line(alloc, line.as_slice(), room)?;
            Ok(next)
        }
        Row::Unended => Ok(Next::Bad),
        Row::Long(line) => {
            let next = long_line(alloc, reader, ahead, line, room)?;
            Ok(next)
        }
    }
}
