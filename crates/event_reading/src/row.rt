// Lines, as far as they are kept.

ghost use Rattle.std.specs.Prelude.{◌≡◌, ◌≢◌, ◌∷◌, List, ℕ, IfOk, OnOk, IfErr};
ghost use Rattle.event_reading.specs.Known.{IfKnown, IsReadRefusal, IsRestOfLine, left_of};
ghost use Rattle.event_reading.specs.Rows.{IsLineRead, IsNextRow};

use crate::ahead::next_byte;
use raysim_streams::{CommandRefusal, Source};
use sequence::refused_growth;
use std::alloc::Global;

/// Where a line ends, as far as it was read.
#[derive(Clone, Copy, PartialEq, Eq, Debug)]
pub enum LineEnd {
    /// With its line feed.
    Feed,
    /// With the text.
    Nothing,
    /// It goes on, and is longer than was asked for.
    Cut,
}

/// What stands next in a text of lines.
#[derive(Drop)]
pub enum Row {
    /// Nothing.
    End,
    /// A line that is passed over.
    Passed,
    /// A line that says something, without its line feed.
    Whole(Vec<u8>),
    /// A line with no line feed.
    Unended,
    /// The beginning of a line that is longer than was asked for.
    Long(Vec<u8>),
}

/// Reads on in a line, to its end or until there are more than `most` bytes of it.
pub fn read_on<R: Source>(
    reader: &mut R,
    ahead: &mut Vec<u8>,
    line: &mut Vec<u8>,
    most: usize,
) -> Result<LineEnd, CommandRefusal>
    ensures read { IfOk result (λ end. IfKnown (left_of ahead.old.items (R.left reader.old)) (left_of ahead.new.items (R.left reader.new))
        (IsLineRead most line.old.items line.new.items end)) }
    ensures refused { IfErr result (IsReadRefusal (R.failures reader.old, R.failures reader.new)) }
    ensures unfailed { OnOk result (R.failures reader.new ≡ R.failures reader.old) }
{
    while line.len() <= most {
        let Some(byte) = next_byte(reader, ahead)? else {
            return Ok(LineEnd::Nothing);
        };
        if byte == b'\n' {
            return Ok(LineEnd::Feed);
        }
        line.push(byte)?;
    }
    Ok(LineEnd::Cut)
}

/// Passes over the rest of a line, of which nothing is kept. One that goes on for longer than bytes can be counted is cut.
fn pass_over<R: Source>(reader: &mut R, ahead: &mut Vec<u8>) -> Result<LineEnd, CommandRefusal>
    ensures passed { IfOk result (λ end. IfKnown (left_of ahead.old.items (R.left reader.old)) (left_of ahead.new.items (R.left reader.new))
        (λ b r. (taken : List ℕ) × IsRestOfLine end taken b r)) }
    ensures refused { IfErr result (IsReadRefusal (R.failures reader.old, R.failures reader.new)) }
    ensures unfailed { OnOk result (R.failures reader.new ≡ R.failures reader.old) }
{
    for _count in 0..u64::MAX {
        let Some(byte) = next_byte(reader, ahead)? else {
            return Ok(LineEnd::Nothing);
        };
        if byte == b'\n' {
            return Ok(LineEnd::Feed);
        }
    }
    Ok(LineEnd::Cut)
}

/// A line that begins with `#`, behind that.
fn passed_row<R: Source>(
    alloc: Global,
    reader: &mut R,
    ahead: &mut Vec<u8>,
) -> Result<Row, CommandRefusal>
    ensures passed { (most : ℕ) → IfOk result (λ row. IfKnown (left_of ahead.old.items (R.left reader.old)) (left_of ahead.new.items (R.left reader.new))
        (λ b r. IsNextRow most row (35 ∷ b) r)) }
    ensures refused { IfErr result (IsReadRefusal (R.failures reader.old, R.failures reader.new)) }
    ensures unfailed { OnOk result (R.failures reader.new ≡ R.failures reader.old) }
{
    match pass_over(reader, ahead)? {
        LineEnd::Feed => Ok(Row::Passed),
        LineEnd::Nothing => Ok(Row::Unended),
        LineEnd::Cut => Err(CommandRefusal::from(refused_growth(alloc))),
    }
}

/// A line that begins with that byte, which is none of a line that is passed over.
fn said_row<R: Source>(
    alloc: Global,
    reader: &mut R,
    ahead: &mut Vec<u8>,
    first: u8,
    most: usize,
) -> Result<Row, CommandRefusal>
    requires { (first ≢ 10) × (first ≢ 35) }
    ensures said { IfOk result (λ row. IfKnown (left_of ahead.old.items (R.left reader.old)) (left_of ahead.new.items (R.left reader.new))
        (λ b r. IsNextRow most row (first ∷ b) r)) }
    ensures refused { IfErr result (IsReadRefusal (R.failures reader.old, R.failures reader.new)) }
    ensures unfailed { OnOk result (R.failures reader.new ≡ R.failures reader.old) }
{
    let mut line = Vec::new(alloc);
    line.push(first)?;
    match read_on(reader, ahead, &mut line, most)? {
        LineEnd::Feed => Ok(Row::Whole(line)),
        LineEnd::Nothing => Ok(Row::Unended),
        LineEnd::Cut => Ok(Row::Long(line)),
    }
}

/// What stands next. Of a line that is passed over nothing is kept, and of another one byte more than `most`, if it has so many.
pub fn next_row<R: Source>(
    alloc: Global,
    reader: &mut R,
    ahead: &mut Vec<u8>,
    most: usize,
) -> Result<Row, CommandRefusal>
    ensures row { IfOk result (λ row. IfKnown (left_of ahead.old.items (R.left reader.old)) (left_of ahead.new.items (R.left reader.new))
        (IsNextRow most row)) }
    ensures refused { IfErr result (IsReadRefusal (R.failures reader.old, R.failures reader.new)) }
    ensures unfailed { OnOk result (R.failures reader.new ≡ R.failures reader.old) }
{
    let Some(first) = next_byte(reader, ahead)? else {
        return Ok(Row::End);
    };
    if first == b'\n' {
        return Ok(Row::Passed);
    }
    if first == b'#' {
        let row = passed_row(alloc, reader, ahead)?;
        return Ok(row);
    }
    let row = said_row(alloc, reader, ahead, first, most)?;
    Ok(row)
}
