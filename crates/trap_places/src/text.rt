// What is told of a trap's place: line and column, what stands and works there, and the calls that wait.

ghost use Rattle.std.specs.Prelude.{◌≡◌, ◌++◌, IfOk, OnOk, string_bytes};
ghost use Rattle.raysim_explain.specs.Places.{place_in};
ghost use Rattle.trap_places.specs.Operands.{operands_text};
ghost use Rattle.trap_places.specs.Text.{at_text, caller_text, callers_text, others_text, place_text, span_text, spot_text, waiting_text, worked_text};

use crate::excerpt::{bytes_of, write_excerpt};
use crate::operands::write_operands;
use raysim_explain::{Place, place_of};
use script_tokens::Span;
use spots::Spot;
use std::alloc::{AllocError, Global};

fn write_at(text: &mut String, place: Place) -> Result<(), AllocError>
    ensures { OnOk result (string_bytes text.new ≡ string_bytes text.old ++ at_text place) }
{
    let line = place.line;
    let column = place.column;
    write!(text, "{line}:{column}")
}

/// Writes where a span begins, and what stands there.
fn write_span(text: &mut String, script: &[u8], span: Span) -> Result<(), AllocError>
    ensures { OnOk result (string_bytes text.new ≡ string_bytes text.old ++ span_text script.now span) }
{
    write_at(text, place_of(script, span.start))?;
    text.push_str(", in `")?;
    write_excerpt(text, bytes_of(script, span))?;
    text.push_str("`")
}

/// Writes where an instruction stands, between two texts; nothing where it has no place.
fn write_place(
    text: &mut String,
    script: &[u8],
    before: &str,
    span: Option<Span>,
    behind: &str,
) -> Result<(), AllocError>
    ensures { OnOk result (string_bytes text.new ≡ string_bytes text.old ++ place_text script.now before.now span behind.now) }
{
    let Some(span) = span else {
        return Ok(());
    };
    text.push_str(before)?;
    write_span(text, script, span)?;
    text.push_str(behind)
}

fn write_caller(
    text: &mut String,
    script: &[u8],
    places: &[Span],
    pc: usize,
) -> Result<(), AllocError>
    ensures { OnOk result (string_bytes text.new ≡ string_bytes text.old ++ caller_text script.now places.now pc) }
{
    write_place(text, script, "called at ", places.get(pc).copied(), ".\n")
}

fn write_callers(
    text: &mut String,
    script: &[u8],
    places: &[Span],
    callers: &[usize],
) -> Result<(), AllocError>
    ensures { OnOk result (string_bytes text.new ≡ string_bytes text.old ++ callers_text script.now places.now callers.now) }
{
    for pc in callers {
        write_caller(text, script, places, *pc)?;
    }
    Ok(())
}

/// Writes that there are so many other calls.
fn write_others(text: &mut String, count: usize) -> Result<(), AllocError>
    ensures { OnOk result (string_bytes text.new ≡ string_bytes text.old ++ others_text count) }
{
    if count == 0 {
        return Ok(());
    }
    if count == 1 {
        return text.push_str(".. and 1 more call\n");
    }
    write!(text, ".. and {count} more calls\n")
}

/// Writes the calls that wait, 8 at most, and how many others do.
#[tactic(auto, unfolding(crate::specs::Text::waiting_text))]
fn write_waiting(
    text: &mut String,
    script: &[u8],
    places: &[Span],
    callers: &[usize],
) -> Result<(), AllocError>
    ensures { OnOk result (string_bytes text.new ≡ string_bytes text.old ++ waiting_text script.now places.now callers.now) }
{
    let first = &callers[..callers.len().min(8)];
    write_callers(text, script, places, first)?;
    write_others(text, callers.len().saturating_sub(8))
}

/// What is told of an instruction behind its place.
fn worked_text(alloc: Global, spot: &Spot) -> Result<String, AllocError>
    ensures { IfOk result (λ text. string_bytes text ≡ worked_text spot.now) }
{
    let mut text = String::new(alloc);
    write_operands(&mut text, spot.left, spot.right)?;
    text.push_str(".\n")?;
    Ok(text)
}

fn write_spot(
    alloc: Global,
    text: &mut String,
    script: &[u8],
    places: &[Span],
    spot: &Spot,
) -> Result<(), AllocError>
    ensures { OnOk result (string_bytes text.new ≡ string_bytes text.old ++ spot_text script.now places.now spot.now) }
{
    let behind = worked_text(alloc, spot)?;
    write_place(
        text,
        script,
        "At ",
        places.get(spot.pc).copied(),
        behind.as_str(),
    )?;
    write_waiting(text, script, places, &spot.callers)
}

/// Where a script trapped, as ``At 3:14, in `a * b`: 9223372036854775807 and 2.``: the line and the column, both counted from 1, the column in
/// bytes; what stands there, and what it worked on. Of a list its length is told, of a reference that it is one. Below it stands for each call
/// that waits a line as ``called at 9:3, in `product(a, b)`.``, the innermost first: of 8 at most, and below them of how many others.
///
/// `places` are those of the code's instructions, in their order; nothing is told of an instruction past the last. What stands at a place is shown
/// as far as its first line, of that 60 bytes at most, with ` ..` behind it where that is not all. Bytes that are no letter or sign of ASCII show
/// as `?`, a tab as a space. The only error is want of memory.
pub fn spot_text(
    alloc: Global,
    script: &[u8],
    places: &[Span],
    spot: &Spot,
) -> Result<String, AllocError>
    ensures { IfOk result (λ text. string_bytes text ≡ spot_text script.now places.now spot.now) }
{
    let mut text = String::new(alloc);
    write_spot(alloc, &mut text, script, places, spot)?;
    Ok(text)
}
