// Values whose long lists are cut.

ghost use Rattle.std.specs.Prelude.{◌≡◌, ◌++◌, [], OnErr, OnOk, string_bytes};
ghost use Rattle.values.specs.Values.{value_of};
ghost use Rattle.report.specs.ValueTexts.{separator};
ghost use Rattle.cut_values.specs.Cut.{count_text, cut_text, is_cut, left_text};

use report::{or_no_text, write_value};
use std::alloc::AllocError;
use values::RunValue;

/// Whether the items from the place on are left out, of a list of so many.
#[tactic(auto, unfolding(crate::specs::Cut::is_cut))]
fn is_cut(all: usize, place: usize) -> bool
    ensures { result ≡ is_cut all place }
{
    all > 8 && place == 3
}

/// Writes a number with a comma before its last three digits; no list has a million items.
#[tactic(auto, unfolding(crate::specs::Cut::count_text))]
fn write_count(text: &mut String, count: usize) -> Result<(), AllocError>
    ensures { OnOk result (string_bytes text.new ≡ string_bytes text.old ++ count_text count) }
{
    if count < 1000 {
        return write!(text, "{count}");
    }
    let thousands = count / 1000;
    let hundreds = count / 100 % 10;
    let tens = count / 10 % 10;
    let ones = count % 10;
    write!(text, "{thousands},{hundreds}{tens}{ones}")
}

/// Writes how many items are left out, and the end of their list.
#[tactic(auto, unfolding(crate::specs::Cut::left_text))]
fn write_left(text: &mut String, count: usize) -> Result<(), AllocError>
    ensures { OnOk result (string_bytes text.new ≡ string_bytes text.old ++ left_text count) }
{
    text.push_str(", .. ")?;
    write_count(text, count)?;
    text.push_str(" items]")
}

/// Writes what stands before the item at a place.
fn separate(text: &mut String, place: usize) -> Result<(), AllocError>
    ensures { OnOk result (string_bytes text.new ≡ string_bytes text.old ++ separator place) }
{
    if place == 0 {
        return Ok(());
    }
    text.push_str(", ")
}

/// Writes a value at the text's end, with its long lists cut.
fn add_cut(text: &mut String, value: &RunValue) -> Result<(), AllocError>
    ensures { OnOk result (string_bytes text.new ≡ string_bytes text.old ++ cut_text (value_of value.now)) }
{
    match value {
        RunValue::Int(_) => write_value(text, value),
        RunValue::Id(_) => write_value(text, value),
        RunValue::List(items) => {
            let all = items.len();
            text.push_str("[")?;
            for (place, item) in items.iter().enumerate() {
                if is_cut(all, place) {
                    return write_left(text, all.saturating_sub(place));
                }
                separate(text, place)?;
                add_cut(text, item)?;
            }
            text.push_str("]")?;
            Ok(())
        }
    }
}

/// Writes a value as a report has it, but of each list with more than 8 items only the first three, and how many follow. An error is want of
/// memory, and then nothing is left of the text.
pub fn write_cut(text: &mut String, value: &RunValue) -> Result<(), AllocError>
    ensures done { OnOk result (string_bytes text.new ≡ string_bytes text.old ++ cut_text (value_of value.now)) }
    ensures err { OnErr result (string_bytes text.new ≡ []) }
{
    or_no_text(add_cut(text, value), text)
}
