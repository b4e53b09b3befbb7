// How a report writes a value: numbers, lists and references.

ghost use Rattle.std.specs.Prelude.{◌≡◌, ◌++◌, [], OnErr, OnOk, string_bytes};
ghost use Rattle.values.specs.Values.{value_of};
ghost use Rattle.report.specs.ValueTexts.{id_text, separator, value_text};

use crate::cleared::or_no_text;
use itoa::Buffer;
use std::alloc::AllocError;
use values::RunValue;
use values::ids::ObjectId;

fn write_object(text: &mut String, object: ObjectId) -> Result<(), AllocError>
    ensures { OnOk result (string_bytes text.new ≡ string_bytes text.old ++ id_text object) }
{
    text.push('o')?;
    text.push_str(Buffer::new().format(object.owner.0))?;
    text.push('.')?;
    text.push_str(Buffer::new().format(object.serial))
}

/// Writes what stands before the item at a place.
fn separate(text: &mut String, place: usize) -> Result<(), AllocError>
    ensures { OnOk result (string_bytes text.new ≡ string_bytes text.old ++ separator place) }
{
    if place == 0 {
        return Ok(());
    }
    text.push_str(", ")
}

/// Writes a value at the text's end.
fn add_value(text: &mut String, value: &RunValue) -> Result<(), AllocError>
    ensures { OnOk result (string_bytes text.new ≡ string_bytes text.old ++ value_text (value_of value.now)) }
{
    match value {
        RunValue::Int(number) => text.push_str(Buffer::new().format(*number)),
        RunValue::Id(object) => write_object(text, *object),
        RunValue::List(items) => {
            text.push_str("[")?;
            for (place, item) in items.iter().enumerate() {
                separate(text, place)?;
                add_value(text, item)?;
            }
            text.push_str("]")?;
            Ok(())
        }
    }
}

/// Writes a value at the text's end: a number in decimal, a list as `[1, 2]`, a reference as `o1.2`. An error is want of memory, and then
/// nothing is left of the text.
pub fn write_value(text: &mut String, value: &RunValue) -> Result<(), AllocError>
    ensures done { OnOk result (string_bytes text.new ≡ string_bytes text.old ++ value_text (value_of value.now)) }
    ensures err { OnErr result (string_bytes text.new ≡ []) }
{
    or_no_text(add_value(text, value), text)
}
