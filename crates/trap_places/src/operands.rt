// What an instruction works on.

ghost use Rattle.std.specs.Prelude.{◌≡◌, ◌++◌, OnOk, string_bytes};
ghost use Rattle.trap_places.specs.Operands.{operands_text, second_text, shown_text};

use spots::Shown;
use std::alloc::AllocError;

fn write_shown(text: &mut String, shown: Shown) -> Result<(), AllocError>
    ensures { OnOk result (string_bytes text.new ≡ string_bytes text.old ++ shown_text shown) }
{
    match shown {
        Shown::Number(number) => write!(text, "{number}"),
        Shown::List(count) => write!(text, "a list of length {count}"),
        Shown::Reference => text.push_str("a reference"),
    }
}

fn write_second(text: &mut String, right: Option<Shown>) -> Result<(), AllocError>
    ensures { OnOk result (string_bytes text.new ≡ string_bytes text.old ++ second_text right) }
{
    let Some(right) = right else {
        return Ok(());
    };
    text.push_str(" and ")?;
    write_shown(text, right)
}

/// Writes the operands, behind a colon where there are any.
pub(crate) fn write_operands(
    text: &mut String,
    left: Option<Shown>,
    right: Option<Shown>,
) -> Result<(), AllocError>
    ensures { OnOk result (string_bytes text.new ≡ string_bytes text.old ++ operands_text left right) }
{
    let Some(left) = left else {
        return Ok(());
    };
    text.push_str(": ")?;
    write_shown(text, left)?;
    write_second(text, right)
}
