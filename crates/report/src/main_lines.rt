// What main printed, and how it ended.

ghost use Rattle.std.specs.Prelude.{◌≡◌, ◌++◌, [], OnErr, OnOk, map, codes, string_bytes};
ghost use Rattle.values.specs.Values.{value_of, content_of, trap_of};
ghost use Rattle.report.specs.MainLines.{end_line, print_lines, trap_name};

use crate::cleared::or_no_text;
use crate::value::write_value;
use std::alloc::AllocError;
use values::{Content, RunValue, Trap};

/// The trap's name as reports write it, such as `DivZero`.
pub fn trap_name(trap: Trap) -> &'static str
    ensures { result.now ≡ trap_name (trap_of trap) }
{
    match trap {
        Trap::Overflow => "Overflow",
        Trap::DivZero => "DivZero",
        Trap::Index => "Index",
        Trap::TooLong => "TooLong",
        Trap::Loop => "Loop",
        Trap::TooDeep => "TooDeep",
    }
}

/// Writes the lines of main's prints, as `print 49`.
fn write_prints(text: &mut String, prints: &[RunValue]) -> Result<(), AllocError>
    ensures { OnOk result (string_bytes text.new ≡ string_bytes text.old ++ print_lines (map value_of prints.now)) }
{
    for value in prints {
        text.push_str("print ")?;
        write_value(text, value)?;
        text.push_str("\n")?;
    }
    Ok(())
}

/// Writes the line of main's end, as `main value 0` or `main trap DivZero`.
fn write_end(text: &mut String, end: &Content) -> Result<(), AllocError>
    ensures { OnOk result (string_bytes text.new ≡ string_bytes text.old ++ end_line (content_of end.now)) }
{
    match end {
        Content::Value(value) => {
            text.push_str("main value ")?;
            write_value(text, value)?;
        }
        Content::Trap(trap) => {
            text.push_str("main trap ")?;
            text.push_str(trap_name(*trap))?;
        }
    }
    text.push_str("\n")
}

/// Writes at the text's end the report's first two sections, of a main that ended: a line `print V` for each print, then
/// `main value V` or `main trap T`. An error is want of memory, and then nothing is left of the text.
pub fn write_main_lines(
    text: &mut String,
    prints: &[RunValue],
    end: &Content,
) -> Result<(), AllocError>
    ensures done { OnOk result
        (string_bytes text.new ≡ string_bytes text.old ++ (print_lines (map value_of prints.now) ++ end_line (content_of end.now))) }
    ensures err { OnErr result (string_bytes text.new ≡ []) }
{
    or_no_text(write_prints(text, prints), text)?;
    or_no_text(write_end(text, end), text)
}
