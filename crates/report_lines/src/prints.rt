// The report's first section: a line for each print of main.

ghost use Rattle.std.specs.Prelude.{◌≡◌, ◌++◌, OnOk, string_bytes};
ghost use Rattle.report_lines.specs.Main.{print_in};

use log_entries::Entry;
use report::write_value;
use std::alloc::AllocError;

/// Writes `print 49` where the entry is a print.
pub fn write_print(text: &mut String, entry: &Entry) -> Result<(), AllocError>
    ensures { OnOk result (string_bytes text.new ≡ string_bytes text.old ++ print_in entry.now) }
{
    let Entry::Printed(value) = entry else {
        return Ok(());
    };
    text.push_str("print ")?;
    write_value(text, &value.inner)?;
    text.push_str("\n")
}
