// What main prints, as it comes.

ghost use Rattle.std.specs.Prelude.{◌≡◌, ◌++◌, IfOk, OnOk, string_bytes};
ghost use Rattle.std.specs.List.{flat_map};
ghost use Rattle.report_text.specs.of_report_lines.Main.{print_in};

use log_entries::Entry;
use report::write_value;
use std::alloc::{AllocError, Global};

/// Writes `print 49` where the entry is a print.
fn write_print(text: &mut String, entry: &Entry) -> Result<(), AllocError>
    ensures { OnOk result (string_bytes text.new ≡ string_bytes text.old ++ print_in entry.now) }
{
    let Entry::Printed(value) = entry else {
        return Ok(());
    };
    text.push_str("print ")?;
    write_value(text, &value.inner)?;
    text.push_str("\n")
}

/// A line for each print among these entries, as the report has it.
pub fn prints_text(alloc: Global, log: &[Entry]) -> Result<String, AllocError>
    ensures { IfOk result (λ text. string_bytes text ≡ flat_map print_in log.now) }
{
    let mut text = String::new(alloc);
    for entry in log {
        write_print(&mut text, entry)?;
    }
    Ok(text)
}
