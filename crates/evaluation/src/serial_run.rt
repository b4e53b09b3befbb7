// The serial run of a checked script: no checked script fails in it but for want of memory.

ghost use Rattle.std.specs.Prelude.{◌≡◌, IfOk, map};
ghost use Rattle.meaning.specs.Values.{first_outcome};
ghost use Rattle.meaning.specs.Runs.{serial_end, serial_trace};
ghost use Rattle.meaning.specs.Meaning.{serial_run};
ghost use Rattle.meaning.specs.Law.{prints_of};
ghost use Rattle.script_check.specs.Trees.{script_of};
ghost use Rattle.values.specs.Values.{content_of, value_of};

use crate::no_memory::NoMemory;
use crate::serial::{SerialError, SerialRun, run_serially};
use script_check::Checked;
use std::alloc::Global;

/// Runs main with every remote call made at once, as a plain call whose trap stays in the reference. Gives what main
/// prints, in order, and its value or its trap. The only error is want of memory, and nothing is told then.
pub fn run_serial(alloc: Global, script: &Checked) -> Result<SerialRun, NoMemory>
    ensures prints { IfOk result (λ r. map value_of r.prints.items ≡ prints_of (serial_trace (serial_run (script_of script.now)))) }
    ensures end { IfOk result (λ r. content_of r.end ≡ first_outcome (serial_end (serial_run (script_of script.now)))) }
{
    // Its clause says that the script is well typed.
    let _ = script.functions();
    match run_serially(alloc, script) {
        Ok(run) => Ok(run),
        Err(SerialError::NoMemory) => Err(NoMemory),
        // A checked script never meets an operand of the wrong kind, and prints and returns no reference.
        Err(SerialError::Broken) => unreachable!(),
        Err(SerialError::HasReference) => unreachable!(),
    }
}
