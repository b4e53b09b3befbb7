// Main's serial run on the frames' machine, with what it prints and ends with as values of tasks.

ghost use Rattle.std.specs.Prelude.{◌≡◌, IfOk, IfErr, map};
ghost use Rattle.meaning.specs.Values.{Trapped, Broken, first_outcome};
ghost use Rattle.meaning.specs.Runs.{serial_end, serial_trace};
ghost use Rattle.meaning.specs.Law.{prints_of};
ghost use Rattle.meaning.specs.Meaning.{serial_run};
ghost use Rattle.script_check.specs.Trees.{script_of};
ghost use Rattle.values.specs.Values.{value_of, content_of};
ghost use Rattle.frames.specs.Values.{value_of as run_value_of, outcome_of};
ghost use Rattle.evaluation.specs.TaskValues.{EachTaskValue, IsTaskOutcome};

use crate::convert::{ConversionError, to_content, to_values};
use frames::{SerialEnd, run_main};
use script_check::Checked;
use std::alloc::Global;
use thiserror::Error;
use values::{Content, RunValue};

/// What main prints, and how it ends.
#[derive(Drop)]
pub struct SerialRun {
    /// What main prints, in order.
    pub prints: Vec<RunValue>,
    /// Main's value, or the trap in which it ends.
    pub end: Content,
}

/// Why there is no serial run.
#[derive(Clone, Copy, PartialEq, Eq, Debug, Drop, Error)]
pub enum SerialError {
    /// An operand of the wrong kind, which a checked script never meets.
    #[error("an operand of the wrong kind")]
    Broken,
    /// A reference in what main prints or ends with, where a checked script has none.
    #[error("a reference in what main prints or ends with")]
    HasReference,
    /// Memory ran out.
    #[error("refused 39: want of memory")]
    NoMemory,
}

/// What main printed, and how it ended, as tasks have it.
fn to_serial(alloc: Global, run: &SerialEnd) -> Result<SerialRun, ConversionError>
    ensures prints { IfOk result (λ r. map value_of r.prints.items ≡ map run_value_of run.now.prints.items) }
    ensures end { IfOk result (λ r. content_of r.end ≡ outcome_of run.now.end) }
    ensures broken { IfErr result (λ e. e ≡ ConversionError.Broken → outcome_of run.now.end ≡ Trapped Broken) }
    ensures plain { IfErr result (λ e. e ≡ ConversionError.HasOutcome →
        EachTaskValue (map run_value_of run.now.prints.items) → IsTaskOutcome (outcome_of run.now.end) → ⊥) }
{
    let end = to_content(alloc, &run.end)?;
    let prints = to_values(alloc, &run.prints)?;
    Ok(SerialRun { prints, end })
}

/// Runs main with every remote call made at once, as a plain call whose trap stays in the reference.
pub fn run_serially(alloc: Global, script: &Checked) -> Result<SerialRun, SerialError>
    // What is given is the script's meaning.
    ensures prints { IfOk result (λ r. map value_of r.prints.items ≡ prints_of (serial_trace (serial_run (script_of script.now)))) }
    ensures end { IfOk result (λ r. content_of r.end ≡ first_outcome (serial_end (serial_run (script_of script.now)))) }
    // It is broken only where the meaning is.
    ensures broken { IfErr result (λ e. e ≡ SerialError.Broken → first_outcome (serial_end (serial_run (script_of script.now))) ≡ Trapped Broken) }
    // It has a reference only where the meaning has one.
    ensures plain { IfErr result (λ e. e ≡ SerialError.HasReference → EachTaskValue (prints_of (serial_trace (serial_run (script_of script.now)))) →
        IsTaskOutcome (first_outcome (serial_end (serial_run (script_of script.now)))) → ⊥) }
{
    match run_main(alloc, script) {
        Ok(run) => match to_serial(alloc, &run) {
            Ok(run) => Ok(run),
            Err(ConversionError::Broken) => Err(SerialError::Broken),
            Err(ConversionError::HasOutcome) => Err(SerialError::HasReference),
            Err(ConversionError::NoMemory) => Err(SerialError::NoMemory),
        },
        Err(_) => Err(SerialError::NoMemory),
    }
}
