// What a replay reads.

ghost use Rattle.std.specs.Prelude.{◌≡◌, IfOk, IfErr, IfSome, IsErrOf, OnOk};
ghost use Rattle.script_check.specs.Trees.{script_of};
ghost use Rattle.fault_runs.specs.of_protocol_board.Cores.{Size};
ghost use Rattle.script_commands.specs.Scripts.{Counts, IsScript};
ghost use Rattle.run_commands.specs.SimReports.{AreEvents, ExplainsSim};

use crate::event_lines::{EventLines, read_events};
use raysim_streams::{CommandRefusal, Source};
use script_commands::{compiled_script, read_script};
use segment::Compiled;
use std::alloc::Global;

/// A script's text, the checked script with its code, and the lines of an event file.
#[derive(Drop)]
pub struct ReplayInputs {
    /// The script's text, from which places are told.
    pub text: Vec<u8>,
    /// The same script, checked and with its code.
    pub script: Compiled,
    /// What the event file says, with the numbers of its lines.
    pub events: EventLines,
}

/// Reads a script's text, which is checked before the events are read, and an event file of either format. It refuses as any replay of them does,
/// whatever its cluster is and wherever it writes.
pub fn read_replay_inputs<R: Source, E: Source>(
    alloc: Global,
    reader: &mut R,
    events: &mut E,
) -> Result<ReplayInputs, CommandRefusal>
    ensures text { IfOk result (λ inputs. IfSome (R.left reader.old) (λ bytes. inputs.text.items ≡ bytes)) }
    ensures script { IfOk result (λ inputs. IsScript inputs.text.items (script_of inputs.script)) }
    ensures events { IfOk result (λ inputs. IfSome (E.left events.old) (λ bytes. AreEvents bytes inputs.events.says inputs.events.numbers)) }
    ensures refused { (size : Size) (writes : Counts) → IfErr result (λ refusal. ExplainsSim size (R.left reader.old) (E.left events.old)
        (R.failures reader.old, R.failures reader.new) (E.failures events.old, E.failures events.new) writes refusal) }
    ensures memory { IsErrOf result CommandRefusal.NoMemory →
        (R.failures reader.new ≡ R.failures reader.old) × (E.failures events.new ≡ E.failures events.old) }
    ensures unfailed { OnOk result ((R.failures reader.new ≡ R.failures reader.old) × (E.failures events.new ≡ E.failures events.old)) }
{
    let text = match read_script(alloc, reader) {
        Ok(text) => text,
        Err(refusal) => return Err(refusal),
    };
    let script = match compiled_script(alloc, text.as_slice()) {
        Ok(script) => script,
        Err(refusal) => return Err(refusal),
    };
    match read_events(alloc, events) {
        Ok(events) => Ok(ReplayInputs {
            text,
            script,
            events,
        }),
        Err(refusal) => Err(refusal),
    }
}
