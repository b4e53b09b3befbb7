// The command `export`: a script as a Python program for an engine.

ghost use Rattle.std.specs.Prelude.{◌≡◌, IfOk, OnOk, IfErr, IfSome, IsErrOf};
ghost use Rattle.script_commands.specs.Exports.{IsBegunExport, IsExported};
ghost use Rattle.script_commands.specs.Scripts.{Explains, IsUnwritten};

use crate::script::read_checked;
use engine_text::{Engine, engine_text};
use raysim_streams::{CommandRefusal, Sink, Source, put_all};
use std::alloc::Global;

/// Reads a script's text, and writes a Python program that runs the script on an engine. The status is then 0.
///
/// Else the refusal says why: `At` where the text is no script that the rules allow, `Failed` where a read or a write failed within the call, or
/// `NoMemory`, where none did. After a failed write a beginning of the program is out; before any other refusal nothing is written.
pub fn export<R: Source, W: Sink>(
    alloc: Global,
    reader: &mut R,
    engine: Engine,
    writer: &mut W,
) -> Result<u8, CommandRefusal>
    ensures status { IfOk result (λ status. status ≡ 0) }
    ensures exported { OnOk result (IfSome (R.left reader.old) (λ text. IsExported engine text (W.held writer.old) (W.held writer.new))) }
    ensures refused { IfErr result (λ refusal. Explains (R.left reader.old)
        (R.failures reader.old, R.failures reader.new) (W.failures writer.old, W.failures writer.new) refusal) }
    ensures memory { IsErrOf result CommandRefusal.NoMemory →
        (R.failures reader.new ≡ R.failures reader.old) × (W.failures writer.new ≡ W.failures writer.old) }
    ensures unwritten { IfErr result (λ refusal. IsUnwritten refusal → W.held writer.new ≡ W.held writer.old) }
    ensures beginning { IfErr result (λ refusal. IfSome (R.left reader.old) (λ text.
        IsBegunExport engine text (W.held writer.old) (W.held writer.new))) }
{
    let script = match read_checked(alloc, reader) {
        Ok(script) => script,
        Err(refusal) => return Err(refusal),
    };
    let Ok(program) = engine_text(alloc, engine, &script) else {
        return Err(CommandRefusal::NoMemory);
    };
    match put_all(writer, program.as_bytes()) {
        Ok(()) => Ok(0),
        Err(failure) => Err(CommandRefusal::Failed(failure)),
    }
}
