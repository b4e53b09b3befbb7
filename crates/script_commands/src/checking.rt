// The command `check`: whether a text is a script that the rules allow.

ghost use Rattle.std.specs.Prelude.{◌≡◌, ◌⊎◌, ℕ, List, codes, true, take, IfOk, OnOk, IfErr, IfSome, IsErrOf};
ghost use Rattle.std.specs.Io.KnownBytes.{Appends};
ghost use Rattle.script_commands.specs.Scripts.{IsAllowed, Explains, IsUnwritten};

use crate::script::read_checked;
use raysim_streams::{CommandRefusal, Sink, Source, put_all};
use std::alloc::Global;

/// Reads a script's text, and writes `ok` where the text is a script that the rules allow. The status is then 0.
///
/// Else the refusal says why: `At` where the text is no such script, `Failed` where a read or a write failed within the call, or `NoMemory`, where none
/// did. After a failed write a beginning of the text is out; before any other refusal nothing is written.
pub fn check<R: Source, W: Sink>(
    alloc: Global,
    reader: &mut R,
    writer: &mut W,
) -> Result<u8, CommandRefusal>
    ensures status { IfOk result (λ status. status ≡ 0) }
    ensures allowed { OnOk result (IfSome (R.left reader.old) IsAllowed) }
    ensures written { OnOk result (Appends (W.held writer.old) (W.held writer.new) (codes "ok\n")) }
    ensures refused { IfErr result (λ refusal. Explains (R.left reader.old)
        (R.failures reader.old, R.failures reader.new) (W.failures writer.old, W.failures writer.new) refusal) }
    ensures memory { IsErrOf result CommandRefusal.NoMemory →
        (R.failures reader.new ≡ R.failures reader.old) × (W.failures writer.new ≡ W.failures writer.old) }
    ensures unwritten { IfErr result (λ refusal. IsUnwritten refusal → W.held writer.new ≡ W.held writer.old) }
    ensures beginning { IfErr result (λ refusal. (k : ℕ) × Appends (W.held writer.old) (W.held writer.new) (take k (codes "ok\n"))) }
{
    if let Err(refusal) = read_checked(alloc, reader) {
        return Err(refusal);
    }
    match put_all(writer, b"ok\n") {
        Ok(()) => Ok(0),
        Err(failure) => Err(CommandRefusal::Failed(failure)),
    }
}
