// The command `migrate`: an event file of format 1, replayed and written as one of format 2.

ghost use Rattle.std.specs.Prelude.{◌≡◌, ◌⊎◌, IfOk, IfErr, IfSome, string_bytes, IsErrOf, OnOk};
ghost use Rattle.script_check.specs.Trees.{script_of};
ghost use Rattle.event_files.specs.Files.{IsFile};
ghost use Rattle.event_files.specs.Lines.{IsLine, line_text};
ghost use Rattle.run_commands.specs.of_protocol_board.Cores.{Size};
ghost use Rattle.script_commands.specs.Scripts.{Counts, IsScript, IsUnwritten};
ghost use Rattle.run_commands.specs.SimReports.{IfBoth};
ghost use Rattle.raysim_commands.specs.Migrations.{ExplainsLines, ExplainsMigration, IsHistoryOf, IsLinesStop, IsMigrated, IsMigrationBegun};

use event_files::laws::one_bad_line;
use event_files::{EventError, Line, history, parse_events};
use raysim_streams::{CommandRefusal, Sink, Source, put_all, read_at_most};
use run_commands::{Cluster, Core, Replay, ReplayStop};
use script_commands::read_compiled;
use segment::{Compiled, ScriptName};
use sequence::Seq;
use std::alloc::Global;
use std::marker::Brand;

/// The lines of an event file of format 1. The first line of a file of format 2 is none of format 1.
fn read_lines<E: Source>(alloc: Global, reader: &mut E) -> Result<Seq<Line>, CommandRefusal>
    ensures read { IfOk result (λ lines. IfSome (E.left reader.old) (λ bytes. IsFile IsLine line_text bytes lines)) }
    ensures refused { IfErr result (λ refusal. ExplainsLines (E.left reader.old) (E.failures reader.old, E.failures reader.new) refusal) }
    ensures memory { IsErrOf result CommandRefusal.NoMemory → E.failures reader.new ≡ E.failures reader.old }
    ensures unfailed { OnOk result (E.failures reader.new ≡ E.failures reader.old) }
{
    let text = match read_at_most(alloc, reader, usize::MAX) {
        Ok(text) => text,
        Err(refusal) => return Err(refusal),
    };
    match parse_events(alloc, text.as_slice()) {
        Ok(lines) => Ok(lines),
        Err(EventError::BadLine(line)) => Err(CommandRefusal::BadLine { line }),
        Err(EventError::NoMemory) => Err(CommandRefusal::NoMemory),
    }
}

/// A checked script with its code, and the lines of an event file of format 1.
#[derive(Drop)]
struct MigrationInputs {
    script: Compiled,
    lines: Seq<Line>,
}

/// Reads the script, which is checked before the lines are read. It refuses as `migrate` does, whatever the cluster is and wherever it writes.
fn read_inputs<R: Source, E: Source>(
    alloc: Global,
    reader: &mut R,
    events: &mut E,
) -> Result<MigrationInputs, CommandRefusal>
    ensures script { IfOk result (λ inputs. IfSome (R.left reader.old) (λ text. IsScript text (script_of inputs.script))) }
    ensures lines { IfOk result (λ inputs. IfSome (E.left events.old) (λ bytes. IsFile IsLine line_text bytes inputs.lines)) }
    ensures refused { (size : Size) (writes : Counts) → IfErr result (λ refusal. ExplainsMigration size (R.left reader.old) (E.left events.old)
        (R.failures reader.old, R.failures reader.new) (E.failures events.old, E.failures events.new) writes refusal) }
    ensures memory { IsErrOf result CommandRefusal.NoMemory →
        (R.failures reader.new ≡ R.failures reader.old) × (E.failures events.new ≡ E.failures events.old) }
    ensures unfailed { OnOk result ((R.failures reader.new ≡ R.failures reader.old) × (E.failures events.new ≡ E.failures events.old)) }
{
    one_bad_line();
    let script = match read_compiled(alloc, reader) {
        Ok(script) => script,
        Err(refusal) => return Err(refusal),
    };
    match read_lines(alloc, events) {
        Ok(lines) => Ok(MigrationInputs { script, lines }),
        Err(refusal) => Err(refusal),
    }
}

/// The history of the run of a script by these lines.
fn migrate_script<S: ScriptName>(
    alloc: Global,
    script: &Compiled,
    lines: &Seq<Line>,
    cluster: Cluster,
) -> Result<String, CommandRefusal>
    requires { script_of script.now ≡ S.script }
    ensures written { IfOk result (λ text. IsHistoryOf (script_of script.now) cluster lines.now (string_bytes text)) }
    ensures stopped { IfErr result (IsLinesStop (script_of script.now) cluster lines.now) }
{
    let core = Core::<S>::new(alloc, script.script(), cluster)?;
    let mut replay = Replay::new(alloc, core);
    match replay.play(alloc, script, lines) {
        Ok(()) => {
            let written = history(alloc, replay.board().log());
            drop(replay);
            Ok(written?)
        }
        Err(ReplayStop::NoMemory) => {
            drop(replay);
            Err(CommandRefusal::NoMemory)
        }
        Err(ReplayStop::TooLong) => {
            drop(replay);
            Err(CommandRefusal::Stopped { code: 41 })
        }
        // No line of format 1 says which job a claim gives.
        Err(ReplayStop::WrongJob) => unreachable!(),
    }
}

/// Reads a script's text and then an event file of format 1, applies the file's events to a run of the script on this cluster, and writes the
/// history of that run as an event file of format 2 (docs/event-files.md): each event with its seat, which is 0, a claim with the number of the job
/// that it gave, and in place of each settle line the events for which it stands. Replayed by `sim` on the same cluster, the history gives the same
/// run, and so the same report. The status is 0.
///
/// Else the refusal says why, as for `sim`. `BadLine` with line 1 comes where the file is of format 2. After a failed write a beginning of the
/// history is out; before any other refusal nothing is written.
pub fn migrate<R: Source, E: Source, W: Sink>(
    alloc: Global,
    reader: &mut R,
    events: &mut E,
    cluster: Cluster,
    writer: &mut W,
) -> Result<u8, CommandRefusal>
    ensures status { IfOk result (λ status. status ≡ 0) }
    ensures migrated { IfOk result (λ status. IfBoth (R.left reader.old) (E.left events.old) (λ text file.
        IsMigrated cluster text file (W.held writer.old) (W.held writer.new))) }
    ensures refused { IfErr result (λ refusal. ExplainsMigration cluster (R.left reader.old) (E.left events.old)
        (R.failures reader.old, R.failures reader.new) (E.failures events.old, E.failures events.new) (W.failures writer.old, W.failures writer.new) refusal) }
    ensures memory { IsErrOf result CommandRefusal.NoMemory →
        (R.failures reader.new ≡ R.failures reader.old) × (E.failures events.new ≡ E.failures events.old)
        × (W.failures writer.new ≡ W.failures writer.old) }
    ensures unwritten { IfErr result (λ refusal. IsUnwritten refusal → W.held writer.new ≡ W.held writer.old) }
    ensures beginning { IfErr result (λ refusal. IfBoth (R.left reader.old) (E.left events.old) (λ text file.
        (W.held writer.new ≡ W.held writer.old) ⊎ IsMigrationBegun cluster text file (W.held writer.old) (W.held writer.new))) }
{
    let inputs = match read_inputs(alloc, reader, events) {
        Ok(inputs) => inputs,
        Err(refusal) => return Err(refusal),
    };
    let history = match migrate_script::<Brand>(alloc, &inputs.script, &inputs.lines, cluster) {
        Ok(history) => history,
        Err(refusal) => return Err(refusal),
    };
    match put_all(writer, history.as_bytes()) {
        Ok(()) => Ok(0),
        Err(failure) => Err(CommandRefusal::Failed(failure)),
    }
}
