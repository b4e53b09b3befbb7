// A run as a page for a browser.

ghost use Rattle.std.specs.Prelude.{◌≡◌, ◌⊎◌, IfOk, IfErr, true, IsErrOf};
ghost use Rattle.script_check.specs.Trees.{script_of};
ghost use Rattle.script_tokens.specs.Bytes.{all, is_ascii};
ghost use Rattle.script_commands.specs.Scripts.{IsUnwritten};
ghost use Rattle.run_commands.specs.SimReports.{ExplainsSim, IfBoth, IsStopOf};
ghost use Rattle.run_commands.specs.Pages.{IsPageBegun, IsPageIn, IsPageOf, IsPageWritten};

use crate::event_lines::EventLines;
use crate::replay_inputs::read_replay_inputs;
use crate::replays::replayed;
use fault_runs::{Cluster, Replay};
use log_words::Contents;
use page_text::page_text;
use raysim_streams::{CommandRefusal, Sink, Source, put_all};
use segment::{Compiled, ScriptName};
use std::alloc::Global;
use std::marker::Brand;

/// The page of a run, and the status of its report.
#[derive(Drop)]
struct MadePage {
    page: Vec<u8>,
    status: u8,
}

/// A script's bytes, which are ASCII, as a text.
fn ascii_text(bytes: &[u8]) -> &str
    requires { all is_ascii bytes.now ≡ true }
    ensures { result.now ≡ bytes.now }
{
    match str::from_utf8(bytes) {
        Ok(text) => text,
        Err(_) => unreachable!(),
    }
}

/// The page of a replay as it is, where `text` is what its script was read from.
fn page_now<S: ScriptName>(
    alloc: Global,
    text: &[u8],
    replay: &Replay<S>,
    cluster: Cluster,
    contents: Contents,
) -> Result<MadePage, CommandRefusal>
    requires { all is_ascii text.now ≡ true }
    ensures made { IfOk result (λ made. IsPageIn cluster contents replay.now text.now made.page.items made.status) }
    ensures only { IfErr result (λ refusal. refusal ≡ CommandRefusal.NoMemory) }
{
    let board = replay.board();
    let shown = ascii_text(text);
    let page = page_text(
        alloc,
        contents,
        shown,
        cluster.nodes(),
        cluster.slots(),
        board.log(),
        replay.sent().as_slice(),
        board.whole(),
    )?;
    let status = board.status();
    Ok(MadePage { page, status })
}

/// The page of the run of a script by these lines, where `text` is what the script was read from.
fn page_script<S: ScriptName>(
    alloc: Global,
    text: &[u8],
    script: &Compiled,
    events: &EventLines,
    cluster: Cluster,
    contents: Contents,
) -> Result<MadePage, CommandRefusal>
    requires script { script_of script.now ≡ S.script }
    requires ascii { all is_ascii text.now ≡ true }
    ensures made { IfOk result (λ made. IsPageOf (script_of script.now) cluster contents events.now.says text.now made.page.items made.status) }
    ensures stopped { IfErr result (IsStopOf (script_of script.now) cluster events.now.says events.now.numbers) }
{
    let replay = match replayed::<S>(alloc, script, events, cluster) {
        Ok(replay) => replay,
        Err(refusal) => return Err(refusal),
    };
    let made = page_now(alloc, text, &replay, cluster, contents);
    drop(replay);
    made
}

/// Reads a script's text and then an event file of either format, applies the file's events to a run of the script on this cluster, and writes the
/// run as a file of HTML that stands alone (docs/pages.md): its script, its log with the messages that each event sent, its report, and its state at
/// the end. With `Contents::Cut` long lists are cut. Where a run goes on to its end by itself, its list is the one line `settle`. The status is the
/// one of `sim`.
///
/// Else the refusal says why, as for `sim`. After a failed write a beginning is out; before any other refusal nothing is written.
pub fn page<R: Source, E: Source, W: Sink>(
    alloc: Global,
    reader: &mut R,
    events: &mut E,
    cluster: Cluster,
    contents: Contents,
    writer: &mut W,
) -> Result<u8, CommandRefusal>
    ensures written { IfOk result (λ status. IfBoth (R.left reader.old) (E.left events.old) (λ text file.
        IsPageWritten cluster contents text file status (W.held writer.old) (W.held writer.new))) }
    ensures refused { IfErr result (λ refusal. ExplainsSim cluster (R.left reader.old) (E.left events.old)
        (R.failures reader.old, R.failures reader.new) (E.failures events.old, E.failures events.new) (W.failures writer.old, W.failures writer.new) refusal) }
    ensures memory { IsErrOf result CommandRefusal.NoMemory →
        (R.failures reader.new ≡ R.failures reader.old) × (E.failures events.new ≡ E.failures events.old)
        × (W.failures writer.new ≡ W.failures writer.old) }
    ensures unwritten { IfErr result (λ refusal. IsUnwritten refusal → W.held writer.new ≡ W.held writer.old) }
    ensures beginning { IfErr result (λ refusal. IfBoth (R.left reader.old) (E.left events.old) (λ text file.
        (W.held writer.new ≡ W.held writer.old) ⊎ IsPageBegun cluster contents text file (W.held writer.old) (W.held writer.new))) }
{
    let inputs = match read_replay_inputs(alloc, reader, events) {
        Ok(inputs) => inputs,
        Err(refusal) => return Err(refusal),
    };
    let text = inputs.text.as_slice();
    let made = match page_script::<Brand>(
        alloc,
        text,
        &inputs.script,
        &inputs.events,
        cluster,
        contents,
    ) {
        Ok(made) => made,
        Err(refusal) => return Err(refusal),
    };
    match put_all(writer, made.page.as_slice()) {
        Ok(()) => Ok(made.status),
        Err(failure) => Err(CommandRefusal::Failed(failure)),
    }
}
