// How a command comes to a script: reads its text, checks it, and makes its code.

ghost use Rattle.std.specs.Prelude.{◌≡◌, ◌≤◌, vec_len, IfOk, IfErr, IfSome, IsErrOf, OnOk};
ghost use Rattle.std.specs.Io.KnownBytes.{Consumes};
ghost use Rattle.script_check.specs.Trees.{script_of};
ghost use Rattle.script_commands.specs.Scripts.{Counts, IsAllowed, IsPlaced, IsScript, IsRefusalOf, IsTakenSoFar, IsUnwritten, Explains, syntax_refusal, check_refusal};

use code_places::places;
use raysim_streams::{CommandRefusal, Source, read_at_most};
use script_check::{CheckError, Checked, check};
use script_syntax::{Span, SyntaxError, parse};
use segment::Compiled;
use std::alloc::Global;

/// How many bytes the text of a script may have.
pub const MOST_BYTES: usize = 65_536;

/// The text of a script, and nothing else is taken from the reader. One of more than 65,536 bytes is refused 4 at 0..0, and all but one byte of
/// the rest stays unread. `NoMemory` is told where no read failed in this call.
pub fn read_script<R: Source>(alloc: Global, reader: &mut R) -> Result<Vec<u8>, CommandRefusal>
    ensures ok { IfOk result (λ all. IfSome (R.left reader.old) (λ bytes. all.items ≡ bytes)) }
    ensures refused { (writes : Counts) → IfErr result (λ refusal. Explains (R.left reader.old)
        (R.failures reader.old, R.failures reader.new) writes refusal) }
    ensures memory { IsErrOf result CommandRefusal.NoMemory → R.failures reader.new ≡ R.failures reader.old }
    ensures unfailed { OnOk result (R.failures reader.new ≡ R.failures reader.old) }
    ensures unwritten { IfErr result IsUnwritten }
    ensures bound { IfOk result (λ all. vec_len all ≤ 65536) }
    ensures taken { IfOk result (λ all. Consumes (R.left reader.old) (R.left reader.new) all.items) }
    ensures unread { IfErr result (IsTakenSoFar (R.left reader.old) (R.left reader.new)) }
{
    let text = read_at_most(alloc, reader, MOST_BYTES + 1)?;
    if text.len() > MOST_BYTES {
        return Err(CommandRefusal::At {
            code: 4,
            span: Span { start: 0, end: 0 },
        });
    }
    Ok(text)
}

fn syntax_refusal(error: SyntaxError) -> CommandRefusal
    ensures { result ≡ syntax_refusal error }
{
    match error.span() {
        Some(span) => CommandRefusal::At {
            code: error.number(),
            span,
        },
        None => CommandRefusal::NoMemory,
    }
}

fn check_refusal(error: CheckError) -> CommandRefusal
    ensures { result ≡ check_refusal error }
{
    match error.span() {
        Some(span) => CommandRefusal::At {
            code: error.number(),
            span,
        },
        None => CommandRefusal::NoMemory,
    }
}

/// The checked script that a text is. It is refused as the text is, with number and place, or for want of memory.
pub fn checked_script(alloc: Global, text: &[u8]) -> Result<Checked, CommandRefusal>
    ensures found { IfOk result (λ script. IsScript text.now (script_of script)) }
    ensures refused { IfErr result (λ refusal. IsRefusalOf text.now refusal) }
{
    let program = match parse(alloc, text) {
        Ok(program) => program,
        Err(error) => return Err(syntax_refusal(error)),
    };
    match check(alloc, program) {
        Ok(script) => Ok(script),
        Err(error) => Err(check_refusal(error)),
    }
}

/// The checked script of a text, with its code.
pub fn compiled_script(alloc: Global, text: &[u8]) -> Result<Compiled, CommandRefusal>
    ensures found { IfOk result (λ script. IsScript text.now (script_of script)) }
    ensures refused { IfErr result (λ refusal. IsRefusalOf text.now refusal) }
{
    let script = match checked_script(alloc, text) {
        Ok(script) => script,
        Err(refusal) => return Err(refusal),
    };
    match Compiled::new(alloc, script) {
        Ok(script) => Ok(script),
        Err(_) => Err(CommandRefusal::NoMemory),
    }
}

/// The checked script of a text that is read as `read_script` does.
pub fn read_checked<R: Source>(alloc: Global, reader: &mut R) -> Result<Checked, CommandRefusal>
    ensures found { IfOk result (λ script. IfSome (R.left reader.old) (λ text. IsScript text (script_of script))) }
    ensures allowed { OnOk result (IfSome (R.left reader.old) IsAllowed) }
    ensures refused { (writes : Counts) → IfErr result (λ refusal. Explains (R.left reader.old)
        (R.failures reader.old, R.failures reader.new) writes refusal) }
    ensures memory { IsErrOf result CommandRefusal.NoMemory → R.failures reader.new ≡ R.failures reader.old }
    ensures unfailed { OnOk result (R.failures reader.new ≡ R.failures reader.old) }
{
    let text = match read_script(alloc, reader) {
        Ok(text) => text,
        Err(refusal) => return Err(refusal),
    };
    match checked_script(alloc, text.as_slice()) {
        Ok(script) => Ok(script),
        Err(refusal) => Err(refusal),
    }
}

/// The same with its code.
pub fn read_compiled<R: Source>(alloc: Global, reader: &mut R) -> Result<Compiled, CommandRefusal>
    ensures found { IfOk result (λ script. IfSome (R.left reader.old) (λ text. IsScript text (script_of script))) }
    ensures refused { (writes : Counts) → IfErr result (λ refusal. Explains (R.left reader.old)
        (R.failures reader.old, R.failures reader.new) writes refusal) }
    ensures memory { IsErrOf result CommandRefusal.NoMemory → R.failures reader.new ≡ R.failures reader.old }
    ensures unfailed { OnOk result (R.failures reader.new ≡ R.failures reader.old) }
{
    let script = match read_checked(alloc, reader) {
        Ok(script) => script,
        Err(refusal) => return Err(refusal),
    };
    match Compiled::new(alloc, script) {
        Ok(script) => Ok(script),
        Err(_) => Err(CommandRefusal::NoMemory),
    }
}

/// A checked script with its code, and where in its text each instruction was made of stands.
#[derive(Drop)]
pub struct PlacedScript {
    pub script: Compiled,
    /// Of each instruction the place in the text of what it was made of.
    pub places: Vec<Span>,
}

/// The checked script of a text, with its code and its places.
pub fn placed_script(alloc: Global, text: &[u8]) -> Result<PlacedScript, CommandRefusal>
    ensures found { IfOk result (λ placed. IsPlaced text.now (script_of placed.script) placed.places.items) }
    ensures refused { IfErr result (λ refusal. IsRefusalOf text.now refusal) }
{
    let program = match parse(alloc, text) {
        Ok(program) => program,
        Err(error) => return Err(syntax_refusal(error)),
    };
    // The program is let go in the check alone.
    let places = places(alloc, &program);
    let checked = match check(alloc, program) {
        Ok(checked) => checked,
        Err(error) => return Err(check_refusal(error)),
    };
    let Ok(places) = places else {
        return Err(CommandRefusal::NoMemory);
    };
    match Compiled::new(alloc, checked) {
        Ok(script) => Ok(PlacedScript { script, places }),
        Err(_) => Err(CommandRefusal::NoMemory),
    }
}
