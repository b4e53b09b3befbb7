// Attempts, with the functions that they run.

ghost use Rattle.std.specs.Prelude.{◌≡◌, ◌++◌, [], OnErr, OnOk, option_copied, string_bytes};
ghost use Rattle.std.specs.Option.{option_map};
ghost use Rattle.task_spec.specs.Births.{birth_of};
ghost use Rattle.log_words.specs.of_event_log.Words.{births};
ghost use Rattle.log_words.specs.Index.{IsIndexOf};
ghost use Rattle.log_text.specs.Attempts.{again_note, begun_text, call_note, name_note, named_text};

use ids::{AttemptId, WorkerId};
use log_entries::Entry;
use log_words::{BirthIndex, Contents, write_call};
use report::or_no_text;
use std::alloc::AllocError;
use task_spec::Birth;

/// Writes ` (sq)`, the function of a call.
fn write_name(text: &mut String, birth: Option<&Birth>) -> Result<(), AllocError>
    ensures { OnOk result (string_bytes text.new ≡ string_bytes text.old ++ name_note (option_map birth_of (option_copied birth.entry))) }
{
    let Some(Birth::Task { function, .. }) = birth else {
        return Ok(());
    };
    text.push_str(" (")?;
    text.push_str(function.as_str())?;
    text.push_str(")")
}

/// Writes `: sq(7)`, a call.
fn write_call_of(
    text: &mut String,
    contents: Contents,
    birth: Option<&Birth>,
) -> Result<(), AllocError>
    ensures { OnOk result (string_bytes text.new ≡ string_bytes text.old ++ call_note contents (option_map birth_of (option_copied birth.entry))) }
{
    let Some(
        Birth::Task {
            function,
            arguments,
            ..
        },
    ) = birth
    else {
        return Ok(());
    };
    text.push_str(": ")?;
    write_call(text, contents, function.as_str(), arguments.as_slice())
}

fn write_again(text: &mut String, number: u32) -> Result<(), AllocError>
    ensures { OnOk result (string_bytes text.new ≡ string_bytes text.old ++ again_note number) }
{
    if number == 0 {
        return Ok(());
    }
    text.push_str(" again")
}

/// Writes an attempt with the function that it runs, such as `a1.1#0 (sq)`. An error is want of memory, and then nothing is left of the text.
pub fn write_named(
    text: &mut String,
    index: &BirthIndex,
    log: &[Entry],
    attempt: AttemptId,
) -> Result<(), AllocError>
    ensures done { IsIndexOf index.now log.now → OnOk result
        (string_bytes text.new ≡ string_bytes text.old ++ named_text (births log.now) attempt) }
    ensures err { OnErr result (string_bytes text.new ≡ []) }
{
    or_no_text(write!(text, "{attempt}"), text)?;
    or_no_text(write_name(text, index.birth(log, attempt.object)), text)
}

/// Writes where an attempt begins and what it runs, such as `w2 begins a1.1#0: sq(7)`.
pub fn write_begun(
    text: &mut String,
    contents: Contents,
    index: &BirthIndex,
    log: &[Entry],
    attempt: AttemptId,
    worker: WorkerId,
) -> Result<(), AllocError>
    ensures { IsIndexOf index.now log.now → OnOk result
        (string_bytes text.new ≡ string_bytes text.old ++ begun_text contents (births log.now) attempt worker) }
{
    write!(text, "{worker} begins {attempt}")?;
    write_again(text, attempt.number)?;
    write_call_of(text, contents, index.birth(log, attempt.object))
}
