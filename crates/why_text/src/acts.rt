// What was made, begun, got, ended, given up and released, in sentences.

ghost use Rattle.std.specs.Prelude.{◌≡◌, ◌++◌, [], OnErr, OnOk, string_bytes};
ghost use Rattle.values.specs.Values.{content_of};
ghost use Rattle.task_spec.specs.Births.{birth_of};
ghost use Rattle.event_log.specs.Words.{births};
ghost use Rattle.log_words.specs.Index.{IsIndexOf};
ghost use Rattle.why_text.specs.Moments.{moment_of};
ghost use Rattle.why_text.specs.Entries.{accepted_head, accepted_text, began_text, ended_text, faulted_head, faulted_text, get_note};
ghost use Rattle.why_text.specs.Entries.{given_up_text, got_text, made_text, released_head, released_text};

use crate::again::write_again;
use crate::moments::{Moment, write_when};
use crate::notes::{write_fault_note, write_kept_note, write_owner_of, write_release_note};
use held::{SharedContent, SmallList};
use ids::{AttemptId, ObjectId, WorkerId};
use log_entries::Entry;
use log_text::write_named;
use log_words::{
    BirthIndex, Contents, write_birth, write_content, write_contents, write_fault, write_objects,
};
use report::or_no_text;
use std::alloc::{AllocError, Global};
use task_spec::Birth;
use values::{Content, Fault};

/// Writes what made the objects of a birth.
pub fn write_made(
    text: &mut String,
    contents: Contents,
    index: &BirthIndex,
    log: &[Entry],
    moment: &Moment,
    object: ObjectId,
    attempt: AttemptId,
    birth: &Birth,
) -> Result<(), AllocError>
    ensures { IsIndexOf index.now log.now → OnOk result (string_bytes text.new ≡ string_bytes text.old
        ++ made_text contents (births log.now) (moment_of moment.now) object attempt (birth_of birth.now)) }
{
    write_named(text, index, log, attempt)?;
    text.push_str(" made ")?;
    write_objects(text, object, birth)?;
    write_when(text, moment)?;
    text.push_str(": ")?;
    write_birth(text, contents, birth)?;
    text.push_str(".\n")
}

/// Writes where an attempt began, and why, if it is a later one; `before` are the entries before. An error is want of memory, and then nothing is
/// left of the text.
pub fn write_began(
    alloc: Global,
    text: &mut String,
    index: &BirthIndex,
    log: &[Entry],
    before: &[Entry],
    lines: &[usize],
    moment: &Moment,
    attempt: AttemptId,
    worker: WorkerId,
) -> Result<(), AllocError>
    ensures done { IsIndexOf index.now log.now → OnOk result (string_bytes text.new ≡ string_bytes text.old
        ++ began_text (births log.now) lines.now before.now (moment_of moment.now) attempt worker) }
    ensures err { OnErr result (string_bytes text.new ≡ []) }
{
    write_named(text, index, log, attempt)?;
    or_no_text(write!(text, " began on {worker}"), text)?;
    write_when(text, moment)?;
    write_again(alloc, text, index, log, before, lines, attempt)?;
    or_no_text(text.push_str(".\n"), text)
}

/// Writes that the attempt got the object, when, and the content that it got (`specs/` has the sentence as `got_text`).
pub fn write_got(
    text: &mut String,
    contents: Contents,
    index: &BirthIndex,
    log: &[Entry],
    moment: &Moment,
    attempt: AttemptId,
    object: ObjectId,
    content: &Content,
) -> Result<(), AllocError>
    ensures { IsIndexOf index.now log.now → OnOk result (string_bytes text.new ≡ string_bytes text.old
        ++ got_text contents (births log.now) (moment_of moment.now) attempt object (content_of content.now)) }
{
    write_named(text, index, log, attempt)?;
    write!(text, " got {object}")?;
    write_when(text, moment)?;
    text.push_str(": ")?;
    write_content(text, contents, content)?;
    text.push_str(".\n")
}

/// Writes with what an attempt ended. An error is want of memory, and then nothing is left of the text.
pub fn write_ended(
    text: &mut String,
    contents: Contents,
    index: &BirthIndex,
    log: &[Entry],
    moment: &Moment,
    attempt: AttemptId,
    results: &SmallList<SharedContent>,
) -> Result<(), AllocError>
    ensures done { IsIndexOf index.now log.now → OnOk result (string_bytes text.new ≡ string_bytes text.old
        ++ ended_text contents (births log.now) (moment_of moment.now) attempt results.now) }
    ensures err { OnErr result (string_bytes text.new ≡ []) }
{
    write_named(text, index, log, attempt)?;
    or_no_text(text.push_str(" ended"), text)?;
    write_when(text, moment)?;
    or_no_text(text.push_str(": "), text)?;
    or_no_text(write_contents(text, contents, results), text)?;
    or_no_text(text.push_str(".\n"), text)
}

#[tactic(auto, unfolding(crate::specs::Entries::accepted_head))]
fn write_accepted_head(text: &mut String, attempt: AttemptId) -> Result<(), AllocError>
    ensures { OnOk result (string_bytes text.new ≡ string_bytes text.old ++ accepted_head attempt.object.owner) }
{
    let owner = attempt.owner();
    write!(text, "{owner} accepted ")
}

/// Writes that the owner learned how an attempt ended; `before` are the entries before. An error is want of memory, and then nothing is left of
/// the text.
pub fn write_accepted(
    alloc: Global,
    text: &mut String,
    index: &BirthIndex,
    log: &[Entry],
    before: &[Entry],
    moment: &Moment,
    attempt: AttemptId,
) -> Result<(), AllocError>
    ensures done { IsIndexOf index.now log.now → OnOk result (string_bytes text.new ≡ string_bytes text.old
        ++ accepted_text (births log.now) before.now (moment_of moment.now) attempt) }
    ensures err { OnErr result (string_bytes text.new ≡ []) }
{
    or_no_text(write_accepted_head(text, attempt), text)?;
    write_named(text, index, log, attempt)?;
    write_when(text, moment)?;
    or_no_text(
        write_kept_note(alloc, text, index, log, before, attempt),
        text,
    )?;
    or_no_text(text.push_str(".\n"), text)
}

#[tactic(auto, unfolding(crate::specs::Entries::get_note))]
fn write_get(text: &mut String, object: ObjectId) -> Result<(), AllocError>
    ensures { OnOk result (string_bytes text.new ≡ string_bytes text.old ++ get_note object) }
{
    write!(text, ", at its get of {object}: ")
}

#[tactic(auto, unfolding(crate::specs::Entries::faulted_head))]
fn write_faulted_head(
    text: &mut String,
    index: &BirthIndex,
    log: &[Entry],
    moment: &Moment,
    attempt: AttemptId,
) -> Result<(), AllocError>
    ensures { IsIndexOf index.now log.now → OnOk result (string_bytes text.new ≡ string_bytes text.old
        ++ faulted_head (births log.now) (moment_of moment.now) attempt) }
{
    write_named(text, index, log, attempt)?;
    text.push_str(" ended with a fault")?;
    write_when(text, moment)?;
    Ok(())
}

/// Writes with which fault an attempt ended, and at which get; `before` are the entries before. An error is want of memory, and then nothing is
/// left of the text.
pub fn write_faulted(
    alloc: Global,
    text: &mut String,
    index: &BirthIndex,
    log: &[Entry],
    before: &[Entry],
    moment: &Moment,
    attempt: AttemptId,
    object: ObjectId,
    fault: Fault,
) -> Result<(), AllocError>
    ensures done { IsIndexOf index.now log.now → OnOk result (string_bytes text.new ≡ string_bytes text.old ++ faulted_text
        (births log.now) before.now (moment_of moment.now) attempt object fault) }
    ensures err { OnErr result (string_bytes text.new ≡ []) }
{
    or_no_text(write_faulted_head(text, index, log, moment, attempt), text)?;
    or_no_text(write_get(text, object), text)?;
    or_no_text(write_fault(text, fault), text)?;
    or_no_text(
        write_fault_note(alloc, text, index, log, before, object, fault),
        text,
    )?;
    or_no_text(text.push_str(".\n"), text)
}

/// Writes that its owner gave the object up. An error is want of memory, and then nothing is left of the text.
pub fn write_given_up(
    text: &mut String,
    moment: &Moment,
    object: ObjectId,
    fault: Fault,
) -> Result<(), AllocError>
    ensures done { OnOk result
        (string_bytes text.new ≡ string_bytes text.old ++ given_up_text (moment_of moment.now) object fault) }
    ensures err { OnErr result (string_bytes text.new ≡ []) }
{
    let owner = object.owner;
    or_no_text(write!(text, "{owner} gave up {object}"), text)?;
    write_when(text, moment)?;
    or_no_text(text.push_str(": "), text)?;
    or_no_text(write_fault(text, fault), text)?;
    or_no_text(text.push_str(".\n"), text)
}

#[tactic(auto, unfolding(crate::specs::Entries::released_head))]
fn write_released_head(
    text: &mut String,
    moment: &Moment,
    object: ObjectId,
) -> Result<(), AllocError>
    ensures { OnOk result (string_bytes text.new ≡ string_bytes text.old ++ released_head (moment_of moment.now) object) }
{
    write_owner_of(text, object)?;
    write!(text, " released {object}")?;
    write_when(text, moment)?;
    text.push_str(": nothing needed it any more")
}

/// Writes that its owner released the object; `before` are the entries before.
pub fn write_released(
    alloc: Global,
    text: &mut String,
    index: &BirthIndex,
    log: &[Entry],
    before: &[Entry],
    lines: &[usize],
    moment: &Moment,
    object: ObjectId,
) -> Result<(), AllocError>
    ensures { IsIndexOf index.now log.now → OnOk result (string_bytes text.new
        ≡ string_bytes text.old ++ released_text (births log.now) lines.now before.now (moment_of moment.now) object) }
{
    write_released_head(text, moment, object)?;
    write_release_note(alloc, text, index, log, before, lines, object)?;
    text.push_str(".\n")
}
