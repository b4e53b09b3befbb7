// What a log says of an object, entry by entry.

ghost use Rattle.std.specs.Prelude.{◌≡◌, ◌++◌, OnOk, option_copied, string_bytes};
ghost use Rattle.std.specs.Option.{option_map};
ghost use Rattle.task_spec.specs.Births.{birth_of};
ghost use Rattle.event_log.specs.Words.{births};
ghost use Rattle.log_words.specs.Index.{IsIndexOf};
ghost use Rattle.why_text.specs.Moments.{first_moment};
ghost use Rattle.why_text.specs.Runs.{seen_of, subject_of};
ghost use Rattle.why_text.specs.Text.{account, account_of, sentences, unborn_note};

use crate::entries::write_sentence;
use crate::moments::Moment;
use crate::runs::Subject;
use ids::ObjectId;
use log_entries::Entry;
use log_words::{BirthIndex, Contents, is_refusal_at, task_of};
use std::alloc::{AllocError, Global};
use task_spec::Birth;

#[tactic(auto, unfolding(crate::specs::Text::unborn_note))]
fn write_unborn(
    text: &mut String,
    object: ObjectId,
    birth: Option<&Birth>,
) -> Result<(), AllocError>
    ensures { OnOk result
        (string_bytes text.new ≡ string_bytes text.old ++ unborn_note object (option_map birth_of (option_copied birth.entry))) }
{
    if birth.is_some() {
        return Ok(());
    }
    let owner = object.owner;
    write!(
        text,
        "There is no {object}: {owner}, which would own it, never made it.\n"
    )
}

fn write_sentences(
    alloc: Global,
    text: &mut String,
    contents: Contents,
    subject: &Subject,
    index: &BirthIndex,
    log: &[Entry],
    lines: &[usize],
) -> Result<(), AllocError>
    requires { IsIndexOf index.now log.now }
    ensures { OnOk result (string_bytes text.new
        ≡ string_bytes text.old
        ++ sentences contents (seen_of subject.now) (births log.now) lines.now log.now 0 first_moment log.now) }
{
    let mut moment = Moment::first();
    for (place, entry) in log.iter().enumerate() {
        let is_refused = is_refusal_at(log, place + 1);
        moment = moment.after(lines, entry);
        let before = &log[..place];
        write_sentence(
            alloc, text, contents, subject, index, log, before, lines, &moment, entry, is_refused,
        )?;
    }
    Ok(())
}

/// Writes what the log, of which that is the index, says of an object, whose task is named by that one.
fn write_account_by(
    alloc: Global,
    text: &mut String,
    contents: Contents,
    index: &BirthIndex,
    log: &[Entry],
    lines: &[usize],
    object: ObjectId,
    task: ObjectId,
) -> Result<(), AllocError>
    requires { IsIndexOf index.now log.now }
    ensures { OnOk result (string_bytes text.new ≡ string_bytes text.old ++ account_of contents log.now lines.now object task) }
{
    write_unborn(text, object, index.birth(log, task))?;
    let subject = Subject::of(alloc, index, log, object, task)?;
    let written = write_sentences(alloc, text, contents, &subject, index, log, lines);
    drop(subject);
    written
}

fn write_account_of(
    alloc: Global,
    text: &mut String,
    contents: Contents,
    log: &[Entry],
    lines: &[usize],
    object: ObjectId,
    task: ObjectId,
) -> Result<(), AllocError>
    ensures { OnOk result (string_bytes text.new ≡ string_bytes text.old ++ account_of contents log.now lines.now object task) }
{
    let index = BirthIndex::of(alloc, log)?;
    let written = write_account_by(alloc, text, contents, &index, log, lines, object, task);
    drop(index);
    written
}

/// Writes what the log says of an object.
#[tactic(auto, unfolding(crate::specs::Text::account))]
pub fn write_account(
    alloc: Global,
    text: &mut String,
    contents: Contents,
    log: &[Entry],
    lines: &[usize],
    object: ObjectId,
) -> Result<(), AllocError>
    ensures { OnOk result (string_bytes text.new ≡ string_bytes text.old ++ account contents log.now lines.now object) }
{
    write_account_of(
        alloc,
        text,
        contents,
        log,
        lines,
        object,
        task_of(log, object),
    )
}
