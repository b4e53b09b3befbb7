// What a log says of one object.

ghost use Rattle.std.specs.Prelude.{◌≡◌, ◌+◌, ◌++◌, ◌<◌, ◌^◌, IfOk, OnOk, string_bytes};
ghost use Rattle.log_words.specs.of_event_log.Words.{births};
ghost use Rattle.log_words.specs.Index.{IsIndexOf};
ghost use Rattle.log_words.specs.Told.{nothing_told, told_of};
ghost use Rattle.log_text.specs.About.{seen_of};
ghost use Rattle.log_text.specs.Story.{line_if, lines_about, story_text};

use crate::about::is_shown;
use crate::entries::write_line;
use crate::runners::Subject;
use ids::ObjectId;
use log_entries::Entry;
use log_words::{BirthIndex, Contents, Told, is_refusal_at};
use std::alloc::{AllocError, Global};

#[tactic(auto, unfolding(crate::specs::Story::line_if))]
fn write_line_if(
    text: &mut String,
    contents: Contents,
    shown: bool,
    index: &BirthIndex,
    log: &[Entry],
    told: &Told,
    entry: &Entry,
    is_refused: bool,
) -> Result<(), AllocError>
    requires { told.now.events + 1 < 2 ^ 64 }
    ensures { IsIndexOf index.now log.now → OnOk result (string_bytes text.new
        ≡ string_bytes text.old ++ line_if contents shown (births log.now) (told_of told.now) entry.now is_refused) }
{
    if !shown {
        return Ok(());
    }
    write_line(text, contents, index, log, told, entry, is_refused)
}

fn write_story(
    alloc: Global,
    text: &mut String,
    contents: Contents,
    subject: &Subject,
    index: &BirthIndex,
    log: &[Entry],
) -> Result<(), AllocError>
    requires { IsIndexOf index.now log.now }
    ensures { OnOk result (string_bytes text.new
        ≡ string_bytes text.old ++ lines_about contents (seen_of subject.now) (births log.now) nothing_told log.now) }
{
    let mut told = Told::new(alloc);
    for (place, entry) in log.iter().enumerate() {
        let is_refused = is_refusal_at(log, place + 1);
        let shown = is_shown(alloc, subject, entry, &log[place + 1..])?;
        write_line_if(text, contents, shown, index, log, &told, entry, is_refused)?;
        told.note(entry, is_refused)?;
    }
    Ok(())
}

fn write_story_of(
    alloc: Global,
    text: &mut String,
    contents: Contents,
    index: &BirthIndex,
    log: &[Entry],
    object: ObjectId,
) -> Result<(), AllocError>
    requires { IsIndexOf index.now log.now }
    ensures { OnOk result (string_bytes text.new ≡ string_bytes text.old ++ story_text contents object log.now) }
{
    let subject = Subject::of(alloc, index, log, object)?;
    let written = write_story(alloc, text, contents, &subject, index, log);
    drop(subject);
    written
}

/// What a log says of one object: of its lines in words those that name the object or an attempt of its task, each below its
/// event; with them the kills of workers that ran an attempt of it and of their nodes, the notices of these, the losses of the copies of every result of
/// its task, with which it is made again, and the evictions of its own. Events keep their numbers.
///
/// It is made of any log, a legal one or not; an object that the log does not name has no lines.
pub fn story_text(
    alloc: Global,
    contents: Contents,
    log: &[Entry],
    object: ObjectId,
) -> Result<String, AllocError>
    ensures { IfOk result (λ text. string_bytes text ≡ story_text contents object log.now) }
{
    let mut text = String::new(alloc);
    let index = BirthIndex::of(alloc, log)?;
    let written = write_story_of(alloc, &mut text, contents, &index, log, object);
    drop(index);
    written?;
    Ok(text)
}
