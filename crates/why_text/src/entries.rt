// What each entry says of an object.

ghost use Rattle.std.specs.Prelude.{◌≡◌, ◌++◌, OnOk, [], if◌then◌else◌, string_bytes};
ghost use Rattle.values.specs.Values.{content_of};
ghost use Rattle.task_spec.specs.Births.{birth_of};
ghost use Rattle.event_log.specs.Words.{births};
ghost use Rattle.log_words.specs.Index.{IsIndexOf};
ghost use Rattle.why_text.specs.Moments.{moment_of};
ghost use Rattle.why_text.specs.Runs.{seen_of};
ghost use Rattle.why_text.specs.Events.{event_sentence};
ghost use Rattle.why_text.specs.Entries.{birth_sentence, entry_sentence, faulted_sentence, got_sentence, sentence};

use crate::acts::{
    write_accepted, write_began, write_ended, write_faulted, write_given_up, write_got, write_made,
    write_released,
};
use crate::events::write_event_sentence;
use crate::moments::Moment;
use crate::runs::Subject;
use ids::{AttemptId, ObjectId};
use log_entries::{Entry, Event};
use log_text::is_in_birth;
use log_words::{BirthIndex, Contents};
use std::alloc::{AllocError, Global};
use task_spec::Birth;
use values::{Content, Fault};

fn write_birth_sentence(
    alloc: Global,
    text: &mut String,
    contents: Contents,
    subject: &Subject,
    index: &BirthIndex,
    log: &[Entry],
    moment: &Moment,
    object: ObjectId,
    attempt: AttemptId,
    birth: &Birth,
) -> Result<(), AllocError>
    ensures { IsIndexOf index.now log.now → OnOk result (string_bytes text.new ≡ string_bytes text.old ++ birth_sentence contents (seen_of subject.now)
        (births log.now) (moment_of moment.now) object attempt (birth_of birth.now)) }
{
    if object.is(subject.task) {
        return write_made(text, contents, index, log, moment, object, attempt, birth);
    }
    if is_in_birth(alloc, subject.object, birth)? {
        return write_made(text, contents, index, log, moment, object, attempt, birth);
    }
    Ok(())
}

fn write_got_sentence(
    text: &mut String,
    contents: Contents,
    subject: &Subject,
    index: &BirthIndex,
    log: &[Entry],
    moment: &Moment,
    attempt: AttemptId,
    object: ObjectId,
    content: &Content,
) -> Result<(), AllocError>
    ensures { IsIndexOf index.now log.now → OnOk result (string_bytes text.new ≡ string_bytes text.old ++ got_sentence contents (seen_of subject.now)
        (births log.now) (moment_of moment.now) attempt object (content_of content.now)) }
{
    if attempt.object.is(subject.task) {
        return write_got(text, contents, index, log, moment, attempt, object, content);
    }
    if object.is(subject.object) {
        return write_got(text, contents, index, log, moment, attempt, object, content);
    }
    Ok(())
}

fn write_faulted_sentence(
    alloc: Global,
    text: &mut String,
    subject: &Subject,
    index: &BirthIndex,
    log: &[Entry],
    before: &[Entry],
    moment: &Moment,
    attempt: AttemptId,
    object: ObjectId,
    fault: Fault,
) -> Result<(), AllocError>
    ensures { IsIndexOf index.now log.now → OnOk result
        (string_bytes text.new ≡ string_bytes text.old ++ faulted_sentence (seen_of subject.now) (births log.now)
        before.now (moment_of moment.now) attempt object fault) }
{
    if attempt.object.is(subject.task) {
        return write_faulted(
            alloc, text, index, log, before, moment, attempt, object, fault,
        );
    }
    if object.is(subject.object) {
        return write_faulted(
            alloc, text, index, log, before, moment, attempt, object, fault,
        );
    }
    Ok(())
}

/// Writes what the entry says of the object, where it came of an event.
fn write_entry_sentence(
    alloc: Global,
    text: &mut String,
    contents: Contents,
    subject: &Subject,
    index: &BirthIndex,
    log: &[Entry],
    before: &[Entry],
    lines: &[usize],
    moment: &Moment,
    entry: &Entry,
) -> Result<(), AllocError>
    ensures { IsIndexOf index.now log.now → OnOk result (string_bytes text.new ≡ string_bytes text.old ++ entry_sentence contents
        (seen_of subject.now) (births log.now) lines.now before.now (moment_of moment.now) entry.now) }
{
    match entry {
        Entry::Born {
            object,
            attempt,
            birth,
        } => write_birth_sentence(
            alloc,
            text,
            contents,
            subject,
            index,
            log,
            moment,
            *object,
            *attempt,
            &birth.inner,
        ),
        Entry::Begun { attempt, worker } => {
            if attempt.object.is(subject.task) {
                return write_began(
                    alloc, text, index, log, before, lines, moment, *attempt, *worker,
                );
            }
            Ok(())
        }
        Entry::Got {
            attempt,
            object,
            content,
        } => write_got_sentence(
            text,
            contents,
            subject,
            index,
            log,
            moment,
            *attempt,
            *object,
            &content.inner,
        ),
        Entry::Ended {
            attempt,
            contents: results,
        } => {
            if attempt.object.is(subject.task) {
                return write_ended(text, contents, index, log, moment, *attempt, results);
            }
            Ok(())
        }
        Entry::Accepted(attempt) => {
            if attempt.object.is(subject.task) {
                return write_accepted(alloc, text, index, log, before, moment, *attempt);
            }
            Ok(())
        }
        Entry::Faulted {
            attempt,
            object,
            fault,
        } => write_faulted_sentence(
            alloc, text, subject, index, log, before, moment, *attempt, *object, *fault,
        ),
        Entry::Resolved { object, fault } => {
            if object.is(subject.object) {
                return write_given_up(text, moment, *object, *fault);
            }
            Ok(())
        }
        Entry::Released(object) => {
            if object.is(subject.object) {
                return write_released(alloc, text, index, log, before, lines, moment, *object);
            }
            Ok(())
        }
        _ => Ok(()),
    }
}

fn write_event_unless(
    text: &mut String,
    subject: &Subject,
    moment: &Moment,
    event: &Event,
    is_refused: bool,
) -> Result<(), AllocError>
    ensures { OnOk result (string_bytes text.new ≡ string_bytes text.old
        ++ (if is_refused then [] else event_sentence (seen_of subject.now) (moment_of moment.now) event.now)) }
{
    if is_refused {
        return Ok(());
    }
    write_event_sentence(text, subject, moment, event)
}

/// Writes what the entry says of the object; `before` are the entries of the log before it, `lines` are the lines of the events, `moment` is
/// that with the entry, and `is_refused` says of an event that it is refused.
#[tactic(auto, unfolding(crate::specs::Entries::sentence))]
pub fn write_sentence(
    alloc: Global,
    text: &mut String,
    contents: Contents,
    subject: &Subject,
    index: &BirthIndex,
    log: &[Entry],
    before: &[Entry],
    lines: &[usize],
    moment: &Moment,
    entry: &Entry,
    is_refused: bool,
) -> Result<(), AllocError>
    ensures { IsIndexOf index.now log.now → OnOk result (string_bytes text.new ≡ string_bytes text.old ++ sentence contents
        (seen_of subject.now) (births log.now) lines.now before.now (moment_of moment.now) entry.now is_refused) }
{
    if let Entry::In { event, .. } = entry {
        return write_event_unless(text, subject, moment, event, is_refused);
    }
    write_entry_sentence(
        alloc, text, contents, subject, index, log, before, lines, moment, entry,
    )
}
