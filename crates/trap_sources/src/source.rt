// With what an attempt ran whose own code trapped.

ghost use Rattle.std.specs.Prelude.{◌≡◌, ◌++◌, IfOk, OnOk, map};
ghost use Rattle.std.specs.Option.{option_map};
ghost use Rattle.values.specs.Values.{content_of};
ghost use Rattle.event_log.specs.Words.{answers_of, got_in, own_in};
ghost use Rattle.report_text.specs.of_report_lines.Main.{first};
ghost use Rattle.trap_sources.specs.Sources.{base_of, source_of, trap_source};

use crate::chain::trap_origin;
use ids::{AttemptId, ObjectId};
use log_entries::Entry;
use log_words::BirthIndex;
use std::alloc::{AllocError, Global};
use task_spec::Birth;
use values::Content;

/// An attempt whose own code trapped, and with what it ran.
#[derive(Drop)]
pub struct TrapSource {
    /// The attempt in which the trap arose.
    pub attempt: AttemptId,
    /// What the attempt ran.
    pub spec: Birth,
    /// The id of its first own birth; the others follow.
    pub base: ObjectId,
    /// What it was answered, its dereferenced arguments first.
    pub answers: Vec<Content>,
}

fn born_in(attempt: AttemptId, entry: &Entry) -> Option<ObjectId>
    ensures { result ≡ option_map (λ x. x.object) (first (own_in attempt entry.now)) }
{
    let Entry::Born {
        object,
        attempt: bearer,
        ..
    } = entry
    else {
        return None;
    };
    if bearer.is(attempt) {
        return Some(*object);
    }
    None
}

/// The id of the attempt's first own birth. One that bore nothing takes no id, and any would do.
fn first_birth(log: &[Entry], attempt: AttemptId) -> ObjectId
    ensures { result ≡ base_of log.now attempt }
{
    for entry in log {
        if let Some(object) = born_in(attempt, entry) {
            return object;
        }
    }
    attempt.object
}

/// Adds the answer that the attempt got, if the entry is one.
fn add_answer(
    alloc: Global,
    answers: &mut Vec<Content>,
    attempt: AttemptId,
    entry: &Entry,
) -> Result<(), AllocError>
    ensures { OnOk result (map content_of answers.new.items ≡ map content_of answers.old.items ++ got_in attempt entry.now) }
{
    let Entry::Got {
        attempt: answered,
        content,
        ..
    } = entry
    else {
        return Ok(());
    };
    if !answered.is(attempt) {
        return Ok(());
    }
    let content = content.inner.copy(alloc)?;
    answers.push(content)?;
    Ok(())
}

/// What the attempt was answered.
fn answers_of(alloc: Global, log: &[Entry], attempt: AttemptId) -> Result<Vec<Content>, AllocError>
    ensures { IfOk result (λ answers. map content_of answers.items ≡ answers_of attempt log.now) }
{
    let mut answers = Vec::new(alloc);
    for entry in log {
        add_answer(alloc, &mut answers, attempt, entry)?;
    }
    Ok(answers)
}

/// Where the trap comes from with which an attempt of the object ended, main's own object among them: the attempt whose own code trapped, through the
/// gets on the way, what it ran, and what it was answered. None where no attempt of the object ended with a trap.
///
/// It is made of any log, legal or not. An error is want of memory.
pub fn trap_source(
    alloc: Global,
    log: &[Entry],
    object: ObjectId,
) -> Result<Option<TrapSource>, AllocError>
    ensures { IfOk result (λ found. option_map source_of found ≡ trap_source log.now object) }
{
    let Some(attempt) = trap_origin(log, log.len(), object) else {
        return Ok(None);
    };
    let index = BirthIndex::of(alloc, log)?;
    let Some(birth) = index.birth(log, attempt.object) else {
        return Ok(None);
    };
    let spec = birth.copy(alloc)?;
    let base = first_birth(log, attempt);
    let answers = answers_of(alloc, log, attempt)?;
    Ok(Some(TrapSource {
        attempt,
        spec,
        base,
        answers,
    }))
}
