// The results of the task that an attempt runs.

ghost use Rattle.std.specs.Prelude.{◌≡◌, IfOk};
ghost use Rattle.event_log.specs.Words.{births};
ghost use Rattle.log_words.specs.Index.{IsIndexOf};
ghost use Rattle.why_text.specs.Results.{is_in_result, is_small_result, objects_of};

use held::{SharedContent, SmallList};
use ids::{AttemptId, ObjectId};
use log_entries::Entry;
use log_text::is_in_content;
use log_words::{BirthIndex, objects_at};
use std::alloc::{AllocError, Global};

/// The objects of the attempt's task, by the log of which that is the index.
pub fn objects_of(
    alloc: Global,
    index: &BirthIndex,
    log: &[Entry],
    attempt: AttemptId,
) -> Result<Vec<ObjectId>, AllocError>
    ensures { IsIndexOf index.now log.now → IfOk result (λ objects. objects.items ≡ objects_of (births log.now) attempt) }
{
    objects_at(alloc, index, log, attempt.object)
}

/// Whether the object stands in the holder's content, of those with which the attempt ended.
#[tactic(auto, unfolding(crate::specs::Results::is_in_result))]
pub fn is_in_result(
    alloc: Global,
    object: ObjectId,
    attempt: AttemptId,
    results: &SmallList<SharedContent>,
    holder: ObjectId,
) -> Result<bool, AllocError>
    ensures { IfOk result (λ b. b ≡ is_in_result object attempt results.now holder) }
{
    let place = holder.serial.saturating_sub(attempt.object.serial) as usize;
    let Some(content) = results.as_slice().get(place) else {
        return Ok(false);
    };
    is_in_content(alloc, object, &content.inner)
}

/// Whether the content of the object is small, of those with which the attempt ended.
#[tactic(auto, unfolding(crate::specs::Results::is_small_result))]
pub fn is_small_result(
    attempt: AttemptId,
    results: &SmallList<SharedContent>,
    object: ObjectId,
) -> bool
    ensures { result ≡ is_small_result attempt results.now object }
{
    let place = object.serial.saturating_sub(attempt.object.serial) as usize;
    let Some(content) = results.as_slice().get(place) else {
        return false;
    };
    content.is_small()
}
