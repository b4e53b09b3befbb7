// From a trap that was got to the attempt that ended with it.

ghost use Rattle.std.specs.Prelude.{◌≡◌};
ghost use Rattle.std.specs.List.{list_any};
ghost use Rattle.values.specs.Values.{content_of};
ghost use Rattle.report_text.specs.of_report_lines.Main.{first};
ghost use Rattle.trap_sources.specs.Chains.{is_trap, trap_after, trap_got, trap_origin, trapped_by, trapped_in, trapped_of};

use held::{SharedContent, SmallList};
use ids::{AttemptId, ObjectId};
use log_entries::Entry;
use log_words::task_of;
use values::Content;

fn is_trap(content: &Content) -> bool
    ensures { result ≡ is_trap (content_of content.now) }
{
    match content {
        Content::Value(_) => false,
        Content::Trap(_) => true,
    }
}

/// The object whose trap the attempt got last, where `last` is that of the entries before.
fn trap_after(attempt: AttemptId, last: Option<ObjectId>, entry: &Entry) -> Option<ObjectId>
    ensures { result ≡ trap_after attempt last entry.now }
{
    let Entry::Got {
        attempt: answered,
        object,
        content,
    } = entry
    else {
        return last;
    };
    if !answered.is(attempt) {
        return last;
    }
    match &*content.inner {
        Content::Value(_) => None,
        Content::Trap(_) => Some(*object),
    }
}

/// The object whose trap the attempt got last: none where its last answer was a value, or where it got none. Takes no memory.
#[tactic(auto, unfolding(crate::specs::Chains::trap_got))]
pub fn trap_got(log: &[Entry], attempt: AttemptId) -> Option<ObjectId>
    ensures { result ≡ trap_got log.now attempt }
{
    let mut last = None;
    for entry in log {
        last = trap_after(attempt, last, entry);
    }
    last
}

fn has_trap(contents: &SmallList<SharedContent>) -> bool
    ensures { result ≡ list_any is_trap contents.now }
{
    for content in contents.as_slice() {
        if is_trap(&content.inner) {
            return true;
        }
    }
    false
}

fn trapped_in(task: ObjectId, entry: &Entry) -> Option<AttemptId>
    ensures { result ≡ first (trapped_in task entry.now) }
{
    let Entry::Ended { attempt, contents } = entry else {
        return None;
    };
    if attempt.object.is(task) && has_trap(contents) {
        return Some(*attempt);
    }
    None
}

fn trapped_by(log: &[Entry], task: ObjectId) -> Option<AttemptId>
    ensures { result ≡ trapped_by log.now task }
{
    for entry in log {
        if let Some(attempt) = trapped_in(task, entry) {
            return Some(attempt);
        }
    }
    None
}

/// The first attempt of the object's task that ended with a trap, if one did: of several results the trap is each one's. Takes no memory.
pub fn trapped_of(log: &[Entry], object: ObjectId) -> Option<AttemptId>
    ensures { result ≡ trapped_of log.now object }
{
    trapped_by(log, task_of(log, object))
}

/// The attempt whose own code trapped, from the object's attempt that ended with a trap to that of the object whose trap it got, and so on, so many
/// at most: none where no attempt of the object ended with a trap. Takes no memory.
pub fn trap_origin(log: &[Entry], most: usize, object: ObjectId) -> Option<AttemptId>
    ensures { result ≡ trap_origin log.now most object }
{
    let mut at = object;
    let mut left = most;
    while left > 0 {
        let Some(attempt) = trapped_of(log, at) else {
            return None;
        };
        let Some(next) = trap_got(log, attempt) else {
            return Some(attempt);
        };
        at = next;
        left -= 1;
    }
    None
}
