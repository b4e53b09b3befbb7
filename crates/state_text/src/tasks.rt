// The tasks that stand with objects.

ghost use Rattle.std.specs.Prelude.{◌≡◌, MatchOption, None, Some};
ghost use Rattle.event_log.specs.Events.{from_one};
ghost use Rattle.state_text.specs.Tasks.{is_pending_at, is_pending_by, is_under_way, number_at, number_by};

use protocol_data::{Object, ObjectSource, Objects, Progress};

/// The object of that serial, counted from 1; none for any other number.
#[tactic(auto, using(crate::proofs::Below::item_there, crate::proofs::Below::no_item))]
fn object_at(objects: &Objects, serial: u64) -> Option<&Object>
    ensures { MatchOption result (from_one objects.now serial ≡ None) (λ x. from_one objects.now serial ≡ Some x.now) }
{
    if serial == 0 {
        return None;
    }
    let place = (serial - 1) as usize;
    if place >= objects.len() {
        return None;
    }
    Some(objects.row(place))
}

fn number_by(source: &ObjectSource) -> Option<u32>
    ensures { result ≡ number_by source.now }
{
    match source {
        ObjectSource::WasPut | ObjectSource::Beside(_) => None,
        ObjectSource::ByTask(task) => Some(task.number),
    }
}

/// The number of the present attempt of the task that stands with the object of that serial.
pub fn number_at(objects: &Objects, serial: u64) -> Option<u32>
    ensures { result ≡ number_at objects.now serial }
{
    match object_at(objects, serial) {
        None => None,
        Some(found) => number_by(&found.source),
    }
}

fn is_under_way(progress: Progress) -> bool
    ensures { result ≡ is_under_way progress }
{
    match progress {
        Progress::AtRest => false,
        Progress::AskedAt(..) | Progress::RunsOn(..) => true,
    }
}

fn is_pending_by(source: &ObjectSource) -> bool
    ensures { result ≡ is_pending_by source.now }
{
    match source {
        ObjectSource::WasPut | ObjectSource::Beside(_) => false,
        ObjectSource::ByTask(task) => is_under_way(task.progress),
    }
}

/// Whether an attempt is asked for, or under way, of the task that stands with the object of that serial.
pub fn is_pending_at(objects: &Objects, serial: u64) -> bool
    ensures { result ≡ is_pending_at objects.now serial }
{
    match object_at(objects, serial) {
        None => false,
        Some(found) => is_pending_by(&found.source),
    }
}
