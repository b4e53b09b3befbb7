// The settle rule: which event comes next where nothing else is asked for.

ghost use Rattle.std.specs.Prelude.{◌≡◌};
ghost use Rattle.protocol.specs.Settling.{next};
ghost use Rattle.settling.specs.Turns.{next_from};

use crate::claims::first_ready;
use crate::commits::first_job;
use crate::messages::first_undelivered;
use ids::WorkerId;
use log_entries::Event;
use protocol_data::ClusterState;
use sequence::Seq;

/// The next event: the least message from the place on that was never delivered is delivered; else the least live worker whose job is out
/// commits it; else the least worker that is ready claims. The workers of the list are left out of the last two. No event: nothing is left to do.
pub fn next_from(whole: &ClusterState, but: &Seq<WorkerId>, from: usize) -> Option<Event>
    ensures { result ≡ next_from from whole.now but.now }
{
    if let Some(message) = first_undelivered(&whole.delivered, from) {
        return Some(Event::Deliver(message));
    }
    if let Some(job) = first_job(&whole.workers, but) {
        return Some(Event::Commit(job));
    }
    if let Some(worker) = first_ready(whole, but) {
        return Some(Event::Claim(worker));
    }
    None
}

/// The next event, as `next_from` has it with all messages looked at.
pub fn next(whole: &ClusterState, but: &Seq<WorkerId>) -> Option<Event>
    ensures { result ≡ next whole.now but.now }
{
    next_from(whole, but, 0)
}
