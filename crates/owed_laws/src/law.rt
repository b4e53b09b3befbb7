// What every event of a run owes, by log, network and slots, is paid in that event.

ghost use Rattle.owed_laws.specs.Law.{AllIsPaid, EventsArePaid, ReachedGoesOn, ReachedPays};

/// In every run, of each event that comes, by log, network and slots before and after it. Whatever was killed or lost: a live worker's claim is
/// answered 31 exactly where it isn't ready; an accepted event answers the ask or Fetch that it brings to a live node, the Fetch by a copy where a
/// first one was made there and neither lost nor released, and leaves the slots of each live node right. As long as nothing was killed or lost: it
/// asks for each task that is born; where it leaves an attempt to wait, it asks for a foreign object and fetches an own accepted one, and never is
/// that an own put; it follows an Elsewhere, begins what a Give gives, gets a copy, hands on what a node lacks, sends back the worker of a
/// FinishedAck, and makes the replies of `owed_replies`; and after it each attempt that ended is reported, once its Holds are acknowledged.
pub fn events_are_paid()
    ensures { EventsArePaid }
{}

/// In every run, of each event that is accepted: the whole of what is owed, as `protocol_owed` defines it, is paid, if the Fetch that the event brings,
/// where it brings one, goes to a live node.
pub fn all_is_paid()
    ensures { AllIsPaid }
{}

/// For whoever goes on event by event: the opening is reached, and so is what comes of one more event, if what is handed in with a commit is what
/// replays do; and of each run that was reached, the next event is paid.
pub fn reached_runs_pay()
    ensures goes_on { ReachedGoesOn }
    ensures paid { ReachedPays }
{}
