// Leases stay in order: a Push that begins an attempt finds its worker free.

ghost use Rattle.lease_discipline.specs.Asks.{LawOfLastAsks};
ghost use Rattle.lease_discipline.specs.Slots.{LawOfKeptSlots};
ghost use Rattle.lease_discipline.specs.Law.{EventsKeepLeases, OpeningKeepsLeases, PushesBegin, PushesFindFree};
ghost use Rattle.lease_discipline.specs.Owing.{AttemptsRunOnce, ClaimsAreAnswered, EventsStayInStep, LogsTell, OpeningIsInStep};

/// A run begins with its leases in order.
pub fn opening_keeps_leases()
    ensures { OpeningKeepsLeases }
{}

/// Every event keeps the leases in order, accepted or refused.
pub fn events_keep_leases()
    ensures { EventsKeepLeases }
{}

/// A Push that begins an attempt finds its worker free.
pub fn pushes_find_free()
    ensures { PushesFindFree }
{}

/// A run begins in step: sound, its leases in order, and its log telling what the tables say.
pub fn opening_is_in_step()
    ensures { OpeningIsInStep }
{}

/// Every event keeps a run in step, accepted or refused; where what is handed in as done on a job is what its attempt's replay does, and no
/// function of the script calls main and none but main prints.
pub fn events_stay_in_step()
    ensures { EventsStayInStep }
{}

/// Log and network tell of each live worker which attempts it began, the last of them, and how far it is with that: what its tables say.
pub fn logs_tell()
    ensures { LogsTell }
{}

/// An attempt is begun by one worker at most, whether that lives or not.
pub fn attempts_run_once()
    ensures { AttemptsRunOnce }
{}

/// A claim of a live worker is answered 31 exactly where the worker isn't ready: it has no slot, or its attempt doesn't go on.
pub fn claims_are_answered()
    ensures { ClaimsAreAnswered }
{}

/// Whatever events come: the slots of a node in use are never more than there are; a live worker that was given, or whose job is out, has its
/// slot; and no slot is free while an ask, or a live worker whose attempt may go on, stands in the node's queue.
pub fn law_of_kept_slots()
    ensures { LawOfKeptSlots }
{}

/// Whatever events come: the ask of an attempt that stands is its last one; each earlier one was sent on by the node that was asked, or that node
/// is dead; and whatever was pushed was given for the attempt's last ask, by the one node to which that went.
pub fn law_of_last_asks()
    ensures { LawOfLastAsks }
{}

/// A Push that reaches a live worker begins its attempt there, unless that began before.
pub fn pushes_begin()
    ensures { PushesBegin }
{}
