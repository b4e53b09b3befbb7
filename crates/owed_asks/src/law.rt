// The laws of what is owed of asks and slots.

ghost use Rattle.owed_asks.specs.Law.{AskNumbersAreLow, BirthsAreAsked, CopiesAreGot, ElsewheresAreAsked, GivesAreBegun, NewForeignWaitsAreAsked, SlotsAreAllRight};

/// As long as nothing was killed or lost, a task that is born is asked for at its owner's own node, in the event of its birth.
pub fn births_are_asked()
    ensures { BirthsAreAsked }
{}

/// As long as nothing was killed or lost, an Elsewhere to the last ask of an attempt that wasn't begun is followed: the node that it names is
/// asked, in the event that delivers it.
pub fn elsewheres_are_asked()
    ensures { ElsewheresAreAsked }
{}

/// As long as nothing was killed or lost, a Give of an attempt that wasn't begun begins it, and pushes its task to the worker that was given,
/// in the event that delivers it.
pub fn gives_are_begun()
    ensures { GivesAreBegun }
{}

/// As long as nothing was killed or lost, a copy that reaches a worker whose attempt waits for the object answers it, in the event that delivers
/// it.
pub fn copies_are_got()
    ensures { CopiesAreGot }
{}

/// As long as nothing was killed or lost, the owner of another worker's object is asked where it is, in the commit that leaves an attempt to wait
/// for it.
pub fn new_foreign_waits_are_asked()
    ensures { NewForeignWaitsAreAsked }
{}

/// Whatever events come, killed or lost, on each live node: the slots in use are never more than there are, and no worker has two; who has one is
/// a live worker of the node that was given for an attempt which it hasn't begun, whose job is out, or whose attempt may go on, so one whose
/// attempt waits or has stopped has none; who was given or is busy has one; and none is free while an ask, or a live worker whose attempt may go
/// on, stands in the queue.
pub fn slots_are_all_right()
    ensures { SlotsAreAllRight }
{}

/// Whatever events come, the number of an ask is less than how many messages were sent: each ask but an attempt's first follows the one before it.
pub fn asks_are_numbered_low()
    ensures { AskNumbersAreLow }
{}
