// What holds of every legal log: of its beginnings, of one more event, of its entries, faults and totals.

ghost use Rattle.event_log.specs.Laws.{BeginningsAreLegal, LegalLogsGrow, EntriesHaveTheirNeeds, LegalFaultsHaveCauses, LawOfTotals};
ghost use Rattle.event_log.specs.Laws.{LegalInLargerNetworks, LawOfCauses};
ghost use Rattle.event_log.specs.Claims.{LawOfClaims};
ghost use Rattle.event_log.specs.Commits.{LawOfCommits};
ghost use Rattle.event_log.specs.Extends.{LogsExtend};
ghost use Rattle.event_log.specs.Fresh.{FreshObjectsAreUnknown};
ghost use Rattle.event_log.specs.Sane.{LegalLogsAreSane};

/// What stands before an event of a legal log is legal.
pub fn beginnings_are_legal()
    ensures { BeginningsAreLegal }
{}

/// A legal log stays legal with one more event, which is refused for its cause, or adds entries that may stand there.
pub fn legal_logs_grow()
    ensures { LegalLogsGrow }
{}

/// Each entry of a legal log has what it needs where it stands.
pub fn entries_have_their_needs()
    ensures { EntriesHaveTheirNeeds }
{}

/// The cause of each fault of a legal log stands earlier in the log.
pub fn legal_faults_have_causes()
    ensures { LegalFaultsHaveCauses }
{}

/// A log's totals are sums over its events: each adds its own.
pub fn law_of_totals()
    ensures { LawOfTotals }
{}

/// What a log says of births, attempts, objects, workers and jobs stays said as it grows.
pub fn logs_extend()
    ensures { LogsExtend }
{}

/// What follows of every legal log: what was begun was born, what ended was begun, what was accepted has ended, and what
/// comes once comes at most once.
pub fn legal_logs_are_sane()
    ensures { LegalLogsAreSane }
{}

/// Of the objects that a worker makes next, a legal log says nothing yet.
pub fn fresh_objects_are_unknown()
    ensures { FreshObjectsAreUnknown }
{}

/// The claim of a live worker of which no job is out may add nothing, or the answer that its attempt needs, before which an attempt of its own object may
/// be accepted.
pub fn law_of_claims()
    ensures { LawOfClaims }
{}

/// The commit of a job may add all that is left to log of its attempt: new births, then prints, then the end.
pub fn law_of_commits()
    ensures { LawOfCommits }
{}

/// A legal log stays legal as messages are added to the network.
pub fn legal_in_larger_networks()
    ensures { LegalInLargerNetworks }
{}

/// Where an event may be accepted, it shows no cause for which it is refused; where it shows none, any but a commit may be accepted, which also needs its
/// entries.
pub fn law_of_causes()
    ensures { LawOfCauses }
{}
