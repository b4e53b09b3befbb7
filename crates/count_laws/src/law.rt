// What the log counts, and the limits.

ghost use Rattle.count_laws.specs.Law.{EventsAreLimited, RunsAreCounted, RunsAreWithin};

/// Of every run that was reached from its opening: the log has as many nodes, workers and objects as the run. Where there were at most 64 nodes at first,
/// no event leads past a limit, and one is refused 37 exactly where log and network show no cause to refuse it, and there would be more than 64 nodes,
/// 1,024 workers or 1,000,000 objects behind it, by the counts of the log, the births that come with a commit, and the workers that the event would
/// open, of which there is one at most. By the log alone: a join is refused so exactly where there are 64 nodes, too many births always are, unless for
/// another cause, and any other event only where there are 1,024 workers.
pub fn runs_are_limited()
    ensures counted { RunsAreCounted }
    ensures within { RunsAreWithin }
    ensures limited { EventsAreLimited }
{}
