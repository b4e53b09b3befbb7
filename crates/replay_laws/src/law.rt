// The history of a run replays to that run.

ghost use Rattle.replay_laws.specs.Replaying.{LogsReplay, RunsReplay, RunsReplayToThemselves};

/// The history of a run that came of events may be replayed, and whatever comes of it is that run, with the same log, and so the same report; where an event
/// found no memory, a run with the same log. What was handed in must be true of its job, by the log each job was handed in once, and at most 100,000 events
/// came.
pub fn runs_replay()
    ensures again { RunsReplay }
    ensures same { RunsReplayToThemselves }
    ensures logs { LogsReplay }
{}
