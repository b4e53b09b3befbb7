// A migrated file replays to the same run.

ghost use Rattle.migration.specs.Migration.{HistoriesReplay, MigratedIsSame, OneRun};

/// The history of a replay of a file of format 1 may be replayed, to the same run.
pub fn histories_replay()
    ensures { HistoriesReplay }
{}

/// A history replays to one run.
pub fn one_run()
    ensures { OneRun }
{}

/// What a file of format 1 migrates to gives the same run as that file, and so the same log and report.
pub fn migrated_is_same()
    ensures { MigratedIsSame }
{}
