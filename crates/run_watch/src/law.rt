// Counts of a log's beginning and of its rest add up.

ghost use Rattle.std.specs.Prelude.{◌≡◌, ◌+◌, ◌++◌, List};
ghost use Rattle.event_log.specs.Entries.{Entry};
ghost use Rattle.run_watch.specs.Counts.{events_in, results_in, tasks_in};

/// What was counted of a log's beginning, and what is counted of the rest, add up to the counts of the whole.
pub fn counts_add_up()
    ensures events { (front back : List Entry) → events_in (front ++ back) ≡ events_in front + events_in back }
    ensures tasks { (front back : List Entry) → tasks_in (front ++ back) ≡ tasks_in front + tasks_in back }
    ensures results { (front back : List Entry) → results_in (front ++ back) ≡ results_in front + results_in back }
{}
