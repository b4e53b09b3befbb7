// What a part of a log adds to the counts.

ghost use Rattle.std.specs.Prelude.{◌≡◌};
ghost use Rattle.task_spec.specs.Births.{birth_of};
ghost use Rattle.run_watch.specs.Counts.{counts_of, events_in, is_event, is_result, is_task, makes_a_task, results_in, sum_of, tasks_in};

use log_entries::Entry;
use task_spec::Birth;

/// How far a run is: how many events came, refused ones too, how many tasks were born, and how many results were accepted, among them those of tasks that
/// were run once more for a result that was lost.
#[derive(Clone, Copy, PartialEq, Eq, Debug)]
pub struct RunCounts {
    /// How many events came, refused ones too.
    pub events: usize,
    /// How many tasks were born.
    pub tasks: usize,
    /// How many results were accepted, those of tasks that were run once more for a lost one among them.
    pub results: usize,
}

fn is_event(entry: &Entry) -> bool
    ensures { result ≡ is_event entry.now }
{
    match entry {
        Entry::In { .. } => true,
        _ => false,
    }
}

fn makes_a_task(birth: &Birth) -> bool
    ensures { result ≡ makes_a_task (birth_of birth.now) }
{
    match birth {
        Birth::Task { .. } => true,
        Birth::Put(_) => false,
    }
}

fn is_task(entry: &Entry) -> bool
    ensures { result ≡ is_task entry.now }
{
    match entry {
        Entry::Born { birth, .. } => makes_a_task(&birth.inner),
        _ => false,
    }
}

fn is_result(entry: &Entry) -> bool
    ensures { result ≡ is_result entry.now }
{
    match entry {
        Entry::Accepted(_) => true,
        _ => false,
    }
}

fn events_in(log: &[Entry]) -> usize
    ensures { result ≡ events_in log.now }
{
    let mut count = 0;
    for entry in log {
        if is_event(entry) {
            count += 1;
        }
    }
    count
}

fn tasks_in(log: &[Entry]) -> usize
    ensures { result ≡ tasks_in log.now }
{
    let mut count = 0;
    for entry in log {
        if is_task(entry) {
            count += 1;
        }
    }
    count
}

fn results_in(log: &[Entry]) -> usize
    ensures { result ≡ results_in log.now }
{
    let mut count = 0;
    for entry in log {
        if is_result(entry) {
            count += 1;
        }
    }
    count
}

/// What these entries add to the counts.
pub fn counts_of(log: &[Entry]) -> RunCounts
    ensures { result ≡ counts_of log.now }
{
    RunCounts {
        events: events_in(log),
        tasks: tasks_in(log),
        results: results_in(log),
    }
}

impl RunCounts {
    /// No event came yet.
    pub fn new() -> RunCounts
        ensures { result ≡ record { events = 0; tasks = 0; results = 0 } }
    {
        RunCounts {
            events: 0,
            tasks: 0,
            results: 0,
        }
    }

    /// Both counts together, each as far as it has room.
    pub fn and(&self, more: &RunCounts) -> RunCounts
        ensures { result ≡ sum_of self.now more.now }
    {
        RunCounts {
            events: self.events.saturating_add(more.events),
            tasks: self.tasks.saturating_add(more.tasks),
            results: self.results.saturating_add(more.results),
        }
    }
}
