// What has been told when an entry comes.

ghost use Rattle.std.specs.Prelude.{◌≡◌, ◌+◌, ◌++◌, ◌<◌, ◌≤◌, ◌^◌, OnErr, OnOk, [], if◌then◌else◌, drop};
ghost use Rattle.report_text.specs.of_event_log.Events.{claim_in, from_one, refused_next};
ghost use Rattle.log_words.specs.Told.{nothing_told, told_after, told_of};

use ids::WorkerId;
use log_entries::{Entry, Event};
use std::alloc::{AllocError, Global};

/// How many events came, and the workers to which jobs were given, by job.
#[derive(Drop)]
pub struct Told {
    /// How many events came, taken or refused.
    pub events: usize,
    /// The worker of each job, by number: that of job 1 first.
    pub jobs: Vec<WorkerId>,
}

/// Notes the job that an accepted event gives out. On an error the jobs are as they were.
fn note_job(jobs: &mut Vec<WorkerId>, event: &Event, is_refused: bool) -> Result<(), AllocError>
    ensures done { OnOk result (jobs.new.items
        ≡ jobs.old.items ++ (if is_refused then [] else claim_in event.now)) }
    ensures err { OnErr result (jobs.new.items ≡ jobs.old.items) }
{
    if is_refused {
        return Ok(());
    }
    match event {
        Event::Claim(worker) => Ok(jobs.push(*worker)?),
        _ => Ok(()),
    }
}

/// The worker to which the job was given, where `jobs` are those to which jobs were given, by job.
pub fn worker_of_job(jobs: &[WorkerId], job: u64) -> Option<WorkerId>
    ensures { result ≡ from_one jobs.now job }
{
    if job == 0 {
        return None;
    }
    let place = (job - 1) as usize;
    if place < jobs.len() {
        return Some(jobs[place]);
    }
    None
}

/// Whether a refusal stands at the place.
pub fn is_refusal_at(log: &[Entry], place: usize) -> bool
    ensures { result ≡ refused_next (drop place log.now) }
{
    matches!(log.get(place), Some(Entry::Refused(_)))
}

impl Told {
    /// Nothing has been told.
    pub fn new(alloc: Global) -> Told
        ensures { told_of result ≡ nothing_told }
    {
        Told {
            events: 0,
            jobs: Vec::new(alloc),
        }
    }

    /// Counts an event, and notes the worker of a claim that was taken; any other entry changes nothing. An error is want of memory, and then
    /// all is as it was.
    pub fn note(&mut self, entry: &Entry, is_refused: bool) -> Result<(), AllocError>
        requires { self.old.events + 1 < 2 ^ 64 }
        ensures told { OnOk result (told_of self.new ≡ told_after (told_of self.old) entry.now is_refused) }
        ensures counted { self.new.events ≤ self.old.events + 1 }
        ensures err { OnErr result (told_of self.new ≡ told_of self.old) }
    {
        let Entry::In { event, .. } = entry else {
            return Ok(());
        };
        note_job(&mut self.jobs, event, is_refused)?;
        self.events += 1;
        Ok(())
    }
}
