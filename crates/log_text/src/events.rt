// The line of an event: its number, its text, its seat, and what it does where it isn't refused.

ghost use Rattle.std.specs.Prelude.{◌≡◌, ◌++◌, OnOk, string_bytes};
ghost use Rattle.log_text.specs.Events.{done_text, event_line, meaning_note, meaning_text, seat_note};

use ids::WorkerId;
use log_entries::Event;
use log_words::worker_of_job;
use std::alloc::AllocError;

fn write_done(text: &mut String, worker: Option<WorkerId>, job: u64) -> Result<(), AllocError>
    ensures { OnOk result (string_bytes text.new ≡ string_bytes text.old ++ done_text worker job) }
{
    match worker {
        Some(worker) => write!(text, "{worker} has done job {job}"),
        None => write!(text, "job {job} is done"),
    }
}

/// Writes what an accepted event does.
fn write_meaning(text: &mut String, jobs: &[WorkerId], event: &Event) -> Result<(), AllocError>
    ensures { OnOk result (string_bytes text.new ≡ string_bytes text.old ++ meaning_text jobs.now event.now) }
{
    match event {
        Event::Claim(worker) => {
            let job = jobs.len() + 1;
            write!(text, "{worker} takes job {job}")
        }
        Event::Commit(job) => write_done(text, worker_of_job(jobs, *job), *job),
        Event::Deliver(message) => write!(text, "message {message} arrives"),
        Event::Tick(worker) => write!(text, "{worker} sends again what it waits for"),
        Event::Notice { worker, dead } => write!(text, "{worker} learns that {dead} is dead"),
        Event::NoticeNode { worker, dead } => write!(text, "{worker} learns that {dead} is dead"),
        Event::Evict { node, object } => {
            write!(text, "{node} drops its secondary copies of {object}")
        }
        Event::Lose { node, object } => write!(text, "{node} loses its copies of {object}"),
        Event::Kill(worker) => write!(text, "{worker} dies"),
        Event::KillNode(node) => write!(text, "{node} dies, and its workers with it"),
        Event::Join => text.push_str("a new node comes"),
    }
}

fn write_meaning_unless(
    text: &mut String,
    jobs: &[WorkerId],
    event: &Event,
    is_refused: bool,
) -> Result<(), AllocError>
    ensures { OnOk result
        (string_bytes text.new ≡ string_bytes text.old ++ meaning_note jobs.now event.now is_refused) }
{
    if is_refused {
        return Ok(());
    }
    text.push_str(": ")?;
    write_meaning(text, jobs, event)
}

fn write_seat(text: &mut String, seat: u8) -> Result<(), AllocError>
    ensures { OnOk result (string_bytes text.new ≡ string_bytes text.old ++ seat_note seat) }
{
    if seat == 0 {
        return Ok(());
    }
    write!(text, " (seat {seat})")
}

/// Writes the line of an event, such as `7. claim 2: w2 takes job 3`, where `jobs` are the workers to which the jobs so far
/// were given; a refused event is written without what it would have done.
pub fn write_event(
    text: &mut String,
    number: usize,
    jobs: &[WorkerId],
    event: &Event,
    seat: u8,
    is_refused: bool,
) -> Result<(), AllocError>
    ensures { OnOk result (string_bytes text.new ≡ string_bytes text.old
        ++ event_line number jobs.now event.now seat is_refused) }
{
    write!(text, "{number}. {event}")?;
    write_meaning_unless(text, jobs, event, is_refused)?;
    write_seat(text, seat)?;
    text.push_str("\n")
}
