// What an event counts in a book.

ghost use Rattle.std.specs.Prelude.{◌≡◌};
ghost use Rattle.run_paths.specs.of_protocol_board.Cores.{reply_of};
ghost use Rattle.seat_books.specs.Tallies.{totals_in};
ghost use Rattle.seats.specs.Counted.{counted, refused_totals, taken_totals};
ghost use Rattle.seats.specs.Turns.{turn_counted};
ghost use Rattle.seats.specs.Views.{told_of};

use crate::seen_job::SeenJob;
use crate::turn::Turn;
use job_tickets::TicketName;
use log_entries::{Event, Refusal};
use run_paths::Reply;
use seat_books::Tally;
use segment::ScriptName;
use shared_log::LogName;

fn nothing() -> Tally
    ensures { result ≡ record { events = 0; given = 0; commits = 0; committed = 0 } }
{
    Tally {
        events: 0,
        given: 0,
        commits: 0,
        committed: 0,
    }
}

/// One event, which gave out that job, or none where that is 0.
fn one_event(job: u64) -> Tally
    ensures { result ≡ record { events = 1; given = job; commits = 0; committed = 0 } }
{
    Tally {
        events: 1,
        given: job,
        commits: 0,
        committed: 0,
    }
}

/// An event that is refused 38 or 39 isn't logged.
fn of_refused(refusal: Refusal) -> Tally
    ensures { totals_in result ≡ refused_totals refusal }
{
    match refusal {
        Refusal::Halted | Refusal::NoMemory => nothing(),
        _ => one_event(0),
    }
}

fn of_taken(event: &Event) -> Tally
    ensures { totals_in result ≡ taken_totals event.now }
{
    match event {
        Event::Commit(job) => Tally {
            events: 1,
            given: 0,
            commits: 1,
            committed: *job,
        },
        _ => one_event(0),
    }
}

/// What an event counts, by its answer.
pub fn tally_of<S: ScriptName>(event: &Event, told: &Reply<S>) -> Tally
    ensures { totals_in result ≡ counted event.now (reply_of told.now) }
{
    match told {
        Reply::Job(job) => one_event(job.number()),
        Reply::Ok => of_taken(event),
        Reply::Refused(refusal) => of_refused(*refusal),
    }
}

/// What a turn adds to its seat's book: an event that was logged counts one, and a job its number.
pub fn turn_tally<S: ScriptName, P: LogName + TicketName>(told: &Turn<SeenJob<S, P>>) -> Tally
    ensures { totals_in result ≡ turn_counted (told_of told.now) }
{
    match told {
        Turn::Job(job) => one_event(job.number()),
        Turn::Did => one_event(0),
        Turn::Refused(refusal) => of_refused(*refusal),
        Turn::Again | Turn::End => nothing(),
    }
}
