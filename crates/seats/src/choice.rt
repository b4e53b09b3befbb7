// What a turn is to do.

ghost use Rattle.std.specs.Prelude.{◌≡◌};
ghost use Rattle.seats.specs.Turns.{Ends, due, is_event, or_claim, or_plan, or_wait};
ghost use Rattle.seats.specs.Views.{choice_of};

use event_files::PlanLine;
use log_entries::Event;

/// What a turn is to do.
#[derive(Clone, Copy, PartialEq, Eq, Debug)]
pub enum Choice {
    /// An event of the run's own.
    Does(Event),
    /// The event of the plan's next line.
    Plans(Event),
    /// Nothing before a job is committed that is out.
    Waits,
    /// Nothing any more.
    Ends,
}

/// Whether the turn applies an event.
pub fn is_event(choice: &Choice) -> bool
    ensures { result ≡ is_event (choice_of choice.now) }
{
    match choice {
        Choice::Does(_) | Choice::Plans(_) => true,
        Choice::Waits | Choice::Ends => false,
    }
}

/// The line, if so many commits were accepted.
pub fn due(commits: u64, line: Option<PlanLine>) -> Option<PlanLine>
    ensures { result ≡ due commits line }
{
    let Some(line) = line else {
        return None;
    };
    if commits < line.commits {
        return None;
    }
    Some(line)
}

/// The plan's next line, or the end.
fn last(line: Option<PlanLine>) -> Choice
    ensures { choice_of result ≡ or_plan line Ends }
{
    match line {
        Some(line) => Choice::Plans(line.event),
        None => Choice::Ends,
    }
}

/// A wait for a job that is out, if that is what comes next; else what is left of the plan.
fn behind_claims(first: Option<Event>, line: Option<PlanLine>) -> Choice
    ensures { choice_of result ≡ or_wait first (or_plan line Ends) }
{
    match first {
        Some(Event::Commit(_)) => Choice::Waits,
        _ => last(line),
    }
}

/// What is chosen behind messages and the lines that are due.
pub fn behind_plan(claim: Option<Event>, first: Option<Event>, line: Option<PlanLine>) -> Choice
    ensures { choice_of result ≡ or_claim claim (or_wait first (or_plan line Ends)) }
{
    match &claim {
        Some(Event::Claim(worker)) => Choice::Does(Event::Claim(*worker)),
        _ => behind_claims(first, line),
    }
}
