// Plans: what happens to a run from outside, behind how many commits, read line by line or whole.

ghost use Rattle.std.specs.Prelude.{◌≡◌, IfOk, IfErr};
ghost use Rattle.event_files.specs.Plans.{is_outside, plan_line_in, IsPlanLine, plan_line_text};
ghost use Rattle.event_files.specs.Files.{IsFile, IsRefusal};

use crate::error::EventError;
use crate::event::read_event;
use crate::numbers::read_number;
use crate::parts::parted;
use crate::passing::is_passed;
use log_entries::Event;
use sequence::Seq;
use std::alloc::Global;

/// An event that happens once so many commits were accepted, or where nothing else can be done.
#[derive(Clone, Copy, PartialEq, Eq, Debug)]
pub struct PlanLine {
    /// How many commits were accepted when it is due.
    pub commits: u64,
    /// What happens then.
    pub event: Event,
}

/// What is to happen to a run from outside, in the order of its lines.
#[derive(Drop)]
pub struct RunPlan {
    /// The lines that say something, in the order of the file.
    pub lines: Seq<PlanLine>,
}

/// Whether the event comes from outside, as a plan may have it: claims, commits and deliveries are the run's own.
fn is_outside(event: &Event) -> bool
    ensures { result ≡ is_outside event.now }
{
    !matches!(
        event,
        Event::Claim(_) | Event::Commit(_) | Event::Deliver(_)
    )
}

/// What a line of a plan says, without its line feed; no other text is one. Takes no memory.
#[tactic(auto, unfolding(crate::specs::Plans::plan_line_in))]
pub fn read_plan_line(text: &[u8]) -> Option<PlanLine>
    ensures { result ≡ plan_line_in text.now }
{
    let Some((front, back)) = parted(text, b' ') else {
        return None;
    };
    let Some(commits) = read_number(front) else {
        return None;
    };
    let Some(event) = read_event(back) else {
        return None;
    };
    if is_outside(&event) {
        return Some(PlanLine { commits, event });
    }
    None
}

/// Reads a plan: lines `C EVENT`, each ended by a line feed, by the rules of event files. `C` is a number of commits, and the
/// event is a tick, notice, notice-node, evict, lose, kill, kill-node or join.
///
/// Answers `BadLine` with the number of the first line, counted from 1, that is none of these.
pub fn parse_plan(alloc: Global, text: &[u8]) -> Result<RunPlan, EventError>
    ensures read { IfOk result (λ plan. IsFile IsPlanLine plan_line_text text.now plan.lines) }
    ensures refused { IfErr result (λ e. IsRefusal IsPlanLine plan_line_text text.now e) }
{
    let mut lines = Seq::new(alloc);
    let mut rest = text;
    let mut number = 0;
    while let Some((line, after)) = parted(rest, b'\n') {
        number += 1;
        if !is_passed(line) {
            let Some(PlanLine { commits, event }) = read_plan_line(line) else {
                return Err(EventError::BadLine(number));
            };
            lines.push(PlanLine { commits, event })?;
        }
        rest = after;
    }
    if !rest.is_empty() {
        return Err(EventError::BadLine(number + 1));
    }
    Ok(RunPlan { lines })
}
