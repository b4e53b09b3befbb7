// What an event comes to: a job or nothing where it was taken, else its refusal.

ghost use Rattle.std.specs.Prelude.{◌≡◌, ◌∷◌, [], OnOk};
ghost use Rattle.protocol.specs.of_event_log.Entries.{Refused};

use crate::given::GivenJob;
use cluster_events::log_nothing;
use log_entries::{Entry, Refusal};
use protocol_data::NodeContext;
use std::alloc::AllocError;

/// What an event came to.
#[derive(Drop)]
pub enum Verdict {
    /// It was taken; a claim gives out a job.
    Taken(Option<GivenJob>),
    /// It was refused, and nothing changed.
    Refused(Refusal),
}

/// What comes of the event in the log is its refusal. The one error is want of memory.
#[inline(never)]
pub fn log_refusal(context: &mut NodeContext, refusal: Refusal) -> Result<(), AllocError>
    ensures { OnOk result (context.new.out.entries ≡ Refused refusal ∷ []) }
{
    log_nothing(context);
    context.out.entries.push(Entry::Refused(refusal))?;
    Ok(())
}
