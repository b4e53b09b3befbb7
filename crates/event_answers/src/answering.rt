// What is answered to an event.

ghost use Rattle.std.specs.Prelude.{◌≡◌, IfOk, OnErr, OnOk};
ghost use Rattle.cluster_events.specs.of_contexts.Emptied.{nothing_here, nothing_left};
ghost use Rattle.event_answers.specs.Replies.{come_of, outcome_of};
ghost use Rattle.protocol.specs.Answers.{answer, whole_after};

use crate::given::given_out;
use crate::verdict::{Verdict, log_refusal};
use cluster_events::{happen, or_nothing_left};
use log_entries::{Event, Refusal};
use protocol_data::{ClusterState, CommitInput, WorkerContext};
use refusals::refusal;
use std::alloc::{AllocError, Global};

/// One event of the whole run, with what is handed in.
#[inline(always)]
fn try_answer(
    alloc: Global,
    whole: &mut ClusterState,
    here: &mut WorkerContext,
    event: &Event,
    handed: &mut CommitInput,
) -> Result<Verdict, AllocError>
    ensures whole { OnOk result (whole.new ≡ whole_after whole.old (answer whole.old event.now handed.old)) }
    ensures entries { OnOk result (here.new.there.out.entries ≡ come_of (answer whole.old event.now handed.old)) }
    ensures outcome { IfOk result (λ verdict. verdict ≡ outcome_of (answer whole.old event.now handed.old)) }
{
    if let Some(code) = refusal(whole, event, handed) {
        log_refusal(&mut here.there, code)?;
        return Ok(Verdict::Refused(code));
    }
    let given = given_out(alloc, whole, event)?;
    if !happen(alloc, whole, here, event, handed)? {
        log_refusal(&mut here.there, Refusal::Limit)?;
        return Ok(Verdict::Refused(Refusal::Limit));
    }
    Ok(Verdict::Taken(given))
}

/// One event of the whole run, with what is handed in. It is refused, and nothing changes; or it is taken. What comes of it in the log, behind the event
/// itself, is left in the context: its entries, or its refusal. An error is want of memory, and then nothing is left of the run, nor of the context.
#[inline(always)]
pub fn answer(
    alloc: Global,
    whole: &mut ClusterState,
    here: &mut WorkerContext,
    event: &Event,
    handed: &mut CommitInput,
) -> Result<Verdict, AllocError>
    ensures whole { OnOk result (whole.new ≡ whole_after whole.old (answer whole.old event.now handed.old)) }
    ensures entries { OnOk result (here.new.there.out.entries ≡ come_of (answer whole.old event.now handed.old)) }
    ensures outcome { IfOk result (λ verdict. verdict ≡ outcome_of (answer whole.old event.now handed.old)) }
    ensures err { OnErr result ((whole.new ≡ nothing_left) × (here.new ≡ nothing_here)) }
{
    let came = try_answer(alloc, whole, here, event, handed);
    or_nothing_left(came, whole, here)
}
