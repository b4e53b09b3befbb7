// Deliveries as changes of the whole run: a message reaches its receiver, if that lives.

ghost use Rattle.std.specs.Prelude.{◌≡◌, IfOk, OnOk, Some};
ghost use Rattle.step_laws.specs.Later.{marked};
ghost use Rattle.step_laws.specs.Limits.{entries_limited, whole_limited};
ghost use Rattle.cluster_events.specs.Told.{if_taken};
ghost use Rattle.protocol.specs.Events.{delivered, delivered_to};
ghost use Rattle.protocol.specs.Messages.{Envelope};
ghost use Rattle.protocol.specs.Numbered.{item_at};

use crate::counting::nothing;
use crate::node_events::deliver_to_node_within;
use crate::within_limits::let_act;
use number_lists::{item_at_number, place_of};
use protocol_data::{ClusterState, Endpoint, WorkerContext};
use refusals::{is_live_node, is_live_worker};
use std::alloc::{AllocError, Global};
use worker_acts::Act;

/// The message of that number reaches that receiver, which is its own; nothing happens where that is dead. The message is read where it stands.
#[inline(always)]
fn hand_over(
    alloc: Global,
    whole: &mut ClusterState,
    here: &mut WorkerContext,
    number: u64,
    receiver: Endpoint,
) -> Result<bool, AllocError>
    ensures whole { (l : Envelope) → item_at whole.old.network number ≡ Some l →
        OnOk result (whole.new ≡ whole_limited whole.old (delivered_to whole.old l receiver)) }
    ensures entries { (l : Envelope) → item_at whole.old.network number ≡ Some l →
        IfOk result (λ taken. if_taken taken here.new.there.out.entries ≡ entries_limited (delivered_to whole.old l receiver)) }
{
    let made = whole.made;
    match receiver {
        Endpoint::TheWorker(worker) => {
            if !is_live_worker(whole, worker) {
                return Ok(nothing(whole, &mut here.there, made));
            }
            let_act(alloc, whole, here, worker, &mut Act::Receive(number), made)
        }
        Endpoint::TheNode(node) => {
            if !is_live_node(whole, node) {
                return Ok(nothing(whole, &mut here.there, made));
            }
            deliver_to_node_within(alloc, whole, &mut here.there, node, number)
        }
    }
}

/// The message at the place was delivered.
#[tactic(auto, using(step_laws::proofs::Later::marked_past))]
fn mark(whole: &mut ClusterState, place: usize)
    ensures { whole.new ≡ marked place whole.old }
{
    if place < whole.delivered.len() {
        whole.delivered.set(place, true);
    }
}

/// The message of that number reaches its receiver, once more if it did before.
#[inline(never)]
pub fn deliver(
    alloc: Global,
    whole: &mut ClusterState,
    here: &mut WorkerContext,
    number: u64,
) -> Result<bool, AllocError>
    ensures whole { OnOk result (whole.new ≡ whole_limited whole.old (delivered whole.old number)) }
    ensures entries { IfOk result (λ taken. if_taken taken here.new.there.out.entries ≡ entries_limited (delivered whole.old number)) }
{
    let Some(envelope) = item_at_number(&whole.network, number) else {
        return Ok(nothing(whole, &mut here.there, whole.made));
    };
    let receiver = envelope.receiver;
    let Some(place) = place_of(number, whole.delivered.len()) else {
        return hand_over(alloc, whole, here, number, receiver);
    };
    if !hand_over(alloc, whole, here, number, receiver)? {
        return Ok(false);
    }
    mark(whole, place);
    Ok(true)
}
