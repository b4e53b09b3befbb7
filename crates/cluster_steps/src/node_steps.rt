// What a node does in a whole run: taken out, told or handed a message, and put back.

ghost use Rattle.std.specs.Prelude.{◌≡◌, OnErr, OnOk};
ghost use Rattle.contexts.specs.Emptied.{nothing_left, nothing_there};
ghost use Rattle.contexts.specs.of_protocol.Slots.{forgets};
ghost use Rattle.contexts.specs.of_protocol.Cluster.{node_does};
ghost use Rattle.contexts.specs.of_protocol.Numbered.{item_at};
ghost use Rattle.cluster_steps.specs.Reached.{node_received};

use crate::put_back::leave_node;
use crate::take_out::{enter_node, log_nothing, node_place};
use contexts::or_nothing_there;
use contexts::protocol_data::{ClusterState, Envelope, NodeContext};
use ids::{NodeId, WorkerId};
use lease::{killed, node_reached};
use number_lists::item_at_number;
use sequence::Seq;
use std::alloc::{AllocError, Global};

/// The message of that number, if one of these has it, reaches the node.
fn receive(
    alloc: Global,
    context: &mut NodeContext,
    sent: &Seq<Envelope>,
    message: u64,
) -> Result<(), AllocError>
    ensures { OnOk result (context.new ≡ node_received context.old (item_at sent.now message)) }
{
    let Some(envelope) = item_at_number(sent, message) else {
        return Ok(());
    };
    node_reached(alloc, context, envelope.sender, &envelope.message)
}

/// The message of that number, if one was sent that has it, reaches the node of the other.
#[inline(always)]
fn node_receives(
    alloc: Global,
    whole: &mut ClusterState,
    context: &mut NodeContext,
    number: NodeId,
    message: u64,
) -> Result<(), AllocError>
    ensures whole { OnOk result (whole.new ≡ (node_does whole.old number (λ h. node_received h (item_at whole.old.network message))).whole) }
    ensures entries { OnOk result (context.new.out.entries
        ≡ (node_does whole.old number (λ h. node_received h (item_at whole.old.network message))).out.entries) }
{
    let Some(place) = node_place(whole, number) else {
        log_nothing(context);
        return Ok(());
    };
    enter_node(whole, place, number, context);
    receive(alloc, context, &whole.network, message)?;
    leave_node(alloc, whole, place, number, context)
}

/// The message of that number, if one was sent that has it, reaches the node of the other. It is read where it stands. The entries that it adds are left
/// in the context. Where this finds no memory, nothing is left of the run, nor of the node.
pub fn deliver_to_node(
    alloc: Global,
    whole: &mut ClusterState,
    context: &mut NodeContext,
    number: NodeId,
    message: u64,
) -> Result<(), AllocError>
    ensures whole { OnOk result (whole.new ≡ (node_does whole.old number (λ h. node_received h (item_at whole.old.network message))).whole) }
    ensures entries { OnOk result (context.new.out.entries
        ≡ (node_does whole.old number (λ h. node_received h (item_at whole.old.network message))).out.entries) }
    ensures err { OnErr result ((whole.new ≡ nothing_left) × (context.new ≡ nothing_there)) }
{
    let came = node_receives(alloc, whole, context, number, message);
    or_nothing_there(came, whole, context)
}

/// The node of that number is told that its worker is dead.
#[inline(always)]
fn node_forgets(
    alloc: Global,
    whole: &mut ClusterState,
    context: &mut NodeContext,
    number: NodeId,
    worker: WorkerId,
) -> Result<(), AllocError>
    ensures whole { OnOk result (whole.new ≡ (node_does whole.old number (λ h. forgets h worker)).whole) }
    ensures entries { OnOk result (context.new.out.entries ≡ (node_does whole.old number (λ h. forgets h worker)).out.entries) }
{
    let Some(place) = node_place(whole, number) else {
        log_nothing(context);
        return Ok(());
    };
    enter_node(whole, place, number, context);
    killed(alloc, context, worker)?;
    leave_node(alloc, whole, place, number, context)
}

/// The node of that number is told that its worker is dead. The entries that this adds are left in the context. Where this finds no memory, nothing is
/// left of the run, nor of the node.
pub fn forget_at_node(
    alloc: Global,
    whole: &mut ClusterState,
    context: &mut NodeContext,
    number: NodeId,
    worker: WorkerId,
) -> Result<(), AllocError>
    ensures whole { OnOk result (whole.new ≡ (node_does whole.old number (λ h. forgets h worker)).whole) }
    ensures entries { OnOk result (context.new.out.entries ≡ (node_does whole.old number (λ h. forgets h worker)).out.entries) }
    ensures err { OnErr result ((whole.new ≡ nothing_left) × (context.new ≡ nothing_there)) }
{
    let came = node_forgets(alloc, whole, context, number, worker);
    or_nothing_there(came, whole, context)
}
