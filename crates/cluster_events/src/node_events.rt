// Events of nodes, which are refused where they would open one worker too many.

ghost use Rattle.std.specs.Prelude.{◌≡◌, IfOk, OnOk, Some};
ghost use Rattle.step_laws.specs.Limits.{entries_within, whole_within};
ghost use Rattle.protocol.specs.Slots.{node_reached};
ghost use Rattle.protocol.specs.Cluster.{node_at, node_does};
ghost use Rattle.protocol.specs.Messages.{Envelope};
ghost use Rattle.protocol.specs.Numbered.{item_at};
ghost use Rattle.step_laws.specs.Opens.{opened_at};
ghost use Rattle.cluster_events.specs.Told.{if_taken};

use crate::counting::{fits, opened_at};
use cluster_steps::deliver_to_node;
use ids::NodeId;
use number_lists::item_at_number;
use protocol_data::{ClusterState, NodeContext};
use std::alloc::{AllocError, Global};

/// How many workers the node opens, as the message of that number reaches it.
fn opened_by(whole: &ClusterState, node: NodeId, message: u64) -> u64
    ensures { (l : Envelope) → item_at whole.now.network message ≡ Some l → result ≡ opened_at (node_at whole.now node) l.sender l.message }
{
    let Some(envelope) = item_at_number(&whole.network, message) else {
        return 0;
    };
    opened_at(whole, node, &envelope.sender, &envelope.message)
}

/// The message of that number reaches the node of the other, and the entries that it adds are left in the context; or it is told that a limit would be
/// passed, and nothing is changed.
#[inline(never)]
pub fn deliver_to_node_within(
    alloc: Global,
    whole: &mut ClusterState,
    context: &mut NodeContext,
    number: NodeId,
    message: u64,
) -> Result<bool, AllocError>
    ensures whole { (l : Envelope) → item_at whole.old.network message ≡ Some l →
        OnOk result (whole.new ≡ whole_within whole.old.made whole.old (node_does whole.old number (λ h. node_reached h l.sender l.message))) }
    ensures entries { (l : Envelope) → item_at whole.old.network message ≡ Some l →
        IfOk result (λ taken. if_taken taken context.new.out.entries
        ≡ entries_within whole.old.made (node_does whole.old number (λ h. node_reached h l.sender l.message))) }
{
    let opened = opened_by(whole, number, message);
    if !fits(whole, opened, whole.made) {
        return Ok(false);
    }
    deliver_to_node(alloc, whole, context, number, message)?;
    Ok(true)
}
