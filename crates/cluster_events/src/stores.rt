// Copies that are evicted or lost.

ghost use Rattle.std.specs.Prelude.{◌≡◌, ◌<◌, ◌+◌, length};
ghost use Rattle.step_laws.specs.Limits.{entries_limited, whole_limited};
ghost use Rattle.cluster_events.specs.Told.{if_taken};
ghost use Rattle.protocol.specs.Events.{store_does};
ghost use Rattle.protocol.specs.Numbered.{changed_at};
ghost use Rattle.cluster_events.specs.Losses.{behind};

use crate::counting::{fits, nothing};
use cluster_steps::{log_nothing, node_place};
use ids::{NodeId, ObjectId};
use object_store::{remove_copies, remove_secondaries};
use protocol_data::{ClusterState, NodeContext, Store};

/// Which copies of an object go at a node.
#[derive(Clone, Copy)]
pub enum Loss {
    /// The secondary ones: they are evicted.
    Evicted,
    /// Every one.
    Lost,
}

/// The copies of the object go.
fn lose(store: &mut Store, object: ObjectId, loss: Loss)
    ensures { store.new ≡ behind loss object store.old }
{
    match loss {
        Loss::Evicted => remove_secondaries(store, object),
        Loss::Lost => remove_copies(store, object),
    }
}

/// The copies of the object go at the node of that place.
fn lose_there(whole: &mut ClusterState, place: usize, number: NodeId, object: ObjectId, loss: Loss)
    requires place_in { place < length whole.old.nodes }
    requires number { number ≡ 1 + place }
    ensures { whole.new ≡ record whole.old { nodes = changed_at whole.old.nodes number (λ node. record node { store = behind loss object node.store }) } }
{
    let nodes = &mut whole.nodes;
    let node = &mut nodes.items[place];
    lose(&mut node.store, object, loss);
}

/// The copies of the object at the node go.
#[inline(never)]
pub fn lose_at(
    whole: &mut ClusterState,
    context: &mut NodeContext,
    number: NodeId,
    object: ObjectId,
    loss: Loss,
) -> bool
    ensures whole { whole.new ≡ whole_limited whole.old (store_does whole.old number (λ s. behind loss object s)) }
    ensures entries { if_taken result context.new.out.entries ≡ entries_limited (store_does whole.old number (λ s. behind loss object s)) }
{
    let Some(place) = node_place(whole, number) else {
        return nothing(whole, context, whole.made);
    };
    if !fits(whole, 0, whole.made) {
        return false;
    }
    lose_there(whole, place, number, object, loss);
    log_nothing(context);
    true
}
