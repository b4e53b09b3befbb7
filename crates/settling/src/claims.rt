// The least worker that is ready.

ghost use Rattle.std.specs.Prelude.{◌≡◌, IfSome, IfNone, true, false};
ghost use Rattle.protocol.specs.Refusals.{has_slot};
ghost use Rattle.protocol.specs.Sets.{has};
ghost use Rattle.protocol.specs.Settling.{first_ready};
ghost use Rattle.protocol.specs.Cluster.{node_at};
ghost use Rattle.settling.specs.Turns.{is_next};

use crate::commits::has_number;
use ids::{NodeId, WorkerId};
use number_lists::item_at_number;
use protocol_data::{ClusterState, Worker};
use refusals::is_ready_run;
use sequence::Seq;

/// The worker of that number, if it is one of these.
fn found_in(workers: &Seq<WorkerId>, number: u64) -> Option<WorkerId>
    ensures found { IfSome result (λ w. (w ≡ number) × (has workers.now number ≡ true)) }
    ensures none { IfNone result (has workers.now number ≡ false) }
{
    for worker in &workers.items {
        if u64::from(worker.0) == number {
            return Some(*worker);
        }
    }
    None
}

/// The worker of that number, if it has a slot of the node.
fn holder(whole: &ClusterState, number: u64, node: NodeId) -> Option<WorkerId>
    ensures found { IfSome result (λ w. (w ≡ number) × (has_slot number (node_at whole.now node) ≡ true)) }
    ensures none { IfNone result (has_slot number (node_at whole.now node) ≡ false) }
{
    let Some(found) = item_at_number(&whole.nodes, u64::from(node.0)) else {
        return None;
    };
    found_in(&found.scheduler.slot_holders, number)
}

/// The worker of that number, if it is ready and isn't left out.
fn ready_of(
    whole: &ClusterState,
    worker: &Worker,
    but: &Seq<WorkerId>,
    number: u64,
) -> Option<WorkerId>
    ensures found { IfSome result (λ w. (w ≡ number) × (is_next whole.now but.now number worker.now ≡ true)) }
    ensures none { IfNone result (is_next whole.now but.now number worker.now ≡ false) }
{
    if !worker.is_live {
        return None;
    }
    if !is_ready_run(&worker.run) {
        return None;
    }
    if has_number(but, number) {
        return None;
    }
    holder(whole, number, worker.node)
}

/// The least worker that is ready, but for these.
#[tactic(auto, using(crate::proofs::Places::none_ready_further))]
pub fn first_ready(whole: &ClusterState, but: &Seq<WorkerId>) -> Option<WorkerId>
    ensures { result ≡ first_ready whole.now but.now 1 whole.now.workers }
{
    let count = whole.workers.len();
    let mut place = 0;
    for turn in 0..count {
        let _ = turn;
        let next = whole.workers.next(place);
        if next >= count {
            return None;
        }
        if let Some(worker) = ready_of(whole, whole.workers.get(next), but, next as u64 + 1) {
            return Some(worker);
        }
        place = next + 1;
    }
    None
}
