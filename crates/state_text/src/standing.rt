// Workers and nodes in lists, and how many there are.

ghost use Rattle.std.specs.Prelude.{◌≡◌, ◌++◌, OnOk, string_bytes};
ghost use Rattle.state_text.specs.Below.{node_words, worker_count, worker_words};

use ids::{NodeId, WorkerId};
use protocol_data::ClusterState;
use std::alloc::AllocError;

/// How many workers there are, as far as numbers of 32 bits count them.
pub fn worker_count(whole: &ClusterState) -> u32
    ensures { result ≡ worker_count whole.now }
{
    let count = whole.workers.len();
    if count > u32::MAX as usize {
        return u32::MAX;
    }
    count as u32
}

/// Writes the workers, such as ` w1 w2`.
pub fn write_worker_words(text: &mut String, workers: &[WorkerId]) -> Result<(), AllocError>
    ensures { OnOk result (string_bytes text.new ≡ string_bytes text.old ++ worker_words workers.now) }
{
    for worker in workers {
        write!(text, " {worker}")?;
    }
    Ok(())
}

/// Writes the nodes, such as ` n1 n2`.
pub fn write_node_words(text: &mut String, nodes: &[NodeId]) -> Result<(), AllocError>
    ensures { OnOk result (string_bytes text.new ≡ string_bytes text.old ++ node_words nodes.now) }
{
    for node in nodes {
        write!(text, " {node}")?;
    }
    Ok(())
}
