// In which row something of a worker or a node is shown.

ghost use Rattle.std.specs.Prelude.{◌≡◌, drop};
ghost use Rattle.timeline.specs.Places.{home, process, thread};

use crate::rows::Row;
use protocol_data::Endpoint;

/// The worker's node, or 0 where it was never opened.
fn home(rows: &[Row], worker: u32) -> u32
    ensures { result ≡ home rows.now worker }
{
    for row in rows {
        if row.worker.0 == worker {
            return row.node.0;
        }
    }
    0
}

/// The number of the node under which an endpoint's row stands: a worker's own node, or the node itself.
pub fn process(rows: &[Row], endpoint: Endpoint) -> u32
    ensures { result ≡ process rows.now endpoint }
{
    match endpoint {
        Endpoint::TheWorker(worker) => home(rows, worker.0),
        Endpoint::TheNode(node) => node.0,
    }
}

/// A node's own row is 0.
pub fn thread(endpoint: Endpoint) -> u32
    ensures { result ≡ thread endpoint }
{
    match endpoint {
        Endpoint::TheWorker(worker) => worker.0,
        Endpoint::TheNode(_) => 0,
    }
}
