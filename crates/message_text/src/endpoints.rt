// Who sends and receives, and what messages name.

ghost use Rattle.std.specs.Prelude.{◌≡◌, ◌++◌, OnOk, string_bytes};
ghost use Rattle.message_text.specs.Messages.{endpoint_name};

use protocol_data::Endpoint;
use std::alloc::AllocError;

/// Writes a worker or a node, such as `w2` or `n1`.
pub fn write_endpoint(text: &mut String, endpoint: Endpoint) -> Result<(), AllocError>
    ensures { OnOk result (string_bytes text.new ≡ string_bytes text.old ++ endpoint_name endpoint) }
{
    match endpoint {
        Endpoint::TheWorker(worker) => {
            let number = worker.0;
            write!(text, "w{number}")
        }
        Endpoint::TheNode(node) => {
            let number = node.0;
            write!(text, "n{number}")
        }
    }
}
