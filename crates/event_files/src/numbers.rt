// How workers, nodes and objects in the text of an event are read.

ghost use Rattle.std.specs.Prelude.{◌≡◌};
ghost use Rattle.event_files.specs.Reading.{number_in, worker_in, node_in, object_in};

use ids::{NodeId, ObjectId, WorkerId};

/// The number of 64 bits that a text writes.
pub fn read_number(text: &[u8]) -> Option<u64>
    ensures { result ≡ number_in 64 text.now }
{
    let Some(number) = ids::read_number(text) else {
        return None;
    };
    Some(number)
}

/// The number of 32 bits that a text writes.
fn read_small(text: &[u8]) -> Option<u32>
    ensures { result ≡ number_in 32 text.now }
{
    let Some(number) = ids::read_number(text) else {
        return None;
    };
    if number > 4294967295 {
        return None;
    }
    Some(number as u32)
}

/// The worker whose number the text writes, as event files have numbers; none for any other text, and for a number above 4294967295.
pub fn read_worker(text: &[u8]) -> Option<WorkerId>
    ensures { result ≡ worker_in text.now }
{
    let Some(number) = read_small(text) else {
        return None;
    };
    Some(WorkerId(number))
}

/// The node whose number the text writes, by the same rules.
pub fn read_node(text: &[u8]) -> Option<NodeId>
    ensures { result ≡ node_in text.now }
{
    let Some(number) = read_small(text) else {
        return None;
    };
    Some(NodeId(number))
}

/// The object that the text names, as `o1.3`; none for any other text.
pub fn read_object(text: &[u8]) -> Option<ObjectId>
    ensures { result ≡ object_in text.now }
{
    let Some(object) = ObjectId::read(text) else {
        return None;
    };
    Some(object)
}
