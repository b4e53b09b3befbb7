// How the text of an event is read, as `lose 1 o1.3`.

ghost use Rattle.std.specs.Prelude.{◌≡◌};
ghost use Rattle.event_files.specs.Reading.{event_in, two_workers_in, worker_and_node_in, node_and_object_in};

use crate::numbers::{read_node, read_number, read_object, read_worker};
use crate::parts::{behind, parted};
use ids::{NodeId, ObjectId, WorkerId};
use log_entries::Event;

fn two_workers(text: &[u8]) -> Option<(WorkerId, WorkerId)>
    ensures { result ≡ two_workers_in text.now }
{
    let Some((first, second)) = parted(text, b' ') else {
        return None;
    };
    let Some(worker) = read_worker(first) else {
        return None;
    };
    let Some(other) = read_worker(second) else {
        return None;
    };
    Some((worker, other))
}

fn worker_and_node(text: &[u8]) -> Option<(WorkerId, NodeId)>
    ensures { result ≡ worker_and_node_in text.now }
{
    let Some((first, second)) = parted(text, b' ') else {
        return None;
    };
    let Some(worker) = read_worker(first) else {
        return None;
    };
    let Some(node) = read_node(second) else {
        return None;
    };
    Some((worker, node))
}

fn node_and_object(text: &[u8]) -> Option<(NodeId, ObjectId)>
    ensures { result ≡ node_and_object_in text.now }
{
    let Some((first, second)) = parted(text, b' ') else {
        return None;
    };
    let Some(node) = read_node(first) else {
        return None;
    };
    let Some(object) = read_object(second) else {
        return None;
    };
    Some((node, object))
}

/// The event that is written so, as event files write it; no other text is one. Takes no memory.
#[tactic(auto, unfolding(crate::specs::Reading::event_in))]
pub fn read_event(text: &[u8]) -> Option<Event>
    ensures { result ≡ event_in text.now }
{
    if let Some(rest) = behind(b"claim ", text) {
        return read_worker(rest).map(Event::Claim);
    }
    if let Some(rest) = behind(b"commit ", text) {
        return read_number(rest).map(Event::Commit);
    }
    if let Some(rest) = behind(b"deliver ", text) {
        return read_number(rest).map(Event::Deliver);
    }
    if let Some(rest) = behind(b"tick ", text) {
        return read_worker(rest).map(Event::Tick);
    }
    if let Some(rest) = behind(b"notice ", text) {
        return two_workers(rest).map(|(worker, dead)| Event::Notice { worker, dead });
    }
    if let Some(rest) = behind(b"notice-node ", text) {
        return worker_and_node(rest).map(|(worker, dead)| Event::NoticeNode { worker, dead });
    }
    if let Some(rest) = behind(b"evict ", text) {
        return node_and_object(rest).map(|(node, object)| Event::Evict { node, object });
    }
    if let Some(rest) = behind(b"lose ", text) {
        return node_and_object(rest).map(|(node, object)| Event::Lose { node, object });
    }
    if let Some(rest) = behind(b"kill ", text) {
        return read_worker(rest).map(Event::Kill);
    }
    if let Some(rest) = behind(b"kill-node ", text) {
        return read_node(rest).map(Event::KillNode);
    }
    if text == b"join".as_slice() {
        return Some(Event::Join);
    }
    None
}
