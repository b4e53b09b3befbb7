// The first message about something that was not delivered.

ghost use Rattle.std.specs.Prelude.{◌≡◌};
ghost use Rattle.std.specs.Option.{option_map};
ghost use Rattle.std.specs.Prelude.{option_copied, slice_get};
ghost use Rattle.waits.specs.Topics.{is_about_it, sent};

use crate::topics::{Topic, is_about};
use protocol_data::{ClusterState, Envelope};

/// Whether there is such a message, and it is about that.
fn is_about_at(envelopes: &[Envelope], place: usize, topic: &Topic) -> bool
    ensures { result ≡ is_about_it topic.now (slice_get envelopes.now place) }
{
    match envelopes.get(place) {
        None => false,
        Some(envelope) => is_about(topic, envelope),
    }
}

/// The number of the first message about that which was not delivered.
pub fn sent(whole: &ClusterState, topic: &Topic) -> Option<u64>
    ensures { result ≡ sent whole.now topic.now }
{
    let envelopes = whole.network.as_slice();
    for (place, is_delivered) in whole.delivered.items.iter().enumerate() {
        if !*is_delivered && is_about_at(envelopes, place, topic) {
            return Some(place as u64 + 1);
        }
    }
    None
}
