// How far the messages were delivered.

ghost use Rattle.std.specs.Prelude.{◌≡◌, ◌≤◌, false};
ghost use Rattle.step_laws.specs.Cursors.{IsAtFirst, IsPast};

use crate::state::State;
use sequence::Seq;

/// The place of the first message that was never delivered, where those before the given place were; or how many messages there are.
#[tactic(auto, using(step_laws::proofs::Delivered::past_within))]
fn past_delivered(delivered: &Seq<bool>, from: usize) -> usize
    requires { IsPast from delivered.now }
    ensures first { IsAtFirst result delivered.now }
    ensures on { from ≤ result }
{
    for place in from..delivered.len() {
        if !*delivered.get(place) {
            return place;
        }
    }
    delivered.len()
}

/// The cursor behind an event: it goes on from where it was to the first message that was never delivered. Where the event found no memory it is
/// looked for from the first message on, since nothing is known then.
pub fn cursor_behind(state: &State, cursor: usize) -> usize
    requires { state.now.is_halted ≡ false → IsPast cursor state.now.whole.delivered }
    ensures first { IsAtFirst result state.now.whole.delivered }
    ensures on { state.now.is_halted ≡ false → cursor ≤ result }
{
    if state.is_halted {
        return past_delivered(&state.whole.delivered, 0);
    }
    past_delivered(&state.whole.delivered, cursor)
}
