// The least message that was never delivered.

ghost use Rattle.std.specs.Prelude.{◌≡◌, ◌+◌, drop};
ghost use Rattle.protocol.specs.Settling.{first_false};

use sequence::Seq;

/// The number of the first message from the place on that was never delivered.
#[tactic(auto, using(crate::proofs::Places::undelivered_there, crate::proofs::Places::delivered_there, crate::proofs::Places::none_further))]
pub fn first_undelivered(delivered: &Seq<bool>, from: usize) -> Option<u64>
    ensures { result ≡ first_false (from + 1) (drop from delivered.now) }
{
    for place in from..delivered.len() {
        if !*delivered.get(place) {
            return Some(place as u64 + 1);
        }
    }
    None
}
