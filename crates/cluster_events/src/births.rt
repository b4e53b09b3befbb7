// How many objects births make.

ghost use Rattle.std.specs.Prelude.{◌≡◌, ◌+◌, ◌≤◌, IfNone, IfSome};
ghost use Rattle.protocol.specs.Events.{objects_made};

use held::SharedBirth;
use sequence::Seq;
use worker_steps::results_of;

/// So many objects, and those that the births make. None where no number is as great, which is past every limit.
pub fn with_made(made: u64, births: &Seq<SharedBirth>) -> Option<u64>
    ensures sum { IfSome result (λ all. all ≡ made + objects_made births.now) }
    ensures past { IfNone result (1000001 ≤ made + objects_made births.now) }
{
    let mut all = made;
    for birth in &births.items {
        let Some(more) = all.checked_add(results_of(birth)) else {
            return None;
        };
        all = more;
    }
    Some(all)
}
