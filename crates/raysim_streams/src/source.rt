// Reading, up to a bound.

ghost use Rattle.std.specs.Prelude.{◌≡◌, ◌≤◌, ◌⊎◌, ℕ, List, Option, vec_len, take, IfOk, IfErr, IfSome, IsErrOf, OnOk};
ghost use Rattle.std.specs.Io.KnownBytes.{Consumes, ReadConsumes};
ghost use Rattle.std.specs.Io.{ReadsAtMost};
ghost use Rattle.raysim_streams.specs.Settled.{one_more};
ghost use Rattle.raysim_streams.specs.declared.failure.Failure.TheVariants.{Read};
ghost use Rattle.raysim_streams.specs.declared.refusal.CommandRefusal.TheVariants as refusals;

use crate::failure::Failure;
use crate::refusal::CommandRefusal;
use std::alloc::Global;

/// What bytes are read from.
pub trait Source {
    /// The bytes that are left, where they are known.
    ghost left: { Self → Option (List ℕ) };

    /// How many reads have failed, modulo 2 ^ 64.
    ghost failures: { Self → ℕ };

    /// Reads some bytes, and none only at the end or with no room. It fails with `Read` alone.
    fn read_some(&mut self, buf: &mut [u8]) -> Result<usize, Failure>
        ensures bound { ReadsAtMost result buf.new }
        ensures bytes { ReadConsumes (left self.old) (left self.new) result buf.new }
        ensures failed { IfErr result (λ f. (f ≡ Read) × (failures self.new ≡ one_more (failures self.old))) }
        ensures unfailed { OnOk result (failures self.new ≡ failures self.old) };
}

/// What is left, up to `most` bytes. No more than these is taken from the reader. `NoMemory` where no read failed in this call, or `Failed`
/// where one did. It ends at the first read that fails.
pub fn read_at_most<R: Source>(
    alloc: Global,
    reader: &mut R,
    most: usize,
) -> Result<Vec<u8>, CommandRefusal>
    ensures ok { IfOk result (λ all. IfSome (R.left reader.old) (λ bytes. all.items ≡ take most bytes)) }
    ensures bound { IfOk result (λ all. vec_len all ≤ most) }
    ensures taken { IfOk result (λ all. Consumes (R.left reader.old) (R.left reader.new) all.items) }
    ensures failed { IsErrOf result (refusals.Failed Read) → R.failures reader.new ≡ one_more (R.failures reader.old) }
    ensures unfailed { OnOk result (R.failures reader.new ≡ R.failures reader.old) }
    ensures memory { IsErrOf result refusals.NoMemory → R.failures reader.new ≡ R.failures reader.old }
    ensures only { IfErr result (λ e. (e ≡ refusals.NoMemory) ⊎ (e ≡ refusals.Failed Read)) }
{
    let mut all = Vec::new(alloc);
    let mut chunk = [0u8; 4096];
    while all.len() < most {
        let room = (most - all.len()).min(4096);
        let n = reader.read_some(&mut chunk[..room])?;
        if n == 0 {
            return Ok(all);
        }
        all.extend_from_slice(&chunk[..n])?;
    }
    Ok(all)
}
