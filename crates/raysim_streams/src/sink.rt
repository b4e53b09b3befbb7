// Writing, of which the beginning that is out is known.

ghost use Rattle.std.specs.Prelude.{◌≡◌, ◌≢◌, ◌<◌, ◌≤◌, ℕ, List, Option, take, length, IfOk, OnOk, OnErr, IfErr};
ghost use Rattle.std.specs.Io.KnownBytes.{WriteAppends, Appends};
ghost use Rattle.std.specs.Io.{WritesAtMost};
ghost use Rattle.raysim_streams.specs.Settled.{IsOfWriting, one_more};

use crate::failure::Failure;

/// What bytes are written to.
pub trait Sink {
    /// The bytes that it holds, where they are known.
    ghost held: { Self → Option (List ℕ) };

    /// How many writes have failed, modulo 2 ^ 64.
    ghost failures: { Self → ℕ };

    /// Writes some of the bytes, and not none of some. It fails with `Write` or `Closed`.
    fn put_some(&mut self, bytes: &[u8]) -> Result<usize, Failure>
        ensures bound { WritesAtMost result bytes.now }
        ensures some { IfOk result (λ n. 0 < length bytes.now → 0 < n) }
        ensures bytes { WriteAppends (held self.old) (held self.new) result bytes.now }
        ensures failed { IfErr result (λ f. IsOfWriting f × (failures self.new ≡ one_more (failures self.old))) }
        ensures unfailed { OnOk result (failures self.new ≡ failures self.old) };
}

/// Writes all of the bytes, or a beginning of them where a write failed. It ends at the first write that fails.
pub fn put_all<W: Sink>(writer: &mut W, bytes: &[u8]) -> Result<(), Failure>
    ensures ok { OnOk result (Appends (W.held writer.old) (W.held writer.new) bytes.now) }
    ensures failed { IfErr result (λ f. IsOfWriting f × (W.failures writer.new ≡ one_more (W.failures writer.old))) }
    ensures unfailed { OnOk result (W.failures writer.new ≡ W.failures writer.old) }
    ensures beginning { OnErr result ((k : ℕ) × Appends (W.held writer.old) (W.held writer.new) (take k bytes.now)) }
{
    let mut at = 0;
    while at < bytes.len() {
        at += writer.put_some(&bytes[at..])?;
    }
    Ok(())
}
