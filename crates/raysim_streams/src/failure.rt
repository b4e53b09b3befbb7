// What a read or a write that failed is called, and when one has failed.

ghost use Rattle.std.specs.Prelude.{◌≡◌, OnErr, OnOk};
ghost use Rattle.raysim_streams.specs.Settled.{failure_of_write, one_more, settled_read, settled_write};

use std::io;
use std::io::ErrorKind;
use thiserror::Error;

/// Which stream of a command failed.
#[derive(Clone, Copy, Debug, PartialEq, Eq, Drop, Error)]
pub enum Failure {
    /// A read failed.
    #[error("refused 50: a read failed")]
    Read,
    /// A write failed.
    #[error("refused 50: a write failed")]
    Write,
    /// Nobody reads any more what is written.
    #[error("refused 50: nobody reads any more what is written")]
    Closed,
}

/// What a failed write is called whose error has this kind.
fn failure_of_write(kind: ErrorKind) -> Failure
    ensures { result ≡ failure_of_write kind }
{
    match kind {
        ErrorKind::BrokenPipe => Failure::Closed,
        _ => Failure::Write,
    }
}

/// What a read comes to. Where it failed `failures` has one more, modulo 2^64, and nowhere else.
pub fn settle_read(done: io::Result<usize>, failures: &mut u64) -> Result<usize, Failure>
    ensures settled { result ≡ settled_read done }
    ensures failed { OnErr result (failures.new ≡ one_more failures.old) }
    ensures unfailed { OnOk result (failures.new ≡ failures.old) }
{
    match done {
        Ok(n) => Ok(n),
        Err(_) => {
            *failures = failures.wrapping_add(1);
            Err(Failure::Read)
        }
    }
}

/// What a write comes to, where `least` bytes at least were to be written. Where it failed `failures` has one more, modulo 2^64, and nowhere
/// else.
pub fn settle_write(
    done: io::Result<usize>,
    least: usize,
    failures: &mut u64,
) -> Result<usize, Failure>
    ensures settled { result ≡ settled_write done least }
    ensures failed { OnErr result (failures.new ≡ one_more failures.old) }
    ensures unfailed { OnOk result (failures.new ≡ failures.old) }
{
    match done {
        Ok(n) if n >= least => Ok(n),
        Ok(_) => {
            *failures = failures.wrapping_add(1);
            Err(Failure::Write)
        }
        Err(error) => {
            *failures = failures.wrapping_add(1);
            Err(failure_of_write(error.kind()))
        }
    }
}
