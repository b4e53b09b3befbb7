// What becomes of the memory that a run took.

use std::mem;

/// What becomes of the memory that a run took, once it is known what is written of it.
#[derive(Clone, Copy, PartialEq, Eq, Debug)]
pub enum RunMemory {
    /// It is given back.
    GivenBack,
    /// It is left to the end of the process, which is to come next: there it goes as a whole, where giving it back piece by piece takes a twentieth of a
    /// run's time.
    LeftToTheEnd,
}

/// Lets go of a run, or leaves what it took to the end of the process.
pub(crate) fn leave<T: Drop>(run: T, memory: RunMemory) {
    match memory {
        RunMemory::GivenBack => drop(run),
        RunMemory::LeftToTheEnd => mem::forget(run),
    }
}
