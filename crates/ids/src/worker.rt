// The ids of workers, which are numbered from 1, and their texts, as `w2`.

use std::fmt;
use std::marker::Model;

/// A worker's number, counted from 1: worker 1 is the driver. Its text is `w2`.
#[derive(Clone, Copy, PartialEq, Eq, PartialOrd, Ord, Hash, Debug)]
pub struct WorkerId(pub u32);

impl Model for WorkerId {
    ghost use Rattle.std.specs.Prelude.{ℕ};

    ghost Value = { ℕ };

    ghost view = { λ w. w.0 };

    ghost inverse = { λ n. record { 0 = n } };
}

impl fmt::Display for WorkerId {
    ghost use Rattle.std.specs.Prelude.{Some};
    ghost use Rattle.ids.specs.Texts.{worker_text};

    ghost output = { λ w. Some (worker_text w) };

    fn fmt<W: fmt::Write>(&self, f: &mut fmt::Formatter<W>) -> fmt::Result {
        let number = self.0;
        write!(f, "w{number}")
    }
}

impl WorkerId {
    ghost use Rattle.std.specs.Prelude.{◌≡◌, ◌==◌};

    /// Whether the numbers are the same.
    pub fn is(self, other: WorkerId) -> bool
        ensures { result ≡ (self == other) }
    {
        self.0 == other.0
    }
}
