// A type that says in contracts how many seats a run has, and which is watched.

ghost use Rattle.std.specs.Prelude.{ℕ};

use std::marker::Brand;

/// A type that says, in contracts, how many seats a run has, numbered from 1, and which of them is watched.
pub trait Watching {
    ghost seats: { ℕ };

    ghost watched: { ℕ };
}

impl Watching for Brand {
    ghost seats = { 1 };

    ghost watched = { 1 };
}
