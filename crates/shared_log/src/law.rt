// What holds of a shared log between any two steps, and what its step tells.

ghost use Rattle.std.specs.Prelude.{List};
ghost use Rattle.log_entries.specs.declared.entry.Entry.{Entry};

use log_entries::Entry;
use logbook::{Gain, Plain, Play, Rule};
use std::marker::{Brand, PhantomData};

/// The rule: a word counts the log's entries.
pub struct Law;

impl Rule<Entry, u64> for Law {
    ghost use Rattle.std.specs.Prelude.{[]};
    ghost use base.Fml.{ftrue};
    ghost use Rattle.shared_log.specs.Rules.{IsCounted};

    ghost holds = { λ cells log. IsCounted cells log };

    ghost first = { [] };

    ghost hinted = { λ n log. Unit {0} };

    ghost shows = { λ log. [] };

    ghost keeps = { λ names log. ftrue };

    ghost moves = { λ ask before after answer. Unit {0} };
}

/// Callers trade nothing.
pub struct Nothing;

impl Gain<Entry, u64> for Nothing {
    ghost use base.Fml.{ftrue};

    ghost after = { λ names about answer. ftrue };
}

/// A type that stands for what a log becomes in a step.
pub trait Grown {
    ghost log: { List Entry };
}

impl Grown for Brand {
    ghost use Rattle.std.specs.Prelude.{[]};

    ghost log = { [] };
}

/// The step in which the log becomes `B`, unless it is longer than what was seen of it.
pub struct Add<B: Grown> {
    of: PhantomData<B>,
}

impl<B: Grown> Play<Entry, u64> for Add<B> {
    ghost use Rattle.shared_log.specs.Rules.{Becomes};

    ghost then = { Becomes B.log };
}

/// The step needs no word of its caller: which entry it is asked with doesn't count.
impl<B: Grown> Plain<Entry, Entry, u64> for Add<B> {
    ghost use Rattle.std.specs.Prelude.{None};

    ghost ask = { λ entry. entry };

    ghost state = { λ entry. None };
}
