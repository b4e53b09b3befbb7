// A shared log, which exists in contracts alone, and beginnings of it that were seen.

ghost use Rattle.std.specs.Prelude.{◌≡◌, ◌⊎◌, ◌<◌, [], length, true, false};
ghost use mathlib.Core.List.{IsPrefix};
ghost use Rattle.shared_log.specs.Rules.{word_of};

use crate::law::{Add, Grown, Law, Nothing};
use crate::name::LogName;
use log_entries::{Entry, Refusal};
use logbook::{Offer, Seen, Start, Word};
use std::marker::{Brand, Model, PhantomData};

/// A log without an entry, which has no name yet.
#[derive(Drop)]
pub struct OpenedLog {
    count: Word<Entry, u64, Law>,
    seen: Seen<Entry, u64, Law>,
    pub ghost empty: { seen.log ≡ [] },
    pub ghost word_is: { count ≡ word_of seen.book },
}

impl OpenedLog {
    /// A log without an entry.
    pub fn new() -> OpenedLog {
        let (seen, mut first, _second) = Seen::open(Start::alone(), 0, 0);
        OpenedLog {
            count: Word::tracked(0, &mut first),
            seen,
        }
    }

    /// The log under a name, and its beginning without an entry.
    pub fn named<J: LogName>(self) -> (SharedLog<J>, LogPrefix<J>)
        requires { self.seen.book ≡ J.book }
        ensures { result.1 ≡ [] }
    {
        let OpenedLog { count, seen } = self;
        (
            SharedLog {
                count,
                of: PhantomData,
            },
            LogPrefix {
                entries: 0,
                seen,
                of: PhantomData,
            },
        )
    }
}

/// The log of the name: all that is kept of it is how many entries it has. It only grows.
#[derive(Drop)]
pub struct SharedLog<J: LogName> {
    count: Word<Entry, u64, Law>,
    of: PhantomData<J>,
    ghost word_is: { count ≡ word_of J.book },
}

/// A beginning of the log of the name, which somebody has seen: all that is kept of it is how many entries it has. Contracts see it as those. Of two
/// the shorter begins the longer, whoever saw them.
#[derive(Drop)]
pub struct LogPrefix<J: LogName> {
    entries: u64,
    seen: Seen<Entry, u64, Law>,
    of: PhantomData<J>,
}

impl<J: LogName> Model for LogPrefix<J> {
    ghost use Rattle.std.specs.Prelude.{◌≡◌, List, length};
    ghost use Rattle.std.specs.Coded.{codes};
    ghost use Rattle.log_entries.specs.contracts.entry.Entry as entry;
    ghost use Rattle.log_entries.specs.declared.entry.Entry.{Entry};

    ghost Value = { List Entry };

    ghost coded = { Prim.hlevel (codes, entry.the_row.coded) };

    ghost view = { λ p. p.seen.log };

    ghost invariant = { λ p. (p.entries ≡ length p.seen.log) × (p.seen.book ≡ J.book) };
}

impl<J: LogName> LogPrefix<J> {
    /// The same beginning.
    pub fn again(&self) -> LogPrefix<J>
        ensures { result ≡ self.now }
    {
        LogPrefix {
            entries: self.entries,
            seen: self.seen.again(),
            of: PhantomData,
        }
    }

    /// Whether it begins the other.
    pub fn begins(&self, other: &LogPrefix<J>) -> bool
        ensures begins { result ≡ true → IsPrefix self.now other.now }
        ensures only { IsPrefix self.now other.now → result ≡ true }
    {
        let mut both = self.seen.again();
        both.learn(&other.seen);
        self.entries <= other.entries
    }

    /// The longer of two, which both begin.
    pub fn longer(&self, other: &LogPrefix<J>) -> LogPrefix<J>
        ensures one { (result ≡ self.now) ⊎ (result ≡ other.now) }
        ensures this { IsPrefix self.now result }
        ensures that { IsPrefix other.now result }
    {
        let mut both = self.seen.again();
        both.learn(&other.seen);
        if self.entries < other.entries {
            other.again()
        } else {
            self.again()
        }
    }

    /// Has the shared log become this one, by the name of `B`: see `extend`.
    fn grow<B: Grown>(&mut self, shared: &SharedLog<J>, log: &[Entry]) -> bool
        requires named { log.now ≡ B.log }
        requires goes_on { IsPrefix self.old log.now }
        ensures grown { result ≡ true → self.new ≡ log.now }
        ensures longer { result ≡ false → length self.old < length self.new }
        ensures seen { IsPrefix self.old self.new }
    {
        let entries = log.len() as u64;
        let entry = Entry::Refused(Refusal::Halted);
        let mut offer: Offer<Entry, u64, Law, Nothing> = self
            .seen
            .plain::<Nothing, Entry, Add<B>>(&entry);
        let mut pen = self.seen.no_pen();
        let before = self.entries;
        let found = shared
            .count
            .compare_exchange::<Add<B>, Nothing>(
                before,
                entries,
                &mut self.seen,
                &mut offer,
                &mut pen,
            );
        self.entries = if found == before { entries } else { found };
        found == before
    }

    /// Has the shared log become this one, which goes on from what was seen of it; and whether it did. It did not where the shared log is longer than what
    /// was seen: then more of that is seen.
    pub fn extend(&mut self, shared: &SharedLog<J>, log: &[Entry]) -> bool
        requires { IsPrefix self.old log.now }
        ensures grown { result ≡ true → self.new ≡ log.now }
        ensures longer { result ≡ false → length self.old < length self.new }
        ensures seen { IsPrefix self.old self.new }
    {
        self.grow::<Brand>(shared, log)
    }
}
