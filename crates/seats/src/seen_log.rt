// How much of its log a run on threads shares with its seats.

ghost use Rattle.std.specs.Prelude.{◌≡◌, true};
ghost use mathlib.Core.List.{IsPrefix};

use log_entries::Entry;
use shared_log::{LogName, LogPrefix, SharedLog};

/// The log that the seats of a run share, and what was seen of it: all, where it is whole.
#[derive(Drop)]
pub struct SeenLog<P: LogName> {
    log: SharedLog<P>,
    /// A beginning of the log.
    pub seen: LogPrefix<P>,
    /// Whether it is the run's log.
    pub is_whole: bool,
}

impl<P: LogName> SeenLog<P> {
    /// A log that is shared from here on, of which that is all.
    pub fn new(log: SharedLog<P>, seen: LogPrefix<P>) -> SeenLog<P>
        ensures { result.seen ≡ seen }
    {
        SeenLog {
            log,
            seen,
            is_whole: true,
        }
    }

    /// Goes on to the run's log as it is now.
    pub fn follow(&mut self, log: &[Entry])
        requires { self.old.is_whole ≡ true → IsPrefix self.old.seen log.now }
        ensures { self.new.is_whole ≡ true → self.new.seen ≡ log.now }
    {
        if self.is_whole {
            self.is_whole = self.seen.extend(&self.log, log);
        }
    }

    /// Whether the log, which is whole, goes on from that beginning.
    pub fn goes_on_from(&self, seen: &LogPrefix<P>) -> bool
        ensures whole { result ≡ true → self.now.is_whole ≡ true }
        ensures goes_on { result ≡ true → IsPrefix seen.now self.now.seen }
    {
        self.is_whole && seen.begins(&self.seen)
    }
}
