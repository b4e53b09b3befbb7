// The line that is told of a run that goes on.

ghost use Rattle.std.specs.Prelude.{◌≡◌, IfOk, string_bytes};
ghost use Rattle.run_watch.specs.Line.{progress_line};

use crate::counts::RunCounts;
use std::alloc::{AllocError, Global};

/// How far a run is after so many seconds, without a line feed: `12 events, 1 of 1 tasks done, 0 s`.
pub fn progress_line(alloc: Global, counts: RunCounts, seconds: u64) -> Result<String, AllocError>
    ensures { IfOk result (λ text. string_bytes text ≡ progress_line counts seconds) }
{
    format!(in alloc;
        "{} events, {} of {} tasks done, {seconds} s",
        counts.events, counts.results, counts.tasks
    )
}
