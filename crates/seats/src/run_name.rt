// A type that stands for one run on threads in contracts, with the plan and the cluster of that run.

ghost use Rattle.std.specs.Prelude.{Bool, List};
ghost use Rattle.event_files.specs.declared.plan.PlanLine.{PlanLine};
ghost use Rattle.run_paths.specs.of_protocol_board.Cores.{Size};

use job_tickets::TicketName;
use seat_books::Watching;
use shared_log::LogName;
use std::marker::Brand;

/// A type that stands for one run on threads in contracts: which of its seats is watched, the log that they share, the tickets of its jobs, the plan beside
/// it, the cluster on which it begins, and whether it is open: calls may then apply any events, beside those that turns apply. Of a run under a lock nothing
/// is known but what its type says.
pub trait RunName: Watching + LogName + TicketName {
    ghost plan: { List PlanLine };

    ghost size: { Size };

    ghost is_open: { Bool };
}

impl RunName for Brand {
    ghost use Rattle.std.specs.Prelude.{[], false};

    ghost plan = { [] };

    ghost size = { record { nodes = 1; slots = 1 } };

    ghost is_open = { false };
}
