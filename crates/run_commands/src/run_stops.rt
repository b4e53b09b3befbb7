// Why a run that is driven stops, and what is refused for it.

ghost use Rattle.std.specs.Prelude.{◌≡◌};
ghost use Rattle.run_commands.specs.RunReports.{run_refusal};

use fault_runs::is_no_memory;
use log_entries::Refusal;
use raysim_streams::CommandRefusal;

/// Why a run that is stopped so gives no report.
pub fn run_refusal(refusal: Refusal) -> CommandRefusal
    ensures { result ≡ run_refusal refusal }
{
    if is_no_memory(refusal) {
        return CommandRefusal::NoMemory;
    }
    CommandRefusal::Stopped {
        code: refusal.number(),
    }
}
