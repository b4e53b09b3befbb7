// In which place of the script the trap comes about of which `why` tells.

use crate::told::{Printed, print_bytes};
use raysim_commands::{Cluster, CommandRefusal, Form, TrapAsked, run_trap, sim_trap, trap_asked};

/// The status of a run in which main ended with a trap.
const TRAPPED: u8 = 1;

/// Of whose trap it is told below what was printed in that form, if it is. Where main is asked for, it has ended with one.
fn asked_below(printed: &Printed, form: Form) -> Option<TrapAsked> {
    let Ok(status) = printed.done else {
        return None;
    };
    match trap_asked(form) {
        Some(TrapAsked::OfMain) if status != TRAPPED => None,
        asked => asked,
    }
}

/// Prints the place of the trap below what was printed of a run that was driven, where its form tells of a trap. The run is driven once more.
pub fn with_trap_of_run<R: Print + AllocGlobal>(
    rt: &R,
    printed: Printed,
    script: &[u8],
    cluster: Cluster,
    form: Form,
) -> Printed {
    match asked_below(&printed, form) {
        Some(asked) => print_below(rt, printed, run_trap(rt.alloc(), script, cluster, asked)),
        None => printed,
    }
}

/// Prints the place of the trap below what was printed of a replay, where its form tells of a trap. The replay is done once more.
pub fn with_trap_of_replay<R: Print + AllocGlobal>(
    rt: &R,
    printed: Printed,
    script: &[u8],
    events: &[u8],
    cluster: Cluster,
    form: Form,
) -> Printed {
    match asked_below(&printed, form) {
        Some(asked) => {
            let told = sim_trap(rt.alloc(), script, events, cluster, asked);
            print_below(rt, printed, told)
        }
        None => printed,
    }
}

/// Prints what is told, below what was printed.
fn print_below<R: Print>(
    rt: &R,
    printed: Printed,
    told: Result<String, CommandRefusal>,
) -> Printed {
    let text = match told {
        Ok(text) => text,
        Err(refusal) => {
            return Printed {
                done: Err(refusal),
                error: None,
            };
        }
    };
    print_bytes(rt, text.as_bytes(), printed.done)
}
