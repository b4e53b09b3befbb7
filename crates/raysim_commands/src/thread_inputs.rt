// What a run on threads reads.

ghost use Rattle.std.specs.Prelude.{◌≡◌, IfOk, IfErr, IfSome, IsErrOf, OnOk};
ghost use Rattle.script_check.specs.Trees.{script_of};
ghost use Rattle.script_commands.specs.Scripts.{IsScript, IsUnwritten};
ghost use Rattle.replay_laws.specs.of_seats.Held.{AreOutside};
ghost use Rattle.raysim_commands.specs.ThreadReports.{ExplainsInputs, ExplainsPlan, IsPlan};

use event_files::{EventError, RunPlan, parse_plan};
use raysim_streams::{CommandRefusal, Source, read_at_most};
use script_commands::read_compiled;
use segment::Compiled;
use std::alloc::Global;

/// A checked script with its code, and the plan beside which it is run.
#[derive(Drop)]
pub struct Inputs {
    pub script: Compiled,
    /// What happens from outside; nothing where no plan was given.
    pub plan: RunPlan,
}

/// The lines of a plan.
fn read_plan<P: Source>(alloc: Global, reader: &mut P) -> Result<RunPlan, CommandRefusal>
    ensures read { IfOk result (λ plan. IfSome (P.left reader.old) (λ bytes. IsPlan bytes plan.lines)) }
    ensures outside { IfOk result (λ plan. AreOutside plan.lines) }
    ensures refused { IfErr result (λ refusal. ExplainsPlan (P.left reader.old) (P.failures reader.old, P.failures reader.new) refusal) }
    ensures memory { IsErrOf result CommandRefusal.NoMemory → P.failures reader.new ≡ P.failures reader.old }
    ensures unfailed { OnOk result (P.failures reader.new ≡ P.failures reader.old) }
{
    let text = match read_at_most(alloc, reader, usize::MAX) {
        Ok(text) => text,
        Err(refusal) => return Err(refusal),
    };
    match parse_plan(alloc, text.as_slice()) {
        Ok(plan) => Ok(plan),
        Err(EventError::BadLine(line)) => Err(CommandRefusal::BadLine { line }),
        Err(EventError::NoMemory) => Err(CommandRefusal::NoMemory),
    }
}

/// The script, which is checked before the plan is read.
pub fn read_inputs<A: Source, P: Source>(
    alloc: Global,
    reader: &mut A,
    plan: &mut P,
) -> Result<Inputs, CommandRefusal>
    ensures script { IfOk result (λ inputs. IfSome (A.left reader.old) (λ text. IsScript text (script_of inputs.script))) }
    ensures plan { IfOk result (λ inputs. IfSome (P.left plan.old) (λ bytes. IsPlan bytes inputs.plan.lines)) }
    ensures outside { IfOk result (λ inputs. AreOutside inputs.plan.lines) }
    ensures refused { IfErr result (λ refusal. ExplainsInputs (A.left reader.old) (P.left plan.old)
        (A.failures reader.old, A.failures reader.new) (P.failures plan.old, P.failures plan.new) refusal) }
    ensures memory { IsErrOf result CommandRefusal.NoMemory → (A.failures reader.new ≡ A.failures reader.old) × (P.failures plan.new ≡ P.failures plan.old) }
    ensures unfailed { OnOk result ((A.failures reader.new ≡ A.failures reader.old) × (P.failures plan.new ≡ P.failures plan.old)) }
{
    let script = match read_compiled(alloc, reader) {
        Ok(script) => script,
        Err(refusal) => return Err(refusal),
    };
    match read_plan(alloc, plan) {
        Ok(plan) => Ok(Inputs { script, plan }),
        Err(refusal) => Err(refusal),
    }
}
