// A run as its log and its tables: how it begins, its next event, and what each event comes to.

ghost use Rattle.std.specs.Prelude.{◌≡◌, true, IfOk};
ghost use Rattle.script_check.specs.Trees.{script_of};
ghost use Rattle.protocol.specs.Settling.{next};
ghost use Rattle.protocol_core.specs.Own.{GivesOwn, IsOwn};
ghost use Rattle.protocol_core.specs.Limits.{IsWithin, Limits};
ghost use Rattle.protocol_core.specs.Meant.{IsSoundLog};
ghost use Rattle.protocol_core.specs.Owed.{Pays};
ghost use Rattle.protocol_core.specs.States.{IsSoundRun, first_state};
ghost use Rattle.protocol_core.specs.Steps.{Answers, AnswersAsShown, reply_of};

use crate::cluster::Cluster;
use crate::reply::Reply;
use crate::state::State;
use crate::steps::step;
use ids::WorkerId;
use log_entries::{Entry, Event};
use meaning_laws::law::{legal_logs_read_as_serial, main_begins_the_serial_run};
use protocol_data::{ClusterState, Envelope};
use protocol_laws::law::{opening_is_sound, sound_is_legal};
use script_check::Checked;
use segment::{Done, ScriptName};
use sequence::Seq;
use settling::next_from;
use std::alloc::{AllocError, Global};
use std::marker::{Model, PhantomData};

/// The run of the script `S` on a cluster of 1 to 64 nodes: its log, and the workers, nodes and messages that say which event comes to what. The
/// log is legal beside those messages.
#[derive(Drop)]
pub struct Core<S: ScriptName> {
    state: State,
    /// The place of the first message that was never delivered: the search for the next event begins there.
    cursor: usize,
    script: PhantomData<S>,
}

impl<S: ScriptName> Model for Core<S> {
    ghost use Rattle.std.specs.Coded.{codes};
    ghost use Rattle.ids.specs.Codes.{id_code};
    ghost use Rattle.held.specs.Codes.{value_code, outcome_code, birth_code};
    ghost use Rattle.ids.specs.Codes.{attempt_code};
    ghost use Rattle.values.specs.FaultCodes.{fault_code};
    ghost use Rattle.values.specs.contracts.value.RunValue as run_values;
    ghost use Rattle.step_laws.specs.Cursors.{IsAtFirst};
    ghost use Rattle.protocol_core.specs.States.{IsSoundRun, RunState};
    ghost use Rattle.protocol_core.specs.Views.{state_of};

    ghost Value = { RunState };

    ghost coded = { Prim.hlevel (codes, run_values.the_row.coded, value_code, outcome_code, birth_code, id_code, attempt_code, fault_code) };

    ghost view = { λ c. state_of c.state };

    ghost invariant = { λ c. IsSoundRun S.script (state_of c.state) × IsAtFirst c.cursor c.state.whole.delivered };
}

impl<S: ScriptName> Core<S> {
    /// A run of the script that begins: worker 1 is opened on node 1 and runs main.
    pub fn new(alloc: Global, script: &Checked, cluster: Cluster) -> Result<Core<S>, AllocError>
        requires { script_of script.now ≡ S.script }
        ensures { IfOk result (λ c. c ≡ first_state cluster.nodes cluster.slots) }
    {
        opening_is_sound();
        sound_is_legal();
        let _ = script.functions();
        let _ = cluster.nodes();
        let state = State::new(alloc, cluster)?;
        Ok(Core {
            state,
            cursor: 0,
            script: PhantomData,
        })
    }

    /// The entries so far, oldest first. For whoever goes on by laws of single steps, the run is as it is between two events (`sound`).
    pub fn log(&self) -> &[Entry]
        ensures log { result.now ≡ self.now.log }
        ensures meant { IsSoundLog S.script self.now }
        ensures within { IsWithin S.script self.now }
        ensures sound { IsSoundRun S.script self.now }
    {
        legal_logs_read_as_serial();
        main_begins_the_serial_run();
        self.state.log.as_slice()
    }

    /// Every message that was sent so far, in the order of their numbers, which begin with 1.
    pub fn messages(&self) -> &Seq<Envelope>
        ensures { result.now ≡ self.now.whole.network }
    {
        &self.state.whole.network
    }

    /// The run without its log: nodes and workers with their tables, the messages, which of them were delivered, and the jobs.
    pub fn whole(&self) -> &ClusterState
        ensures { result.now ≡ self.now.whole }
    {
        &self.state.whole
    }

    /// The next event where nothing else is asked for; see docs/protocol.md, "The settle rule". These workers neither claim nor commit.
    #[tactic(auto, using(crate::proofs::Cursors::next_there))]
    pub fn next(&self, but: &Seq<WorkerId>) -> Option<Event>
        ensures { result ≡ next self.now.whole but.now }
    {
        next_from(&self.state.whole, but, self.cursor)
    }

    /// One event, with the number of the seat from which it comes: any, though an event file has those from 0 to 8. With a commit comes what was
    /// done on its job, if anything was.
    ///
    /// A claim answers the job that is given out, any other event `Ok`. Refused are the events of docs/protocol.md, which change nothing
    /// but the log, in which the event and its refusal stand; `NoMemory`, which leaves the log as it was, lets go of workers, nodes, messages
    /// and jobs, and halts the run; and `Halted`, which every later event is answered, and which changes nothing.
    pub fn apply(
        &mut self,
        alloc: Global,
        event: Event,
        seat: u8,
        done: Option<Done<S>>,
    ) -> Reply<S>
        ensures answers { Answers self.old event seat done self.new (reply_of result) }
        ensures own { GivesOwn self.new.log (reply_of result) }
        ensures meant { IsSoundLog S.script self.new }
        ensures shown { AnswersAsShown S.script self.old event done self.new (reply_of result) }
        ensures paid { Pays S.script self.old event seat done self.new (reply_of result) }
        ensures limited { Limits S.script self.old event seat done self.new (reply_of result) }
    {
        step(
            alloc,
            &mut self.state,
            &mut self.cursor,
            event,
            seat,
            done,
            false,
        )
    }

    /// One event, as `apply` takes it, where what was done is done on a job whose answers begin what the log has of answers to its attempt. So
    /// are all that this run gave out. The answers aren't read: the cost of a commit doesn't grow with them.
    pub fn apply_own(
        &mut self,
        alloc: Global,
        event: Event,
        seat: u8,
        done: Option<Done<S>>,
    ) -> Reply<S>
        requires { IsOwn self.old.log done }
        ensures answers { Answers self.old event seat done self.new (reply_of result) }
        ensures own { GivesOwn self.new.log (reply_of result) }
        ensures meant { IsSoundLog S.script self.new }
        ensures shown { AnswersAsShown S.script self.old event done self.new (reply_of result) }
        ensures paid { Pays S.script self.old event seat done self.new (reply_of result) }
        ensures limited { Limits S.script self.old event seat done self.new (reply_of result) }
    {
        step(
            alloc,
            &mut self.state,
            &mut self.cursor,
            event,
            seat,
            done,
            true,
        )
    }
}
