// The run as programs use it: an event after the other, its log, and the report and status of that.

ghost use Rattle.std.specs.Prelude.{◌≡◌, IfOk, string_bytes};
ghost use Rattle.protocol.specs.Settling.{next};
ghost use Rattle.protocol_core.specs.Own.{GivesOwn, IsOwn};
ghost use Rattle.protocol_core.specs.Limits.{IsWithin, Limits};
ghost use Rattle.protocol_core.specs.Owed.{Pays};
ghost use Rattle.protocol_core.specs.States.{IsSoundRun};
ghost use Rattle.protocol_core.specs.Steps.{Answers, AnswersAsShown, reply_of};
ghost use Rattle.report_text.specs.of_report_lines.Main.{status_of};
ghost use Rattle.report_text.specs.Report.{report_text};
ghost use Rattle.protocol_core.specs.Meant.{IsSoundLog};
ghost use Rattle.protocol_board.specs.Reports.{json_text};

use ids::WorkerId;
use log_entries::{Entry, Event};
use protocol_core::{Core, Reply};
use protocol_data::{ClusterState, Envelope};
use report_json::report_json;
use report_text::{report_text, status_of};
use segment::{Done, ScriptName};
use sequence::Seq;
use std::alloc::{AllocError, Global};
use std::marker::Model;

/// The run of the script `S`. Whatever events were applied, its log is legal: what main was answered and has printed begins what
/// it is answered and prints when every remote call is a plain call, and so does what each attempt was answered and has printed
/// begin the serial run of its own call.
#[derive(Drop)]
pub struct Board<S: ScriptName> {
    core: Core<S>,
}

impl<S: ScriptName> Model for Board<S> {
    ghost use Rattle.std.specs.Coded.{codes};
    ghost use Rattle.ids.specs.Codes.{id_code};
    ghost use Rattle.held.specs.Codes.{value_code, outcome_code, birth_code};
    ghost use Rattle.ids.specs.Codes.{attempt_code};
    ghost use Rattle.values.specs.FaultCodes.{fault_code};
    ghost use Rattle.values.specs.contracts.value.RunValue as run_values;
    ghost use Rattle.protocol_core.specs.States.{RunState};

    ghost Value = { RunState };

    ghost coded = { Prim.hlevel (codes, run_values.the_row.coded, value_code, outcome_code, birth_code, id_code, attempt_code, fault_code) };

    ghost view = { λ b. b.core };
}

impl<S: ScriptName> Board<S> {
    /// A board over the core.
    pub fn new(core: Core<S>) -> Board<S>
        ensures { result ≡ core }
    {
        Board { core }
    }

    /// One event, as the core takes it: see `Core::apply`.
    pub fn apply(
        &mut self,
        alloc: Global,
        event: Event,
        seat: u8,
        done: Option<Done<S>>,
    ) -> Reply<S>
        ensures answers { Answers self.old event seat done self.new (reply_of result) }
        ensures shown { AnswersAsShown S.script self.old event done self.new (reply_of result) }
        ensures paid { Pays S.script self.old event seat done self.new (reply_of result) }
        ensures limited { Limits S.script self.old event seat done self.new (reply_of result) }
        ensures own { GivesOwn self.new.log (reply_of result) }
        ensures meant { IsSoundLog S.script self.new }
    {
        self.core.apply(alloc, event, seat, done)
    }

    /// One event, as `apply` takes it, where what was done is done on a job of this run: see `Core::apply_own`.
    pub fn apply_own(
        &mut self,
        alloc: Global,
        event: Event,
        seat: u8,
        done: Option<Done<S>>,
    ) -> Reply<S>
        requires { IsOwn self.old.log done }
        ensures answers { Answers self.old event seat done self.new (reply_of result) }
        ensures shown { AnswersAsShown S.script self.old event done self.new (reply_of result) }
        ensures paid { Pays S.script self.old event seat done self.new (reply_of result) }
        ensures limited { Limits S.script self.old event seat done self.new (reply_of result) }
        ensures own { GivesOwn self.new.log (reply_of result) }
        ensures meant { IsSoundLog S.script self.new }
    {
        self.core.apply_own(alloc, event, seat, done)
    }

    /// The next event where nothing else is asked for: see `Core::next`.
    pub fn next(&self, but: &Seq<WorkerId>) -> Option<Event>
        ensures { result ≡ next self.now.whole but.now }
    {
        self.core.next(but)
    }

    /// The entries so far, oldest first. For whoever goes on by laws of single steps, the run is as it is between two events (`sound`).
    pub fn log(&self) -> &[Entry]
        ensures log { result.now ≡ self.now.log }
        ensures meant { IsSoundLog S.script self.now }
        ensures within { IsWithin S.script self.now }
        ensures sound { IsSoundRun S.script self.now }
    {
        self.core.log()
    }

    /// Every message that was sent so far, in the order of their numbers, which begin with 1.
    pub fn messages(&self) -> &Seq<Envelope>
        ensures { result.now ≡ self.now.whole.network }
    {
        self.core.messages()
    }

    /// The run without its log: see `Core::whole`.
    pub fn whole(&self) -> &ClusterState
        ensures { result.now ≡ self.now.whole }
    {
        self.core.whole()
    }

    /// The report of the log: see docs/runs.md for its lines. Where memory runs out there is none.
    pub fn report(&self, alloc: Global) -> Result<String, AllocError>
        ensures text { IfOk result (λ text. string_bytes text ≡ report_text self.now.log) }
        ensures meant { IsSoundLog S.script self.now }
    {
        report_text(alloc, self.log())
    }

    /// The report of the log as JSON, on one line that ends with a line feed: see `report_json::report_json`.
    pub fn report_json(&self, alloc: Global) -> Result<String, AllocError>
        ensures text { IfOk result (λ text. string_bytes text ≡ json_text self.now.log) }
        ensures meant { IsSoundLog S.script self.now }
    {
        report_json(alloc, self.log())
    }

    /// The status that a program ends with: 0 where main ended with a value, 1 where it ended with a trap, 2 where it is open or has a fault.
    pub fn status(&self) -> u8
        ensures { result ≡ status_of self.now.log }
    {
        status_of(self.log())
    }
}
