// What the definitions say of tasks of several results, by a task of two: of a script's, and of runs and logs that are made by hand.

ghost use Rattle.std.specs.Prelude.{◌≡◌, true, false, [], ◌∷◌, Some, None};
ghost use Rattle.meaning.specs.Values.{Outcome, Val, Trapped, Named, Known, DivZero, Broken, Put, Aborted, main_birth, outcomes, outcome_at, results_of};
ghost use Rattle.meaning.specs.Runs.{Needs, Over, TraceBirth, TraceGet, serial_end, serial_trace, known, ids_from, named, behind, piece};
ghost use Rattle.meaning.specs.Meaning.{replay, run_birth};
ghost use Rattle.meaning.specs.Births.{numbered, birth_at, part_at, objects_in, objects_at};
ghost use Rattle.meaning.specs.Readings.{den, BirthsHold};
ghost use Rattle.meaning.specs.Examples.{MainGives, value, object, parts_called, parting, this_piece};
ghost use Rattle.event_log.specs.Entries.{main_attempt};
ghost use Rattle.event_log.specs.Words.{births, own_births, bearers_of, next_serial, answered_of};
ghost use Rattle.event_log.specs.Breaks.{breaks_of, RetriesAreUsed};
ghost use Rattle.event_log.specs.Holding.{are_released, ids_of_outcomes, HasId, Makes, IsHeld};
ghost use Rattle.event_log.specs.Rules.{HasContent, IsUnresolved, IsSettled, AreSteps, AreUnreleased};
ghost use Rattle.event_log.specs.Serial.{reading_of, AnswersBegin, IsWhole};
ghost use Rattle.log_examples.specs.Logs.{first_of, number};
ghost use Rattle.log_examples.specs.SeveralScripts.{parts_asked};
ghost use Rattle.log_examples.specs.SeveralResults.{dividing_apart, giving, asking, birth_of_two, birth_of_six, part_in};
ghost use Rattle.log_examples.specs.SeveralResults.{until_the_end, two_log, lost_log, one_resolved, both_resolved};
ghost use Rattle.log_examples.specs.SeveralResults.{references, pair_log, one_released, both_released};

/// A script's main that calls a function of two results remotely, and gets the second result first.
pub fn script_examples()
    // it bears one task, and stops at its second object
    ensures stops_at_second { replay (parts_asked 17 5) main_birth (object 1 1) [] ≡ this_piece (dividing_apart ∷ []) [] (Needs (Named (object 1 2))) }
    // then at the first
    ensures stops_at_first { replay (parts_asked 17 5) main_birth (object 1 1) (value 2 ∷ []) ≡
        this_piece (dividing_apart ∷ []) [] (Needs (Named (object 1 1))) }
    // with both it ends
    ensures ends { replay (parts_asked 17 5) main_birth (object 1 1) (value 2 ∷ value 3 ∷ []) ≡
        this_piece (dividing_apart ∷ []) [] (Over (value 32 ∷ [])) }
    // as the serial run does
    ensures serial { MainGives (parts_asked 17 5) [] (value 32) }
    // where the call traps, each get does
    ensures serial_trap { MainGives (parts_asked 17 0) [] (Trapped DivZero) }
{}

/// Outcomes of a call of two results, the ids of its objects, and a run that bears it and gets its second result.
pub fn run_examples()
    // each result has its own outcome
    ensures outcome_each { outcomes 2 (giving (number 3) (number 2)) ≡ value 3 ∷ value 2 ∷ [] }
    // a trap is the outcome of each
    ensures trap_each { outcomes 2 (Aborted DivZero) ≡ Trapped DivZero ∷ Trapped DivZero ∷ [] }
    // the first result is at place 0
    ensures first_place { outcome_at 0 (giving (number 3) (number 2)) ≡ value 3 }
    // and the second at place 1
    ensures second_place { outcome_at 1 (giving (number 3) (number 2)) ≡ value 2 }
    // a trap stands at each place
    ensures trap_at_second_place { outcome_at 1 (Aborted DivZero) ≡ Trapped DivZero }
    // two results have no third, and what stands for it no checked script meets
    ensures third_place { outcome_at 2 (giving (number 3) (number 2)) ≡ Trapped Broken }
    // the birth takes an id for each result
    ensures ids { ids_from (object 1 1) (results_of dividing_apart) ≡ object 1 1 ∷ object 1 2 ∷ [] }
    // which the run gets as references
    ensures references { named (object 1 1) dividing_apart ≡ Named (object 1 1) ∷ Named (object 1 2) ∷ [] }
    // the next birth takes the id behind them
    ensures next_id { behind (object 1 1) dividing_apart ≡ object 1 3 }
    // with no answer it bore the call, and stops at the call's second object
    ensures stops_at_second { piece 1 (asking (giving (number 3) (number 2))) (object 1 1) [] ≡
        this_piece (dividing_apart ∷ []) [] (Needs (Named (object 1 2))) }
    // with one it bore the put too, and stops at its object, which is the third
    ensures stops_at_third { piece 2 (asking (giving (number 3) (number 2))) (object 1 1) (value 2 ∷ []) ≡
        this_piece (dividing_apart ∷ Put (number 6) ∷ []) [] (Needs (Named (object 1 3))) }
    // with both it ends, with an outcome for each of its own results
    ensures ends_with_both { piece 2 (asking (giving (number 3) (number 2))) (object 1 1) (value 2 ∷ value 6 ∷ []) ≡
        this_piece (dividing_apart ∷ Put (number 6) ∷ []) [] (Over (value 2 ∷ value 6 ∷ [])) }
    // a trap that it gets is the outcome of each of them
    ensures ends_with_trap { piece 2 (asking (giving (number 3) (number 2))) (object 1 1) (Trapped DivZero ∷ []) ≡
        this_piece (dividing_apart ∷ []) [] (Over (Trapped DivZero ∷ Trapped DivZero ∷ [])) }
    // in the serial run each reference is the outcome of its result
    ensures known_each { known dividing_apart (giving (number 3) (number 2)) ≡ Known (value 3) ∷ Known (value 2) ∷ [] }
    // so the second is what it gets first
    ensures serial_gets { serial_trace (asking (giving (number 3) (number 2))) ≡
        TraceBirth dividing_apart ∷ TraceGet (value 2) ∷ TraceBirth (Put (number 6)) ∷ TraceGet (value 6) ∷ [] }
    // and it ends as the pieces do
    ensures serial_results { serial_end (asking (giving (number 3) (number 2))) ≡ giving (number 2) (number 6) }
    // where the call traps, the get of its second result does
    ensures serial_trap { serial_end (asking (Aborted DivZero)) ≡ Aborted DivZero }
{}

/// A log in which a call of two objects was born, and a put behind it.
pub fn birth_examples()
    // main bore the two
    ensures own { own_births main_attempt two_log ≡ birth_of_two ∷ birth_of_six ∷ [] }
    // at the ids that its replay gives them
    ensures numbers { numbered (object 1 1) (dividing_apart ∷ Put (number 6) ∷ []) ≡ birth_of_two ∷ birth_of_six ∷ [] }
    // object 1 is the call's result at place 0
    ensures first_part { part_at (births two_log) (object 1 1) ≡ Some (part_in birth_of_two 0) }
    // object 2 is the call's result at place 1
    ensures second_part { part_at (births two_log) (object 1 2) ≡ Some (part_in birth_of_two 1) }
    // object 3 is what was put
    ensures third_part { part_at (births two_log) (object 1 3) ≡ Some (part_in birth_of_six 0) }
    // there is no object 4
    ensures no_part { part_at (births two_log) (object 1 4) ≡ None }
    // nor one of another owner
    ensures none_elsewhere { part_at (births two_log) (object 2 1) ≡ None }
    // the birth stands at its first object
    ensures at_first { birth_at (births two_log) (object 1 1) ≡ Some dividing_apart }
    // and not at its second
    ensures none_at_second { birth_at (births two_log) (object 1 2) ≡ None }
    // the objects of the birth in order
    ensures objects_of_birth { objects_in birth_of_two ≡ object 1 1 ∷ object 1 2 ∷ [] }
    // they are found by the first
    ensures objects { objects_at (births two_log) (object 1 1) ≡ object 1 1 ∷ object 1 2 ∷ [] }
    // and not by the second
    ensures none_of_second { objects_at (births two_log) (object 1 2) ≡ [] }
    // worker 1 has the objects 0 to 3
    ensures next_of_owner { next_serial 1 (births two_log) ≡ 4 }
    // worker 2 has none, and begins with 1
    ensures next_of_other { next_serial 2 (births two_log) ≡ 1 }
    // the second object too was born by the attempt that made the call
    ensures bearer_of_second { bearers_of (object 1 2) two_log ≡ main_attempt ∷ [] }
    // nobody bore object 4
    ensures bearer_of_none { bearers_of (object 1 4) two_log ≡ [] }
    // the first object stands for the first result
    ensures reads_first { den (parts_called 17 5) (births two_log) (object 1 1) ≡ value 3 }
    // the second for the second
    ensures reads_second { den (parts_called 17 5) (births two_log) (object 1 2) ≡ value 2 }
    // the third for what was put
    ensures reads_third { den (parts_called 17 5) (births two_log) (object 1 3) ≡ value 6 }
    // what was never born stands for 0
    ensures reads_none { den (parts_called 17 5) (births two_log) (object 1 4) ≡ value 0 }
    // where the call traps, both objects stand for the trap
    ensures reads_trap { BirthsHold (λ o. Trapped DivZero) (parts_called 1 0) (object 1 1) (parting 1 0 ∷ []) }
{}

/// The attempt of such a call: its contents, what breaks it, and when it is settled.
pub fn attempt_examples()
    // the second object's content is the second one
    ensures second_content { HasContent two_log (object 1 2) (value 2) }
    // and no other
    ensures no_other_content { (c : Outcome) → HasContent two_log (object 1 2) c → c ≡ value 2 }
    // the contents are the whole of what the call gives
    ensures whole { IsWhole (reading_of (parts_called 17 5) two_log) two_log (first_of (object 1 1)) 2
        (run_birth (parts_called 17 5) dividing_apart) (value 3 ∷ value 2 ∷ []) }
    // main's answer begins what it gets serially
    ensures answers_begin { AnswersBegin (reading_of (parts_called 17 5) two_log) (answered_of main_attempt two_log) (value 2 ∷ value 6 ∷ []) }
    // before the end no loss breaks the attempt
    ensures unbroken { breaks_of (first_of (object 1 1)) two_log ≡ [] }
    // behind it a loss of either object does, but none of another object, at another node, or refused
    ensures broken_by_either { breaks_of (first_of (object 1 1)) lost_log ≡ 24 ∷ 25 ∷ [] }
    // so the runs of the second object are used up
    ensures used_up { RetriesAreUsed lost_log (object 1 2) }
    // an acceptance settles the second object too
    ensures settled { IsSettled two_log (object 1 2) }
    // an end alone doesn't
    ensures unsettled { IsSettled until_the_end (object 1 2) → ⊥ }
    // a call is unresolved of which one object is
    ensures unresolved { IsUnresolved one_resolved (object 1 1) }
    // but not where both are resolved
    ensures resolved { IsUnresolved both_resolved (object 1 1) → ⊥ }
{}

/// Which objects are held by a call of two objects, and until when.
pub fn holding_examples()
    // the ids in all contents, in order
    ensures ids { ids_of_outcomes references ≡ object 2 1 ∷ object 2 2 ∷ [] }
    // the first object has the id that stands in the second content
    ensures first_has_both { HasId pair_log (object 1 2) (object 2 2) }
    // the second has the id that stands in the first content
    ensures second_has_both { HasId pair_log (object 1 3) (object 2 1) }
    // the second has the id in the arguments, too
    ensures second_has_argument { HasId pair_log (object 1 3) (object 1 1) }
    // and is computed from that argument, which the call reads
    ensures second_is_from_argument { AreSteps pair_log (object 1 3) (object 1 1 ∷ []) (object 1 1) }
    // but its content is the second alone
    ensures makes_second { Makes pair_log (first_of (object 1 2)) (object 1 3) (Val (Named (object 2 2))) }
    // while main runs, it holds the second object, which it bore
    ensures bearer_holds { IsHeld (object 1 2) two_log }
    // neither object is released
    ensures none_is { are_released (objects_at (births pair_log) (object 1 2)) pair_log ≡ false }
    // one is, which isn't enough
    ensures one_is { are_released (objects_at (births one_released) (object 1 2)) one_released ≡ false }
    // both are
    ensures both_are { are_released (objects_at (births both_released) (object 1 2)) both_released ≡ true }
    // as long as one isn't, the id in the content of the other is held
    ensures content_is_held { IsHeld (object 2 1) one_released }
    // and so is the argument
    ensures argument_is_held { IsHeld (object 1 1) one_released }
    // where both are, nothing holds the one
    ensures content_is_free { IsHeld (object 2 1) both_released → ⊥ }
    // nor the other
    ensures argument_is_free { IsHeld (object 1 1) both_released → ⊥ }
    // a call may begin again of which no object is released
    ensures unreleased { AreUnreleased pair_log (object 1 2) }
    // but none of which one is
    ensures not_unreleased { AreUnreleased one_released (object 1 2) → ⊥ }
{}
