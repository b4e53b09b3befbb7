// Worked logs: by these contracts some are legal, and each of the others has one wrong entry.

ghost use Rattle.std.specs.Prelude.{◌++◌};
ghost use Rattle.event_log.specs.Serial.{MainBegins};
ghost use Rattle.event_log.specs.Legal.{Legal, opening};
ghost use Rattle.log_examples.specs.Logs.{square_setting, square_log, trap_setting, trap_log, passing_setting, passing_log};
ghost use Rattle.log_examples.specs.FaultLogs.{unretried_setting, unretried_log, retried_setting, retried_log, put_lost_setting, put_lost_log};
ghost use Rattle.log_examples.specs.FaultLogs.{owner_died_setting, owner_died_log};
ghost use Rattle.log_examples.specs.ReleaseLogs.{releasing_setting, releasing_log};
ghost use Rattle.log_examples.specs.WrongLogs.{IsWrong, two_puts_setting, wrong_content, begun_again, accepted_twice, passed_setting};
ghost use Rattle.log_examples.specs.WrongLogs.{released_while_held, released_out_of_order, fault_without_cause, print_after_end, skipped_serial};
ghost use Rattle.log_examples.specs.WrongLogs.{end_of_the_dead, notice_of_the_living, half_a_commit};
ghost use Rattle.log_examples.specs.WrongLogs.{entry_of_a_refused_event, kill_of_nobody, delivery_of_nothing, opened_by_the_dead};
ghost use Rattle.log_examples.specs.WrongLogs.{lost_before_its_birth, used_up_too_soon, got_from_the_dead, main_resolved, main_accepted};
ghost use Rattle.log_examples.specs.WrongLogs.{given_out_twice, refused_for_nothing, refused_for_less, two_puts, cause_comes_later};

/// Logs that are legal.
pub fn legal_examples()
    ensures square { Legal square_setting square_log }
    ensures trap_not_got { Legal trap_setting trap_log }
    ensures reference_passed { Legal passing_setting passing_log }
    ensures all_released { Legal releasing_setting releasing_log }
    ensures not_run_again { Legal unretried_setting unretried_log }
    ensures run_again { Legal retried_setting retried_log }
    ensures put_lost { Legal put_lost_setting put_lost_log }
    ensures owner_died { Legal owner_died_setting owner_died_log }
{}

/// Logs of which one entry is wrong.
pub fn wrong_examples()
    ensures wrong_content { IsWrong two_puts_setting wrong_content }
    ensures begun_again { IsWrong square_setting begun_again }
    ensures accepted_twice { IsWrong square_setting accepted_twice }
    ensures released_while_held { IsWrong passed_setting released_while_held }
    ensures released_out_of_order { IsWrong releasing_setting released_out_of_order }
    ensures fault_without_cause { IsWrong square_setting fault_without_cause }
    ensures print_after_end { IsWrong square_setting print_after_end }
    ensures skipped_serial { IsWrong square_setting skipped_serial }
    ensures end_of_the_dead { IsWrong square_setting end_of_the_dead }
    ensures notice_of_the_living { IsWrong square_setting notice_of_the_living }
    ensures half_a_commit { IsWrong square_setting half_a_commit }
    ensures kill_of_nobody { IsWrong square_setting kill_of_nobody }
    ensures delivery_of_nothing { IsWrong square_setting delivery_of_nothing }
    ensures opened_by_the_dead { IsWrong square_setting opened_by_the_dead }
    ensures lost_before_its_birth { IsWrong two_puts_setting lost_before_its_birth }
    ensures used_up_too_soon { IsWrong retried_setting used_up_too_soon }
    ensures got_from_the_dead { IsWrong owner_died_setting got_from_the_dead }
    ensures entry_of_a_refused_event { IsWrong square_setting entry_of_a_refused_event }
    ensures main_resolved { IsWrong two_puts_setting main_resolved }
    ensures main_accepted { IsWrong square_setting main_accepted }
    ensures given_out_twice { IsWrong two_puts_setting given_out_twice }
    ensures refused_for_nothing { IsWrong square_setting refused_for_nothing }
    ensures refused_for_less { IsWrong square_setting refused_for_less }
    ensures cause_comes_later { IsWrong two_puts_setting cause_comes_later }
    ensures late_cause { MainBegins two_puts (opening ++ cause_comes_later) → ⊥ }
{}
