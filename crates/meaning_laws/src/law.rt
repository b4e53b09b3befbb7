// Every legal log reads as the serial run.

ghost use Rattle.meaning_laws.specs.Known.{AttemptsGiveOnlyKnown};
ghost use Rattle.meaning_laws.specs.Law.{LegalLogsReadAsSerial, MainBeginsTheSerialRun};

/// Under the reading of its births, each of which holds, a legal log reads as the serial run: what an attempt of a task was
/// answered and has printed begins what the run of its own birth gets and prints, only a last answer may be a fault, and
/// where it ended they are the whole, and its content is the outcome. Main's is the run of the script in which every
/// remote call is a plain call.
pub fn legal_logs_read_as_serial()
    ensures { LegalLogsReadAsSerial }
{}

/// What main of a legal log was answered and has printed begins the run of the script in which every remote call is a plain
/// call; only a last answer may differ, a fault, whose cause stands earlier in the log; where main ended, it is the whole.
pub fn main_begins_the_serial_run()
    ensures { MainBeginsTheSerialRun }
{}

/// What an attempt bears, gets or ends with names only what stands in its arguments, what it bore and what it got.
pub fn attempts_give_only_what_they_know()
    ensures { AttemptsGiveOnlyKnown }
{}
