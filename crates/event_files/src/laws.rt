// The laws of event files and plans.

ghost use Rattle.std.specs.Prelude.{◌≡◌, ◌<◌, ◌^◌, ◌∷◌, ℕ, List, length, map};
ghost use Rattle.log_entries.specs.declared.event.Event.{Event};
ghost use Rattle.event_log.specs.Entries.{Entry};
ghost use Rattle.event_log.specs.Words.{events};
ghost use Rattle.event_files.specs.declared.line.Line.{Line};
ghost use Rattle.event_files.specs.declared.line.Line.TheVariants as lines;
ghost use Rattle.event_files.specs.declared.plan.PlanLine.{PlanLine};
ghost use Rattle.event_files.specs.Lines.{IsLine, line_text, AreEvents};
ghost use Rattle.event_files.specs.Plans.{IsPlanLine, plan_line_text};
ghost use Rattle.event_files.specs.Files.{IsFile, IsBadAt};
ghost use Rattle.event_files.specs.Numbering.{AreNumbersOf, line_numbers};
ghost use Rattle.event_files.specs.Printing.{events_text};
ghost use Rattle.event_files.specs.declared.error.EventError.TheVariants as errors;
ghost use Rattle.event_files.specs.declared.event_file.EventFile.{EventFile};
ghost use Rattle.event_files.specs.declared.event_file.EventFile.TheVariants as files;
ghost use Rattle.event_files.specs.declared.recorded.RecordedEvent.{RecordedEvent};
ghost use Rattle.event_files.specs.LogHistory.{AreSeated, recorded_in};
ghost use Rattle.event_files.specs.Recorded.{AreRecorded, IsEventFile, IsFileRefusal, IsRecordedFile, recorded_file};

/// An event file says one thing.
pub fn one_reading()
    ensures { (bytes : List ℕ) (a b : List Line) → IsFile IsLine line_text bytes a → IsFile IsLine line_text bytes b → a ≡ b }
{}

/// What has a line that is none of the format is no event file.
pub fn no_file_is_bad()
    ensures { (bytes : List ℕ) (a : List Line) (n : ℕ) → IsFile IsLine line_text bytes a → ¬ IsBadAt IsLine line_text bytes n }
{}

/// One line is the first that is none of the format.
pub fn one_bad_line()
    ensures { (bytes : List ℕ) (m n : ℕ) → IsBadAt IsLine line_text bytes m → IsBadAt IsLine line_text bytes n → m ≡ n }
{}

/// Events that are written are an event file that says them, in their order.
pub fn printed_is_read()
    ensures { (events : List Event) → AreEvents events → IsFile IsLine line_text (events_text events) (map (λ e. lines.Event e) events) }
{}

/// A plan says one thing.
pub fn one_plan()
    ensures { (bytes : List ℕ) (a b : List PlanLine) → IsFile IsPlanLine plan_line_text bytes a → IsFile IsPlanLine plan_line_text bytes b → a ≡ b }
{}

/// What has a line that is none of a plan is no plan.
pub fn no_plan_is_bad()
    ensures { (bytes : List ℕ) (a : List PlanLine) (n : ℕ) → IsFile IsPlanLine plan_line_text bytes a → ¬ IsBadAt IsPlanLine plan_line_text bytes n }
{}

/// One line is the first that is none of a plan.
pub fn one_bad_plan_line()
    ensures { (bytes : List ℕ) (m n : ℕ) → IsBadAt IsPlanLine plan_line_text bytes m → IsBadAt IsPlanLine plan_line_text bytes n → m ≡ n }
{}

/// Events with their seats that are written are an event file of format 2 that says them, in their order.
pub fn printed_history_is_read()
    ensures { (events : List RecordedEvent) → AreRecorded events → IsRecordedFile (recorded_file events) events }
{}

/// The history of a log whose events came from seats 0 to 8 is an event file that says them, where the log's numbers fit their types, as those of a
/// log in the code do.
pub fn log_history_is_read()
    ensures { (log : List Entry) → AreSeated log → AreEvents (events log) → length log < 2 ^ 64 →
        IsEventFile (recorded_file (recorded_in log)) (files.Recorded (recorded_in log)) }
{}

/// A file of either format says one thing.
pub fn one_event_file()
    ensures { (bytes : List ℕ) (a b : EventFile) → IsEventFile bytes a → IsEventFile bytes b → a ≡ b }
{}

/// No text is a file of both formats.
pub fn one_format()
    ensures { (bytes : List ℕ) (a : List Line) (b : List RecordedEvent) → IsFile IsLine line_text bytes a → ¬ IsRecordedFile bytes b }
{}

/// What has a line that is none of its format is an event file of neither format.
pub fn no_event_file_is_bad()
    ensures { (bytes : List ℕ) (a : EventFile) (n : ℕ) → IsEventFile bytes a → ¬ IsFileRefusal bytes (errors.BadLine n) }
{}

/// One line is the first that is none of its format, which the first line tells.
pub fn one_bad_file_line()
    ensures { (bytes : List ℕ) (m n : ℕ) → IsFileRefusal bytes (errors.BadLine m) → IsFileRefusal bytes (errors.BadLine n) → m ≡ n }
{}

/// The numbers of the lines of a file of format 1 that say something are those of what it says, one for each and in the same order: each is that of its
/// line, counted from 1, with the lines that are passed over.
pub fn lines_are_numbered()
    ensures { (bytes : List ℕ) (a : List Line) → (file : IsFile IsLine line_text bytes a) → AreNumbersOf 1 file.rows a (line_numbers bytes) }
{}

/// So are those of a plan.
pub fn plan_lines_are_numbered()
    ensures { (bytes : List ℕ) (a : List PlanLine) → (file : IsFile IsPlanLine plan_line_text bytes a) → AreNumbersOf 1 file.rows a (line_numbers bytes) }
{}

/// So are those of a file of format 2, behind the first line's, which says the format.
pub fn events_are_numbered()
    ensures { (bytes : List ℕ) (a : List RecordedEvent) → (file : IsRecordedFile bytes a) →
        (numbers : List ℕ) × (line_numbers bytes ≡ 1 ∷ numbers) × AreNumbersOf 2 file.2.rows a numbers }
{}
