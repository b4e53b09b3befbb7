// The text of a list is an event file.

ghost use Rattle.std.specs.Prelude.{List};
ghost use Rattle.event_log.specs.Entries.{Event};
ghost use Rattle.event_files.specs.Files.{IsFile};
ghost use Rattle.event_files.specs.Lines.{AreEvents, IsLine, line_text};
ghost use Rattle.faulted_history.specs.History.{event_list};
ghost use Rattle.fault_lists.specs.Lists.{event_lines};
ghost use Rattle.fault_lists.specs.Tables.{AreTold, list_file};
ghost use Rattle.fault_lists.specs.declared.tried.Tried.{Tried};

/// What is written of a list that was tried is an event file of format 1 that says its events, in their order, and behind them a settle, where the
/// numbers fit their types, as those of events in the code do.
pub fn lists_are_files()
    ensures { (events : List Event) (t : Tried) → AreEvents events → AreTold t →
        IsFile IsLine line_text (list_file events t) (event_lines (event_list events t.list)) }
{}
