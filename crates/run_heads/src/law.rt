// The lines in front of a history that say of which run it is change nothing of what it says.

ghost use Rattle.std.specs.Prelude.{◌≡◌, ◌<◌, ◌^◌, ℕ, List};
ghost use Rattle.event_files.specs.declared.recorded.RecordedEvent.{RecordedEvent};
ghost use Rattle.event_files.specs.Recorded.{IsRecordedFile};
ghost use Rattle.run_heads.specs.Heads.{cluster_text, head_text, script_text, with_head};

/// A history with the lines that say of which run it is says the same events.
pub fn heads_are_passed()
    ensures { (nodes slots threads : ℕ) (script bytes : List ℕ) (events : List RecordedEvent) → nodes < 2 ^ 64 → slots < 2 ^ 64 → threads < 2 ^ 64 →
        IsRecordedFile bytes events → IsRecordedFile (with_head (head_text (cluster_text nodes slots) threads (script_text script)) bytes) events }
{}
