// How jobs of one attempt follow each other.

ghost use Rattle.segment.specs.Growth.{ReplaysGrow};

/// What a task bore and printed on its answers stays as it was when further answers come in: it is the beginning of what
/// the task bears and prints on all of them.
pub fn replays_grow()
    ensures { ReplaysGrow }
{}
