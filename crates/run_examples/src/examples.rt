// Logs that no run on threads ends with.

ghost use Rattle.run_examples.specs.Examples.{BooksAreTrue, LimitsAreTrue, OpeningIsNotOver, OverIsTrue, PlansAreTrue, SeatsAreTrue};

/// By what the type of a board keeps, and how a run on threads ends: a log that is still the opening isn't that of a run that is over, whatever the plan
/// and the cluster; nor is one in which main's first job was given out, its worker died, and the job was never handed in; nor one in which an event was
/// refused 37. With at most 64 nodes at first, a log in which the first event is a tick, refused 37, and which ends there, is that of no run, though it has
/// an event that was refused so; and none with a join in it is that of a run at a limit beside a plan with no lines. A log with an event from a third seat is
/// that of no run on two threads, and to one with an event the empty books of two seats don't add up. Beside a plan with one line, a join behind the first
/// commit, no run that is over begins with the join.
pub fn examples()
    ensures over { OpeningIsNotOver }
    ensures limits { LimitsAreTrue }
    ensures ends { OverIsTrue }
    ensures seats { SeatsAreTrue }
    ensures books { BooksAreTrue }
    ensures plans { PlansAreTrue }
{}
