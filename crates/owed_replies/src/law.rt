// Ends are reported, and asks for locations, Holds and Finished are answered, in the event that calls for it.

ghost use Rattle.owed_replies.specs.Law.{EventsKeepReplies, LawOfEnds, LawOfReplies, OpeningKeepsReplies};

/// A run begins with nothing owed: nothing was sent, and main goes on.
pub fn opening_keeps_replies()
    ensures { OpeningKeepsReplies }
{}

/// Every event keeps what replies need, accepted or refused: what was sent went to whom it should, and speaks of what was born; a stopped attempt
/// is over as soon as none of its Holds waits, and then its owner was told; and whoever asked for an object is kept in mind until it is answered.
pub fn events_keep_replies()
    ensures { EventsKeepReplies }
{}

/// As long as nothing was killed or lost: an attempt that ended was reported to its owner, unless some of its Holds wait.
pub fn law_of_ends()
    ensures { LawOfEnds }
{}

/// As long as nothing was killed or lost, in the event that calls for it: whoever asks for what is there, or missed a copy, is told the locations; at
/// the acceptance everyone who asked before is told them, and the owner's own attempt, if it waits, gets the content or fetches it; a worker that waits
/// uses the locations that reach it; a Hold and a Finished are acknowledged, and the first Finished is accepted.
pub fn law_of_replies()
    ensures { LawOfReplies }
{}
