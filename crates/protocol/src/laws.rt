// What the functions on holders and plans mean.

ghost use Rattle.protocol.specs.Laws.{HeldMeans, PlanMeans};

/// An object is held exactly where somebody came to hold it, and wasn't removed.
pub fn held_means_that_somebody_holds_it()
    ensures { HeldMeans }
{}

/// The objects that are made again for a lost one are the least set that has it, and with each member those of its dereferenced arguments that are
/// the owner's own and lost; in birth order; and what stops them is the first of them that can't be made again.
pub fn plans_are_least_closed_sets()
    ensures { PlanMeans }
{}
