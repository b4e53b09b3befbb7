//! What is owed of asks and slots, and paid: a task that is born is asked for, an Elsewhere is followed, a Give begins its attempt; and a slot is
//! had only by whoever has a use for it.
#![tactic(auto)]

pub mod law;
