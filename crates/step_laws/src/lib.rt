//! Laws of the steps by themselves: items by number, how many workers an event opens, what comes of it at a limit, and a cursor into the messages.
#![tactic(auto)]

pub mod law;
