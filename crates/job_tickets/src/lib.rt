//! Tickets for what was given out: of each there is one, and whoever hands it back shows that it was given out and wasn't handed back before.
#![tactic(auto)]

mod law;
mod name;
mod tickets;

pub use name::TicketName;
pub use tickets::{OpenedTickets, Ticket, Tickets};
