//! Seats, and the ledgers that add up what their calls did: of all seats together, and of the watched one alone.
#![tactic(auto)]

mod account;
mod ledgers;
mod pots;
mod seat;
mod shares;
mod tally;
mod watching;

pub use account::Blanks;
pub use ledgers::Ledgers;
pub use seat::Seat;
pub use tally::Tally;
pub use watching::Watching;
