//! What the program's commands are called with, by what the words of the command line ask for.
#![tactic(auto)]

mod call;
mod forms;
mod names;
mod requests;

pub use call::{Call, CallFault, DriveCall, FaultsCall, ReplayCall, ThreadsCall, View, Views};
pub use requests::call_of;
