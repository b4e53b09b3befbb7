//! A run's history with one fault more: which fault stands where, and the events that they are together.
#![tactic(auto)]

mod fault_list;

pub use fault_list::{FaultList, event_list};
