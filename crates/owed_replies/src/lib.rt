//! Each message its due reply: who is told what, in which event.
#![tactic(auto)]

pub mod law;
