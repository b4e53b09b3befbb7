//! Worked logs: legal ones, written from the rules, and such as have one wrong entry; and what logs say of tasks of several results.
#![tactic(auto)]

pub mod examples;
pub mod several;
