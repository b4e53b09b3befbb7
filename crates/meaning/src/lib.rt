//! What a script means: the serial run, what a task does on answers, and the statements of the laws that tie them.
#![tactic(auto)]

pub mod examples;
