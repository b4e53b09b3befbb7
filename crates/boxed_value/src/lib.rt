//! A value behind a pointer, which contracts see as the value itself: to move one, or to exchange two, moves a word each.
#![tactic(auto)]

mod boxed;

pub use boxed::Boxed;
