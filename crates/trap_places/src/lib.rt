//! Where a script trapped, in its text, and on which numbers.
#![tactic(auto)]

mod excerpt;
mod operands;
mod text;

pub use text::spot_text;
