//! Values as a report has them, but for long lists, which are cut.
#![tactic(auto)]

mod cut;

pub use cut::write_cut;
