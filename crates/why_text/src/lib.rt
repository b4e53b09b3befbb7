//! Why an object of a log is as it is, in sentences.
#![tactic(auto)]

mod account;
mod acts;
mod again;
mod causes;
mod entries;
mod events;
mod holders;
mod moments;
mod notes;
mod results;
mod runs;
mod ways;

pub use acts::{write_accepted, write_began, write_ended, write_faulted, write_given_up};
pub use again::{runner_of, write_again};
pub use causes::{Lack, main_lack, why_text, write_main_lack};
pub use events::{write_copies, write_dead_node, write_node_notice, write_notice};
pub use holders::death_of;
pub use moments::{Moment, write_when};
pub use results::objects_of;
pub use runs::{has_ended, is_killed_in, is_node};
