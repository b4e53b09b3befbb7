//! What a refusal means, and where in a script it stands.
#![tactic(auto)]

mod excerpt;
mod hint;
mod place;
mod reason;

pub use excerpt::Excerpt;
pub use hint::Hint;
pub use place::{Place, line_at, place_of};
pub use reason::RefusalCause;
