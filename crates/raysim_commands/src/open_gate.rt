// The gate of the program.

use replay_laws::Gate;

/// Lets every job in at once.
#[derive(Clone, Copy, Debug, PartialEq, Eq)]
pub struct OpenGate;

impl Gate for OpenGate {
    fn enter(&self, _job: u64) {}
}
