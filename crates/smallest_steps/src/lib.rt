//! Whatever the smallest steps of a worker keep, each of its steps keeps: an induction over the steps of the protocol.
#![tactic(auto)]
