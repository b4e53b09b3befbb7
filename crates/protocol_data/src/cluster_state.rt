// The whole run, without its log.

use crate::job::JobRecord;
use crate::message::Envelope;
use crate::node::{Node, Outbox};
use crate::workers::Workers;
use boxed_value::Boxed;
use sequence::Seq;

/// Nodes and workers by number, the network, and the jobs that were given out.
#[derive(Drop)]
pub struct ClusterState {
    /// The slots of each node.
    pub slots: u32,
    /// By number, from 1 on, dead ones too.
    pub nodes: Seq<Boxed<Node>>,
    /// By number, from 1 on, dead ones too.
    pub workers: Workers,
    /// How many objects there are, main's own counted.
    pub made: u64,
    /// Every message that was ever sent, by number, from 1 on.
    pub network: Seq<Envelope>,
    /// Of each message, whether it was ever delivered.
    pub delivered: Seq<bool>,
    /// Every job that was ever given out, by number, from 1 on.
    pub jobs: Seq<JobRecord>,
}

/// A whole, and what was made on the way to it.
#[derive(Drop)]
pub struct Transition {
    pub whole: ClusterState,
    /// The entries and messages that were made, in order.
    pub out: Outbox,
}
