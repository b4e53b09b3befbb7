//! What a log's objects are made of, as a graph for Graphviz.
#![tactic(auto)]

mod attempts;
mod births;
mod edges;
mod entries;
mod text;

pub use text::lineage_text;
