//! Graphs of at most 128 nodes, and the heaviest paths in one without loops.
#![tactic(auto)]

mod graph;
mod node_set;
mod paths;

pub use graph::Graph;
pub use node_set::{MOST_NODES, NodeSet};
