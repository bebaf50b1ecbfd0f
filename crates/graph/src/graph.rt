//! A graph and its steps. (Its heaviest paths stand in `paths`.)
ghost use Rattle.std.specs.Prelude.{◌≡◌, ℕ, ◌<◌, ◌≤◌, length, slice_index_or};
ghost use Rattle.graph.specs.Nodes.{Has, none, most_nodes};

use crate::node_set::{MOST_NODES, NodeSet};

/// Nodes, which are the numbers below a count, and steps from one to the next: for each node the set of those that come
/// next after it.
// (an array and a count: a graph is a `Copy` value without a heap, as an `ArrayVec` is not)
#[derive(Clone, Copy)]
pub struct Graph {
    pub(crate) nodes: usize,
    pub(crate) next: [NodeSet; MOST_NODES],
    ghost few: { nodes ≤ most_nodes },
    ghost long: { length next ≡ most_nodes },
    ghost within: { (v u : ℕ) → Has (slice_index_or next v none) u → u < nodes },
}

impl Graph {
    ghost use Rattle.std.specs.Prelude.{◌≡◌, ◌<◌, ◌≤◌, Decides, MatchOption};
    ghost use Rattle.graph.specs.Nodes.{most_nodes};
    ghost use Rattle.graph.specs.Steps.{Step, Stepless, Linked};

    /// The graph of so many nodes that has no step; `None` exactly where they are more than `MOST_NODES`.
    pub fn new(nodes: usize) -> Option<Graph>
        ensures { MatchOption result (most_nodes < nodes) (λ g. (nodes ≤ most_nodes) × Stepless nodes g) }
    {
        if nodes > MOST_NODES {
            return None;
        }
        Some(Graph {
            nodes,
            next: [NodeSet::empty(); MOST_NODES],
        })
    }

    /// How many nodes there are.
    pub fn nodes(&self) -> usize
        ensures { result ≡ self.now.nodes }
    {
        self.nodes
    }

    /// Adds the step from `v` to `u`; where one of them is no node, nothing changes.
    pub fn link(&mut self, v: usize, u: usize)
        ensures { Linked self.old self.new v u }
    {
        if v < self.nodes && u < self.nodes {
            self.next[v].insert(u);
        }
    }

    /// Whether there is a step from `v` to `u`.
    pub fn has(&self, v: usize, u: usize) -> bool
        ensures { Decides result (Step self.now v u) }
    {
        v < self.nodes && self.next[v].contains(u)
    }
}
