//! How the graphs of a placing are built: from what each two cells give.
ghost use Rattle.std.specs.Prelude.{ℕ, ◌<◌, MatchOption};
ghost use Rattle.graph.specs.Nodes.{most_nodes};
ghost use Rattle.placing.specs.Graphs.{Built};

use graph::Graph;

/// Two steps, each from a node to the next, or none.
pub(crate) type TwoSteps = Option<((usize, usize), (usize, usize))>;

/// The graph of so many nodes with the steps that `steps` gives for each two of `n` cells, and no others; `None` exactly where
/// so many nodes are too many.
// (a graph is two thousand bytes, and each call that hands one on as a value copies it: so the calls that do are hints to inline)
#[inline(always)]
pub(crate) fn graph_of<F: Fn(usize, usize) -> TwoSteps>(
    nodes: usize,
    n: usize,
    steps: F,
) -> Option<Graph>
    requires { (a b : ℕ) → a < n → b < n → F.pre steps a b }
    ensures { MatchOption result (most_nodes < nodes) (λ g. Built nodes (F.post steps) (λ a b. (a < n) × (b < n)) g) }
{
    let mut graph = Graph::new(nodes)?;
    for a in 0..n {
        for b in 0..n {
            if let Some(((v, u), (x, y))) = steps(a, b) {
                graph.link(v, u);
                graph.link(x, y);
            }
        }
    }
    Some(graph)
}
