//! The heaviest paths of a graph.
ghost use Rattle.std.specs.Prelude.{◌≡◌, ℕ, ◌<◌, ◌≤◌, length, ◌≢◌, None, IfSome, IsSomeAnd, slice_index_or};
ghost use Rattle.graph.specs.Nodes.{Has, most_nodes};
ghost use Rattle.graph.specs.Heaviest.{dealt, Heaviest, Short, Light, Bounded};

use crate::graph::Graph;
use crate::node_set::NodeSet;
use length::Length;

impl Graph {
    /// Writes to `out`, for each node, the join of what the paths from it weigh, the node itself not counted.
    ///
    /// Where there are fewer weights than nodes, they are dealt out again from the first on. `None`, with `out` as it was,
    /// where there is no weight, or `out` has not as many entries as there are nodes. Also `None` where a path has more
    /// steps than there are nodes, or a sum passes the limit; `out` then has no meaning.
    pub fn heaviest<T: Length>(&self, weights: &[T], out: &mut [T]) -> Option<()>
        ensures found { IfSome result (λ _. Heaviest T.Length.kind self.now (dealt T.kind.zero weights.now) (λ v. slice_index_or out.new v T.kind.zero)) }
        ensures short { IfSome result (λ _. Short self.now) }
        ensures finishes { 0 < length weights.now → length out.old ≡ self.now.nodes → Short self.now → Light T.Length.kind self.now (dealt T.kind.zero weights.now) → IsSomeAnd result (λ _. Bounded T.Length.kind self.now (λ v. slice_index_or out.new v T.kind.zero)) }
        ensures refused { (0 < length weights.now → length out.old ≢ self.now.nodes) → (result ≡ None) × (out.new ≡ out.old) }
    {
        if weights.is_empty() || out.len() != self.nodes {
            return None;
        }
        let mut walk = Walk {
            graph: self,
            weights,
            out,
            done: NodeSet::empty(),
        };
        // the nodes are the numbers below their count
        for v in 0..self.nodes {
            if !walk.done.contains(v) {
                walk.settle(v, self.nodes)?;
            }
        }
        Some(())
    }
}

/// A search along the steps of a graph: at the nodes that are done, `out` has the join.
#[derive(Drop)]
struct Walk<'a, T> {
    graph: &'a Graph,
    weights: &'a [T],
    out: &'a mut [T],
    done: NodeSet,
    ghost weighted: { 0 < length weights.now },
    ghost long: { length out.now ≡ graph.now.nodes },
}

impl<T: Length> Walk<'_, T> {
    ghost use Rattle.std.specs.Prelude.{◌≡◌, ◌<◌, ◌≤◌, IfSome, IsSome};
    ghost use Rattle.graph.specs.Nodes.{Has, most_nodes};
    ghost use Rattle.graph.specs.Heaviest.{dealt, Light};
    ghost use Rattle.graph.specs.Settling.{Reach, SettledIn, GoneOn};

    /// What the node `u` weighs. (Nodes are asked for in any order, so the weights are dealt out by the number.)
    fn weight(&self, u: usize) -> T
        ensures { result ≡ dealt T.kind.zero self.now.weights.now u }
    {
        self.weights[u % self.weights.len()]
    }

    /// Writes to `out` the join at `v`, and before that at each node on a path from it, except for those that are done.
    ///
    /// `fuel` is how many steps the paths from `v` may have. `None` only where one has more, or a sum passes the limit.
    fn settle(&mut self, v: usize, fuel: usize) -> Option<()>
        requires inside { v < self.old.graph.now.nodes }
        requires few { fuel ≤ most_nodes }
        requires before { SettledIn T.Length.kind self.old }
        ensures on { GoneOn self.old self.new }
        ensures after { SettledIn T.Length.kind self.new }
        ensures reached { IfSome result (λ _. Has self.new.done v) }
        ensures finishes { Light T.Length.kind self.old.graph.now (dealt T.kind.zero self.old.weights.now) → Reach self.old.graph.now v fuel → IsSome result }
    {
        let mut left = self.graph.next[v];
        let mut most = T::zero();
        while let Some(u) = left.take_first() {
            if !self.done.contains(u) {
                self.settle(u, fuel.checked_sub(1)?)?;
            }
            most = most.join(self.out[u].plus(self.weight(u))?);
        }
        self.out[v] = most;
        self.done.insert(v);
        Some(())
    }
}
