//! The heaviest paths of a graph, and how far they reach.
ghost use Rattle.std.specs.Prelude.{◌≡◌, ℕ, ◌+◌, ◌<◌, length, get_or, IsSomeAnd, IfSome, MatchOption, slice_index_or};
ghost use Rattle.length.specs.Kind.{sum_limit};
ghost use Rattle.length.specs.Join.{IsJoin};
ghost use Rattle.graph.specs.Heaviest.{dealt, Short, Light, Bounded};
ghost use Rattle.placing.specs.Reach.{Reached};

use graph::Graph;
use length::Length;

/// The least length that every start, with its size added, is at most; `None` only where such a sum passes the limit.
/// Where there are fewer sizes than starts, they are dealt out again from the first on.
fn farthest_end<T: Length>(starts: &[T], sizes: &[T]) -> Option<T>
    requires { 0 < length sizes.now }
    ensures { MatchOption result ((u : ℕ) × (u < length starts.now) × (sum_limit < T.kind.measure (slice_index_or starts.now u T.kind.zero) + T.kind.measure (dealt T.kind.zero sizes.now u))) (λ t. IsJoin T.Length.kind (λ u. u < length starts.now) (λ u. T.kind.plus (slice_index_or starts.now u T.kind.zero) (dealt T.kind.zero sizes.now u)) t) }
{
    let mut end = T::zero();
    for (start, size) in starts.iter().zip(sizes.iter().cycle()) {
        end = end.join(start.plus(*size)?);
    }
    Some(end)
}

/// Writes the heaviest path from each node to `values`, and answers the join of what each weighs with its node. Always
/// `Some` where no path is longer than the nodes are many and no node heavier than the largest size.
pub(crate) fn reach<T: Length>(graph: &Graph, weights: &[T], values: &mut [T]) -> Option<T>
    requires weighted { 0 < length weights.now }
    requires long { length values.old ≡ graph.now.nodes }
    ensures found { IfSome result (λ d. Reached T.Length.kind graph.now (dealt T.kind.zero weights.now) (λ u. get_or values.new u T.kind.zero) d) }
    ensures finishes { Short graph.now → Light T.Length.kind graph.now (dealt T.kind.zero weights.now) → IsSomeAnd result (λ _. Bounded T.Length.kind graph.now (λ u. get_or values.new u T.kind.zero)) }
{
    graph.heaviest(weights, values)?;
    farthest_end(values, weights)
}
