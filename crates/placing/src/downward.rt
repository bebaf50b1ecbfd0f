//! The bottoms and the depth: the heaviest paths of the graph in which each cell steps to those under it.
ghost use Rattle.std.specs.Prelude.{◌≡◌, length, MatchOption};
ghost use Rattle.placement.specs.Couples.{Clean};
ghost use Rattle.group.specs.Arranged.{meaning_of, count_of};
ghost use Rattle.placing.specs.Graphs.{Falls, DownFrom};
ghost use Rattle.placing.specs.Sizes.{entries};
ghost use Rattle.placing.specs.Values.{AllSizes, GivenDown};

use crate::graphs::{TwoSteps, graph_of};
use crate::reach::reach;
use book::{Book, is_above};
use graph::Graph;
use group::Arrangement;
use length::Length;

/// For `a` above `b`, the steps to `b` from `a` and from its mate; else none.
fn steps_down<B: Book>(cells: &Arrangement<B>, a: usize, b: usize) -> TwoSteps
    ensures { DownFrom (meaning_of cells.now) a b result }
{
    if !is_above(cells.book, a, b) {
        return None;
    }
    // (of a free cell the same step twice)
    let mate = cells.group.partner(a).unwrap_or(a);
    Some(((a, b), (mate, b)))
}

/// The graph of the cells with steps to those under each; never `None`, since so many nodes are not too many.
#[inline(always)]
fn falls<B: Book>(cells: &Arrangement<B>) -> Option<Graph>
    ensures { MatchOption result ⊥ (λ g. Falls (meaning_of cells.now) g) }
{
    let n = cells.book.count();
    graph_of(n, n, |a, b| steps_down(cells, a, b))
}

/// Writes the bottoms to `y`, and answers the depth; always `Some` where no couple is forbidden and all heights are sizes.
pub(crate) fn bottoms<B: Book, T: Length>(
    cells: &Arrangement<B>,
    heights: &[T],
    y: &mut [T],
) -> Option<T>
    requires heights { length heights.now ≡ count_of cells.now }
    requires y { length y.old ≡ count_of cells.now }
    ensures { MatchOption result (Clean (meaning_of cells.now) → AllSizes T.Length.kind (meaning_of cells.now) (entries T.kind heights.now) → ⊥) (λ d. GivenDown T.Length.kind (meaning_of cells.now) (entries T.kind heights.now) (entries T.kind y.new) d) }
{
    let graph = falls(cells)?;
    reach(&graph, heights, y)
}
