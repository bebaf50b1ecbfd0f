//! What stands before and after each cell, and the longest chain: the heaviest paths of the graph in which each node, a
//! cell or an image, steps to those that precede it.
ghost use Rattle.std.specs.Prelude.{◌≡◌, ℕ, ◌+◌, ◌*◌, ◌<◌, length, IsSomeAnd, IfSome, MatchOption};
ghost use Rattle.placement.specs.Couples.{Clean};
ghost use Rattle.group.specs.Group.{mate_of};
ghost use Rattle.group.specs.Arranged.{meaning_of, count_of};
ghost use Rattle.placing.specs.Codes.{image_of, mirrored};
ghost use Rattle.placing.specs.Graphs.{Sides, AcrossFrom};
ghost use Rattle.placing.specs.Sizes.{entries};
ghost use Rattle.placing.specs.Values.{AllSizes, GivenAcross, GivenNodes, SmallAcross};

use crate::graphs::{TwoSteps, graph_of};
use crate::reach::reach;
use book::{Book, is_left};
use graph::Graph;
use group::{Arrangement, Group};
use length::Length;

/// The number of the image of `a`: its mate, or for a free cell a number past all cells.
fn image_number(group: &Group, a: usize) -> usize
    requires { a < group.now.count }
    ensures value { result ≡ image_of group.now.count a (mate_of group.now a) }
    ensures node { result < 2 * group.now.count }
{
    group.partner(a).unwrap_or(group.count() + a)
}

/// For `a` left of `b`, the steps from `b` to `a`, and from the image of `a` to that of `b`; else none.
fn steps_across<B: Book>(cells: &Arrangement<B>, a: usize, b: usize) -> TwoSteps
    ensures { AcrossFrom (meaning_of cells.now) a b result }
{
    if !is_left(cells.book, a, b) {
        return None;
    }
    let from = image_number(cells.group, a);
    let to = image_number(cells.group, b);
    Some(((b, a), (from, to)))
}

/// The graph of the nodes with steps to those that precede each; never `None`, since so many nodes are not too many.
#[inline(always)]
fn sides<B: Book>(cells: &Arrangement<B>) -> Option<Graph>
    ensures { MatchOption result ⊥ (λ g. Sides (meaning_of cells.now) g) }
{
    let n = cells.book.count();
    graph_of(2 * n, n, |a, b| steps_across(cells, a, b))
}

/// Writes for each node the join of the chains into it, and answers the longest chain. An image is as wide as its cell, so
/// the widths are dealt out again.
fn node_values<B: Book, T: Length>(
    cells: &Arrangement<B>,
    widths: &[T],
    values: &mut [T],
) -> Option<T>
    // (how long lent slices are is a fact between parameters, and no type has it)
    requires widths { length widths.now ≡ count_of cells.now }
    requires values { length values.old ≡ 2 * count_of cells.now }
    ensures found { IfSome result (λ d. GivenNodes T.Length.kind (meaning_of cells.now) (entries T.kind widths.now) (entries T.kind values.new) d) }
    ensures finishes { Clean (meaning_of cells.now) → AllSizes T.Length.kind (meaning_of cells.now) (entries T.kind widths.now) → IsSomeAnd result (λ d. SmallAcross T.Length.kind (meaning_of cells.now) (2 * count_of cells.now) (entries T.kind values.new) d) }
{
    let graph = sides(cells)?;
    reach(&graph, widths, values)
}

/// Gives each group cell, among the images, the value of its mate; a free cell's image keeps its own.
fn mirror_images<T: Length>(group: &Group, values: &[T], images: &mut [T])
    requires values { length values.now ≡ group.now.count }
    requires images { length images.old ≡ group.now.count }
    ensures { (a : ℕ) → a < group.now.count → entries T.kind images.new a ≡ mirrored (entries T.kind images.old a) (entries T.kind values.now) (mate_of group.now a) }
{
    for (a, image) in images.iter_mut().enumerate() {
        if let Some(mate) = group.partner(a) {
            *image = values[mate];
        }
    }
}

/// Writes the work list: what stands before each cell, and then what stands after each; and answers the longest chain.
/// Always `Some` where no couple is forbidden and all widths are sizes, and then of a measure that bounds later sums.
///
/// `room` is for one length a cell; what it has afterwards means nothing.
pub(crate) fn chains<B: Book, T: Length>(
    cells: &Arrangement<B>,
    widths: &[T],
    work: &mut [T],
    room: &mut [T],
) -> Option<T>
    requires widths { length widths.now ≡ count_of cells.now }
    requires work { length work.old ≡ 2 * count_of cells.now }
    requires room { length room.old ≡ count_of cells.now }
    ensures found { IfSome result (λ d. GivenAcross T.Length.kind (meaning_of cells.now) (entries T.kind widths.now) (entries T.kind work.new) (λ a. entries T.kind work.new (count_of cells.now + a)) d) }
    ensures finishes { Clean (meaning_of cells.now) → AllSizes T.Length.kind (meaning_of cells.now) (entries T.kind widths.now) → IsSomeAnd result (λ d. SmallAcross T.Length.kind (meaning_of cells.now) (count_of cells.now) (entries T.kind work.new) d) }
{
    let n = cells.book.count();
    let longest = node_values(cells, widths, work)?;
    // the images are written while the cells are read, so these stand elsewhere meanwhile
    room.copy_from_slice(&work[0..n]);
    mirror_images(cells.group, room, &mut work[n..]);
    Some(longest)
}
