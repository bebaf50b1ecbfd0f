//! All values of the rule: left edges, bottoms, the half-span and the depth.
ghost use Rattle.std.specs.Prelude.{◌≡◌, MatchOption};
ghost use Rattle.placement.specs.Couples.{Clean};
ghost use Rattle.placement.specs.Placements.{Sizes};
ghost use Rattle.group.specs.Arranged.{meaning_of, count_of};
ghost use Rattle.placing.specs.Placing.{Fitting, GivenIn, five};
ghost use Rattle.placing.specs.Sizes.{entries};

use crate::across::chains;
use crate::downward::bottoms;
use crate::edges::left_edges;
use book::Book;
use group::Arrangement;
use length::Length;

/// How far a placement reaches: half of its span, and its depth.
#[derive(Clone, Copy, PartialEq, Eq, Debug)]
pub struct Extent<T> {
    pub half_span: T,
    pub depth: T,
}

/// Writes the values of the rule: to `work` what stands before each cell and then what stands after each, to `x` the left
/// edges, to `y` the bottoms; and answers the extent. Always `Some` where no couple is forbidden and the sizes are lawful.
pub(crate) fn give<B: Book, T: Length>(
    cells: &Arrangement<B>,
    widths: &[T],
    heights: &[T],
    work: &mut [T],
    x: &mut [T],
    y: &mut [T],
) -> Option<Extent<T>>
    requires { Fitting (count_of cells.now) (five widths.now heights.now work.old x.old y.old) }
    ensures { MatchOption result (Clean (meaning_of cells.now) → Sizes T.Length.kind (meaning_of cells.now) (entries T.kind widths.now) (entries T.kind heights.now) → ⊥) (λ e. GivenIn T.Length.kind (meaning_of cells.now) (five widths.now heights.now work.new x.new y.new) e) }
{
    let depth = bottoms(cells, heights, y)?;
    let longest = chains(cells, widths, work, x)?;
    let half_span = longest.upper_half();
    left_edges(cells, widths, work, half_span, x)?;
    Some(Extent { half_span, depth })
}
