//! The placing of a sheet: its checks, then the values of the rule.
ghost use Rattle.std.specs.Prelude.{◌≡◌};
ghost use Rattle.placement.specs.Couples.{Clean};
ghost use Rattle.group.specs.Group.{sheet_of};
ghost use Rattle.placing.specs.Placing.{Placing, five};

use crate::sizes::{check_lists, check_sizes};
use crate::values::{Extent, give};
use book::Book;
use group::{Arrangement, Group, first_forbidden};
use length::Length;
use placement::{rule_is_best, rule_places};
use refusal::SheetFault;

/// Places the sheet that the book and the group make up: fills the work list and the lists of left and bottom edges.
///
/// Where the group is over the book's cells and no couple is forbidden, it refuses nothing but lists of the wrong length
/// and unlawful sizes.
// (Five slices, and no struct that lends them, which was tried: a clause sees what such a struct hands back as nested pairs, and
// would say less plainly what each list holds before and after.)
pub fn place<B: Book, T: Length>(
    book: &B,
    group: &Group,
    widths: &[T],
    heights: &[T],
    work: &mut [T],
    x: &mut [T],
    y: &mut [T],
) -> Result<Extent<T>, SheetFault>
    ensures { group.now.count ≡ (B.Book.order book.now).count → Clean (sheet_of (B.Book.order book.now) group.now) → Placing T.Length.kind (sheet_of (B.Book.order book.now) group.now) (five widths.now heights.now work.old x.old y.old) (five widths.now heights.now work.new x.new y.new) result }
{
    let n = group.count();
    check_lists(n, widths.len(), heights.len(), work.len(), x.len(), y.len())?;
    check_sizes(group, widths, heights)?;
    rule_places::<T>();
    rule_is_best::<T>();
    if book.count() == n {
        let cells = Arrangement { book, group };
        if let Some(extent) = give(&cells, widths, heights, work, x, y) {
            return Ok(extent);
        }
    }
    // (no couple, where the group is over other cells: with the book it makes up no sheet)
    let (first, second) = first_forbidden(book, group).unwrap_or((0, 0));
    Err(SheetFault::Unplaceable { first, second })
}
