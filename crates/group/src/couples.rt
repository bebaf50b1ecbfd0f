//! The couple test: two cells of the group whose order contradicts that of their mates.
ghost use Rattle.std.specs.Prelude.{◌≡◌, ℕ, ◌<◌, ◌≤◌, Decides, MatchOption};
ghost use Rattle.placement.specs.Couples.{Forbidden, Clean, First};
ghost use Rattle.group.specs.Group.{sheet_of};

use crate::table::Group;
use book::{Book, is_above, is_left};

/// Are `x` and `y` a forbidden couple?
fn forbidden<B: Book>(book: &B, group: &Group, x: usize, y: usize) -> bool
    ensures { Decides result (Forbidden (sheet_of (B.Book.order book.now) group.now) x y) }
{
    let (Some(x_mate), Some(y_mate)) = (group.partner(x), group.partner(y)) else {
        return false;
    };
    if is_left(book, x, y) {
        return is_left(book, x_mate, y_mate);
    }
    is_above(book, x, y) && is_above(book, y_mate, x_mate)
}

/// The first forbidden couple of the sheet that the book and the group make up: the lowest first cell, then the lowest
/// second one.
pub fn first_forbidden<B: Book>(book: &B, group: &Group) -> Option<(usize, usize)>
    ensures { MatchOption result (Clean (sheet_of (B.Book.order book.now) group.now)) (λ p. First (sheet_of (B.Book.order book.now) group.now) p.0 p.1) }
{
    let n = book.count();
    // (cells, and no entries of a list; with `find`, which was tried, it is no shorter and a tenth slower)
    for x in 0..n {
        for y in 0..n {
            if forbidden(book, group, x, y) {
                return Some((x, y));
            }
        }
    }
    None
}
