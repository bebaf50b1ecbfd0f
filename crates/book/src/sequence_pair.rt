//! The sequence-pair: what it holds. (How it is filled and read stands in `sequence_book`.)
ghost use Rattle.std.specs.Prelude.{◌≤◌};
ghost use Rattle.book.specs.Order.{most_cells};
ghost use Rattle.book.specs.Places.{Places};

use crate::relation::MOST_CELLS;

/// A book of two rows, each with every cell once: a cell is left of those that it comes before in both rows, and above
/// those that it comes before in the first and after in the second.
///
/// It holds the rows the other way round, as the place of each cell, so that a question takes constant time and a swap
/// only exchanges places.
#[derive(Clone, Copy)]
pub struct SequencePair {
    pub(crate) count: usize,
    // Plain arrays with one count, since a book is a `Copy` value, as an `ArrayVec` is not; and two tables, not one of
    // pairs, since each row is read, and refused, by itself.
    pub(crate) first: [u8; MOST_CELLS],
    pub(crate) second: [u8; MOST_CELLS],
    ghost some: { 1 ≤ count },
    ghost few: { count ≤ most_cells },
    ghost first_row: { Places count first },
    ghost second_row: { Places count second },
}
