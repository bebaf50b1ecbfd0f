//! The table of partners. (What is done with it stands in `edits` and `couples`.)
ghost use Rattle.std.specs.Prelude.{◌≡◌, ℕ, ◌<◌, ◌≤◌, length};
ghost use Rattle.book.specs.Order.{most_cells};
ghost use Rattle.group.specs.Partners.{Inside, Returned};

use book::MOST_CELLS;

/// A symmetry group over so many cells: the partner of each cell, which is the other of its pair, the cell itself where
/// it is centred, or none where it is free. Partners are partners of each other.
// (An array and a count, without a heap: a group is a plain value that is copied and needs no memory.)
#[derive(Clone, Copy)]
pub struct Group {
    pub(crate) count: usize,
    pub(crate) partner: [Option<u8>; MOST_CELLS],
    ghost few: { count ≤ most_cells },
    ghost long: { length partner ≡ most_cells },
    ghost inside: { Inside count partner },
    ghost returned: { Returned partner },
}
