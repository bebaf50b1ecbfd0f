//! The interface of every book.
ghost use Rattle.std.specs.Prelude.{◌≡◌, Ok, MatchResult};
ghost use Rattle.book.specs.Order.{Order, Laws, SameOrder, swapped};
ghost use Rattle.book.specs.Calls.{asked, of_cell, of_cells};
ghost use Rattle.book.specs.Counts.{Countable, BadCount};

use crate::relation::{MOST_CELLS, Relation};
use refusal::{FieldFault, SheetFault};

/// A book tells how its cells, numbered from 0, lie to one another.
///
/// What it means is one ghost member, the order; everything above a book is proved from that and the laws alone.
pub trait Book {
    ghost order: { Self → Order };

    /// How many cells there are.
    fn count(&self) -> usize
        ensures { result ≡ (order self.now).count };

    /// How `a` lies to `b`.
    fn relation(&self, a: usize, b: usize) -> Result<Relation, SheetFault>
        ensures { result ≡ asked (order self.now) a b };

    /// Exchanges the names `a` and `b` in every relation.
    fn swap(&mut self, a: usize, b: usize) -> Result<(), SheetFault>
        ensures answer { result ≡ of_cells (order self.old).count a b (Ok tt) }
        ensures meaning { MatchResult result (λ _. SameOrder (swapped a b (order self.old)) (order self.new)) (λ _. SameOrder (order self.old) (order self.new)) };

    ghost lawful: { (s : Self) → Laws (order s) };
}

/// Refuses a number that is no cell of `n`.
pub fn cell_within(n: usize, a: usize) -> Result<(), SheetFault>
    ensures { result ≡ of_cell n a (Ok tt) }
{
    if a >= n {
        return Err(SheetFault::NoSuchCell { cell: a });
    }
    Ok(())
}

/// Refuses the first of two numbers that is no cell of `n`.
pub fn within(n: usize, a: usize, b: usize) -> Result<(), SheetFault>
    ensures { result ≡ of_cells n a b (Ok tt) }
{
    cell_within(n, a)?;
    cell_within(n, b)
}

/// Refuses a number of cells that no book can have.
pub(crate) fn countable(n: usize) -> Result<(), SheetFault>
    ensures { MatchResult result (λ _. Countable n) (BadCount n) }
{
    if n == 0 || n > MOST_CELLS {
        return Err(SheetFault::Field(FieldFault::CellCount { at: 0, count: n }));
    }
    Ok(())
}
