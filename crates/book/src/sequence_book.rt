//! The sequence-pair as a book: filling, questions, swaps.
ghost use Rattle.std.specs.Prelude.{◌≡◌, ◌≤◌, length, MatchResult};
ghost use Rattle.book.specs.Order.{most_cells};
ghost use Rattle.book.specs.Rows.{Rows, NoRows};
ghost use Rattle.book.specs.Sequence.{sequence_order, Inverse, BreaksAt};
ghost use Rattle.std.proofs.Common.{rules};

use crate::book::{Book, countable, within};
use crate::relation::{MOST_CELLS, Relation};
use crate::sequence_pair::SequencePair;
use refusal::{FieldFault, SheetFault};

/// The place of each cell of a row; `list` is the row's place among the order's lists.
fn places_of(n: usize, list: usize, row: &[usize]) -> Result<[u8; MOST_CELLS], FieldFault>
    requires few { n ≤ most_cells }
    requires long { length row.now ≡ n }
    ensures { MatchResult result (λ places. Inverse n row.now places) (λ f. BreaksAt n list row.now f) }
{
    let mut places = [0; MOST_CELLS];
    // (which cells came: a table, since to search the row so far for each of its cells costs a step for each two of them)
    let mut came = [false; MOST_CELLS];
    for (i, cell) in row.iter().enumerate() {
        if *cell >= n || came[*cell] {
            return Err(FieldFault::Order {
                at: 0,
                list,
                place: i,
            });
        }
        came[*cell] = true;
        places[*cell] = i as u8;
    }
    Ok(places)
}

impl SequencePair {
    /// The book of `n` cells with these two rows, from left to right and top to bottom.
    pub fn new(n: usize, first: &[usize], second: &[usize]) -> Result<SequencePair, SheetFault>
        ensures { MatchResult result (λ s. Rows n first.now second.now (sequence_order s)) (λ f. NoRows n first.now second.now f) }
    {
        countable(n)?;
        if first.len() != n {
            return Err(SheetFault::ListLength { list: 1 });
        }
        if second.len() != n {
            return Err(SheetFault::ListLength { list: 2 });
        }
        let first = places_of(n, 1, first)?;
        let second = places_of(n, 2, second)?;
        Ok(SequencePair {
            count: n,
            first,
            second,
        })
    }

    /// Fills this book anew; refused, it stays as it stood.
    pub fn fill(&mut self, n: usize, first: &[usize], second: &[usize]) -> Result<(), SheetFault>
        ensures { MatchResult result (λ _. Rows n first.now second.now (sequence_order self.new)) (λ f. NoRows n first.now second.now f × (self.new ≡ self.old)) }
    {
        *self = SequencePair::new(n, first, second)?;
        Ok(())
    }
}

impl Book for SequencePair {
    ghost order = { sequence_order };

    ghost lawful = { Prim.search rules };

    fn count(&self) -> usize {
        self.count
    }

    fn relation(&self, a: usize, b: usize) -> Result<Relation, SheetFault> {
        within(self.count, a, b)?;
        if a == b {
            return Err(SheetFault::SameCell { cell: a });
        }
        let earlier_in_first = self.first[a] < self.first[b];
        let earlier_in_second = self.second[a] < self.second[b];
        Ok(match (earlier_in_first, earlier_in_second) {
            (true, true) => Relation::Left,
            (true, false) => Relation::Above,
            (false, true) => Relation::Below,
            (false, false) => Relation::Right,
        })
    }

    fn swap(&mut self, a: usize, b: usize) -> Result<(), SheetFault> {
        within(self.count, a, b)?;
        self.first.swap(a, b);
        self.second.swap(a, b);
        Ok(())
    }
}
