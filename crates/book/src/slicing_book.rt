//! The slicing book: filling, questions, swaps.
ghost use Rattle.std.specs.Prelude.{◌≡◌, MatchResult};
ghost use Rattle.book.specs.Sequence.{sequence_order};
ghost use Rattle.book.specs.Slicing.{Expression, NoExpression, ExpressionNeverRefused, BesideEarlierIsLeft, StackedLaterIsAbove};
ghost use Rattle.std.proofs.Common.{rules};

use crate::book::{Book, countable};
use crate::relation::Relation;
use crate::sequence_pair::SequencePair;
use crate::slicing::read_expression;
use refusal::SheetFault;

/// A book of parts joined in twos, side by side or one above the other, until one part has every cell.
///
/// It holds the sequence-pair that this amounts to, so that a question and a swap take constant time.
#[derive(Clone, Copy)]
pub struct Slicing {
    pair: SequencePair,
}

impl Slicing {
    /// The book of `n` cells that the expression builds: a number below `n` is a cell, `n` joins the last two waiting
    /// parts side by side, the earlier one left, and `n` + 1 stacks them, the later one above.
    pub fn new(n: usize, expression: &[usize]) -> Result<Slicing, SheetFault>
        ensures { MatchResult result (λ s. Expression n expression.now (sequence_order s.pair)) (λ f. NoExpression n expression.now f) }
    {
        countable(n)?;
        if expression.len() != 2 * n - 1 {
            return Err(SheetFault::ListLength { list: 1 });
        }
        let rows = read_expression(n, expression)?;
        let pair = SequencePair::new(n, &rows.first, &rows.second)?;
        Ok(Slicing { pair })
    }

    /// Fills this book anew; refused, it stays as it stood.
    pub fn fill(&mut self, n: usize, expression: &[usize]) -> Result<(), SheetFault>
        ensures { MatchResult result (λ _. Expression n expression.now (sequence_order self.new.pair)) (λ f. NoExpression n expression.now f × (self.new ≡ self.old)) }
    {
        *self = Slicing::new(n, expression)?;
        Ok(())
    }
}

impl Book for Slicing {
    ghost order = { λ s. sequence_order s.pair };

    ghost lawful = { Prim.search rules };

    fn count(&self) -> usize {
        self.pair.count()
    }

    fn relation(&self, a: usize, b: usize) -> Result<Relation, SheetFault> {
        self.pair.relation(a, b)
    }

    fn swap(&mut self, a: usize, b: usize) -> Result<(), SheetFault> {
        self.pair.swap(a, b)
    }
}

/// What means a lawful order is never refused: `new` refuses nothing else than what makes no book.
pub fn expression_never_refused()
    ensures { ExpressionNeverRefused }
{}

/// Side by side, the earlier part is left of the later, cell for cell.
pub fn beside_earlier_is_left()
    ensures { BesideEarlierIsLeft }
{}

/// Stacked, the later part is above the earlier, cell for cell.
pub fn stacked_later_is_above()
    ensures { StackedLaterIsAbove }
{}
