//! The two questions that placing asks of any book.
ghost use Rattle.std.specs.Prelude.{◌≡◌, Decides};
ghost use Rattle.book.specs.Order.{LeftOf, AboveOf};

use crate::book::Book;
use crate::relation::Relation;

/// Is `a` left of `b`? (No, where they are not two different cells.)
pub fn is_left<B: Book>(book: &B, a: usize, b: usize) -> bool
    ensures { Decides result (LeftOf (B.Book.order book.now) a b) }
{
    matches!(book.relation(a, b), Ok(Relation::Left))
}

/// Is `a` above `b`? (No, where they are not two different cells.)
pub fn is_above<B: Book>(book: &B, a: usize, b: usize) -> bool
    ensures { Decides result (AboveOf (B.Book.order book.now) a b) }
{
    matches!(book.relation(a, b), Ok(Relation::Above))
}
