//! The layers over any book: each turns every relation that the book under it tells.
ghost use Rattle.std.specs.Prelude.{◌≡◌};
ghost use Rattle.book.specs.declared.relation.Relation.{Relation};
ghost use Rattle.book.specs.Order.{SameOrder};
ghost use Rattle.book.specs.Turns.{transpose, flip, turned};
ghost use Rattle.book.specs.Turned.{Turn, turned_laws, transpose_turn, flip_turn};

use crate::book::Book;
use crate::relation::Relation;
use refusal::SheetFault;
use std::marker::PhantomData;

/// A way to turn a book: what becomes of each relation.
///
/// It keeps the four relations, undoes itself, and turns opposites into opposites, so a turned book is a book.
pub trait Turning {
    ghost turn: { Relation → Relation };

    /// The relation, turned.
    fn turned(relation: Relation) -> Relation
        ensures { result ≡ turn relation };

    ghost lawful: { Turn turn };
}

/// About the diagonal: left becomes below, and above becomes right.
#[derive(Clone, Copy)]
pub struct Diagonal;

impl Turning for Diagonal {
    ghost turn = { transpose };

    ghost lawful = { transpose_turn };

    fn turned(relation: Relation) -> Relation {
        match relation {
            Relation::Left => Relation::Below,
            Relation::Right => Relation::Above,
            Relation::Above => Relation::Right,
            Relation::Below => Relation::Left,
        }
    }
}

/// In a mirror: left and right are exchanged.
#[derive(Clone, Copy)]
pub struct Mirror;

impl Turning for Mirror {
    ghost turn = { flip };

    ghost lawful = { flip_turn };

    fn turned(relation: Relation) -> Relation {
        match relation {
            Relation::Left => Relation::Right,
            Relation::Right => Relation::Left,
            Relation::Above => Relation::Above,
            Relation::Below => Relation::Below,
        }
    }
}

/// A layer: the book under it, every relation turned.
#[derive(Clone, Copy, Drop)]
pub struct Turned<T, B> {
    book: B,
    turn: PhantomData<T>,
}

/// A book turned about its diagonal: a cell is left of those that it is below of in the book under it, and above those
/// that are left of it there.
pub type Transposed<B> = Turned<Diagonal, B>;

/// A book seen in a mirror: left and right are exchanged.
pub type Flipped<B> = Turned<Mirror, B>;

impl<T: Turning, B: Book> Turned<T, B> {
    /// The book, turned.
    pub fn new(book: B) -> Turned<T, B>
        ensures { result.book ≡ book }
    {
        Turned {
            book,
            turn: PhantomData,
        }
    }

    /// The book under the layer, with every swap made through it.
    pub fn into_inner(self) -> B
        ensures { result ≡ self.book }
    {
        let Turned { book, turn: _ } = self;
        book
    }
}

impl<T: Turning, B: Book> Book for Turned<T, B> {
    ghost order = { λ s. turned T.turn (B.Book.order s.book) };

    ghost lawful = { λ s. turned_laws T.lawful (B.Book.order s.book) (B.Book.lawful s.book) };

    fn count(&self) -> usize {
        self.book.count()
    }

    fn relation(&self, a: usize, b: usize) -> Result<Relation, SheetFault> {
        Ok(T::turned(self.book.relation(a, b)?))
    }

    fn swap(&mut self, a: usize, b: usize) -> Result<(), SheetFault> {
        self.book.swap(a, b)
    }
}

/// Turning twice the same way means the same book.
pub fn turned_twice<T: Turning, B: Book>(book: B) -> Turned<T, Turned<T, B>>
    ensures { SameOrder (B.Book.order book) (turned T.turn (turned T.turn (B.Book.order result.book.book))) }
{
    Turned::new(Turned::new(book))
}
