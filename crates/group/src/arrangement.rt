//! A book and a group over its cells, lent together.
ghost use Rattle.std.specs.Prelude.{◌≡◌};

use crate::table::Group;
use book::Book;

/// The cells of a book and a symmetry group over them, lent together: what a placing is asked of.
#[derive(Drop)]
pub struct Arrangement<'a, B: Book> {
    pub book: &'a B,
    pub group: &'a Group,
    pub ghost counted: { group.now.count ≡ (B.Book.order book.now).count },
}
