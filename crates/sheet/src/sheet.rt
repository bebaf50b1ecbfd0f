//! The sheet: what it holds, and how it is made.
ghost use Rattle.std.specs.Prelude.{◌≡◌};
ghost use Rattle.sheet.specs.Sheets.{Sound, SameSheet};
ghost use Rattle.sheet.specs.Edits.{fresh};
ghost use Rattle.group.specs.Group.{sheet_of};

use book::Book;
use group::Group;

/// A book, and a symmetry group over its cells of which no couple is forbidden: every sheet is sound.
#[derive(Drop)]
pub struct Sheet<B: Book> {
    pub(crate) book: B,
    pub(crate) group: Group,
    ghost sound: { Sound (B.Book.order book) group },
}

impl<B: Book> Sheet<B> {
    /// The sheet of a book, with its relations and an empty group.
    pub fn new(book: B) -> Sheet<B>
        ensures fresh { SameSheet (fresh (B.Book.order book)) (sheet_of (B.Book.order result.book) result.group) }
        ensures holds { result.book ≡ book }
    {
        let group = Group::new(&book);
        Sheet { book, group }
    }
}

/// Every sheet is sound: its group is over the book's cells, and no couple is forbidden.
pub fn every_sheet_is_sound<B: Book>(sheet: &Sheet<B>)
    ensures { Sound (B.Book.order sheet.now.book) sheet.now.group }
{}
