//! Questions to a sheet: none changes it.
ghost use Rattle.std.specs.Prelude.{◌≡◌, Ok, Err, Decides};
ghost use Rattle.book.specs.Calls.{asked};
ghost use Rattle.group.specs.Group.{sheet_of};
ghost use Rattle.sheet.specs.Alike.{AlikeSheets, partner_of};

use crate::sheet::Sheet;
use book::{Book, Relation, cell_within};
use refusal::SheetFault;

impl<B: Book> Sheet<B> {
    /// How many cells there are.
    pub fn count(&self) -> usize
        ensures { result ≡ (B.Book.order self.now.book).count }
    {
        self.book.count()
    }

    /// How `a` lies to `b`.
    pub fn relation(&self, a: usize, b: usize) -> Result<Relation, SheetFault>
        ensures { result ≡ asked (B.Book.order self.now.book) a b }
    {
        self.book.relation(a, b)
    }

    /// The mate of `a`, or no cell where `a` is free.
    pub fn partner(&self, a: usize) -> Result<Option<usize>, SheetFault>
        ensures { result ≡ partner_of (sheet_of (B.Book.order self.now.book) self.now.group) a }
    {
        cell_within(self.book.count(), a)?;
        Ok(self.group.partner(a))
    }
}
