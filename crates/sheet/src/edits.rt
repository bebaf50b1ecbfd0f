//! Edits of a sheet: each is judged by the sheet as it would leave it.
ghost use Rattle.std.specs.Prelude.{◌≡◌, MatchResult};
ghost use Rattle.placement.specs.Couples.{Clean};
ghost use Rattle.placement.specs.Theorems.{CleanExactlyPlaceable};
ghost use Rattle.group.specs.Group.{sheet_of};
ghost use Rattle.sheet.specs.Edits.{Outcome, Regrouped, TellsFirst, swap, pair, centre, release};

use crate::sheet::Sheet;
use book::{Book, within};
use group::{Group, first_forbidden};
use placement::clean_exactly_placeable;
use refusal::SheetFault;

/// Refuses a sheet of which some couple is forbidden, and tells the first; that is exactly where no lawful sizes have a
/// placement.
fn judge<B: Book>(book: &B, group: &Group) -> Result<(), SheetFault>
    ensures couple { MatchResult result (λ _. Clean (sheet_of (B.Book.order book.now) group.now)) (TellsFirst (sheet_of (B.Book.order book.now) group.now)) }
    ensures theorem { CleanExactlyPlaceable }
{
    clean_exactly_placeable();
    match first_forbidden(book, group) {
        None => Ok(()),
        Some((first, second)) => Err(SheetFault::Unplaceable { first, second }),
    }
}

impl<B: Book> Sheet<B> {
    /// Takes `group` in place of the sheet's own, unless the sheet would have no placement then.
    fn regroup(&mut self, group: Group) -> Result<(), SheetFault>
        requires { group.count ≡ self.old.group.count }
        ensures { Regrouped (B.Book.order self.old.book) self.old.group group (B.Book.order self.new.book) self.new.group result }
    {
        judge(&self.book, &group)?;
        self.group = group;
        Ok(())
    }

    /// Exchanges the names `a` and `b` in every relation; no mate changes.
    pub fn swap(&mut self, a: usize, b: usize) -> Result<(), SheetFault>
        ensures { Outcome (B.Book.order self.old.book) self.old.group (swap a b) (B.Book.order self.new.book) self.new.group result }
    {
        within(self.book.count(), a, b)?;
        if a == b {
            return Err(SheetFault::SameCell { cell: a });
        }
        self.book.swap(a, b)?;
        if let Err(fault) = judge(&self.book, &self.group) {
            let _ = self.book.swap(a, b);
            return Err(fault);
        }
        Ok(())
    }

    /// Makes `a` and `b` mates of each other.
    pub fn pair(&mut self, a: usize, b: usize) -> Result<(), SheetFault>
        ensures { Outcome (B.Book.order self.old.book) self.old.group (pair a b) (B.Book.order self.new.book) self.new.group result }
    {
        let mut group = self.group;
        group.pair(a, b)?;
        self.regroup(group)
    }

    /// Makes `a` its own mate, centred on the axis.
    pub fn centre(&mut self, a: usize) -> Result<(), SheetFault>
        ensures { Outcome (B.Book.order self.old.book) self.old.group (centre a) (B.Book.order self.new.book) self.new.group result }
    {
        let mut group = self.group;
        group.centre(a)?;
        self.regroup(group)
    }

    /// Frees `a`, and its mate with it. (What had a placement has one with fewer mates.)
    pub fn release(&mut self, a: usize) -> Result<(), SheetFault>
        ensures { Outcome (B.Book.order self.old.book) self.old.group (release a) (B.Book.order self.new.book) self.new.group result }
    {
        clean_exactly_placeable();
        self.group.release(a)
    }
}
