//! Whether two sheets are alike, over books of any two kinds.
ghost use Rattle.std.specs.Prelude.{◌≡◌, ℕ, ◌<◌, Decides};
ghost use Rattle.group.specs.Group.{sheet_of, mate_of};
ghost use Rattle.sheet.specs.Alike.{state, AgreeOn, AlikeAt, AlikeSheets};

use crate::sheet::Sheet;
use crate::state::State;
use book::Book;

/// Where both books tell how `a` lies to `b`, do they tell the same?
fn same_relation<B: Book, C: Book>(one: &B, other: &C, a: usize, b: usize) -> bool
    ensures { Decides result (AgreeOn (B.Book.order one.now) (C.Book.order other.now) a b) }
{
    match (one.relation(a, b), other.relation(a, b)) {
        (Ok(here), Ok(there)) => there == here,
        _ => true,
    }
}

impl<B: Book> Sheet<B> {
    /// What `a` is by its mate.
    fn state(&self, a: usize) -> State
        ensures { result ≡ state a (mate_of self.now.group a) }
    {
        match self.group.partner(a) {
            None => State::Free,
            Some(mate) if mate == a => State::Centred,
            Some(_) => State::Paired,
        }
    }

    /// Do the two sheets tell the same of `a`, by itself and to each of `n` cells?
    fn same_cell<C: Book>(&self, other: &Sheet<C>, a: usize, n: usize) -> bool
        ensures { Decides result (AlikeAt (sheet_of (B.Book.order self.now.book) self.now.group) (sheet_of (C.Book.order other.now.book) other.now.group) n a) }
    {
        other.state(a) == self.state(a)
            && (0..n).all(|b| same_relation(&self.book, &other.book, a, b))
    }

    /// Do the two sheets agree in count, in every relation, and in which cells are free, paired or centred?
    pub fn alike<C: Book>(&self, other: &Sheet<C>) -> bool
        ensures { Decides result (AlikeSheets (sheet_of (B.Book.order self.now.book) self.now.group) (sheet_of (C.Book.order other.now.book) other.now.group)) }
    {
        let n = self.count();
        other.count() == n && (0..n).all(|a| self.same_cell(other, a, n))
    }
}
