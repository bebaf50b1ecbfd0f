//! Making a group and changing it: the checks that need no order, and the mates afterwards.
ghost use Rattle.std.specs.Prelude.{◌≡◌, ℕ, ◌<◌, ◌≤◌, Ok, Err, MatchResult};
ghost use Rattle.group.specs.Group.{mate_of};
ghost use Rattle.group.specs.Edits.{nobody, paired, centred, freed, free_in, pair_check, centre_check, release_check};

use crate::table::Group;
use book::{Book, MOST_CELLS, cell_within, within};
use refusal::SheetFault;

impl Group {
    /// The empty group over a book's cells.
    pub fn new<B: Book>(book: &B) -> Group
        ensures count { result.count ≡ (B.Book.order book.now).count }
        ensures mates { (x : ℕ) → mate_of result x ≡ nobody x }
    {
        Group {
            count: book.count(),
            partner: [None; MOST_CELLS],
        }
    }

    /// How many cells there are, in the group or not.
    pub fn count(&self) -> usize
        ensures { result ≡ self.now.count }
    {
        self.count
    }

    /// The mate of `a`: no cell where `a` is free, or is no cell.
    pub fn partner(&self, a: usize) -> Option<usize>
        ensures { result ≡ mate_of self.now a }
    {
        // (asked in the innermost loop of judging an edit: with `get` and `map(usize::from)`, which were tried, judging is a third
        // slower, and misses the bar that bench/ states)
        if a >= self.count {
            return None;
        }
        match self.partner[a] {
            Some(mate) => Some(mate as usize),
            None => None,
        }
    }

    /// Refuses a cell that is in the group.
    fn check_free(&self, a: usize) -> Result<(), SheetFault>
        ensures { result ≡ free_in (mate_of self.now) a (Ok tt) }
    {
        if self.partner(a).is_some() {
            return Err(SheetFault::AlreadyGrouped { cell: a });
        }
        Ok(())
    }

    /// The checks of `pair`: two different cells, both free.
    fn check_pair(&self, a: usize, b: usize) -> Result<(), SheetFault>
        ensures { result ≡ pair_check self.now.count (mate_of self.now) a b }
    {
        within(self.count, a, b)?;
        if a == b {
            return Err(SheetFault::SameCell { cell: a });
        }
        self.check_free(a)?;
        self.check_free(b)
    }

    /// Makes `a` and `b` mates of each other.
    pub fn pair(&mut self, a: usize, b: usize) -> Result<(), SheetFault>
        ensures answer { result ≡ pair_check self.old.count (mate_of self.old) a b }
        ensures count { self.new.count ≡ self.old.count }
        ensures mates { MatchResult result (λ _. (x : ℕ) → mate_of self.new x ≡ paired a b (mate_of self.old) x) (λ _. (x : ℕ) → mate_of self.new x ≡ mate_of self.old x) }
    {
        self.check_pair(a, b)?;
        self.partner[a] = Some(b as u8);
        self.partner[b] = Some(a as u8);
        Ok(())
    }

    /// Makes `a` its own mate.
    pub fn centre(&mut self, a: usize) -> Result<(), SheetFault>
        ensures answer { result ≡ centre_check self.old.count (mate_of self.old) a }
        ensures count { self.new.count ≡ self.old.count }
        ensures mates { MatchResult result (λ _. (x : ℕ) → mate_of self.new x ≡ centred a (mate_of self.old) x) (λ _. (x : ℕ) → mate_of self.new x ≡ mate_of self.old x) }
    {
        cell_within(self.count, a)?;
        self.check_free(a)?;
        self.partner[a] = Some(a as u8);
        Ok(())
    }

    /// Frees `a`, and its mate with it.
    pub fn release(&mut self, a: usize) -> Result<(), SheetFault>
        ensures answer { result ≡ release_check self.old.count (mate_of self.old) a }
        ensures count { self.new.count ≡ self.old.count }
        ensures mates { MatchResult result (λ _. (x : ℕ) → mate_of self.new x ≡ freed a (mate_of self.old) x) (λ _. (x : ℕ) → mate_of self.new x ≡ mate_of self.old x) }
    {
        cell_within(self.count, a)?;
        let Some(mate) = self.partner(a) else {
            return Err(SheetFault::NotGrouped { cell: a });
        };
        self.partner[a] = None;
        self.partner[mate] = None;
        Ok(())
    }
}
