//! Fields of one number, and group entries of two.
ghost use Rattle.std.specs.Prelude.{◌≡◌, ℕ, ◌≤◌, ◌⊎◌, Option, Some, IfOk};
ghost use Rattle.book.specs.Order.{most_cells};
ghost use Rattle.refusal.specs.declared.fault.FieldFault.TheVariants as fault;
ghost use Rattle.formats.specs.Choices.{book_of, turn_of};
ghost use Rattle.formats.specs.Rules as rule;
ghost use Rattle.formats.specs.Reading as file;
ghost use Rattle.reading.specs.Calls.{Took, Knows};

use crate::reader::Reader;
use formats::{BookKind, Entry, PLACEMENT_MARK, Turn, fits_entry, is_count};
use refusal::FieldFault;

impl<'a> Reader<'a> {
    /// A number that stands for something, by what `known` says of it.
    fn choice<C, F: Fn(u32) -> Option<C>>(&mut self, known: F) -> Result<C, FieldFault>
        requires { F.IsAlwaysCallable known }
        ensures of { IfOk result (λ c. (v : ℕ) × F.post known v (Some c)) }
        ensures told { (means : ℕ → Option C) → Knows (F.post known) means → Took (file.choice means) self.old result self.new }
    {
        let at = self.at;
        let number = self.number()?;
        known(number).ok_or(FieldFault::UnknownChoice { at })
    }

    /// The kind of a job's book.
    pub fn book_kind(&mut self) -> Result<BookKind, FieldFault>
        ensures { Took (file.choice book_of) self.old result self.new }
    {
        self.choice(|number| BookKind::try_from(number).ok())
    }

    /// How a job's book is turned.
    pub fn turn(&mut self) -> Result<Turn, FieldFault>
        ensures { Took (file.choice turn_of) self.old result self.new }
    {
        self.choice(|number| Turn::try_from(number).ok())
    }

    /// How many numbers a length takes, 1 or 3.
    pub fn processes(&mut self) -> Result<usize, FieldFault>
        ensures within { IfOk result (λ k. (k ≡ 1) ⊎ (k ≡ 3)) }
        ensures told { Took (file.choice (file.only_if rule.is_processes)) self.old result self.new }
    {
        // (a count, as a job and a placement hold it)
        self.choice(|number| (number == 1 || number == 3).then_some(number as usize))
    }

    /// The mark of a placement file.
    pub fn mark(&mut self) -> Result<u32, FieldFault>
        ensures { Took (file.choice (file.only_if file.is_mark)) self.old result self.new }
    {
        self.choice(|number| (number == PLACEMENT_MARK).then_some(number))
    }

    /// How many cells there are.
    pub fn count(&mut self) -> Result<usize, FieldFault>
        ensures within { IfOk result (λ n. (1 ≤ n) × (n ≤ most_cells)) }
        ensures told { Took (file.field rule.is_cell_count fault.CellCount) self.old result self.new }
    {
        let at = self.at;
        let count = self.number()? as usize;
        if is_count(count) {
            Ok(count)
        } else {
            Err(FieldFault::CellCount { at, count })
        }
    }

    /// The group entry that comes after these, in a group over `n` cells.
    pub fn entry(&mut self, n: usize, before: &[Entry]) -> Result<Entry, FieldFault>
        ensures { Took (file.entry n before.now) self.old result self.new }
    {
        let at = self.at;
        let first = self.number()? as usize;
        let second = self.number()? as usize;
        let entry = Entry { first, second };
        if fits_entry(n, before, entry) {
            Ok(entry)
        } else {
            Err(FieldFault::GroupEntry { at })
        }
    }
}
