//! The pen: the bytes of an output that somebody else holds, and how far they have been written.
ghost use Rattle.std.specs.Prelude.{◌≡◌, ◌+◌, ◌*◌, ◌^◌, ◌≤◌, [], ◌∷◌, map, length};
ghost use Rattle.numbers.specs.Number.{EachStorable};
ghost use Rattle.formats.specs.Files.{by_cell, entry_numbers};
ghost use Rattle.writing.specs.Calls.{Puts};

use formats::Entry;
use length::Numbered;
use numbers::write_number;

/// An output, lent to be written, and the place of the next number. Where the output is too short, as when it is empty, the
/// place still moves on as far as the bytes would reach.
#[derive(Drop)]
pub(crate) struct Pen<'a> {
    out: &'a mut [u8],
    at: usize,
}

impl<'a> Pen<'a> {
    /// A pen at the first byte of an output.
    pub(crate) fn new(out: &'a mut [u8]) -> Pen<'a>
        ensures same { result.out.ghost_name ≡ out.entry.ghost_name }
        ensures out { result.out.now ≡ out.old }
        ensures start { result.at ≡ 0 }
    {
        Pen { out, at: 0 }
    }

    /// How many bytes the numbers so far take.
    pub(crate) fn size(&self) -> usize
        ensures { result ≡ self.now.at }
    {
        self.at
    }

    /// Puts one number.
    pub(crate) fn number(&mut self, number: u32)
        requires { self.old.at ≤ 2 ^ 32 }
        ensures { Puts self.old (number ∷ []) self.new }
    {
        let size = write_number(self.out, self.at, number);
        self.at += size;
    }

    /// Puts the numbers of a row or an expression.
    pub(crate) fn list(&mut self, numbers: &[usize])
        requires room { self.old.at + 5 * length numbers.now ≤ 2 ^ 32 }
        requires small { EachStorable numbers.now }
        ensures { Puts self.old numbers.now self.new }
    {
        for number in numbers {
            self.number(*number as u32);
        }
    }

    /// Puts the numbers of a length.
    pub(crate) fn length<T: Numbered>(&mut self, length: T)
        requires { self.old.at + 15 ≤ 2 ^ 32 }
        ensures { Puts self.old (T.Numbered.numbers length) self.new }
    {
        let numbers = length.to_numbers();
        for number in &numbers[..T::NUMBERS] {
            self.number(*number);
        }
    }

    /// Puts two lengths of each cell.
    pub(crate) fn columns<T: Numbered>(&mut self, firsts: &[T], seconds: &[T])
        requires { self.old.at + 30 * length firsts.now ≤ 2 ^ 32 }
        ensures { Puts self.old (by_cell (map T.Numbered.numbers firsts.now) (map T.Numbered.numbers seconds.now)) self.new }
    {
        for (first, second) in firsts.iter().zip(seconds) {
            self.length(*first);
            self.length(*second);
        }
    }

    /// Puts group entries.
    pub(crate) fn entries(&mut self, entries: &[Entry])
        requires room { self.old.at + 10 * length entries.now ≤ 2 ^ 32 }
        requires small { EachStorable (entry_numbers entries.now) }
        ensures { Puts self.old (entry_numbers entries.now) self.new }
    {
        for entry in entries {
            self.number(entry.first as u32);
            self.number(entry.second as u32);
        }
    }
}
