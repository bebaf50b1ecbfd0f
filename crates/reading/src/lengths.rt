//! Lengths, of any kind.
ghost use Rattle.std.specs.Prelude.{◌≡◌};
ghost use Rattle.refusal.specs.declared.fault.FieldFault.TheVariants as fault;
ghost use Rattle.formats.specs.Reading as file;
ghost use Rattle.reading.specs.Calls.{Took, TookBy, TookAs};
ghost use Rattle.reading.specs.Held.{rule_of, columns_of};

use crate::error::ReadError;
use crate::reader::Reader;
use length::{LARGEST_SIZE, MOST_NUMBERS, Numbered};
use refusal::{FieldFault, Side};
use std::alloc::Global;

/// Which numbers a length may have.
#[derive(Clone, Copy)]
pub(crate) enum Allowed {
    /// Those of a width or a height.
    Sizes,
    /// All.
    Any,
}

/// Two lengths of each cell: widths and heights, or left edges and bottoms.
///
/// Two lists, and no list of pairs: a placing takes each by itself, and a list of the wrong length is refused by its number.
#[derive(Drop)]
pub(crate) struct Columns<T> {
    pub(crate) firsts: Vec<T>,
    pub(crate) seconds: Vec<T>,
}

impl Allowed {
    // (the rule of the field, as the formats define it; a length's own test is of a whole length)
    fn allows(self, number: u32) -> bool
        ensures { result ≡ rule_of self number }
    {
        match self {
            Allowed::Sizes => number > 0 && number <= LARGEST_SIZE,
            Allowed::Any => true,
        }
    }
}

impl<'a> Reader<'a> {
    /// One number of a length of a cell.
    // (a cell and its side go on as the fault tells them, which names them apart)
    fn length_number(
        &mut self,
        allowed: Allowed,
        cell: usize,
        side: Side,
    ) -> Result<u32, FieldFault>
        ensures { Took (file.length_number_at (rule_of allowed) cell side) self.old result self.new }
    {
        let at = self.at;
        let number = self.number()?;
        if allowed.allows(number) {
            Ok(number)
        } else {
            Err(FieldFault::NotASize { at, cell, side })
        }
    }

    /// One length of a cell.
    pub(crate) fn length<T: Numbered>(
        &mut self,
        allowed: Allowed,
        cell: usize,
        side: Side,
    ) -> Result<T, FieldFault>
        ensures { TookBy T.Numbered.numbers (file.one_length (rule_of allowed) T.NUMBERS cell side) self.old result self.new }
    {
        let mut list = [0; MOST_NUMBERS];
        for number in list[..T::NUMBERS].iter_mut() {
            *number = self.length_number(allowed, cell, side)?;
        }
        Ok(T::from_numbers(list))
    }

    /// Two lengths for each of `n` cells.
    pub(crate) fn columns<T: Numbered>(
        &mut self,
        heap: Global,
        allowed: Allowed,
        n: usize,
    ) -> Result<Columns<T>, ReadError>
        ensures { TookAs (columns_of T.Numbered.numbers) (file.columns (rule_of allowed) T.NUMBERS n file.no_columns) self.old result self.new }
    {
        let mut firsts = Vec::new(heap);
        let mut seconds = Vec::new(heap);
        for cell in 0..n {
            let first = self.length(allowed, cell, Side::Width)?;
            let second = self.length(allowed, cell, Side::Height)?;
            firsts.push(first)?;
            seconds.push(second)?;
        }
        Ok(Columns { firsts, seconds })
    }
}
