//! The fields of a job that stand for something else than a number.
ghost use Rattle.std.specs.Prelude.{◌≡◌};
ghost use Rattle.formats.specs.Choices.{book_of, book_number, turn_of, turn_number, StandsFor, exchanges};

use std::error::Error;
use std::fmt;

/// The kind of a job's book.
#[derive(Clone, Copy, PartialEq, Eq, Debug)]
pub enum BookKind {
    SequencePair,
    Slicing,
}

/// How a job's book is turned before the sheet is made from it.
#[derive(Clone, Copy, PartialEq, Eq, Debug)]
pub enum Turn {
    AsItIs,
    Transposed,
    Flipped,
    /// Flipped first, and then transposed.
    TransposedFlipped,
}

/// A number that stands for nothing.
#[derive(Clone, Copy, PartialEq, Eq, Debug, Drop)]
pub struct UnknownChoice;

impl fmt::Display for UnknownChoice {
    fn fmt<W: fmt::Write>(&self, f: &mut fmt::Formatter<W>) -> fmt::Result {
        write!(f, "the number stands for nothing that is known")
    }
}

impl Error for UnknownChoice {}

/// One entry of a job's symmetry group: a pair, the lower cell first, or a centred cell, which stands in both places.
#[derive(Clone, Copy, PartialEq, Eq, Debug)]
pub struct Entry {
    pub first: usize,
    pub second: usize,
}

/// The kind that a number in a file stands for.
impl TryFrom<u32> for BookKind {
    type Error = UnknownChoice;

    ghost try_from_gives = { StandsFor book_of };

    fn try_from(number: u32) -> Result<BookKind, UnknownChoice> {
        match number {
            1 => Ok(BookKind::SequencePair),
            2 => Ok(BookKind::Slicing),
            _ => Err(UnknownChoice),
        }
    }
}

/// The number that stands for the kind in a file.
impl From<BookKind> for u32 {
    ghost from_gives = { λ kind number. number ≡ book_number kind };

    fn from(kind: BookKind) -> u32 {
        match kind {
            BookKind::SequencePair => 1,
            BookKind::Slicing => 2,
        }
    }
}

/// The turn that a number in a file stands for.
impl TryFrom<u32> for Turn {
    type Error = UnknownChoice;

    ghost try_from_gives = { StandsFor turn_of };

    fn try_from(number: u32) -> Result<Turn, UnknownChoice> {
        match number {
            0 => Ok(Turn::AsItIs),
            1 => Ok(Turn::Transposed),
            2 => Ok(Turn::Flipped),
            3 => Ok(Turn::TransposedFlipped),
            _ => Err(UnknownChoice),
        }
    }
}

/// The number that stands for the turn in a file.
impl From<Turn> for u32 {
    ghost from_gives = { λ turn number. number ≡ turn_number turn };

    fn from(turn: Turn) -> u32 {
        match turn {
            Turn::AsItIs => 0,
            Turn::Transposed => 1,
            Turn::Flipped => 2,
            Turn::TransposedFlipped => 3,
        }
    }
}

impl Turn {
    /// Whether widths and heights, and x and y, change places.
    pub fn exchanges(self) -> bool
        ensures { result ≡ exchanges self }
    {
        match self {
            Turn::AsItIs | Turn::Flipped => false,
            Turn::Transposed | Turn::TransposedFlipped => true,
        }
    }
}
