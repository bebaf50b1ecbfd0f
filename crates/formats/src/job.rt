//! A job: what the annealer asks to be placed.
ghost use Rattle.std.specs.Prelude.{◌≡◌};
ghost use Rattle.formats.specs.Files as said;
ghost use Rattle.formats.specs.Held.{order_fields};

use crate::fields::{BookKind, Entry, Turn};

/// The lists that give the order of a job's cells.
#[derive(Drop)]
pub enum OrderLists {
    /// The two rows of a sequence-pair.
    SequencePair {
        first: Vec<usize>,
        second: Vec<usize>,
    },
    /// A slicing expression.
    Slicing {
        expression: Vec<usize>,
    },
}

impl OrderLists {
    /// The kind of book that the lists are of.
    pub fn kind(&self) -> BookKind
        ensures { result ≡ said.book_kind_of (order_fields self.now) }
    {
        match self {
            OrderLists::SequencePair { .. } => BookKind::SequencePair,
            OrderLists::Slicing { .. } => BookKind::Slicing,
        }
    }
}

/// A job: the order of its cells, how it is turned, their sizes, and the symmetry group.
///
/// Nothing keeps a caller from putting unlawful fields into one; writing it then refuses.
#[derive(Drop)]
pub struct Job<T> {
    /// How many cells there are.
    pub count: usize,
    pub order: OrderLists,
    pub turn: Turn,
    /// How many numbers a length takes. A caller may give any count, and writing refuses those that no kind of length has.
    pub processes: usize,
    // (two lists, since a placing takes each by itself, and each is refused by its own number)
    pub widths: Vec<T>,
    pub heights: Vec<T>,
    pub entries: Vec<Entry>,
}
