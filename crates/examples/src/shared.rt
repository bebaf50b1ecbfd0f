//! What the tests of several files share.
use book::{Book, MOST_CELLS, Relation};
use length::PerProcess;
use std::array;
use std::process::Abort;

/// Each line of the table is a relation that the book tells.
pub(crate) fn tells<B: Book>(rt: &impl Abort, book: &B, table: &[(usize, usize, Relation)]) {
    for (a, b, relation) in table {
        assert_eq!(rt; book.relation(*a, *b), Ok(*relation));
    }
}

/// The row 0, 1, 2, … as long as it can be.
pub(crate) fn ascending() -> [usize; MOST_CELLS] {
    array::from_fn(|cell| cell)
}

/// The length of these numbers, one a process.
pub(crate) fn each(first: u32, second: u32, third: u32) -> PerProcess {
    PerProcess {
        first,
        second,
        third,
    }
}
