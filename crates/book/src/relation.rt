//! How one cell lies to another, and how many cells there can be.
use std::fmt;

/// The most cells that a book can have.
pub const MOST_CELLS: usize = 64;

/// How one cell lies to another.
#[derive(Clone, Copy, PartialEq, Eq, Debug)]
pub enum Relation {
    Left,
    Right,
    Above,
    Below,
}

impl fmt::Display for Relation {
    fn fmt<W: fmt::Write>(&self, f: &mut fmt::Formatter<W>) -> fmt::Result {
        f.write_str(match self {
            Relation::Left => "left of",
            Relation::Right => "right of",
            Relation::Above => "above",
            Relation::Below => "below",
        })
    }
}
