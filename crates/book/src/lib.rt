//! Books: the relative order of cells, whatever it is written down as.
#![tactic(auto)]

mod asking;
mod book;
mod layers;
mod relation;
mod sequence_book;
mod sequence_pair;
mod slicing;
mod slicing_book;

pub use asking::{is_above, is_left};
pub use book::{Book, cell_within, within};
pub use layers::{Diagonal, Flipped, Mirror, Transposed, Turned, Turning, turned_twice};
pub use relation::{MOST_CELLS, Relation};
pub use sequence_pair::SequencePair;
pub use slicing::JOINED;
pub use slicing_book::{
    Slicing, beside_earlier_is_left, expression_never_refused, stacked_later_is_above,
};
