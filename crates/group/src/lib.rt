//! The symmetry group: which cells mirror each other about the axis, and whether their order lets them.
#![tactic(auto)]

mod arrangement;
mod couples;
mod edits;
mod table;

pub use arrangement::Arrangement;
pub use couples::first_forbidden;
pub use table::Group;
