//! Placing: its checks, and the values of the placement rule, for any book, any group and any kind of length.
#![tactic(auto)]

mod across;
mod downward;
mod edges;
mod graphs;
mod placed;
mod reach;
mod sizes;
mod values;

pub use placed::place;
pub use sizes::checks_are_exact;
pub use values::Extent;
