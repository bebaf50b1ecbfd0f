//! What job files and placement files hold, and which fields are lawful.
#![tactic(auto)]

mod fields;
mod job;
mod placement;
mod rules;

pub use fields::{BookKind, Entry, Turn, UnknownChoice};
pub use job::{Job, OrderLists};
pub use placement::{PLACEMENT_MARK, Placement};
pub use rules::{fits, fits_entry, is_count};
