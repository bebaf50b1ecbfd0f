//! Writing job files and placement files into bytes that the caller lends.
#![tactic(auto)]

mod checks;
mod job;
mod pen;
mod placement;
mod whole;

pub use job::{LawfulJob, entry_offset, write_job};
pub use placement::{LawfulPlacement, placement_size, write_placement};
