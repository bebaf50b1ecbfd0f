//! Reading job files and placement files, straight from their bytes.
#![tactic(auto)]

mod error;
mod fields;
mod job;
mod lengths;
mod order;
mod placement;
mod reader;

pub use error::ReadError;
pub use job::{AnyJob, read_job};
pub use placement::{AnyPlacement, read_placement};
pub use reader::Reader;
