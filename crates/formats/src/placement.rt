//! A placement, as it goes to the mask writer.

/// The number that marks a placement file.
pub const PLACEMENT_MARK: u32 = 0;

/// Where each cell stands, and how far the placement reaches.
#[derive(Drop)]
pub struct Placement<T> {
    /// How many cells there are.
    pub count: usize,
    /// How many numbers a length takes; as in a job, any count that a caller gives.
    pub processes: usize,
    pub half_span: T,
    pub depth: T,
    // (two lists, as a placing fills them)
    pub x: Vec<T>,
    pub y: Vec<T>,
}
