//! The steps of a run, and what each came to.
use placing::Extent;
use refusal::SheetFault;

/// One step of a run.
#[derive(Clone, Copy)]
pub enum Step<'a, T> {
    Swap(usize, usize),
    Pair(usize, usize),
    Centre(usize),
    Release(usize),
    /// A placing with these widths and heights.
    Place(&'a [T], &'a [T]),
}

/// The lists that a placing filled, and how far the placement reaches.
// (lists side by side, as a placing fills them)
#[derive(Drop)]
pub struct Coordinates<T> {
    pub work: Vec<T>,
    pub x: Vec<T>,
    pub y: Vec<T>,
    pub extent: Extent<T>,
}

/// What a step came to.
// (three outcomes in one enum: a run goes on after a refusal, and a `Result` with two of them under `Ok` would be opened twice)
#[derive(Drop)]
pub enum Answer<T> {
    Edited,
    Placed(Coordinates<T>),
    Refused(SheetFault),
}
