//! What a cell is in a sheet.

/// What a cell is: in no pair and not centred, one of a pair, or centred on the axis.
#[derive(Clone, Copy, PartialEq, Eq, Debug)]
pub enum State {
    Free,
    Paired,
    Centred,
}
