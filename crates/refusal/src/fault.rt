//! The faults of the three layers, and the refusal that comes out.

/// Which of a cell's two lengths is meant.
#[derive(Clone, Copy, PartialEq, Eq, Debug)]
pub enum Side {
    Width,
    Height,
}

/// Which layer of the product turned something down.
#[derive(Clone, Copy, PartialEq, Eq, Debug)]
pub enum Layer {
    Bytes,
    Fields,
    Sheet,
}

/// A fault in the bytes of a number.
#[derive(Clone, Copy, PartialEq, Eq, Debug)]
pub enum ByteFault {
    /// The file ends inside a number, or before one; `length` is the file's.
    Ends { length: usize },
    /// The number that begins at byte `at` is not in its shortest form, or too large.
    NotShortest { at: usize },
}

/// A fault in a field of a file, or in what a caller gave in a field's place (`at` is 0 then).
#[derive(Clone, Copy, PartialEq, Eq, Debug)]
pub enum FieldFault {
    /// The bytes of the field are at fault already.
    Bytes(ByteFault),
    /// Bytes follow the last field, from byte `at` on.
    TrailingBytes {
        at: usize,
    },
    /// The book, turn, processes or placement mark is none that we know.
    UnknownChoice {
        at: usize,
    },
    /// `count` is no lawful number of cells.
    CellCount {
        at: usize,
        count: usize,
    },
    /// The number at `place` (from 0) of the order's list `list` (from 1) is the first to break the row or the expression.
    Order {
        at: usize,
        list: usize,
        place: usize,
    },
    /// A width or a height is not a size.
    NotASize {
        at: usize,
        cell: usize,
        side: Side,
    },
    /// A group entry breaks its rule; `at` is where the entry starts.
    GroupEntry {
        at: usize,
    },
    /// The output has fewer than the `needed` bytes.
    OutputTooShort {
        needed: usize,
    },
}

/// A fault that a call on a book or a sheet tells.
#[derive(Clone, Copy, PartialEq, Eq, Debug)]
pub enum SheetFault {
    /// A field is at fault already.
    Field(FieldFault),
    /// A width or a height in a caller's list is not a size.
    NotASize { cell: usize, side: Side },
    /// There is no such cell.
    NoSuchCell { cell: usize },
    /// One cell was given where two are wanted.
    SameCell { cell: usize },
    /// The cell is in the symmetry group already.
    AlreadyGrouped { cell: usize },
    /// The cell is not in the symmetry group.
    NotGrouped { cell: usize },
    /// The list at place `list` (from 1) among the call's lists has the wrong length.
    ListLength { list: usize },
    /// No placement exists: `first` and `second` are the first forbidden couple.
    Unplaceable { first: usize, second: usize },
    /// A pair's two cells differ in width or height.
    PairSizesDiffer { cell: usize, mate: usize },
    /// A centred cell's width has no middle on the grid.
    OddCentre { cell: usize },
}

/// What comes out of a fault: its number in the register, its layer, the byte offset (0 for a direct call) and two
/// details (0 where the register names none).
#[derive(Clone, Copy, PartialEq, Eq, Debug)]
pub struct Refusal {
    pub number: u8,
    pub layer: Layer,
    pub offset: usize,
    pub first: usize,
    pub second: usize,
}
