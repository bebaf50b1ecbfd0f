//! The faults in words, for an engineer who has to act on them.
use crate::fault::{ByteFault, FieldFault, Layer, Refusal, SheetFault, Side};
use std::error::Error;
use std::fmt;

impl fmt::Display for Side {
    fn fmt<W: fmt::Write>(&self, f: &mut fmt::Formatter<W>) -> fmt::Result {
        match self {
            Side::Width => write!(f, "width"),
            Side::Height => write!(f, "height"),
        }
    }
}

impl fmt::Display for Layer {
    fn fmt<W: fmt::Write>(&self, f: &mut fmt::Formatter<W>) -> fmt::Result {
        match self {
            Layer::Bytes => write!(f, "bytes"),
            Layer::Fields => write!(f, "fields"),
            Layer::Sheet => write!(f, "sheet"),
        }
    }
}

impl fmt::Display for ByteFault {
    fn fmt<W: fmt::Write>(&self, f: &mut fmt::Formatter<W>) -> fmt::Result {
        match self {
            ByteFault::Ends { length } => write!(
                f,
                "the file ends after {length} bytes where a number goes on or should begin"
            ),
            ByteFault::NotShortest { at } => write!(
                f,
                "the number at byte {at} is not in its shortest form, or is above 4294967295"
            ),
        }
    }
}

impl fmt::Display for FieldFault {
    fn fmt<W: fmt::Write>(&self, f: &mut fmt::Formatter<W>) -> fmt::Result {
        match self {
            FieldFault::Bytes(fault) => write!(f, "{fault}"),
            FieldFault::TrailingBytes { at } => write!(
                f,
                "the last field ends before byte {at}, and more bytes follow"
            ),
            FieldFault::UnknownChoice { at } => write!(
                f,
                "the choice at byte {at} is no known book, turn, process count or placement mark"
            ),
            FieldFault::CellCount { count, .. } => write!(
                f,
                "{count} cells are asked for: there can be 1 to 64"
            ),
            FieldFault::Order { list, place, .. } => {
                write!(
                    f,
                    "entry {place} of list {list} of the order does not fit there: no such cell, a cell that stands earlier, or a join without two parts"
                )
            }
            FieldFault::NotASize { at, cell, side } => write!(
                f,
                "the {side} of cell {cell} is no size (byte {at})"
            ),
            FieldFault::GroupEntry { at } => write!(
                f,
                "the group entry at byte {at} must name two cells, the lower first, in ascending order, each cell once"
            ),
            FieldFault::OutputTooShort { needed } => write!(
                f,
                "the output is too short: {needed} bytes are needed"
            ),
        }
    }
}

impl fmt::Display for SheetFault {
    fn fmt<W: fmt::Write>(&self, f: &mut fmt::Formatter<W>) -> fmt::Result {
        match self {
            SheetFault::Field(fault) => write!(f, "{fault}"),
            SheetFault::NotASize { cell, side } => write!(
                f,
                "the {side} of cell {cell} is no size"
            ),
            SheetFault::NoSuchCell { cell } => write!(f, "there is no cell {cell}"),
            SheetFault::SameCell { cell } => write!(
                f,
                "cell {cell} is named twice where two different cells are wanted"
            ),
            SheetFault::AlreadyGrouped { cell } => write!(
                f,
                "cell {cell} is in the symmetry group already: release it first"
            ),
            SheetFault::NotGrouped { cell } => write!(
                f,
                "cell {cell} is not in the symmetry group"
            ),
            SheetFault::ListLength { list } => write!(
                f,
                "list {list} of the call has the wrong length"
            ),
            SheetFault::Unplaceable { first, second } => {
                write!(
                    f,
                    "cells {first} and {second} cannot both mirror: their order contradicts that of their mates, so no placement exists"
                )
            }
            SheetFault::PairSizesDiffer { cell, mate } => write!(
                f,
                "cells {cell} and {mate} are a pair and must agree in width and height"
            ),
            SheetFault::OddCentre { cell } => write!(
                f,
                "cell {cell} is centred on the axis, so its width must be even"
            ),
        }
    }
}

impl Error for ByteFault {}

impl Error for FieldFault {}

impl Error for SheetFault {}

impl fmt::Display for Refusal {
    fn fmt<W: fmt::Write>(&self, f: &mut fmt::Formatter<W>) -> fmt::Result {
        let Refusal {
            number,
            layer,
            offset,
            first,
            second,
        } = *self;
        write!(
            f,
            "refusal {number}, layer {layer}, byte {offset}, details {first} and {second}"
        )
    }
}
