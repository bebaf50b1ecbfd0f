//! From a fault to the refusal that comes out, and from one layer's fault to the next.
ghost use Rattle.std.specs.Prelude.{◌≡◌, ◌⊎◌};
ghost use Rattle.refusal.specs.Register.{byte_told, field_told, sheet_told, side_number, layer_number, layer_of};
ghost use Rattle.refusal.specs.declared.fault.FieldFault.{FieldFault};
ghost use Rattle.refusal.specs.declared.fault.SheetFault.{SheetFault};

use crate::fault::{ByteFault, FieldFault, Layer, Refusal, SheetFault, Side};

/// The refusal of a fault that names no detail.
fn bare(number: u8, layer: Layer, offset: usize) -> Refusal
    ensures { result ≡ record { number = number; layer = layer; offset = offset; first = 0; second = 0 } }
{
    Refusal {
        number,
        layer,
        offset,
        first: 0,
        second: 0,
    }
}

/// The number by which a refusal's detail names the side.
impl From<Side> for usize {
    ghost from_gives = { λ side n. n ≡ side_number side };

    fn from(side: Side) -> usize {
        match side {
            Side::Width => 1,
            Side::Height => 2,
        }
    }
}

/// The number by which a refusal names its layer.
impl From<Layer> for u8 {
    ghost from_gives = { λ layer n. n ≡ layer_number layer };

    fn from(layer: Layer) -> u8 {
        match layer {
            Layer::Bytes => 1,
            Layer::Fields => 2,
            Layer::Sheet => 3,
        }
    }
}

/// The refusal that a fault of the bytes comes to.
impl From<ByteFault> for Refusal {
    ghost from_gives = { λ fault r. (r ≡ byte_told fault) × (r.layer ≡ layer_of r.number) };

    fn from(fault: ByteFault) -> Refusal {
        match fault {
            ByteFault::Ends { length } => bare(1, Layer::Bytes, length),
            ByteFault::NotShortest { at } => bare(2, Layer::Bytes, at),
        }
    }
}

/// The refusal that a fault of the fields comes to.
impl From<FieldFault> for Refusal {
    ghost from_gives = { λ fault r. (r ≡ field_told fault) × (r.layer ≡ layer_of r.number) };

    fn from(fault: FieldFault) -> Refusal {
        match fault {
            FieldFault::Bytes(inner) => inner.into(),
            FieldFault::TrailingBytes { at } => bare(3, Layer::Fields, at),
            FieldFault::UnknownChoice { at } => bare(4, Layer::Fields, at),
            FieldFault::CellCount { at, .. } => bare(5, Layer::Fields, at),
            FieldFault::Order { at, .. } => bare(6, Layer::Fields, at),
            FieldFault::NotASize { at, cell, side } => Refusal {
                first: cell,
                second: side.into(),
                ..bare(7, Layer::Fields, at)
            },
            FieldFault::GroupEntry { at } => bare(8, Layer::Fields, at),
            FieldFault::OutputTooShort { needed } => Refusal {
                first: needed,
                ..bare(17, Layer::Fields, 0)
            },
        }
    }
}

/// The refusal that a fault of a direct call comes to.
impl From<SheetFault> for Refusal {
    ghost from_gives = { λ fault r. (r ≡ sheet_told 0 fault) × ((r.layer ≡ layer_of r.number) ⊎ (r.number ≡ 7)) };

    fn from(fault: SheetFault) -> Refusal {
        fault.refusal_at(0)
    }
}

impl SheetFault {
    /// The refusal that this fault comes to where the group entry at byte `at` of a job is at fault.
    pub fn refusal_at(self, at: usize) -> Refusal
        ensures told { result ≡ sheet_told at self }
        ensures layer { (result.layer ≡ layer_of result.number) ⊎ (result.number ≡ 7) }
    {
        let (number, first, second) = match self {
            SheetFault::Field(fault) => return fault.into(),
            SheetFault::NotASize { cell, side } => (7, cell, side.into()),
            SheetFault::NoSuchCell { cell } => (9, cell, 0),
            SheetFault::SameCell { cell } => (10, cell, 0),
            SheetFault::AlreadyGrouped { cell } => (11, cell, 0),
            SheetFault::NotGrouped { cell } => (12, cell, 0),
            SheetFault::ListLength { list } => (13, list, 0),
            SheetFault::Unplaceable { first, second } => (14, first, second),
            SheetFault::PairSizesDiffer { cell, mate } => (15, cell, mate),
            SheetFault::OddCentre { cell } => (16, cell, 0),
        };
        Refusal {
            number,
            layer: Layer::Sheet,
            offset: at,
            first,
            second,
        }
    }
}

impl From<ByteFault> for FieldFault {
    ghost from_gives = { λ b f. f ≡ FieldFault.Bytes b };

    fn from(bytes: ByteFault) -> FieldFault {
        FieldFault::Bytes(bytes)
    }
}

impl From<FieldFault> for SheetFault {
    ghost from_gives = { λ f s. s ≡ SheetFault.Field f };

    fn from(field: FieldFault) -> SheetFault {
        SheetFault::Field(field)
    }
}

impl From<ByteFault> for SheetFault {
    ghost from_gives = { λ b s. s ≡ SheetFault.Field (FieldFault.Bytes b) };

    fn from(bytes: ByteFault) -> SheetFault {
        FieldFault::from(bytes).into()
    }
}
