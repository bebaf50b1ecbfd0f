//! Placement files.
ghost use Rattle.std.specs.Prelude.{◌≡◌, length, Ok, Err, MatchResult};
ghost use Rattle.std.proofs.Props.{props};
ghost use Rattle.formats.specs.Files as said;
ghost use Rattle.formats.specs.Held.{placement_fields};
ghost use Rattle.formats.specs.Writing as file;
ghost use Rattle.formats.specs.Writing.{Written};

use crate::checks::check_placement;
use crate::pen::Pen;
use crate::whole::{Filed, size_of, write_whole};
use formats::{PLACEMENT_MARK, Placement};
use length::Numbered;
use refusal::SheetFault;

/// A lawful placement: one that has a file.
// (a struct beside `LawfulJob`: what is lawful of each is a fact of its own, and one struct for both would need a trait for the checks)
#[derive(Drop)]
pub struct LawfulPlacement<'a, T: Numbered> {
    pub placement: &'a Placement<T>,
    pub ghost lawful: { file.placement_check (placement_fields T.Numbered.numbers placement.now) ≡ Ok tt } by { Prim.hlevel props },
}

impl<'a, T: Numbered> LawfulPlacement<'a, T> {
    /// The placement, if it is lawful; else the first of its faults.
    pub fn new(placement: &'a Placement<T>) -> Result<LawfulPlacement<'a, T>, SheetFault>
        ensures { MatchResult result (λ l. l.placement.now ≡ placement.now) (λ f. file.placement_check (placement_fields T.Numbered.numbers placement.now) ≡ Err f) }
    {
        check_placement(placement)?;
        Ok(LawfulPlacement { placement })
    }

    /// How many bytes the file has.
    pub fn size(&self) -> usize
        ensures { result ≡ length (said.placement_bytes (placement_fields T.Numbered.numbers self.now.placement.now)) }
    {
        size_of(self)
    }
}

impl<'a, T: Numbered> Filed for LawfulPlacement<'a, T> {
    ghost numbers = { λ l. said.placement_numbers (placement_fields T.Numbered.numbers l.placement.now) };

    fn put(&self, pen: &mut Pen) {
        let placement = self.placement;
        pen.number(PLACEMENT_MARK);
        pen.number(placement.count as u32);
        pen.number(placement.processes as u32);
        pen.length(placement.half_span);
        pen.length(placement.depth);
        pen.columns(&placement.x, &placement.y);
    }
}

/// How many bytes a placement file has. Refuses a placement that cannot be written.
pub fn placement_size<T: Numbered>(placement: &Placement<T>) -> Result<usize, SheetFault>
    ensures { let p = placement_fields T.Numbered.numbers placement.now in MatchResult result (λ n. (file.placement_check p ≡ Ok tt) × (n ≡ length (said.placement_bytes p))) (λ f. file.placement_check p ≡ Err f) }
{
    let lawful = LawfulPlacement::new(placement)?;
    Ok(lawful.size())
}

/// Writes a placement file into the output and answers how many bytes it has; or refuses, and changes no byte.
pub fn write_placement<T: Numbered>(
    placement: &Placement<T>,
    out: &mut [u8],
) -> Result<usize, SheetFault>
    ensures { let p = placement_fields T.Numbered.numbers placement.now in Written (file.placement_check p) (said.placement_bytes p) out.old out.new result }
{
    let lawful = LawfulPlacement::new(placement)?;
    write_whole(&lawful, out)
}
