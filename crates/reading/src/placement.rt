//! Placement files.
ghost use Rattle.std.specs.Prelude.{◌≡◌, ◌⊎◌, IfOk, Ok, MatchResult};
ghost use Rattle.formats.specs.Reading as file;
ghost use Rattle.formats.specs.Held.{placement_fields};
ghost use Rattle.reading.specs.Calls.{TookBy, TookAs, Fails};
ghost use Rattle.reading.specs.Held.{placement_head_of, any_placement};

use crate::error::ReadError;
use crate::lengths::{Allowed, Columns};
use crate::reader::Reader;
use formats::Placement;
use length::{Numbered, PerProcess, Plain};
use refusal::{FieldFault, Side};
use std::alloc::Global;

/// A placement with one number a length, or with one for each of three processes.
// (no enum in common with `AnyJob`, which says why)
#[derive(Drop)]
pub enum AnyPlacement {
    One(Placement<Plain>),
    Three(Placement<PerProcess>),
}

/// What a placement says before its lengths.
#[derive(Clone, Copy)]
pub(crate) struct PlacementHead {
    count: usize,
    processes: usize,
}

impl<'a> Reader<'a> {
    /// The fields before the lengths.
    fn placement_head(&mut self) -> Result<PlacementHead, FieldFault>
        ensures within { IfOk result (λ h. (h.processes ≡ 1) ⊎ (h.processes ≡ 3)) }
        ensures told { TookBy placement_head_of file.placement_head_of self.old result self.new }
    {
        let _mark = self.mark()?;
        let count = self.count()?;
        let processes = self.processes()?;
        Ok(PlacementHead { count, processes })
    }

    /// The half-span, the depth, and where each cell stands.
    fn placement_body<T: Numbered>(
        &mut self,
        heap: Global,
        head: PlacementHead,
    ) -> Result<Placement<T>, ReadError>
        requires { head.processes ≡ T.NUMBERS }
        ensures { TookAs (placement_fields T.Numbered.numbers) (file.placement_body_at (placement_head_of head)) self.old result self.new }
    {
        let half_span = self.length(Allowed::Any, 0, Side::Width)?;
        let depth = self.length(Allowed::Any, 0, Side::Height)?;
        let columns = self.columns(heap, Allowed::Any, head.count)?;
        let Columns { firsts, seconds } = columns;
        Ok(Placement {
            count: head.count,
            processes: head.processes,
            half_span,
            depth,
            x: firsts,
            y: seconds,
        })
    }

    /// The same, with as many numbers a length as the head says.
    fn any_placement_body(
        &mut self,
        heap: Global,
        head: PlacementHead,
    ) -> Result<AnyPlacement, ReadError>
        requires { (head.processes ≡ 1) ⊎ (head.processes ≡ 3) }
        ensures { TookAs any_placement (file.placement_body_at (placement_head_of head)) self.old result self.new }
    {
        if head.processes == 1 {
            Ok(AnyPlacement::One(self.placement_body(heap, head)?))
        } else {
            Ok(AnyPlacement::Three(self.placement_body(heap, head)?))
        }
    }
}

/// Reads a placement file.
pub fn read_placement(heap: Global, bytes: &[u8]) -> Result<AnyPlacement, ReadError>
    ensures { MatchResult result (λ p. file.read_placement_of bytes.now ≡ Ok (any_placement p)) (Fails (file.read_placement_of bytes.now)) }
{
    let mut reader = Reader::new(bytes);
    let head = reader.placement_head()?;
    let placement = reader.any_placement_body(heap, head)?;
    reader.end()?;
    Ok(placement)
}
