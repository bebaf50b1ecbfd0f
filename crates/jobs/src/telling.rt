//! The files that tell what a job came to.
ghost use Rattle.std.specs.Prelude.{◌≡◌, cond, ◌++◌, IfOk, OnOk, All};
ghost use Rattle.numbers.specs.Number.{encode, encode_all};
ghost use Rattle.formats.specs.Files as said;
ghost use Rattle.formats.specs.Choices.{exchanges};
ghost use Rattle.formats.specs.Held.{job_fields, placement_fields};
ghost use Rattle.jobs.specs.Refusals as refused;
ghost use Rattle.sheet.specs.Runs.{Filled, IsFilled};
ghost use Rattle.jobs.specs.Answers.{told, placement_said};

use formats::{Entry, Placement, Turn};
use length::Numbered;
use numbers::write_number;
use refusal::{Refusal, SheetFault};
use sheet::{Answer, Coordinates};
use std::alloc::{AllocError, Global};
use writing::{LawfulJob, LawfulPlacement, write_placement};

/// The most bytes that a number takes.
const NUMBER_ROOM: usize = 5;

/// The largest number that a file can hold, or this one.
fn capped(number: usize) -> u32
    ensures { result ≡ refused.capped number }
{
    u32::try_from(number).unwrap_or(u32::MAX)
}

/// The file of a refusal: its five numbers.
pub(crate) fn refusal_file(heap: Global, refusal: Refusal) -> Result<Vec<u8>, AllocError>
    ensures { IfOk result (λ v. v.items ≡ refused.refusal_bytes refusal) }
{
    let numbers = [
        u32::from(refusal.number),
        u32::from(u8::from(refusal.layer)),
        capped(refusal.offset),
        capped(refusal.first),
        capped(refusal.second),
    ];
    number_file(heap, &numbers)
}

/// Puts the bytes of a number behind these.
fn push_number(bytes: &mut Vec<u8>, number: u32) -> Result<(), AllocError>
    ensures { OnOk result (bytes.new.items ≡ bytes.old.items ++ encode number) }
{
    // (few bytes on the stack: writing goes into bytes that are lent)
    let mut groups = [0u8; NUMBER_ROOM];
    let size = write_number(&mut groups, 0, number);
    bytes.extend_from_slice(&groups[..size])
}

/// The file of these numbers.
fn number_file(heap: Global, numbers: &[u32]) -> Result<Vec<u8>, AllocError>
    ensures { IfOk result (λ v. v.items ≡ encode_all numbers.now) }
{
    let mut bytes = Vec::new(heap);
    for number in numbers {
        push_number(&mut bytes, *number)?;
    }
    Ok(bytes)
}

/// The file of a placement.
fn placement_file<T: Numbered>(
    heap: Global,
    lawful: &LawfulPlacement<T>,
) -> Result<Vec<u8>, AllocError>
    ensures { IfOk result (λ v. v.items ≡ said.placement_bytes (placement_fields T.Numbered.numbers lawful.now.placement.now)) }
{
    let mut bytes = vec![in heap; 0u8; lawful.size()]?;
    let _ = write_placement(lawful.placement, &mut bytes);
    Ok(bytes)
}

/// The two edges of each cell as the file has them: where the turn exchanges them, x is what the placing gave as y.
fn edges<'a, T: Numbered>(turn: Turn, placed: &'a Coordinates<T>) -> (&'a [T], &'a [T])
    ensures x { result.0.now ≡ cond (exchanges turn) placed.now.y.items placed.now.x.items }
    ensures y { result.1.now ≡ cond (exchanges turn) placed.now.x.items placed.now.y.items }
{
    if turn.exchanges() {
        (&placed.y, &placed.x)
    } else {
        (&placed.x, &placed.y)
    }
}

/// A list of these lengths.
fn copy_of<T: Numbered>(heap: Global, list: &[T]) -> Result<Vec<T>, AllocError>
    ensures { IfOk result (λ v. v.items ≡ list.now) }
{
    // `to_vec` clones, and of a clone of any length no law says that it is the same length
    list.iter().copied().collect(heap)
}

/// The file of what a job's placing gave.
fn placed_file<T: Numbered>(
    heap: Global,
    lawful: &LawfulJob<T>,
    placed: &Coordinates<T>,
) -> Result<Vec<u8>, AllocError>
    requires { Filled lawful.now.job.now.count placed.now }
    ensures { IfOk result (λ v. v.items ≡ said.placement_bytes (placement_said T.Numbered.numbers (job_fields T.Numbered.numbers lawful.now.job.now) placed.now)) }
{
    let job = lawful.job;
    let (x, y) = edges(job.turn, placed);
    let placement = Placement {
        count: job.count,
        processes: job.processes,
        half_span: placed.extent.half_span,
        depth: placed.extent.depth,
        x: copy_of(heap, x)?,
        y: copy_of(heap, y)?,
    };
    placement_file(
        heap,
        &LawfulPlacement {
            placement: &placement,
        },
    )
}

/// The index of the first entry that has the cell; how many there are, where none has.
// (no `Option`: past the last entry stands the end of the file, and its place is what the register would tell)
fn entry_with(cell: usize, entries: &[Entry]) -> usize
    ensures { result ≡ refused.entry_with_cell cell entries.now }
{
    entries
        .iter()
        .position(|entry| entry.first == cell || entry.second == cell)
        .unwrap_or(entries.len())
}

/// Where in its file a fault of a job's placing is told.
fn placing_place<T: Numbered>(lawful: &LawfulJob<T>, fault: SheetFault) -> usize
    ensures { result ≡ refused.place_of_placing (job_fields T.Numbered.numbers lawful.now.job.now) fault }
{
    match fault {
        SheetFault::PairSizesDiffer { cell, .. } | SheetFault::OddCentre { cell } => {
            lawful.entry_offset(entry_with(cell, &lawful.job.entries))
        }
        _ => 0,
    }
}

/// Where in its file a fault of a job's step is told.
fn fault_place<T: Numbered>(lawful: &LawfulJob<T>, step: usize, fault: SheetFault) -> usize
    ensures { result ≡ refused.place_of_fault (job_fields T.Numbered.numbers lawful.now.job.now) step fault }
{
    if step < lawful.job.entries.len() {
        lawful.entry_offset(step)
    } else {
        placing_place(lawful, fault)
    }
}

/// The file that tells what the steps of a job came to.
pub(crate) fn tell<T: Numbered>(
    heap: Global,
    lawful: &LawfulJob<T>,
    answers: &[Answer<T>],
) -> Result<Vec<u8>, AllocError>
    requires { All (IsFilled lawful.now.job.now.count) answers.now }
    ensures { IfOk result (λ v. v.items ≡ told T.Numbered.numbers (job_fields T.Numbered.numbers lawful.now.job.now) 0 answers.now) }
{
    for (step, answer) in answers.iter().enumerate() {
        match answer {
            Answer::Edited => {}
            Answer::Refused(fault) => {
                let offset = fault_place(lawful, step, *fault);
                return refusal_file(heap, fault.refusal_at(offset));
            }
            Answer::Placed(placed) => return placed_file(heap, lawful, placed),
        }
    }
    Ok(Vec::new(heap))
}
