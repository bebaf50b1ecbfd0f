//! What a job asks of its sheet.
ghost use Rattle.std.specs.Prelude.{◌≡◌, map, IfOk};
ghost use Rattle.jobs.specs.Steps.{step_of_entry, PlacedBy, AskedBy};

use formats::{Entry, Job};
use length::Length;
use sheet::Step;
use std::alloc::{AllocError, Global};

/// The edit that a group entry asks for.
// (a function, since the types are those of other crates, which alone could convert them)
fn entry_step<'a, T: Length>(entry: Entry) -> Step<'a, T>
    ensures { result ≡ step_of_entry entry }
{
    if entry.first == entry.second {
        Step::Centre(entry.first)
    } else {
        Step::Pair(entry.first, entry.second)
    }
}

/// The placing of a job, with its sizes as they serve.
fn placing<'a, T: Length>(job: &'a Job<T>) -> Step<'a, T>
    ensures { PlacedBy job.now result }
{
    if job.turn.exchanges() {
        Step::Place(&job.heights, &job.widths)
    } else {
        Step::Place(&job.widths, &job.heights)
    }
}

/// An edit for each group entry, in order.
fn edits<'a, T: Length>(heap: Global, entries: &[Entry]) -> Result<Vec<Step<'a, T>>, AllocError>
    ensures { IfOk result (λ steps. steps.items ≡ map step_of_entry entries.now) }
{
    // a closure whose result lends what its argument does not hold gets no proof, so this is no `map` with a `collect`
    let mut steps = Vec::new(heap);
    for asked in entries {
        steps.push(entry_step(*asked))?;
    }
    Ok(steps)
}

/// The edits of a job, and then its placing.
pub(crate) fn steps_of<'a, T: Length>(
    heap: Global,
    job: &'a Job<T>,
) -> Result<Vec<Step<'a, T>>, AllocError>
    ensures { IfOk result (λ steps. AskedBy job.now steps.items) }
{
    let mut steps = edits(heap, &job.entries)?;
    steps.push(placing(job))?;
    Ok(steps)
}
