//! Job files.
ghost use Rattle.std.specs.Prelude.{◌≡◌, ◌⊎◌, IfOk, Ok, MatchResult};
ghost use Rattle.formats.specs.Reading as file;
ghost use Rattle.formats.specs.Held.{job_fields};
ghost use Rattle.reading.specs.Calls.{TookAs, Fails};
ghost use Rattle.reading.specs.Held.{head_of, any_job};

use crate::error::ReadError;
use crate::lengths::{Allowed, Columns};
use crate::reader::Reader;
use formats::{Job, OrderLists, Turn};
use length::{Numbered, PerProcess, Plain};
use std::alloc::Global;

/// A job with one number a length, or with one for each of three processes.
// One enum for jobs and placements would need two parameters and two aliases, and be no shorter.
#[derive(Drop)]
pub enum AnyJob {
    One(Job<Plain>),
    Three(Job<PerProcess>),
}

/// What a job says before its sizes.
#[derive(Drop)]
pub(crate) struct Head {
    count: usize,
    order: OrderLists,
    turn: Turn,
    processes: usize,
}

impl<'a> Reader<'a> {
    /// The fields before the sizes.
    fn head(&mut self, heap: Global) -> Result<Head, ReadError>
        ensures within { IfOk result (λ h. (h.processes ≡ 1) ⊎ (h.processes ≡ 3)) }
        ensures told { TookAs head_of file.head self.old result self.new }
    {
        let kind = self.book_kind()?;
        let count = self.count()?;
        let order = self.order(heap, kind, count)?;
        let turn = self.turn()?;
        let processes = self.processes()?;
        Ok(Head {
            count,
            order,
            turn,
            processes,
        })
    }

    /// The sizes and the group entries.
    fn body<T: Numbered>(&mut self, heap: Global, head: Head) -> Result<Job<T>, ReadError>
        requires { head.processes ≡ T.NUMBERS }
        ensures { TookAs (job_fields T.Numbered.numbers) (file.body (head_of head)) self.old result self.new }
    {
        let Head {
            count,
            order,
            turn,
            processes,
        } = head;
        let sizes = self.columns(heap, Allowed::Sizes, count)?;
        let entry_count = self.number()?;
        let entries = self.entries(heap, count, entry_count)?;
        let Columns { firsts, seconds } = sizes;
        Ok(Job {
            count,
            order,
            turn,
            processes,
            widths: firsts,
            heights: seconds,
            entries,
        })
    }

    /// The same, with as many numbers a length as the head says.
    fn any_body(&mut self, heap: Global, head: Head) -> Result<AnyJob, ReadError>
        requires { (head.processes ≡ 1) ⊎ (head.processes ≡ 3) }
        ensures { TookAs any_job (file.body (head_of head)) self.old result self.new }
    {
        if head.processes == 1 {
            Ok(AnyJob::One(self.body(heap, head)?))
        } else {
            Ok(AnyJob::Three(self.body(heap, head)?))
        }
    }
}

/// Reads a job file.
pub fn read_job(heap: Global, bytes: &[u8]) -> Result<AnyJob, ReadError>
    ensures { MatchResult result (λ j. file.read_job_of bytes.now ≡ Ok (any_job j)) (Fails (file.read_job_of bytes.now)) }
{
    let mut reader = Reader::new(bytes);
    let head = reader.head(heap)?;
    let job = reader.any_body(heap, head)?;
    reader.end()?;
    Ok(job)
}
