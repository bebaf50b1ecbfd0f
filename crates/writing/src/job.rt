//! Job files.
ghost use Rattle.std.specs.Prelude.{◌≡◌, ◌≤◌, ◌++◌, take, Ok, Err, MatchResult};
ghost use Rattle.std.proofs.Props.{props};
ghost use Rattle.formats.specs.Files as said;
ghost use Rattle.formats.specs.Held.{order_fields, job_fields};
ghost use Rattle.formats.specs.Writing as file;
ghost use Rattle.formats.specs.Writing.{Written};
ghost use Rattle.writing.specs.Calls.{Puts};

use crate::checks::check_job;
use crate::pen::Pen;
use crate::whole::{Filed, write_whole};
use formats::{Job, OrderLists};
use length::Numbered;
use refusal::SheetFault;

/// A lawful job: one that has a file.
#[derive(Drop)]
pub struct LawfulJob<'a, T: Numbered> {
    pub job: &'a Job<T>,
    pub ghost lawful: { file.job_check (job_fields T.Numbered.numbers job.now) ≡ Ok tt } by { Prim.hlevel props },
}

impl<'a, T: Numbered> LawfulJob<'a, T> {
    /// The job, if it is lawful; else the first of its faults.
    pub fn new(job: &'a Job<T>) -> Result<LawfulJob<'a, T>, SheetFault>
        ensures { MatchResult result (λ l. l.job.now ≡ job.now) (λ f. file.job_check (job_fields T.Numbered.numbers job.now) ≡ Err f) }
    {
        check_job(job)?;
        Ok(LawfulJob { job })
    }

    /// The byte of the file at which the group entry with this index begins; past the last entry, the file's length.
    pub fn entry_offset(&self, entry: usize) -> usize
        ensures { result ≡ said.entry_place (job_fields T.Numbered.numbers self.now.job.now) entry }
    {
        let mut pen = Pen::new(&mut []);
        self.put_up_to(&mut pen, entry);
        pen.size()
    }

    /// Puts the rows or the expression.
    fn put_order(&self, pen: &mut Pen)
        requires { pen.old.at ≤ 10 }
        ensures put { Puts pen.old (said.order_numbers (order_fields self.now.job.now.order)) pen.new }
        ensures few { pen.new.at ≤ 1000 }
    {
        match &self.job.order {
            OrderLists::SequencePair { first, second } => {
                pen.list(first);
                pen.list(second);
            }
            OrderLists::Slicing { expression } => pen.list(expression),
        }
    }

    /// Puts what stands before the entries.
    fn put_before_entries(&self, pen: &mut Pen)
        requires { pen.old.at ≡ 0 }
        ensures put { Puts pen.old (said.before_entries (job_fields T.Numbered.numbers self.now.job.now)) pen.new }
        ensures few { pen.new.at ≤ 10000 }
    {
        let job = self.job;
        pen.number(u32::from(job.order.kind()));
        pen.number(job.count as u32);
        self.put_order(pen);
        pen.number(u32::from(job.turn));
        pen.number(job.processes as u32);
        pen.columns(&job.widths, &job.heights);
        pen.number(job.entries.len() as u32);
    }

    /// Puts the file up to the entry with this index.
    fn put_up_to(&self, pen: &mut Pen, entry: usize)
        requires { pen.old.at ≡ 0 }
        ensures { let j = job_fields T.Numbered.numbers self.now.job.now in Puts pen.old (said.before_entries j ++ said.entry_numbers (take entry j.entries)) pen.new }
    {
        self.put_before_entries(pen);
        let entries = entry.min(self.job.entries.len());
        pen.entries(&self.job.entries[..entries]);
    }
}

impl<'a, T: Numbered> Filed for LawfulJob<'a, T> {
    ghost numbers = { λ l. said.job_numbers (job_fields T.Numbered.numbers l.job.now) };

    fn put(&self, pen: &mut Pen) {
        self.put_up_to(pen, self.job.entries.len());
    }
}

/// Writes a job file into the output and answers how many bytes it has; or refuses, and changes no byte.
pub fn write_job<T: Numbered>(job: &Job<T>, out: &mut [u8]) -> Result<usize, SheetFault>
    ensures { let j = job_fields T.Numbered.numbers job.now in Written (file.job_check j) (said.job_bytes j) out.old out.new result }
{
    let lawful = LawfulJob::new(job)?;
    write_whole(&lawful, out)
}

/// The byte of a job's file at which the group entry with this index begins; past the last entry, the file's length. Refuses
/// a job that cannot be written.
pub fn entry_offset<T: Numbered>(job: &Job<T>, entry: usize) -> Result<usize, SheetFault>
    ensures { let j = job_fields T.Numbered.numbers job.now in MatchResult result (λ at. (file.job_check j ≡ Ok tt) × (at ≡ said.entry_place j entry)) (λ f. file.job_check j ≡ Err f) }
{
    let lawful = LawfulJob::new(job)?;
    Ok(lawful.entry_offset(entry))
}
