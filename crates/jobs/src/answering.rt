//! What a job file comes to.
ghost use Rattle.std.specs.Prelude.{◌≡◌, IfOk, Ok};
ghost use Rattle.formats.specs.Held.{order_fields, job_fields};
ghost use Rattle.formats.specs.Writing as file;
ghost use Rattle.jobs.specs.Steps.{Means};
ghost use Rattle.reading.specs.Held.{any_job};
ghost use Rattle.jobs.specs.Answers.{CameBy, Comes, ComesOf, RefusedBy, Answers};

use crate::steps::steps_of;
use crate::telling::{refusal_file, tell};
use book::{Book, Flipped, SequencePair, Slicing, Transposed};
use formats::{OrderLists, Turn};
use length::Numbered;
use reading::{AnyJob, ReadError, read_job};
use refusal::Refusal;
use roundtrip::job_laws;
use sheet::run;
use std::alloc::{AllocError, Global};
use writing::LawfulJob;

/// What a job comes to on the sheet of a book, which is turned already.
fn answer_on<B: Book + Drop, T: Numbered>(
    heap: Global,
    book: B,
    lawful: &LawfulJob<T>,
) -> Result<Vec<u8>, AllocError>
    requires { (B.Book.order book).count ≡ lawful.now.job.now.count }
    ensures { IfOk result (λ v. CameBy T.Length.kind T.Numbered.numbers (B.Book.order book) lawful.now.job.now v.items) }
{
    let steps = steps_of(heap, lawful.job)?;
    let answers = run(heap, book, &steps)?;
    tell(heap, lawful, &answers)
}

/// What a job comes to, where the book means its lists.
fn answer_with<B: Book + Drop, T: Numbered>(
    heap: Global,
    book: B,
    lawful: &LawfulJob<T>,
) -> Result<Vec<u8>, AllocError>
    requires { Means lawful.now.job.now.count (order_fields lawful.now.job.now.order) (B.Book.order book) }
    ensures { IfOk result (λ v. Comes T.Length.kind T.Numbered.numbers (job_fields T.Numbered.numbers lawful.now.job.now) v.items) }
{
    // (each turn is a book of another type, and each arm a call at that type)
    match lawful.job.turn {
        Turn::AsItIs => answer_on(heap, book, lawful),
        Turn::Transposed => answer_on(heap, Transposed::new(book), lawful),
        Turn::Flipped => answer_on(heap, Flipped::new(book), lawful),
        Turn::TransposedFlipped => answer_on(heap, Transposed::new(Flipped::new(book)), lawful),
    }
}

/// What a job comes to.
fn answer_job<T: Numbered>(heap: Global, lawful: &LawfulJob<T>) -> Result<Vec<u8>, AllocError>
    ensures { IfOk result (λ v. Comes T.Length.kind T.Numbered.numbers (job_fields T.Numbered.numbers lawful.now.job.now) v.items) }
{
    let job = lawful.job;
    // the two books are of two types, so each arm has a call of its own
    match &job.order {
        OrderLists::SequencePair { first, second } => {
            match SequencePair::new(job.count, first, second) {
                Ok(book) => answer_with(heap, book, lawful),
                Err(fault) => refusal_file(heap, Refusal::from(fault)),
            }
        }
        OrderLists::Slicing { expression } => match Slicing::new(job.count, expression) {
            Ok(book) => answer_with(heap, book, lawful),
            Err(fault) => refusal_file(heap, Refusal::from(fault)),
        },
    }
}

/// What a job comes to, with one number a length or with three.
fn answer_any(heap: Global, job: &AnyJob) -> Result<Vec<u8>, AllocError>
    requires { file.job_check (any_job job.now) ≡ Ok tt }
    ensures { IfOk result (λ v. ComesOf job.now v.items) }
{
    match job {
        AnyJob::One(job) => answer_job(heap, &LawfulJob { job }),
        AnyJob::Three(job) => answer_job(heap, &LawfulJob { job }),
    }
}

/// What a file comes to that is no job.
fn answer_refused(heap: Global, error: ReadError) -> Result<Vec<u8>, AllocError>
    ensures { IfOk result (λ v. RefusedBy error v.items) }
{
    match error {
        ReadError::Refused(fault) => refusal_file(heap, Refusal::from(fault)),
        ReadError::Memory => Err(AllocError),
    }
}

/// What a job file comes to: the bytes of its placement file, or those of the first refusal.
///
/// Every run of bytes comes to exactly one of them. Want of memory is an `AllocError` of the call, and no refusal.
pub fn answer(heap: Global, job: &[u8]) -> Result<Vec<u8>, AllocError>
    ensures { IfOk result (λ v. Answers job.now v.items) }
{
    job_laws();
    match read_job(heap, job) {
        Ok(read) => answer_any(heap, &read),
        Err(error) => answer_refused(heap, error),
    }
}
