//! Whole runs: a list of steps on a sheet, and what each came to.
ghost use Rattle.std.specs.Prelude.{◌≡◌, length, IfOk, All};
ghost use Rattle.group.specs.Group.{sheet_of};
ghost use Rattle.sheet.specs.Runs.{Came, PlacedAnew, IsFilled, WholeRun, told};

use crate::sheet::Sheet;
use crate::steps::{Answer, Coordinates, Step};
use book::Book;
use length::Length;
use refusal::SheetFault;
use std::alloc::{AllocError, Global};

impl<T> From<Result<(), SheetFault>> for Answer<T> {
    ghost from_gives = { λ r a. a ≡ told r };

    fn from(edited: Result<(), SheetFault>) -> Answer<T> {
        match edited {
            Ok(()) => Answer::Edited,
            Err(fault) => Answer::Refused(fault),
        }
    }
}

impl<B: Book> Sheet<B> {
    /// Places the cells in lists made for it.
    fn place_anew<T: Length>(
        &self,
        heap: Global,
        widths: &[T],
        heights: &[T],
    ) -> Result<Answer<T>, AllocError>
        ensures filled { IfOk result (λ a. IsFilled (B.Book.order self.now.book).count a) }
        ensures anew { IfOk result (λ a. PlacedAnew T.Length.kind (sheet_of (B.Book.order self.now.book) self.now.group) widths.now heights.now a) }
    {
        let n = self.count();
        let mut work = vec![in heap; T::zero(); 2 * n]?;
        let mut x = vec![in heap; T::zero(); n]?;
        let mut y = vec![in heap; T::zero(); n]?;
        match self.place(widths, heights, &mut work, &mut x, &mut y) {
            Ok(extent) => Ok(Answer::Placed(Coordinates { work, x, y, extent })),
            Err(fault) => Ok(Answer::Refused(fault)),
        }
    }

    /// Does one step.
    fn step<T: Length>(&mut self, heap: Global, step: Step<T>) -> Result<Answer<T>, AllocError>
        ensures filled { IfOk result (λ a. IsFilled (B.Book.order self.old.book).count a) }
        ensures came { IfOk result (λ a. Came T.Length.kind (sheet_of (B.Book.order self.old.book) self.old.group) (sheet_of (B.Book.order self.new.book) self.new.group) step.entry a) }
    {
        // (steps are data, a caller's list of them: no closures, whose promises a list could not tell)
        let edited = match step {
            Step::Swap(a, b) => self.swap(a, b),
            Step::Pair(a, b) => self.pair(a, b),
            Step::Centre(a) => self.centre(a),
            Step::Release(a) => self.release(a),
            Step::Place(widths, heights) => return self.place_anew(heap, widths, heights),
        };
        Ok(edited.into())
    }
}

/// Makes a sheet of the book, does the steps on it, one after another, and answers what each came to.
///
/// Its contract is the whole promise about sheets: it holds of every book, every kind of length and every list of steps.
pub fn run<B: Book + Drop, T: Length>(
    heap: Global,
    book: B,
    steps: &[Step<T>],
) -> Result<Vec<Answer<T>>, AllocError>
    ensures whole { IfOk result (λ answers. WholeRun T.Length.kind (B.Book.order book) steps.now answers.items) }
    ensures filled { IfOk result (λ answers. All (IsFilled (B.Book.order book).count) answers.items) }
{
    let mut sheet = Sheet::new(book);
    let mut answers = Vec::new(heap);
    // (no `map` with a `collect`: its closure would change the sheet that it captures)
    for step in steps {
        let answer = sheet.step(heap, *step)?;
        answers.push(answer)?;
    }
    Ok(answers)
}
