//! Reading a slicing expression: the parts that wait, as the two rows of the sequence-pair that they amount to.
ghost use Rattle.std.specs.Prelude.{◌≡◌, ◌+◌, ◌*◌, ◌≤◌, List, [], ◌∷◌, length, MatchOption, MatchResult};
ghost use Rattle.book.specs.Order.{most_cells};
ghost use Rattle.book.specs.Slicing.{Part, cell, beside, stacked, Read};
ghost use Rattle.book.specs.Waiting.{Holds, Roomy, Stackable, Once, Unread, Whole, BreaksAt};

use crate::relation::MOST_CELLS;
use arrayvec::ArrayVec;
use refusal::FieldFault;

/// How many waiting parts of a slicing expression a join takes.
pub const JOINED: usize = 2;

/// The parts that wait while an expression is read, from the earliest to the latest, as two rows of cells.
///
/// Two parts side by side keep their order in both rows; of two stacked parts the later comes first in the first row.
#[derive(Drop)]
pub(crate) struct Waiting {
    /// The place in both rows at which each part begins.
    starts: ArrayVec<usize, MOST_CELLS>,
    pub(crate) first: ArrayVec<usize, MOST_CELLS>,
    pub(crate) second: ArrayVec<usize, MOST_CELLS>,
}

impl Waiting {
    fn new() -> Waiting
        ensures { Holds [] result }
    {
        Waiting {
            starts: ArrayVec::new(),
            first: ArrayVec::new(),
            second: ArrayVec::new(),
        }
    }

    /// One cell more waits, as a part.
    fn push(&mut self, number: usize)
        requires { Roomy self.old }
        ensures { (ps : List Part) → Holds ps self.old → Holds (cell number ∷ ps) self.new }
    {
        self.starts.push(self.second.len());
        self.first.push(number);
        self.second.push(number);
    }

    /// Joins the last two parts side by side: the rows have them so already.
    fn join(&mut self)
        ensures { (p q : Part) (ps : List Part) → Holds (q ∷ p ∷ ps) self.old → Holds (beside p q ∷ ps) self.new }
    {
        self.starts.pop();
    }

    /// Stacks the last two parts: the later one comes first in the first row.
    fn stack(&mut self)
        requires { Stackable self.old }
        ensures { (p q : Part) (ps : List Part) → Holds (q ∷ p ∷ ps) self.old → Holds (stacked p q ∷ ps) self.new }
    {
        let parts = self.starts.len();
        let earlier = self.starts[parts - 2];
        let later = self.starts[parts - 1];
        self.first[earlier..].rotate_left(later - earlier);
        self.starts.pop();
    }

    /// Reads one number of an expression over `n` cells; where it breaks the expression, nothing is read.
    fn read(&mut self, n: usize, number: usize) -> Option<()>
        requires few { n ≤ most_cells }
        requires held { (ps : List Part) × Holds ps self.old × Once n ps }
        ensures { (ps : List Part) → Holds ps self.old → Once n ps → MatchOption result (Unread n number ps × (self.new ≡ self.old)) (λ _. (qs : List Part) × Read n number ps qs × Holds qs self.new × Once n qs) }
    {
        if number < n {
            if self.second.contains(&number) {
                return None;
            }
            self.push(number);
            return Some(());
        }
        if number > n + 1 || self.starts.len() < JOINED {
            return None;
        }
        if number == n {
            self.join();
        } else {
            self.stack();
        }
        Some(())
    }
}

/// Reads an expression of 2`n` − 1 numbers to its end.
pub(crate) fn read_expression(n: usize, expression: &[usize]) -> Result<Waiting, FieldFault>
    requires few { n ≤ most_cells }
    requires long { length expression.now + 1 ≡ 2 * n }
    ensures { MatchResult result (λ w. Whole n expression.now w) (λ f. BreaksAt n expression.now f) }
{
    let mut waiting = Waiting::new();
    for (i, number) in expression.iter().enumerate() {
        waiting.read(n, *number).ok_or(FieldFault::Order {
            at: 0,
            list: 1,
            place: i,
        })?;
    }
    Ok(waiting)
}
