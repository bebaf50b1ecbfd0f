//! The rules of single fields.
ghost use Rattle.std.specs.Prelude.{◌≡◌};
ghost use Rattle.formats.specs.Rules as rule;

use crate::fields::{BookKind, Entry};
use book::{JOINED, MOST_CELLS};

/// Whether there can be so many cells.
// (a book refuses by the same rule; a file's fault is told at its byte, so here is the rule alone)
pub fn is_count(n: usize) -> bool
    ensures { result ≡ rule.is_cell_count n }
{
    n > 0 && n <= MOST_CELLS
}

/// How many parts wait after these numbers of an expression over `n` cells.
fn waiting(n: usize, before: &[usize]) -> usize
    ensures { result ≡ rule.waiting n 0 before.now }
{
    // no `fold`, which does not prove: the sum in its closure would have to fit after any count of parts
    let mut parts: usize = 0;
    for number in before {
        if *number < n {
            parts += 1;
        } else {
            parts = parts.saturating_sub(1);
        }
    }
    parts
}

/// Whether `number` may follow these in a row, or in an expression, over `n` cells.
pub fn fits(kind: BookKind, n: usize, before: &[usize], number: usize) -> bool
    ensures { result ≡ rule.fits kind n before.now number }
{
    if number < n {
        return !before.contains(&number);
    }
    match kind {
        BookKind::SequencePair => false,
        BookKind::Slicing => number - n <= 1 && waiting(n, before) >= JOINED,
    }
}

impl Entry {
    /// Whether the entry has the cell.
    fn names(self, cell: usize) -> bool
        ensures { result ≡ rule.names self cell }
    {
        self.first == cell || self.second == cell
    }

    /// Whether `next` may come after this entry.
    fn precedes(self, next: Entry) -> bool
        ensures { result ≡ rule.follows self next }
    {
        self.first < next.first && !self.names(next.first) && !self.names(next.second)
    }
}

/// Whether `next` may come after each of these.
fn follows_all(before: &[Entry], next: Entry) -> bool
    ensures { result ≡ rule.entry_follows_all before.now next }
{
    before.iter().all(|entry| entry.precedes(next))
}

/// Whether an entry of a group over `n` cells may follow these.
pub fn fits_entry(n: usize, before: &[Entry], entry: Entry) -> bool
    ensures { result ≡ rule.entry_fits n before.now entry }
{
    entry.first <= entry.second && entry.second < n && follows_all(before, entry)
}
