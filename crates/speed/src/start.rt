//! Where the swaps begin: the order, the group and the sizes of so many cells.
//!
//! The first eighth of the cells and the last are pairs, nested about all others; the cell in the middle is centred. The
//! cells between lie beside and above each other in about equal parts, as orders of an annealer do.
ghost use Rattle.std.specs.Prelude.{◌≡◌, ◌/◌, ◌<◌, ◌≤◌};
ghost use Rattle.book.specs.Order.{most_cells};

use book::Book;
use length::Numbered;
use placing::Extent;
use refusal::SheetFault;
use sheet::Sheet;
use std::alloc::{AllocError, Global};

/// How many pairs `n` cells have.
fn pairs(n: usize) -> usize
    ensures { result ≡ n / 8 }
{
    n / 8
}

/// The first row: every cell in the order of its number.
pub(crate) fn first_row(heap: Global, n: usize) -> Result<Vec<usize>, AllocError> {
    (0..n).collect(heap)
}

/// The cell at a place of the second row: those between the pairs are taken in steps of five, so that one cell is left of some
/// and above others.
fn second_at(place: usize, n: usize) -> usize
    requires place { place < n }
    requires most { n ≤ most_cells }
{
    let pairs = pairs(n);
    let between = n - 2 * pairs;
    if (pairs..pairs + between).contains(&place) {
        pairs + (5 * (place - pairs) + 2) % between
    } else {
        place
    }
}

/// The second row.
pub(crate) fn second_row(heap: Global, n: usize) -> Result<Vec<usize>, AllocError>
    requires { n ≤ most_cells }
{
    (0..n).map(|place| second_at(place, n)).collect(heap)
}

/// The expression: three cells a time, two side by side and one above them, each three put beside those before or above
/// them by turns; and then the pairs to both sides of all.
pub(crate) fn expression(heap: Global, n: usize) -> Result<Vec<usize>, AllocError>
    requires { n ≤ most_cells }
{
    let pairs = pairs(n);
    let between = n - 2 * pairs;
    let (beside, above) = (n, n + 1);
    let mut list: Vec<usize> = (0..pairs).collect(heap)?;
    for i in 0..between / 3 {
        let cell = pairs + 3 * i;
        list.extend([cell, cell + 1, beside, cell + 2, above])?;
        if i > 0 {
            list.push(if i % 2 == 0 { beside } else { above })?;
        }
    }
    for left in (0..pairs).rev() {
        list.extend([beside, n - 1 - left, beside])?;
    }
    Ok(list)
}

/// Makes the group of a sheet: the pairs, and the centred cell.
pub(crate) fn group<B: Book>(sheet: &mut Sheet<B>) -> Result<(), SheetFault> {
    let n = sheet.count();
    for left in 0..pairs(n) {
        sheet.pair(left, n - 1 - left)?;
    }
    sheet.centre(n / 2)
}

/// The lists of a placing, as their owner holds them.
// (lists side by side, as a placing takes them)
#[derive(Drop)]
pub(crate) struct Held<T> {
    widths: Vec<T>,
    heights: Vec<T>,
    work: Vec<T>,
    pub(crate) x: Vec<T>,
    pub(crate) y: Vec<T>,
}

impl<T: Numbered> Held<T> {
    /// Places a sheet in the lists.
    pub(crate) fn place<B: Book>(&mut self, sheet: &Sheet<B>) -> Result<Extent<T>, SheetFault> {
        sheet.place(
            &self.widths,
            &self.heights,
            &mut self.work,
            &mut self.x,
            &mut self.y,
        )
    }
}

/// A number of a size, from 20 to 60.
fn number(seed: usize) -> u32
    ensures { result ≤ 60 }
{
    20 + (seed % 41) as u32
}

/// The cell that a cell of `n` has its size of: a right member has that of its mate.
fn sized_as(cell: usize, n: usize) -> usize
    requires { cell < n }
    ensures { result < n }
{
    if cell < n - pairs(n) {
        cell
    } else {
        n - 1 - cell
    }
}

/// The width of a cell of `n`: twice as wide where the cell is centred, so that the width is even.
fn width<T: Numbered>(cell: usize, n: usize) -> T
    requires cell { cell < n }
    requires most { n ≤ most_cells }
{
    let times = if cell == n / 2 { 2 } else { 1 };
    let seed = 37 * sized_as(cell, n);
    T::from_numbers([
        times * number(seed),
        times * number(seed + 5),
        times * number(seed + 10),
    ])
}

/// The height of a cell of `n`.
fn height<T: Numbered>(cell: usize, n: usize) -> T
    requires cell { cell < n }
    requires most { n ≤ most_cells }
{
    let seed = 23 * sized_as(cell, n);
    T::from_numbers([number(seed), number(seed + 7), number(seed + 14)])
}

/// The lists of a placing of `n` cells, with sizes that vary from cell to cell and agree between mates.
pub(crate) fn lists_of<T: Numbered>(heap: Global, n: usize) -> Result<Held<T>, AllocError>
    requires { n ≤ most_cells }
{
    Ok(Held {
        widths: (0..n).map(|cell| width(cell, n)).collect(heap)?,
        heights: (0..n).map(|cell| height(cell, n)).collect(heap)?,
        work: vec![in heap; T::zero(); 2 * n]?,
        x: vec![in heap; T::zero(); n]?,
        y: vec![in heap; T::zero(); n]?,
    })
}
