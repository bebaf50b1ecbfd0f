//! Random swaps on a sheet, each judged and, where it is done, placed: a figure for the speed of a run.
//!
//! `speed SWAPS CELLS BOOK LENGTHS` has CELLS 8, 16, 32 or 64, BOOK `pair` (a sequence-pair) or `slicing`, and LENGTHS `one`
//! or `three` (numbers a length). The same words give the same line, here and in any other program of the same rule.
#![tactic(auto)]

mod dice;
mod start;
mod tally;

ghost use Rattle.std.specs.Prelude.{◌≤◌};
ghost use Rattle.book.specs.Order.{most_cells};

use anyhow::{Context, bail};
use book::{Book, SequencePair, Slicing};
use dice::Dice;
use length::{Numbered, PerProcess, Plain};
use sheet::Sheet;
use start::Held;
use std::alloc::Global;
use std::env;
use tally::Tally;

const USAGE: &str = "usage: speed SWAPS 8|16|32|64 pair|slicing one|three";

/// Does so many random swaps on a sheet, and places it after each that is done.
fn swaps<B: Book, T: Numbered>(sheet: &mut Sheet<B>, lists: &mut Held<T>, count: u32) -> Tally {
    let n = sheet.count();
    let mut dice = Dice::new();
    let mut tally = Tally::default();
    for _ in 0..count {
        let a = dice.below(n);
        let b = dice.below(n);
        if let Err(fault) = sheet.swap(a, b) {
            tally.refuse(fault);
            continue;
        }
        match lists.place(sheet) {
            Ok(extent) => tally.place(extent, &lists.x, &lists.y),
            Err(fault) => tally.refuse(fault),
        }
    }
    tally
}

/// Swaps on the sheet of a book of `n` cells, with one kind of length, and says what they came to.
fn report<B: Book + Drop, T: Numbered>(
    rt: &HostRuntime,
    book: B,
    n: usize,
    count: u32,
) -> anyhow::Result<()>
    requires { n ≤ most_cells }
{
    let mut sheet = Sheet::new(book);
    start::group(&mut sheet).context("the group was refused")?;
    let mut lists = start::lists_of::<T>(rt.alloc(), n)?;
    let Tally { done, refused, sum } = swaps(&mut sheet, &mut lists, count);
    println!(rt; "{count} swaps: {done} done and placed, {refused} refused, checksum {sum}")?;
    Ok(())
}

/// The sequence-pair that the swaps begin with.
fn sequence_pair(heap: Global, n: usize) -> anyhow::Result<SequencePair>
    requires { n ≤ most_cells }
{
    let (first, second) = (start::first_row(heap, n)?, start::second_row(heap, n)?);
    SequencePair::new(n, &first, &second).context("the order makes no book")
}

/// The slicing expression that the swaps begin with.
fn slicing(heap: Global, n: usize) -> anyhow::Result<Slicing>
    requires { n ≤ most_cells }
{
    let expression = start::expression(heap, n)?;
    Slicing::new(n, &expression).context("the order makes no book")
}

fn run(rt: &HostRuntime) -> anyhow::Result<()> {
    let heap = rt.alloc();
    let words: Vec<String> = env::args(rt)?.skip(1).collect(heap)?;
    let [count, cells, book, lengths] = words.as_slice() else {
        bail!(USAGE);
    };
    let count = count.parse()?;
    let n = cells.parse()?;
    if !matches!(n, 8 | 16 | 32 | 64) {
        bail!(USAGE);
    }
    // (four calls at four types; enums with `FromStr` would say the same words twice more)
    match (book.as_str(), lengths.as_str()) {
        ("pair", "one") => report::<_, Plain>(rt, sequence_pair(heap, n)?, n, count),
        ("pair", "three") => report::<_, PerProcess>(rt, sequence_pair(heap, n)?, n, count),
        ("slicing", "one") => report::<_, Plain>(rt, slicing(heap, n)?, n, count),
        ("slicing", "three") => report::<_, PerProcess>(rt, slicing(heap, n)?, n, count),
        _ => bail!(USAGE),
    }
}

fn main(rt: HostRuntime) -> anyhow::Result<()> {
    run(&rt)
}
