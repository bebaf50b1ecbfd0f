//! Random swaps on a sheet of 64 cells, each judged and, where it is done, placed: a figure for the speed of a run.
#![tactic(auto)]

ghost use Rattle.std.specs.Prelude.{◌<◌};

use anyhow::Context;
use book::{MOST_CELLS, SequencePair};
use length::Plain;
use placing::Extent;
use refusal::SheetFault;
use sheet::Sheet;
use std::{array, env};

/// How many pairs the sheet has: the first and the last cell of each run of the second row, cells 0 and 7, 8 and 15, and so on.
const PAIRS: usize = 8;

/// Numbers that look random, the same in every run.
// `speed` has its own: each program is whole by itself, and a crate for one line of arithmetic would be no plainer.
#[derive(Clone, Copy)]
struct Dice(u64);

impl Dice {
    /// A cell.
    fn cell(&mut self) -> usize {
        self.0 = self
            .0
            .wrapping_mul(6364136223846793005)
            .wrapping_add(1442695040888963407);
        ((self.0 >> 33) % 64) as usize
    }
}

/// The first row: every cell in the order of its number.
fn first_row() -> [usize; MOST_CELLS] {
    array::from_fn(|place| place)
}

/// The second row: eight runs of eight cells, the last run first, so that cells are left of some and above others.
fn second_row() -> [usize; MOST_CELLS] {
    array::from_fn(
        |place| -> usize
            requires { place < 64 }
        { 56 - place / 8 * 8 + place % 8 },
    )
}

/// What the swaps came to. (`speed` takes each edge into its sum, and has a tally of its own.)
#[derive(Clone, Copy, Default)]
struct Tally {
    done: u32,
    refused: u32,
    sum: u64,
}

impl Tally {
    /// Counts a swap that is done, with the placement that it leads to.
    fn place(&mut self, extent: Extent<Plain>) {
        self.done = self.done.wrapping_add(1);
        self.sum = self
            .sum
            .wrapping_mul(31)
            .wrapping_add(u64::from(extent.half_span.0))
            .wrapping_add(u64::from(extent.depth.0));
    }
}

fn swaps(count: u32) -> Result<Tally, SheetFault> {
    let mut sheet = Sheet::new(SequencePair::new(MOST_CELLS, &first_row(), &second_row())?);
    for run in 0..PAIRS {
        sheet.pair(8 * run, 8 * run + 7)?;
    }
    let (widths, heights) = ([Plain(40); MOST_CELLS], [Plain(30); MOST_CELLS]);
    let (mut work, mut x, mut y) = (
        [Plain(0); 2 * MOST_CELLS],
        [Plain(0); MOST_CELLS],
        [Plain(0); MOST_CELLS],
    );
    let mut dice = Dice(1);
    let mut tally = Tally::default();
    for _ in 0..count {
        if sheet.swap(dice.cell(), dice.cell()).is_ok() {
            let extent = sheet.place(&widths, &heights, &mut work, &mut x, &mut y)?;
            tally.place(extent);
        } else {
            tally.refused = tally.refused.wrapping_add(1);
        }
    }
    Ok(tally)
}

fn main(rt: HostRuntime) -> anyhow::Result<()> {
    // the last word counts; with none, nothing is swapped
    let count = env::args(&rt)?
        .skip(1)
        .try_fold(0, |_, word| word.parse::<u32>())?;
    let Tally { done, refused, sum } = swaps(count).context("the sheet was refused")?;
    println!(rt; "{count} swaps: {done} done and placed, {refused} refused, checksum {sum}")?;
    Ok(())
}
