//! A tour of the libraries: one channel of a reader chip, from its order on.
#![tactic(auto)]

use book::{Book, Flipped, SequencePair, Slicing, Transposed};
use length::{Length, PerProcess, Plain};
use placing::Extent;
use refusal::{Refusal, SheetFault};
use sheet::{Answer, Coordinates, Step, run};
use std::io;

/// The cells of one channel: the amplifier, two matched transistor pairs and the bias cell.
const NAMES: [&str; 6] = ["amp", "in-", "in+", "load-", "load+", "bias"];

const AMPLIFIER: usize = 0;

const BIAS: usize = 5;

/// The loads and the bias stand in one row over the inputs and the amplifier.
const FIRST_ROW: [usize; 6] = [3, 5, 4, 1, 0, 2];

const SECOND_ROW: [usize; 6] = [1, 0, 2, 3, 5, 4];

/// The same as a slicing expression: 6 joins two parts side by side, 7 stacks them.
const EXPRESSION: [usize; 11] = [1, 0, 6, 2, 6, 3, 5, 6, 4, 6, 7];

/// The widths of the channel's cells, and below their heights: two lists, as a placing takes them.
const WIDTHS: [Plain; 6] = [Plain(6), Plain(4), Plain(4), Plain(5), Plain(5), Plain(4)];

const HEIGHTS: [Plain; 6] = [Plain(3), Plain(2), Plain(2), Plain(2), Plain(2), Plain(1)];

/// The error that would end the tour if its channel were refused, which it is not; so every error that comes out is one of writing or of memory.
fn refused(_fault: SheetFault) -> io::Error {
    io::Error::other("the channel is refused")
}

/// What a fault says, in words and as the five numbers that come out.
fn print_refusal(rt: &HostRuntime, fault: SheetFault) -> io::Result<()> {
    let refusal = Refusal::from(fault);
    println!(rt; "  refused: {fault}")?;
    println!(rt; "  ({refusal})")
}

/// One line of a table: how a cell lies to each cell.
fn print_line<B: Book>(rt: &HostRuntime, book: &B, a: usize, name: &str) -> io::Result<()> {
    print!(rt; "  {name:>6} is")?;
    for b in 0..book.count() {
        match book.relation(a, b) {
            Ok(relation) => {
                let words = relation.to_string(rt.alloc())?;
                print!(rt; " {words:>8}")?;
            }
            Err(_) => print!(rt; "        ·")?,
        }
    }
    println!(rt; "")
}

/// How each cell lies to each other one; a line reads "amp is right of in-".
fn print_table<B: Book>(rt: &HostRuntime, book: &B) -> io::Result<()> {
    print!(rt; "           ")?;
    for name in &NAMES {
        print!(rt; " {name:>8}")?;
    }
    println!(rt; "")?;
    for (a, name) in NAMES.iter().enumerate() {
        print_line(rt, book, a, name)?;
    }
    println!(rt; "")
}

/// The channel as two rows: its relations, a swap, and a filling that is refused.
fn tour_rows(rt: &HostRuntime) -> io::Result<()> {
    println!(rt;
        "One channel as a sequence-pair: how the cell on the left of a line lies to each cell."
    )?;
    let mut channel = SequencePair::new(NAMES.len(), &FIRST_ROW, &SECOND_ROW).map_err(refused)?;
    print_table(rt, &channel)?;
    println!(rt; "The amplifier and the bias cell change places.")?;
    channel.swap(AMPLIFIER, BIAS).map_err(refused)?;
    print_table(rt, &channel)?;
    println!(rt; "A second row that names the amplifier twice makes no book.")?;
    if let Err(fault) = channel.fill(NAMES.len(), &FIRST_ROW, &[1, 0, 2, 3, 0, 4]) {
        print_refusal(rt, fault)?;
    }
    println!(rt; "")
}

/// The channel as a slicing expression, as it is and turned.
fn tour_layers(rt: &HostRuntime) -> io::Result<()> {
    let channel = Slicing::new(NAMES.len(), &EXPRESSION).map_err(refused)?;
    println!(rt; "The same channel as a slicing expression.")?;
    print_table(rt, &channel)?;
    println!(rt; "Transposed: what was above is right of, and what was left of is below.")?;
    print_table(rt, &Transposed::new(channel))?;
    println!(rt; "Flipped: left and right are exchanged.")?;
    print_table(rt, &Flipped::new(channel))
}

/// Two widths, each in three processes at once, added and halved.
fn tour_lengths(rt: &HostRuntime) -> io::Result<()> {
    let amplifier = PerProcess {
        first: 60,
        second: 57,
        third: 64,
    };
    let bias = PerProcess {
        first: 31,
        second: 30,
        third: 33,
    };
    println!(rt; "Widths in three processes at once: {amplifier} and {bias}.")?;
    if let Some(sum) = amplifier.plus(bias) {
        let lower = sum.lower_half();
        let upper = sum.upper_half();
        println!(rt; "  together {sum}; half of it, rounded down {lower} and up {upper}")?;
    }
    Ok(())
}

/// The steps of the sheet's run.
const STEPS: [Step<'static, Plain>; 9] = [
    Step::Pair(1, 2),
    Step::Pair(3, 4),
    Step::Centre(AMPLIFIER),
    Step::Centre(BIAS),
    Step::Place(&WIDTHS, &HEIGHTS),
    Step::Swap(1, 3),
    Step::Swap(AMPLIFIER, BIAS),
    Step::Release(BIAS),
    Step::Place(&WIDTHS, &HEIGHTS),
];

/// The name of a cell, or words for a number that is none.
fn name(cell: usize) -> &'static str {
    NAMES.get(cell).copied().unwrap_or("no cell")
}

/// What a step is, in words.
fn print_step(rt: &HostRuntime, step: Step<Plain>) -> io::Result<()> {
    match step {
        Step::Swap(a, b) => println!(rt; "  swap {} and {}", name(a), name(b)),
        Step::Pair(a, b) => println!(rt; "  pair {} and {}", name(a), name(b)),
        Step::Centre(a) => println!(rt; "  centre {}", name(a)),
        Step::Release(a) => println!(rt; "  release {}", name(a)),
        Step::Place(..) => println!(rt; "  place"),
    }
}

/// Whether a cell that begins here and is so long covers this unit of the grid.
fn covers(start: Plain, size: Plain, unit: u64) -> bool {
    let start = u64::from(start.0);
    (start..start + u64::from(size.0)).contains(&unit)
}

/// The cell that covers one unit of the grid, if any.
fn cell_at(placed: &Coordinates<Plain>, column: u64, row: u64) -> Option<usize> {
    let across = placed.x.iter().zip(&WIDTHS);
    let upward = placed.y.iter().zip(&HEIGHTS);
    across.zip(upward).position(|((left, width), (bottom, height))| {
        covers(*left, *width, column) && covers(*bottom, *height, row)
    })
}

/// A drawing of a placement, a unit of the grid to the number of its cell, the axis marked under it.
fn draw(rt: &HostRuntime, placed: &Coordinates<Plain>) -> io::Result<()> {
    let Extent { half_span, depth } = placed.extent;
    for row in (0..u64::from(depth.0)).rev() {
        print!(rt; "    ")?;
        // `as`: of a number from behind a reference, `u64::from` leaves no bound to the proof
        for column in 0..2 * half_span.0 as u64 {
            match cell_at(placed, column, row) {
                Some(cell) => print!(rt; "{cell}")?,
                None => print!(rt; ".")?,
            }
        }
        println!(rt; "")?;
    }
    print!(rt; "    ")?;
    for _ in 0..half_span.0 {
        print!(rt; " ")?;
    }
    println!(rt; "^ axis")
}

/// What one step came to.
fn print_answer(rt: &HostRuntime, answer: &Answer<Plain>) -> io::Result<()> {
    match answer {
        Answer::Edited => Ok(()),
        Answer::Refused(fault) => print_refusal(rt, *fault),
        Answer::Placed(placed) => draw(rt, placed),
    }
}

/// The channel as a sheet: edits, a refused swap, and placements.
fn tour_sheet(rt: &HostRuntime) -> io::Result<()> {
    println!(rt;
        "The channel as a sheet: its pairs mirror each other, amp and bias are centred on the axis."
    )?;
    let channel = SequencePair::new(NAMES.len(), &FIRST_ROW, &SECOND_ROW).map_err(refused)?;
    let answers = run(rt.alloc(), channel, &STEPS)?;
    for (step, answer) in STEPS.iter().zip(&answers) {
        print_step(rt, *step)?;
        print_answer(rt, answer)?;
    }
    Ok(())
}

fn main(rt: HostRuntime) -> io::Result<()> {
    tour_rows(&rt)?;
    tour_layers(&rt)?;
    tour_lengths(&rt)?;
    println!(rt; "")?;
    tour_sheet(&rt)
}
