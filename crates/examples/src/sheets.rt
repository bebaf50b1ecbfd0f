//! Sheets by hand: worked placements, refused edits, and the limits of count and size.
ghost use Rattle.std.specs.Prelude.{◌≡◌, ◌*◌, length, vec_len, IfOk};

use crate::shared::{ascending, each};
use book::{Book, Flipped, MOST_CELLS, Relation, SequencePair, Slicing, Transposed};
use length::{LARGEST_SIZE, Length, Plain};
use placing::Extent;
use refusal::{SheetFault, Side};
use sheet::{Coordinates, Sheet};
use std::alloc::Global;
use std::process::Abort;
use std::test::Fail;

/// Each length is the number at its place.
fn same(rt: &impl Abort, list: &[Plain], numbers: &[u32]) {
    assert_eq!(rt; list.len(), numbers.len());
    for (length, number) in list.iter().zip(numbers.iter()) {
        assert_eq!(rt; length.0, *number);
    }
}

/// A placement reaches as far to both sides, and as high.
fn reaches(rt: &impl Abort, placed: &Coordinates<Plain>, half_span: u32, depth: u32) {
    let Extent {
        half_span: across,
        depth: upward,
    } = placed.extent;
    assert_eq!(rt; (across.0, upward.0), (half_span, depth));
}

/// A placing with these sizes, in lists that hold `before` everywhere.
fn place<B: Book, T: Length>(
    heap: Global,
    sheet: &Sheet<B>,
    before: T,
    widths: &[T],
    heights: &[T],
) -> Result<Coordinates<T>, Fail>
    ensures x { IfOk result (λ placed. vec_len placed.x ≡ length widths.now) }
    ensures y { IfOk result (λ placed. vec_len placed.y ≡ length widths.now) }
    ensures work { IfOk result (λ placed. vec_len placed.work ≡ 2 * length widths.now) }
{
    let n = widths.len();
    let mut x = vec![in heap; before; n]?;
    let mut y = vec![in heap; before; n]?;
    let mut work = vec![in heap; before; 2 * n]?;
    let extent = sheet.place(widths, heights, &mut work, &mut x, &mut y)?;
    Ok(Coordinates { work, x, y, extent })
}

#[test]
fn a_pair_with_a_free_cell_between(rt: HostRuntime) -> Result<(), Fail> {
    let mut sheet = Sheet::new(SequencePair::new(3, &[0, 2, 1], &[0, 2, 1])?);
    sheet.pair(0, 1)?;
    let widths = [Plain(4), Plain(4), Plain(3)];
    let heights = [Plain(5), Plain(5), Plain(2)];
    let placed = place(rt.alloc(), &sheet, Plain(7), &widths, &heights)?;
    same(&rt, &placed.x, &[0, 8, 4]);
    same(&rt, &placed.y, &[0, 0, 0]);
    same(&rt, &placed.work, &[0, 7, 4, 7, 0, 4]);
    reaches(&rt, &placed, 6, 5);
    Ok(())
}

#[test]
fn a_pair_lifted_to_one_height(rt: HostRuntime) -> Result<(), Fail> {
    let mut sheet = Sheet::new(SequencePair::new(4, &[0, 2, 1, 3], &[2, 0, 3, 1])?);
    sheet.pair(0, 1)?;
    let widths = [Plain(4), Plain(4), Plain(5), Plain(4)];
    let heights = [Plain(2), Plain(2), Plain(3), Plain(7)];
    let placed = place(rt.alloc(), &sheet, Plain(7), &widths, &heights)?;
    same(&rt, &placed.x, &[0, 6, 0, 5]);
    same(&rt, &placed.y, &[7, 7, 0, 0]);
    same(&rt, &placed.work, &[0, 5, 0, 5, 5, 0, 4, 0]);
    reaches(&rt, &placed, 5, 9);
    Ok(())
}

/// Two pairs that a test of "the same order in both rows" would refuse.
#[test]
fn no_more_is_refused_than_must_be(rt: HostRuntime) -> Result<(), Fail> {
    let mut sheet = Sheet::new(SequencePair::new(4, &[0, 1, 2, 3], &[2, 0, 1, 3])?);
    sheet.pair(0, 1)?;
    sheet.pair(2, 3)?;
    let widths = [Plain(2), Plain(2), Plain(3), Plain(3)];
    let heights = [Plain(1), Plain(1), Plain(4), Plain(4)];
    let placed = place(rt.alloc(), &sheet, Plain(7), &widths, &heights)?;
    same(&rt, &placed.x, &[3, 5, 0, 7]);
    same(&rt, &placed.y, &[4, 4, 0, 0]);
    reaches(&rt, &placed, 5, 5);
    Ok(())
}

#[test]
fn sheets_over_other_books(rt: HostRuntime) -> Result<(), Fail> {
    let mut sliced = Sheet::new(Slicing::new(3, &[0, 1, 3, 2, 4])?);
    sliced.pair(0, 1)?;
    sliced.centre(2)?;
    let widths = [Plain(3), Plain(3), Plain(4)];
    let heights = [Plain(2), Plain(2), Plain(1)];
    let placed = place(rt.alloc(), &sliced, Plain(7), &widths, &heights)?;
    same(&rt, &placed.x, &[0, 3, 1]);
    same(&rt, &placed.y, &[0, 0, 2]);
    same(&rt, &placed.work, &[0, 3, 0, 3, 0, 0]);
    reaches(&rt, &placed, 3, 3);
    let row = SequencePair::new(2, &[0, 1], &[0, 1])?;
    let mut turned = Sheet::new(Transposed::new(row));
    assert_eq!(rt;
        turned.pair(0, 1),
        Err(SheetFault::Unplaceable {
            first: 1,
            second: 0,
        })
    );
    let mut both = Sheet::new(Transposed::new(Flipped::new(row)));
    assert_eq!(rt;
        both.pair(0, 1),
        Err(SheetFault::Unplaceable {
            first: 0,
            second: 1,
        })
    );
    let mut flipped = Sheet::new(Flipped::new(row));
    assert_eq!(rt; flipped.pair(0, 1), Ok(()));
    Ok(())
}

#[test]
fn refused_edits_change_nothing(rt: HostRuntime) -> Result<(), Fail> {
    let mut crossed = Sheet::new(SequencePair::new(4, &[0, 1, 2, 3], &[0, 1, 2, 3])?);
    crossed.pair(0, 2)?;
    assert_eq!(rt;
        crossed.pair(1, 3),
        Err(SheetFault::Unplaceable {
            first: 0,
            second: 1,
        })
    );
    assert_eq!(rt; crossed.pair(1, 1), Err(SheetFault::SameCell { cell: 1 }));
    assert_eq!(rt;
        crossed.pair(1, 2),
        Err(SheetFault::AlreadyGrouped { cell: 2 })
    );
    assert_eq!(rt; crossed.centre(4), Err(SheetFault::NoSuchCell { cell: 4 }));
    assert_eq!(rt; crossed.release(3), Err(SheetFault::NotGrouped { cell: 3 }));
    assert_eq!(rt; crossed.partner(0), Ok(Some(2)));
    crossed.release(2)?;
    assert_eq!(rt; crossed.partner(0), Ok(None));
    crossed.pair(0, 3)?;
    crossed.pair(1, 2)?;
    let mut swapped = Sheet::new(SequencePair::new(3, &[0, 1, 2], &[2, 0, 1])?);
    swapped.pair(0, 1)?;
    assert_eq!(rt;
        swapped.swap(1, 2),
        Err(SheetFault::Unplaceable {
            first: 0,
            second: 1,
        })
    );
    assert_eq!(rt; swapped.relation(0, 1), Ok(Relation::Left));
    let widths = [Plain(2), Plain(2), Plain(3)];
    let heights = [Plain(1), Plain(1), Plain(4)];
    let placed = place(rt.alloc(), &swapped, Plain(7), &widths, &heights)?;
    same(&rt, &placed.x, &[0, 2, 0]);
    same(&rt, &placed.y, &[4, 4, 0]);
    reaches(&rt, &placed, 2, 5);
    Ok(())
}

#[test]
fn refused_sizes_leave_the_lists(rt: HostRuntime) -> Result<(), Fail> {
    let mut sheet = Sheet::new(SequencePair::new(2, &[0, 1], &[0, 1])?);
    sheet.pair(0, 1)?;
    let (mut work, mut x, mut y) = ([Plain(9); 4], [Plain(9); 2], [Plain(9); 2]);
    let (two, unlike, none) = (
        [Plain(2), Plain(2)],
        [Plain(2), Plain(3)],
        [Plain(0), Plain(2)],
    );
    let refused = [
        (&two[..1], &two, SheetFault::ListLength { list: 1 }),
        (
            &two[..],
            &none,
            SheetFault::NotASize {
                cell: 0,
                side: Side::Height,
            },
        ),
        (
            &unlike[..],
            &two,
            SheetFault::PairSizesDiffer { cell: 0, mate: 1 },
        ),
    ];
    for (widths, heights, fault) in refused {
        let placed = sheet.place(widths, heights, &mut work, &mut x, &mut y);
        assert_eq!(rt; placed.err(), Some(fault));
    }
    let short = sheet.place(&two, &two, &mut [Plain(9); 3], &mut x, &mut y);
    assert_eq!(rt; short.err(), Some(SheetFault::ListLength { list: 3 }));
    same(&rt, &work, &[9, 9, 9, 9]);
    same(&rt, &x, &[9, 9]);
    same(&rt, &y, &[9, 9]);
    Ok(())
}

/// 64 cells in a row, the outer two a pair, and so on inward, each as large as a cell can be.
#[test]
fn the_largest_sheet(rt: HostRuntime) -> Result<(), Fail> {
    let row = ascending();
    let mut sheet = Sheet::new(SequencePair::new(MOST_CELLS, &row, &row)?);
    for i in 0..MOST_CELLS / 2 {
        sheet.pair(i, MOST_CELLS - 1 - i)?;
    }
    let size = [Plain(LARGEST_SIZE); MOST_CELLS];
    let placed = place(rt.alloc(), &sheet, Plain(0), &size, &size)?;
    reaches(&rt, &placed, 32 << 20, 1 << 20);
    assert_eq!(rt; (placed.x[63].0, placed.work[64].0), (63 << 20, 63 << 20));
    Ok(())
}

/// Two free cells in a stack, in three processes: the span is that of no single chain.
#[test]
fn three_processes(rt: HostRuntime) -> Result<(), Fail> {
    let sheet = Sheet::new(SequencePair::new(2, &[0, 1], &[1, 0])?);
    let widths = [each(4, 1, 2), each(1, 6, 2)];
    let heights = [each(1, 2, 3), each(2, 2, 2)];
    let Coordinates { x, y, extent, .. } = place(
        rt.alloc(),
        &sheet,
        each(9, 9, 9),
        &widths,
        &heights,
    )?;
    assert_eq!(rt; extent.half_span, each(2, 3, 1));
    assert_eq!(rt; extent.depth, each(3, 4, 5));
    assert_eq!(rt; x[0], each(0, 2, 0));
    assert_eq!(rt; x[1], each(1, 0, 0));
    assert_eq!(rt; y[0], each(2, 2, 2));
    Ok(())
}

/// Two left edges and a width make up the span.
fn mirror(rt: &impl Abort, left: u32, right: u32, width: u32, half_span: u32) {
    assert_eq!(rt;
        u64::from(left) + u64::from(right) + u64::from(width),
        2 * u64::from(half_span)
    );
}

/// Cells 0 and 1, side by side in this book of three, mirror each other in one number and in three.
fn mirrors<B: Book + Drop>(rt: &(impl Abort + AllocGlobal), book: B) -> Result<(), Fail> {
    let mut sheet = Sheet::new(book);
    sheet.pair(0, 1)?;
    let widths = [Plain(4), Plain(4), Plain(3)];
    let heights = [Plain(5), Plain(5), Plain(2)];
    let plain = place(rt.alloc(), &sheet, Plain(9), &widths, &heights)?;
    mirror(rt, plain.x[0].0, plain.x[1].0, 4, plain.extent.half_span.0);
    reaches(rt, &plain, 6, 5);
    let widths = [each(4, 6, 5), each(4, 6, 5), each(3, 2, 4)];
    let heights = [each(1, 1, 1); 3];
    let Coordinates { x, extent, .. } = place(
        rt.alloc(),
        &sheet,
        each(9, 9, 9),
        &widths,
        &heights,
    )?;
    let half_span = extent.half_span;
    mirror(rt, x[0].first, x[1].first, 4, half_span.first);
    mirror(rt, x[0].second, x[1].second, 6, half_span.second);
    mirror(rt, x[0].third, x[1].third, 5, half_span.third);
    assert_eq!(rt; half_span, each(6, 7, 7));
    Ok(())
}

#[test]
fn both_kinds_of_length_over_every_book(rt: HostRuntime) -> Result<(), Fail> {
    let row = SequencePair::new(3, &[0, 2, 1], &[0, 2, 1])?;
    let stack = SequencePair::new(3, &[0, 2, 1], &[1, 2, 0])?;
    mirrors(&rt, row)?;
    mirrors(&rt, Slicing::new(3, &[0, 2, 3, 1, 3])?)?;
    mirrors(&rt, Flipped::new(row))?;
    mirrors(&rt, Transposed::new(stack))?;
    mirrors(&rt, Transposed::new(Flipped::new(stack)))
}

#[test]
fn alike_sheets(rt: HostRuntime) -> Result<(), Fail> {
    let mut rows = Sheet::new(SequencePair::new(3, &[2, 0, 1], &[0, 1, 2])?);
    let mut sliced = Sheet::new(Slicing::new(3, &[0, 1, 3, 2, 4])?);
    assert!(rt; rows.alike(&sliced));
    rows.pair(0, 1)?;
    assert!(rt; !rows.alike(&sliced));
    sliced.pair(1, 0)?;
    assert!(rt; sliced.alike(&rows));
    sliced.swap(0, 1)?;
    assert!(rt; !sliced.alike(&rows));
    Ok(())
}
