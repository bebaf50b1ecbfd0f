//! Slicing expressions by hand: small orders, combs as deep as can be, refused fillings and swaps.
use crate::shared::tells;
use book::{Book, MOST_CELLS, Relation, Slicing};
use refusal::{FieldFault, SheetFault};
use std::array;
use std::test::Fail;

/// The numbers of the longest expression.
const LONGEST: usize = 127;

/// What joins two parts of a longest expression side by side, and what stacks them.
const SIDE: usize = 64;

const STACK: usize = 65;

/// The refusal of the number at this place.
fn stops(place: usize) -> Result<(), SheetFault> {
    Err(SheetFault::Field(FieldFault::Order {
        at: 0,
        list: 1,
        place,
    }))
}

/// Cell 0, then each next cell joined to all before it: 0 1 j 2 j 3 j …
fn left_comb(join: usize) -> [usize; LONGEST] {
    array::from_fn(|place| match place {
        0 => 0,
        _ if place % 2 == 1 => place / 2 + 1,
        _ => join,
    })
}

/// Every cell first, then the joins, each of a cell and all after it: 0 1 2 3 … j j j …
fn right_comb(join: usize) -> [usize; LONGEST] {
    array::from_fn(|place| if place < MOST_CELLS { place } else { join })
}

#[test]
fn small_orders(rt: HostRuntime) -> Result<(), Fail> {
    let one = Slicing::new(1, &[0])?;
    assert_eq!(rt; one.count(), 1);
    let under_a_roof = Slicing::new(3, &[0, 1, 3, 2, 4])?;
    assert_eq!(rt; under_a_roof.count(), 3);
    tells(
        &rt,
        &under_a_roof,
        &[
            (0, 1, Relation::Left),
            (1, 0, Relation::Right),
            (2, 0, Relation::Above),
            (2, 1, Relation::Above),
            (0, 2, Relation::Below),
        ],
    );
    let beside_a_stack = Slicing::new(3, &[2, 0, 1, 4, 3])?;
    tells(
        &rt,
        &beside_a_stack,
        &[
            (2, 0, Relation::Left),
            (2, 1, Relation::Left),
            (1, 0, Relation::Above),
        ],
    );
    let two_stacks = Slicing::new(4, &[3, 1, 5, 0, 2, 5, 4])?;
    tells(
        &rt,
        &two_stacks,
        &[
            (1, 3, Relation::Above),
            (2, 0, Relation::Above),
            (3, 2, Relation::Left),
            (1, 0, Relation::Left),
        ],
    );
    Ok(())
}

#[test]
fn combs(rt: HostRuntime) -> Result<(), Fail> {
    let row = Slicing::new(MOST_CELLS, &left_comb(SIDE))?;
    tells(
        &rt,
        &row,
        &[
            (0, 63, Relation::Left),
            (31, 32, Relation::Left),
            (63, 62, Relation::Right),
        ],
    );
    let tower = Slicing::new(MOST_CELLS, &left_comb(STACK))?;
    tells(
        &rt,
        &tower,
        &[
            (63, 0, Relation::Above),
            (32, 31, Relation::Above),
            (62, 63, Relation::Below),
        ],
    );
    let same_row = Slicing::new(MOST_CELLS, &right_comb(SIDE))?;
    tells(
        &rt,
        &same_row,
        &[(0, 63, Relation::Left), (32, 31, Relation::Right)],
    );
    let same_tower = Slicing::new(MOST_CELLS, &right_comb(STACK))?;
    tells(
        &rt,
        &same_tower,
        &[(63, 0, Relation::Above), (31, 32, Relation::Below)],
    );
    assert_eq!(rt;
        row.relation(64, 0),
        Err(SheetFault::NoSuchCell { cell: 64 })
    );
    assert_eq!(rt; row.relation(5, 5), Err(SheetFault::SameCell { cell: 5 }));
    Ok(())
}

#[test]
fn refused_counts_and_lengths(rt: HostRuntime) -> Result<(), Fail> {
    let mut book = Slicing::new(2, &[1, 0, 2])?;
    assert_eq!(rt;
        book.fill(0, &[]),
        Err(SheetFault::Field(FieldFault::CellCount { at: 0, count: 0 }))
    );
    assert_eq!(rt;
        book.fill(65, &left_comb(SIDE)),
        Err(SheetFault::Field(FieldFault::CellCount { at: 0, count: 65 }))
    );
    assert_eq!(rt; book.fill(2, &[]), Err(SheetFault::ListLength { list: 1 }));
    assert_eq!(rt;
        book.fill(2, &[9, 9]),
        Err(SheetFault::ListLength { list: 1 })
    );
    assert_eq!(rt;
        book.fill(2, &[0, 1, 2, 2]),
        Err(SheetFault::ListLength { list: 1 })
    );
    tells(&rt, &book, &[(1, 0, Relation::Left)]);
    Ok(())
}

#[test]
fn refused_numbers(rt: HostRuntime) -> Result<(), Fail> {
    let mut book = Slicing::new(2, &[1, 0, 2])?;
    assert_eq!(rt; book.fill(1, &[1]), stops(0));
    assert_eq!(rt; book.fill(3, &[0, 5, 1, 3, 4]), stops(1));
    assert_eq!(rt; book.fill(3, &[0, 1, 3, 0, 4]), stops(3));
    assert_eq!(rt; book.fill(3, &[0, 0, 3, 9, 4]), stops(1));
    assert_eq!(rt; book.fill(3, &[3, 0, 1, 2, 4]), stops(0));
    assert_eq!(rt; book.fill(3, &[0, 4, 1, 2, 3]), stops(1));
    assert_eq!(rt; book.fill(3, &[0, 1, 3, 4, 2]), stops(3));
    assert_eq!(rt; book.fill(3, &[0, 1, 2, 3, 2]), stops(4));
    tells(&rt, &book, &[(1, 0, Relation::Left)]);
    assert_eq!(rt; book.fill(3, &[0, 1, 2, 3, 4]), Ok(()));
    tells(
        &rt,
        &book,
        &[(1, 2, Relation::Left), (1, 0, Relation::Above)],
    );
    Ok(())
}

#[test]
fn swaps(rt: HostRuntime) -> Result<(), Fail> {
    let mut book = Slicing::new(3, &[0, 1, 3, 2, 4])?;
    assert_eq!(rt; book.swap(3, 0), Err(SheetFault::NoSuchCell { cell: 3 }));
    assert_eq!(rt; book.swap(2, 2), Ok(()));
    tells(
        &rt,
        &book,
        &[(0, 1, Relation::Left), (2, 0, Relation::Above)],
    );
    assert_eq!(rt; book.swap(0, 2), Ok(()));
    tells(
        &rt,
        &book,
        &[
            (2, 1, Relation::Left),
            (0, 2, Relation::Above),
            (0, 1, Relation::Above),
        ],
    );
    Ok(())
}
