//! Sequence-pairs by hand: small orders, the edges of the count, refused fillings and swaps.
use crate::shared::{ascending, tells};
use book::{Book, MOST_CELLS, Relation, SequencePair};
use refusal::{FieldFault, SheetFault};
use std::test::Fail;

#[test]
fn small_orders(rt: HostRuntime) -> Result<(), Fail> {
    let row = SequencePair::new(3, &[0, 2, 1], &[0, 2, 1])?;
    tells(
        &rt,
        &row,
        &[
            (0, 2, Relation::Left),
            (2, 1, Relation::Left),
            (1, 0, Relation::Right),
        ],
    );
    let stack = SequencePair::new(2, &[0, 1], &[1, 0])?;
    tells(
        &rt,
        &stack,
        &[(0, 1, Relation::Above), (1, 0, Relation::Below)],
    );
    let four = SequencePair::new(4, &[0, 2, 1, 3], &[2, 0, 3, 1])?;
    tells(
        &rt,
        &four,
        &[
            (0, 1, Relation::Left),
            (0, 2, Relation::Above),
            (2, 3, Relation::Left),
            (3, 1, Relation::Below),
        ],
    );
    Ok(())
}

#[test]
fn edges_of_the_count(rt: HostRuntime) -> Result<(), Fail> {
    let one = SequencePair::new(1, &[0], &[0])?;
    assert_eq!(rt; one.count(), 1);
    let row = ascending();
    let most = SequencePair::new(MOST_CELLS, &row, &row)?;
    tells(
        &rt,
        &most,
        &[(0, 63, Relation::Left), (63, 62, Relation::Right)],
    );
    assert_eq!(rt;
        most.relation(63, 64),
        Err(SheetFault::NoSuchCell { cell: 64 })
    );
    assert_eq!(rt;
        most.relation(65, 64),
        Err(SheetFault::NoSuchCell { cell: 65 })
    );
    assert_eq!(rt; most.relation(7, 7), Err(SheetFault::SameCell { cell: 7 }));
    Ok(())
}

#[test]
fn refused_fillings(rt: HostRuntime) -> Result<(), Fail> {
    let mut book = SequencePair::new(2, &[1, 0], &[1, 0])?;
    let row = ascending();
    assert_eq!(rt;
        book.fill(0, &[], &[]),
        Err(SheetFault::Field(FieldFault::CellCount { at: 0, count: 0 }))
    );
    assert_eq!(rt;
        book.fill(65, &row, &row),
        Err(SheetFault::Field(FieldFault::CellCount { at: 0, count: 65 }))
    );
    assert_eq!(rt;
        book.fill(2, &[0], &[0]),
        Err(SheetFault::ListLength { list: 1 })
    );
    assert_eq!(rt;
        book.fill(2, &[0, 0], &[0, 1, 2]),
        Err(SheetFault::ListLength { list: 2 })
    );
    assert_eq!(rt;
        book.fill(2, &[0, 0], &[2, 1]),
        Err(SheetFault::Field(FieldFault::Order {
            at: 0,
            list: 1,
            place: 1,
        }))
    );
    assert_eq!(rt;
        book.fill(2, &[0, 1], &[2, 1]),
        Err(SheetFault::Field(FieldFault::Order {
            at: 0,
            list: 2,
            place: 0,
        }))
    );
    tells(&rt, &book, &[(1, 0, Relation::Left)]);
    Ok(())
}

#[test]
fn swaps(rt: HostRuntime) -> Result<(), Fail> {
    let mut book = SequencePair::new(3, &[0, 1, 2], &[2, 0, 1])?;
    assert_eq!(rt; book.swap(0, 3), Err(SheetFault::NoSuchCell { cell: 3 }));
    assert_eq!(rt; book.swap(1, 1), Ok(()));
    tells(
        &rt,
        &book,
        &[
            (0, 1, Relation::Left),
            (0, 2, Relation::Above),
            (1, 2, Relation::Above),
        ],
    );
    assert_eq!(rt; book.swap(0, 2), Ok(()));
    tells(
        &rt,
        &book,
        &[
            (2, 1, Relation::Left),
            (2, 0, Relation::Above),
            (1, 0, Relation::Above),
        ],
    );
    Ok(())
}
