//! Books turned and flipped, layer on layer.
use book::{Book, Flipped, Relation, SequencePair, Transposed};
use refusal::SheetFault;
use std::process::Abort;
use std::test::Fail;

/// How cell 0 lies to cell 1 where 0 is left of 1, above it, and as each of these is turned.
fn tells<B: Book>(rt: &impl Abort, book: &B, relation: Relation) {
    assert_eq!(rt; book.relation(0, 1), Ok(relation));
    assert_eq!(rt;
        book.relation(0, 2),
        Err(SheetFault::NoSuchCell { cell: 2 })
    );
    assert_eq!(rt; book.relation(1, 1), Err(SheetFault::SameCell { cell: 1 }));
}

#[test]
fn one_layer(rt: HostRuntime) -> Result<(), Fail> {
    let left = SequencePair::new(2, &[0, 1], &[0, 1])?;
    let above = SequencePair::new(2, &[0, 1], &[1, 0])?;
    tells(&rt, &Transposed::new(left), Relation::Below);
    tells(&rt, &Transposed::new(above), Relation::Right);
    tells(&rt, &Flipped::new(left), Relation::Right);
    tells(&rt, &Flipped::new(above), Relation::Above);
    Ok(())
}

#[test]
fn three_layers(rt: HostRuntime) -> Result<(), Fail> {
    let left = SequencePair::new(2, &[0, 1], &[0, 1])?;
    let mut turned = Transposed::new(Flipped::new(Transposed::new(left)));
    tells(&rt, &turned, Relation::Left);
    assert_eq!(rt; turned.swap(0, 2), Err(SheetFault::NoSuchCell { cell: 2 }));
    assert_eq!(rt; turned.swap(0, 1), Ok(()));
    tells(&rt, &turned, Relation::Right);
    tells(
        &rt,
        &turned.into_inner().into_inner().into_inner(),
        Relation::Right,
    );
    Ok(())
}
