//! Lengths at the edges, as tables, and the theorems used at both kinds.
ghost use Rattle.length.specs.Kinds.{plain_kind, process_kind};
ghost use Rattle.length.specs.Theorems.{HalvesMeet};

use crate::shared::each;
use length::{LARGEST_SIZE, Length, PerProcess, Plain, SUM_LIMIT, theorems};
use std::test::Fail;

#[test]
fn sums_end_at_the_limit(rt: HostRuntime) {
    assert_eq!(rt; SUM_LIMIT, 1073741824);
    let rows = [
        (
            each(1073741823, 0, 0),
            each(1, 0, 0),
            Some(each(1073741824, 0, 0)),
        ),
        (each(1073741823, 0, 0), each(2, 0, 0), None),
        // the measures count together, though they stand in different processes
        (
            each(1073741823, 0, 5),
            each(0, 1, 1),
            Some(each(1073741823, 1, 6)),
        ),
        (each(1073741823, 0, 5), each(0, 2, 1), None),
        (
            each(0, 0, 1073741824),
            each(0, 0, 0),
            Some(each(0, 0, 1073741824)),
        ),
        (each(0, 4294967295, 0), each(0, 4294967295, 0), None),
    ];
    for (a, b, sum) in rows {
        assert_eq!(rt; a.plus(b), sum);
        assert_eq!(rt; b.plus(a), sum);
    }
    assert_eq!(rt;
        Plain(536870912).plus(Plain(536870912)),
        Some(Plain(1073741824))
    );
    assert_eq!(rt; Plain(536870912).plus(Plain(536870913)), None);
    assert_eq!(rt; Plain(4294967295).plus(Plain(4294967295)), None);
}

#[test]
fn differences_are_missing_where_one_process_is_too_small(rt: HostRuntime) {
    let rows = [
        (each(5, 6, 7), each(5, 6, 7), Some(each(0, 0, 0))),
        (each(5, 6, 7), each(1, 0, 7), Some(each(4, 6, 0))),
        (each(5, 6, 7), each(6, 0, 0), None),
        (each(5, 6, 7), each(0, 7, 0), None),
        (each(5, 6, 7), each(0, 0, 8), None),
    ];
    for (b, a, difference) in rows {
        assert_eq!(rt; b.minus(a), difference);
        assert_eq!(rt; a.at_most(b), difference.is_some());
        assert_eq!(rt; a.join(b) == b, difference.is_some());
    }
    assert_eq!(rt; Plain(7).minus(Plain(7)), Some(Plain::zero()));
    assert_eq!(rt; Plain(7).minus(Plain(8)), None);
}

#[test]
fn sizes_end_at_the_largest(rt: HostRuntime) {
    let rows = [
        (0, false),
        (1, true),
        (LARGEST_SIZE, true),
        (LARGEST_SIZE + 1, false),
    ];
    for (n, lawful) in rows {
        assert_eq!(rt; Plain(n).is_size(), lawful);
        assert_eq!(rt; each(n, 1, LARGEST_SIZE).is_size(), lawful);
        assert_eq!(rt; each(LARGEST_SIZE, n, 1).is_size(), lawful);
        assert_eq!(rt; each(1, LARGEST_SIZE, n).is_size(), lawful);
        assert_eq!(rt; each(0, n, 0).measure(), n);
    }
}

#[test]
fn odd_lengths_have_two_halves(rt: HostRuntime) {
    let rows = [
        (0, 0, 0),
        (1, 0, 1),
        (2, 1, 1),
        (7, 3, 4),
        (4294967295, 2147483647, 2147483648),
    ];
    for (n, lower, upper) in rows {
        assert_eq!(rt; Plain(n).lower_half(), Plain(lower));
        assert_eq!(rt; Plain(n).upper_half(), Plain(upper));
        assert_eq!(rt; Plain(n).is_even(), lower == upper);
        // odd in one process only
        assert_eq!(rt; each(4, n, 6).lower_half(), each(2, lower, 3));
        assert_eq!(rt; each(4, n, 6).upper_half(), each(2, upper, 3));
        assert_eq!(rt; each(n, 4, 6).is_even(), lower == upper);
        assert_eq!(rt; each(4, n, 6).is_even(), lower == upper);
        assert_eq!(rt; each(4, 6, n).is_even(), lower == upper);
    }
}

// The generic contract, read at each of the two kinds.
fn halves_meet_at_both(s: PerProcess, t: PerProcess) -> (Option<Plain>, Option<PerProcess>)
    ensures plain { HalvesMeet plain_kind }
    ensures process { HalvesMeet process_kind }
{
    (
        theorems::halves_meet(Plain(s.first), Plain(t.first)),
        theorems::halves_meet(s, t),
    )
}

#[test]
fn theorems_serve_both_kinds(rt: HostRuntime) {
    let (a, b, c) = (each(5, 8, 1), each(9, 2, 1), each(1, 2, 3));
    assert_eq!(rt;
        halves_meet_at_both(a, b),
        (Some(Plain(7)), Some(each(7, 5, 1)))
    );
    assert_eq!(rt; theorems::join_distributes(a, b, c), Some(each(10, 10, 4)));
    assert_eq!(rt;
        theorems::join_distributes(Plain(5), Plain(9), Plain(1)),
        Some(Plain(10))
    );
    assert_eq!(rt;
        (
            theorems::doubling_reflects(a, b),
            theorems::doubling_reflects(c, each(1, 2, 4)),
        ),
        (false, true)
    );
    assert_eq!(rt;
        (
            theorems::halves_are_ordered(Plain(5), Plain(4)),
            theorems::halves_are_ordered(a, a),
        ),
        (false, true)
    );
    assert_eq!(rt;
        theorems::halves_shift(a, c),
        Some((each(3, 6, 3), each(4, 6, 4)))
    );
    assert_eq!(rt; theorems::halves_shift(Plain(5), Plain(SUM_LIMIT)), None);
    assert_eq!(rt; theorems::upper_half_is_least(a), each(3, 4, 1));
    assert_eq!(rt;
        (theorems::even_half(Plain(6)), theorems::even_half(a)),
        (Some(Plain(3)), None)
    );
    assert_eq!(rt; theorems::join_of(&[a, b, c]), each(9, 8, 3));
    assert_eq!(rt; theorems::join_of::<Plain>(&[]), Plain(0));
}

/// How many numbers a length takes, as code reads it that is written for every kind.
fn numbers<T: Length>() -> usize {
    T::NUMBERS
}

#[test]
fn a_length_prints_its_numbers(rt: HostRuntime) -> Result<(), Fail> {
    assert_eq!(rt; (Plain::NUMBERS, numbers::<Plain>()), (1, 1));
    assert_eq!(rt; (PerProcess::NUMBERS, numbers::<PerProcess>()), (3, 3));
    assert_eq!(rt; format!(in rt.alloc(); "{}", Plain(7))?.as_str(), "7");
    assert_eq!(rt;
        format!(in rt.alloc(); "{}", each(7, 80, 0))?.as_str(),
        "7/80/0"
    );
    Ok(())
}
