//! The checks that a placing makes before it computes anything: the lengths of its lists, and the sizes in them.
ghost use Rattle.std.specs.Prelude.{◌≡◌, ℕ, ◌<◌, length, Some, Decides, Option, MatchResult};
ghost use Rattle.group.specs.Group.{mate_of};
ghost use Rattle.placing.specs.Sizes.{Lists, NoLists, entries, Each, Sized, Agree, Matched, Balanced, Unlawful, Fit, ListsExact, SizesExact};

use group::Group;
use length::Length;
use refusal::{SheetFault, Side};

/// The lists of a placing, each with its number in a refusal.
#[derive(Clone, Copy)]
enum List {
    Widths = 1,
    Heights,
    Work,
    LeftEdges,
    Bottoms,
}

/// Checks the lengths of the five lists of a placing of `n` cells: two entries a cell in the work list, one in each other.
pub(crate) fn check_lists(
    n: usize,
    widths: usize,
    heights: usize,
    work: usize,
    x: usize,
    y: usize,
) -> Result<(), SheetFault>
    ensures { MatchResult result (λ _. Lists n widths heights work x y) (λ f. NoLists n widths heights work x y f) }
{
    if widths != n {
        return Err(SheetFault::ListLength {
            list: List::Widths as usize,
        });
    }
    if heights != n {
        return Err(SheetFault::ListLength {
            list: List::Heights as usize,
        });
    }
    // an entry for each cell, then one for each image (twice n may be no usize)
    if work < n || work - n != n {
        return Err(SheetFault::ListLength {
            list: List::Work as usize,
        });
    }
    if x != n {
        return Err(SheetFault::ListLength {
            list: List::LeftEdges as usize,
        });
    }
    if y != n {
        return Err(SheetFault::ListLength {
            list: List::Bottoms as usize,
        });
    }
    Ok(())
}

/// Whether two lengths are equal. (A kind of length need not have `==`, and to ask it would ask more of one: its order tells.)
fn alike<T: Length>(a: T, b: T) -> bool
    ensures { Decides result (a ≡ b) }
{
    a.at_most(b) && b.at_most(a)
}

/// Whether `a` and `b` are equally wide and equally high.
fn agree<T: Length>(widths: &[T], heights: &[T], a: usize, b: usize) -> bool
    requires widths { (a < length widths.now) × (b < length widths.now) }
    requires heights { (a < length heights.now) × (b < length heights.now) }
    ensures { let w = entries T.kind widths.now in let h = entries T.kind heights.now in Decides result (Agree w h a b) }
{
    alike(widths[a], widths[b]) && alike(heights[a], heights[b])
}

/// Checks that the width and the height of each cell are sizes.
fn check_each<T: Length>(widths: &[T], heights: &[T]) -> Result<(), SheetFault>
    requires { length widths.now ≡ length heights.now }
    ensures { let n = length widths.now in let w = entries T.kind widths.now in let h = entries T.kind heights.now in MatchResult result (λ _. Each n (Sized T.kind w h)) (λ f. (mate : ℕ → Option ℕ) → Unlawful T.kind mate n w h f) }
{
    for (cell, (width, height)) in widths.iter().zip(heights).enumerate() {
        if !width.is_size() {
            return Err(SheetFault::NotASize {
                cell,
                side: Side::Width,
            });
        }
        if !height.is_size() {
            return Err(SheetFault::NotASize {
                cell,
                side: Side::Height,
            });
        }
    }
    Ok(())
}

/// Checks that mates agree, where all are sizes.
fn check_pairs<T: Length>(group: &Group, widths: &[T], heights: &[T]) -> Result<(), SheetFault>
    requires widths { length widths.now ≡ group.now.count }
    requires heights { length heights.now ≡ group.now.count }
    ensures { let g = group.now in let w = entries T.kind widths.now in let h = entries T.kind heights.now in MatchResult result (λ _. Each g.count (Matched (mate_of g) w h)) (λ f. Each g.count (Sized T.kind w h) → Unlawful T.kind (mate_of g) g.count w h f) }
{
    // (by number: each cell is compared with another of the lists)
    for cell in 0..group.count() {
        let Some(mate) = group.partner(cell) else {
            continue;
        };
        if !agree(widths, heights, cell, mate) {
            return Err(SheetFault::PairSizesDiffer { cell, mate });
        }
    }
    Ok(())
}

/// Whether `cell` is centred.
fn is_centred(group: &Group, cell: usize) -> bool
    ensures { Decides result (mate_of group.now cell ≡ Some cell) }
{
    group.partner(cell) == Some(cell)
}

/// Checks that centred widths are even, where mates agree and all are sizes.
fn check_centres<T: Length>(group: &Group, widths: &[T]) -> Result<(), SheetFault>
    requires { length widths.now ≡ group.now.count }
    ensures { let g = group.now in let w = entries T.kind widths.now in MatchResult result (λ _. Each g.count (Balanced T.kind (mate_of g) w)) (λ f. (h : ℕ → T) → Each g.count (Sized T.kind w h) → Each g.count (Matched (mate_of g) w h) → Unlawful T.kind (mate_of g) g.count w h f) }
{
    for (cell, width) in widths.iter().enumerate() {
        if is_centred(group, cell) && !width.is_even() {
            return Err(SheetFault::OddCentre { cell });
        }
    }
    Ok(())
}

/// Checks that widths and heights are lawful for the group: all are sizes, then that mates agree, then that centred widths
/// are even. Of several faults of one sort that of the lowest cell is told, its width before its height.
pub(crate) fn check_sizes<T: Length>(
    group: &Group,
    widths: &[T],
    heights: &[T],
) -> Result<(), SheetFault>
    requires widths { length widths.now ≡ group.now.count }
    requires heights { length heights.now ≡ group.now.count }
    ensures { let g = group.now in let w = entries T.kind widths.now in let h = entries T.kind heights.now in MatchResult result (λ _. Fit T.kind g w h) (λ f. Unlawful T.kind (mate_of g) g.count w h f) }
{
    check_each(widths, heights)?;
    check_pairs(group, widths, heights)?;
    check_centres(group, widths)
}

/// A placing refuses its lists and its sizes exactly: never what is lawful, and for one fault only.
pub fn checks_are_exact<T: Length>()
    ensures lists { ListsExact }
    ensures sizes { SizesExact T.Length.kind }
{}
