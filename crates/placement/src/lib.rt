//! What a placement of a sheet is, and when there is one: meanings and theorems, no code that runs.
#![tactic(auto)]

ghost use Rattle.placement.specs.Theorems.{DownwardLoopForbids, LoopAcrossForbids, ForbiddenCoupleLoops, PathsAreShort, ValuesExist, ValuesUnique, RulePlaces, RuleIsBest, CellsLieApart, ForbiddenUnplaceable, CleanExactlyPlaceable};
ghost use Rattle.placement.specs.Witnesses.{StackOfThreeLoops, RowOfFiveLoops};
ghost use Rattle.placement.specs.PlacedRow.{OuterPairIsPlaced};

use length::theorems::laws_hold;
use length::{Length, Plain};

/// A loop downward gives a forbidden couple.
pub fn downward_loop_forbids()
    ensures { DownwardLoopForbids }
{}

/// A loop across, over cells and images, gives a forbidden couple.
pub fn loop_across_forbids()
    ensures { LoopAcrossForbids }
{}

/// A forbidden couple gives a loop, downward or across.
pub fn forbidden_couple_loops()
    ensures { ForbiddenCoupleLoops }
{}

/// Without a forbidden couple no descent has more entries than there are cells, and no chain more than twice as many.
pub fn paths_are_short()
    ensures { PathsAreShort }
{}

/// On a clean sheet all values of the rule exist, whatever the widths and heights.
pub fn values_exist<T: Length>()
    ensures { ValuesExist T.Length.kind }
{}

/// In any placement two different cells lie apart.
pub fn cells_lie_apart<T: Length>()
    ensures { CellsLieApart T.Length.kind }
{}

/// A forbidden couple leaves no placement, whatever the sizes.
pub fn forbidden_unplaceable<T: Length>()
    ensures { ForbiddenUnplaceable T.Length.kind }
{}

/// On a clean sheet the placement of the rule is a placement.
pub fn rule_places<T: Length>()
    ensures { RulePlaces T.Length.kind }
{}

/// No placement of the sheet has a lower bottom edge or a smaller half-span than the rule's.
pub fn rule_is_best<T: Length>()
    ensures { RuleIsBest T.Length.kind }
{}

/// There is at most one of each value that the rule gives.
pub fn values_unique<T: Length>()
    ensures { ValuesUnique T.Length.kind }
{}

/// No couple is forbidden exactly when some lawful whole-number sizes have a placement.
pub fn clean_exactly_placeable()
    ensures { CleanExactlyPlaceable }
{
    values_exist::<Plain>();
    rule_places::<Plain>();
    forbidden_unplaceable::<Plain>();
}

/// There are lawful sheets with a loop downward, and so with a forbidden couple: three cells in a stack are one.
pub fn stack_of_three_loops()
    ensures { StackOfThreeLoops }
{}

/// There are lawful sheets with a loop across, and so with a forbidden couple: five cells in a row are one.
pub fn row_of_five_loops()
    ensures { RowOfFiveLoops }
{}

/// A row of three cells, the outer two a pair, is a clean sheet, and what the rule gives for it is a placement.
pub fn outer_pair_is_placed()
    ensures { OuterPairIsPlaced }
{
    laws_hold::<Plain>();
}
