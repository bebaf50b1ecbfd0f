//! Worked cases: sheets with what calls on them come to, and numbers with their bytes, by the definitions that the
//! contracts of the other crates use. One list and one theorem, no code that runs.
#![tactic(auto)]

ghost use Rattle.worked.specs.Worked.{Worked};

use length::Plain;
use length::theorems::laws_hold;

/// Each worked case comes out as it says.
pub fn worked_cases_come_out()
    ensures { Worked }
{
    laws_hold::<Plain>();
}
