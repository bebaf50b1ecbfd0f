//! The laws of job files and placement files: what was written reads back, and every run of bytes is one file or none.
#![tactic(auto)]

ghost use Rattle.roundtrip.specs.Laws.{JobFormat, PlacementFormat};

/// A job that was written reads back to the same; two lawful jobs are equal exactly when their files are; and every run of
/// bytes is the file of one lawful job, or is refused.
pub fn job_laws()
    ensures { JobFormat }
{}

/// The same of placements.
pub fn placement_laws()
    ensures { PlacementFormat }
{}
