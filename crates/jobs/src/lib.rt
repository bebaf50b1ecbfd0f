//! From a job's bytes to its answer's: a placement file, or the file of a refusal.
#![tactic(auto)]

mod answering;
mod steps;
mod telling;

pub use answering::answer;
