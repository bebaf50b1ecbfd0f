//! The register of refusals: every way in which a file or a call can be turned down.
//!
//! Each of the three layers has a fault type of its own, an enum whose cases carry what they have to tell. A `?`
//! carries a fault upward, from bytes to fields to the sheet, with everything it holds. What comes out at the end is a
//! `Refusal`: five plain numbers, fixed for each case by one table.
#![tactic(auto)]

mod fault;
mod register;
mod words;

pub use fault::{ByteFault, FieldFault, Layer, Refusal, SheetFault, Side};
