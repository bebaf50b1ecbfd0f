//! Worked cases as tests, in a crate of their own so that the libraries are not proved twice.
#![tactic(auto)]

#[cfg(test)]
mod layers;
#[cfg(test)]
mod lengths;
#[cfg(test)]
mod sequence_pairs;
#[cfg(test)]
mod shared;
#[cfg(test)]
mod sheets;
#[cfg(test)]
mod slicing_expressions;
