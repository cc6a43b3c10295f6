//! Whole-number arithmetic that the other layers stand on: rounding at the fixed point, and the
//! products of four-part vectors with the loop matrix and the gust matrix.
#![tactic(auto)]

pub mod kernel;
pub mod rounding;
pub mod size;
