//! The zonotope domain: generators, the remainder of rounding, folding, and the spread that bounds
//! how far its bound lies from the exact support number.
#![tactic(auto)]

mod advance;
mod choice;
mod extent;
mod fold;
mod generators;
mod images;
mod rounding;
mod sizes;
mod spread;
mod step;
mod stored;
pub mod zonotope;
