//! Layers over any domains: the reduced product of two, and the split of one start between two.
#![tactic(auto)]

pub mod product;
pub mod split;
