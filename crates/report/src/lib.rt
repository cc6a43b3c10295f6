//! The whole job: the bytes of a plan in, the bytes of its report out, over the reduced product of
//! zonotope and interval box.
#![tactic(auto)]

mod answers;
pub mod fault;
mod lines;
mod questions;
pub mod report;
