//! Values for the tests: models, starts, directions, keep-outs and intervals from plain numbers. A
//! value that is refused fails the test.
#![tactic(auto)]

pub mod intervals;
pub mod values;
