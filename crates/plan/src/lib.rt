//! A plan's text read into checked values, with every refusal, and the lines of a report.
#![tactic(auto)]

mod cuts;
mod entries;
pub mod faults;
mod fields;
pub mod keep;
pub mod keeps;
mod late;
mod line;
mod lines;
mod number;
pub mod plan;
pub mod reader;
mod reading;
mod record;
pub mod steps;
mod telling;
pub mod told;
mod values;
pub mod writer;
