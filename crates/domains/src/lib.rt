//! The interface of an abstract domain, the interval box, and the enclosure of a domain.
#![tactic(auto)]

pub mod axis;
pub mod domain;
pub mod enclosure;
pub mod interval_box;
mod limits;
mod support;
