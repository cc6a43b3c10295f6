//! A list of bounded length in storage of its own, for code that may not allocate.
#![tactic(auto)]

pub mod fixed_vec;
