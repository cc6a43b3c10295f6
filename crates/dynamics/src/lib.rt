//! The checked values of a plan (model, start, direction, keep-out, state) and, in specs/, which
//! runs of the closed loop are permitted.
#![tactic(auto)]

pub mod allowance;
pub mod channel;
pub mod direction;
pub mod keep_out;
pub mod model;
mod ranges;
pub mod refusal;
pub mod start;
pub mod state;
