//! The tube: a domain that follows a model from a start, and the keep-outs that it is held against.
#![tactic(auto)]

pub mod call;
pub mod fault;
pub mod finding;
pub mod follow;
mod judging;
pub mod launched;
pub mod opened;
mod row;
pub mod summary;
pub mod table;
